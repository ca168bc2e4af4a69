//! Number fields: digits at the right end of their columns, blanks before them.
ghost use Rattle.std.specs.Prelude.{◌≡◌, ℕ, ◌^◌, ◌<◌, ◌≤◌, true, length, take, replicate, decimal, MatchOption, ◌≢◌, slice_index};
ghost use Rattle.std.specs.Str.{all_ascii_digits};
ghost use Rattle.fields.specs.Fields.{Shows, number};

/// The widest field, in columns.
pub const WIDEST: usize = 10;

/// The number that a field shows, if it is what would be written for some number at its width.
pub fn number_in(field: &[u8]) -> Option<u64>
    ensures { MatchOption result ((n : ℕ) → Shows field.now n → ⊥) (λ n. Shows field.now n) }
{
    if field.len() > WIDEST {
        return None;
    }
    plain_number(&field[blanks(field)..])
}

/// How many blanks lead.
fn blanks(field: &[u8]) -> usize
    ensures within { result ≤ length field.now }
    ensures before { take result field.now ≡ replicate result 32 }
    ensures after { result < length field.now → slice_index field.now result ≢ 32 }
{
    field.iter().position(|b| *b != b' ').unwrap_or(field.len())
}

/// The number whose digits these are, with no leading zero but in 0 itself.
fn plain_number(digits: &[u8]) -> Option<u64>
    requires { length digits.now ≤ 10 }
    ensures { MatchOption result ((n : ℕ) → n < 2 ^ 64 → digits.now ≢ decimal n) (λ n. (n < 10 ^ length digits.now) × (digits.now ≡ decimal n)) }
{
    match digits {
        [] => None,
        [b'0', _, ..] => None,
        _ => number_of(digits),
    }
}

/// The number that digits write; none where another byte stands among them.
fn number_of(digits: &[u8]) -> Option<u64>
    requires { length digits.now ≤ 10 }
    ensures { MatchOption result (all_ascii_digits digits.now ≢ true) (λ n. (all_ascii_digits digits.now ≡ true) × (n ≡ number digits.now)) }
{
    // A loop: the bound of `n` rests on how many digits came before, which the closure of a fold is not told. `parse` takes a leading plus sign.
    let mut n = 0u64;
    for b in digits {
        if !b.is_ascii_digit() {
            return None;
        }
        n = n * 10 + u64::from(*b - b'0');
    }
    Some(n)
}

//! Numbers written into columns.
ghost use Rattle.std.specs.Prelude.{◌≡◌, ◌-◌, ◌++◌, ◌↔◌, length, take, decimal, IsTrue};
ghost use Rattle.fields.specs.Putting.{Fits, Puts};

/// Writes a number at the right end of the columns, with blanks before it, and answers whether it fits them.
///
/// Where it does not, the columns stay as they were.
pub fn put_number(columns: &mut [u8], n: u64) -> bool
    ensures { Puts columns.old n columns.new result }
{
    if !fits(n, columns.len()) {
        return false;
    }
    columns.fill(b' ');
    put_digits(columns, n);
    true
}

/// Whether a number has no more digits than there are columns.
fn fits(n: u64, width: usize) -> bool
    ensures { IsTrue result ↔ Fits width n }
{
    // 10 ^ 20 is past the largest u64.
    match width {
        0 => false,
        1..=19 => n < 10u64.pow(width as u32),
        _ => true,
    }
}

/// Writes the digits of a number at the right end; what stands before them stays.
fn put_digits(columns: &mut [u8], n: u64)
    requires { Fits (length columns.old) n }
    ensures { columns.new ≡ take (length columns.old - length (decimal n)) columns.old ++ decimal n }
{
    let mut at = columns.len() - 1;
    let mut left = n;
    while left >= 10 {
        columns[at] = b'0' + (left % 10) as u8;
        left /= 10;
        at -= 1;
    }
    columns[at] = b'0' + left as u8;
}

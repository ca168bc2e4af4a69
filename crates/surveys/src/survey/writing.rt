//! Writing a grade where another stands.
ghost use Rattle.std.specs.Prelude.{◌≡◌, ◌<◌, length, MatchBool, ◌≢◌, slice_index_or, slice_set};

use grades::grade::Grade;

/// Writes a grade to a place of a table, and answers whether that altered it.
pub(super) fn put<G: Grade>(table: &mut [G], place: usize, grade: G) -> bool
    requires { place < length table.old }
    ensures says { MatchBool result (slice_index_or table.old place G.kind.lowest ≢ grade) (slice_index_or table.old place G.kind.lowest ≡ grade) }
    ensures after { table.new ≡ slice_set table.old place grade }
{
    if table[place].same(grade) {
        return false;
    }
    table[place] = grade;
    true
}

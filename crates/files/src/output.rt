//! Lines written at the front of an output.
ghost use Rattle.std.specs.Prelude.{◌≡◌, ◌≤◌, [], length};
ghost use Rattle.files.specs.Listings.{Writes};
ghost use Rattle.files.specs.Lines.{ColumnsFit, five, ten, line_length, line_text};

use fields::writing::put_number;

/// A number, and how many columns it has.
#[derive(Clone, Copy, PartialEq, Eq, Debug)]
pub(crate) struct Column {
    pub(crate) width: usize,
    pub(crate) number: u64,
}

impl Column {
    /// A number in five columns.
    pub(crate) fn narrow(number: u64) -> Self
        ensures { result ≡ five number }
    {
        Column { width: 5, number }
    }

    /// A number in ten columns, as those of grades and of steps.
    pub(crate) fn wide(number: u64) -> Self
        ensures { result ≡ ten number }
    {
        Column { width: 10, number }
    }
}

/// Writes a line at the front of the output, and answers how many bytes it takes.
pub(crate) fn put_line(output: &mut [u8], letter: u8, columns: &[Column]) -> usize
    requires columns { ColumnsFit columns.now }
    requires room { line_length columns.now ≤ length output.old }
    ensures size { result ≡ length (line_text letter columns.now []) }
    ensures writes { Writes output.old output.new (line_text letter columns.now []) }
{
    output[0] = letter;
    let mut at = 1;
    for &Column { width, number } in columns {
        let behind = at + width;
        // The number fits, so the answer is yes.
        put_number(&mut output[at..behind], number);
        at = behind;
    }
    output[at] = b'\n';
    at + 1
}

//! Lines of a survey file, read off the front of a text.
ghost use Rattle.std.specs.Prelude.{[], ◌∷◌};
ghost use Rattle.files.specs.Lines.{RowForm};
ghost use Rattle.files.specs.Taking.{AreWidths, FitWidths, Takes, TakesRow, TakesText, columns_behind};

use crate::fault::{FieldFault, LineCause};
use fields::reading::take_number;

/// A kind of line.
pub(crate) trait Row: Copy {
    ghost form: { RowForm Self };

    /// Takes a line off the front of the text.
    fn take(text: &[u8]) -> Result<(Self, &[u8]), LineCause>
        ensures { TakesRow form text.now result };
}

/// Takes the letter that a line begins with, and numbers in columns of these widths.
pub(crate) fn take_columns<const N: usize>(
    text: &[u8],
    letter: u8,
    widths: [usize; N],
) -> Result<([u64; N], &[u8]), LineCause>
    requires { AreWidths widths }
    ensures { Takes (columns_behind letter widths.entry) (FitWidths widths.entry) text.now result }
{
    let mut rest = take_letter(text, letter)?;
    let mut numbers = [0; N];
    for (i, width) in widths.iter().enumerate() {
        let (number, behind) = take_number(rest, *width).ok_or(FieldFault::NoNumber)?;
        numbers[i] = number;
        rest = behind;
    }
    Ok((numbers, rest))
}

/// Takes the letter that a line begins with.
fn take_letter(text: &[u8], letter: u8) -> Result<&[u8], LineCause>
    ensures { TakesText (letter ∷ []) text.now result }
{
    match text {
        [first, rest @ ..] if *first == letter => Ok(rest),
        _ => Err(LineCause::OtherLine),
    }
}

/// Takes the end of a line.
pub(crate) fn take_end(text: &[u8]) -> Result<&[u8], LineCause>
    ensures { TakesText (10 ∷ []) text.now result }
{
    match text {
        [b'\n', rest @ ..] => Ok(rest),
        _ => Err(LineCause::NoEnd),
    }
}

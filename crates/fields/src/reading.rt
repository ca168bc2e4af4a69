//! Numbers read off the front of a text.
ghost use Rattle.fields.specs.Taking.{Takes};

use crate::field::number_in;

/// The number in so many columns at the front of a text, and the text behind them.
///
/// None where the columns do not show a number, or are more than ten.
pub fn take_number(text: &[u8], width: usize) -> Option<(u64, &[u8])>
    ensures { Takes width text.now result }
{
    if text.len() < width {
        return None;
    }
    let (columns, rest) = text.split_at(width);
    Some((number_in(columns)?, rest))
}

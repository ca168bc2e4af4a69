//! Reading a table of links.
ghost use Rattle.std.specs.Prelude.{◌≡◌};
ghost use Rattle.shapes.specs.Links.{linked_tree};
ghost use Rattle.shapes.specs.Tree.{along};

use crate::axis::Axis;
use crate::links::{Links, NO_LINKS};

/// What a node leads to along an axis; nothing at the table's end and past it.
pub(crate) fn led_to(rows: &[Links], axis: Axis, node: usize) -> Option<usize>
    ensures { result ≡ along (linked_tree rows.now) axis node }
{
    rows.get(node).copied().unwrap_or(NO_LINKS).along(axis)
}

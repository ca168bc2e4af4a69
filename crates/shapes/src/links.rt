//! One node's links as they stand in a table.
ghost use Rattle.std.specs.Prelude.{◌≡◌};
ghost use Rattle.shapes.specs.Links.{link, led_by};

use crate::axis::Axis;

/// The four neighbours of a node by number; 65,535 is none.
// Numbers and no options, by a rule of the project: callers lend tables of this fixed format.
#[derive(Clone, Copy, PartialEq, Eq, Debug)]
pub struct Links {
    pub first: u16,
    pub next: u16,
    pub owner: u16,
    pub previous: u16,
}

const NO_LINK: u16 = 65_535;

/// The links of a node that stands alone.
pub(crate) const NO_LINKS: Links = Links {
    first: NO_LINK,
    next: NO_LINK,
    owner: NO_LINK,
    previous: NO_LINK,
};

fn decoded(number: u16) -> Option<usize>
    ensures { result ≡ link number }
{
    (number != NO_LINK).then_some(usize::from(number))
}

impl Links {
    /// Where the link along an axis leads.
    pub(crate) fn along(self, axis: Axis) -> Option<usize>
        ensures { result ≡ led_by self axis }
    {
        match axis {
            Axis::First => decoded(self.first),
            Axis::Next => decoded(self.next),
            Axis::Owner => decoded(self.owner),
            Axis::Previous => decoded(self.previous),
        }
    }
}

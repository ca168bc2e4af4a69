//! Terms: how a definition's grade at a node comes about.
ghost use Rattle.std.specs.Prelude.{◌≡◌};
ghost use Rattle.queries.specs.Operands.{operands_of};

use shapes::axis::Axis;
use std::fmt;

/// A definition; operands are terms by their number.
#[derive(Clone, Copy, PartialEq, Eq, Debug)]
pub enum Term {
    /// The mark of a tag.
    Mark(usize),
    /// The turn of a term.
    Turn(usize),
    Meet(usize, usize),
    Join(usize, usize),
    /// A term at the neighbour; lowest where there is none.
    SomeNeighbour(Axis, usize),
    /// A term at the neighbour; highest where there is none.
    EveryNeighbour(Axis, usize),
    Lowest,
    Highest,
}

/// The terms that a term reads; a single one stands on both sides.
#[derive(Clone, Copy, PartialEq, Eq, Debug)]
pub struct Operands {
    pub left: usize,
    pub right: usize,
}

impl Term {
    /// The terms that this one reads, if it reads any.
    pub fn operands(self) -> Option<Operands>
        ensures { result ≡ operands_of self }
    {
        match self {
            Term::Mark(_) | Term::Lowest | Term::Highest => None,
            Term::Meet(left, right) | Term::Join(left, right) => Some(Operands { left, right }),
            Term::Turn(a) | Term::SomeNeighbour(_, a) | Term::EveryNeighbour(_, a) => Some(
                Operands { left: a, right: a },
            ),
        }
    }
}

impl fmt::Display for Term {
    fn fmt<W: fmt::Write>(&self, f: &mut fmt::Formatter<W>) -> fmt::Result {
        match *self {
            Term::Mark(tag) => write!(f, "the mark of tag {tag}"),
            Term::Turn(a) => write!(f, "the turn of term {a}"),
            Term::Meet(a, b) => write!(f, "the meet of terms {a} and {b}"),
            Term::Join(a, b) => write!(f, "the join of terms {a} and {b}"),
            Term::SomeNeighbour(axis, a) => {
                write!(
                    f,
                    "term {a} at the {axis} neighbour, lowest where there is none"
                )
            }
            Term::EveryNeighbour(axis, a) => {
                write!(
                    f,
                    "term {a} at the {axis} neighbour, highest where there is none"
                )
            }
            Term::Lowest => f.write_str("lowest"),
            Term::Highest => f.write_str("highest"),
        }
    }
}

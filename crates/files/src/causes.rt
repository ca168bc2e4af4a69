//! The first cause to refuse a file that was read.
ghost use Rattle.std.specs.Prelude.{◌≡◌, ℕ, ◌+◌, List, map, length, Some, MatchResult};
ghost use Rattle.files.specs.Causes.{FirstCause, NoCause, depths_in, node_line, block_line, mark_line};
ghost use Rattle.files.specs.Checking.{CheckedTo, Checks};
ghost use Rattle.files.specs.Contents.{InOrder, Fitting, contents_of, lines_of};
ghost use Rattle.files.specs.Faults.{number_of_cause};
ghost use Rattle.files.specs.Reading.{Stopped, capped};

use crate::contents::{FileContents, ReadFile};
use crate::fault::{LineCause, LineFault};
use crate::numbering::line_of_node;
use crate::rows::AskedRow;
use crate::tables::Room;
use shapes::depth::first_fault;
use shapes::refusal::ShapeRefusal;
use surveys::refusal::SurveyRefusal;

mod head;
mod marks;
mod query;

/// What is checked: what a file says, and the room of the tables that it is to be settled in.
#[derive(Clone, Copy)]
struct Checked<'a> {
    contents: &'a FileContents,
    room: Room,
}

impl Checked<'_> {
    /// The lines of the nodes, once the head is checked.
    fn nodes(self, depths: &[u16]) -> Result<(), LineFault>
        requires depths { depths.now ≡ map capped (depths_in (contents_of self.contents.now)) }
        requires checked { CheckedTo self.room (contents_of self.contents.now) (node_line 0) }
        ensures { let c = contents_of self.entry.contents.now in Checks self.entry.room c (node_line (length c.nodes)) result }
    {
        match first_fault(depths) {
            Some(node) => {
                let cause = LineCause::from(ShapeRefusal::UnlawfulDepth { node });
                Err(cause.at(line_of_node(node)))
            }
            None => Ok(()),
        }
    }

    /// The line that asks, once all before it is checked.
    fn asked(self) -> Result<(), LineFault>
        requires { let c = contents_of self.contents.now in CheckedTo self.room c (mark_line c (length c.marks)) }
        ensures { let c = contents_of self.entry.contents.now in Checks self.entry.room c (lines_of c + 1) result }
    {
        match self.contents.asked {
            Some(row) if row.term >= self.contents.head.terms => {
                Err(LineCause::from(SurveyRefusal::NotInSurvey).at(self.contents.lines()))
            }
            _ => Ok(()),
        }
    }
}

/// The row that a file asks for where nothing is wrong with it, and the first cause to refuse it where something is.
///
/// The depths are those of the nodes, with the greatest of 16 bits in place of a greater one.
pub(crate) fn check(read: &ReadFile, depths: &[u16], room: Room) -> Result<AskedRow, LineFault>
    requires depths { depths.now ≡ map capped (depths_in (contents_of read.now.contents)) }
    requires in_order { InOrder (contents_of read.now.contents) }
    requires fitting { Fitting (contents_of read.now.contents) }
    ensures { (rest : List ℕ) → Stopped (contents_of read.now.contents) rest read.now.fault →
        MatchResult result
        (λ row. (read.now.contents.asked ≡ Some row) × NoCause room (contents_of read.now.contents) rest)
        (λ f. FirstCause room (contents_of read.now.contents) rest (number_of_cause f.cause) f.line) }
{
    let file = Checked {
        contents: &read.contents,
        room,
    };
    file.head()?;
    file.nodes(depths)?;
    file.query()?;
    file.marks()?;
    file.asked()?;
    match (read.fault, read.contents.asked) {
        (None, Some(row)) => Ok(row),
        (None, None) => Err(LineCause::OtherLine.at(read.contents.lines() + 1)),
        (Some(cause), _) => Err(cause.at(read.contents.lines() + 1)),
    }
}

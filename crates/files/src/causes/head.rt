//! The check of the first line.
ghost use Rattle.std.specs.Prelude.{◌≡◌, ◌+◌, ◌^◌, ◌<◌, ◌≤◌, Decides, MatchResult};
ghost use Rattle.shapes.specs.Tree.{Countable};
ghost use Rattle.files.specs.Causes.{HasRoom, HeadCause, node_line};
ghost use Rattle.files.specs.Checking.{FirstOn, HeadSound, Checks};
ghost use Rattle.files.specs.Contents.{InOrder, contents_of, lines_of};
ghost use Rattle.files.specs.Faults.{number_of_cause};

use crate::causes::Checked;
use crate::fault::{LineCause, LineFault};
use crate::head::Head;
use crate::tables::Room;
use queries::refusal::QueryRefusal;
use shapes::count::is_countable;
use shapes::refusal::ShapeRefusal;
use surveys::refusal::SurveyRefusal;

/// The most tags that a query may have.
const MOST_TAGS: u32 = 16;

/// The most terms that a query may have.
pub(super) const MOST_TERMS: u32 = 64;

impl Room {
    /// Whether there is room for a mark of each tag at each node, and for a value and a waiting place of each term.
    fn has(self, head: Head) -> bool
        requires nodes { Countable head.nodes }
        requires tags { head.tags ≤ 16 }
        requires terms { head.terms ≤ 64 }
        ensures { Decides result (HasRoom self head) }
    {
        let marks = head.tags as usize * head.nodes as usize;
        let values = head.terms as usize * head.nodes as usize;
        marks <= self.marks && values <= self.values && values <= self.waiting
    }
}

impl Head {
    /// Whether nothing is wrong with the head of a file, and the first cause where something is.
    fn check(self, room: Room) -> Result<(), LineCause>
        ensures { MatchResult result (λ _. HeadSound room self) (λ cause. FirstOn (HeadCause room self) (number_of_cause cause)) }
    {
        if !is_countable(self.nodes as usize) {
            return Err(ShapeRefusal::NodeCount.into());
        }
        if self.tags > MOST_TAGS || self.terms == 0 || self.terms > MOST_TERMS {
            return Err(QueryRefusal::Sizes.into());
        }
        if self.blocks == 0 {
            return Err(QueryRefusal::BlockSum.into());
        }
        if !room.has(self) {
            return Err(SurveyRefusal::TableOrCounts.into());
        }
        Ok(())
    }
}

impl Checked<'_> {
    /// The first line.
    pub(super) fn head(self) -> Result<(), LineFault>
        requires in_order { InOrder (contents_of self.contents.now) }
        requires few { lines_of (contents_of self.contents.now) + 1 < 2 ^ 64 }
        ensures { Checks self.entry.room (contents_of self.entry.contents.now) (node_line 0) result }
    {
        match self.contents.head.check(self.room) {
            Ok(()) => Ok(()),
            Err(cause) => Err(cause.at(1)),
        }
    }
}

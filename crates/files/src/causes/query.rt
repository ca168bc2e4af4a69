//! The check of the lines of the blocks and terms.
ghost use Rattle.std.specs.Prelude.{◌≡◌, ℕ, ◌-◌, ◌≤◌, ◌++◌, List, length, replicate, MatchOption, MatchResult};
ghost use Rattle.queries.specs.Admission.{Admissible, Breaks};
ghost use Rattle.queries.specs.Refusals.{published};
ghost use Rattle.files.specs.Causes.{FirstCause, lowest_row, node_line, term_line, rows_in};
ghost use Rattle.files.specs.Checking.{CheckedTo, Checks};
ghost use Rattle.files.specs.Contents.{contents_of};

use crate::causes::Checked;
use crate::causes::head::MOST_TERMS;
use crate::fault::{LineCause, LineFault};
use queries::refusal::QueryRefusal;
use queries::rows::{QueryTable, TermRow};

/// A place for each term that a query may have.
const PLACES: usize = MOST_TERMS as usize;

/// The lowest term, in the place of one that was not read.
const LOWEST: TermRow = TermRow {
    kind: 12,
    a: 0,
    b: 0,
};

/// These terms, and the lowest in the places behind them.
fn padded(terms: &[TermRow]) -> [TermRow; PLACES]
    requires { length terms.now ≤ 64 }
    ensures { result ≡ terms.now ++ replicate (64 - length terms.now) lowest_row }
{
    let mut rows = [LOWEST; PLACES];
    rows[..terms.len()].copy_from_slice(terms);
    rows
}

impl Checked<'_> {
    /// Whether the query keeps every rule, and the first that it breaks where not.
    // Terms that are missing stand as the lowest, so that those that were read are checked by themselves.
    fn check_padded(self) -> Result<(), QueryRefusal>
        requires read { length self.contents.now.terms.items ≤ self.contents.now.head.terms }
        requires few { self.contents.now.head.terms ≤ 64 }
        ensures { let r = rows_in (contents_of self.entry.contents.now) in MatchResult result (λ _. Admissible r) (Breaks r) }
    {
        let head = self.contents.head;
        let terms = padded(&self.contents.terms);
        let table = QueryTable {
            tags: head.tags,
            blocks: &self.contents.blocks,
            terms: &terms[..head.terms as usize],
        };
        table.check()
    }

    /// The line that the query is refused for; none where all that is wrong is that blocks are missing.
    fn refused_line(self, why: QueryRefusal) -> Option<usize>
        requires checked { let c = contents_of self.contents.now in CheckedTo self.room c (node_line (length c.nodes)) }
        requires breaks { Breaks (rows_in (contents_of self.contents.now)) why }
        ensures { let c = contents_of self.entry.contents.now in MatchOption result (CheckedTo self.entry.room c (term_line c (length c.terms))) (λ line. (rest : List ℕ) → FirstCause self.entry.room c rest (published why) line) }
    {
        let blocks = self.contents.blocks.len();
        match why {
            QueryRefusal::BadBlock { block } => Some(self.contents.line_of_block(block)),
            QueryRefusal::BlockSum if blocks == self.contents.head.blocks as usize => {
                Some(self.contents.line_of_block(blocks - 1))
            }
            QueryRefusal::BlockSum => None,
            QueryRefusal::BadTerm { term }
            | QueryRefusal::LaterBlock { term }
            | QueryRefusal::OwnTurn { term } => Some(self.contents.line_of_term(term)),
            QueryRefusal::Sizes | QueryRefusal::NoMemory => unreachable!(),
        }
    }

    /// The lines of the blocks and terms, once all before them is checked.
    pub(super) fn query(self) -> Result<(), LineFault>
        requires { let c = contents_of self.contents.now in CheckedTo self.room c (node_line (length c.nodes)) }
        ensures { let c = contents_of self.entry.contents.now in Checks self.entry.room c (term_line c (length c.terms)) result }
    {
        let Err(why) = self.check_padded() else {
            return Ok(());
        };
        match self.refused_line(why) {
            Some(line) => Err(LineCause::from(why).at(line)),
            None => Ok(()),
        }
    }
}

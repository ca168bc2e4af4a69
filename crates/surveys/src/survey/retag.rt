//! Marks changed while a survey stands.
ghost use Rattle.std.specs.Prelude.{◌≡◌, ◌*◌, ◌<◌, ◌≤◌, ◌↔◌, IsTrue, length};
ghost use Rattle.queries.specs.Queries.{table_of};
ghost use Rattle.queues.specs.Within.{Within};
ghost use Rattle.surveys.specs.Calls.Call.{retag};
ghost use Rattle.surveys.specs.Held.{of_retag};
ghost use Rattle.surveys.specs.Queried.{tree_in, table_in, KeepsRules};
ghost use Rattle.surveys.specs.Resets.{HasRows, Releases, Restarts};
ghost use Rattle.surveys.specs.Retagging.{RetagAnswers};
ghost use Rattle.surveys.specs.Standing.{lent};

use crate::queried::QueriedShape;
use crate::refusal::SurveyRefusal;
use crate::survey::writing::put;
use crate::survey::{Survey, Work};
use grades::grade::Grade;
use queries::query::Query;
use shapes::shape::Shape;

/// A grade for a tag at a node.
#[derive(Clone, Copy)]
pub struct Mark<G> {
    pub tag: usize,
    pub node: usize,
    pub grade: G,
}

impl Survey {
    fn has_mark(&self, node: usize, tag: usize) -> bool
        ensures { IsTrue result ↔ ((node < self.now.nodes) × (tag < self.now.tags)) }
    {
        node < self.nodes && tag < self.tags
    }

    /// What is current once a tag is set: a block that it reaches is given up, and its queue emptied.
    fn release(&self, query: &Query, tag: usize, waiting: &mut [u32]) -> Option<Work>
        requires { self.now.terms * self.now.nodes ≤ length waiting.old }
        ensures { Releases (table_of query.now) tag (self.now.terms * self.now.nodes) self.now.current result waiting.old waiting.new }
    {
        let mut work = self.current?;
        if !query.reaches(tag, work.block) {
            return Some(work);
        }
        work.queue.clear(&mut waiting[..self.terms * self.nodes]);
        None
    }

    /// Makes the blocks that a tag reaches stale, with their entries at their start values, and gives up the current one if it is reached.
    // A struct of query and tag for this and what it calls would be no plainer: its one method would be `query.reaches(tag, block)`.
    fn restart<G: Grade>(
        &mut self,
        query: &Query,
        tag: usize,
        values: &mut [G],
        waiting: &mut [u32],
    )
        requires values { HasRows (table_of query.now) self.old.nodes values.old }
        requires waiting { self.old.terms * self.old.nodes ≤ length waiting.old }
        ensures { Restarts G.kind (table_of query.now) tag self.old self.new values.old values.new waiting.old waiting.new }
    {
        self.reset_blocks(query, values, |block| query.reaches(tag, block));
        self.unsettle(query, tag);
        self.current = self.release(query, tag, waiting);
    }

    /// Sets the mark of a tag at a node, and answers whether that altered it.
    ///
    /// If it did, each block that the tag reaches is stale again, with its entries at their start values. Where it is refused, all is as it was.
    pub fn retag<G: Grade, S: Shape>(
        &mut self,
        queried: &QueriedShape<'_, S>,
        marks: &mut [G],
        values: &mut [G],
        waiting: &mut [u32],
        mark: Mark<G>,
    ) -> Result<bool, SurveyRefusal>
        ensures rules { KeepsRules G.kind S.Shape queried.now (retag mark.node mark.tag mark.grade) (of_retag result)
            self.old (lent marks.old values.old waiting.old)
            self.new (lent marks.new values.new waiting.new) }
        ensures answer { RetagAnswers G.kind (tree_in S.Shape queried.now) (table_in queried.now)
            self.old (lent marks.old values.old waiting.old) mark.node mark.tag mark.grade
            self.new (lent marks.new values.new waiting.new) result }
        ensures values { Within (self.old.terms * self.old.nodes) values.old values.new }
        ensures waiting { Within (self.old.terms * self.old.nodes) waiting.old waiting.new }
    {
        self.check_fits(queried, marks, values, waiting)?;
        if !self.has_mark(mark.node, mark.tag) {
            return Err(SurveyRefusal::NotInSurvey);
        }
        let altered = put(marks, mark.tag * self.nodes + mark.node, mark.grade);
        if altered {
            self.restart(queried.query, mark.tag, values, waiting);
        }
        Ok(altered)
    }
}

//! One step of a survey: the entry at the head of the queue takes the grade of its term.
ghost use Rattle.std.specs.Prelude.{◌≡◌, ℕ, ◌*◌, ◌<◌, ◌≤◌, not, List, length, is_some, slice_index, slice_set};
ghost use Rattle.meaning.specs.Tables.{place, grades_in};
ghost use Rattle.queues.specs.Calls.{StaysWithin, head_of};
ghost use Rattle.queues.specs.Threads.{Threads, rest};
ghost use Rattle.queues.specs.Within.{Within};
ghost use Rattle.surveys.specs.Calls.Call.{step as stepping};
ghost use Rattle.surveys.specs.Held.{of_step, AlteredAtMost, WaitsWithin};
ghost use Rattle.surveys.specs.Queried.{tree_in, table_in, KeepsRules};
ghost use Rattle.surveys.specs.Standing.{Fits, lent};
ghost use Rattle.surveys.specs.StepParts.{Requeued, StepKeeps, WokenInside};
ghost use Rattle.surveys.specs.Stepping.{StepAnswers, Stored, with_current};

use crate::queried::QueriedShape;
use crate::refusal::SurveyRefusal;
use crate::survey::upcoming::HeadEntry;
use crate::survey::writing::put;
use crate::survey::{Survey, Work};
use grades::grade::Grade;
use queues::queue::Queue;
use shapes::shape::Shape;

impl<S: Shape> QueriedShape<'_, S> {
    /// Takes the entry at the head out of the queue and gives it its grade; if that changes it, its readers queue.
    fn work_off<G: Grade>(
        &self,
        entry: HeadEntry,
        grade: G,
        queue: &mut Queue,
        values: &mut [G],
        waiting: &mut [u32],
    )
        requires node { entry.node < S.count self.now.shape.now }
        requires inside { place (S.count self.now.shape.now) entry.term entry.node < length values.old }
        ensures values { values.new ≡ slice_set values.old (place (S.count self.now.shape.now) entry.term entry.node) grade }
        ensures lists { (l : List ℕ) → Threads waiting.old queue.old l →
            WokenInside (tree_in S.Shape self.now) (table_in self.now) entry queue.old.size →
            Requeued (tree_in S.Shape self.now) (table_in self.now) entry
            (grades_in G.kind (S.count self.now.shape.now) values.old entry.term entry.node) grade
            (rest l) waiting.new queue.new }
        ensures stays { StaysWithin queue.old waiting.old queue.new waiting.new }
    {
        let at = entry.term * self.shape.node_count() + entry.node;
        let _ = queue.take(waiting);
        if !put(values, at, grade) {
            return;
        }
        self.wake(
            entry.first,
            entry.node,
            self.query.readers_of(entry.term),
            queue,
            waiting,
        );
    }
}

impl Work {
    /// Whether no entry waits.
    fn is_done(&self) -> bool
        ensures { result ≡ not (is_some (head_of self.now.queue)) }
    {
        self.queue.is_empty()
    }
}

impl Survey {
    /// Stores what is left of the work, and answers whether all blocks are settled.
    ///
    /// The block is settled where none of its entries waits.
    fn store(&mut self, current: &mut Option<Work>, work: Work) -> bool
        ensures { Stored (head_of work.queue) (with_current self.old current.old) work (with_current self.new current.new) result }
    {
        if !work.is_done() {
            *current = Some(work);
            return false;
        }
        // No `get_mut`: of an array that is written through it the library's contract says only the length.
        if work.block < self.settled.len() {
            self.settled[work.block] = true;
        }
        *current = None;
        self.first_stale().is_none()
    }

    /// Works off one entry, where the call fits the survey.
    // The current work comes apart from the survey, so that a run need not keep it in memory: flags that are asked by number lie there.
    pub(super) fn work_step<G: Grade, S: Shape>(
        &mut self,
        current: &mut Option<Work>,
        queried: &QueriedShape<'_, S>,
        marks: &[G],
        values: &mut [G],
        waiting: &mut [u32],
    ) -> Result<bool, SurveyRefusal>
        requires { Fits (with_current self.old current.old) (S.count queried.now.shape.now) (length (table_in queried.now).terms)
            (lent marks.now values.old waiting.old) }
        ensures { StepKeeps G.kind S.Shape queried.now
            (with_current self.old current.old) (lent marks.now values.old waiting.old)
            (with_current self.new current.new) (lent marks.now values.new waiting.new) result }
    {
        let Some(mut work) = self.next_work(*current, queried) else {
            return Err(SurveyRefusal::AllSettled);
        };
        let Some(next) = queried.evaluated(&work, marks, values) else {
            return Err(SurveyRefusal::ForeignEntry);
        };
        queried.work_off(next.entry, next.grade, &mut work.queue, values, waiting);
        Ok(self.store(current, work))
    }

    /// Works off one entry: of the current block, or where there is none of the lowest stale one.
    ///
    /// Answers whether all blocks are then settled. The work is constant but for the readers of the entry's term,
    /// and a look at the flags of the blocks where one begins or is settled.
    pub fn step<G: Grade, S: Shape>(
        &mut self,
        queried: &QueriedShape<'_, S>,
        marks: &[G],
        values: &mut [G],
        waiting: &mut [u32],
    ) -> Result<bool, SurveyRefusal>
        ensures rules { KeepsRules G.kind S.Shape queried.now stepping (of_step result)
            self.old (lent marks.now values.old waiting.old)
            self.new (lent marks.now values.new waiting.new) }
        ensures refusals { StepAnswers G.kind (tree_in S.Shape queried.now) (table_in queried.now)
            self.old (lent marks.now values.old waiting.old)
            self.new (lent marks.now values.new waiting.new) result }
        ensures values { Within (length (table_in queried.now).terms * S.count queried.now.shape.now) values.old values.new }
        ensures waiting { WaitsWithin (length (table_in queried.now).terms * S.count queried.now.shape.now) self.old waiting.old self.new waiting.new }
        ensures bounded { AlteredAtMost 1 values.old values.new }
    {
        self.check_fits(queried, marks, values, waiting)?;
        let mut current = self.current;
        let answer = self.work_step(&mut current, queried, marks, values, waiting);
        self.current = current;
        answer
    }
}

//! What a step works on next: the block, the entry at the head of its queue, and the grade of that.
ghost use Rattle.std.specs.Prelude.{◌≡◌, ℕ, ◌*◌, MatchOption};
ghost use Rattle.queries.specs.Table.{blocks_terms};
ghost use Rattle.surveys.specs.Queried.{tree_in, table_in};
ghost use Rattle.surveys.specs.StepParts.{Headed, Evaluated};
ghost use Rattle.surveys.specs.Stepping.{flag, AllFlagged, FirstStale, NothingLeft, TakesUp, Heads, Evaluates, with_current};

use crate::queried::QueriedShape;
use crate::survey::{Survey, Work};
use grades::grade::Grade;
use meaning::grade_of::grade_of;
use queues::queue::Queue;
use shapes::shape::Shape;

/// The entry at the head of a queue, with the first term of its block.
#[derive(Clone, Copy)]
pub(super) struct HeadEntry {
    pub(super) first: usize,
    pub(super) term: usize,
    pub(super) node: usize,
}

/// An entry with the grade that its term gives.
#[derive(Drop)]
pub(super) struct GradedEntry<G> {
    pub(super) entry: HeadEntry,
    pub(super) grade: G,
}

impl<S: Shape> QueriedShape<'_, S> {
    /// How many entries a block has; none past the blocks.
    fn block_size(&self, block: usize) -> usize
        ensures { result ≡ blocks_terms (table_in self.now) block * S.count self.now.shape.now }
    {
        match self.query.span(block) {
            Some(span) => (span.end - span.first) * self.shape.node_count(),
            None => 0,
        }
    }

    /// The entry at the head of the queue; none where that is not of the block.
    fn head_entry(&self, work: &Work) -> Option<HeadEntry>
        ensures { MatchOption result
            ((e : ℕ) → Heads (table_in self.now) (S.count self.now.shape.now) work.now e → ⊥)
            (λ h. Headed (table_in self.now) (S.count self.now.shape.now) work.now h) }
    {
        let head = work.queue.head()?;
        if head >= self.block_size(work.block) {
            return None;
        }
        let first = self.query.span(work.block)?.first;
        let nodes = self.shape.node_count();
        Some(HeadEntry {
            first,
            term: first + head / nodes,
            node: head % nodes,
        })
    }

    /// The entry at the head of the queue, with the grade of its term.
    ///
    /// None where the entry is not of the block, or its term reads outside the tables.
    pub(super) fn evaluated<G: Grade>(
        &self,
        work: &Work,
        marks: &[G],
        values: &[G],
    ) -> Option<GradedEntry<G>>
        ensures { MatchOption result
            ((e : ℕ) → Evaluates (tree_in S.Shape self.now) (table_in self.now) marks.now values.now work.now e → ⊥)
            (λ p. Evaluated G.kind (tree_in S.Shape self.now) (table_in self.now) marks.now values.now work.now p.entry p.grade) }
    {
        let entry = self.head_entry(work)?;
        let term = self.query.term(entry.term)?;
        let grade = grade_of(self.shape, term, entry.node, marks, values)?;
        Some(GradedEntry { entry, grade })
    }
}

impl Survey {
    /// Whether a block is settled; past the flags none is.
    pub(super) fn is_settled(&self, block: usize) -> bool
        ensures { result ≡ flag self.now block }
    {
        self.settled.get(block).copied().unwrap_or(false)
    }

    /// The lowest block that is not settled.
    pub(super) fn first_stale(&self) -> Option<usize>
        ensures { MatchOption result (AllFlagged self.now) (λ b. FirstStale self.now b) }
    {
        (0..self.blocks).find(|&block| !self.is_settled(block))
    }

    /// The work that is current, or that of the lowest stale block from its start; none where all blocks are settled.
    #[tactic(auto, using(crate::proofs::Upcoming::takes_up))]
    pub(super) fn next_work<S: Shape>(
        &self,
        current: Option<Work>,
        queried: &QueriedShape<'_, S>,
    ) -> Option<Work>
        ensures { let v = with_current self.now current in
            MatchOption result (NothingLeft v) (λ w. TakesUp (table_in queried.now) (S.count queried.now.shape.now) v w) }
    {
        if let Some(work) = current {
            return Some(work);
        }
        let block = self.first_stale()?;
        let queue = Queue::rising(queried.block_size(block));
        Some(Work { block, queue })
    }
}

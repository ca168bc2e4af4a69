//! Queueing the entries that read a changed one.
ghost use Rattle.std.specs.Prelude.{◌≡◌, ℕ, ◌<◌, ◌≤◌, List, ◌++◌, length, slice_index};
ghost use Rattle.std.specs.List.{AllByRecursion};
ghost use Rattle.shapes.specs.Shapes.{tree_of};
ghost use Rattle.queues.specs.Calls.{StaysWithin};
ghost use Rattle.queues.specs.Threads.{Threads};
ghost use Rattle.surveys.specs.Queried.{tree_in, table_in};
ghost use Rattle.surveys.specs.Waking.{reader_node_lem, reading_entry_lem, woken, added_by};

use crate::queried::QueriedShape;
use queries::term::Term;
use queues::queue::Queue;
use shapes::shape::Shape;

/// The node at which a term reads its operand at this node, if there is one.
fn reader_node<S: Shape>(shape: &S, reader: Term, node: usize) -> Option<usize>
    ensures { result ≡ reader_node_lem (tree_of S.Shape shape.now) reader node }
{
    match reader {
        Term::Turn(_) | Term::Meet(_, _) | Term::Join(_, _) => Some(node),
        Term::SomeNeighbour(axis, _) | Term::EveryNeighbour(axis, _) => {
            shape.neighbour(axis.reversed(), node)
        }
        Term::Mark(_) | Term::Lowest | Term::Highest => None,
    }
}

impl<S: Shape> QueriedShape<'_, S> {
    /// The entry of a term that reads its operand at this node, by its number in the block with this first term.
    ///
    /// Readers stand in that block, so none comes before its first term.
    // That the node is one is asked here, in `wake` and in `work_off`: a node that kept the fact would name its shape, and be no plainer.
    fn reading_entry(&self, first: usize, node: usize, reader: usize) -> Option<usize>
        requires { node < S.count self.now.shape.now }
        ensures { result ≡ reading_entry_lem (tree_in S.Shape self.now) (table_in self.now) first node reader }
    {
        let at = reader_node(self.shape, self.query.term(reader)?, node)?;
        Some(reader.saturating_sub(first) * self.shape.node_count() + at)
    }

    /// Puts the entries of these readers that read their operand at this node at the back of the queue, each unless it waits already.
    // Within a step, so that the queue need not lie in memory.
    #[inline(always)]
    pub(super) fn wake(
        &self,
        first: usize,
        node: usize,
        readers: &[usize],
        queue: &mut Queue,
        waiting: &mut [u32],
    )
        requires { node < S.count self.now.shape.now }
        ensures lists { (l : List ℕ) → Threads waiting.old queue.old l →
            AllByRecursion (λ e. e < queue.old.size) (woken (tree_in S.Shape self.now) (table_in self.now) first node readers.now) →
            Threads waiting.new queue.new
            (l ++ added_by l (woken (tree_in S.Shape self.now) (table_in self.now) first node readers.now)) }
        ensures stays { StaysWithin queue.old waiting.old queue.new waiting.new }
    {
        for reader in readers {
            if let Some(entry) = self.reading_entry(first, node, *reader) {
                let _ = queue.put(waiting, entry);
            }
        }
    }
}

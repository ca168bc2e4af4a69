//! Blocks set back to their start.
ghost use Rattle.std.specs.Prelude.{◌≡◌, ℕ, ◌*◌, ◌<◌, ◌≤◌, ◌⊎◌, Bool, IsTrue, length, slice_index_or};
ghost use Rattle.queries.specs.Queries.{table_of};
ghost use Rattle.meaning.specs.Rounds.{start};
ghost use Rattle.surveys.specs.Resets.{HasRows, Resets, Unsettles, with_flags};

use crate::survey::Survey;
use grades::grade::Grade;
use queries::block::Solution;
use queries::query::Query;

/// Writes a value to the places from one number up to another.
fn fill<G: Copy>(places: &mut [G], from: usize, to: usize, value: G)
    requires rising { from ≤ to }
    requires within { to ≤ length places.old }
    ensures inside { (p : ℕ) (d : G) → from ≤ p → p < to → slice_index_or places.new p d ≡ value }
    ensures outside { (p : ℕ) (d : G) → (p < from) ⊎ (to ≤ p) → slice_index_or places.new p d ≡ slice_index_or places.old p d }
{
    // `fill` would ask that the type's `clone` never fails.
    places[from..to].fill_with(|| value);
}

fn start_value<G: Grade>(solution: Solution) -> G
    ensures { result ≡ start G.kind solution }
{
    match solution {
        Solution::Least => G::lowest(),
        Solution::Greatest => G::highest(),
    }
}

impl Survey {
    /// Sets the entries of a block back to their start value.
    fn reset_block<G: Grade>(&self, query: &Query, block: usize, values: &mut [G])
        requires { HasRows (table_of query.now) self.now.nodes values.old }
        ensures { Resets G.kind (table_of query.now) self.now.nodes (λ b. b ≡ block) values.old values.new }
    {
        let Some(span) = query.span(block) else {
            return;
        };
        let Some(solution) = query.solution(block) else {
            return;
        };
        fill(
            values,
            span.first * self.nodes,
            span.end * self.nodes,
            start_value(solution),
        );
    }

    /// Sets the entries of the blocks that a test names back to their start values.
    pub(super) fn reset_blocks<G: Grade, F: Fn(usize) -> bool>(
        &self,
        query: &Query,
        values: &mut [G],
        named: F,
    )
        requires room { HasRows (table_of query.now) self.now.nodes values.old }
        requires callable { F.IsAlwaysCallable named }
        ensures { (said : ℕ → Bool) × ((b : ℕ) → b < self.now.blocks → F.post named b (said b))
            × Resets G.kind (table_of query.now) self.now.nodes (λ b. (b < self.now.blocks) × IsTrue (said b)) values.old values.new }
    {
        for block in 0..self.blocks {
            if named(block) {
                self.reset_block(query, block, values);
            }
        }
    }

    /// Makes the blocks that a tag reaches stale.
    pub(super) fn unsettle(&mut self, query: &Query, tag: usize)
        ensures flags { Unsettles (table_of query.now) tag self.old.blocks self.old.settled self.new.settled }
        ensures rest { self.new ≡ with_flags self.old self.new.settled }
    {
        let end = self.blocks.min(self.settled.len());
        for (block, flag) in self.settled[..end].iter_mut().enumerate() {
            if query.reaches(tag, block) {
                *flag = false;
            }
        }
    }
}

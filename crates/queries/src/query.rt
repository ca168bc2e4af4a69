//! The admitted query.
ghost use Rattle.std.specs.Prelude.{◌≡◌, map, length, vec_items};
ghost use Rattle.std.proofs.Props.{props};
ghost use Rattle.queries.specs.Entries.{dealt_of, kept};
ghost use Rattle.queries.specs.Table.{block_of, Admitted};
ghost use Rattle.queries.specs.Workings.{listed, span_of, readers_in, reached_before};

mod build;
pub(crate) mod entries;
mod questions;

use crate::query::entries::{BlockEntry, TermEntry};

/// A query that keeps every rule of admission; all but its tags, blocks and terms is worked out from these.
// No `impl Model`: a table is no list, set or number, and clauses read as plainly by `table_of`.
#[derive(Drop)]
pub struct Query {
    tags: usize,
    blocks: Vec<BlockEntry>,
    terms: Vec<TermEntry>,
    /// For each tag, whether it reaches each block.
    reached: Vec<Vec<bool>>,
    ghost rules: { Admitted (kept tags blocks.items terms.items) } by { Prim.hlevel props },
    ghost blocks_stand: { let q = kept tags blocks.items terms.items in map (λ e. e.block) terms.items ≡ listed (block_of q) (length q.terms) },
    ghost spans_stand: { let q = kept tags blocks.items terms.items in map (λ e. e.span) blocks.items ≡ listed (span_of q) (length q.blocks) },
    ghost readers_stand: { let q = kept tags blocks.items terms.items in map (λ e. e.readers.items) terms.items ≡ listed (readers_in (map dealt_of terms.items)) (length q.terms) },
    ghost reached_stand: { let q = kept tags blocks.items terms.items in map vec_items reached.items ≡ listed (λ tag. listed (reached_before (map dealt_of terms.items) tag (length q.terms)) (length q.blocks)) tags },
}

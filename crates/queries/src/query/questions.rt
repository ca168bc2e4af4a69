//! What a query is asked: every question answers for every number, in constant time.
ghost use Rattle.std.specs.Prelude.{◌≡◌, ℕ, ◌<◌, ◌≤◌, [], length, if◌then◌else◌, Some, None, MatchOption, nat_lt};
ghost use Rattle.std.specs.List.{slice_get};
ghost use Rattle.queries.specs.Queries.{table_of, Spans, ListsReaders};
ghost use Rattle.queries.specs.Table.{block_of, solution_at, Says, Reaches};

use crate::block::{Solution, Span};
use crate::query::Query;
use crate::term::Term;

impl Query {
    pub fn tag_count(&self) -> usize
        ensures { result ≡ (table_of self.now).tags }
    {
        self.tags
    }

    pub fn term_count(&self) -> usize
        ensures { result ≡ length (table_of self.now).terms }
    {
        self.terms.len()
    }

    pub fn block_count(&self) -> usize
        ensures { result ≡ length (table_of self.now).blocks }
    {
        self.blocks.len()
    }

    pub fn term(&self, i: usize) -> Option<Term>
        ensures { result ≡ slice_get (table_of self.now).terms i }
    {
        self.terms.get(i).map(|entry| entry.term)
    }

    /// The block of a term; none past the terms.
    pub fn block_of(&self, term: usize) -> Option<usize>
        ensures { result ≡ (if nat_lt term (length (table_of self.now).terms) then Some (block_of (table_of self.now) term) else None) }
    {
        self.terms.get(term).map(|entry| entry.block)
    }

    /// Which solution a block is read as; none past the blocks.
    pub fn solution(&self, block: usize) -> Option<Solution>
        ensures { result ≡ (if nat_lt block (length (table_of self.now).blocks) then Some (solution_at (table_of self.now) block) else None) }
    {
        self.blocks.get(block).map(|entry| entry.block.solution)
    }

    /// The terms of a block; none past the blocks.
    pub fn span(&self, block: usize) -> Option<Span>
        ensures { MatchOption result (length (table_of self.now).blocks ≤ block) (λ s. Spans (table_of self.now) block s) }
    {
        self.blocks.get(block).map(|entry| entry.span)
    }

    /// The terms of a term's own block that read it, in rising order.
    pub fn readers_of(&self, term: usize) -> &[usize]
        ensures lists { ListsReaders (table_of self.now) term result.now }
        ensures past { length (table_of self.now).terms ≤ term → result.now ≡ [] }
    {
        match self.terms.get(term) {
            Some(entry) => entry.readers.as_slice(),
            None => &[],
        }
    }

    /// Whether a changed mark of a tag reaches a block.
    pub fn reaches(&self, tag: usize, block: usize) -> bool
        ensures { Says result (Reaches (table_of self.now) tag block) }
    {
        match self.reached.get(tag) {
            Some(reached) => reached.get(block).copied().unwrap_or(false),
            None => false,
        }
    }
}

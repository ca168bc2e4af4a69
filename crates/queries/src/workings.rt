//! What an admitted query keeps worked out.
ghost use Rattle.std.specs.Prelude.{◌≡◌, ℕ, ◌<◌, false, ◌&&◌, [], map, length, IfOk, OnOk, vec_items, ◌==◌, slice_index_or};
ghost use Rattle.queries.specs.Entries.{dealt_of, readers_at};
ghost use Rattle.queries.specs.Table.{Reads};
ghost use Rattle.queries.specs.Workings.{listed, nth_term, reads_within, readers_in, noted, touched, reached_before};

use crate::query::entries::TermEntry;
use crate::term::Term;
use std::alloc::{AllocError, Global};

/// A term, and the block that it is dealt into.
#[derive(Clone, Copy)]
pub(crate) struct DealtTerm {
    pub(crate) term: Term,
    pub(crate) block: usize,
}

/// The terms of an admitted table, and how many blocks it has.
#[derive(Clone, Copy)]
pub(crate) struct DealtTerms<'a> {
    pub(crate) terms: &'a [DealtTerm],
    pub(crate) blocks: usize,
    ghost blocks_stand: { (i : ℕ) → i < length terms.now → (nth_term terms.now i).block < blocks },
    ghost operands_stand: { (i j : ℕ) → i < length terms.now → Reads (nth_term terms.now i).term j → j < length terms.now },
}

impl DealtTerms<'_> {
    /// Each term, with no readers yet.
    fn unread(self, heap: Global) -> Result<Vec<TermEntry>, AllocError>
        ensures { IfOk result (λ v. (map dealt_of v.items ≡ self.entry.terms.now) × ((t : ℕ) → readers_at v.items t ≡ [])) }
    {
        let mut entries = Vec::new(heap);
        for dealt in self.terms {
            entries.push(TermEntry {
                term: dealt.term,
                block: dealt.block,
                readers: Vec::new(heap),
            })?;
        }
        Ok(entries)
    }

    /// Each term with its readers, found in one pass over the terms.
    pub(crate) fn entries(self, heap: Global) -> Result<Vec<TermEntry>, AllocError>
        ensures { IfOk result (λ v. (map dealt_of v.items ≡ self.entry.terms.now) × (map (λ e. e.readers.items) v.items ≡ listed (readers_in self.entry.terms.now) (length self.entry.terms.now))) }
    {
        let mut entries = self.unread(heap)?;
        for reader in 0..self.terms.len() {
            note_operands(&mut entries, reader)?;
        }
        Ok(entries)
    }

    /// Whether the block of a term is reached.
    fn is_reached(self, reached: &[bool], term: usize) -> bool
        requires term { term < length self.terms.now }
        requires blocks { length reached.now ≡ self.blocks }
        ensures { result ≡ slice_index_or reached.now (nth_term self.entry.terms.now term).block false }
    {
        reached[self.terms[term].block]
    }

    /// Whether a term reads the tag or a block that is reached.
    fn touches(self, term: Term, reached: &[bool], tag: usize) -> bool
        requires operands { (j : ℕ) → Reads term j → j < length self.terms.now }
        requires blocks { length reached.now ≡ self.blocks }
        ensures { result ≡ touched self.entry.terms.now tag (λ b. slice_index_or reached.now b false) term }
    {
        match term.operands() {
            Some(operands) => self.is_reached(reached, operands.left)
                || self.is_reached(reached, operands.right),
            None => term == Term::Mark(tag),
        }
    }

    /// Whether a tag reaches each block. A term reads no later block, so one pass is enough.
    fn reached_by(self, heap: Global, tag: usize) -> Result<Vec<bool>, AllocError>
        ensures { IfOk result (λ v. v.items ≡ listed (reached_before self.entry.terms.now tag (length self.entry.terms.now)) self.entry.blocks) }
    {
        let mut reached = vec![in heap; false; self.blocks]?;
        for dealt in self.terms {
            if self.touches(dealt.term, &reached, tag) {
                reached[dealt.block] = true;
            }
        }
        Ok(reached)
    }

    /// For each tag, whether it reaches each block.
    pub(crate) fn reached(self, heap: Global, tags: usize) -> Result<Vec<Vec<bool>>, AllocError>
        ensures { IfOk result (λ v. map vec_items v.items ≡ listed (λ tag. listed (reached_before self.entry.terms.now tag (length self.entry.terms.now)) self.entry.blocks) tags) }
    {
        let mut reached = Vec::new(heap);
        for tag in 0..tags {
            reached.push(self.reached_by(heap, tag)?)?;
        }
        Ok(reached)
    }
}

/// Notes a term at a term that it reads, if both are of one block.
fn note_within(entries: &mut [TermEntry], read: usize, reader: usize) -> Result<(), AllocError>
    requires read { read < length entries.old }
    requires reader { reader < length entries.old }
    ensures dealt { OnOk result (map dealt_of entries.new ≡ map dealt_of entries.old) }
    ensures readers { let ds = map dealt_of entries.old in OnOk result ((t : ℕ) → readers_at entries.new t ≡ noted ((nth_term ds reader).block == (nth_term ds t).block && read == t) (readers_at entries.old t) reader) }
{
    if entries[reader].block == entries[read].block {
        entries[read].readers.push(reader)?;
    }
    Ok(())
}

/// Notes a term once at each term of its block that it reads.
fn note_operands(entries: &mut [TermEntry], reader: usize) -> Result<(), AllocError>
    requires reader { reader < length entries.old }
    requires operands { (j : ℕ) → Reads (nth_term (map dealt_of entries.old) reader).term j → j < length entries.old }
    ensures dealt { OnOk result (map dealt_of entries.new ≡ map dealt_of entries.old) }
    ensures readers { OnOk result ((t : ℕ) → readers_at entries.new t ≡ noted (reads_within (map dealt_of entries.old) t reader) (readers_at entries.old t) reader) }
{
    let Some(operands) = entries[reader].term.operands() else {
        return Ok(());
    };
    note_within(entries, operands.left, reader)?;
    if operands.right != operands.left {
        note_within(entries, operands.right, reader)?;
    }
    Ok(())
}

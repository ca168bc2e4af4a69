//! Admission: whether a table keeps every rule.
ghost use Rattle.std.specs.Prelude.{◌≡◌, ℕ, ◌-◌, ◌^◌, ◌<◌, ◌↔◌, min, length, IsTrue, MatchOption, MatchResult};
ghost use Rattle.queries.specs.Admission.{BlockFits, BlocksAddUp, Framed, Admissible, Fits, Breaks};
ghost use Rattle.queries.specs.Checks.{standing, reading_up_to, TurnsBefore, SpanOf, Faulty, FirstFaulty};
ghost use Rattle.queries.specs.Rows.{rows_of, told};
ghost use Rattle.queries.specs.Table.{Table, total, block_of};

use crate::block::{Block, Span};
use crate::refusal::QueryRefusal;
use crate::rows::QueryTable;
use crate::term::Term;

const MOST_TAGS: u32 = 16;

const MOST_TERMS: usize = 64;

impl QueryTable<'_> {
    /// The first block that is empty or of an unknown kind.
    fn bad_block(self) -> Option<usize>
        ensures { let r = rows_of self.entry in MatchOption result ((b : ℕ) → b < length r.blocks → BlockFits r b) (λ b. (b < length r.blocks) × (BlockFits r b → ⊥) × ((k : ℕ) → k < b → BlockFits r k)) }
    {
        self.blocks
            .iter()
            .position(|row| Block::try_from(*row).is_err())
    }

    /// How many terms the blocks have; past every number of terms where that does not fit.
    fn term_sum(self) -> usize
        ensures { result ≡ min (total (told (rows_of self.entry)).blocks) (2 ^ 64 - 1) }
    {
        self.blocks
            .iter()
            .fold(0usize, |sum, row| sum.saturating_add(row.terms as usize))
    }

    /// Whether a term's tag and operands are there.
    fn stands(self, term: Term) -> bool
        ensures { result ≡ standing self.entry.tags (length self.entry.terms.now) term }
    {
        let count = self.terms.len();
        match term.operands() {
            Some(operands) => operands.left < count && operands.right < count,
            None => match term {
                Term::Mark(tag) => tag < self.tags as usize,
                _ => true,
            },
        }
    }

    /// Whether term `i`, of the block whose terms are `span`, keeps every rule, and the first that it breaks.
    fn check_term(self, i: usize, span: Span) -> Result<(), QueryRefusal>
        requires term { i < length self.terms.now }
        requires span { let q = told (rows_of self) in SpanOf q (block_of q i) span }
        ensures { MatchResult result (λ _. Fits (rows_of self.entry) i) (λ e. Faulty (rows_of self.entry) i e) }
    {
        let Ok(term) = Term::try_from(self.terms[i]) else {
            return Err(QueryRefusal::BadTerm { term: i });
        };
        if !self.stands(term) {
            return Err(QueryRefusal::BadTerm { term: i });
        }
        if !reads_up_to(term, span) {
            return Err(QueryRefusal::LaterBlock { term: i });
        }
        if !turns_before(term, span) {
            return Err(QueryRefusal::OwnTurn { term: i });
        }
        Ok(())
    }

    /// Whether every term of a block keeps every rule, and the first that the first faulty one breaks; those before the block do.
    fn check_span(self, span: Span) -> Result<(), QueryRefusal>
        requires sum { BlocksAddUp (rows_of self) }
        requires span { (block : ℕ) × SpanOf (told (rows_of self)) block span }
        requires before { (k : ℕ) → k < span.first → Fits (rows_of self) k }
        ensures { let r = rows_of self.entry in MatchResult result (λ _. (k : ℕ) → k < span.end → Fits r k) (λ e. FirstFaulty r e) }
    {
        // A loop: with `try_for_each` the proof that the first faulty term is named stays open.
        for i in span.first..span.end {
            self.check_term(i, span)?;
        }
        Ok(())
    }

    /// Whether every term keeps every rule, and the first that the first faulty one breaks.
    fn check_terms(self) -> Result<(), QueryRefusal>
        requires { Framed (rows_of self) }
        ensures { let r = rows_of self.entry in MatchResult result (λ _. (i : ℕ) → i < length r.terms → Fits r i) (λ e. FirstFaulty r e) }
    {
        let mut first = 0;
        for row in self.blocks {
            let end = first + row.terms as usize;
            self.check_span(Span { first, end })?;
            first = end;
        }
        Ok(())
    }

    /// Whether the sizes and the blocks are as they should be, and the first cause where not.
    fn check_frame(self) -> Result<(), QueryRefusal>
        ensures { MatchResult result (λ _. Framed (rows_of self.entry)) (Breaks (rows_of self.entry)) }
    {
        if self.tags > MOST_TAGS || self.terms.is_empty() || self.terms.len() > MOST_TERMS {
            return Err(QueryRefusal::Sizes);
        }
        if let Some(block) = self.bad_block() {
            return Err(QueryRefusal::BadBlock { block });
        }
        if self.term_sum() != self.terms.len() {
            return Err(QueryRefusal::BlockSum);
        }
        Ok(())
    }

    /// Whether the table keeps every rule, and the first that it breaks where not. It asks for no memory.
    pub fn check(self) -> Result<(), QueryRefusal>
        ensures { MatchResult result (λ _. Admissible (rows_of self.entry)) (Breaks (rows_of self.entry)) }
    {
        self.check_frame()?;
        self.check_terms()
    }
}

// Terms are dealt in order: those before a block's own are of earlier blocks, and those past them of later ones.

/// Whether a term of the block whose terms are `span` reads no later block.
fn reads_up_to(term: Term, span: Span) -> bool
    ensures { (q : Table) (block : ℕ) → SpanOf q block span → result ≡ reading_up_to (block_of q) block term }
{
    match term.operands() {
        Some(operands) => operands.left < span.end && operands.right < span.end,
        None => true,
    }
}

/// Whether a term of the block whose terms are `span`, if a turn, reads an earlier block.
fn turns_before(term: Term, span: Span) -> bool
    ensures { (q : Table) (block : ℕ) → SpanOf q block span → IsTrue result ↔ TurnsBefore (block_of q) block term }
{
    match term {
        Term::Turn(a) => a < span.first,
        _ => true,
    }
}

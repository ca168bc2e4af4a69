//! The rows of a query table, as they come: any numbers.
ghost use Rattle.std.specs.Prelude.{◌≡◌};
ghost use Rattle.queries.specs.Rows.{TellsBlock, TellsTerm, block_in};

use crate::block::{Block, Solution};
use crate::term::Term;
use shapes::axis::Axis;
use thiserror::Error;

/// A block of a table. The kind is a number, since a raw table may hold any.
#[derive(Clone, Copy, PartialEq, Eq, Debug)]
pub struct BlockRow {
    pub kind: u32,
    pub terms: u32,
}

/// A term of a table. The kind is a number, since a raw table may hold any.
#[derive(Clone, Copy, PartialEq, Eq, Debug)]
pub struct TermRow {
    pub kind: u32,
    pub a: u32,
    pub b: u32,
}

/// A table: how many tags it has, its blocks in order, and its terms in the order of the blocks.
#[derive(Clone, Copy, PartialEq, Eq, Debug)]
pub struct QueryTable<'a> {
    pub tags: u32,
    pub blocks: &'a [BlockRow],
    pub terms: &'a [TermRow],
}

impl BlockRow {
    /// The block that the row stands for, a least one where the kind is unknown. Unlike `try_from` it answers for every row.
    pub fn block(self) -> Block
        ensures { result ≡ block_in self }
    {
        let solution = match self.kind {
            1 => Solution::Greatest,
            _ => Solution::Least,
        };
        Block {
            solution,
            terms: self.terms as usize,
        }
    }
}

/// A row that stands for no block.
// Two types of fault, since one would let each conversion answer the other's.
#[derive(Clone, Copy, PartialEq, Eq, Debug, Error)]
#[error("the block is empty, or of an unknown kind")]
pub struct BadBlockRow;

/// A row that stands for no term.
#[derive(Clone, Copy, PartialEq, Eq, Debug, Error)]
#[error("the kind of the term is unknown, or an unused operand is not 0")]
pub struct BadTermRow;

impl TryFrom<BlockRow> for Block {
    type Error = BadBlockRow;

    ghost try_from_gives = { TellsBlock };

    fn try_from(row: BlockRow) -> Result<Self, BadBlockRow> {
        if row.terms == 0 || row.kind > 1 {
            return Err(BadBlockRow);
        }
        Ok(row.block())
    }
}

impl TryFrom<TermRow> for Term {
    type Error = BadTermRow;

    ghost try_from_gives = { TellsTerm };

    fn try_from(row: TermRow) -> Result<Self, BadTermRow> {
        match (row.kind, row.a as usize, row.b as usize) {
            (0, tag, 0) => Ok(Term::Mark(tag)),
            (1, a, 0) => Ok(Term::Turn(a)),
            (2, a, b) => Ok(Term::Meet(a, b)),
            (3, a, b) => Ok(Term::Join(a, b)),
            (4, a, 0) => Ok(Term::SomeNeighbour(Axis::First, a)),
            (5, a, 0) => Ok(Term::SomeNeighbour(Axis::Next, a)),
            (6, a, 0) => Ok(Term::SomeNeighbour(Axis::Owner, a)),
            (7, a, 0) => Ok(Term::SomeNeighbour(Axis::Previous, a)),
            (8, a, 0) => Ok(Term::EveryNeighbour(Axis::First, a)),
            (9, a, 0) => Ok(Term::EveryNeighbour(Axis::Next, a)),
            (10, a, 0) => Ok(Term::EveryNeighbour(Axis::Owner, a)),
            (11, a, 0) => Ok(Term::EveryNeighbour(Axis::Previous, a)),
            (12, 0, 0) => Ok(Term::Lowest),
            (13, 0, 0) => Ok(Term::Highest),
            _ => Err(BadTermRow),
        }
    }
}

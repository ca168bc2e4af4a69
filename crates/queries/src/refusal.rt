//! Why a query table is refused.
ghost use Rattle.std.specs.Prelude.{◌≡◌};
ghost use Rattle.queries.specs.declared.refusal.QueryRefusal.TheVariants.{NoMemory};
ghost use Rattle.queries.specs.Refusals.{published};

use std::alloc::AllocError;
use thiserror::Error;

/// Why a table was not admitted; the query place is then as it was.
#[derive(Clone, Copy, PartialEq, Eq, Debug, Error)]
pub enum QueryRefusal {
    /// Over 16 tags, no term, or over 64.
    #[error("the table has over 16 tags, no term, or over 64 terms")]
    Sizes,
    /// The first block that is empty or of a kind above 1.
    #[error("block {block} is empty, or of an unknown kind")]
    BadBlock { block: usize },
    /// The blocks do not add up to the terms.
    #[error("the blocks do not add up to the terms")]
    BlockSum,
    /// An unknown kind, a missing tag or term, or an unused operand that is not 0.
    #[error("term {term} has an unknown kind, a missing tag or term, or an unused operand that is not 0")]
    BadTerm { term: usize },
    /// A term that reads a later block.
    #[error("term {term} reads a later block")]
    LaterBlock { term: usize },
    /// The turn of a term of its own block.
    #[error("term {term} is the turn of a term of its own block")]
    OwnTurn { term: usize },
    /// Want of memory: no fault of the table.
    #[error("memory ran out")]
    NoMemory,
}

// By hand, since the derive's conversion promises nothing of the refusal.
impl From<AllocError> for QueryRefusal {
    ghost from_gives = { λ _ e. e ≡ NoMemory };

    fn from(_e: AllocError) -> Self {
        Self::NoMemory
    }
}

impl QueryRefusal {
    /// The published number: by a rule of the project one table numbers all refusals.
    pub fn number(self) -> u8
        ensures { result ≡ published self }
    {
        match self {
            QueryRefusal::Sizes | QueryRefusal::BadBlock { .. } | QueryRefusal::BlockSum => 3,
            QueryRefusal::BadTerm { .. } => 4,
            QueryRefusal::LaterBlock { .. } => 5,
            QueryRefusal::OwnTurn { .. } => 6,
            QueryRefusal::NoMemory => 99,
        }
    }
}

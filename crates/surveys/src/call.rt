//! Calls on a survey, and what they answer.
ghost use Rattle.std.specs.Prelude.{◌≡◌};
ghost use Rattle.surveys.specs.declared.call.CallFailure.TheVariants.{Refused as CallRefused, NoMemory as RowNotCopied};
ghost use Rattle.surveys.specs.declared.call.ConductRefusal.TheVariants.{NoMemory, NotOpened};

use crate::refusal::SurveyRefusal;
use crate::survey::retag::Mark;
use std::alloc::{AllocError, AllocFailed};
use thiserror::Error;

#[derive(Clone, Copy)]
pub enum Call<G> {
    Retag(Mark<G>),
    Step,
    /// At most this many steps.
    Run(u32),
    /// A term.
    Read(usize),
}

/// What a call answers that is not refused.
#[derive(Drop)]
pub enum Answer<G> {
    /// Whether a retag altered its mark.
    Altered(bool),
    /// Whether all blocks are settled after a step.
    Stepped(bool),
    /// How many steps a run made, and whether all blocks are then settled.
    Ran(u32, bool),
    /// A row, copied.
    Row(Vec<G>),
}

/// Why a call has no answer to keep.
// A `Result` in a `Result` would be no plainer: `?` passes one of the two only.
#[derive(Clone, Copy, PartialEq, Eq, Debug)]
pub(crate) enum CallFailure {
    Refused(SurveyRefusal),
    /// Want of memory for the copy of a row.
    NoMemory,
}

// By hand, since the derive's conversion promises nothing of the failure.
impl From<SurveyRefusal> for CallFailure {
    ghost from_gives = { λ why failure. failure ≡ CallRefused why };

    fn from(why: SurveyRefusal) -> CallFailure {
        CallFailure::Refused(why)
    }
}

// By hand, since the derive's conversion promises nothing of the failure.
impl From<AllocError> for CallFailure {
    ghost from_gives = { λ _ failure. failure ≡ RowNotCopied };

    fn from(_e: AllocError) -> CallFailure {
        CallFailure::NoMemory
    }
}

/// Why a list of calls was not made.
#[derive(Clone, Copy, PartialEq, Eq, Debug, Error)]
pub enum ConductRefusal {
    /// The survey could not be opened.
    #[error("the survey was not opened: {0}")]
    NotOpened(SurveyRefusal),
    /// Want of memory, after some of the calls.
    #[error("memory ran out")]
    NoMemory,
}

// By hand, since the derive's conversion promises nothing of the refusal.
impl From<SurveyRefusal> for ConductRefusal {
    ghost from_gives = { λ why refusal. refusal ≡ NotOpened why };

    fn from(why: SurveyRefusal) -> ConductRefusal {
        ConductRefusal::NotOpened(why)
    }
}

// By hand, since the derive's conversion promises nothing of the refusal.
impl<T: Drop> From<AllocFailed<T>> for ConductRefusal {
    ghost from_gives = { λ _ refusal. refusal ≡ NoMemory };

    fn from(_failed: AllocFailed<T>) -> ConductRefusal {
        ConductRefusal::NoMemory
    }
}

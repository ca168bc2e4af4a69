//! Why a survey file is refused: a fault of a field in one of a line, and that in one of the file.
ghost use Rattle.std.specs.Prelude.{◌≡◌};
ghost use Rattle.files.specs.Faults.{number_of_cause, number_of_file, line_of_file, number_of};
ghost use Rattle.files.specs.declared.fault.FileFault.TheVariants.{Line};
ghost use Rattle.files.specs.declared.fault.FileRefusal.TheVariants.{Fault, NoMemory};
ghost use Rattle.files.specs.declared.fault.LineCause.TheVariants.{Field, Query, Shape, Survey};

use queries::refusal::QueryRefusal;
use shapes::refusal::ShapeRefusal;
use std::alloc::{AllocError, AllocFailed};
use surveys::refusal::SurveyRefusal;
use thiserror::Error;

/// What is wrong with a field.
#[derive(Clone, Copy, PartialEq, Eq, Debug, Error)]
pub enum FieldFault {
    /// Not what is written for a number in these columns.
    #[error("a field is no number in its columns")]
    NoNumber,
    /// No letter of a kind of grade or of a hand.
    #[error("a field is no letter that may stand there")]
    NoLetter,
    /// A number that no grade of the kind has.
    #[error("no grade has the number of the mark")]
    NoGrade,
}

/// Why a line is refused.
#[derive(Clone, Copy, PartialEq, Eq, Debug, Error)]
pub enum LineCause {
    /// A field is not as it should be.
    #[error("{0}")]
    Field(FieldFault),
    /// The line is missing, or begins with another letter than may stand there.
    #[error("another line is wanted here")]
    OtherLine,
    /// The line does not end behind its fields.
    #[error("the line does not end behind its fields")]
    NoEnd,
    /// The nodes are no shape.
    #[error("{0}")]
    Shape(ShapeRefusal),
    /// The blocks and terms are no query.
    #[error("{0}")]
    Query(QueryRefusal),
    /// The tables are too short, or a node, tag or term is not there.
    #[error("{0}")]
    Survey(SurveyRefusal),
}

/// A line that is refused, counted from 1.
#[derive(Clone, Copy, PartialEq, Eq, Debug, Error)]
#[error("line {line}: {cause}")]
pub struct LineFault {
    pub line: usize,
    pub cause: LineCause,
}

/// Why a file is refused.
#[derive(Clone, Copy, PartialEq, Eq, Debug, Error)]
pub enum FileFault {
    #[error("the file has over 65,536 bytes")]
    TooLong,
    #[error("{0}")]
    Line(LineFault),
    /// Over 10,000 steps are needed; the line is the last one.
    #[error("line {line}: over 10,000 steps are needed")]
    TooManySteps { line: usize },
}

/// Why a file has no listing.
#[derive(Clone, Copy, PartialEq, Eq, Debug, Error)]
pub enum FileRefusal {
    /// The output has less room than any listing may need; nothing is altered.
    #[error("the output has too little room")]
    NoRoom,
    /// The file is refused, and the output tells number and line.
    #[error("{0}")]
    Fault(FileFault),
    /// Want of memory: no fault of the file.
    #[error("memory ran out")]
    NoMemory,
}

// By hand, all of these, since the derive's conversions promise nothing of the fault.
impl From<FieldFault> for LineCause {
    ghost from_gives = { λ fault cause. cause ≡ Field fault };

    fn from(fault: FieldFault) -> Self {
        Self::Field(fault)
    }
}

impl From<ShapeRefusal> for LineCause {
    ghost from_gives = { λ why cause. cause ≡ Shape why };

    fn from(why: ShapeRefusal) -> Self {
        Self::Shape(why)
    }
}

impl From<QueryRefusal> for LineCause {
    ghost from_gives = { λ why cause. cause ≡ Query why };

    fn from(why: QueryRefusal) -> Self {
        Self::Query(why)
    }
}

impl From<SurveyRefusal> for LineCause {
    ghost from_gives = { λ why cause. cause ≡ Survey why };

    fn from(why: SurveyRefusal) -> Self {
        Self::Survey(why)
    }
}

impl From<LineFault> for FileFault {
    ghost from_gives = { λ fault file. file ≡ Line fault };

    fn from(fault: LineFault) -> Self {
        Self::Line(fault)
    }
}

impl From<FileFault> for FileRefusal {
    ghost from_gives = { λ fault refusal. refusal ≡ Fault fault };

    fn from(fault: FileFault) -> Self {
        Self::Fault(fault)
    }
}

impl From<LineFault> for FileRefusal {
    ghost from_gives = { λ fault refusal. refusal ≡ Fault (Line fault) };

    fn from(fault: LineFault) -> Self {
        Self::Fault(fault.into())
    }
}

impl From<AllocError> for FileRefusal {
    ghost from_gives = { λ _ refusal. refusal ≡ NoMemory };

    fn from(_error: AllocError) -> Self {
        Self::NoMemory
    }
}

impl<T: Drop> From<AllocFailed<T>> for FileRefusal {
    ghost from_gives = { λ _ refusal. refusal ≡ NoMemory };

    fn from(_failed: AllocFailed<T>) -> Self {
        Self::NoMemory
    }
}

impl LineCause {
    /// The cause on a line.
    pub fn at(self, line: usize) -> LineFault
        ensures { result ≡ record { line = line; cause = self } }
    {
        LineFault { line, cause: self }
    }

    /// The published number.
    pub fn number(self) -> u8
        ensures { result ≡ number_of_cause self }
    {
        match self {
            LineCause::Field(_) | LineCause::OtherLine | LineCause::NoEnd => 12,
            LineCause::Shape(why) => why.number(),
            LineCause::Query(why) => why.number(),
            LineCause::Survey(why) => why.number(),
        }
    }
}

impl FileFault {
    /// The published number.
    pub fn number(self) -> u8
        ensures { result ≡ number_of_file self }
    {
        match self {
            FileFault::TooLong => 13,
            FileFault::Line(fault) => fault.cause.number(),
            FileFault::TooManySteps { .. } => 14,
        }
    }

    /// The line of the cause, from 1; 0 for the file as a whole.
    pub fn line(self) -> usize
        ensures { result ≡ line_of_file self }
    {
        match self {
            FileFault::TooLong => 0,
            FileFault::Line(fault) => fault.line,
            FileFault::TooManySteps { line } => line,
        }
    }
}

impl FileRefusal {
    /// The published number.
    pub fn number(self) -> u8
        ensures { result ≡ number_of self }
    {
        match self {
            FileRefusal::NoRoom => 7,
            FileRefusal::Fault(fault) => fault.number(),
            FileRefusal::NoMemory => 99,
        }
    }
}

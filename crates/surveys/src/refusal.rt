//! Why a call on a survey is refused.
ghost use Rattle.std.specs.Prelude.{◌≡◌};
ghost use Rattle.surveys.specs.Refusals.{published};

use thiserror::Error;

/// Why a call was refused; all that it was given is then as it was.
#[derive(Clone, Copy, PartialEq, Eq, Debug, Error)]
pub enum SurveyRefusal {
    /// A table too short, or other counts of nodes or terms than at opening.
    #[error("the tables are too short, or the counts are not those of opening")]
    TableOrCounts,
    /// A node, tag or term that is not in the survey.
    #[error("the node, tag or term is not in the survey")]
    NotInSurvey,
    /// A reading of a block that is not settled.
    #[error("the block is not settled")]
    NotSettled,
    /// A step with all blocks settled.
    #[error("all blocks are settled")]
    AllSettled,
    /// A step whose next entry, after a foreign write, lies outside the current block.
    #[error("the next entry lies outside the current block")]
    ForeignEntry,
}

impl SurveyRefusal {
    /// The published number.
    // A rule of the project: refusals are published by number.
    pub fn number(self) -> u8
        ensures { result ≡ published self }
    {
        match self {
            SurveyRefusal::TableOrCounts => 7,
            SurveyRefusal::NotInSurvey => 8,
            SurveyRefusal::NotSettled => 9,
            SurveyRefusal::AllSettled => 10,
            SurveyRefusal::ForeignEntry => 11,
        }
    }
}

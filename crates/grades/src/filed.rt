//! Kinds of grade that stand in files, as numbers.
ghost use Rattle.std.specs.Prelude.{◌≡◌, ℕ, MatchOption, ◌≢◌};
ghost use Rattle.grades.specs.Filed.{Numbered, yes_no_number, stage_set_number};
ghost use Rattle.std.proofs.Common.{rules};
ghost use Rattle.grades.specs.Stages.{same_bits};

use crate::grade::Grade;
use crate::stage_set::StageSet;

/// A kind whose grades have numbers of 32 bits, read back exactly.
// A trait of its own, and not `TryFrom<u32>`: yes/no is `bool`, for which only std may write that.
pub trait FiledGrade: Grade {
    ghost number: { Self → ℕ };

    /// The number of the grade.
    fn to_number(self) -> u32
        ensures { result ≡ number self };

    /// The grade of the number, or none where no grade has it.
    fn from_number(n: u32) -> Option<Self>
        ensures { MatchOption result ((g : Self) → number g ≢ n) (λ g. number g ≡ n) };

    ghost numbered: { Numbered number };
}

/// No is 0 and yes is 1.
impl FiledGrade for bool {
    ghost number = { yes_no_number };

    ghost numbered = { Prim.search rules };

    fn to_number(self) -> u32 {
        u32::from(self)
    }

    fn from_number(n: u32) -> Option<bool> {
        match n {
            0 => Some(false),
            1 => Some(true),
            _ => None,
        }
    }
}

/// A stage set is its bits.
impl FiledGrade for StageSet {
    ghost number = { stage_set_number };

    ghost numbered = { record { fits = λ x. x.fits; apart = same_bits } };

    fn to_number(self) -> u32 {
        self.into()
    }

    fn from_number(n: u32) -> Option<StageSet> {
        Some(n.into())
    }
}

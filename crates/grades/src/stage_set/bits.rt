//! Stage sets from and to their bits, and the questions to one set.
ghost use Rattle.std.specs.Prelude.{◌≡◌};
ghost use Rattle.grades.specs.StageSets.{IsOfBits, bit, stage_sets};

use crate::stage_set::StageSet;

/// The set of the stages whose bits are one.
impl From<u32> for StageSet {
    ghost from_gives = { IsOfBits };

    fn from(bits: u32) -> StageSet {
        StageSet { stages: bits }
    }
}

/// A one for each stage of the set.
impl From<StageSet> for u32 {
    ghost from_gives = { λ set bits. bits ≡ set.stages };

    fn from(set: StageSet) -> u32 {
        set.stages
    }
}

impl StageSet {
    /// Whether the stage belongs to the set; no stage from 32 on does.
    pub fn holds_in(self, stage: u32) -> bool
        ensures { result ≡ bit stage self }
    {
        stage < u32::BITS && (self.stages >> stage) % 2 == 1
    }

    /// How many stages the set has, which is its rank.
    pub fn count(self) -> u32
        ensures { result ≡ stage_sets.rank self }
    {
        self.stages.count_ones()
    }
}

//! Stage sets as a kind of grade.
ghost use Rattle.std.specs.Prelude.{refl};
ghost use Rattle.grades.specs.StageSets.{stage_sets};
ghost use Rattle.grades.specs.Stages.{stage_set_laws};

use crate::grade::Grade;
use crate::stage_set::StageSet;

/// A set lies below the sets that include it; join is union, meet is intersection, turn is complement.
impl Grade for StageSet {
    const HEIGHT: u32 = 32;

    ghost HEIGHT = { stage_sets.height };

    ghost kind = { stage_sets };

    ghost height_of_kind = { refl };

    ghost laws = { stage_set_laws };

    fn join(self, other: StageSet) -> StageSet {
        StageSet::from(self.stages | other.stages)
    }

    fn meet(self, other: StageSet) -> StageSet {
        StageSet::from(self.stages & other.stages)
    }

    fn turn(self) -> StageSet {
        StageSet::from(!self.stages)
    }

    fn lowest() -> StageSet {
        StageSet::from(0)
    }

    fn highest() -> StageSet {
        StageSet::from(u32::MAX)
    }

    fn same(self, other: StageSet) -> bool {
        self == other
    }
}

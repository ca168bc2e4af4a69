//! Yes/no: a thing holds or does not.
ghost use Rattle.std.specs.Prelude.{refl};
ghost use Rattle.grades.specs.YesNo.{yes_no, yes_no_laws};

use crate::grade::Grade;

/// No lies below yes; join is or, meet is and, turn is not.
impl Grade for bool {
    const HEIGHT: u32 = 1;

    ghost HEIGHT = { yes_no.height };

    ghost kind = { yes_no };

    ghost height_of_kind = { refl };

    ghost laws = { yes_no_laws };

    fn join(self, other: bool) -> bool {
        self || other
    }

    fn meet(self, other: bool) -> bool {
        self && other
    }

    fn turn(self) -> bool {
        !self
    }

    fn lowest() -> bool {
        false
    }

    fn highest() -> bool {
        true
    }

    fn same(self, other: bool) -> bool {
        self == other
    }
}

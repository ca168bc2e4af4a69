//! Sets of signal stages.
ghost use Rattle.std.specs.Prelude.{◌^◌, ◌<◌};

pub mod bits;
pub mod grade;

/// The signal stages, out of 32, in which a thing holds: stage s is bit s from the low end.
#[derive(Clone, Copy, PartialEq, Eq, Debug)]
pub struct StageSet {
    stages: u32,
    ghost fits: { stages < 2 ^ 32 },
}

//! Stage sets stage by stage.
ghost use Rattle.grades.specs.ByStage.{KeptByStage, EqualByStage, BelowByStage};

/// Reading one stage keeps the operations, and the stages tell a set and its place in the order.
pub fn by_stage()
    ensures kept { KeptByStage }
    ensures equal { EqualByStage }
    ensures below { BelowByStage }
{}

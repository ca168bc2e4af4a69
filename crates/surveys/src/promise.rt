//! What surveys keep, whatever calls are made on them.
ghost use Rattle.surveys.specs.Promise.{PromiseKept};
ghost use Rattle.surveys.specs.Readings.{SelectsSettled, SolvesByStage, SelectsByStage, ReadsByStage};

use grades::grade::Grade;

/// Whatever calls are made on a survey, it keeps its promise.
pub fn promise_kept<G: Grade>()
    ensures { PromiseKept G.kind }
{}

/// Settled rows are what the query's formulas select, for stage sets at each stage.
pub fn rows_select()
    ensures yes_no { SelectsSettled }
    ensures solved { SolvesByStage }
    ensures selected { SelectsByStage }
    ensures read { ReadsByStage }
{}

//! Small survey files, with what is answered to each.
ghost use Rattle.files.specs.ModelAnswers.{ModelAnswers};
ghost use Rattle.files.specs.RefusedCalls.{CallsRefused};

use grades::grade::Grade;

/// What the rules answer to some small files, and to calls that they always refuse.
pub fn model_answers()
    ensures { ModelAnswers }
{}

/// A reading right after opening is refused, and so is a step where every block is settled.
pub fn calls_refused<G: Grade>()
    ensures { CallsRefused G.kind }
{}

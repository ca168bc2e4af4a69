//! Theorems on meanings.
ghost use Rattle.meaning.specs.Theorems.{OneSolution, ReachedByRounds, KeptByRounds, Carried, Selects, OneSelection, SolvedByStage, SelectedByStage};

use grades::grade::Grade;

/// Every query has one meaning.
pub fn one_meaning<G: Grade>()
    ensures { OneSolution G.kind }
{}

/// Rounds from the start values lead to the meaning.
pub fn meaning_by_rounds<G: Grade>()
    ensures reached { ReachedByRounds G.kind }
    ensures kept { KeptByRounds G.kind }
{}

/// A map of grades that keeps the operations keeps meanings.
pub fn meaning_carried<G: Grade, H: Grade>()
    ensures { Carried G.Grade.kind H.Grade.kind }
{}

/// For yes and no, a query means what its formulas select.
pub fn meaning_selects()
    ensures selects { Selects }
    ensures one { OneSelection }
{}

/// For stage sets, a query means at each stage what it means on that stage's marks.
pub fn meaning_by_stage()
    ensures solved { SolvedByStage }
    ensures selected { SelectedByStage }
{}

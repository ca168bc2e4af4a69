//! Small queries worked out.
ghost use Rattle.meaning.specs.Examples.{ReachesRight, CycleGreatest, CycleLeast, ItselfGreatest, ItselfLeast};

use grades::grade::Grade;

/// A reach to the right, a cycle of two terms, and a term defined by itself alone.
pub fn worked_examples<G: Grade>()
    ensures reach { ReachesRight G.kind }
    ensures cycle { CycleGreatest G.kind × CycleLeast G.kind }
    ensures itself { ItselfGreatest G.kind × ItselfLeast G.kind }
{}

//! Making and filling a linked shape.
ghost use Rattle.std.specs.Prelude.{◌≡◌, length, MatchResult};
ghost use Rattle.shapes.specs.Certified.{Verdict};
ghost use Rattle.shapes.specs.LinkedShapes.{OneNode, FillOutcome};
ghost use Rattle.shapes.specs.Tree.{Countable};
ghost use Rattle.shapes.specs.declared.refusal.ShapeRefusal.TheVariants.{NoMemory};

use crate::certified::Leveled;
use crate::count::is_countable;
use crate::levels::levels_of;
use crate::linked::LinkedShape;
use crate::links::{Links, NO_LINKS};
use crate::refusal::ShapeRefusal;
use std::alloc::Global;

/// Whether a table obeys the laws of trees.
fn is_lawful(heap: Global, rows: &[Links]) -> Result<bool, ShapeRefusal>
    requires { Countable (length rows.now) }
    ensures { MatchResult result (Verdict rows.now) (λ e. e ≡ NoMemory) }
{
    let levels = levels_of(heap, rows)?;
    Ok(Leveled {
        rows,
        levels: &levels,
    }
    .all_certified())
}

impl LinkedShape {
    /// A single node.
    pub fn new(heap: Global) -> Result<LinkedShape, ShapeRefusal>
        ensures { OneNode result }
    {
        let rows = Vec::from_slice(heap, &[NO_LINKS])?;
        Ok(LinkedShape { rows })
    }

    /// Takes the tree that a table tells; refused, the shape is as it was.
    pub fn fill(&mut self, heap: Global, rows: &[Links]) -> Result<(), ShapeRefusal>
        ensures { FillOutcome rows.now self.old self.new result }
    {
        if !is_countable(rows.len()) {
            return Err(ShapeRefusal::NodeCount);
        }
        if !is_lawful(heap, rows)? {
            return Err(ShapeRefusal::BrokenLinks);
        }
        self.rows = Vec::from_slice(heap, rows)?;
        Ok(())
    }
}

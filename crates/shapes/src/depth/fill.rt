//! A depth shape is made and filled.
ghost use Rattle.shapes.specs.DepthShapes.{DepthsFilled, DepthsRefused, HasDepths};
ghost use Rattle.std.specs.Prelude.{◌≡◌, [], ◌∷◌, MatchResult};
ghost use Rattle.shapes.specs.declared.refusal.ShapeRefusal.TheVariants.{NoMemory};

use crate::count::is_countable;
use crate::depth::DepthShape;
use crate::depth::rule::first_fault;
use crate::depth::siblings::nodes_of;
use crate::refusal::ShapeRefusal;
use std::alloc::Global;

impl DepthShape {
    /// A single node.
    pub fn new(heap: Global) -> Result<DepthShape, ShapeRefusal>
        ensures { MatchResult result (HasDepths (0 ∷ [])) (λ e. e ≡ NoMemory) }
    {
        DepthShape::of_depths(heap, &[0])
    }

    /// Fills the shape from one depth per node, in document order.
    pub fn fill(&mut self, heap: Global, depths: &[u16]) -> Result<(), ShapeRefusal>
        ensures { DepthsFilled depths.now self.old self.new result }
    {
        *self = DepthShape::of_depths(heap, depths)?;
        Ok(())
    }

    /// The shape of these depths. Memory is asked for only once they are checked.
    fn of_depths(heap: Global, depths: &[u16]) -> Result<DepthShape, ShapeRefusal>
        ensures { MatchResult result (HasDepths depths.now) (DepthsRefused depths.now) }
    {
        if !is_countable(depths.len()) {
            return Err(ShapeRefusal::NodeCount);
        }
        if let Some(node) = first_fault(depths) {
            return Err(ShapeRefusal::UnlawfulDepth { node });
        }
        let nodes = nodes_of(heap, depths)?;
        Ok(DepthShape { nodes })
    }
}

#[cfg(test)]
mod tests {
    use super::*;
    use crate::axis::Axis;
    use crate::shape::Shape;
    use std::test::Fail;

    // A junction with two approaches, of two lanes and of one.
    #[test]
    fn junction(rt: HostRuntime) -> Result<(), Fail> {
        let mut shape = DepthShape::new(rt.alloc())?;
        shape.fill(rt.alloc(), &[0, 1, 2, 2, 1, 2])?;
        assert_eq!(rt; shape.node_count(), 6);
        assert_eq!(rt; shape.first_of(1), Some(2));
        assert_eq!(rt; shape.next_of(1), Some(4));
        assert_eq!(rt; shape.previous_of(3), Some(2));
        assert_eq!(rt; shape.owner_of(3), None);
        assert_eq!(rt; shape.neighbour(Axis::Owner, 5), Some(4));
        Ok(())
    }

    #[test]
    fn unlawful(rt: HostRuntime) -> Result<(), Fail> {
        let mut shape = DepthShape::new(rt.alloc())?;
        shape.fill(rt.alloc(), &[0, 1, 1])?;
        assert_eq!(rt;
            shape.fill(rt.alloc(), &[0, 2]),
            Err(ShapeRefusal::UnlawfulDepth { node: 1 })
        );
        assert_eq!(rt;
            shape.fill(rt.alloc(), &[0, 1, 0]),
            Err(ShapeRefusal::UnlawfulDepth { node: 2 })
        );
        assert_eq!(rt; shape.fill(rt.alloc(), &[]), Err(ShapeRefusal::NodeCount));
        assert_eq!(rt; shape.next_of(1), Some(2));
        Ok(())
    }

    #[test]
    fn most_nodes(rt: HostRuntime) -> Result<(), Fail> {
        let mut depths = vec![in rt.alloc(); 1u16; 2048]?;
        assert!(rt; depths.len() == 2048);
        depths[0] = 0;
        let mut shape = DepthShape::new(rt.alloc())?;
        shape.fill(rt.alloc(), &depths)?;
        assert_eq!(rt; shape.previous_of(2047), Some(2046));
        depths.push(1)?;
        assert_eq!(rt;
            shape.fill(rt.alloc(), &depths),
            Err(ShapeRefusal::NodeCount)
        );
        Ok(())
    }
}

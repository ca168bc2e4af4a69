//! A depth shape's neighbours, each in constant time.
ghost use Rattle.shapes.specs.DepthShapes.{depth_shape_tree};
ghost use Rattle.shapes.specs.DepthTables.{deeper};
ghost use Rattle.std.specs.Prelude.{◌≡◌};
ghost use Rattle.std.proofs.Math.Logic.{∥∥₁_elim};
ghost use Rattle.shapes.specs.DepthLaws.{nodes_laws};
ghost use Rattle.shapes.specs.DepthProps.{lawful_prop, tree_prop};

use crate::axis::Axis;
use crate::depth::DepthShape;
use crate::shape::Shape;

impl DepthShape {
    /// Whether a node is deeper than the one before it, and so that one's first child.
    fn is_first_child(&self, node: usize) -> bool
        ensures { result ≡ deeper self.now.nodes.items node }
    {
        node > 0 && node < self.nodes.len() && self.nodes[node - 1].depth < self.nodes[node].depth
    }
}

impl Shape for DepthShape {
    ghost count = { λ s. (depth_shape_tree s).count };

    ghost first = { λ s. (depth_shape_tree s).first };

    ghost next = { λ s. (depth_shape_tree s).next };

    ghost owner = { λ s. (depth_shape_tree s).owner };

    ghost previous = { λ s. (depth_shape_tree s).previous };

    ghost laws = { λ s. nodes_laws _ s.counted (∥∥₁_elim s.lawful (lawful_prop _) (λ l. l)) (∥∥₁_elim s.told (tree_prop _ _) (λ t. t)) };

    fn node_count(&self) -> usize {
        self.nodes.len()
    }

    fn neighbour(&self, axis: Axis, node: usize) -> Option<usize> {
        match axis {
            Axis::First => node
                .checked_add(1)
                .filter(|after| self.is_first_child(*after)),
            Axis::Next => self.nodes.get(node)?.next.map(usize::from),
            Axis::Owner => {
                if self.is_first_child(node) {
                    Some(node - 1)
                } else {
                    None
                }
            }
            Axis::Previous => self.nodes.get(node)?.previous.map(usize::from),
        }
    }
}

//! A linked shape read as a tree.
ghost use Rattle.shapes.specs.LinkedShapes.{linked_shape_tree};
ghost use Rattle.shapes.specs.TableLaws.{lawful_table};

use crate::axis::Axis;
use crate::linked::LinkedShape;
use crate::shape::Shape;
use crate::table::led_to;

impl Shape for LinkedShape {
    ghost count = { λ s. (linked_shape_tree s).count };

    ghost first = { λ s. (linked_shape_tree s).first };

    ghost next = { λ s. (linked_shape_tree s).next };

    ghost owner = { λ s. (linked_shape_tree s).owner };

    ghost previous = { λ s. (linked_shape_tree s).previous };

    ghost laws = { λ s. lawful_table s.rows.items s.count s.lawful };

    fn node_count(&self) -> usize {
        self.rows.len()
    }

    fn neighbour(&self, axis: Axis, node: usize) -> Option<usize> {
        led_to(&self.rows, axis, node)
    }
}

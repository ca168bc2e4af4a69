//! The grade that a term gives at a node, from tables of marks and values.
ghost use Rattle.std.specs.Option.{SomeIff};
ghost use Rattle.shapes.specs.Shapes.{tree_of};
ghost use Rattle.meaning.specs.Solutions.{grade_of_lem};
ghost use Rattle.meaning.specs.Tables.{grades_in, Readable};

use crate::table::GradeTable;
use grades::grade::Grade;
use queries::term::Term;
use shapes::shape::Shape;

/// The grade that a term gives at a node, by tables of marks (a row for each tag) and values (a row for each term).
///
/// None where the number is no node or a read lies outside the tables.
pub fn grade_of<G: Grade, S: Shape>(
    shape: &S,
    term: Term,
    node: usize,
    marks: &[G],
    values: &[G],
) -> Option<G>
    ensures { SomeIff result (Readable (tree_of S.Shape shape.now) marks.now values.now term node) (grade_of_lem G.kind (tree_of S.Shape shape.now) (grades_in G.kind (S.count shape.now) marks.now) (grades_in G.kind (S.count shape.now) values.now) term node) }
{
    let nodes = shape.node_count();
    if node >= nodes {
        return None;
    }
    // The caller gives slices: how wide a row is follows from the shape, and is not the caller's to choose.
    let marks = GradeTable {
        grades: marks,
        nodes,
    };
    let values = GradeTable {
        grades: values,
        nodes,
    };
    match term {
        Term::Mark(tag) => marks.at(tag, node),
        Term::Turn(a) => Some(values.at(a, node)?.turn()),
        Term::Meet(a, b) => Some(values.at(a, node)?.meet(values.at(b, node)?)),
        Term::Join(a, b) => Some(values.at(a, node)?.join(values.at(b, node)?)),
        Term::SomeNeighbour(axis, a) => {
            values.at_neighbour(a, shape.neighbour(axis, node), G::lowest())
        }
        Term::EveryNeighbour(axis, a) => {
            values.at_neighbour(a, shape.neighbour(axis, node), G::highest())
        }
        Term::Lowest => Some(G::lowest()),
        Term::Highest => Some(G::highest()),
    }
}

#[cfg(test)]
mod tests {
    use super::*;
    use shapes::axis::Axis;
    use shapes::depth::DepthShape;
    use std::test::Fail;

    // A root with two children, and a row of values with yes at the second.
    #[test]
    fn to_the_right(rt: HostRuntime) -> Result<(), Fail> {
        let mut shape = DepthShape::new(rt.alloc())?;
        shape.fill(rt.alloc(), &[0, 1, 1])?;
        let values = [false, false, true];
        let right = Term::SomeNeighbour(Axis::Next, 0);
        assert_eq!(rt; grade_of(&shape, right, 1, &[], &values), Some(true));
        assert_eq!(rt; grade_of(&shape, right, 2, &[], &values), Some(false));
        assert_eq!(rt; grade_of(&shape, Term::Turn(1), 0, &[], &values), None);
        Ok(())
    }
}

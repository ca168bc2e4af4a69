//! The mirrored shape: children from right to left.
ghost use Rattle.std.specs.Prelude.{◌≡◌};
ghost use Rattle.shapes.specs.Mirrored.{mirrored};
ghost use Rattle.shapes.specs.Mirrors.{MirrorOf, walk_end};
ghost use Rattle.shapes.specs.Shapes.{tree_of};
ghost use Rattle.shapes.specs.Tree.{along, SameTree};
ghost use Rattle.shapes.specs.MirrorLaws.{mirror_laws};

use crate::axis::Axis;
use crate::shape::Shape;

/// A shape seen in the mirror. It holds the shape, and answers by asking it.
#[derive(Drop)]
pub struct Mirrored<S> {
    shape: S,
}

// Where an axis leads in the end: the last node on it, or the node itself.
// `successors(..).last()` is no plainer: it gives an option, which is never none here.
fn end_along<S: Shape>(shape: &S, axis: Axis, node: usize) -> usize
    ensures { result ≡ walk_end (along (tree_of S.Shape shape.now) axis) (S.Shape.count shape.now) node }
{
    let mut end = node;
    while let Some(further) = shape.neighbour(axis, end) {
        end = further;
    }
    end
}

impl<S: Shape> Mirrored<S> {
    /// The mirror of a shape.
    pub fn over(shape: S) -> Mirrored<S>
        ensures inner { result.shape ≡ shape }
        ensures mirrors { MirrorOf (tree_of S.Shape shape) (tree_of (mirrored S.Shape) result) }
    {
        Mirrored { shape }
    }

    /// The shape in the mirror.
    pub fn inner(&self) -> &S
        ensures { result.now ≡ self.now.shape }
    {
        &self.shape
    }

    /// The shape in the mirror, as it was given.
    pub fn into_inner(self) -> S
        ensures { result ≡ self.shape }
    {
        self.shape
    }
}

/// Takes both mirrors off, since two of them show the tree as it is.
pub fn unmirrored<S: Shape>(twice: Mirrored<Mirrored<S>>) -> S
    ensures inner { result ≡ twice.shape.shape }
    ensures same { SameTree (tree_of (mirrored (mirrored S.Shape)) twice) (tree_of S.Shape result) }
{
    twice.into_inner().into_inner()
}

impl<S: Shape> Shape for Mirrored<S> {
    ghost count = { (mirrored S.Shape).count };

    ghost first = { (mirrored S.Shape).first };

    ghost next = { (mirrored S.Shape).next };

    ghost owner = { (mirrored S.Shape).owner };

    ghost previous = { (mirrored S.Shape).previous };

    ghost laws = { λ s. mirror_laws _ (S.Shape.laws s.shape) };

    fn node_count(&self) -> usize {
        self.shape.node_count()
    }

    fn neighbour(&self, axis: Axis, node: usize) -> Option<usize> {
        match axis {
            Axis::First => self
                .shape
                .first_of(node)
                .map(|eldest| end_along(&self.shape, Axis::Next, eldest)),
            Axis::Next => self.shape.previous_of(node),
            Axis::Owner => match self.shape.next_of(node) {
                None => self
                    .shape
                    .owner_of(end_along(&self.shape, Axis::Previous, node)),
                Some(_) => None,
            },
            Axis::Previous => self.shape.next_of(node),
        }
    }
}

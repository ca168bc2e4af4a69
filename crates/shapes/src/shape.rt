//! The interface of a shape.
ghost use Rattle.std.specs.Prelude.{◌≡◌, ℕ, Option};
ghost use Rattle.shapes.specs.Tree.{tree, along, Laws};

use crate::axis::Axis;

/// A sibling tree over the nodes 0 to count - 1.
///
/// The ghost members are what the shape means: its count and four partial maps.
/// Every question answers for every number, with none at the count and past it.
// The count and four maps apart, and not one tree, by a rule of the project.
pub trait Shape {
    ghost count: { Self → ℕ };

    ghost first: { Self → ℕ → Option ℕ };

    ghost next: { Self → ℕ → Option ℕ };

    ghost owner: { Self → ℕ → Option ℕ };

    ghost previous: { Self → ℕ → Option ℕ };

    fn node_count(&self) -> usize
        ensures { result ≡ count self.now };

    /// The neighbour along an axis.
    fn neighbour(&self, axis: Axis, node: usize) -> Option<usize>
        ensures { result ≡ along (tree (count self.now) (first self.now) (next self.now) (owner self.now) (previous self.now)) axis node };

    /// The first child.
    fn first_of(&self, node: usize) -> Option<usize>
        ensures { result ≡ first self.now node }
    {
        self.neighbour(Axis::First, node)
    }

    /// The sibling to the right.
    fn next_of(&self, node: usize) -> Option<usize>
        ensures { result ≡ next self.now node }
    {
        self.neighbour(Axis::Next, node)
    }

    /// The node whose first child this is.
    fn owner_of(&self, node: usize) -> Option<usize>
        ensures { result ≡ owner self.now node }
    {
        self.neighbour(Axis::Owner, node)
    }

    /// The sibling to the left.
    fn previous_of(&self, node: usize) -> Option<usize>
        ensures { result ≡ previous self.now node }
    {
        self.neighbour(Axis::Previous, node)
    }

    ghost laws: { (s : Self) → Laws (tree (count s) (first s) (next s) (owner s) (previous s)) };
}

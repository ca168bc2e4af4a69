//! A shape filled from depths.
ghost use Rattle.shapes.specs.DepthTables.{depths_of, nodes_tree};
ghost use Rattle.shapes.specs.Depths.{DepthTree, LawfulDepths};
ghost use Rattle.shapes.specs.Tree.{Countable};
ghost use Rattle.std.specs.Prelude.{length};

use node::DepthNode;
pub use rule::first_fault;

mod fill;
mod neighbours;
mod node;
mod rule;
mod siblings;

/// A sibling tree held as a node for each depth, in document order.
///
/// Two depths tell a first child and its owner; the siblings stand in the nodes.
#[derive(Drop)]
// Indices and no boxes, by a rule of the project: nodes are asked for by number, each in constant time.
pub struct DepthShape {
    nodes: Vec<DepthNode>,
    ghost counted: { Countable (length nodes.items) },
    ghost lawful: { ∥ LawfulDepths (depths_of nodes.items) ∥₁ },
    ghost told: { ∥ DepthTree (depths_of nodes.items) (nodes_tree nodes.items) ∥₁ },
}

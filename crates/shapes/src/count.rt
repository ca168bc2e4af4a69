//! How many nodes a shape may have.
ghost use Rattle.std.specs.Prelude.{Decides};
ghost use Rattle.shapes.specs.Tree.{Countable};

/// The most nodes that a shape may have.
pub(crate) const MOST_NODES: usize = 2048;

/// Whether a shape may have so many nodes.
pub fn is_countable(nodes: usize) -> bool
    ensures { Decides result (Countable nodes) }
{
    (1..=MOST_NODES).contains(&nodes)
}

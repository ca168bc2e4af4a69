//! The linked shape: a tree filled from a table of links.
ghost use Rattle.std.specs.Prelude.{length};
ghost use Rattle.shapes.specs.Certified.{Certified};
ghost use Rattle.shapes.specs.Tree.{Countable};

use crate::links::Links;

mod filling;
mod reading;
#[cfg(test)]
mod tests;

/// A tree held as the links of each node.
#[derive(Drop)]
// Indices and no boxes, by a rule of the project: nodes are asked for by number, each in constant time.
pub struct LinkedShape {
    rows: Vec<Links>,
    ghost count: { Countable (length rows.items) },
    ghost lawful: { Certified rows.items },
}

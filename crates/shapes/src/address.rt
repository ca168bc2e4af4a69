//! The address of a node.
ghost use Rattle.std.specs.Prelude.{◌≡◌, ◌≤◌, length, MatchResult};
ghost use Rattle.shapes.specs.Addresses.{address_of, SiblingTree};
ghost use Rattle.shapes.specs.Shapes.{tree_of};

use crate::shape::Shape;
use std::alloc::{AllocError, Global};

/// The word of a node: the positions from the root down, each counted from 1 at the first child.
///
/// The root has the empty word, and so has what is no node. Only want of memory refuses, and never the empty word.
pub fn address<S: Shape>(heap: Global, shape: &S, node: usize) -> Result<Vec<usize>, AllocError>
    ensures word { MatchResult result (λ v. v.items ≡ address_of (tree_of S.Shape shape.now) node) (λ _. 1 ≤ length (address_of (tree_of S.Shape shape.now) node)) }
    ensures sibling_tree { SiblingTree (tree_of S.Shape shape.now) }
{
    let mut word = Vec::new(heap);
    let mut position = 1usize;
    let mut here = node;
    loop {
        if let Some(left) = shape.previous_of(here) {
            position += 1;
            here = left;
        } else if let Some(above) = shape.owner_of(here) {
            word.push(position)?;
            position = 1;
            here = above;
        } else {
            word.reverse();
            return Ok(word);
        }
    }
}

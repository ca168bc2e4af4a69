//! The nodes of a depth list, with their siblings.
ghost use Rattle.std.specs.Prelude.{◌≡◌, ℕ, ◌<◌, length, IfOk, Some};
ghost use Rattle.shapes.specs.DepthTables.{AllLatest, DepthNodes};
ghost use Rattle.shapes.specs.Depths.{LawfulDepths, NextSibling};
ghost use Rattle.shapes.specs.Tree.{Countable, Iff};

use crate::depth::node::DepthNode;
use std::alloc::{AllocError, Global};

/// The sibling to the left of a node, from the latest node of each depth.
///
/// Depths rise by one at a time, so nothing since that node is less deep.
fn previous_sibling(depths: &[u16], latest: &[u16], node: usize) -> Option<u16>
    requires lawful { LawfulDepths depths.now }
    requires inside { node < length depths.now }
    requires room { length latest.now ≡ length depths.now }
    requires latest { AllLatest depths.now node latest.now }
    ensures { (p : ℕ) → Iff (result ≡ Some p) (NextSibling depths.now p node) }
{
    // Read before the test, so that reading is no branch of its own.
    let left = latest[depths[node] as usize];
    if node > 0 && depths[node] <= depths[node - 1] {
        Some(left)
    } else {
        None
    }
}

/// The nodes of these depths.
pub(super) fn nodes_of(heap: Global, depths: &[u16]) -> Result<Vec<DepthNode>, AllocError>
    requires countable { Countable (length depths.now) }
    requires lawful { LawfulDepths depths.now }
    ensures { IfOk result (λ v. DepthNodes depths.now v.items) }
{
    let mut latest = vec![in heap; 0u16; depths.len()]?;
    let mut nodes = Vec::with_capacity(heap, depths.len())?;
    for (node, depth) in depths.iter().enumerate() {
        let previous = previous_sibling(depths, &latest, node);
        nodes.push(DepthNode {
            depth: *depth,
            next: None,
            previous,
        })?;
        let node = node as u16;
        if let Some(left) = previous {
            nodes[left as usize].next = Some(node);
        }
        latest[*depth as usize] = node;
    }
    Ok(nodes)
}

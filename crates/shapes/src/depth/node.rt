//! What a depth shape holds of a node.

/// A node's depth, and its siblings to the right and to the left.
// Siblings in 16 bits, since a shape has at most 2,048 nodes: so a node takes 10 bytes.
#[derive(Clone, Copy)]
pub(super) struct DepthNode {
    pub(super) depth: u16,
    pub(super) next: Option<u16>,
    pub(super) previous: Option<u16>,
}

//! What a query keeps of each block and of each term.
use crate::block::{Block, Span};
use crate::term::Term;

/// A block, and its terms.
#[derive(Clone, Copy)]
pub(crate) struct BlockEntry {
    pub(crate) block: Block,
    pub(crate) span: Span,
}

/// A term, its block, and the terms of that block that read it.
#[derive(Drop)]
pub(crate) struct TermEntry {
    pub(crate) term: Term,
    pub(crate) block: usize,
    pub(crate) readers: Vec<usize>,
}

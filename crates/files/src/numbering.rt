//! The lines on which the rows of a file stand, counted from 1.
ghost use Rattle.std.specs.Prelude.{◌≡◌, ◌+◌, ◌^◌, ◌<◌};
ghost use Rattle.files.specs.Causes.{node_line, block_line, term_line, mark_line};
ghost use Rattle.files.specs.Contents.{contents_of, lines_of};

use crate::contents::FileContents;

/// The line of a node.
pub(crate) fn line_of_node(node: usize) -> usize
    requires { node_line node < 2 ^ 64 }
    ensures { result ≡ node_line node }
{
    2 + node
}

impl FileContents {
    /// The line of a block.
    pub(crate) fn line_of_block(&self, block: usize) -> usize
        requires { block_line (contents_of self.now) block < 2 ^ 64 }
        ensures { result ≡ block_line (contents_of self.now) block }
    {
        line_of_node(self.nodes.len()) + block
    }

    /// The line of a term.
    pub(crate) fn line_of_term(&self, term: usize) -> usize
        requires { term_line (contents_of self.now) term < 2 ^ 64 }
        ensures { result ≡ term_line (contents_of self.now) term }
    {
        self.line_of_block(self.blocks.len()) + term
    }

    /// The line of a mark.
    pub(crate) fn line_of_mark(&self, mark: usize) -> usize
        requires { mark_line (contents_of self.now) mark < 2 ^ 64 }
        ensures { result ≡ mark_line (contents_of self.now) mark }
    {
        self.line_of_term(self.terms.len()) + mark
    }

    /// How many lines were read.
    pub(crate) fn lines(&self) -> usize
        requires { lines_of (contents_of self.now) + 1 < 2 ^ 64 }
        ensures { result ≡ lines_of (contents_of self.now) }
    {
        self.line_of_mark(self.marks.len()) - 1 + usize::from(self.asked.is_some())
    }
}

//! The other lines of a survey file.
ghost use Rattle.files.specs.Rows.{node_form, block_form, term_form, mark_form, asked_form};

use crate::fault::LineCause;
use crate::line::{Row, take_columns, take_end};
use queries::rows::{BlockRow, TermRow};

/// The letter that a mark begins with.
pub(crate) const MARK: u8 = b'M';

/// The depth of a node.
#[derive(Clone, Copy, PartialEq, Eq, Debug)]
pub(crate) struct NodeRow {
    pub(crate) depth: u32,
}

/// The number of a grade, for a tag at a node.
#[derive(Clone, Copy, PartialEq, Eq, Debug)]
pub(crate) struct MarkRow {
    pub(crate) node: u32,
    pub(crate) tag: u32,
    pub(crate) grade: u64,
}

/// The term whose row is asked for.
#[derive(Clone, Copy, PartialEq, Eq, Debug)]
pub(crate) struct AskedRow {
    pub(crate) term: u32,
}

impl Row for NodeRow {
    ghost form = { node_form };

    fn take(text: &[u8]) -> Result<(Self, &[u8]), LineCause> {
        let ([depth], rest) = take_columns(text, b'N', [5])?;
        let rest = take_end(rest)?;
        let row = NodeRow {
            depth: depth as u32,
        };
        Ok((row, rest))
    }
}

impl Row for BlockRow {
    ghost form = { block_form };

    fn take(text: &[u8]) -> Result<(Self, &[u8]), LineCause> {
        let ([kind, terms], rest) = take_columns(text, b'B', [5, 5])?;
        let rest = take_end(rest)?;
        let row = BlockRow {
            kind: kind as u32,
            terms: terms as u32,
        };
        Ok((row, rest))
    }
}

impl Row for TermRow {
    ghost form = { term_form };

    fn take(text: &[u8]) -> Result<(Self, &[u8]), LineCause> {
        let ([kind, a, b], rest) = take_columns(text, b'T', [5, 5, 5])?;
        let rest = take_end(rest)?;
        let row = TermRow {
            kind: kind as u32,
            a: a as u32,
            b: b as u32,
        };
        Ok((row, rest))
    }
}

impl Row for MarkRow {
    ghost form = { mark_form };

    fn take(text: &[u8]) -> Result<(Self, &[u8]), LineCause> {
        let ([node, tag, grade], rest) = take_columns(text, MARK, [5, 5, 10])?;
        let rest = take_end(rest)?;
        let row = MarkRow {
            node: node as u32,
            tag: tag as u32,
            grade,
        };
        Ok((row, rest))
    }
}

impl Row for AskedRow {
    ghost form = { asked_form };

    fn take(text: &[u8]) -> Result<(Self, &[u8]), LineCause> {
        let ([term], rest) = take_columns(text, b'Q', [5])?;
        let rest = take_end(rest)?;
        let row = AskedRow { term: term as u32 };
        Ok((row, rest))
    }
}

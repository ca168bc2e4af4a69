//! Blocks: terms that define one another.
use std::fmt;

/// Which solution a block is read as.
#[derive(Clone, Copy, PartialEq, Eq, Debug)]
pub enum Solution {
    Least,
    Greatest,
}

impl fmt::Display for Solution {
    fn fmt<W: fmt::Write>(&self, f: &mut fmt::Formatter<W>) -> fmt::Result {
        f.write_str(match self {
            Solution::Least => "least",
            Solution::Greatest => "greatest",
        })
    }
}

/// A block, by its solution and how many terms it has.
#[derive(Clone, Copy, PartialEq, Eq, Debug)]
pub struct Block {
    pub solution: Solution,
    pub terms: usize,
}

/// The terms of a block: from the first up to the end. A `Range` would not be `Copy`.
#[derive(Clone, Copy, PartialEq, Eq, Debug)]
pub struct Span {
    pub first: usize,
    pub end: usize,
}

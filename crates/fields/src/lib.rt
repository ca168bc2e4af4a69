//! Numbers in columns: at the right end, with blanks before them.
#![tactic(auto)]

pub mod field;
pub mod reading;
#[cfg(test)]
mod tests;
pub mod theorems;
pub mod writing;

//! A queue of entries that is threaded through a lent table.
#![tactic(auto)]

mod place;
pub mod queue;
#[cfg(test)]
mod tests;

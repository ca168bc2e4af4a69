//! Admission and the questions to a query, tried on examples.
#![tactic(auto)]

#[cfg(test)]
mod tests;

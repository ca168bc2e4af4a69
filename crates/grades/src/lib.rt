//! Grades: how far a thing holds at a node of a junction model.
#![tactic(auto)]

pub mod by_stage;
pub mod filed;
pub mod grade;
pub mod stage_set;
#[cfg(test)]
mod tests;
pub mod yes_no;

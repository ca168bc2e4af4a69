//! What a query means.
#![tactic(auto)]

pub mod examples;
pub mod grade_of;
pub mod table;
pub mod theorems;

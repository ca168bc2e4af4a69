//! Surveys: the rows of a query, kept up to date while marks change.
#![tactic(auto)]

pub mod call;
pub mod conduct;
pub mod promise;
pub mod queried;
pub mod refusal;
pub mod survey;

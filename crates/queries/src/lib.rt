//! Queries: blocks of mutual definitions, admitted or refused.
#![tactic(auto)]

mod admission;
pub mod block;
mod dealing;
pub mod laws;
pub mod query;
pub mod refusal;
pub mod rows;
pub mod term;
mod workings;

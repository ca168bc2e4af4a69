//! Survey files: a model, a query and marks as text, and the listing of a row.
#![tactic(auto)]

mod causes;
mod contents;
mod depths;
pub mod fault;
mod head;
mod line;
mod listing;
mod model;
pub mod model_answers;
mod numbering;
mod output;
mod rows;
mod settle;
pub mod survey_file;
pub mod tables;
pub mod theorems;

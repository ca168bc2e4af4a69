//! Shapes: sibling trees behind one interface.
#![tactic(auto)]

pub mod address;
pub mod axis;
mod certified;
pub mod count;
pub mod depth;
mod levels;
pub mod linked;
pub mod links;
pub mod mirrored;
pub mod refusal;
pub mod shape;
mod table;

//! Surveys, opened, settled, read and refused on examples.
#![tactic(auto)]

#[cfg(test)]
mod fixture;
#[cfg(test)]
mod lists;
#[cfg(test)]
mod refusals;
#[cfg(test)]
mod tests;

//! A shape with the query that is put to it.
use queries::query::Query;

/// A shape with the query that is put to it.
// Lent on by reference: by value, each clause would have to say `.entry` of it.
#[derive(Drop)]
pub struct QueriedShape<'a, S> {
    pub shape: &'a S,
    pub query: &'a Query,
}

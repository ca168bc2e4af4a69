//! The shape and the query that are settled.
use queries::query::Query;
use queries::rows::{BlockRow, QueryTable, TermRow};
use shapes::depth::DepthShape;
use std::alloc::Global;

/// How many terms one copy of the query has.
pub const COPY: u32 = 5;

/// A root with all other nodes as its children.
pub fn family(heap: Global, nodes: usize) -> anyhow::Result<DepthShape> {
    let mut depths = vec![in heap; 1u16; nodes]?;
    if let Some(root) = depths.first_mut() {
        *root = 0;
    }
    let mut shape = DepthShape::new(heap)?;
    shape.fill(heap, &depths)?;
    Ok(shape)
}

/// The terms of one copy that begins at this term: the mark, the last term at the next and at the previous sibling, their join, and its join
/// with the mark.
pub fn copied(first: u32) -> [TermRow; COPY as usize] {
    let row = |kind, a, b| TermRow { kind, a, b };
    let term = |i: u32| first.saturating_add(i);
    [
        row(0, 0, 0),
        row(5, term(4), 0),
        row(7, term(4), 0),
        row(3, term(1), term(2)),
        row(3, term(0), term(3)),
    ]
}

/// A mark here or at some sibling, to the right or to the left, so many times over, in one least block.
pub fn two_way(heap: Global, copies: usize) -> anyhow::Result<Query> {
    let mut terms = Vec::new(heap);
    let mut first = 0u32;
    for _ in 0..copies {
        for row in copied(first) {
            terms.push(row)?;
        }
        first = first.saturating_add(COPY);
    }
    let table = QueryTable {
        tags: 1,
        blocks: &[BlockRow {
            kind: 0,
            terms: first,
        }],
        terms: &terms,
    };
    let mut query = Query::new(heap)?;
    query.admit(heap, table)?;
    Ok(query)
}

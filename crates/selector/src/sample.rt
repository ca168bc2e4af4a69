//! A small query, put into words.
use crate::audit::print_audit;
use anyhow::Context;
use queries::query::Query;
use queries::refusal::QueryRefusal;
use queries::rows::{BlockRow, QueryTable, TermRow};
use shapes::depth::DepthShape;
use shapes::refusal::ShapeRefusal;
use std::alloc::Global;

/// Some lane from here to the right has the mark: a mark here, or the same at the next lane.
const SAMPLE: QueryTable<'static> = QueryTable {
    tags: 1,
    blocks: &[BlockRow { kind: 0, terms: 3 }],
    terms: &[
        TermRow {
            kind: 0,
            a: 0,
            b: 0,
        },
        TermRow {
            kind: 3,
            a: 0,
            b: 2,
        },
        TermRow {
            kind: 5,
            a: 1,
            b: 0,
        },
    ],
};

/// The query of the sample.
fn admitted(heap: Global) -> Result<Query, QueryRefusal> {
    let mut query = Query::new(heap)?;
    query.admit(heap, SAMPLE)?;
    Ok(query)
}

/// The shape of the sample: a junction with two approaches, of three lanes and of two.
fn junction(heap: Global) -> Result<DepthShape, ShapeRefusal> {
    let mut shape = DepthShape::new(heap)?;
    shape.fill(heap, &[0, 1, 2, 2, 2, 1, 2, 2])?;
    Ok(shape)
}

/// Prints the definitions of the sample, and audits a junction with it.
pub fn print_sample(rt: &impl Print, heap: Global) -> anyhow::Result<()> {
    let shape = junction(heap)?;
    let query = admitted(heap)?;
    print_query(rt, &query)?;
    print_audit(rt, heap, &shape, &query)
}

fn print_query(rt: &impl Print, query: &Query) -> anyhow::Result<()> {
    // A term is asked for by its number, since a query hands out no list of its terms.
    for i in 0..query.term_count() {
        print_term(rt, query, i)?;
    }
    let tags = query.tag_count();
    let blocks = query.block_count();
    let terms = query.term_count();
    println!(rt; "a query of {tags} tag, {blocks} block and {terms} terms: admitted")?;
    Ok(())
}

fn print_term(rt: &impl Print, query: &Query, i: usize) -> anyhow::Result<()> {
    let term = query.term(i).context("no such term")?;
    let block = query.block_of(i).context("no such term")?;
    let solution = query.solution(block).context("no such block")?;
    println!(rt; "{solution} block {block}, term {i}: {term}")?;
    Ok(())
}

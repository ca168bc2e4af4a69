//! A query settled again and again, while one mark changes to and fro.
use crate::checksum::Checksum;
use crate::model::{family, two_way};
use crate::tables::Tables;
use grades::filed::FiledGrade;
use grades::grade::Grade;
use grades::stage_set::StageSet;
use shapes::shape::Shape;
use std::alloc::Global;
use std::fmt;
use surveys::queried::QueriedShape;
use surveys::survey::retag::Mark;

/// How many nodes, how many copies of the query, and how many times the mark changes.
#[derive(Clone, Copy)]
pub struct Size {
    pub nodes: usize,
    pub copies: usize,
    pub rounds: u32,
}

/// How many steps were made, how many changes altered the mark, and a checksum of the rows.
#[derive(Clone, Copy)]
pub struct Outcome {
    steps: u64,
    altered: u64,
    sum: Checksum,
}

impl fmt::Display for Outcome {
    fn fmt<W: fmt::Write>(&self, f: &mut fmt::Formatter<W>) -> fmt::Result {
        let Outcome {
            steps,
            altered,
            sum,
        } = *self;
        let sum = sum.0;
        write!(f, "steps {steps} altered {altered} sum {sum}")
    }
}

/// Yes or no: one mark in the middle, taken back and set again.
pub fn settle_two_way(heap: Global, size: Size) -> anyhow::Result<Outcome> {
    let mut marks = vec![in heap; false; size.nodes]?;
    if let Some(mark) = marks.get_mut(size.nodes / 2) {
        *mark = true;
    }
    settle_rounds(heap, size, marks, [false, true])
}

/// Stage sets: another stage marked at each node, and all of them or none in the middle.
pub fn settle_stages(heap: Global, size: Size) -> anyhow::Result<Outcome> {
    let mut marks = Vec::new(heap);
    for node in 0..size.nodes {
        marks.push(StageSet::from(1u32 << (node % 32) as u32))?;
    }
    settle_rounds(heap, size, marks, [StageSet::lowest(), StageSet::highest()])
}

/// Opens a survey, and settles it again each time that the mark in the middle has changed.
fn settle_rounds<G: FiledGrade>(
    heap: Global,
    size: Size,
    marks: Vec<G>,
    turns: [G; 2],
) -> anyhow::Result<Outcome> {
    let shape = family(heap, size.nodes)?;
    let query = two_way(heap, size.copies)?;
    let queried = QueriedShape {
        shape: &shape,
        query: &query,
    };
    let last = query.term_count().saturating_sub(1);
    let mut tables = Tables::new(
        heap,
        marks,
        shape.node_count().saturating_mul(query.term_count()),
    )?;
    let mut survey = tables.open(&queried)?;
    let mut outcome = Outcome {
        steps: u64::from(tables.run(&mut survey, &queried)?),
        altered: 0,
        sum: Checksum::new(),
    };
    for round in 0..size.rounds {
        let grade = if round % 2 == 0 { turns[0] } else { turns[1] };
        let mark = Mark {
            tag: 0,
            node: size.nodes / 2,
            grade,
        };
        let altered = tables.retag(&mut survey, &queried, mark)?;
        let steps = tables.run(&mut survey, &queried)?;
        outcome.altered = outcome.altered.wrapping_add(u64::from(altered));
        outcome.steps = outcome.steps.wrapping_add(u64::from(steps));
        outcome.sum.add(u64::from(steps));
    }
    for grade in tables.read(&survey, &queried, last)? {
        outcome.sum.add(u64::from(grade.to_number()));
    }
    Ok(outcome)
}

//! A small audit: a query settled over a model, with a lane re-marked in between.
use anyhow::anyhow;
use queries::query::Query;
use shapes::depth::DepthShape;
use shapes::shape::Shape;
use std::alloc::Global;
use std::fmt;
use surveys::call::{Answer, Call};
use surveys::conduct::conduct;
use surveys::queried::QueriedShape;
use surveys::refusal::SurveyRefusal;
use surveys::survey::retag::Mark;

/// More steps than any model of this size needs.
const ENOUGH: u32 = 1_000_000;

/// What a call was answered, in words.
#[derive(Drop)]
struct Report<'a>(&'a Result<Answer<bool>, SurveyRefusal>);

/// The nodes at which term 1 holds.
#[derive(Drop)]
struct Holding<'a>(&'a [bool]);

impl fmt::Display for Report<'_> {
    fn fmt<W: fmt::Write>(&self, f: &mut fmt::Formatter<W>) -> fmt::Result {
        match self.0 {
            Ok(Answer::Altered(true)) => write!(f, "retag: altered the mark"),
            Ok(Answer::Altered(false)) => write!(f, "retag: the mark stood so"),
            Ok(Answer::Stepped(all)) => write!(f, "step: all settled {all}"),
            Ok(Answer::Ran(steps, all)) => write!(f, "run: {steps} steps, all settled {all}"),
            Ok(Answer::Row(row)) => Holding(row).fmt(f),
            Err(why) => {
                let number = why.number();
                write!(f, "refused {number}")
            }
        }
    }
}

impl fmt::Display for Holding<'_> {
    fn fmt<W: fmt::Write>(&self, f: &mut fmt::Formatter<W>) -> fmt::Result {
        write!(f, "term 1 holds at")?;
        for (node, holds) in self.0.iter().enumerate() {
            if *holds {
                write!(f, " {node}")?;
            }
        }
        write!(f, ".")
    }
}

/// A mark of tag 0.
fn marked(node: usize, grade: bool) -> Call<bool> {
    Call::Retag(Mark {
        tag: 0,
        node,
        grade,
    })
}

/// Marks a node, settles and reads; takes the mark back, reads too early, settles and reads again.
pub fn print_audit(
    rt: &impl Print,
    heap: Global,
    shape: &DepthShape,
    query: &Query,
) -> anyhow::Result<()> {
    let nodes = shape.node_count();
    let node = nodes / 2;
    let entries = nodes.saturating_mul(query.term_count());
    let mut marks = vec![in heap; false; nodes]?;
    let mut values = vec![in heap; false; entries]?;
    let mut waiting = vec![in heap; 0u32; entries]?;
    let calls = [
        marked(node, true),
        Call::Run(ENOUGH),
        Call::Read(1),
        marked(node, false),
        Call::Read(1),
        Call::Run(ENOUGH),
        Call::Read(1),
    ];
    let answers = conduct(
        heap,
        &QueriedShape { shape, query },
        &mut marks,
        &mut values,
        &mut waiting,
        &calls,
    )
    .map_err(|_| anyhow!("the survey was refused"))?;
    println!(rt; "node {node} is marked, and later not")?;
    for answer in &answers {
        let report = Report(answer);
        println!(rt; "{report}")?;
    }
    Ok(())
}

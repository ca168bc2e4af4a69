//! A survey: what is kept of it between calls.
use queues::queue::Queue;

mod checks;
mod fitting;
mod open;
mod read;
mod reset;
pub mod retag;
mod run;
mod step;
mod upcoming;
mod waking;
mod writing;

/// Where a survey stands: the counts of its opening, the blocks that are settled, and the current one.
///
/// Marks, values and the places of the queue lie in tables that each call is lent.
// They stay slices: lent tables are a rule of the project, and a struct of `&mut` slices would be no plainer. Each clause would have to say
// that its fields still hold the same references, and callers that share their marks could not make it.
#[derive(Clone, Copy)]
pub struct Survey {
    nodes: usize,
    tags: usize,
    terms: usize,
    blocks: usize,
    // A buffer with `blocks` beside it: fixed memory is a rule of the project, and with a `Vec` opening could lack memory.
    settled: [bool; 64],
    current: Option<Work>,
}

/// The current block, with the entries of it that wait.
#[derive(Clone, Copy)]
pub struct Work {
    block: usize,
    queue: Queue,
}

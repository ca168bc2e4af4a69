//! Work to measure: the same query settled many times, or the same file listed many times. What it prints is a checksum, which another program
//! for the same work has to print too.
//!
//! `bench two_way|stages NODES COPIES ROUNDS`, `bench file ROUNDS`; with no arguments a little of each.
#![tactic(auto)]

mod checksum;
mod file;
mod listing;
mod model;
mod settling;
mod tables;

use anyhow::anyhow;
use listing::list_rounds;
use settling::{Size, settle_stages, settle_two_way};
use std::alloc::Global;
use std::env;

const USAGE: &str = "usage: bench [two_way|stages NODES COPIES ROUNDS | file ROUNDS]";

/// What is measured, and how much of it.
#[derive(Clone, Copy)]
enum Work {
    TwoWay(Size),
    Stages(Size),
    File(u32),
}

/// A little of each.
const LITTLE: [Work; 3] = [
    Work::TwoWay(Size {
        nodes: 20,
        copies: 2,
        rounds: 4,
    }),
    Work::Stages(Size {
        nodes: 20,
        copies: 2,
        rounds: 4,
    }),
    Work::File(2),
];

/// The work that the arguments name.
fn work_of(words: &[&str]) -> anyhow::Result<Work> {
    match words {
        [kind, nodes, copies, rounds] => {
            let size = Size {
                nodes: nodes.parse::<usize>()?,
                copies: copies.parse::<usize>()?,
                rounds: rounds.parse::<u32>()?,
            };
            match *kind {
                "two_way" => Ok(Work::TwoWay(size)),
                "stages" => Ok(Work::Stages(size)),
                _ => Err(anyhow!("{USAGE}")),
            }
        }
        ["file", rounds] => Ok(Work::File(rounds.parse::<u32>()?)),
        _ => Err(anyhow!("{USAGE}")),
    }
}

fn print_work(rt: &impl Print, heap: Global, work: Work) -> anyhow::Result<()> {
    match work {
        Work::TwoWay(size) => {
            let outcome = settle_two_way(heap, size)?;
            println!(rt; "two_way {outcome}")?;
        }
        Work::Stages(size) => {
            let outcome = settle_stages(heap, size)?;
            println!(rt; "stages {outcome}")?;
        }
        Work::File(rounds) => {
            let listed = list_rounds(heap, rounds)?;
            println!(rt; "file {listed}")?;
        }
    }
    Ok(())
}

fn main(rt: HostRuntime) -> anyhow::Result<()> {
    let arguments = env::args(&rt)?;
    let mut words = Vec::new(rt.alloc());
    for word in arguments.skip(1) {
        words.push(word)?;
    }
    if words.is_empty() {
        for work in LITTLE {
            print_work(&rt, rt.alloc(), work)?;
        }
        return Ok(());
    }
    let mut shown = Vec::new(rt.alloc());
    for word in &words {
        shown.push(word.as_str())?;
    }
    print_work(&rt, rt.alloc(), work_of(&shown)?)
}

//! A survey file of the greatest size, most of it marks.
use crate::model::{COPY, copied};
use std::alloc::Global;
use std::fmt::Write;

const NODES: u64 = 258;

const TAGS: u64 = 8;

const MARKS: u64 = 2_891;

/// The text of the file: 65,536 bytes.
pub fn text(heap: Global) -> anyhow::Result<String> {
    let mut text = String::new(heap);
    write!(text, "H{NODES:>5}{TAGS:>5}{:>5}{COPY:>5}GR\n", 1)?;
    for node in 0..NODES {
        write!(text, "N{:>5}\n", u64::from(node > 0))?;
    }
    write!(text, "B{:>5}{COPY:>5}\n", 0)?;
    for row in copied(0) {
        write!(text, "T{:>5}{:>5}{:>5}\n", row.kind, row.a, row.b)?;
    }
    for i in 0..MARKS {
        let node = i % NODES;
        let tag = i / NODES % TAGS;
        let grade = 1_000_000_000 + (i * 1_048_583) % 3_000_000_000;
        write!(text, "M{node:>5}{tag:>5}{grade:>10}\n")?;
    }
    write!(text, "Q{:>5}\n", COPY - 1)?;
    Ok(text)
}

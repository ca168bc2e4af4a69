//! The junction selector: a survey file in, its listing out.
#![tactic(auto)]

mod audit;
mod sample;

use anyhow::anyhow;
use files::fault::FileRefusal;
use files::survey_file::{FAULT_SIZE, OUTPUT_ROOM, list_file};
use files::tables::{FileTables, Room};
use sample::print_sample;
use std::alloc::Global;
use std::io::{Read, Write};
use std::{env, fs, io};

const ROOM: Room = Room {
    marks: 4_096,
    values: 16_384,
    waiting: 16_384,
};

const USAGE: &str = "usage: selector [FILE | --sample]";

fn main(rt: HostRuntime) -> anyhow::Result<()> {
    let mut arguments = env::args(&rt)?.skip(1);
    let name = arguments.next();
    if arguments.next().is_some() {
        return Err(anyhow!("{USAGE}"));
    }
    match name {
        Some(name) if name.as_str() == "--sample" => print_sample(&rt, rt.alloc()),
        Some(name) if name.as_str().starts_with('-') => Err(anyhow!("{USAGE}")),
        Some(name) => print_listing(&rt, rt.alloc(), &fs::read(&rt, name.as_str())?),
        None => {
            let mut file = Vec::new(rt.alloc());
            rt.stdin().read_to_end(&mut file)?;
            print_listing(&rt, rt.alloc(), &file)
        }
    }
}

/// Prints the listing of a survey file, or the line of its refusal.
fn print_listing(rt: &impl Print, heap: Global, file: &[u8]) -> anyhow::Result<()> {
    let mut tables = FileTables::with_room(heap, ROOM)?;
    let mut output = vec![in heap; 0u8; OUTPUT_ROOM]?;
    let listed = list_file(heap, file, &mut tables, &mut output);
    output.truncate(match listed {
        Ok(size) => size,
        Err(FileRefusal::Fault(_)) => FAULT_SIZE,
        Err(_) => 0,
    });
    io::writer(rt).write_all(&output)?;
    match listed {
        Ok(_) => Ok(()),
        Err(why) => Err(anyhow!("{why}")),
    }
}

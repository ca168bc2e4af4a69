//! Lists survey files one after the other: on standard input each stands behind a line with its size, on standard output its listing behind a
//! line with its number.
#![tactic(auto)]

use fields::reading::take_number;
use fields::writing::put_number;
use files::fault::FileRefusal;
use files::survey_file::{FAULT_SIZE, OUTPUT_ROOM, list_file};
use files::tables::{FileTables, Room};
use std::alloc::Global;
use std::io;
use std::io::{Read, Write};

/// As many places as the program's tables have.
const ROOM: Room = Room {
    marks: 4_096,
    values: 16_384,
    waiting: 16_384,
};

/// The first file of a text, and the text behind it.
fn first_case(text: &[u8]) -> Option<(&[u8], &[u8])> {
    let [b'C', text @ ..] = text else {
        return None;
    };
    let (size, text) = take_number(text, 5)?;
    let [b'\n', text @ ..] = text else {
        return None;
    };
    text.split_at_checked(size as usize)
}

/// Lists a file, and answers how many bytes of the output that takes.
fn listing_of(heap: Global, file: &[u8], tables: &mut FileTables, output: &mut [u8]) -> usize {
    match list_file(heap, file, tables, output) {
        Ok(size) => size,
        Err(FileRefusal::Fault(_)) => FAULT_SIZE,
        Err(_) => 0,
    }
}

fn main(rt: HostRuntime) -> io::Result<()> {
    let mut text = Vec::new(rt.alloc());
    rt.stdin().read_to_end(&mut text)?;
    let mut tables = FileTables::with_room(rt.alloc(), ROOM)?;
    let mut output = vec![in rt.alloc(); 0u8; OUTPUT_ROOM]?;
    let mut rest = text.as_slice();
    for number in 0..100_000u64 {
        let Some((file, behind)) = first_case(rest) else {
            break;
        };
        let mut line = *b"C     \n";
        put_number(&mut line[1..6], number);
        let size = listing_of(rt.alloc(), file, &mut tables, &mut output);
        rt.stdout().write_all(&line)?;
        if let Some(listing) = output.get(..size) {
            rt.stdout().write_all(listing)?;
        }
        rest = behind;
    }
    Ok(())
}

//! A file listed again and again.
use crate::checksum::Checksum;
use crate::file::text;
use files::survey_file::{OUTPUT_ROOM, list_file};
use files::tables::{FileTables, Room};
use std::alloc::Global;
use std::fmt;

/// As many places as the selector's tables have.
const ROOM: Room = Room {
    marks: 4_096,
    values: 16_384,
    waiting: 16_384,
};

/// How long the file is, how long all listings are, and a checksum of the last.
#[derive(Clone, Copy)]
pub struct Listed {
    file: usize,
    listings: usize,
    sum: Checksum,
}

impl fmt::Display for Listed {
    fn fmt<W: fmt::Write>(&self, f: &mut fmt::Formatter<W>) -> fmt::Result {
        let Listed {
            file,
            listings,
            sum,
        } = *self;
        let sum = sum.0;
        write!(f, "bytes {file} listed {listings} sum {sum}")
    }
}

/// Lists the file so many times.
pub fn list_rounds(heap: Global, rounds: u32) -> anyhow::Result<Listed> {
    let text = text(heap)?;
    let file = text.as_str().as_bytes();
    let mut tables = FileTables::with_room(heap, ROOM)?;
    let mut output = vec![in heap; 0u8; OUTPUT_ROOM]?;
    let mut listed = Listed {
        file: file.len(),
        listings: 0,
        sum: Checksum::new(),
    };
    for _ in 0..rounds {
        let size = list_file(heap, file, &mut tables, &mut output)?;
        listed.listings = listed.listings.wrapping_add(size);
    }
    for byte in &output {
        listed.sum.add(u64::from(*byte));
    }
    Ok(listed)
}

//! The call on a survey file: from its bytes to the bytes of its listing.
ghost use Rattle.std.specs.Prelude.{◌≡◌, ◌≤◌, length};
ghost use Rattle.files.specs.CallSteps.{RowListed};
ghost use Rattle.files.specs.Files.{FileAnswers, output_room};
ghost use Rattle.files.specs.Tables.{AllCleared};

use crate::causes::check;
use crate::contents::read_file;
use crate::fault::{FileFault, FileRefusal};
use crate::listing::write_fault;
use crate::model::Model;
use crate::tables::FileTables;
use std::alloc::Global;

/// The room that the longest listing takes.
pub const OUTPUT_ROOM: usize = 34_840;

/// How many bytes the line of a refusal takes.
pub const FAULT_SIZE: usize = 12;

/// The longest file.
const MOST_BYTES: usize = 65_536;

/// Lists the row that a file asks for, in tables that are cleared.
fn list_row(
    heap: Global,
    file: &[u8],
    tables: &mut FileTables,
    output: &mut [u8],
) -> Result<usize, FileRefusal>
    requires cleared { AllCleared tables.old tables.old }
    requires output { output_room ≤ length output.old }
    ensures { RowListed file.now tables.old tables.new output.old output.new result }
{
    if file.len() > MOST_BYTES {
        return Err(FileFault::TooLong.into());
    }
    let read = read_file(heap, file)?;
    let contents = &read.contents;
    let depths = contents.depths(heap)?;
    let room = tables.room_for(contents.head.grades);
    let asked = check(&read, &depths, room)?;
    let model = Model::told(heap, contents, &depths, asked, room)?;
    match model.list(contents, asked, tables, output) {
        Some(size) => Ok(size),
        None => Err(FileFault::TooManySteps {
            line: contents.lines(),
        }
        .into()),
    }
}

/// Lists the row that a file asks for, settled in these tables, and answers how many bytes of the output that takes.
///
/// The tables are cleared first. Of a file that is refused the output tells the number and the line, and the tables stay cleared.
/// Where the output has less than [`OUTPUT_ROOM`] bytes, nothing is altered.
pub fn list_file(
    heap: Global,
    file: &[u8],
    tables: &mut FileTables,
    output: &mut [u8],
) -> Result<usize, FileRefusal>
    ensures { FileAnswers file.now tables.old tables.new output.old output.new result }
{
    if output.len() < OUTPUT_ROOM {
        return Err(FileRefusal::NoRoom);
    }
    tables.clear();
    let listed = list_row(heap, file, tables, output);
    if let Err(FileRefusal::Fault(fault)) = listed {
        tables.clear();
        write_fault(output, fault);
    }
    listed
}

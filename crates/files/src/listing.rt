//! Listings, and the line of a refusal, written into the output.
ghost use Rattle.std.specs.Prelude.{◌≤◌, ◌^◌, ◌<◌, length, slice_index_or};
ghost use Rattle.files.specs.Faults.{number_of_file, line_of_file};
ghost use Rattle.files.specs.Files.{output_room};
ghost use Rattle.files.specs.Listings.{ListsRow, Writes, WritesSome, fault_line, filed};

use crate::fault::FileFault;
use crate::output::{Column, put_line};
use crate::survey_file::FAULT_SIZE;
use grades::filed::FiledGrade;

/// Writes the listing of a row, and answers how many bytes it takes.
pub(crate) fn write_listing<G: FiledGrade>(output: &mut [u8], steps: u32, row: &[G]) -> usize
    requires room { output_room ≤ length output.old }
    requires nodes { length row.now ≤ 2048 }
    ensures { WritesSome (ListsRow (filed G.Grade.kind G.FiledGrade.number) (length row.now) steps (λ x. slice_index_or row.now x G.Grade.kind.lowest)) output.old output.new result }
{
    let mut at = put_line(
        output,
        b'A',
        &[Column::narrow(row.len() as u64), Column::wide(steps.into())],
    );
    let mut count = 0;
    for (node, grade) in row.iter().enumerate() {
        if !grade.same(G::lowest()) {
            at += put_line(
                &mut output[at..],
                b'S',
                &[
                    Column::narrow(node as u64),
                    Column::wide(grade.to_number().into()),
                ],
            );
            count += 1;
        }
    }
    at + put_line(&mut output[at..], b'E', &[Column::narrow(count)])
}

/// Writes the line of a refusal.
pub(crate) fn write_fault(output: &mut [u8], fault: FileFault)
    requires room { output_room ≤ length output.old }
    requires number { number_of_file fault < 10 ^ 5 }
    requires line { line_of_file fault < 10 ^ 5 }
    ensures { Writes output.old output.new (fault_line (number_of_file fault) (line_of_file fault)) }
{
    let size = put_line(
        output,
        b'F',
        &[
            Column::narrow(fault.number().into()),
            Column::narrow(fault.line() as u64),
        ],
    );
    // So much of the output callers show.
    prove!(size == FAULT_SIZE);
}

//! The shape and the query of a file that nothing is wrong with, and the row that it asks for.
ghost use Rattle.std.specs.Prelude.{◌≡◌, ◌≤◌, map, length, IfOk, MatchOption, MatchResult};
ghost use Rattle.shapes.specs.DepthShapes.{HasDepths};
ghost use Rattle.queries.specs.Queries.{table_of};
ghost use Rattle.queries.specs.Rows.{rows_of, told as told_by};
ghost use Rattle.files.specs.declared.fault.FileRefusal.TheVariants.{NoMemory};
ghost use Rattle.files.specs.Causes.{depths_in};
ghost use Rattle.files.specs.Contents.{contents_of};
ghost use Rattle.files.specs.CallSteps.{GradesFor, ModelOf, Sound};
ghost use Rattle.files.specs.Files.{NeedsMoreFor, NeedsMoreSteps, SettledByKind, SettledFor, output_room};
ghost use Rattle.files.specs.Listings.{WritesSome, filed};
ghost use Rattle.files.specs.Reading.{capped};
ghost use Rattle.files.specs.Tables.{AllCleared, SameRoom, SameRooms, cleared, lists_of, room_in, room_of};

use crate::contents::FileContents;
use crate::fault::FileRefusal;
use crate::head::{GradeKind, Hand};
use crate::rows::AskedRow;
use crate::settle::settle;
use crate::tables::{FileTables, Room, Tables};
use grades::filed::FiledGrade;
use queries::query::Query;
use queries::refusal::QueryRefusal;
use queries::rows::QueryTable;
use shapes::depth::DepthShape;
use shapes::mirrored::Mirrored;
use shapes::refusal::ShapeRefusal;
use std::alloc::Global;
use surveys::queried::QueriedShape;

/// A file's shape and query.
#[derive(Drop)]
pub(crate) struct Model {
    shape: DepthShape,
    query: Query,
}

fn filled(heap: Global, depths: &[u16]) -> Result<DepthShape, ShapeRefusal>
    ensures { IfOk result (HasDepths depths.now) }
{
    let mut shape = DepthShape::new(heap)?;
    shape.fill(heap, depths)?;
    Ok(shape)
}

fn admitted(heap: Global, table: QueryTable<'_>) -> Result<Query, QueryRefusal>
    ensures { IfOk result (λ q. table_of q ≡ told_by (rows_of table.entry)) }
{
    let mut query = Query::new(heap)?;
    query.admit(heap, table)?;
    Ok(query)
}

impl Model {
    /// The model that a file tells; memory may be wanting, but nothing else.
    pub(crate) fn told(
        heap: Global,
        contents: &FileContents,
        depths: &[u16],
        asked: AskedRow,
        room: Room,
    ) -> Result<Model, FileRefusal>
        requires depths { depths.now ≡ map capped (depths_in (contents_of contents.now)) }
        requires sound { Sound room (contents_of contents.now) asked }
        ensures { MatchResult result (ModelOf (contents_of contents.now)) (λ e. e ≡ NoMemory) }
    {
        let table = QueryTable {
            tags: contents.head.tags,
            blocks: &contents.blocks,
            terms: &contents.terms,
        };
        // What is lawful is refused for want of memory only.
        let Ok(shape) = filled(heap, depths) else {
            return Err(FileRefusal::NoMemory);
        };
        let Ok(query) = admitted(heap, table) else {
            return Err(FileRefusal::NoMemory);
        };
        Ok(Model { shape, query })
    }

    /// Settles the model as the hand says, and lists the row of a term; none where that takes too many steps.
    fn list_by_hand<G: FiledGrade>(
        self,
        contents: &FileContents,
        asked: AskedRow,
        tables: &mut Tables<G>,
        output: &mut [u8],
    ) -> Option<usize>
        requires model { ModelOf (contents_of contents.now) self }
        requires sound { Sound (room_of (lists_of tables.old)) (contents_of contents.now) asked }
        requires grades { GradesFor G.FiledGrade.number contents.now.head.grades }
        requires cleared { lists_of tables.old ≡ cleared G.Grade.kind (room_of (lists_of tables.old)) }
        requires output { output_room ≤ length output.old }
        ensures answer { MatchOption result
            (NeedsMoreFor (filed G.Grade.kind G.FiledGrade.number) (contents_of contents.now) × (output.new ≡ output.old))
            (WritesSome (SettledFor (filed G.Grade.kind G.FiledGrade.number) (contents_of contents.now) asked.term (lists_of tables.old) (lists_of tables.new)) output.old output.new) }
        ensures room { SameRoom (lists_of tables.old) (lists_of tables.new) }
    {
        let Model { shape, query } = self;
        let query = &query;
        match contents.head.hand {
            Hand::AsListed => {
                let queried = QueriedShape {
                    shape: &shape,
                    query,
                };
                settle(
                    &queried,
                    &contents.marks,
                    asked.term as usize,
                    tables,
                    output,
                )
            }
            Hand::Mirrored => {
                let shape = Mirrored::over(shape);
                let queried = QueriedShape {
                    shape: &shape,
                    query,
                };
                settle(
                    &queried,
                    &contents.marks,
                    asked.term as usize,
                    tables,
                    output,
                )
            }
        }
    }

    /// Settles the model in the tables for its kind of grade, and lists the row of a term; none where that takes too many steps.
    pub(crate) fn list(
        self,
        contents: &FileContents,
        asked: AskedRow,
        tables: &mut FileTables,
        output: &mut [u8],
    ) -> Option<usize>
        requires model { ModelOf (contents_of contents.now) self }
        requires sound { Sound (room_in tables.old contents.now.head.grades) (contents_of contents.now) asked }
        requires cleared { AllCleared tables.old tables.old }
        requires output { output_room ≤ length output.old }
        ensures answer { MatchOption result
            (NeedsMoreSteps contents.now.head.grades (contents_of contents.now) × (output.new ≡ output.old))
            (WritesSome (SettledByKind contents.now.head.grades (contents_of contents.now) asked.term tables.old tables.new) output.old output.new) }
        ensures room { SameRooms tables.old tables.new }
    {
        match contents.head.grades {
            GradeKind::YesNo => self.list_by_hand(contents, asked, &mut tables.yes_no, output),
            GradeKind::StageSets => {
                self.list_by_hand(contents, asked, &mut tables.stage_sets, output)
            }
        }
    }
}

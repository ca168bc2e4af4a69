//! The tables that files are settled in.
ghost use Rattle.std.specs.Prelude.{◌≡◌, length, replicate, vec_items, IfOk};
ghost use Rattle.grades.specs.StageSets.{stage_sets as stage_set_kind};
ghost use Rattle.grades.specs.YesNo.{yes_no as yes_no_kind};
ghost use Rattle.files.specs.Tables.{lists_of, room_of, room_in, cleared, IsCleared, AllCleared};

use crate::head::GradeKind;
use grades::grade::Grade;
use grades::stage_set::StageSet;
use std::alloc::{AllocError, Global};

/// Tables for one kind of grade: marks, values, and the waiting list.
#[derive(Drop)]
pub struct Tables<G> {
    pub(crate) marks: Vec<G>,
    pub(crate) values: Vec<G>,
    pub(crate) waiting: Vec<u32>,
}

/// Tables for each kind of grade that stands in files.
#[derive(Drop)]
pub struct FileTables {
    pub(crate) yes_no: Tables<bool>,
    pub(crate) stage_sets: Tables<StageSet>,
}

/// How many places tables have.
#[derive(Clone, Copy, PartialEq, Eq, Debug)]
pub struct Room {
    pub marks: usize,
    pub values: usize,
    pub waiting: usize,
}

/// A table with the value at each of so many places.
fn filled<T: Copy>(heap: Global, places: usize, value: T) -> Result<Vec<T>, AllocError>
    ensures { IfOk result (λ v. v.items ≡ replicate places value) }
{
    let mut table = Vec::new(heap);
    table.resize(places, value)?;
    Ok(table)
}

/// Sets every place of a table to the value.
fn overwrite<T: Copy>(table: &mut [T], value: T)
    ensures { table.new ≡ replicate (length table.old) value }
{
    // `fill` would ask that the type's `clone` never fails.
    table.fill_with(|| value);
}

impl<G: Grade> Tables<G> {
    /// Tables of that room: every grade is the lowest, and nothing waits.
    fn with_room(heap: Global, room: Room) -> Result<Tables<G>, AllocError>
        ensures { IfOk result (λ t. lists_of t ≡ cleared G.kind room) }
    {
        Ok(Tables {
            marks: filled(heap, room.marks, G::lowest())?,
            values: filled(heap, room.values, G::lowest())?,
            waiting: filled(heap, room.waiting, 0)?,
        })
    }

    /// Sets every grade to the lowest, and lets nothing wait.
    fn clear(&mut self)
        ensures { IsCleared G.kind (lists_of self.old) (lists_of self.new) }
    {
        overwrite(&mut self.marks, G::lowest());
        overwrite(&mut self.values, G::lowest());
        overwrite(&mut self.waiting, 0);
    }
}

impl<G> Tables<G> {
    /// How many places the tables have.
    pub fn room(&self) -> Room
        ensures { result ≡ room_of (lists_of self.now) }
    {
        Room {
            marks: self.marks.len(),
            values: self.values.len(),
            waiting: self.waiting.len(),
        }
    }

    /// The marks: a row for each tag, with a grade for each node.
    pub fn marks(&self) -> &[G]
        ensures { result.now ≡ vec_items self.now.marks }
    {
        &self.marks
    }

    /// The values: a row for each term, with a grade for each node.
    pub fn values(&self) -> &[G]
        ensures { result.now ≡ vec_items self.now.values }
    {
        &self.values
    }

    /// The waiting list; 0 at a place where nothing waits.
    pub fn waiting(&self) -> &[u32]
        ensures { result.now ≡ vec_items self.now.waiting }
    {
        &self.waiting
    }
}

impl FileTables {
    /// Tables of that room for each kind of grade: every grade is the lowest, and nothing waits.
    pub fn with_room(heap: Global, room: Room) -> Result<FileTables, AllocError>
        ensures { IfOk result (λ t. (lists_of t.yes_no ≡ cleared yes_no_kind room) × (lists_of t.stage_sets ≡ cleared stage_set_kind room)) }
    {
        Ok(FileTables {
            yes_no: Tables::with_room(heap, room)?,
            stage_sets: Tables::with_room(heap, room)?,
        })
    }

    /// The tables for yes and no.
    pub fn yes_no(&self) -> &Tables<bool>
        ensures { result.now ≡ self.now.yes_no }
    {
        &self.yes_no
    }

    /// The tables for stage sets.
    pub fn stage_sets(&self) -> &Tables<StageSet>
        ensures { result.now ≡ self.now.stage_sets }
    {
        &self.stage_sets
    }

    /// How many places the tables for a kind of grade have.
    pub(crate) fn room_for(&self, grades: GradeKind) -> Room
        ensures { result ≡ room_in self.now grades }
    {
        match grades {
            GradeKind::YesNo => self.yes_no.room(),
            GradeKind::StageSets => self.stage_sets.room(),
        }
    }

    /// Sets every grade to the lowest, and lets nothing wait.
    pub(crate) fn clear(&mut self)
        ensures { AllCleared self.old self.new }
    {
        self.yes_no.clear();
        self.stage_sets.clear();
    }
}

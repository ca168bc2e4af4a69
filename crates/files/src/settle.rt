//! A query settled over a shape on the marks of a file, and the row of a term listed.
ghost use Rattle.std.specs.Prelude.{◌≡◌, ◌*◌, ◌<◌, ◌≤◌, length, drop, IfOk, IsOk, MatchOption};
ghost use Rattle.meaning.specs.Solutions.{Grades};
ghost use Rattle.surveys.specs.Opens.{Agrees, stale};
ghost use Rattle.surveys.specs.Queried.{tree_in, table_in, opening_on};
ghost use Rattle.surveys.specs.Standing.{Roomy, lent};
ghost use Rattle.files.specs.Causes.{RoomFor};
ghost use Rattle.files.specs.CallSteps.{MarksInSurvey, MarksInTable, RunLists, SetsMarks};
ghost use Rattle.files.specs.Files.{output_room};
ghost use Rattle.files.specs.Listings.{WritesSome, filed};
ghost use Rattle.files.specs.Settling.{NeedsMore, RunsOut, Settled};
ghost use Rattle.files.specs.Tables.{lists_of, room_of, cleared, SameRoom};

use crate::listing::write_listing;
use crate::rows::MarkRow;
use crate::tables::Tables;
use grades::filed::FiledGrade;
use shapes::shape::Shape;
use surveys::queried::QueriedShape;
use surveys::refusal::SurveyRefusal;
use surveys::survey::Survey;

/// The most steps that a file may need.
const MOST_STEPS: u32 = 10_000;

/// Sets the marks of a file in a table over `nodes` nodes, later ones over earlier ones.
fn set_marks<G: FiledGrade>(table: &mut [G], nodes: usize, marks: &[MarkRow])
    requires { MarksInTable G.FiledGrade.number nodes (length table.old) marks.now }
    ensures { SetsMarks (filed G.Grade.kind G.FiledGrade.number) nodes marks.now table.old table.new }
{
    for mark in marks {
        let at = mark.tag as usize * nodes + mark.node as usize;
        let grade = G::from_number(mark.grade as u32).unwrap();
        table[at] = grade;
    }
}

/// Runs a survey on a table of marks, and once all is settled lists the row of a term; answers how many bytes that takes,
/// and none where it takes over 10,000 steps.
///
/// Refused where a call on the survey is; with this room, and for a term of the query, none is.
fn list_settled<G: FiledGrade, S: Shape>(
    queried: &QueriedShape<'_, S>,
    marks: &[G],
    values: &mut [G],
    waiting: &mut [u32],
    asked: usize,
    output: &mut [u8],
) -> Result<Option<usize>, SurveyRefusal>
    requires room { Roomy (stale (tree_in S.Shape queried.now) (table_in queried.now)) (lent marks.now values.old waiting.old) }
    requires asked { asked < length (table_in queried.now).terms }
    requires output { output_room ≤ length output.old }
    ensures accepted { IsOk result }
    ensures answer { (m : Grades G) → Agrees G.Grade.kind (tree_in S.Shape queried.now) (table_in queried.now) (lent marks.now values.old waiting.old) m →
        IfOk result (λ r. MatchOption r
        (RunsOut (opening_on G.Grade.kind S.Shape queried.now m) × (output.new ≡ output.old))
        (RunLists (filed G.Grade.kind G.FiledGrade.number) (opening_on G.Grade.kind S.Shape queried.now m) asked (lent marks.now values.new waiting.new) output.old output.new)) }
    ensures values { let entries = length (table_in queried.now).terms * S.count queried.now.shape.now in drop entries values.new ≡ drop entries values.old }
    ensures waiting { let entries = length (table_in queried.now).terms * S.count queried.now.shape.now in drop entries waiting.new ≡ drop entries waiting.old }
{
    let entries = queried.query.term_count() * queried.shape.node_count();
    // What lies behind these is out of the survey's reach.
    let rows = &mut values[..entries];
    let places = &mut waiting[..entries];
    let mut survey = Survey::open(queried, marks, rows, places)?;
    let (steps, all) = survey.run(queried, marks, rows, places, MOST_STEPS)?;
    if !all {
        return Ok(None);
    }
    let row = survey.read(queried, values, asked)?;
    Ok(Some(write_listing(output, steps, row)))
}

/// Settles the query on the marks, and lists the row of a term; answers how many bytes that takes, and none where it takes over 10,000 steps.
pub(crate) fn settle<G: FiledGrade, S: Shape>(
    queried: &QueriedShape<'_, S>,
    marks: &[MarkRow],
    asked: usize,
    tables: &mut Tables<G>,
    output: &mut [u8],
) -> Option<usize>
    requires cleared { lists_of tables.old ≡ cleared G.Grade.kind (room_of (lists_of tables.old)) }
    requires room { RoomFor (table_in queried.now).tags (length (table_in queried.now).terms) (tree_in S.Shape queried.now).count (room_of (lists_of tables.old)) }
    requires marks { MarksInSurvey G.FiledGrade.number (tree_in S.Shape queried.now) (table_in queried.now) marks.now }
    requires asked { asked < length (table_in queried.now).terms }
    requires output { output_room ≤ length output.old }
    ensures answer { MatchOption result
        (NeedsMore (filed G.Grade.kind G.FiledGrade.number) (tree_in S.Shape queried.now) (table_in queried.now) marks.now × (output.new ≡ output.old))
        (WritesSome (Settled (filed G.Grade.kind G.FiledGrade.number) (tree_in S.Shape queried.now) (table_in queried.now) marks.now asked (lists_of tables.new)) output.old output.new) }
    ensures room { SameRoom (lists_of tables.old) (lists_of tables.new) }
{
    set_marks(&mut tables.marks, queried.shape.node_count(), marks);
    // Proved: no call on the survey is refused.
    list_settled(
        queried,
        &tables.marks,
        &mut tables.values,
        &mut tables.waiting,
        asked,
        output,
    )
    .unwrap()
}

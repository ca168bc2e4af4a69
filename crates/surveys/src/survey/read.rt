//! Reading a row.
ghost use Rattle.std.specs.Prelude.{◌≡◌, ℕ, ◌+◌, ◌*◌, ◌≤◌, List, length, take, drop, IfOk, MatchResult};
ghost use denote.Param.{layout};
ghost use prog.Memory.{size as bytes_of};
ghost use Rattle.meaning.specs.Solutions.{Grades};
ghost use Rattle.surveys.specs.Calls.{Does};
ghost use Rattle.surveys.specs.Calls.Call.{read as reading};
ghost use Rattle.surveys.specs.Queried.{tree_in, table_in, opening_on};
ghost use Rattle.surveys.specs.Reading.{ReadRefused, Readable, of_reading};
ghost use Rattle.surveys.specs.Rules.{State};
ghost use Rattle.surveys.specs.Standing.{lent, Stands};

use crate::queried::QueriedShape;
use crate::refusal::SurveyRefusal;
use crate::survey::Survey;
use grades::grade::Grade;
use shapes::shape::Shape;

impl Survey {
    /// The row of a term, as that part of the value table.
    pub fn read<'a, G: Grade, S: Shape>(
        &self,
        queried: &QueriedShape<'_, S>,
        values: &'a [G],
        term: usize,
    ) -> Result<&'a [G], SurveyRefusal>
        ensures causes { MatchResult result
            (λ _. Readable self.now (S.count queried.now.shape.now) (table_in queried.now) (length values.now) term)
            (λ e. ReadRefused self.now (S.count queried.now.shape.now) (table_in queried.now) (length values.now) term e) }
        ensures row { IfOk result (λ s. s.now ≡ take (S.count queried.now.shape.now) (drop (term * S.count queried.now.shape.now) values.now)) }
        ensures place { IfOk result (λ s. (s.ref_ptr.0 ≡ values.entry.ref_ptr.0)
            × (s.ref_ptr.1 ≡ values.entry.ref_ptr.1 + term * S.count queried.now.shape.now * bytes_of (layout G.row))) }
        ensures rules { (m : Grades G) (s : State G) (marks : List G) (waiting : List ℕ) →
            Stands (opening_on G.kind S.Shape queried.now m) s self.now (lent marks values.now waiting) →
            Does (opening_on G.kind S.Shape queried.now m) s (reading term) (of_reading G.kind result) s }
    {
        self.check_reading(queried, values.len(), term)?;
        Ok(row_of(values, queried.shape.node_count(), term))
    }
}

/// A row of a table with rows of `nodes` places.
fn row_of<G: Grade>(values: &[G], nodes: usize, row: usize) -> &[G]
    requires { row * nodes + nodes ≤ length values.now }
    ensures content { result.now ≡ take nodes (drop (row * nodes) values.now) }
    ensures block { result.ref_ptr.0 ≡ values.entry.ref_ptr.0 }
    ensures offset { result.ref_ptr.1 ≡ values.entry.ref_ptr.1 + row * nodes * bytes_of (layout G.row) }
{
    let start = row * nodes;
    &values[start..start + nodes]
}

//! Whether a call comes with the counts of opening and with tables that are long enough.
ghost use Rattle.std.specs.Prelude.{◌≡◌, ℕ, ◌*◌, ◌≤◌, ◌↔◌, IsTrue, List, length, nat_le, MatchResult};
ghost use Rattle.surveys.specs.Queried.{table_in};
ghost use Rattle.surveys.specs.Reading.{ValuesFit};
ghost use Rattle.surveys.specs.Standing.{Fits, lent};

use crate::queried::QueriedShape;
use crate::refusal::SurveyRefusal;
use crate::survey::Survey;
use grades::grade::Grade;
use shapes::shape::Shape;

/// Whether a table of this length has room for so many rows.
fn has_room(len: usize, rows: usize, nodes: usize) -> bool
    ensures { result ≡ nat_le (rows * nodes) len }
{
    rows.checked_mul(nodes).is_some_and(|least| least <= len)
}

impl Survey {
    /// Whether the counts are those of opening, and a value table of this size is long enough.
    pub(super) fn fits_values<S: Shape>(&self, queried: &QueriedShape<'_, S>, size: usize) -> bool
        ensures { IsTrue result ↔ ValuesFit self.now (S.count queried.now.shape.now) (length (table_in queried.now).terms) size }
    {
        let nodes = queried.shape.node_count();
        let terms = queried.query.term_count();
        self.nodes == nodes && self.terms == terms && has_room(size, terms, nodes)
    }

    /// Refuses a call that comes with other counts than those of opening, or with a table that is too short.
    pub(super) fn check_fits<G: Grade, S: Shape>(
        &self,
        queried: &QueriedShape<'_, S>,
        marks: &[G],
        values: &[G],
        waiting: &[u32],
    ) -> Result<(), SurveyRefusal>
        ensures { let fits = Fits self.now (S.count queried.now.shape.now) (length (table_in queried.now).terms) (lent marks.now values.now waiting.now) in
            MatchResult result (λ _. fits) (λ why. (why ≡ SurveyRefusal.TableOrCounts) × (fits → ⊥)) }
    {
        let fits = self.fits_values(queried, values.len())
            && has_room(marks.len(), self.tags, self.nodes)
            && has_room(waiting.len(), self.terms, self.nodes);
        if fits {
            Ok(())
        } else {
            Err(SurveyRefusal::TableOrCounts)
        }
    }
}

//! Opening a survey.
ghost use Rattle.std.specs.Prelude.{◌*◌, length, MatchResult};
ghost use Rattle.queues.specs.Within.{Within};
ghost use Rattle.surveys.specs.Opens.{Opens, RefusedOpening};
ghost use Rattle.surveys.specs.Queried.{tree_in, table_in};
ghost use Rattle.surveys.specs.Standing.{lent};

use crate::queried::QueriedShape;
use crate::refusal::SurveyRefusal;
use crate::survey::Survey;
use grades::grade::Grade;
use shapes::shape::Shape;

impl Survey {
    /// Opens a survey on the marks of a table: every entry at its start value, and every block stale.
    ///
    /// Refused where a table is too short; it is then as it was.
    pub fn open<G: Grade, S: Shape>(
        queried: &QueriedShape<'_, S>,
        marks: &[G],
        values: &mut [G],
        waiting: &mut [u32],
    ) -> Result<Survey, SurveyRefusal>
        ensures answer { MatchResult result
            (λ v. Opens G.kind (tree_in S.Shape queried.now) (table_in queried.now)
            (lent marks.now values.old waiting.old) (lent marks.now values.new waiting.new) v)
            (λ e. RefusedOpening (tree_in S.Shape queried.now) (table_in queried.now)
            (lent marks.now values.old waiting.old) (lent marks.now values.new waiting.new) e) }
        ensures values { Within (length (table_in queried.now).terms * S.count queried.now.shape.now) values.old values.new }
        ensures waiting { Within (length (table_in queried.now).terms * S.count queried.now.shape.now) waiting.old waiting.new }
    {
        let QueriedShape { shape, query } = *queried;
        let survey = Survey {
            nodes: shape.node_count(),
            tags: query.tag_count(),
            terms: query.term_count(),
            blocks: query.block_count(),
            settled: [false; 64],
            current: None,
        };
        survey.check_fits(queried, marks, values, waiting)?;
        survey.reset_blocks(query, values, |_| true);
        waiting[..survey.terms * survey.nodes].fill(0);
        Ok(survey)
    }
}

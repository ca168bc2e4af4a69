//! Several steps at once.
ghost use Rattle.std.specs.Prelude.{◌*◌, length};
ghost use Rattle.queues.specs.Within.{Within};
ghost use Rattle.surveys.specs.Calls.Call.{run as running};
ghost use Rattle.surveys.specs.Held.{of_run, WaitsWithin};
ghost use Rattle.surveys.specs.Queried.{table_in, KeepsRules};
ghost use Rattle.surveys.specs.Running.{RunAnswers};
ghost use Rattle.surveys.specs.Standing.{lent};

use crate::queried::QueriedShape;
use crate::refusal::SurveyRefusal;
use crate::survey::Survey;
use grades::grade::Grade;
use shapes::shape::Shape;

impl Survey {
    /// Makes single steps until `most` are made or one is refused.
    ///
    /// Answers how many it made, and whether all blocks are then settled.
    // A pair, by a rule of the project: how many steps were made, and whether all blocks are settled. Neither hangs on the other.
    pub fn run<G: Grade, S: Shape>(
        &mut self,
        queried: &QueriedShape<'_, S>,
        marks: &[G],
        values: &mut [G],
        waiting: &mut [u32],
        most: u32,
    ) -> Result<(u32, bool), SurveyRefusal>
        ensures rules { KeepsRules G.kind S.Shape queried.now (running most) (of_run result)
            self.old (lent marks.now values.old waiting.old)
            self.new (lent marks.now values.new waiting.new) }
        ensures answer { RunAnswers (S.count queried.now.shape.now) (table_in queried.now) most
            self.old (lent marks.now values.old waiting.old)
            self.new (lent marks.now values.new waiting.new) result }
        ensures values { Within (length (table_in queried.now).terms * S.count queried.now.shape.now) values.old values.new }
        ensures waiting { WaitsWithin (length (table_in queried.now).terms * S.count queried.now.shape.now) self.old waiting.old self.new waiting.new }
    {
        self.check_fits(queried, marks, values, waiting)?;
        // The call fits once for all steps, since none changes the counts or how long the tables are.
        let mut survey = *self;
        let mut current = self.current;
        let QueriedShape { shape, query } = *queried;
        let here = QueriedShape { shape, query };
        for made in 0..most {
            let answer = survey.work_step(&mut current, &here, marks, values, waiting);
            if answer.is_err() {
                survey.current = current;
                *self = survey;
                return Ok((made, self.first_stale().is_none()));
            }
        }
        survey.current = current;
        *self = survey;
        Ok((most, self.first_stale().is_none()))
    }
}

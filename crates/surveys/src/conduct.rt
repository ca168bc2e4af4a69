//! Lists of calls on one survey.
ghost use Rattle.std.specs.Prelude.{MatchOption, MatchResult};
ghost use Rattle.meaning.specs.Solutions.{Grades};
ghost use Rattle.surveys.specs.Conducting.{asks, answers, kept_of, Conducted, NotConducted, Unkept};
ghost use Rattle.surveys.specs.Opens.{Agrees};
ghost use Rattle.surveys.specs.Queried.{tree_in, table_in, opening_on, KeepsRules};
ghost use Rattle.surveys.specs.Standing.{lent};

use crate::call::{Answer, Call, CallFailure, ConductRefusal};
use crate::queried::QueriedShape;
use crate::refusal::SurveyRefusal;
use crate::survey::Survey;
use grades::grade::Grade;
use shapes::shape::Shape;
use std::alloc::Global;

impl Survey {
    /// Makes one call.
    fn make<G: Grade, S: Shape>(
        &mut self,
        heap: Global,
        queried: &QueriedShape<'_, S>,
        marks: &mut [G],
        values: &mut [G],
        waiting: &mut [u32],
        call: Call<G>,
    ) -> Result<Answer<G>, CallFailure>
        ensures { MatchOption (kept_of result)
            (Unkept G.kind S.Shape queried.now call
            self.old (lent marks.old values.old waiting.old)
            self.new (lent marks.new values.new waiting.new))
            (λ a. KeepsRules G.kind S.Shape queried.now (asks call) (answers G.kind a)
            self.old (lent marks.old values.old waiting.old)
            self.new (lent marks.new values.new waiting.new)) }
    {
        // The calls stay an enum and no closures: contracts speak of a list of them as data, and could say nothing of a list of closures.
        match call {
            Call::Retag(mark) => {
                let altered = self.retag(queried, marks, values, waiting, mark)?;
                Ok(Answer::Altered(altered))
            }
            Call::Step => {
                let all = self.step(queried, marks, values, waiting)?;
                Ok(Answer::Stepped(all))
            }
            Call::Run(most) => {
                let (steps, all) = self.run(queried, marks, values, waiting, most)?;
                Ok(Answer::Ran(steps, all))
            }
            Call::Read(term) => {
                let row = self.read(queried, values, term)?;
                Ok(Answer::Row(Vec::from_slice(heap, row)?))
            }
        }
    }
}

/// Opens a survey and makes every call of a list on it, keeping each answer.
///
/// Where memory runs out for an answer, that call was made, and none after it.
pub fn conduct<G: Grade, S: Shape>(
    heap: Global,
    queried: &QueriedShape<'_, S>,
    marks: &mut [G],
    values: &mut [G],
    waiting: &mut [u32],
    calls: &[Call<G>],
) -> Result<Vec<Result<Answer<G>, SurveyRefusal>>, ConductRefusal>
    ensures { MatchResult result
        (λ given. (m : Grades G) →
        Agrees G.kind (tree_in S.Shape queried.now) (table_in queried.now) (lent marks.old values.old waiting.old) m →
        Conducted (opening_on G.kind S.Shape queried.now m) calls.now given.items (lent marks.new values.new waiting.new))
        (λ why. NotConducted G.kind (tree_in S.Shape queried.now) (table_in queried.now) calls.now
        (lent marks.old values.old waiting.old)
        (lent marks.new values.new waiting.new) why) }
{
    let mut survey = Survey::open(queried, marks, values, waiting)?;
    let mut given = Vec::new(heap);
    for call in calls {
        let answer = match survey.make(heap, queried, marks, values, waiting, *call) {
            Ok(answer) => Ok(answer),
            Err(CallFailure::Refused(why)) => Err(why),
            Err(CallFailure::NoMemory) => return Err(ConductRefusal::NoMemory),
        };
        given.push(answer)?;
    }
    Ok(given)
}

//! Whether a term can be read.
ghost use Rattle.std.specs.Prelude.{MatchResult};
ghost use Rattle.surveys.specs.Queried.{table_in};
ghost use Rattle.surveys.specs.Reading.{Readable, ReadRefused};

use crate::queried::QueriedShape;
use crate::refusal::SurveyRefusal;
use crate::survey::Survey;
use shapes::shape::Shape;

impl Survey {
    /// Whether a term can be read from a value table of that size.
    pub(super) fn check_reading<S: Shape>(
        &self,
        queried: &QueriedShape<'_, S>,
        size: usize,
        term: usize,
    ) -> Result<(), SurveyRefusal>
        ensures { MatchResult result
            (λ _. Readable self.now (S.count queried.now.shape.now) (table_in queried.now) size term)
            (ReadRefused self.now (S.count queried.now.shape.now) (table_in queried.now) size term) }
    {
        if !self.fits_values(queried, size) {
            return Err(SurveyRefusal::TableOrCounts);
        }
        let Some(block) = queried.query.block_of(term) else {
            return Err(SurveyRefusal::NotInSurvey);
        };
        if !self.is_settled(block) {
            return Err(SurveyRefusal::NotSettled);
        }
        Ok(())
    }
}

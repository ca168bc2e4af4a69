//! The tables that a survey is lent.
use grades::filed::FiledGrade;
use shapes::shape::Shape;
use std::alloc::{AllocError, Global};
use surveys::queried::QueriedShape;
use surveys::refusal::SurveyRefusal;
use surveys::survey::Survey;
use surveys::survey::retag::Mark;

/// More steps than any survey here needs.
const ENOUGH: u32 = u32::MAX;

/// Marks, values and waiting places.
#[derive(Drop)]
pub struct Tables<G> {
    pub marks: Vec<G>,
    values: Vec<G>,
    waiting: Vec<u32>,
}

impl<G: FiledGrade> Tables<G> {
    /// Tables with these marks, and room for so many entries.
    pub fn new(heap: Global, marks: Vec<G>, entries: usize) -> Result<Tables<G>, AllocError> {
        let mut values = Vec::new(heap);
        values.resize(entries, G::lowest())?;
        let mut waiting = Vec::new(heap);
        waiting.resize(entries, 0u32)?;
        Ok(Tables {
            marks,
            values,
            waiting,
        })
    }

    pub fn open<S: Shape>(
        &mut self,
        queried: &QueriedShape<'_, S>,
    ) -> Result<Survey, SurveyRefusal> {
        Survey::open(queried, &self.marks, &mut self.values, &mut self.waiting)
    }

    pub fn retag<S: Shape>(
        &mut self,
        survey: &mut Survey,
        queried: &QueriedShape<'_, S>,
        mark: Mark<G>,
    ) -> Result<bool, SurveyRefusal> {
        survey.retag(
            queried,
            &mut self.marks,
            &mut self.values,
            &mut self.waiting,
            mark,
        )
    }

    /// Runs until all is settled, and answers how many steps that took.
    pub fn run<S: Shape>(
        &mut self,
        survey: &mut Survey,
        queried: &QueriedShape<'_, S>,
    ) -> Result<u32, SurveyRefusal> {
        let (steps, _) = survey.run(
            queried,
            &self.marks,
            &mut self.values,
            &mut self.waiting,
            ENOUGH,
        )?;
        Ok(steps)
    }

    pub fn read<S: Shape>(
        &self,
        survey: &Survey,
        queried: &QueriedShape<'_, S>,
        term: usize,
    ) -> Result<&[G], SurveyRefusal> {
        survey.read(queried, &self.values, term)
    }
}

//! Queries, shapes and lent tables for the tests.
use grades::grade::Grade;
use queries::query::Query;
use queries::rows::{BlockRow, QueryTable, TermRow};
use shapes::depth::DepthShape;
use shapes::shape::Shape;
use std::alloc::Global;
use std::test::Fail;
use surveys::queried::QueriedShape;
use surveys::refusal::SurveyRefusal;
use surveys::survey::Survey;
use surveys::survey::retag::Mark;

/// More steps than any survey here needs.
pub(crate) const ENOUGH: u32 = 100;

/// A query: tags, blocks by kind and count, terms by kind and operands.
pub(crate) struct Asked {
    pub(crate) tags: u32,
    pub(crate) blocks: &'static [(u32, u32)],
    pub(crate) terms: &'static [(u32, u32, u32)],
}

/// A mark here or at some later sibling: term 1 joins the mark and term 2, which is term 1 at the next neighbour.
pub(crate) const RIGHTWARD: Asked = Asked {
    tags: 1,
    blocks: &[(0, 3)],
    terms: &[(0, 0, 0), (3, 0, 2), (5, 1, 0)],
};

/// The shape of these depths.
pub(crate) fn shape_of(heap: Global, depths: &[u16]) -> Result<DepthShape, Fail> {
    let mut shape = DepthShape::new(heap)?;
    shape.fill(heap, depths)?;
    Ok(shape)
}

/// The query, admitted.
pub(crate) fn query_of(heap: Global, asked: &Asked) -> Result<Query, Fail> {
    let blocks: Vec<BlockRow> = asked
        .blocks
        .iter()
        .map(|&(kind, terms)| BlockRow { kind, terms })
        .collect(heap)?;
    let terms: Vec<TermRow> = asked
        .terms
        .iter()
        .map(|&(kind, a, b)| TermRow { kind, a, b })
        .collect(heap)?;
    let table = QueryTable {
        tags: asked.tags,
        blocks: &blocks,
        terms: &terms,
    };
    let mut query = Query::new(heap)?;
    query.admit(heap, table)?;
    Ok(query)
}

/// A yes for a tag at a node.
pub(crate) fn yes(tag: usize, node: usize) -> Mark<bool> {
    Mark {
        tag,
        node,
        grade: true,
    }
}

/// The published number of a refusal, if a call was refused.
pub(crate) fn number<T: Drop>(answer: Result<T, SurveyRefusal>) -> Option<u8> {
    answer.err().map(SurveyRefusal::number)
}

/// The tables that a survey is lent.
#[derive(Drop)]
pub(crate) struct Tables<G> {
    pub(crate) marks: Vec<G>,
    pub(crate) values: Vec<G>,
    pub(crate) waiting: Vec<u32>,
}

impl<G: Grade> Tables<G> {
    /// Tables with these marks, and so many values and places, none of them as an opening in a least block leaves it.
    pub(crate) fn new(
        heap: Global,
        marks: &[G],
        values: usize,
        waiting: usize,
    ) -> Result<Tables<G>, Fail> {
        Ok(Tables {
            marks: Vec::from_slice(heap, marks)?,
            values: (0..values).map(|_| G::highest()).collect(heap)?,
            waiting: vec![in heap; 7u32; waiting]?,
        })
    }

    /// The same tables once more.
    pub(crate) fn copied(&self, heap: Global) -> Result<Tables<G>, Fail> {
        Ok(Tables {
            marks: Vec::from_slice(heap, &self.marks)?,
            values: Vec::from_slice(heap, &self.values)?,
            waiting: Vec::from_slice(heap, &self.waiting)?,
        })
    }

    pub(crate) fn open<S: Shape>(
        &mut self,
        queried: &QueriedShape<'_, S>,
    ) -> Result<Survey, SurveyRefusal> {
        Survey::open(queried, &self.marks, &mut self.values, &mut self.waiting)
    }

    pub(crate) fn retag<S: Shape>(
        &mut self,
        survey: &mut Survey,
        queried: &QueriedShape<'_, S>,
        mark: Mark<G>,
    ) -> Result<bool, SurveyRefusal> {
        survey.retag(
            queried,
            &mut self.marks,
            &mut self.values,
            &mut self.waiting,
            mark,
        )
    }

    pub(crate) fn step<S: Shape>(
        &mut self,
        survey: &mut Survey,
        queried: &QueriedShape<'_, S>,
    ) -> Result<bool, SurveyRefusal> {
        survey.step(queried, &self.marks, &mut self.values, &mut self.waiting)
    }

    pub(crate) fn run<S: Shape>(
        &mut self,
        survey: &mut Survey,
        queried: &QueriedShape<'_, S>,
        most: u32,
    ) -> Result<(u32, bool), SurveyRefusal> {
        survey.run(
            queried,
            &self.marks,
            &mut self.values,
            &mut self.waiting,
            most,
        )
    }

    pub(crate) fn read<S: Shape>(
        &self,
        survey: &Survey,
        queried: &QueriedShape<'_, S>,
        term: usize,
    ) -> Result<&[G], SurveyRefusal> {
        survey.read(queried, &self.values, term)
    }
}

impl Tables<bool> {
    /// Whether these are the same as others, place by place.
    pub(crate) fn are(&self, others: &Tables<bool>) -> bool {
        self.marks.as_slice() == others.marks.as_slice()
            && self.values.as_slice() == others.values.as_slice()
            && self.waiting.as_slice() == others.waiting.as_slice()
    }
}

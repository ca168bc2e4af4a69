//! Tables with what admission answers, and the questions to an admitted query.
use queries::block::{Solution, Span};
use queries::query::Query;
use queries::refusal::QueryRefusal;
use queries::rows::{BlockRow, QueryTable, TermRow};
use queries::term::Term;
use shapes::axis::Axis;
use std::alloc::{AllocError, Global};
use std::test::Fail;

/// A table: tags, blocks by kind and count, terms by kind and operands.
struct Case {
    tags: u32,
    blocks: &'static [(u32, u32)],
    terms: &'static [(u32, u32, u32)],
    // A refusal is told by its published number, since that is what the documents state.
    /// The number of the refusal, and the block or the term that it names; none where the table is admitted.
    refused: Option<(u8, Option<usize>)>,
}

const CASES: [Case; 31] = [
    // one term of each kind, at the edge of what is known
    Case {
        tags: 1,
        blocks: &[(0, 1), (1, 2)],
        terms: &[(0, 0, 0), (1, 0, 0), (13, 0, 0)],
        refused: None,
    },
    Case {
        tags: 0,
        blocks: &[(1, 2)],
        terms: &[(2, 1, 1), (3, 0, 1)],
        refused: None,
    },
    Case {
        tags: 0,
        blocks: &[(0, 3)],
        terms: &[(4, 2, 0), (11, 0, 0), (12, 0, 0)],
        refused: None,
    },
    Case {
        tags: 0,
        blocks: &[(0, 1)],
        terms: &[(14, 0, 0)],
        refused: Some((4, Some(0))),
    },
    // no term at all
    Case {
        tags: 0,
        blocks: &[],
        terms: &[],
        refused: Some((3, None)),
    },
    // an empty block: first, in the middle, last
    Case {
        tags: 0,
        blocks: &[(0, 0), (0, 2)],
        terms: &[(12, 0, 0), (12, 0, 0)],
        refused: Some((3, Some(0))),
    },
    Case {
        tags: 0,
        blocks: &[(0, 1), (0, 0), (0, 1)],
        terms: &[(12, 0, 0), (12, 0, 0)],
        refused: Some((3, Some(1))),
    },
    Case {
        tags: 0,
        blocks: &[(0, 1), (0, 1), (0, 0)],
        terms: &[(12, 0, 0), (12, 0, 0)],
        refused: Some((3, Some(2))),
    },
    // an unknown kind of block, behind one that is known
    Case {
        tags: 0,
        blocks: &[(1, 1), (2, 1)],
        terms: &[(12, 0, 0), (12, 0, 0)],
        refused: Some((3, Some(1))),
    },
    // one term too few, one too many, and sums past what a number holds
    Case {
        tags: 0,
        blocks: &[(0, 1)],
        terms: &[(12, 0, 0), (12, 0, 0)],
        refused: Some((3, None)),
    },
    Case {
        tags: 0,
        blocks: &[(0, 3)],
        terms: &[(12, 0, 0), (12, 0, 0)],
        refused: Some((3, None)),
    },
    Case {
        tags: 0,
        blocks: &[(0, 4_294_967_295), (0, 4_294_967_295)],
        terms: &[(12, 0, 0)],
        refused: Some((3, None)),
    },
    // an operand or a tag just within, and one past
    Case {
        tags: 2,
        blocks: &[(0, 1)],
        terms: &[(0, 1, 0)],
        refused: None,
    },
    Case {
        tags: 2,
        blocks: &[(0, 1)],
        terms: &[(0, 2, 0)],
        refused: Some((4, Some(0))),
    },
    Case {
        tags: 0,
        blocks: &[(0, 1)],
        terms: &[(1, 1, 0)],
        refused: Some((4, Some(0))),
    },
    Case {
        tags: 0,
        blocks: &[(0, 2)],
        terms: &[(12, 0, 0), (2, 2, 0)],
        refused: Some((4, Some(1))),
    },
    Case {
        tags: 0,
        blocks: &[(0, 2)],
        terms: &[(12, 0, 0), (3, 0, 2)],
        refused: Some((4, Some(1))),
    },
    Case {
        tags: 0,
        blocks: &[(0, 1)],
        terms: &[(7, 1, 0)],
        refused: Some((4, Some(0))),
    },
    Case {
        tags: 0,
        blocks: &[(0, 1)],
        terms: &[(8, 1, 0)],
        refused: Some((4, Some(0))),
    },
    // an unused operand that is not 0
    Case {
        tags: 1,
        blocks: &[(0, 1)],
        terms: &[(0, 0, 1)],
        refused: Some((4, Some(0))),
    },
    Case {
        tags: 0,
        blocks: &[(0, 1)],
        terms: &[(12, 1, 0)],
        refused: Some((4, Some(0))),
    },
    Case {
        tags: 0,
        blocks: &[(0, 1)],
        terms: &[(13, 0, 1)],
        refused: Some((4, Some(0))),
    },
    // a later block read: at either place, and by a turn
    Case {
        tags: 0,
        blocks: &[(0, 1), (0, 1)],
        terms: &[(4, 1, 0), (12, 0, 0)],
        refused: Some((5, Some(0))),
    },
    Case {
        tags: 0,
        blocks: &[(0, 1), (0, 1)],
        terms: &[(2, 0, 1), (12, 0, 0)],
        refused: Some((5, Some(0))),
    },
    Case {
        tags: 0,
        blocks: &[(0, 1), (0, 1)],
        terms: &[(1, 1, 0), (12, 0, 0)],
        refused: Some((5, Some(0))),
    },
    // the turn of itself, and of another term of its block
    Case {
        tags: 0,
        blocks: &[(0, 1)],
        terms: &[(1, 0, 0)],
        refused: Some((6, Some(0))),
    },
    Case {
        tags: 0,
        blocks: &[(0, 1), (0, 2)],
        terms: &[(12, 0, 0), (1, 2, 0), (12, 0, 0)],
        refused: Some((6, Some(1))),
    },
    // of two faults in one term the smaller number
    Case {
        tags: 0,
        blocks: &[(0, 1), (0, 1)],
        terms: &[(2, 1, 2), (12, 0, 0)],
        refused: Some((4, Some(0))),
    },
    Case {
        tags: 0,
        blocks: &[(0, 1), (0, 1)],
        terms: &[(12, 0, 0), (1, 2, 0)],
        refused: Some((4, Some(1))),
    },
    // of two faulty terms the first
    Case {
        tags: 0,
        blocks: &[(0, 1), (0, 1)],
        terms: &[(1, 0, 0), (14, 0, 0)],
        refused: Some((6, Some(0))),
    },
    Case {
        tags: 0,
        blocks: &[(0, 1), (0, 1)],
        terms: &[(12, 0, 0), (14, 0, 0)],
        refused: Some((4, Some(1))),
    },
];

fn block_rows(heap: Global, blocks: &[(u32, u32)]) -> Result<Vec<BlockRow>, AllocError> {
    blocks
        .iter()
        .map(|&(kind, terms)| BlockRow { kind, terms })
        .collect(heap)
}

fn term_rows(heap: Global, terms: &[(u32, u32, u32)]) -> Result<Vec<TermRow>, AllocError> {
    terms
        .iter()
        .map(|&(kind, a, b)| TermRow { kind, a, b })
        .collect(heap)
}

/// The block or the term that a refusal names.
fn place_of(refusal: QueryRefusal) -> Option<usize> {
    match refusal {
        QueryRefusal::BadBlock { block } => Some(block),
        QueryRefusal::BadTerm { term }
        | QueryRefusal::LaterBlock { term }
        | QueryRefusal::OwnTurn { term } => Some(term),
        QueryRefusal::Sizes | QueryRefusal::BlockSum | QueryRefusal::NoMemory => None,
    }
}

/// Whether admission answers as the case says, and leaves the query as it was where it refuses.
fn answers(heap: Global, case: &Case) -> Result<bool, Fail> {
    let mut query = Query::new(heap)?;
    let blocks = block_rows(heap, case.blocks)?;
    let terms = term_rows(heap, case.terms)?;
    let table = QueryTable {
        tags: case.tags,
        blocks: &blocks,
        terms: &terms,
    };
    let refused = query
        .admit(heap, table)
        .err()
        .map(|refusal| (refusal.number(), place_of(refusal)));
    let count = match case.refused {
        Some(_) => 1,
        None => case.terms.len(),
    };
    Ok(refused == case.refused && query.term_count() == count)
}

#[test]
fn every_cause(rt: HostRuntime) -> Result<(), Fail> {
    for case in &CASES {
        assert!(rt; answers(rt.alloc(), case)?);
    }
    Ok(())
}

/// The number of the refusal of so many tags and so many lowest terms in one block.
fn refusal_of_sizes(heap: Global, tags: u32, count: u32) -> Result<Option<u8>, Fail> {
    let mut query = Query::new(heap)?;
    let block = BlockRow {
        kind: 0,
        terms: count,
    };
    let term = TermRow {
        kind: 12,
        a: 0,
        b: 0,
    };
    let terms = vec![in heap; term; count as usize]?;
    let table = QueryTable {
        tags,
        blocks: &[block],
        terms: &terms,
    };
    Ok(query.admit(heap, table).err().map(QueryRefusal::number))
}

#[test]
fn limits(rt: HostRuntime) -> Result<(), Fail> {
    assert_eq!(rt; refusal_of_sizes(rt.alloc(), 16, 64)?, None);
    assert_eq!(rt; refusal_of_sizes(rt.alloc(), 17, 64)?, Some(3));
    assert_eq!(rt; refusal_of_sizes(rt.alloc(), 16, 65)?, Some(3));
    Ok(())
}

const BLOCKS: [(u32, u32); 3] = [(0, 2), (1, 3), (0, 1)];

/// A mark, a join with itself, a turn of it, a meet, a neighbour, and a mark that nothing reads.
const TERMS: [(u32, u32, u32); 6] = [
    (0, 0, 0),
    (3, 0, 1),
    (1, 1, 0),
    (2, 3, 3),
    (4, 3, 0),
    (0, 1, 0),
];

/// The block of each term and the terms of that block that read it; past the terms there is none.
const READERS: [(Option<usize>, &[usize]); 7] = [
    (Some(0), &[1]),
    (Some(0), &[1]),
    (Some(1), &[]),
    (Some(1), &[3, 4]),
    (Some(1), &[]),
    (Some(2), &[]),
    (None, &[]),
];

/// The kind of each block and its terms.
const SPANS: [Option<(Solution, usize, usize)>; 4] = [
    Some((Solution::Least, 0, 2)),
    Some((Solution::Greatest, 2, 5)),
    Some((Solution::Least, 5, 6)),
    None,
];

/// Which blocks each tag reaches.
const REACHED: [[bool; 4]; 3] = [
    [true, true, false, false],
    [false, false, true, false],
    [false, false, false, false],
];

fn readers_answer(query: &Query) -> bool {
    READERS.iter().enumerate().all(|(i, (block, readers))| {
        query.block_of(i) == *block
            && query.readers_of(i) == *readers
            && query.term(i).is_some() == block.is_some()
    })
}

fn spans_answer(query: &Query) -> bool {
    SPANS.iter().enumerate().all(|(i, expected)| {
        query.solution(i) == expected.map(|(solution, _, _)| solution)
            && query.span(i) == expected.map(|(_, first, end)| Span { first, end })
    })
}

fn row_answers(query: &Query, tag: usize, row: &[bool]) -> bool {
    row.iter()
        .enumerate()
        .all(|(block, expected)| query.reaches(tag, block) == *expected)
}

#[test]
fn questions(rt: HostRuntime) -> Result<(), Fail> {
    let mut query = Query::new(rt.alloc())?;
    let blocks = block_rows(rt.alloc(), &BLOCKS)?;
    let terms = term_rows(rt.alloc(), &TERMS)?;
    let table = QueryTable {
        tags: 2,
        blocks: &blocks,
        terms: &terms,
    };
    query.admit(rt.alloc(), table)?;
    assert!(rt; query.tag_count() == 2 && query.block_count() == 3 && query.term_count() == 6);
    assert!(rt; readers_answer(&query) && spans_answer(&query));
    for (tag, row) in REACHED.iter().enumerate() {
        assert!(rt; row_answers(&query, tag, row));
    }
    Ok(())
}

#[test]
fn texts(rt: HostRuntime) -> Result<(), Fail> {
    let heap = rt.alloc();
    let refusal = QueryRefusal::BadBlock { block: 2 };
    let text = format!(in heap; "{refusal}")?;
    assert_eq!(rt; text.as_str(), "block 2 is empty, or of an unknown kind");
    let term = Term::SomeNeighbour(Axis::Next, 1);
    let text = format!(in heap; "{term}")?;
    assert_eq!(rt;
        text.as_str(),
        "term 1 at the next neighbour, lowest where there is none"
    );
    let solution = Solution::Greatest;
    let text = format!(in heap; "{solution}")?;
    assert_eq!(rt; text.as_str(), "greatest");
    Ok(())
}

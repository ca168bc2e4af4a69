//! What surveys settle to, and what copies and retags do, worked out by hand from the rules.
use crate::fixture::{Asked, ENOUGH, RIGHTWARD, Tables, number, query_of, shape_of, yes};
use grades::grade::Grade;
use grades::stage_set::StageSet;
use shapes::mirrored::Mirrored;
use shapes::shape::Shape;
use std::alloc::Global;
use std::test::Fail;
use surveys::queried::QueriedShape;

#[test]
fn copied_survey(rt: HostRuntime) -> Result<(), Fail> {
    let shape = &shape_of(rt.alloc(), &[0, 1, 1])?;
    let query = &query_of(rt.alloc(), &RIGHTWARD)?;
    let queried = QueriedShape { shape, query };
    let mut tables = Tables::new(rt.alloc(), &[false, false, true], 9, 9)?;
    let mut survey = tables.open(&queried)?;
    let mut copy = survey;
    let mut own = tables.copied(rt.alloc())?;
    assert_eq!(rt; tables.run(&mut survey, &queried, 4)?, (4, false));
    assert_eq!(rt; own.run(&mut copy, &queried, ENOUGH)?, (10, true));
    assert_eq!(rt; tables.run(&mut survey, &queried, ENOUGH)?, (6, true));
    for term in 0..3 {
        let row = tables.read(&survey, &queried, term)?;
        assert!(rt; row == own.read(&copy, &queried, term)?);
    }
    Ok(())
}

/// Where two surveys share their tables the rules fix no values, but each call still answers, and a run makes no more than its steps.
#[test]
fn copy_in_the_same_tables(rt: HostRuntime) -> Result<(), Fail> {
    let shape = &shape_of(rt.alloc(), &[0, 1, 1])?;
    let query = &query_of(rt.alloc(), &RIGHTWARD)?;
    let queried = QueriedShape { shape, query };
    let mut tables = Tables::new(rt.alloc(), &[false, false, true], 9, 9)?;
    let mut survey = tables.open(&queried)?;
    let mut copy = survey;
    for node in 0..3 {
        let (made, _) = tables.run(&mut survey, &queried, 5)?;
        let (made_by_copy, _) = tables.run(&mut copy, &queried, 7)?;
        assert!(rt; made <= 5 && made_by_copy <= 7);
        assert!(rt; tables.retag(&mut copy, &queried, yes(0, node)).is_ok());
        let _ = tables.step(&mut survey, &queried);
    }
    assert!(rt; tables.values.len() == 9 && tables.waiting.len() == 9);
    Ok(())
}

/// Settles the rightward query, and checks the steps made and the row of term 1.
fn rightward<G: Grade + PartialEq, S: Shape>(
    heap: Global,
    shape: &S,
    marks: &[G],
    steps: u32,
    row: &[G],
) -> Result<bool, Fail> {
    let query = &query_of(heap, &RIGHTWARD)?;
    let queried = QueriedShape { shape, query };
    let mut tables = Tables::new(heap, marks, 9, 9)?;
    let mut survey = tables.open(&queried)?;
    let ran = tables.run(&mut survey, &queried, ENOUGH)?;
    Ok(ran == (steps, true) && tables.read(&survey, &queried, 1)? == row)
}

/// As listed the siblings are 1 and then 2, and in the mirror 2 and then 1.
#[test]
fn worked_query(rt: HostRuntime) -> Result<(), Fail> {
    let marks = &[false, false, true];
    let listed = shape_of(rt.alloc(), &[0, 1, 1])?;
    assert!(rt; rightward(rt.alloc(), &listed, marks, 10, &[false, true, true])?);
    let mirrored = Mirrored::over(listed);
    assert!(rt; rightward(rt.alloc(), &mirrored, marks, 9, &[false, false, true])?);
    Ok(())
}

/// The marks, 2 at node 1 and 5 at node 2, join where they meet.
#[test]
fn worked_query_with_stages(rt: HostRuntime) -> Result<(), Fail> {
    let shape = &shape_of(rt.alloc(), &[0, 1, 1])?;
    let marks = [0, 2, 5].map(StageSet::from);
    let row = [0, 7, 5].map(StageSet::from);
    assert!(rt; rightward(rt.alloc(), shape, &marks, 10, &row)?);
    Ok(())
}

/// A query without marks over a shape, and its rows.
struct Solved {
    depths: &'static [u16],
    asked: Asked,
    rows: &'static [&'static [bool]],
}

const SOLVED: [Solved; 4] = [
    // the join of itself with itself, least and greatest
    Solved {
        depths: &[0],
        asked: Asked {
            tags: 0,
            blocks: &[(0, 1)],
            terms: &[(3, 0, 0)],
        },
        rows: &[&[false]],
    },
    Solved {
        depths: &[0],
        asked: Asked {
            tags: 0,
            blocks: &[(1, 1)],
            terms: &[(3, 0, 0)],
        },
        rows: &[&[true]],
    },
    // term 1 at the first child, and term 0 at the owner, greatest and least
    Solved {
        depths: &[0, 1],
        asked: Asked {
            tags: 0,
            blocks: &[(1, 2)],
            terms: &[(4, 1, 0), (6, 0, 0)],
        },
        rows: &[&[true, false], &[false, true]],
    },
    Solved {
        depths: &[0, 1],
        asked: Asked {
            tags: 0,
            blocks: &[(0, 2)],
            terms: &[(4, 1, 0), (6, 0, 0)],
        },
        rows: &[&[false, false], &[false, false]],
    },
];

/// Whether a query settles to its rows.
fn settles(heap: Global, solved: &Solved) -> Result<bool, Fail> {
    let shape = &shape_of(heap, solved.depths)?;
    let query = &query_of(heap, &solved.asked)?;
    let queried = QueriedShape { shape, query };
    let mut tables = Tables::new(heap, &[], 4, 4)?;
    let mut survey = tables.open(&queried)?;
    let (_, all) = tables.run(&mut survey, &queried, ENOUGH)?;
    for (term, row) in solved.rows.iter().enumerate() {
        if tables.read(&survey, &queried, term)? != *row {
            return Ok(false);
        }
    }
    Ok(all)
}

#[test]
fn least_and_greatest(rt: HostRuntime) -> Result<(), Fail> {
    for (case, solved) in SOLVED.iter().enumerate() {
        assert!(rt; settles(rt.alloc(), solved)?, "case {case}");
    }
    Ok(())
}

/// Three blocks of a term each: the marks of two tags, and the turn of the first.
const THREE_BLOCKS: Asked = Asked {
    tags: 2,
    blocks: &[(0, 1), (0, 1), (0, 1)],
    terms: &[(0, 0, 0), (0, 1, 0), (1, 0, 0)],
};

#[test]
fn altering_retag(rt: HostRuntime) -> Result<(), Fail> {
    let shape = &shape_of(rt.alloc(), &[0, 1])?;
    let query = &query_of(rt.alloc(), &THREE_BLOCKS)?;
    let queried = QueriedShape { shape, query };
    let mut tables = Tables::new(rt.alloc(), &[false, false, true, false], 6, 6)?;
    let mut survey = tables.open(&queried)?;
    assert_eq!(rt; tables.run(&mut survey, &queried, ENOUGH)?, (6, true));
    assert_eq!(rt; tables.read(&survey, &queried, 2)?, [true, true].as_slice());
    assert_eq!(rt; tables.retag(&mut survey, &queried, yes(0, 1))?, true);
    assert_eq!(rt; number(tables.read(&survey, &queried, 0)), Some(9));
    assert_eq!(rt;
        tables.read(&survey, &queried, 1)?,
        [true, false].as_slice()
    );
    assert_eq!(rt; number(tables.read(&survey, &queried, 2)), Some(9));
    assert_eq!(rt; tables.run(&mut survey, &queried, ENOUGH)?, (4, true));
    assert_eq!(rt;
        tables.read(&survey, &queried, 0)?,
        [false, true].as_slice()
    );
    assert_eq!(rt;
        tables.read(&survey, &queried, 2)?,
        [true, false].as_slice()
    );
    Ok(())
}

#[test]
fn retag_as_it_stands(rt: HostRuntime) -> Result<(), Fail> {
    let shape = &shape_of(rt.alloc(), &[0, 1])?;
    let query = &query_of(rt.alloc(), &THREE_BLOCKS)?;
    let queried = QueriedShape { shape, query };
    let mut tables = Tables::new(rt.alloc(), &[false, false, true, false], 6, 6)?;
    let mut survey = tables.open(&queried)?;
    assert_eq!(rt; tables.run(&mut survey, &queried, ENOUGH)?, (6, true));
    let before = tables.copied(rt.alloc())?;
    assert_eq!(rt; tables.retag(&mut survey, &queried, yes(1, 0))?, false);
    assert!(rt; tables.are(&before));
    assert_eq!(rt; tables.run(&mut survey, &queried, ENOUGH)?, (0, true));
    assert_eq!(rt;
        tables.read(&survey, &queried, 1)?,
        [true, false].as_slice()
    );
    Ok(())
}

//! Calls on a survey that are refused, with causes worked out by hand from the rules.
use crate::fixture::{Asked, ENOUGH, RIGHTWARD, Tables, number, query_of, shape_of, yes};
use shapes::shape::Shape;
use std::test::Fail;
use surveys::queried::QueriedShape;
use surveys::survey::Survey;

#[test]
fn too_early_and_too_late(rt: HostRuntime) -> Result<(), Fail> {
    let shape = &shape_of(rt.alloc(), &[0, 1, 1])?;
    let query = &query_of(rt.alloc(), &RIGHTWARD)?;
    let queried = QueriedShape { shape, query };
    let mut tables = Tables::new(rt.alloc(), &[false, false, true], 9, 9)?;
    let mut survey = tables.open(&queried)?;
    for term in 0..3 {
        assert_eq!(rt; number(tables.read(&survey, &queried, term)), Some(9));
    }
    assert_eq!(rt; tables.run(&mut survey, &queried, ENOUGH)?, (10, true));
    assert_eq!(rt; number(tables.step(&mut survey, &queried)), Some(10));
    assert_eq!(rt; tables.run(&mut survey, &queried, ENOUGH)?, (0, true));
    assert_eq!(rt;
        tables.read(&survey, &queried, 1)?,
        [false, true, true].as_slice()
    );
    Ok(())
}

/// The numbers with which a retag, a step, a run and a reading of term 1 are refused.
fn numbers<S: Shape>(
    tables: &mut Tables<bool>,
    survey: &mut Survey,
    queried: &QueriedShape<'_, S>,
) -> [Option<u8>; 4] {
    [
        number(tables.retag(survey, queried, yes(0, 0))),
        number(tables.step(survey, queried)),
        number(tables.run(survey, queried, ENOUGH)),
        number(tables.read(survey, queried, 1)),
    ]
}

/// Marks, and how many values and places: for three terms at three nodes each table is once a place too short. Last comes the number
/// that refuses a reading, which is lent the values alone.
const SHORT: [(&[bool], usize, usize, u8); 3] = [
    (&[false, false], 9, 9, 9),
    (&[false, false, false], 8, 9, 7),
    (&[false, false, false], 9, 8, 9),
];

#[test]
fn short_tables(rt: HostRuntime) -> Result<(), Fail> {
    let shape = &shape_of(rt.alloc(), &[0, 1, 1])?;
    let query = &query_of(rt.alloc(), &RIGHTWARD)?;
    let queried = QueriedShape { shape, query };
    let mut tables = Tables::new(rt.alloc(), &[false, false, true], 9, 9)?;
    let mut survey = tables.open(&queried)?;
    for (marks, values, waiting, reading) in SHORT {
        let mut short = Tables::new(rt.alloc(), marks, values, waiting)?;
        let before = short.copied(rt.alloc())?;
        assert_eq!(rt; number(short.open(&queried)), Some(7));
        let refused = numbers(&mut short, &mut survey, &queried);
        assert_eq!(rt; refused, [Some(7), Some(7), Some(7), Some(reading)]);
        assert!(rt; short.are(&before));
    }
    assert_eq!(rt; tables.run(&mut survey, &queried, ENOUGH)?, (10, true));
    Ok(())
}

/// The rightward query without its mark. Tables for the whole query have room for it.
const TWO_TERMS: Asked = Asked {
    tags: 1,
    blocks: &[(0, 2)],
    terms: &[(3, 0, 1), (5, 0, 0)],
};

#[test]
fn other_counts(rt: HostRuntime) -> Result<(), Fail> {
    let shape = &shape_of(rt.alloc(), &[0, 1, 1])?;
    let query = &query_of(rt.alloc(), &RIGHTWARD)?;
    let other_shape = &shape_of(rt.alloc(), &[0, 1])?;
    let other_query = &query_of(rt.alloc(), &TWO_TERMS)?;
    let queried = QueriedShape { shape, query };
    let mut tables = Tables::new(rt.alloc(), &[false, false, true], 9, 9)?;
    let mut survey = tables.open(&queried)?;
    let before = tables.copied(rt.alloc())?;
    let on_other_shape = QueriedShape {
        shape: other_shape,
        query,
    };
    assert_eq!(rt;
        numbers(&mut tables, &mut survey, &on_other_shape),
        [Some(7); 4]
    );
    let of_other_query = QueriedShape {
        shape,
        query: other_query,
    };
    assert_eq!(rt;
        numbers(&mut tables, &mut survey, &of_other_query),
        [Some(7); 4]
    );
    assert!(rt; tables.are(&before));
    assert_eq!(rt; tables.run(&mut survey, &queried, ENOUGH)?, (10, true));
    Ok(())
}

#[test]
fn past_the_survey(rt: HostRuntime) -> Result<(), Fail> {
    let shape = &shape_of(rt.alloc(), &[0, 1, 1])?;
    let query = &query_of(rt.alloc(), &RIGHTWARD)?;
    let queried = QueriedShape { shape, query };
    let mut tables = Tables::new(rt.alloc(), &[false, false, true], 9, 9)?;
    let mut survey = tables.open(&queried)?;
    let before = tables.copied(rt.alloc())?;
    assert_eq!(rt;
        number(tables.retag(&mut survey, &queried, yes(0, 3))),
        Some(8)
    );
    assert_eq!(rt;
        number(tables.retag(&mut survey, &queried, yes(1, 0))),
        Some(8)
    );
    assert_eq!(rt; number(tables.read(&survey, &queried, 3)), Some(8));
    assert!(rt; tables.are(&before));
    assert_eq!(rt; tables.run(&mut survey, &queried, ENOUGH)?, (10, true));
    Ok(())
}

/// After nine steps the entry of term 1 at node 1, number 4 of the block, waits alone, and its place says what comes after it.
#[test]
fn foreign_write(rt: HostRuntime) -> Result<(), Fail> {
    let shape = &shape_of(rt.alloc(), &[0, 1, 1])?;
    let query = &query_of(rt.alloc(), &RIGHTWARD)?;
    let queried = QueriedShape { shape, query };
    let mut tables = Tables::new(rt.alloc(), &[false, false, true], 9, 9)?;
    let mut survey = tables.open(&queried)?;
    assert_eq!(rt; tables.run(&mut survey, &queried, 9)?, (9, false));
    assert_eq!(rt;
        tables.waiting.as_slice(),
        [0, 0, 0, 0, 1, 0, 0, 0, 0].as_slice()
    );
    // entry 9 next, the first past the block
    tables.waiting = Vec::from_slice(rt.alloc(), &[0, 0, 0, 0, 11, 0, 0, 0, 0])?;
    assert_eq!(rt; tables.step(&mut survey, &queried)?, false);
    let before = tables.copied(rt.alloc())?;
    assert_eq!(rt; number(tables.step(&mut survey, &queried)), Some(11));
    assert_eq!(rt; tables.run(&mut survey, &queried, ENOUGH)?, (0, false));
    assert_eq!(rt; number(tables.step(&mut survey, &queried)), Some(11));
    assert!(rt; tables.are(&before));
    Ok(())
}

//! A list of calls made at once, worked out by hand from the rules.
use crate::fixture::{ENOUGH, RIGHTWARD, Tables, query_of, shape_of, yes};
use std::test::Fail;
use surveys::call::{Answer, Call};
use surveys::conduct::conduct;
use surveys::queried::QueriedShape;
use surveys::refusal::SurveyRefusal;
use surveys::survey::retag::Mark;

/// Node 3 is marked, and later not: in between its row is read, and then once too early.
#[test]
fn answers_of_a_list(rt: HostRuntime) -> Result<(), Fail> {
    let shape = &shape_of(rt.alloc(), &[0, 1, 2, 2, 1, 2, 3])?;
    let query = &query_of(rt.alloc(), &RIGHTWARD)?;
    let mut tables = Tables::new(rt.alloc(), &[false; 7], 21, 21)?;
    let no = Mark {
        grade: false,
        ..yes(0, 3)
    };
    let calls = [
        Call::Retag(yes(0, 3)),
        Call::Run(ENOUGH),
        Call::Read(1),
        Call::Retag(no),
        Call::Read(1),
        Call::Run(ENOUGH),
        Call::Read(1),
    ];
    let answers = conduct(
        rt.alloc(),
        &QueriedShape { shape, query },
        &mut tables.marks,
        &mut tables.values,
        &mut tables.waiting,
        &calls,
    )?;
    let (held, left) = match answers.as_slice() {
        [
            Ok(Answer::Altered(true)),
            Ok(Answer::Ran(22, true)),
            Ok(Answer::Row(held)),
            Ok(Answer::Altered(true)),
            Err(SurveyRefusal::NotSettled),
            Ok(Answer::Ran(21, true)),
            Ok(Answer::Row(left)),
        ] => (held.as_slice(), left.as_slice()),
        _ => ([].as_slice(), [].as_slice()),
    };
    assert!(rt; held == [false, false, true, true, false, false, false].as_slice());
    assert!(rt; left == [false; 7].as_slice());
    Ok(())
}

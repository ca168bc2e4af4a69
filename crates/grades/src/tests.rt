//! Both kinds on examples.
use crate::filed::FiledGrade;
use crate::grade::Grade;
use crate::stage_set::StageSet;

#[test]
fn stage_sets_combine(rt: HostRuntime) {
    let odd = StageSet::from(0b0101);
    let second = StageSet::from(0b0010);
    assert_eq!(rt; u32::from(odd.join(second)), 0b0111);
    assert_eq!(rt; u32::from(odd.meet(second)), 0);
    assert_eq!(rt; u32::from(odd.turn()), u32::MAX - 0b0101);
    assert_eq!(rt; odd.join(second).count(), 3);
}

#[test]
fn numbers_read_back(rt: HostRuntime) {
    assert_eq!(rt; bool::from_number(2), None);
    assert_eq!(rt;
        StageSet::from_number(u32::MAX).map(StageSet::to_number),
        Some(u32::MAX)
    );
}

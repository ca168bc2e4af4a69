use crate::axis::Axis;
use crate::linked::LinkedShape;
use crate::links::Links;
use crate::shape::Shape;
use std::alloc::Global;
use std::test::Fail;

const N: u16 = 65_535;

fn row(first: u16, next: u16, owner: u16, previous: u16) -> Links {
    Links {
        first,
        next,
        owner,
        previous,
    }
}

// The root, its two children, and a child of the second.
fn junction(heap: Global) -> Result<LinkedShape, Fail> {
    let mut shape = LinkedShape::new(heap)?;
    let rows = [
        row(1, N, N, N),
        row(N, 2, 0, N),
        row(3, N, N, 1),
        row(N, N, 2, N),
    ];
    shape.fill(heap, &rows)?;
    Ok(shape)
}

// That a junction refuses the table under the number, and stays as it was.
// A refusal is told by its published number, since that is what the documents state.
fn refused(heap: Global, rows: &[Links], number: u8) -> Result<(), Fail> {
    let mut shape = junction(heap)?;
    match shape.fill(heap, rows) {
        Ok(()) => return Err(Fail::new("taken")),
        Err(refusal) if refusal.number() != number => return Err(Fail::new("another number")),
        Err(_) => {},
    }
    if shape.node_count() != 4 || shape.first_of(2) != Some(3) {
        return Err(Fail::new("altered"));
    }
    Ok(())
}

#[test]
fn junction_is_taken(rt: HostRuntime) -> Result<(), Fail> {
    let shape = junction(rt.alloc())?;
    assert_eq!(rt; shape.node_count(), 4);
    assert_eq!(rt; shape.first_of(2), Some(3));
    assert_eq!(rt; shape.next_of(1), Some(2));
    assert_eq!(rt; shape.owner_of(3), Some(2));
    assert_eq!(rt; shape.previous_of(2), Some(1));
    assert_eq!(rt; shape.neighbour(Axis::First, 4), None);
    Ok(())
}

#[test]
fn no_rows_are_refused(rt: HostRuntime) -> Result<(), Fail> {
    refused(rt.alloc(), &[], 1)
}

#[test]
fn cycle_off_the_root_is_refused(rt: HostRuntime) -> Result<(), Fail> {
    refused(
        rt.alloc(),
        &[row(N, N, N, N), row(2, N, 2, N), row(1, N, 1, N)],
        2,
    )
}

#[test]
fn owner_and_previous_are_refused(rt: HostRuntime) -> Result<(), Fail> {
    refused(
        rt.alloc(),
        &[row(1, N, N, N), row(2, 2, 0, N), row(N, N, 1, 1)],
        2,
    )
}

#[test]
fn link_out_of_range_is_refused(rt: HostRuntime) -> Result<(), Fail> {
    refused(rt.alloc(), &[row(1, N, N, N), row(N, 2, 0, N)], 2)
}

#[test]
fn one_sided_link_is_refused(rt: HostRuntime) -> Result<(), Fail> {
    refused(rt.alloc(), &[row(N, N, N, N), row(N, N, 0, N)], 2)
}

// The steps from the old children of a node to its new ones, by their numbers.

use keyed_each::{RowStep, place};
use std::alloc::Global;
use std::test::Fail;

// Whether these are the steps.
fn are_steps(alloc: Global, old: &[u64], new: &[u64], wanted: &[RowStep]) -> Result<bool, Fail> {
    let steps = place(alloc, old, new)?;
    Ok(steps.as_slice() == wanted)
}

#[test]
fn children_that_stay_in_order_take_no_step(rt: HostRuntime) -> Result<(), Fail> {
    let alloc = rt.alloc();
    let stay = [RowStep::Keep, RowStep::Keep, RowStep::Keep];
    assert!(rt; are_steps(alloc, &[1, 2, 3], &[1, 2, 3], &stay)?);
    assert!(rt; are_steps(alloc, &[], &[], &[])?);
    Ok(())
}

#[test]
fn a_new_child_comes_to_its_place(rt: HostRuntime) -> Result<(), Fail> {
    let alloc = rt.alloc();
    let come = [
        RowStep::Insert(0),
        RowStep::Keep,
        RowStep::Insert(2),
        RowStep::Keep,
    ];
    assert!(rt; are_steps(alloc, &[1, 2], &[10, 1, 11, 2], &come)?);
    Ok(())
}

#[test]
fn a_child_that_comes_earlier_moves(rt: HostRuntime) -> Result<(), Fail> {
    let alloc = rt.alloc();
    let first = [
        RowStep::Move(2),
        RowStep::Keep,
        RowStep::Insert(2),
        RowStep::Keep,
    ];
    assert!(rt; are_steps(alloc, &[1, 2, 3], &[3, 1, 12, 2], &first)?);
    let turned = [RowStep::Move(2), RowStep::Move(1), RowStep::Keep];
    assert!(rt; are_steps(alloc, &[1, 2, 3], &[3, 2, 1], &turned)?);
    Ok(())
}

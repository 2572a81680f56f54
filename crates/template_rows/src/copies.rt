// Copies of formulas.

use sig_base::{NoMemory, Scalar};
use sig_formula::{BinOp, Formula, copy_formula};
use std::alloc::Global;
use std::process::Abort;

// A name and a number, added.
fn sum(alloc: Global) -> Result<Formula, NoMemory> {
    let left = Box::new(alloc, Formula::Slot(1))?;
    let right = Box::new(alloc, Formula::Lit(Scalar::Int(2)))?;
    Ok(Formula::Bin(BinOp::Add, left, right))
}

fn copied_sum(alloc: Global) -> Result<Formula, NoMemory> {
    let formula = sum(alloc)?;
    copy_formula(alloc, &formula)
}

fn assert_sum(rt: &impl Abort, copy: &Formula) {
    let Formula::Bin(BinOp::Add, left, right) = copy else {
        assert!(rt; false);
        return;
    };
    assert!(rt; matches!(&**left, Formula::Slot(1)));
    assert!(rt; matches!(&**right, Formula::Lit(Scalar::Int(2))));
}

#[test]
fn a_copy_is_the_same_formula(rt: HostRuntime) -> Result<(), NoMemory> {
    let copy = copied_sum(rt.alloc())?;
    assert_sum(&rt, &copy);
    Ok(())
}

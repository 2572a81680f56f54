// What the samples answer to what they have read, with ample memory.
ghost use Rattle.std.specs.Prelude.{◌<◌};
ghost use Rattle.sig_host.specs.Hosts.{last_ask};

use crate::plain::Plain::{Bool, Int};
use crate::plain::{Plain, is_value, known_of};
use host_samples::{Cascade, Clamp, Pick};
use sig_base::{Fault, NoMemory, Step};
use sig_host::HostFormula;
use std::alloc::Global;
use std::test::Fail;

// What a formula is to answer.
#[derive(Clone, Copy)]
enum Wanted {
    Reads(u32),
    Gives(Plain),
    Fails(Fault),
}

// Whether a step is the one that is wanted.
fn is_wanted(step: &Step, wanted: Wanted) -> bool {
    match (step, wanted) {
        (Step::Read(own), Wanted::Reads(slot)) => *own == slot,
        (Step::Done(own), Wanted::Gives(value)) => is_value(own, value),
        (Step::Fail(own), Wanted::Fails(fault)) => *own == fault,
        _ => false,
    }
}

// Whether a formula answers so to these values.
fn answers<H: HostFormula>(
    alloc: Global,
    host: H,
    slots: &[(u32, Plain)],
    wanted: Wanted,
) -> Result<bool, NoMemory>
    requires { H.asks host < last_ask }
{
    let known = known_of(alloc, slots)?;
    let mut host = host;
    let step = host.step(alloc, &known)?;
    Ok(is_wanted(&step, wanted))
}

#[test]
fn picks_one_of_two(rt: HostRuntime) -> Result<(), Fail> {
    let alloc = rt.alloc();
    assert!(rt; answers(alloc, Pick::new(), &[], Wanted::Reads(0))?);
    assert!(rt; answers(alloc, Pick::new(), &[(0, Bool(true))], Wanted::Reads(1))?);
    assert!(rt; answers(alloc, Pick::new(), &[(0, Bool(false))], Wanted::Reads(2))?);
    let chosen = [(0, Bool(false)), (2, Int(7))];
    assert!(rt; answers(alloc, Pick::new(), &chosen, Wanted::Gives(Int(7)))?);
    assert!(rt;
        answers(
            alloc,
            Pick::new(),
            &[(0, Int(1))],
            Wanted::Fails(Fault::Kind)
        )?
    );
    Ok(())
}

#[test]
fn cascades_to_the_last(rt: HostRuntime) -> Result<(), Fail> {
    let alloc = rt.alloc();
    assert!(rt; answers(alloc, Cascade::new(), &[], Wanted::Reads(0))?);
    assert!(rt;
        answers(
            alloc,
            Cascade::new(),
            &[(0, Bool(true))],
            Wanted::Gives(Bool(true))
        )?
    );
    assert!(rt; answers(alloc, Cascade::new(), &[(0, Bool(false))], Wanted::Reads(1))?);
    let second = [(0, Bool(false)), (1, Int(40))];
    assert!(rt; answers(alloc, Cascade::new(), &second, Wanted::Gives(Int(40)))?);
    let last = [(0, Bool(false)), (1, Bool(false)), (2, Bool(false))];
    assert!(rt; answers(alloc, Cascade::new(), &last, Wanted::Gives(Bool(false)))?);
    Ok(())
}

// Whether a number within bounds, in slots 0, 1 and 2, is clamped to this.
fn clamps(
    alloc: Global,
    number: i64,
    least: i64,
    greatest: i64,
    wanted: Wanted,
) -> Result<bool, NoMemory> {
    let slots = [(0, Int(number)), (1, Int(least)), (2, Int(greatest))];
    answers(alloc, Clamp::new(), &slots, wanted)
}

#[test]
fn clamps_to_the_nearest(rt: HostRuntime) -> Result<(), Fail> {
    let alloc = rt.alloc();
    assert!(rt; clamps(alloc, 40, 1, 9, Wanted::Gives(Int(9)))?);
    assert!(rt; clamps(alloc, -3, 1, 9, Wanted::Gives(Int(1)))?);
    assert!(rt; clamps(alloc, 5, 1, 9, Wanted::Gives(Int(5)))?);
    assert!(rt; clamps(alloc, 5, 4, 4, Wanted::Gives(Int(4)))?);
    assert!(rt; clamps(alloc, 40, 9, 1, Wanted::Fails(Fault::Host(2)))?);
    Ok(())
}

// A value of another kind shows once all three were read.
#[test]
fn clamps_whole_numbers_alone(rt: HostRuntime) -> Result<(), Fail> {
    let alloc = rt.alloc();
    let early = [(0, Bool(true)), (1, Int(1))];
    assert!(rt; answers(alloc, Clamp::new(), &early, Wanted::Reads(2))?);
    let other = [(0, Bool(true)), (1, Int(1)), (2, Int(9))];
    assert!(rt; answers(alloc, Clamp::new(), &other, Wanted::Fails(Fault::Kind))?);
    Ok(())
}

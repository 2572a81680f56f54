// What bodies answer.
use crate::plain::Plain::Int;
use crate::plain::{Plain, is_number, is_value, known_of};
use effect_model::Plain as Line;
use sig_base::{Fault, NoMemory, Scalar};
use sig_formula::{BinOp, Formula};
use sig_untrack::{Act, Body, BodyStep, Stmt, body_step};
use std::alloc::{AllocError, Global};
use std::test::Fail;

// What a body is to want done.
#[derive(Clone, Copy)]
enum Deed {
    Set(u32, i64),
    Log(i64),
    CleanupSet(u32, i64),
    CleanupLog(i64),
    Effect(u32),
    Dispose(u32),
    Rewire(u32),
}

// What a body is to answer.
#[derive(Clone, Copy)]
enum Wanted<'a> {
    Reads { slot: u32, tracked: bool },
    Wants(&'a [Deed]),
    FailsByKind,
}

fn slot(n: u32) -> Formula {
    Formula::Slot(n)
}

fn int(n: i64) -> Formula {
    Formula::Lit(Scalar::Int(n))
}

// The body with these statements, and no lists.
fn body_of(alloc: Global, statements: Vec<Stmt>) -> Body {
    Body {
        statements,
        targets: Vec::new(alloc),
        names: Vec::new(alloc),
        effects: Vec::new(alloc),
        rewires: Vec::new(alloc),
    }
}

// Whether an act is this one.
fn is_deed(act: &Act, deed: Deed) -> bool {
    match (act, deed) {
        (Act::Set(place, own), Deed::Set(target, n)) => *place == target && is_number(own, n),
        (Act::Log(own), Deed::Log(n)) => is_value(own, Int(n)),
        (Act::CleanupSet(place, own), Deed::CleanupSet(target, n)) => {
            *place == target && is_number(own, n)
        }
        (Act::CleanupLog(own), Deed::CleanupLog(n)) => is_value(own, Int(n)),
        (Act::Effect(own), Deed::Effect(place)) => *own == place,
        (Act::Dispose(own), Deed::Dispose(target)) => *own == target,
        (Act::Rewire(own), Deed::Rewire(place)) => *own == place,
        _ => false,
    }
}

// Whether acts are these, in this order.
fn are_deeds(acts: &[Act], deeds: &[Deed]) -> bool {
    if acts.len() != deeds.len() {
        return false;
    }
    for place in 0..acts.len() {
        if place >= deeds.len() || !is_deed(&acts[place], deeds[place]) {
            return false;
        }
    }
    true
}

// Whether an answer is the one that is wanted.
fn is_wanted(step: &BodyStep, wanted: Wanted) -> bool {
    match (step, wanted) {
        (
            BodyStep::Read { slot, tracked },
            Wanted::Reads {
                slot: place,
                tracked: is,
            },
        ) => { *slot == place && *tracked == is }
        (BodyStep::Acts(acts), Wanted::Wants(deeds)) => are_deeds(acts, deeds),
        (BodyStep::Fail(Fault::Kind), Wanted::FailsByKind) => true,
        _ => false,
    }
}

// Whether a body answers so to what is known of the slots, tracked and untracked.
fn answers(
    alloc: Global,
    body: &Body,
    tracked: &[(u32, Plain)],
    untracked: &[(u32, Plain)],
    wanted: Wanted,
) -> Result<bool, NoMemory> {
    let tracked = known_of(alloc, tracked)?;
    let untracked = known_of(alloc, untracked)?;
    let step = body_step(alloc, body, &tracked, &untracked)?;
    Ok(is_wanted(&step, wanted))
}

// Whether slot 0 is above 0.
fn is_above_zero(alloc: Global) -> Result<Formula, AllocError> {
    let left = Box::new(alloc, slot(0))?;
    let right = Box::new(alloc, int(0))?;
    Ok(Formula::Bin(BinOp::Gt, left, right))
}

// What a guard over slot 0 guards.
fn guarded(alloc: Global) -> Result<Stmt, AllocError> {
    let mut statements = Vec::with_capacity(alloc, 2)?;
    statements.push(Stmt::Plain(Line::Set(3, int(7))))?;
    statements.push(Stmt::Effect(0))?;
    Ok(Stmt::When(is_above_zero(alloc)?, statements))
}

// A log of slot 1, which isn't tracked.
fn logged(alloc: Global) -> Result<Stmt, AllocError> {
    let inner = Box::new(alloc, slot(1))?;
    Ok(Stmt::Plain(Line::Log(Formula::Untrack(inner))))
}

// A guard over slot 0 and what it guards, and a log of slot 1 behind them.
fn guarded_body(alloc: Global) -> Result<Body, AllocError> {
    let mut statements = Vec::with_capacity(alloc, 3)?;
    statements.push(guarded(alloc)?)?;
    statements.push(logged(alloc)?)?;
    statements.push(Stmt::Plain(Line::Dispose(1)))?;
    Ok(body_of(alloc, statements))
}

// Whether the guarded body answers so.
fn guarded_answers(
    alloc: Global,
    tracked: &[(u32, Plain)],
    untracked: &[(u32, Plain)],
    wanted: Wanted,
) -> Result<bool, NoMemory> {
    let body = guarded_body(alloc)?;
    answers(alloc, &body, tracked, untracked, wanted)
}

#[test]
fn asks_for_what_isnt_known(rt: HostRuntime) -> Result<(), Fail> {
    let alloc = rt.alloc();
    let guard = Wanted::Reads {
        slot: 0,
        tracked: true,
    };
    let log = Wanted::Reads {
        slot: 1,
        tracked: false,
    };
    assert!(rt; guarded_answers(alloc, &[], &[(0, Int(1))], guard)?);
    assert!(rt; guarded_answers(alloc, &[(0, Int(1))], &[], log)?);
    Ok(())
}

#[test]
fn acts_in_order(rt: HostRuntime) -> Result<(), Fail> {
    let alloc = rt.alloc();
    let all = [
        Deed::Set(3, 7),
        Deed::Effect(0),
        Deed::Log(2),
        Deed::Dispose(1),
    ];
    assert!(rt; guarded_answers(alloc, &[(0, Int(1))], &[(1, Int(2))], Wanted::Wants(&all))?);
    let behind = [Deed::Log(5), Deed::Dispose(1)];
    let known = [(0, Int(0)), (1, Int(5))];
    assert!(rt; guarded_answers(alloc, &known, &[], Wanted::Wants(&behind))?);
    Ok(())
}

// A cleanup, a guard that is no truth, and a log behind it.
fn faulty_body(alloc: Global) -> Result<Body, AllocError> {
    let mut statements = Vec::with_capacity(alloc, 3)?;
    statements.push(Stmt::Plain(Line::CleanupLog(int(1))))?;
    statements.push(Stmt::When(int(1), Vec::new(alloc)))?;
    statements.push(Stmt::Plain(Line::Log(slot(0))))?;
    Ok(body_of(alloc, statements))
}

#[test]
fn fails_at_the_first_fault(rt: HostRuntime) -> Result<(), Fail> {
    let alloc = rt.alloc();
    let body = faulty_body(alloc)?;
    assert!(rt; answers(alloc, &body, &[], &[], Wanted::FailsByKind)?);
    Ok(())
}

// Two cleanups, and a rewiring between them.
fn noting_body(alloc: Global) -> Result<Body, AllocError> {
    let mut statements = Vec::with_capacity(alloc, 3)?;
    statements.push(Stmt::Plain(Line::CleanupSet(0, int(4))))?;
    statements.push(Stmt::Rewire(2))?;
    statements.push(Stmt::Plain(Line::CleanupLog(int(5))))?;
    Ok(body_of(alloc, statements))
}

#[test]
fn notes_cleanups_and_rewirings(rt: HostRuntime) -> Result<(), Fail> {
    let alloc = rt.alloc();
    let body = noting_body(alloc)?;
    let all = [Deed::CleanupSet(0, 4), Deed::Rewire(2), Deed::CleanupLog(5)];
    assert!(rt; answers(alloc, &body, &[], &[], Wanted::Wants(&all))?);
    Ok(())
}

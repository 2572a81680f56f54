// The chain of a computed as a journal tells it, and told from what is almost it.
use effect_model::How;
use live_why::Journal;
use sig_base::{NodeId, Outcome, Value};
use sig_computed::{IdList, RunNote};
use std::alloc::Global;
use std::test::Fail;
use why_check::check;
use why_model::{Cause, Link};

// Notes a run that read one signal and came to a whole number.
fn run(
    journal: &mut Journal,
    alloc: Global,
    id: NodeId,
    read: NodeId,
    value: i64,
) -> Result<(), Fail> {
    let reads = IdList::of(alloc, Vec::from_slice(alloc, &[read])?)?;
    journal.note_run(&RunNote {
        id,
        reads,
        outcome: Outcome::Good(Value::Int(value)),
    })?;
    Ok(())
}

// The link of a run that was caused by a fact that moved a signal.
fn moved(run: u64, id: NodeId, fact: u64) -> Link {
    Link {
        run,
        cause: Cause::Changed(id, fact),
    }
}

// Whether the chain of a computed is these links, and the checker takes it.
fn is_chain(journal: &Journal, id: NodeId, links: &[Link]) -> Result<bool, Fail> {
    let chain = journal.chain(id)?;
    Ok(match chain {
        None => false,
        Some(chain) => chain.as_slice() == links && check(journal.facts(), id, links),
    })
}

// a = 1; b = a + 1; d = b * 2; d is asked for, a is set to 5, and d is asked for again.
fn sums(alloc: Global) -> Result<Journal, Fail> {
    let (a, b, d) = (NodeId::of(0), NodeId::of(1), NodeId::of(2));
    let mut journal = Journal::new(alloc);
    run(&mut journal, alloc, b, a, 2)?;
    run(&mut journal, alloc, d, b, 4)?;
    journal.note_change(a, How::Set)?;
    run(&mut journal, alloc, b, a, 6)?;
    run(&mut journal, alloc, d, b, 12)?;
    Ok(journal)
}

#[test]
fn the_chain_leads_to_what_was_set(rt: HostRuntime) -> Result<(), Fail> {
    let (a, b, d) = (NodeId::of(0), NodeId::of(1), NodeId::of(2));
    let journal = sums(rt.alloc())?;
    assert!(rt; is_chain(&journal, d, &[moved(5, b, 4), moved(4, a, 3)])?);
    assert!(rt; is_chain(&journal, b, &[moved(4, a, 3)])?);
    assert!(rt; journal.chain(a)?.is_none());
    Ok(())
}

#[test]
fn the_chain_leads_to_a_rewiring(rt: HostRuntime) -> Result<(), Fail> {
    let alloc = rt.alloc();
    let (b, d) = (NodeId::of(1), NodeId::of(2));
    let mut journal = sums(alloc)?;
    journal.note_change(b, How::Rewire)?;
    journal.note_run(&RunNote {
        id: b,
        reads: IdList::of(alloc, Vec::new(alloc))?,
        outcome: Outcome::Good(Value::Int(3)),
    })?;
    run(&mut journal, alloc, d, b, 6)?;
    let rewired = Link {
        run: 7,
        cause: Cause::Rewired(6),
    };
    assert!(rt; is_chain(&journal, d, &[moved(8, b, 7), rewired])?);
    Ok(())
}

#[test]
fn the_checker_takes_the_chain_alone(rt: HostRuntime) -> Result<(), Fail> {
    let (a, b, d) = (NodeId::of(0), NodeId::of(1), NodeId::of(2));
    let journal = sums(rt.alloc())?;
    assert!(rt; check(journal.facts(), d, &[moved(5, b, 4), moved(4, a, 3)]));
    assert!(rt; !check(journal.facts(), d, &[moved(5, b, 4)]));
    assert!(rt; !check(journal.facts(), d, &[moved(5, b, 3), moved(4, a, 3)]));
    assert!(rt; !check(journal.facts(), a, &[]));
    Ok(())
}

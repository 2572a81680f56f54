// What is heard of names, and what formulas come to.
ghost use Rattle.std.specs.Prelude.{OnOk};
ghost use Rattle.tpl_hearing.specs.Heard.{scene, CanSettle};

use crate::scene::{Scene, is_number, of_names};
use sig_base::{NoMemory, NodeId};
use sig_formula::BinOp;
use sig_host::{Lent, Shelf};
use std::alloc::Global;
use std::process::Abort;
use std::test::Fail;
use tpl_hearing::{Evaluated, Outcomes, Rehearing, evaluate, hear, hear_again};

// Whether the first name is heard as this number.
fn is_heard(s: &mut Scene, heard: &mut Outcomes, wanted: i64) -> Result<bool, NoMemory>
    requires can { CanSettle (scene s.old.graph (⟦<Shelf as Lent>⟧.asked s.old.shelf) s.old.notes.items) }
    requires counted { ⟦<Shelf as Lent>⟧.counted s.old.shelf }
    ensures can { OnOk result (CanSettle (scene s.new.graph (⟦<Shelf as Lent>⟧.asked s.new.shelf) s.new.notes.items)) }
    ensures counted { OnOk result (⟦<Shelf as Lent>⟧.counted s.new.shelf) }
{
    let outcome = hear(&mut s.graph, &mut s.shelf, heard, s.first, &mut s.notes)?;
    Ok(is_number(&outcome, wanted))
}

// Whether the first name is heard as before.
fn is_heard_again(alloc: Global, s: &mut Scene, before: &Outcomes) -> Result<bool, NoMemory>
    requires can { CanSettle (scene s.old.graph (⟦<Shelf as Lent>⟧.asked s.old.shelf) s.old.notes.items) }
    requires counted { ⟦<Shelf as Lent>⟧.counted s.old.shelf }
{
    let ids = [s.first];
    let mut hearing = Rehearing::new(alloc);
    let same = hear_again(
        &mut s.graph,
        &mut s.shelf,
        before,
        &mut hearing,
        &ids,
        &mut s.notes,
    )?;
    Ok(same)
}

// Whether the first name is heard as this number, and then as before.
fn stays(alloc: Global, s: &mut Scene, wanted: i64) -> Result<bool, NoMemory>
    requires can { CanSettle (scene s.old.graph (⟦<Shelf as Lent>⟧.asked s.old.shelf) s.old.notes.items) }
    requires counted { ⟦<Shelf as Lent>⟧.counted s.old.shelf }
{
    let mut before = Outcomes::new(alloc);
    let found = is_heard(s, &mut before, wanted)?;
    let same = is_heard_again(alloc, s, &before)?;
    Ok(found && same)
}

#[test]
fn a_name_is_heard_as_before_while_it_has_its_value(rt: HostRuntime) -> Result<(), Fail> {
    let alloc = rt.alloc();
    let mut s = Scene::of_numbers(alloc, 1, 2)?;
    let same = stays(alloc, &mut s, 1)?;
    assert!(rt; same);
    Ok(())
}

#[test]
fn a_name_that_was_not_heard_is_not_as_before(rt: HostRuntime) -> Result<(), Fail> {
    let alloc = rt.alloc();
    let mut s = Scene::of_numbers(alloc, 1, 2)?;
    let before = Outcomes::new(alloc);
    let same = is_heard_again(alloc, &mut s, &before)?;
    assert!(rt; !same);
    Ok(())
}

// The second name less the first.
fn difference(alloc: Global, s: &mut Scene) -> Result<Evaluated, NoMemory>
    requires can { CanSettle (scene s.old.graph (⟦<Shelf as Lent>⟧.asked s.old.shelf) s.old.notes.items) }
    requires counted { ⟦<Shelf as Lent>⟧.counted s.old.shelf }
{
    let formula = of_names(alloc, BinOp::Sub, 1, 0)?;
    let slots = [s.first, s.second];
    let mut heard = Outcomes::new(alloc);
    evaluate(
        alloc,
        &mut s.graph,
        &mut s.shelf,
        &mut heard,
        &formula,
        None,
        &slots,
        &mut s.notes,
    )
}

fn assert_read_in_order(rt: &impl Abort, done: &Evaluated, first: NodeId, second: NodeId) {
    assert!(rt; is_number(&done.outcome, 1));
    let [one, two] = done.reads.as_slice() else {
        assert!(rt; false);
        return;
    };
    assert!(rt; one.id == second && two.id == first);
    assert!(rt; is_number(&one.outcome, 2) && is_number(&two.outcome, 1));
}

#[test]
fn a_formula_reads_its_names_in_order(rt: HostRuntime) -> Result<(), Fail> {
    let alloc = rt.alloc();
    let mut s = Scene::of_numbers(alloc, 1, 2)?;
    let done = difference(alloc, &mut s)?;
    assert_read_in_order(&rt, &done, s.first, s.second);
    Ok(())
}

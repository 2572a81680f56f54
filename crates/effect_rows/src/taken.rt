// What is taken back, and in which order.
ghost use Rattle.std.specs.Prelude.{IfOk, OnOk};
ghost use Rattle.effect_rows.specs.Trees.{IsReady};

use crate::tree::Tree;
use effect_tables::{Thing, Undoing};
use sig_base::{EffectId, OwnerId};
use std::alloc::Global;
use std::test::Fail;

// What is to be taken back, by its number.
#[derive(Clone, Copy)]
enum Back {
    Signal(u64),
    Owner(u64),
    Effect(u64),
    Page(u64),
}

// Whether a step takes this back.
fn is_back(undoing: &Undoing, back: Back) -> bool {
    match (undoing, back) {
        (Undoing::Gone(Thing::Signal(id)), Back::Signal(n)) => id.number() == n,
        (Undoing::Gone(Thing::Owner(id)), Back::Owner(n)) => id.number() == n,
        (Undoing::Gone(Thing::Effect(id)), Back::Effect(n)) => id.number() == n,
        (Undoing::Gone(Thing::Page(id)), Back::Page(n)) => id.number() == n,
        _ => false,
    }
}

// Whether steps take these back, in this order.
fn are_back(undoings: &[Undoing], backs: &[Back]) -> bool {
    if undoings.len() != backs.len() {
        return false;
    }
    for place in 0..undoings.len() {
        if place >= backs.len() || !is_back(&undoings[place], backs[place]) {
            return false;
        }
    }
    true
}

// Tables in which nothing was made.
fn empty(alloc: Global) -> Result<Box<Tree>, Fail>
    ensures { IfOk result (λ t. IsReady t.value.signals t.value.tables) }
{
    let tree = Tree::new(alloc)?;
    Ok(Box::new(alloc, tree)?)
}

// Takes a thing out, and tells whether these went.
fn takes_out(t: &mut Tree, thing: Thing, backs: &[Back]) -> Result<bool, Fail>
    requires { IsReady t.old.signals t.old.tables }
    ensures { OnOk result (IsReady t.new.signals t.new.tables) }
{
    let undoings = t.out(thing)?;
    Ok(are_back(&undoings, backs))
}

// Takes back what stands under an effect, and tells whether it was this.
fn takes_back(t: &mut Tree, effect: EffectId, backs: &[Back]) -> Result<bool, Fail>
    requires { IsReady t.old.signals t.old.tables }
    ensures { OnOk result (IsReady t.new.signals t.new.tables) }
{
    let undoings = t.back(effect)?;
    Ok(are_back(&undoings, backs))
}

// An owner inside another, and one thing of each kind inside that. The outer owner.
fn with_one_of_each(t: &mut Tree) -> Result<OwnerId, Fail>
    requires { IsReady t.old.signals t.old.tables }
    ensures { OnOk result (IsReady t.new.signals t.new.tables) }
{
    let outer = t.owner(None)?;
    let inner = t.owner(Some(outer))?;
    t.signal(Some(inner))?;
    t.effect(Some(inner))?;
    t.page(Some(inner))?;
    Ok(outer)
}

#[test]
fn an_owner_goes_with_all_that_stands_under_it(rt: HostRuntime) -> Result<(), Fail> {
    let mut t = empty(rt.alloc())?;
    let outer = with_one_of_each(&mut t)?;
    assert!(rt; t.counts() == (2, 1, 1));
    let all = [
        Back::Page(0),
        Back::Effect(0),
        Back::Signal(0),
        Back::Owner(1),
        Back::Owner(0),
    ];
    assert!(rt; takes_out(&mut t, Thing::Owner(outer), &all)?);
    assert!(rt; t.counts() == (2, 0, 0));
    Ok(())
}

// Two owners with an effect each, and a page beside them. The first owner and its effect, which was made last.
fn with_two_effects(t: &mut Tree) -> Result<(OwnerId, EffectId), Fail>
    requires { IsReady t.old.signals t.old.tables }
    ensures { OnOk result (IsReady t.new.signals t.new.tables) }
{
    let first = t.owner(None)?;
    let second = t.owner(None)?;
    t.effect(Some(second))?;
    let effect = t.effect(Some(first))?;
    t.page(None)?;
    Ok((first, effect))
}

#[test]
fn what_stands_beside_stays(rt: HostRuntime) -> Result<(), Fail> {
    let mut t = empty(rt.alloc())?;
    let (first, effect) = with_two_effects(&mut t)?;
    assert!(rt; takes_back(&mut t, effect, &[])?);
    assert!(rt; t.counts() == (2, 2, 1));
    let all = [Back::Effect(1), Back::Owner(0)];
    assert!(rt; takes_out(&mut t, Thing::Owner(first), &all)?);
    assert!(rt; t.counts() == (2, 1, 1));
    Ok(())
}

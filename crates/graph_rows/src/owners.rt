// What is taken back, and in which order.
ghost use Rattle.std.specs.Prelude.{◌≡◌, IfOk};
ghost use Rattle.effect_model.specs.Owners.{nothing};
ghost use Rattle.sig_owner.specs.Trees.{owned_of};

use crate::plain::Plain::Int;
use crate::plain::is_value;
use sig_base::{EffectId, NoMemory, NodeId, OwnerId, Value};
use sig_owner::{CleanupAct, OwnFault, Owners, Thing, Undoing};
use std::alloc::Global;
use std::test::Fail;

// What is to be taken back: a thing by its number, or a value that is logged.
#[derive(Clone, Copy)]
enum Back {
    Node(u64),
    Effect(u64),
    Log(i64),
}

fn logged(n: i64) -> CleanupAct {
    CleanupAct::Log(Value::Int(n))
}

// Whether a step takes this back.
fn is_back(undoing: &Undoing, back: Back) -> bool {
    match (undoing, back) {
        (Undoing::Gone(Thing::Node(id)), Back::Node(n)) => id.number() == n,
        (Undoing::Gone(Thing::Effect(id)), Back::Effect(n)) => id.number() == n,
        (Undoing::Cleanup(_, CleanupAct::Log(value)), Back::Log(n)) => is_value(value, Int(n)),
        _ => false,
    }
}

// Whether steps take these back, in this order.
fn are_back(undoings: &[Undoing], backs: &[Back]) -> bool {
    if undoings.len() != backs.len() {
        return false;
    }
    for place in 0..undoings.len() {
        if place >= backs.len() || !is_back(&undoings[place], backs[place]) {
            return false;
        }
    }
    true
}

// Takes back what stands under an owner, and tells whether it was this.
fn takes_back(owners: &mut Owners, owner: OwnerId, backs: &[Back]) -> Result<bool, OwnFault> {
    let undoings = owners.take_back(owner)?;
    Ok(are_back(&undoings, backs))
}

// Takes back what stands under an owner, and tells how many steps that was.
fn steps_back(owners: &mut Owners, owner: OwnerId) -> Result<usize, OwnFault> {
    let undoings = owners.take_back(owner)?;
    Ok(undoings.len())
}

// No owners.
fn no_owners(alloc: Global) -> Result<Box<Owners>, NoMemory>
    ensures { IfOk result (λ o. owned_of o.value ≡ nothing) }
{
    let owners = Owners::new(alloc)?;
    Ok(Box::new(alloc, owners)?)
}

// An owner of two nodes and an effect.
fn with_effect_last(owners: &mut Owners) -> Result<OwnerId, OwnFault>
    requires { owned_of owners.old ≡ nothing }
{
    let owner = owners.make(None)?;
    owners.adopt(owner, Thing::Node(NodeId::of(0)))?;
    owners.adopt(owner, Thing::Node(NodeId::of(1)))?;
    owners.make_for(EffectId::of(0), Some(owner))?;
    Ok(owner)
}

// Whether they are taken back from the last on, and once.
fn last_goes_first(owners: &mut Owners) -> Result<bool, OwnFault>
    requires { owned_of owners.old ≡ nothing }
{
    let owner = with_effect_last(owners)?;
    let all = [Back::Effect(0), Back::Node(1), Back::Node(0)];
    Ok(takes_back(owners, owner, &all)? && takes_back(owners, owner, &[])?)
}

#[test]
fn takes_back_the_last_first(rt: HostRuntime) -> Result<(), Fail> {
    let mut owners = no_owners(rt.alloc())?;
    assert!(rt; last_goes_first(&mut owners)?);
    Ok(())
}

// Two effects, one inside the other, with cleanups.
fn with_cleanups(owners: &mut Owners) -> Result<(OwnerId, OwnerId), OwnFault>
    requires { owned_of owners.old ≡ nothing }
{
    let outer = owners.make_for(EffectId::of(0), None)?;
    owners.note_cleanup(outer, logged(1))?;
    let inner = owners.make_for(EffectId::of(1), Some(outer))?;
    owners.note_cleanup(inner, logged(2))?;
    owners.note_cleanup(outer, logged(3))?;
    Ok((outer, inner))
}

// Whether the inner ones come before the end of their effect, and the effect is gone then.
fn inner_go_first(owners: &mut Owners) -> Result<bool, OwnFault>
    requires { owned_of owners.old ≡ nothing }
{
    let (outer, inner) = with_cleanups(owners)?;
    let all = [Back::Log(3), Back::Log(2), Back::Effect(1), Back::Log(1)];
    let went = takes_back(owners, outer, &all)?;
    Ok(went && owners.note_cleanup(inner, logged(4)) == Err(OwnFault::Gone))
}

#[test]
fn takes_back_inner_cleanups_before_their_effect(rt: HostRuntime) -> Result<(), Fail> {
    let mut owners = no_owners(rt.alloc())?;
    assert!(rt; inner_go_first(&mut owners)?);
    Ok(())
}

// A chain of as many owners as there may be: the first and the last.
fn with_chain(owners: &mut Owners) -> Result<(OwnerId, OwnerId), OwnFault> {
    let first = owners.make(None)?;
    let mut last = first;
    for _ in 1..1024 {
        last = owners.make(Some(last))?;
    }
    Ok((first, last))
}

// Whether no owner more is made beside the chain, and one is once the chain was taken back, with the next number.
fn chain_goes(owners: &mut Owners) -> Result<bool, OwnFault> {
    let (first, last) = with_chain(owners)?;
    let full = owners.make(None) == Err(OwnFault::Limit);
    let steps = steps_back(owners, first)?;
    let gone = owners.make(Some(last)) == Err(OwnFault::Gone);
    let next = owners.make(None)?;
    Ok(full && steps == 1023 && gone && next == OwnerId::of(1024))
}

#[test]
fn takes_back_a_chain(rt: HostRuntime) -> Result<(), Fail> {
    let mut owners = no_owners(rt.alloc())?;
    assert!(rt; chain_goes(&mut owners)?);
    Ok(())
}

// An owner of a node and a cleanup, without the node.
fn without_its_node(owners: &mut Owners) -> Result<OwnerId, OwnFault>
    requires { owned_of owners.old ≡ nothing }
{
    let owner = owners.make(None)?;
    owners.adopt(owner, Thing::Node(NodeId::of(0)))?;
    owners.note_cleanup(owner, logged(1))?;
    owners.drop_thing(Thing::Node(NodeId::of(0)));
    Ok(owner)
}

// Whether the cleanup alone is taken back.
fn cleanup_is_left(owners: &mut Owners) -> Result<bool, OwnFault>
    requires { owned_of owners.old ≡ nothing }
{
    let owner = without_its_node(owners)?;
    takes_back(owners, owner, &[Back::Log(1)])
}

#[test]
fn drops_one_thing(rt: HostRuntime) -> Result<(), Fail> {
    let mut owners = no_owners(rt.alloc())?;
    assert!(rt; cleanup_is_left(&mut owners)?);
    Ok(())
}

// What the places of a body stand for.
ghost use Rattle.std.specs.Prelude.{◌≡◌, IfOk, None, Some, map, slice_get};
ghost use Rattle.effect_model.specs.Owners.{the_signal};
ghost use Rattle.sig_untrack.specs.Stated.{rewiring, source};
ghost use Rattle.sig_nodes.specs.Answers.{expression_of, HasFewSlots};
ghost use Rattle.effect_tables.specs.Scripts.{AreFew, IsFew};
ghost use Rattle.effect_tables.specs.Bodies as tables;
ghost use Rattle.effect_tables.specs.Bodies.{rewired, signal_number, target_thing, thing_of};
ghost use Rattle.effect_teardown.specs.Sites.{slots_in};
ghost use Rattle.effect_acts.specs.Rewires.{IsMeant};

use effect_tables::{Slots, Target, Thing};
use sig_base::{EffectId, NoMemory, NodeId};
use sig_formula::copy_formula;
use sig_graph::Recipe;
use sig_untrack::{Recipe2, Rewire};
use std::alloc::Global;

/// A computed, and the recipe that it gets.
#[derive(Drop)]
pub struct Change {
    pub id: NodeId,
    pub recipe: Recipe,
    pub slots: Vec<NodeId>,
}

// The target of a place.
fn target_of(targets: &[Target], place: u32) -> Option<Target>
    ensures { result ≡ slice_get targets.now place }
{
    if (place as usize) < targets.len() {
        Some(targets[place as usize])
    } else {
        None
    }
}

// What a target stands for; signal 0 where there is none.
fn meant_thing(origin: EffectId, target: &Option<Target>) -> Thing
    ensures { thing_of result ≡ target_thing origin target.now }
{
    match target {
        None => Thing::Signal(NodeId::of(0)),
        Some(Target::Thing(thing)) => *thing,
        Some(Target::This) => Thing::Effect(origin),
    }
}

// The signal that a thing is; signal 0 where it is another thing.
fn signal_in(thing: &Thing) -> NodeId
    ensures { result ≡ signal_number (thing_of thing.now) }
{
    match thing {
        Thing::Signal(id) => *id,
        Thing::Owner(_) => NodeId::of(0),
        Thing::Effect(_) => NodeId::of(0),
        Thing::Page(_) => NodeId::of(0),
        Thing::Watcher(_) => NodeId::of(0),
    }
}

/// The thing that the target of a place stands for.
pub(crate) fn thing_at(origin: EffectId, targets: &[Target], place: u32) -> Thing
    ensures { thing_of result ≡ target_thing origin (slice_get targets.now place) }
{
    let target = target_of(targets, place);
    meant_thing(origin, &target)
}

/// The cell that the target of a place stands for.
pub(crate) fn cell_at(origin: EffectId, targets: &[Target], place: u32) -> NodeId
    ensures { result ≡ signal_number (target_thing origin (slice_get targets.now place)) }
{
    let thing = thing_at(origin, targets, place);
    signal_in(&thing)
}

// What a computed asks, like what a body says of it.
fn recipe_like(alloc: Global, recipe: &Recipe2) -> Result<Recipe, NoMemory>
    ensures { IfOk result (λ r. expression_of r ≡ tables.expression_of (source recipe.now)) }
{
    match recipe {
        Recipe2::Formula(formula) => {
            let formula = copy_formula(alloc, formula)?;
            Ok(Recipe::Formula(formula))
        }
        Recipe2::Host(place) => Ok(Recipe::Host(*place as usize)),
    }
}

// The same signals.
fn same_ids(alloc: Global, ids: &[NodeId]) -> Result<Vec<NodeId>, NoMemory>
    ensures { IfOk result (λ v. v.items ≡ ids.now) }
{
    let mut same = Vec::new(alloc);
    same.extend_from_slice(ids)?;
    Ok(same)
}

// The rewiring, with what its own names stand for.
fn made_change(
    alloc: Global,
    origin: EffectId,
    targets: &[Target],
    rewire: &Rewire,
    ids: &[NodeId],
) -> Result<Change, NoMemory>
    ensures meant { IfOk result (λ x. IsMeant x
        (rewired (λ n. target_thing origin (slice_get targets.now n)) (Some (rewiring rewire.now)) (Some ids.now))) }
    ensures few { IsFew (source rewire.now.recipe) ids.now → IfOk result (λ x. HasFewSlots (expression_of x.recipe) x.slots.items) }
{
    let id = cell_at(origin, targets, rewire.target);
    let recipe = recipe_like(alloc, &rewire.recipe)?;
    let slots = same_ids(alloc, ids)?;
    Ok(Change { id, recipe, slots })
}

// What is meant where there is no rewiring.
fn no_change(alloc: Global) -> Change
    ensures { IsMeant result (rewired (λ n. the_signal 0) None None) }
{
    Change {
        id: NodeId::of(0),
        recipe: Recipe::Host(0),
        slots: Vec::new(alloc),
    }
}

/// The rewiring of a place.
pub(crate) fn change_at(
    alloc: Global,
    origin: EffectId,
    targets: &[Target],
    rewires: &[Rewire],
    slots: &[Slots],
    place: u32,
) -> Result<Change, NoMemory>
    ensures meant { IfOk result (λ x. IsMeant x (rewired (λ n. target_thing origin (slice_get targets.now n))
        (slice_get (map rewiring rewires.now) place) (slice_get (slots_in slots.now) place))) }
    ensures few { AreFew (map rewiring rewires.now) (slots_in slots.now) →
        IfOk result (λ x. HasFewSlots (expression_of x.recipe) x.slots.items) }
{
    let Some(rewire) = rewires.get(place as usize) else {
        let none = no_change(alloc);
        return Ok(none);
    };
    let Some(own) = slots.get(place as usize) else {
        let none = no_change(alloc);
        return Ok(none);
    };
    let change = made_change(alloc, origin, targets, rewire, &own.ids)?;
    Ok(change)
}

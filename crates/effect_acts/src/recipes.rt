// An effect gives a computed another recipe.
ghost use Rattle.std.specs.Prelude.{◌≡◌, ℕ, true, false, List, None, IfNone, IfSome, OnOk};
ghost use Rattle.signal_model.specs.Signals.{is_cell, standing};
ghost use Rattle.effect_model.specs.Acts.{host_of, host_refused, rewire_signal, rewiring_refused};
ghost use Rattle.sig_nodes.specs.Answers.{expression_of, HasFewSlots};
ghost use Rattle.sig_nodes.specs.Computations.{recipe_made};
ghost use Rattle.sig_graph.specs.States.{CanWear};
ghost use Rattle.effect_world.specs.Signals.{scene};
ghost use Rattle.effect_world.specs.Stores.{Agrees};
ghost use Rattle.effect_world.specs.Wholes.{whole_of};
ghost use Rattle.effect_acts.specs.Acts.{first_gone, IsRefusal};
ghost use Rattle.effect_world.specs.Answers.{Acted, CanRewire};

use effect_tables::Thing;
use effect_world::World;
use sig_base::{NoMemory, NodeId};
use sig_effect::Event;
use sig_graph::{Recipe, Standing};
use sig_host::{Lent, Shelf};

// The first of these signals that is gone.
fn first_gone(world: &World, ids: &[NodeId]) -> Option<NodeId>
    ensures { result ≡ first_gone world.now.graph.state.signals ids.now }
{
    for id in ids {
        if !world.is_signal(*id) {
            return Some(*id);
        }
    }
    None
}

// How it is told that the host formula of a recipe can't be taken, where it can't.
fn host_refusal(world: &World, shelf: &Shelf, recipe: &Recipe) -> Option<Event>
    ensures some { IfSome result (λ e. IsRefusal e
        (host_refused (host_of (expression_of recipe.now)) (whole_of (⟦<Shelf as Lent>⟧.asked shelf.now) world.now))) }
    ensures none { IfNone result
        (host_refused (host_of (expression_of recipe.now)) (whole_of (⟦<Shelf as Lent>⟧.asked shelf.now) world.now) ≡ None) }
{
    match recipe {
        Recipe::Formula(_) => None,
        Recipe::Host(place) => {
            if world.is_free(shelf, *place) {
                return None;
            }
            Some(Event::RefusedHost(*place))
        }
    }
}

// How it is told that a rewiring is refused, where it is.
fn refusal(
    world: &World,
    shelf: &Shelf,
    id: NodeId,
    recipe: &Recipe,
    slots: &[NodeId],
) -> Option<Event>
    ensures some { IfSome result (λ e. IsRefusal e
        (rewiring_refused id (recipe_made (expression_of recipe.now) slots.now) (whole_of (⟦<Shelf as Lent>⟧.asked shelf.now) world.now))) }
    ensures none { IfNone result
        (rewiring_refused id (recipe_made (expression_of recipe.now) slots.now) (whole_of (⟦<Shelf as Lent>⟧.asked shelf.now) world.now) ≡ None) }
{
    if !world.is_signal(id) {
        return Some(Event::RefusedGone(Thing::Signal(id)));
    }
    match first_gone(world, slots) {
        Some(gone) => Some(Event::RefusedGone(Thing::Signal(gone))),
        None => host_refusal(world, shelf, recipe),
    }
}

// Gives a computed another recipe, where that isn't refused.
fn change(
    world: &mut World,
    shelf: &mut Shelf,
    id: NodeId,
    recipe: Recipe,
    slots: Vec<NodeId>,
    events: &mut Vec<Event>,
) -> Result<(), NoMemory>
    requires can { CanRewire (⟦<Shelf as Lent>⟧.asked shelf.old) world.old id (expression_of recipe) slots.items }
    requires agrees { Agrees (⟦<Shelf as Lent>⟧.asked shelf.old) world.old }
    requires counted { ⟦<Shelf as Lent>⟧.counted shelf.old }
    ensures done { (slacks : List ℕ) → OnOk result (Acted slacks
        (scene world.old (⟦<Shelf as Lent>⟧.asked shelf.old) events.old.items) (scene world.new (⟦<Shelf as Lent>⟧.asked shelf.new) events.new.items)
        (λ hosts. ⟦<Shelf as Lent>⟧.answers hosts shelf.old) (λ hosts. ⟦<Shelf as Lent>⟧.answers hosts shelf.new) 1
        (λ env. rewire_signal id (recipe_made (expression_of recipe) slots.items))) }
    ensures counted { OnOk result (⟦<Shelf as Lent>⟧.counted shelf.new) }
{
    match world.rewire(shelf, id, recipe, slots, events) {
        Ok(()) => Ok(()),
        Err(_) => Err(NoMemory),
    }
}

// Whether a cell stands there.
fn is_cell(world: &World, id: NodeId) -> bool
    ensures { result ≡ is_cell (standing world.now.graph.state.signals id) }
{
    match world.graph.standing(id) {
        Standing::Cell => true,
        Standing::Gone => false,
        Standing::Computed => false,
        Standing::Computing => false,
    }
}

// Gives a computed another recipe, where that isn't refused; a cell is left as it is.
fn change_standing(
    world: &mut World,
    shelf: &mut Shelf,
    id: NodeId,
    recipe: Recipe,
    slots: Vec<NodeId>,
    events: &mut Vec<Event>,
) -> Result<(), NoMemory>
    requires few { HasFewSlots (expression_of recipe) slots.items }
    requires worn { CanWear world.old.graph.state }
    requires agrees { Agrees (⟦<Shelf as Lent>⟧.asked shelf.old) world.old }
    requires counted { ⟦<Shelf as Lent>⟧.counted shelf.old }
    requires open { rewiring_refused id (recipe_made (expression_of recipe) slots.items) (whole_of (⟦<Shelf as Lent>⟧.asked shelf.old) world.old) ≡ None }
    ensures done { (slacks : List ℕ) → OnOk result (Acted slacks
        (scene world.old (⟦<Shelf as Lent>⟧.asked shelf.old) events.old.items) (scene world.new (⟦<Shelf as Lent>⟧.asked shelf.new) events.new.items)
        (λ hosts. ⟦<Shelf as Lent>⟧.answers hosts shelf.old) (λ hosts. ⟦<Shelf as Lent>⟧.answers hosts shelf.new) 1
        (λ env. rewire_signal id (recipe_made (expression_of recipe) slots.items))) }
    ensures counted { OnOk result (⟦<Shelf as Lent>⟧.counted shelf.new) }
{
    if is_cell(world, id) {
        return Ok(());
    }
    let _made = world.graph.made();
    change(world, shelf, id, recipe, slots, events)?;
    Ok(())
}

/// Gives a computed another recipe. A host formula that it asked before is dropped, and told with the number of its asks. Where the
/// computed is gone, or a signal that a slot would stand for, or the host formula is used or was dropped, the first of these is told as
/// refused. A cell is left as it is.
///
/// # Errors
///
/// After `NoMemory` world and shelf may only be dropped.
pub fn rewire(
    world: &mut World,
    shelf: &mut Shelf,
    id: NodeId,
    recipe: Recipe,
    slots: Vec<NodeId>,
    events: &mut Vec<Event>,
) -> Result<(), NoMemory>
    requires few { HasFewSlots (expression_of recipe) slots.items }
    requires worn { CanWear world.old.graph.state }
    requires agrees { Agrees (⟦<Shelf as Lent>⟧.asked shelf.old) world.old }
    requires counted { ⟦<Shelf as Lent>⟧.counted shelf.old }
    ensures done { (slacks : List ℕ) → OnOk result (Acted slacks
        (scene world.old (⟦<Shelf as Lent>⟧.asked shelf.old) events.old.items) (scene world.new (⟦<Shelf as Lent>⟧.asked shelf.new) events.new.items)
        (λ hosts. ⟦<Shelf as Lent>⟧.answers hosts shelf.old) (λ hosts. ⟦<Shelf as Lent>⟧.answers hosts shelf.new) 1
        (λ env. rewire_signal id (recipe_made (expression_of recipe) slots.items))) }
    ensures counted { OnOk result (⟦<Shelf as Lent>⟧.counted shelf.new) }
{
    match refusal(world, shelf, id, &recipe, &slots) {
        Some(event) => {
            events.push(event)?;
            Ok(())
        }
        None => {
            change_standing(world, shelf, id, recipe, slots, events)?;
            Ok(())
        }
    }
}

// A turn.
ghost use Rattle.std.specs.Prelude.{◌≡◌, ◌||◌, IfOk, OnOk, length, map};
ghost use Rattle.signal_model.specs.Recipes.{Hosts};
ghost use Rattle.effect_model.specs.Runs.{turn};
ghost use Rattle.effect_model.specs.Worlds.{effect_numbers};
ghost use Rattle.effect_tables.specs.Placed.{effect_of};
ghost use Rattle.sig_effect.specs.Stores.{environment, AreRuled};
ghost use Rattle.effect_world.specs.Signals.{scene};
ghost use Rattle.effect_world.specs.Stores.{IsSound};
ghost use Rattle.effect_world.specs.Wholes.{whole_of};
ghost use Rattle.effect_turns.specs.Runs.{CanRun, Runs, Spends};
ghost use Rattle.effect_tables.specs.Visits.{is_due, visit};

use crate::glance::glance;
use crate::near::id_below;
use crate::quiet::{hear, is_quiet, next_loud};
use crate::run::run_effect;
use effect_tables::Effect;
use effect_world::World;
use sig_base::{EffectId, NoMemory};
use sig_effect::Event;
use sig_host::{EqualsRule, Lent, Shelf};
use std::alloc::Global;

/// The numbers of effects, in order.
pub(crate) fn numbers(alloc: Global, effects: &[Effect]) -> Result<Vec<EffectId>, NoMemory>
    ensures { IfOk result (λ ids. ids.items ≡ effect_numbers (map effect_of effects.now)) }
{
    let mut ids = Vec::with_capacity(alloc, effects.len())?;
    for effect in effects {
        ids.push(effect.id)?;
    }
    Ok(ids)
}

// Looks at the effect of a number, which is looked for at a place first, and runs it where it lives and is due: whether it was. One that has
// read cells alone that have their values still needs no look, and is marked: it is passed over until one of them has another value.
fn visit(
    world: &mut World,
    shelf: &mut Shelf,
    rules: &[EqualsRule],
    id: EffectId,
    place: usize,
    events: &mut Vec<Event>,
) -> Result<bool, NoMemory>
    requires can { CanRun (scene world.old (⟦<Shelf as Lent>⟧.asked shelf.old) events.old.items) }
    requires ruled { AreRuled (length rules.now) world.old.graph.state.signals }
    requires counted { ⟦<Shelf as Lent>⟧.counted shelf.old }
    ensures due { (hosts : Hosts) → ⟦<Shelf as Lent>⟧.answers hosts shelf.old → IsSound hosts (⟦<Shelf as Lent>⟧.asked shelf.old) world.old →
        IfOk result (λ b. b ≡ is_due (environment hosts (map (λ r. r.slack) rules.now)) id (whole_of (⟦<Shelf as Lent>⟧.asked shelf.old) world.old)) }
    ensures done { OnOk result (Runs (map (λ r. r.slack) rules.now)
        (scene world.old (⟦<Shelf as Lent>⟧.asked shelf.old) events.old.items) (scene world.new (⟦<Shelf as Lent>⟧.asked shelf.new) events.new.items)
        (λ hosts. ⟦<Shelf as Lent>⟧.answers hosts shelf.old) (λ hosts. ⟦<Shelf as Lent>⟧.answers hosts shelf.new) (λ env. visit env id)) }
    ensures spent { OnOk result (Spends
        (scene world.old (⟦<Shelf as Lent>⟧.asked shelf.old) events.old.items) (scene world.new (⟦<Shelf as Lent>⟧.asked shelf.new) events.new.items)) }
    ensures counted { OnOk result (⟦<Shelf as Lent>⟧.counted shelf.new) }
{
    if is_quiet(world, place, id) {
        hear(world, *events.allocator(), place, id)?;
        return Ok(false);
    }
    let due = glance(world, shelf, id, place, events)?;
    if !due {
        return Ok(false);
    }
    run_effect(world, shelf, rules, id, events)?;
    Ok(true)
}

// Whether one of two is so.
fn either(one: bool, other: bool) -> bool
    ensures { result ≡ (one || other) }
{
    one || other
}

/// One turn: the effects that live at its start, in the order of making. Each that still lives at its place is looked at, and it runs where
/// it is due. It tells whether one has run. Marked ones are passed over, and what is made meanwhile has a higher number.
///
/// # Errors
///
/// After `NoMemory` world and shelf may only be dropped.
pub fn turn(
    world: &mut World,
    shelf: &mut Shelf,
    rules: &[EqualsRule],
    events: &mut Vec<Event>,
) -> Result<bool, NoMemory>
    requires can { CanRun (scene world.old (⟦<Shelf as Lent>⟧.asked shelf.old) events.old.items) }
    requires ruled { AreRuled (length rules.now) world.old.graph.state.signals }
    requires counted { ⟦<Shelf as Lent>⟧.counted shelf.old }
    ensures ran { (hosts : Hosts) → ⟦<Shelf as Lent>⟧.answers hosts shelf.old → IsSound hosts (⟦<Shelf as Lent>⟧.asked shelf.old) world.old →
        IfOk result (λ b. b ≡ (turn (environment hosts (map (λ r. r.slack) rules.now)) (whole_of (⟦<Shelf as Lent>⟧.asked shelf.old) world.old)).ran) }
    ensures done { OnOk result (Runs (map (λ r. r.slack) rules.now)
        (scene world.old (⟦<Shelf as Lent>⟧.asked shelf.old) events.old.items) (scene world.new (⟦<Shelf as Lent>⟧.asked shelf.new) events.new.items)
        (λ hosts. ⟦<Shelf as Lent>⟧.answers hosts shelf.old) (λ hosts. ⟦<Shelf as Lent>⟧.answers hosts shelf.new) (λ env w. (turn env w).world)) }
    ensures spent { OnOk result (Spends
        (scene world.old (⟦<Shelf as Lent>⟧.asked shelf.old) events.old.items) (scene world.new (⟦<Shelf as Lent>⟧.asked shelf.new) events.new.items)) }
    ensures counted { OnOk result (⟦<Shelf as Lent>⟧.counted shelf.new) }
{
    let bound = world.tables.effects_made;
    let mut ran = false;
    let mut place = 0;
    let mut low = 0;
    'visiting: while low < bound {
        place = next_loud(world, place, low);
        let Some(id) = id_below(&world.tables.effects, place, bound) else {
            return Ok(ran);
        };
        let due = visit(world, shelf, rules, id, place, events)?;
        ran = either(due, ran);
        low = id.number() + 1;
    }
    Ok(ran)
}

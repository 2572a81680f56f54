// A flush.
ghost use Rattle.std.specs.Prelude.{◌≡◌, ℕ, List, IfOk, OnOk, length, map};
ghost use Rattle.signal_model.specs.Recipes.{Hosts};
ghost use Rattle.effect_model.specs.Runs.{flush, last_look};
ghost use Rattle.effect_model.specs.Worlds.{effect_numbers};
ghost use Rattle.sig_effect.specs.Stores.{environment, AreRuled};
ghost use Rattle.effect_world.specs.Signals.{scene};
ghost use Rattle.effect_world.specs.Stores.{IsSound};
ghost use Rattle.effect_world.specs.Wholes.{whole_of};
ghost use Rattle.effect_turns.specs.Runs.{CanRun, Runs, Spends};

use crate::glance::glance;
use crate::turns::{numbers, turn};
use effect_world::World;
use sig_base::{EffectId, NoMemory};
use sig_effect::Event;
use sig_host::{EqualsRule, Lent, Shelf};

/// The most turns of a flush.
pub const MOST_TURNS: u32 = 100;

/// How a flush ended: how many turns ran an effect, and whether one is due after the last turn that there may be.
#[derive(Clone, Copy)]
pub struct FlushEnd {
    pub turns: u32,
    pub refused: bool,
}

// Looks at the effects of these numbers, one after the other, up to the first that is due: whether one is.
fn glance_each(
    world: &mut World,
    shelf: &mut Shelf,
    ids: &[EffectId],
    events: &mut Vec<Event>,
) -> Result<bool, NoMemory>
    requires can { CanRun (scene world.old (⟦<Shelf as Lent>⟧.asked shelf.old) events.old.items) }
    requires counted { ⟦<Shelf as Lent>⟧.counted shelf.old }
    ensures due { (hosts : Hosts) (slacks : List ℕ) → ⟦<Shelf as Lent>⟧.answers hosts shelf.old → IsSound hosts (⟦<Shelf as Lent>⟧.asked shelf.old) world.old →
        IfOk result (λ b. b ≡ (last_look (environment hosts slacks) ids.now (whole_of (⟦<Shelf as Lent>⟧.asked shelf.old) world.old)).refused) }
    ensures done { (slacks : List ℕ) → OnOk result (Runs slacks
        (scene world.old (⟦<Shelf as Lent>⟧.asked shelf.old) events.old.items) (scene world.new (⟦<Shelf as Lent>⟧.asked shelf.new) events.new.items)
        (λ hosts. ⟦<Shelf as Lent>⟧.answers hosts shelf.old) (λ hosts. ⟦<Shelf as Lent>⟧.answers hosts shelf.new) (λ env w. (last_look env ids.now w).world)) }
    ensures spent { OnOk result (Spends
        (scene world.old (⟦<Shelf as Lent>⟧.asked shelf.old) events.old.items) (scene world.new (⟦<Shelf as Lent>⟧.asked shelf.new) events.new.items)) }
    ensures counted { OnOk result (⟦<Shelf as Lent>⟧.counted shelf.new) }
{
    let mut place: usize = 0;
    for id in ids {
        let due = glance(world, shelf, *id, place, events)?;
        if due {
            return Ok(true);
        }
        place = place.wrapping_add(1);
    }
    Ok(false)
}

// Looks at all effects that live, in the order of making, up to the first that is due: whether one is.
fn last_look(
    world: &mut World,
    shelf: &mut Shelf,
    events: &mut Vec<Event>,
) -> Result<bool, NoMemory>
    requires can { CanRun (scene world.old (⟦<Shelf as Lent>⟧.asked shelf.old) events.old.items) }
    requires counted { ⟦<Shelf as Lent>⟧.counted shelf.old }
    ensures due { (hosts : Hosts) (slacks : List ℕ) → ⟦<Shelf as Lent>⟧.answers hosts shelf.old → IsSound hosts (⟦<Shelf as Lent>⟧.asked shelf.old) world.old →
        IfOk result (λ b. b ≡ (last_look (environment hosts slacks) (effect_numbers (whole_of (⟦<Shelf as Lent>⟧.asked shelf.old) world.old).effects)
        (whole_of (⟦<Shelf as Lent>⟧.asked shelf.old) world.old)).refused) }
    ensures done { (slacks : List ℕ) → OnOk result (Runs slacks
        (scene world.old (⟦<Shelf as Lent>⟧.asked shelf.old) events.old.items) (scene world.new (⟦<Shelf as Lent>⟧.asked shelf.new) events.new.items)
        (λ hosts. ⟦<Shelf as Lent>⟧.answers hosts shelf.old) (λ hosts. ⟦<Shelf as Lent>⟧.answers hosts shelf.new)
        (λ env w. (last_look env (effect_numbers w.effects) w).world)) }
    ensures spent { OnOk result (Spends
        (scene world.old (⟦<Shelf as Lent>⟧.asked shelf.old) events.old.items) (scene world.new (⟦<Shelf as Lent>⟧.asked shelf.new) events.new.items)) }
    ensures counted { OnOk result (⟦<Shelf as Lent>⟧.counted shelf.new) }
{
    let ids = numbers(*events.allocator(), &world.tables.effects)?;
    let due = glance_each(world, shelf, &ids, events)?;
    Ok(due)
}

/// A flush: turns until one runs no effect, at most `MOST_TURNS`. After the last of so many the effects are looked at once more, up to the
/// first that is due, which makes the flush refused.
///
/// # Errors
///
/// After `NoMemory` world and shelf may only be dropped.
pub fn flush(
    world: &mut World,
    shelf: &mut Shelf,
    rules: &[EqualsRule],
    events: &mut Vec<Event>,
) -> Result<FlushEnd, NoMemory>
    requires can { CanRun (scene world.old (⟦<Shelf as Lent>⟧.asked shelf.old) events.old.items) }
    requires ruled { AreRuled (length rules.now) world.old.graph.state.signals }
    requires counted { ⟦<Shelf as Lent>⟧.counted shelf.old }
    ensures ends { (hosts : Hosts) → ⟦<Shelf as Lent>⟧.answers hosts shelf.old → IsSound hosts (⟦<Shelf as Lent>⟧.asked shelf.old) world.old →
        IfOk result (λ f. (f.turns ≡ (flush (environment hosts (map (λ r. r.slack) rules.now)) (whole_of (⟦<Shelf as Lent>⟧.asked shelf.old) world.old)).turns)
        × (f.refused ≡ (flush (environment hosts (map (λ r. r.slack) rules.now)) (whole_of (⟦<Shelf as Lent>⟧.asked shelf.old) world.old)).refused)) }
    ensures done { OnOk result (Runs (map (λ r. r.slack) rules.now)
        (scene world.old (⟦<Shelf as Lent>⟧.asked shelf.old) events.old.items) (scene world.new (⟦<Shelf as Lent>⟧.asked shelf.new) events.new.items)
        (λ hosts. ⟦<Shelf as Lent>⟧.answers hosts shelf.old) (λ hosts. ⟦<Shelf as Lent>⟧.answers hosts shelf.new) (λ env w. (flush env w).world)) }
    ensures spent { OnOk result (Spends
        (scene world.old (⟦<Shelf as Lent>⟧.asked shelf.old) events.old.items) (scene world.new (⟦<Shelf as Lent>⟧.asked shelf.new) events.new.items)) }
    ensures counted { OnOk result (⟦<Shelf as Lent>⟧.counted shelf.new) }
{
    let mut turns = 0;
    'turning: while turns < MOST_TURNS {
        let ran = turn(world, shelf, rules, events)?;
        if !ran {
            return Ok(FlushEnd {
                turns,
                refused: false,
            });
        }
        turns += 1;
    }
    let refused = last_look(world, shelf, events)?;
    Ok(FlushEnd { turns, refused })
}

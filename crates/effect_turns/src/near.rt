// An effect at the place where it is expected.
ghost use Rattle.std.specs.Prelude.{◌≡◌, ◌<◌, None, Some, IfNone, IfSome, IsFalse, IsTrue, length, map, slice_get};
ghost use Rattle.effect_model.specs.Worlds.{effect_at};
ghost use Rattle.effect_tables.specs.Consistency.{AreRising, TablesAgree};
ghost use Rattle.effect_tables.specs.Placed.{effect_of};
ghost use Rattle.effect_turns.specs.Stills.{AllLower, IsLower, NoneLower, Parts, StandsAt};

use effect_tables::{Effect, Tables, effect_at};
use sig_base::EffectId;

/// The effect at a place, where it has this number.
pub(crate) fn effect_here(effects: &[Effect], place: usize, id: EffectId) -> Option<&Effect>
    requires { AreRising 0 effects.now }
    ensures lives { IfSome result (λ x. effect_at id (map effect_of effects.now) ≡ Some (effect_of x.now)) }
    ensures place { IfSome result (λ x. slice_get (map effect_of effects.now) place ≡ Some (effect_of x.now)) }
{
    if place >= effects.len() {
        return None;
    }
    let effect = &effects[place];
    if id == effect.id {
        return Some(effect);
    }
    None
}

/// The number of the effect at a place, where it is lower than a bound.
pub(crate) fn id_below(effects: &[Effect], place: usize, bound: u64) -> Option<EffectId>
    ensures there { IfSome result (λ id. StandsAt id place effects.now) }
    ensures lower { IfSome result (λ id. id < bound) }
    ensures none { IfNone result (NoneLower bound place effects.now) }
{
    if place >= effects.len() {
        return None;
    }
    let id = effects[place].id;
    if id.number() < bound {
        return Some(id);
    }
    None
}

// Whether at a place stands an effect whose number is lower than this.
fn is_lower(effects: &[Effect], place: usize, low: u64) -> bool
    ensures within { IsTrue result → place < length effects.now }
    ensures lower { IsTrue result → IsLower low place effects.now }
    ensures higher { IsFalse result → NoneLower low place effects.now }
{
    if place >= effects.len() {
        return false;
    }
    effects[place].id.number() < low
}

// The place at or before another one that has lower numbers before it alone.
fn back(effects: &[Effect], from: usize, low: u64) -> usize
    requires { AreRising 0 effects.now }
    ensures { AllLower low result effects.now }
{
    let mut place = from;
    'back: while place > 0 {
        if is_lower(effects, place - 1, low) {
            return place;
        }
        place -= 1;
    }
    0
}

// The place at or behind another one at which the numbers that aren't lower begin.
fn onward(effects: &[Effect], from: usize, low: u64) -> usize
    requires rising { AreRising 0 effects.now }
    requires before { AllLower low from effects.now }
    ensures { Parts low result effects.now }
{
    let mut place = from;
    'onward: while is_lower(effects, place, low) {
        place += 1;
    }
    place
}

/// The place that parts the effects with lower numbers than this from the others. It is looked for from another place on, which is near it
/// where few effects have ended.
pub(crate) fn parting(effects: &[Effect], near: usize, low: u64) -> usize
    requires { AreRising 0 effects.now }
    ensures { Parts low result effects.now }
{
    let from = back(effects, near.min(effects.len()), low);
    onward(effects, from, low)
}

/// The effect of a number, where it lives. This place is looked at first; where it doesn't stand there, it is found by halves.
pub(crate) fn effect_near(tables: &Tables, place: usize, id: EffectId) -> Option<&Effect>
    requires { TablesAgree tables.now }
    ensures some { IfSome result (λ x. effect_at id (map effect_of tables.now.effects.items) ≡ Some (effect_of x.now)) }
    ensures none { IfNone result (effect_at id (map effect_of tables.now.effects.items) ≡ None) }
{
    match effect_here(&tables.effects, place, id) {
        Some(effect) => Some(effect),
        None => effect_at(tables, id),
    }
}

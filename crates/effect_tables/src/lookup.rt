// Effects that live, by their numbers.
ghost use Rattle.std.specs.Prelude.{◌≡◌, None, Some, IfNone, IfSome, map};
ghost use Rattle.effect_model.specs.Worlds.{effect_at};
ghost use Rattle.effect_tables.specs.Scripts.{IsFitted};
ghost use Rattle.effect_tables.specs.Consistency.{AreRising, TablesAgree};
ghost use Rattle.effect_tables.specs.Locations.{effect_place};
ghost use Rattle.effect_tables.specs.Placed.{effect_of};

use crate::effect::Effect;
use crate::tables::Tables;
use sig_base::EffectId;

// The place of an effect that stands at its own number, as each does where none has ended.
fn own_place(effects: &[Effect], id: EffectId) -> Option<usize>
    requires { AreRising 0 effects.now }
    ensures { IfSome result (λ place. effect_place id effects.now ≡ Some place) }
{
    let number = id.number();
    if number >= effects.len() as u64 {
        return None;
    }
    let place = number as usize;
    if id == effects[place].id {
        return Some(place);
    }
    None
}

// The place of the effect of a number. It is found by halves.
fn place_by_halves(effects: &[Effect], id: EffectId) -> Option<usize>
    requires { AreRising 0 effects.now }
    ensures { result ≡ effect_place id effects.now }
{
    match effects.binary_search_by_key(&id.number(), |effect| effect.id.number()) {
        Ok(place) => Some(place),
        Err(_) => None,
    }
}

/// The place of the effect of a number among these, whose numbers rise. Where it doesn't stand at its own number it is found by halves.
pub fn effect_place(effects: &[Effect], id: EffectId) -> Option<usize>
    requires { AreRising 0 effects.now }
    ensures { result ≡ effect_place id effects.now }
{
    match own_place(effects, id) {
        Some(place) => Some(place),
        None => place_by_halves(effects, id),
    }
}

/// The effect of a number, where it lives.
pub fn effect_at(tables: &Tables, id: EffectId) -> Option<&Effect>
    requires { TablesAgree tables.now }
    ensures some { IfSome result (λ x. effect_at id (map effect_of tables.now.effects.items) ≡ Some (effect_of x.now)) }
    ensures none { IfNone result (effect_at id (map effect_of tables.now.effects.items) ≡ None) }
    ensures fitted { IfSome result (λ x. IsFitted x.now) }
{
    let place = effect_place(&tables.effects, id)?;
    Some(&tables.effects[place])
}

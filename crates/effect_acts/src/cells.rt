// An effect changes signals.
ghost use Rattle.std.specs.Prelude.{◌≡◌, ◌<◌, ◌^◌, List, IfOk, OnOk, length, map, slice_get};
ghost use Rattle.sig_base.specs.Values.{scalar_value};
ghost use Rattle.effect_model.specs.Acts.{set_cell};
ghost use Rattle.effect_tables.specs.Bodies.{signal_number, target_thing};
ghost use Rattle.sig_host.specs.Hosts.{HostPlace};
ghost use Rattle.sig_effect.specs.Stores.{AreRuled};
ghost use Rattle.effect_world.specs.Signals.{any_hosts, scene};
ghost use Rattle.effect_world.specs.Stores.{Agrees};
ghost use Rattle.effect_world.specs.Answers.{Acted};

use crate::changes::cell_at;
use effect_tables::Target;
use effect_world::World;
use sig_base::{EffectId, NoMemory, Scalar, Value};
use sig_effect::Event;
use sig_host::EqualsRule;

// The value that a scalar is.
fn value_like(scalar: &Scalar) -> Result<Value, NoMemory>
    ensures { IfOk result (λ v. v ≡ scalar_value scalar.now) }
{
    let scalar = scalar.copy()?;
    Ok(Value::from(scalar))
}

/// Gives the cell of a place a scalar, unless its equality calls it the same as the value that it has. What is gone is told as refused, and
/// a computed is left as it is.
///
/// # Errors
///
/// After `NoMemory` the world may only be dropped.
pub fn set(
    world: &mut World,
    rules: &[EqualsRule],
    origin: EffectId,
    targets: &[Target],
    place: u32,
    scalar: &Scalar,
    events: &mut Vec<Event>,
) -> Result<(), NoMemory>
    requires ruled { AreRuled (length rules.now) world.old.graph.state.signals }
    requires worn { world.old.graph.state.worn < 2 ^ 127 }
    ensures done { (asked : List HostPlace) → Agrees asked world.old → OnOk result (Acted (map (λ r. r.slack) rules.now)
        (scene world.old asked events.old.items) (scene world.new asked events.new.items) any_hosts any_hosts 1
        (λ env. set_cell env (signal_number (target_thing origin (slice_get targets.now place))) (scalar_value scalar.now))) }
    ensures tables { (asked : List HostPlace) → Agrees asked world.old → OnOk result (world.new.tables ≡ world.old.tables) }
{
    let cell = cell_at(origin, targets, place);
    let value = value_like(scalar)?;
    world.set_signal(rules, cell, value, events)?;
    Ok(())
}

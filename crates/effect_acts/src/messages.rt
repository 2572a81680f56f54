// What an effect says.
ghost use Rattle.std.specs.Prelude.{ℕ, List, OnOk};
ghost use Rattle.effect_model.specs.Worlds.{failed, logged, tell};
ghost use Rattle.sig_host.specs.Hosts.{HostPlace};
ghost use Rattle.effect_world.specs.Signals.{any_hosts, scene};
ghost use Rattle.effect_world.specs.Stores.{Agrees};
ghost use Rattle.effect_world.specs.Answers.{Acted};

use effect_world::World;
use sig_base::{EffectId, Fault, NoMemory, Value};
use sig_effect::Event;

/// Logs a copy of a value.
///
/// # Errors
///
/// `NoMemory` where memory ran out; then the events may only be dropped.
pub fn log(world: &World, value: &Value, events: &mut Vec<Event>) -> Result<(), NoMemory>
    ensures { (asked : List HostPlace) (slacks : List ℕ) → Agrees asked world.now → OnOk result
        (Acted slacks (scene world.now asked events.old.items) (scene world.now asked events.new.items) any_hosts any_hosts 0 (λ env. tell (logged value.now))) }
{
    let copied = value.copy()?;
    events.push(Event::Log(copied))?;
    Ok(())
}

/// Tells that the body of an effect failed.
///
/// # Errors
///
/// `NoMemory` where memory ran out; then the events may only be dropped.
pub fn fail(
    world: &World,
    id: EffectId,
    fault: Fault,
    events: &mut Vec<Event>,
) -> Result<(), NoMemory>
    ensures { (asked : List HostPlace) (slacks : List ℕ) → Agrees asked world.now → OnOk result
        (Acted slacks (scene world.now asked events.old.items) (scene world.now asked events.new.items) any_hosts any_hosts 0 (λ env. tell (failed id fault))) }
{
    events.push(Event::Fail(id, fault))?;
    Ok(())
}

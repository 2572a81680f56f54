// The acts of a body that belongs to no effect.
ghost use Rattle.std.specs.Prelude.{◌≡◌, ◌<◌, ◌^◌, List, OnOk, length, map};
ghost use Rattle.effect_world.specs.Answers.{Acted};
ghost use Rattle.effect_acts.specs.Alone.{AreCells};
ghost use Rattle.effect_model.specs.Alone.{act_alone};
ghost use Rattle.effect_world.specs.Signals.{any_hosts, scene};
ghost use Rattle.effect_world.specs.Stores.{Agrees};
ghost use Rattle.sig_effect.specs.Stores.{AreRuled};
ghost use Rattle.sig_host.specs.Hosts.{HostPlace};
ghost use Rattle.sig_untrack.specs.Links.{Parts, act_of};

use crate::cells::set;
use crate::messages::log;
use effect_tables::Target;
use effect_world::World;
use sig_base::{EffectId, NoMemory};
use sig_effect::Event;
use sig_host::EqualsRule;
use sig_untrack::Act;

/// Does one act of a body that belongs to no effect, whose targets these are: a cell is set, or a value is logged. Anything else does nothing.
///
/// # Errors
///
/// After `NoMemory` the world may only be dropped.
pub fn do_alone(
    world: &mut World,
    rules: &[EqualsRule],
    targets: &[Target],
    act: &Act,
    events: &mut Vec<Event>,
) -> Result<(), NoMemory>
    requires ruled { AreRuled (length rules.now) world.old.graph.state.signals }
    requires worn { world.old.graph.state.worn < 2 ^ 127 }
    ensures done { (asked : List HostPlace) (p : Parts) → Agrees asked world.old → AreCells p targets.now → OnOk result (Acted (map (λ r. r.slack) rules.now)
        (scene world.old asked events.old.items) (scene world.new asked events.new.items) any_hosts any_hosts 1 (λ env. act_alone env (act_of p act.now))) }
    ensures tables { (asked : List HostPlace) → Agrees asked world.old → OnOk result (world.new.tables ≡ world.old.tables) }
{
    match act {
        Act::Set(target, scalar) => {
            set(
                world,
                rules,
                EffectId::of(0),
                targets,
                *target,
                scalar,
                events,
            )?;
            Ok(())
        }
        Act::Log(value) => {
            log(world, value, events)?;
            Ok(())
        }
        Act::CleanupSet(_, _) => Ok(()),
        Act::CleanupLog(_) => Ok(()),
        Act::Effect(_) => Ok(()),
        Act::Dispose(_) => Ok(()),
        Act::Rewire(_) => Ok(()),
    }
}

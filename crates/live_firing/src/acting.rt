// The acts of handlers.
ghost use Rattle.std.specs.Prelude.{◌+◌, ◌*◌, ◌<◌, ◌^◌, List, OnOk, length, map};
ghost use Rattle.effect_runs.specs.Evaluations.{result_of, IsShort};
ghost use Rattle.effect_tables.specs.declared.effect.TheConstants.{MOST_STATEMENTS};
ghost use Rattle.effect_acts.specs.Alone.{AreCells};
ghost use Rattle.effect_world.specs.Costs.{weight};
ghost use Rattle.effect_world.specs.Signals.{any_hosts};
ghost use Rattle.effect_world.specs.Stores.{Agrees};
ghost use Rattle.live_firing.specs.Stages.{stage, AreTogether, Plays};
ghost use Rattle.live_model.specs.Machine.{acting, acting_once, ending};
ghost use Rattle.sig_effect.specs.Stores.{AreRuled};
ghost use Rattle.sig_host.specs.Hosts.{HostPlace};
ghost use Rattle.sig_untrack.specs.Links.{Parts, act_of};

use crate::telling::{tell_behind, tell_fault};
use effect_acts::do_alone;
use effect_runs::BodyEnd;
use effect_tables::Target;
use effect_world::World;
use live_entries::Entry;
use live_labels::Labels;
use live_why::Recorder;
use sig_base::{Name, NoMemory};
use sig_effect::Event;
use sig_host::EqualsRule;
use sig_untrack::Act;

// Does one act of a handler, and tells it.
fn act_once(
    world: &mut World,
    labels: &mut Labels,
    journal: &mut Option<Recorder>,
    rules: &[EqualsRule],
    targets: &[Target],
    act: &Act,
    events: &mut Vec<Event>,
    told: &mut Vec<Entry>,
) -> Result<(), NoMemory>
    requires together { AreTogether world.old }
    requires ruled { AreRuled (length rules.now) world.old.graph.state.signals }
    requires worn { weight world.old < 2 ^ 126 }
    ensures { (asked : List HostPlace) (p : Parts) → Agrees asked world.old → AreCells p targets.now → OnOk result (Plays (map (λ r. r.slack) rules.now)
        (stage world.old asked labels.old journal.old events.old.items told.old.items) (stage world.new asked labels.new journal.new events.new.items told.new.items)
        any_hosts any_hosts 1 (λ env m. acting_once env m (act_of p act.now))) }
{
    let count = events.len();
    do_alone(world, rules, targets, act, events)?;
    tell_behind(labels, journal, events.as_slice(), count, told)?;
    Ok(())
}

// Does acts of a handler, one after the other.
fn act_in_order(
    world: &mut World,
    labels: &mut Labels,
    journal: &mut Option<Recorder>,
    rules: &[EqualsRule],
    targets: &[Target],
    acts: &[Act],
    events: &mut Vec<Event>,
    told: &mut Vec<Entry>,
) -> Result<(), NoMemory>
    requires together { AreTogether world.old }
    requires ruled { AreRuled (length rules.now) world.old.graph.state.signals }
    requires worn { weight world.old + length acts.now < 2 ^ 125 + 128 * length events.old.items }
    ensures { (asked : List HostPlace) (p : Parts) → Agrees asked world.old → AreCells p targets.now → OnOk result (Plays (map (λ r. r.slack) rules.now)
        (stage world.old asked labels.old journal.old events.old.items told.old.items) (stage world.new asked labels.new journal.new events.new.items told.new.items)
        any_hosts any_hosts (length acts.now) (λ env m. acting env m (map (act_of p) acts.now))) }
{
    let Some((act, acts)) = acts.split_first() else {
        return Ok(());
    };
    let _count = events.len();
    act_once(world, labels, journal, rules, targets, act, events, told)?;
    act_in_order(world, labels, journal, rules, targets, acts, events, told)?;
    Ok(())
}

/// Does what a body wants done that runs at a node of a page, or tells that it failed there.
///
/// # Errors
///
/// After `NoMemory` all may only be dropped.
pub(crate) fn finish(
    world: &mut World,
    labels: &mut Labels,
    journal: &mut Option<Recorder>,
    rules: &[EqualsRule],
    targets: &[Target],
    page: &Name,
    node: u64,
    end: &BodyEnd,
    events: &mut Vec<Event>,
    told: &mut Vec<Entry>,
) -> Result<(), NoMemory>
    requires together { AreTogether world.old }
    requires ruled { AreRuled (length rules.now) world.old.graph.state.signals }
    requires worn { weight world.old + 64 < 2 ^ 125 + 128 * length events.old.items }
    requires few { IsShort MOST_STATEMENTS end.now }
    ensures { (asked : List HostPlace) (p : Parts) → Agrees asked world.old → AreCells p targets.now → OnOk result (Plays (map (λ r. r.slack) rules.now)
        (stage world.old asked labels.old journal.old events.old.items told.old.items) (stage world.new asked labels.new journal.new events.new.items told.new.items)
        any_hosts any_hosts 64 (λ env m. ending env m page.now node (result_of p end.now))) }
{
    match end {
        BodyEnd::Fail(fault) => {
            tell_fault(told, page, node, *fault)?;
            Ok(())
        }
        BodyEnd::Acts(acts) => {
            act_in_order(world, labels, journal, rules, targets, acts, events, told)?;
            Ok(())
        }
    }
}

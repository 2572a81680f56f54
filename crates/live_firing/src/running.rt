// Handlers run, one after the other.
ghost use Rattle.std.specs.Prelude.{◌≡◌, ◌*◌, [], ℕ, List, OnOk, IfOk, length, map};
ghost use Rattle.std.specs.List.{AllByRecursion};
ghost use Rattle.signal_model.specs.Recipes.{Hosts};
ghost use Rattle.effect_model.specs.Bodies.{body_evaluation};
ghost use Rattle.effect_runs.specs.Evaluations.{result_of, IsShort};
ghost use Rattle.effect_tables.specs.Bodies.{body_of};
ghost use Rattle.effect_tables.specs.Scripts.{IsFitting};
ghost use Rattle.effect_tables.specs.declared.effect.TheConstants.{MOST_STATEMENTS};
ghost use Rattle.effect_teardown.specs.Sites.{parts_of};
ghost use Rattle.effect_world.specs.Stores.{IsSound};
ghost use Rattle.live_firing.specs.Stages.{handling_in, handlings_in, heard, stage, CanFire, HasPlayed, Plays};
ghost use Rattle.live_model.specs.Machine.{firing, running};
ghost use Rattle.sig_effect.specs.Stores.{AreRuled};

use crate::acting::finish;
use crate::telling::{tell_behind, tell_fired};
use effect_runs::BodyEnd;
use effect_tables::Script;
use effect_turns::hear_once;
use effect_world::World;
use event_model::Fired;
use live_entries::Entry;
use live_labels::Labels;
use live_why::Recorder;
use sig_base::{Name, NoMemory};
use sig_effect::Event;
use sig_host::{EqualsRule, Lent, Shelf};

// Settles what the body of a handler reads, and tells the runs. What it wants done, what was settled, and that the shelf's counts are right are
// told apart, as they need different things.
fn hear(
    world: &mut World,
    labels: &mut Labels,
    journal: &mut Option<Recorder>,
    shelf: &mut Shelf,
    script: &Script,
    events: &mut Vec<Event>,
    told: &mut Vec<Entry>,
) -> Result<BodyEnd, NoMemory>
    requires can { CanFire world.old (⟦<Shelf as Lent>⟧.asked shelf.old) events.old.items 1 }
    requires counted { ⟦<Shelf as Lent>⟧.counted shelf.old }
    requires fits { IsFitting script.now }
    ensures result { (hosts : Hosts) → ⟦<Shelf as Lent>⟧.answers hosts shelf.old → IsSound hosts (⟦<Shelf as Lent>⟧.asked shelf.old) world.old →
        IfOk result (λ e. result_of (parts_of 0 script.now []) e ≡ (body_evaluation hosts world.old.graph.state.signals (body_of 0 script.now [])).result) }
    ensures few { IfOk result (IsShort MOST_STATEMENTS) }
    ensures plays { (slacks : List ℕ) → OnOk result (Plays slacks
        (stage world.old (⟦<Shelf as Lent>⟧.asked shelf.old) labels.old journal.old events.old.items told.old.items)
        (stage world.new (⟦<Shelf as Lent>⟧.asked shelf.new) labels.new journal.new events.new.items told.new.items)
        (λ hosts. ⟦<Shelf as Lent>⟧.answers hosts shelf.old) (λ hosts. ⟦<Shelf as Lent>⟧.answers hosts shelf.new) 0 (heard (body_of 0 script.now []))) }
    ensures counted { OnOk result (⟦<Shelf as Lent>⟧.counted shelf.new) }
{
    let count = events.len();
    let end = hear_once(world, shelf, script, events)?;
    tell_behind(labels, journal, events.as_slice(), count, told)?;
    Ok(end)
}

// Runs a handler at a node of a page.
fn run_at(
    world: &mut World,
    labels: &mut Labels,
    journal: &mut Option<Recorder>,
    shelf: &mut Shelf,
    rules: &[EqualsRule],
    script: &Script,
    page: &Name,
    node: u64,
    events: &mut Vec<Event>,
    told: &mut Vec<Entry>,
) -> Result<(), NoMemory>
    requires can { CanFire world.old (⟦<Shelf as Lent>⟧.asked shelf.old) events.old.items 1 }
    requires ruled { AreRuled (length rules.now) world.old.graph.state.signals }
    requires counted { ⟦<Shelf as Lent>⟧.counted shelf.old }
    requires fits { IsFitting script.now }
    ensures plays { OnOk result (Plays (map (λ r. r.slack) rules.now)
        (stage world.old (⟦<Shelf as Lent>⟧.asked shelf.old) labels.old journal.old events.old.items told.old.items)
        (stage world.new (⟦<Shelf as Lent>⟧.asked shelf.new) labels.new journal.new events.new.items told.new.items)
        (λ hosts. ⟦<Shelf as Lent>⟧.answers hosts shelf.old) (λ hosts. ⟦<Shelf as Lent>⟧.answers hosts shelf.new) 64 (λ env m. running env m page.now (record { node = node; body = body_of 0 script.now [] }))) }
    ensures counted { OnOk result (⟦<Shelf as Lent>⟧.counted shelf.new) }
{
    let end = hear(world, labels, journal, shelf, script, events, told)?;
    tell_fired(told, page, node)?;
    let _count = events.len();
    finish(
        world,
        labels,
        journal,
        rules,
        &script.links.targets,
        page,
        node,
        &end,
        events,
        told,
    )?;
    Ok(())
}

// Runs the handler of a place there; where it has no body, that it runs is told alone.
fn run_one(
    world: &mut World,
    labels: &mut Labels,
    journal: &mut Option<Recorder>,
    shelf: &mut Shelf,
    rules: &[EqualsRule],
    scripts: &[Script],
    page: &Name,
    fired: Fired,
    events: &mut Vec<Event>,
    told: &mut Vec<Entry>,
) -> Result<(), NoMemory>
    requires can { CanFire world.old (⟦<Shelf as Lent>⟧.asked shelf.old) events.old.items 1 }
    requires ruled { AreRuled (length rules.now) world.old.graph.state.signals }
    requires counted { ⟦<Shelf as Lent>⟧.counted shelf.old }
    requires fits { AllByRecursion IsFitting scripts.now }
    ensures plays { OnOk result (Plays (map (λ r. r.slack) rules.now)
        (stage world.old (⟦<Shelf as Lent>⟧.asked shelf.old) labels.old journal.old events.old.items told.old.items)
        (stage world.new (⟦<Shelf as Lent>⟧.asked shelf.new) labels.new journal.new events.new.items told.new.items)
        (λ hosts. ⟦<Shelf as Lent>⟧.answers hosts shelf.old) (λ hosts. ⟦<Shelf as Lent>⟧.answers hosts shelf.new) 64 (λ env m. running env m page.now (handling_in scripts.now fired))) }
    ensures counted { OnOk result (⟦<Shelf as Lent>⟧.counted shelf.new) }
{
    let Some(script) = scripts.get(fired.handler) else {
        tell_fired(told, page, fired.node)?;
        return Ok(());
    };
    run_at(
        world, labels, journal, shelf, rules, script, page, fired.node, events, told,
    )?;
    Ok(())
}

// Runs handlers, one after the other.
fn run_in_order(
    world: &mut World,
    labels: &mut Labels,
    journal: &mut Option<Recorder>,
    shelf: &mut Shelf,
    rules: &[EqualsRule],
    scripts: &[Script],
    page: &Name,
    fired: &[Fired],
    events: &mut Vec<Event>,
    told: &mut Vec<Entry>,
) -> Result<(), NoMemory>
    requires can { CanFire world.old (⟦<Shelf as Lent>⟧.asked shelf.old) events.old.items (length fired.now) }
    requires ruled { AreRuled (length rules.now) world.old.graph.state.signals }
    requires counted { ⟦<Shelf as Lent>⟧.counted shelf.old }
    requires fits { AllByRecursion IsFitting scripts.now }
    ensures plays { OnOk result (Plays (map (λ r. r.slack) rules.now)
        (stage world.old (⟦<Shelf as Lent>⟧.asked shelf.old) labels.old journal.old events.old.items told.old.items)
        (stage world.new (⟦<Shelf as Lent>⟧.asked shelf.new) labels.new journal.new events.new.items told.new.items)
        (λ hosts. ⟦<Shelf as Lent>⟧.answers hosts shelf.old) (λ hosts. ⟦<Shelf as Lent>⟧.answers hosts shelf.new) (64 * length fired.now) (λ env m. firing env m page.now (handlings_in scripts.now fired.now))) }
    ensures counted { OnOk result (⟦<Shelf as Lent>⟧.counted shelf.new) }
{
    let Some((first, fired)) = fired.split_first() else {
        return Ok(());
    };
    run_one(
        world, labels, journal, shelf, rules, scripts, page, *first, events, told,
    )?;
    run_in_order(
        world, labels, journal, shelf, rules, scripts, page, fired, events, told,
    )?;
    Ok(())
}

/// Runs the handlers that were fired at nodes of a page, each by its place, one after the other: what its body reads is settled, with the runs
/// told, then it is told itself, and then its acts are done, or that it failed is told in their place. Nothing that it read is kept. Stores, rules
/// and scripts are asked for apart.
///
/// # Errors
///
/// After `NoMemory` all may only be dropped.
pub fn run_all(
    world: &mut World,
    labels: &mut Labels,
    journal: &mut Option<Recorder>,
    shelf: &mut Shelf,
    rules: &[EqualsRule],
    scripts: &[Script],
    page: &Name,
    fired: &[Fired],
    told: &mut Vec<Entry>,
) -> Result<(), NoMemory>
    requires can { CanFire world.old (⟦<Shelf as Lent>⟧.asked shelf.old) [] (length fired.now) }
    requires ruled { AreRuled (length rules.now) world.old.graph.state.signals }
    requires counted { ⟦<Shelf as Lent>⟧.counted shelf.old }
    requires fits { AllByRecursion IsFitting scripts.now }
    ensures plays { OnOk result (HasPlayed (map (λ r. r.slack) rules.now) (length fired.now)
        world.old (⟦<Shelf as Lent>⟧.asked shelf.old) labels.old journal.old told.old.items world.new (⟦<Shelf as Lent>⟧.asked shelf.new) labels.new journal.new told.new.items
        (λ hosts. ⟦<Shelf as Lent>⟧.answers hosts shelf.old) (λ hosts. ⟦<Shelf as Lent>⟧.answers hosts shelf.new)
        (λ env m. firing env m page.now (handlings_in scripts.now fired.now))) }
    ensures counted { OnOk result (⟦<Shelf as Lent>⟧.counted shelf.new) }
{
    let mut events = Vec::new(*told.allocator());
    run_in_order(
        world,
        labels,
        journal,
        shelf,
        rules,
        scripts,
        page,
        fired,
        &mut events,
        told,
    )?;
    let _count = events.len();
    Ok(())
}

// An effect runs.
ghost use Rattle.std.specs.Prelude.{◌≡◌, ◌<◌, ◌≤◌, ℕ, List, None, IfOk, IfSome, OnOk, length, map};
ghost use Rattle.std.specs.Rc.{rc_value};
ghost use Rattle.signal_model.specs.Recipes.{Hosts};
ghost use Rattle.signal_model.specs.Sound.{names_of};
ghost use Rattle.effect_model.specs.Acts.{take_back};
ghost use Rattle.effect_model.specs.Bodies.{body_evaluation};
ghost use Rattle.effect_model.specs.Owners.{the_effect};
ghost use Rattle.effect_model.specs.Runs.{do_result, run_body, run_effect};
ghost use Rattle.effect_model.specs.Worlds.{settle};
ghost use Rattle.effect_tables.specs.Scripts.{FitsNames, IsFitting};
ghost use Rattle.effect_tables.specs.Bodies.{body_of, no_body};
ghost use Rattle.effect_tables.specs.declared.links.Links.TheViews.{out-Links};
ghost use Rattle.effect_tables.specs.declared.effect.TheConstants.{MOST_STATEMENTS};
ghost use Rattle.effect_teardown.specs.Sites.{IsPart, parts_of};
ghost use Rattle.sig_host.specs.Hosts.{HostPlace};
ghost use Rattle.sig_untrack.specs.Links.{Parts};
ghost use Rattle.sig_untrack.specs.Stated.{before, no_bodies, statements_of};
ghost use Rattle.sig_effect.specs.Stores.{AreRuled};
ghost use Rattle.effect_runs.specs.Evaluations.{body_seen, result_of, IsRunOf, IsShort, LogsCell};
ghost use Rattle.effect_world.specs.Signals.{any_hosts, scene};
ghost use Rattle.effect_world.specs.Stores.{Agrees, AreOwned, IsSound};
ghost use Rattle.effect_turns.specs.Runs.{CanHear, CanRun, MayAct, Runs, Spends, Uses};
ghost use Rattle.effect_tables.specs.Visits.{rerun};

use effect_acts::{do_acts, fail, keep_one, keep_reads};
use effect_runs::{BodyEnd, BodyRun, LoggedCell, evaluate_body, logged_cell};
use effect_tables::{Links, Site, effect_at};
use effect_teardown::{body_at, links_at};
use effect_world::World;
use sig_base::{EffectId, NoMemory};
use sig_effect::{Event, tell_runs};
use sig_host::{EqualsRule, Lent, Shelf};
use sig_untrack::{Act, Body};

// Takes back what stands under an effect.
fn take_back(
    world: &mut World,
    shelf: &mut Shelf,
    rules: &[EqualsRule],
    id: EffectId,
    events: &mut Vec<Event>,
) -> Result<(), NoMemory>
    requires can { CanRun (scene world.old (⟦<Shelf as Lent>⟧.asked shelf.old) events.old.items) }
    requires ruled { AreRuled (length rules.now) world.old.graph.state.signals }
    requires counted { ⟦<Shelf as Lent>⟧.counted shelf.old }
    ensures done { OnOk result (Runs (map (λ r. r.slack) rules.now)
        (scene world.old (⟦<Shelf as Lent>⟧.asked shelf.old) events.old.items) (scene world.new (⟦<Shelf as Lent>⟧.asked shelf.new) events.new.items)
        (λ hosts. ⟦<Shelf as Lent>⟧.answers hosts shelf.old) (λ hosts. ⟦<Shelf as Lent>⟧.answers hosts shelf.new) (λ env. take_back env (the_effect id))) }
    ensures spent { OnOk result (Spends
        (scene world.old (⟦<Shelf as Lent>⟧.asked shelf.old) events.old.items) (scene world.new (⟦<Shelf as Lent>⟧.asked shelf.new) events.new.items)) }
    ensures counted { OnOk result (⟦<Shelf as Lent>⟧.counted shelf.new) }
{
    let _count = events.len();
    match world.take_back(shelf, rules, id, events) {
        Ok(()) => Ok(()),
        Err(_) => Err(NoMemory),
    }
}

/// Evaluates a body, and settles what it reads. What it comes to, what was settled, and how far events and counters came are told apart, as these
/// need different things.
///
/// # Errors
///
/// After `NoMemory` world and shelf may only be dropped.
pub(crate) fn evaluate(
    world: &mut World,
    shelf: &mut Shelf,
    body: &Body,
    links: &Links,
    events: &mut Vec<Event>,
) -> Result<BodyRun, NoMemory>
    requires can { CanHear (scene world.old (⟦<Shelf as Lent>⟧.asked shelf.old) events.old.items) }
    requires counted { ⟦<Shelf as Lent>⟧.counted shelf.old }
    requires fits { FitsNames (length (out-Links links.now).names.items) (statements_of (before body.now no_bodies)) }
    ensures run { (hosts : Hosts) (p : Parts) → ⟦<Shelf as Lent>⟧.answers hosts shelf.old → IsSound hosts (⟦<Shelf as Lent>⟧.asked shelf.old) world.old → IfOk result (IsRunOf p
        (body_evaluation hosts world.old.graph.state.signals (body_seen p body.now (out-Links links.now).names.items))) }
    ensures done { (slacks : List ℕ) (p : Parts) → OnOk result (Runs slacks
        (scene world.old (⟦<Shelf as Lent>⟧.asked shelf.old) events.old.items) (scene world.new (⟦<Shelf as Lent>⟧.asked shelf.new) events.new.items)
        (λ hosts. ⟦<Shelf as Lent>⟧.answers hosts shelf.old) (λ hosts. ⟦<Shelf as Lent>⟧.answers hosts shelf.new)
        (λ env. settle env (names_of (body_evaluation env.hosts world.old.graph.state.signals
        (body_seen p body.now (out-Links links.now).names.items)).reads))) }
    ensures tables { OnOk result (world.new.tables ≡ world.old.tables) }
    ensures told { OnOk result (length events.old.items ≤ length events.new.items) }
    ensures few { IfOk result (λ r. IsShort MOST_STATEMENTS r.end) }
    ensures spent { OnOk result (Spends
        (scene world.old (⟦<Shelf as Lent>⟧.asked shelf.old) events.old.items) (scene world.new (⟦<Shelf as Lent>⟧.asked shelf.new) events.new.items)) }
    ensures counted { OnOk result (⟦<Shelf as Lent>⟧.counted shelf.new) }
{
    let _count = events.len();
    let mut notes = Vec::new(*events.allocator());
    let run = evaluate_body(&mut world.graph, shelf, body, &links.names, &mut notes)?;
    tell_runs(events, notes)?;
    Ok(run)
}

// Does the acts that a body wants done, or tells that it failed.
fn finish(
    world: &mut World,
    shelf: &mut Shelf,
    rules: &[EqualsRule],
    id: EffectId,
    site: &Site,
    body: &Body,
    links: &Links,
    end: BodyEnd,
    events: &mut Vec<Event>,
) -> Result<(), NoMemory>
    requires may { MayAct (length rules.now) (scene world.old (⟦<Shelf as Lent>⟧.asked shelf.old) events.old.items) }
    requires counted { ⟦<Shelf as Lent>⟧.counted shelf.old }
    requires fits { IsFitting (rc_value site.now.script) }
    requires part { IsPart (rc_value site.now.script) site.now.path.items body.now links.now }
    requires few { IsShort MOST_STATEMENTS end }
    ensures done { OnOk result (Runs (map (λ r. r.slack) rules.now)
        (scene world.old (⟦<Shelf as Lent>⟧.asked shelf.old) events.old.items) (scene world.new (⟦<Shelf as Lent>⟧.asked shelf.new) events.new.items)
        (λ hosts. ⟦<Shelf as Lent>⟧.answers hosts shelf.old) (λ hosts. ⟦<Shelf as Lent>⟧.answers hosts shelf.new)
        (λ env. do_result env id (result_of (parts_of site.now.origin (rc_value site.now.script) site.now.path.items) end))) }
    ensures used { OnOk result (Uses
        (scene world.old (⟦<Shelf as Lent>⟧.asked shelf.old) events.old.items) (scene world.new (⟦<Shelf as Lent>⟧.asked shelf.new) events.new.items)
        MOST_STATEMENTS) }
    ensures counted { OnOk result (⟦<Shelf as Lent>⟧.counted shelf.new) }
{
    match end {
        BodyEnd::Fail(fault) => {
            fail(world, id, fault, events)?;
            Ok(())
        }
        BodyEnd::Acts(acts) => {
            do_acts(world, shelf, rules, id, site, body, links, &acts, events)?;
            Ok(())
        }
    }
}

// Evaluates the body of an effect, as it is asked, keeps what it read, tracked, and does what it wants done.
fn ask_part(
    world: &mut World,
    shelf: &mut Shelf,
    rules: &[EqualsRule],
    id: EffectId,
    site: &Site,
    body: &Body,
    links: &Links,
    events: &mut Vec<Event>,
) -> Result<(), NoMemory>
    requires can { CanRun (scene world.old (⟦<Shelf as Lent>⟧.asked shelf.old) events.old.items) }
    requires ruled { AreRuled (length rules.now) world.old.graph.state.signals }
    requires counted { ⟦<Shelf as Lent>⟧.counted shelf.old }
    requires fits { IsFitting (rc_value site.now.script) }
    requires part { IsPart (rc_value site.now.script) site.now.path.items body.now links.now }
    ensures done { OnOk result (Runs (map (λ r. r.slack) rules.now)
        (scene world.old (⟦<Shelf as Lent>⟧.asked shelf.old) events.old.items) (scene world.new (⟦<Shelf as Lent>⟧.asked shelf.new) events.new.items)
        (λ hosts. ⟦<Shelf as Lent>⟧.answers hosts shelf.old) (λ hosts. ⟦<Shelf as Lent>⟧.answers hosts shelf.new)
        (λ env w. run_body env id (body_evaluation env.hosts w.signals
        (body_of site.now.origin (rc_value site.now.script) site.now.path.items)) w)) }
    ensures spent { OnOk result (Spends
        (scene world.old (⟦<Shelf as Lent>⟧.asked shelf.old) events.old.items) (scene world.new (⟦<Shelf as Lent>⟧.asked shelf.new) events.new.items)) }
    ensures counted { OnOk result (⟦<Shelf as Lent>⟧.counted shelf.new) }
{
    let run = evaluate(world, shelf, body, links, events)?;
    let BodyRun { tracked, end } = run;
    keep_reads(world, id, tracked, events)?;
    let _count = events.len();
    finish(world, shelf, rules, id, site, body, links, end, events)?;
    Ok(())
}

// The cell that a body logs, where that is all that it does.
fn cell_of(world: &World, body: &Body, links: &Links) -> Result<Option<LoggedCell>, NoMemory>
    ensures { IfOk result (λ o. IfSome o (LogsCell world.now.graph.state.signals body.now (out-Links links.now).names.items)) }
{
    let cell = logged_cell(&world.graph, body, &links.names)?;
    Ok(cell)
}

// Runs an effect whose body logs a cell, and does nothing else: what it read is kept where the read before it stood, and no list of acts is made.
fn log_part(
    world: &mut World,
    shelf: &mut Shelf,
    rules: &[EqualsRule],
    id: EffectId,
    site: &Site,
    body: &Body,
    links: &Links,
    logged: LoggedCell,
    events: &mut Vec<Event>,
) -> Result<(), NoMemory>
    requires can { CanRun (scene world.old (⟦<Shelf as Lent>⟧.asked shelf.old) events.old.items) }
    requires ruled { AreRuled (length rules.now) world.old.graph.state.signals }
    requires counted { ⟦<Shelf as Lent>⟧.counted shelf.old }
    requires fits { IsFitting (rc_value site.now.script) }
    requires part { IsPart (rc_value site.now.script) site.now.path.items body.now links.now }
    requires logs { LogsCell world.old.graph.state.signals body.now (out-Links links.now).names.items logged }
    ensures done { OnOk result (Runs (map (λ r. r.slack) rules.now)
        (scene world.old (⟦<Shelf as Lent>⟧.asked shelf.old) events.old.items) (scene world.new (⟦<Shelf as Lent>⟧.asked shelf.new) events.new.items)
        (λ hosts. ⟦<Shelf as Lent>⟧.answers hosts shelf.old) (λ hosts. ⟦<Shelf as Lent>⟧.answers hosts shelf.new)
        (λ env w. run_body env id (body_evaluation env.hosts w.signals
        (body_of site.now.origin (rc_value site.now.script) site.now.path.items)) w)) }
    ensures spent { OnOk result (Spends
        (scene world.old (⟦<Shelf as Lent>⟧.asked shelf.old) events.old.items) (scene world.new (⟦<Shelf as Lent>⟧.asked shelf.new) events.new.items)) }
    ensures counted { OnOk result (⟦<Shelf as Lent>⟧.counted shelf.new) }
{
    let LoggedCell { read, value } = logged;
    keep_one(world, id, read, events)?;
    let _count = events.len();
    let acts = [Act::Log(value)];
    do_acts(world, shelf, rules, id, site, body, links, &acts, events)?;
    Ok(())
}

// Runs the body of an effect: one that logs a cell as it stands, and each other one as it is asked.
fn run_part(
    world: &mut World,
    shelf: &mut Shelf,
    rules: &[EqualsRule],
    id: EffectId,
    site: &Site,
    body: &Body,
    links: &Links,
    events: &mut Vec<Event>,
) -> Result<(), NoMemory>
    requires can { CanRun (scene world.old (⟦<Shelf as Lent>⟧.asked shelf.old) events.old.items) }
    requires ruled { AreRuled (length rules.now) world.old.graph.state.signals }
    requires counted { ⟦<Shelf as Lent>⟧.counted shelf.old }
    requires fits { IsFitting (rc_value site.now.script) }
    requires part { IsPart (rc_value site.now.script) site.now.path.items body.now links.now }
    ensures done { OnOk result (Runs (map (λ r. r.slack) rules.now)
        (scene world.old (⟦<Shelf as Lent>⟧.asked shelf.old) events.old.items) (scene world.new (⟦<Shelf as Lent>⟧.asked shelf.new) events.new.items)
        (λ hosts. ⟦<Shelf as Lent>⟧.answers hosts shelf.old) (λ hosts. ⟦<Shelf as Lent>⟧.answers hosts shelf.new)
        (λ env w. run_body env id (body_evaluation env.hosts w.signals
        (body_of site.now.origin (rc_value site.now.script) site.now.path.items)) w)) }
    ensures spent { OnOk result (Spends
        (scene world.old (⟦<Shelf as Lent>⟧.asked shelf.old) events.old.items) (scene world.new (⟦<Shelf as Lent>⟧.asked shelf.new) events.new.items)) }
    ensures counted { OnOk result (⟦<Shelf as Lent>⟧.counted shelf.new) }
{
    let cell = cell_of(world, body, links)?;
    match cell {
        Some(logged) => {
            log_part(world, shelf, rules, id, site, body, links, logged, events)?;
            Ok(())
        }
        None => {
            ask_part(world, shelf, rules, id, site, body, links, events)?;
            Ok(())
        }
    }
}

// Runs an effect whose body has no statement.
fn run_nothing(world: &mut World, id: EffectId, events: &mut Vec<Event>) -> Result<(), NoMemory>
    requires { AreOwned world.old }
    ensures done { (slacks : List ℕ) (asked : List HostPlace) → Agrees asked world.old → OnOk result (Runs slacks
        (scene world.old asked events.old.items) (scene world.new asked events.new.items) any_hosts any_hosts
        (λ env w. run_body env id (body_evaluation env.hosts w.signals no_body) w)) }
    ensures spent { (asked : List HostPlace) → Agrees asked world.old → OnOk result (Spends
        (scene world.old asked events.old.items) (scene world.new asked events.new.items)) }
{
    let none = Vec::new(*events.allocator());
    keep_reads(world, id, none, events)?;
    Ok(())
}

// Runs the body to which the site of an effect leads.
fn run_on(
    world: &mut World,
    shelf: &mut Shelf,
    rules: &[EqualsRule],
    id: EffectId,
    site: &Site,
    events: &mut Vec<Event>,
) -> Result<(), NoMemory>
    requires can { CanRun (scene world.old (⟦<Shelf as Lent>⟧.asked shelf.old) events.old.items) }
    requires ruled { AreRuled (length rules.now) world.old.graph.state.signals }
    requires counted { ⟦<Shelf as Lent>⟧.counted shelf.old }
    requires fits { IsFitting (rc_value site.now.script) }
    ensures done { OnOk result (Runs (map (λ r. r.slack) rules.now)
        (scene world.old (⟦<Shelf as Lent>⟧.asked shelf.old) events.old.items) (scene world.new (⟦<Shelf as Lent>⟧.asked shelf.new) events.new.items)
        (λ hosts. ⟦<Shelf as Lent>⟧.answers hosts shelf.old) (λ hosts. ⟦<Shelf as Lent>⟧.answers hosts shelf.new)
        (λ env w. run_body env id (body_evaluation env.hosts w.signals
        (body_of site.now.origin (rc_value site.now.script) site.now.path.items)) w)) }
    ensures spent { OnOk result (Spends
        (scene world.old (⟦<Shelf as Lent>⟧.asked shelf.old) events.old.items) (scene world.new (⟦<Shelf as Lent>⟧.asked shelf.new) events.new.items)) }
    ensures counted { OnOk result (⟦<Shelf as Lent>⟧.counted shelf.new) }
{
    let Some(body) = body_at(&site.script.body, &site.path) else {
        run_nothing(world, id, events)?;
        return Ok(());
    };
    let Some(links) = links_at(&site.script.links, &site.path) else {
        run_nothing(world, id, events)?;
        return Ok(());
    };
    run_part(world, shelf, rules, id, site, body, links, events)?;
    Ok(())
}

// Runs an effect with its body.
fn run_at(
    world: &mut World,
    shelf: &mut Shelf,
    rules: &[EqualsRule],
    id: EffectId,
    site: &Site,
    events: &mut Vec<Event>,
) -> Result<(), NoMemory>
    requires can { CanRun (scene world.old (⟦<Shelf as Lent>⟧.asked shelf.old) events.old.items) }
    requires ruled { AreRuled (length rules.now) world.old.graph.state.signals }
    requires counted { ⟦<Shelf as Lent>⟧.counted shelf.old }
    requires fits { IsFitting (rc_value site.now.script) }
    ensures done { OnOk result (Runs (map (λ r. r.slack) rules.now)
        (scene world.old (⟦<Shelf as Lent>⟧.asked shelf.old) events.old.items) (scene world.new (⟦<Shelf as Lent>⟧.asked shelf.new) events.new.items)
        (λ hosts. ⟦<Shelf as Lent>⟧.answers hosts shelf.old) (λ hosts. ⟦<Shelf as Lent>⟧.answers hosts shelf.new)
        (λ env. run_effect env (record {
          number = id;
          body = body_of site.now.origin (rc_value site.now.script) site.now.path.items;
          kept = None;
        }))) }
    ensures spent { OnOk result (Spends
        (scene world.old (⟦<Shelf as Lent>⟧.asked shelf.old) events.old.items) (scene world.new (⟦<Shelf as Lent>⟧.asked shelf.new) events.new.items)) }
    ensures counted { OnOk result (⟦<Shelf as Lent>⟧.counted shelf.new) }
{
    take_back(world, shelf, rules, id, events)?;
    run_on(world, shelf, rules, id, site, events)?;
    Ok(())
}

/// Runs the effect of a number, where it lives. First what it made is taken back, the last made first. Then its body is evaluated, and the
/// signals that it reads are settled in order. Its tracked reads are kept, also where it fails; then its acts are done in order, each only
/// while it lives.
///
/// # Errors
///
/// After `NoMemory` world and shelf may only be dropped.
pub fn run_effect(
    world: &mut World,
    shelf: &mut Shelf,
    rules: &[EqualsRule],
    id: EffectId,
    events: &mut Vec<Event>,
) -> Result<(), NoMemory>
    requires can { CanRun (scene world.old (⟦<Shelf as Lent>⟧.asked shelf.old) events.old.items) }
    requires ruled { AreRuled (length rules.now) world.old.graph.state.signals }
    requires counted { ⟦<Shelf as Lent>⟧.counted shelf.old }
    ensures done { OnOk result (Runs (map (λ r. r.slack) rules.now)
        (scene world.old (⟦<Shelf as Lent>⟧.asked shelf.old) events.old.items) (scene world.new (⟦<Shelf as Lent>⟧.asked shelf.new) events.new.items)
        (λ hosts. ⟦<Shelf as Lent>⟧.answers hosts shelf.old) (λ hosts. ⟦<Shelf as Lent>⟧.answers hosts shelf.new) (λ env. rerun env id)) }
    ensures spent { OnOk result (Spends
        (scene world.old (⟦<Shelf as Lent>⟧.asked shelf.old) events.old.items) (scene world.new (⟦<Shelf as Lent>⟧.asked shelf.new) events.new.items)) }
    ensures counted { OnOk result (⟦<Shelf as Lent>⟧.counted shelf.new) }
{
    let Some(effect) = effect_at(&world.tables, id) else {
        return Ok(());
    };
    let number = effect.id;
    let site = effect.site(*events.allocator())?;
    run_at(world, shelf, rules, number, &site, events)?;
    Ok(())
}

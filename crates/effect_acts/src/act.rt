// The acts of a run.
ghost use Rattle.std.specs.Prelude.{◌<◌, ◌^◌, ℕ, List, OnOk, length, map, slice_get};
ghost use Rattle.std.specs.Rc.{rc_value};
ghost use Rattle.sig_base.specs.Values.{scalar_value};
ghost use Rattle.effect_model.specs.Bodies.{to_make, to_note};
ghost use Rattle.effect_model.specs.Owners.{logs, sets};
ghost use Rattle.effect_model.specs.Runs.{do_act};
ghost use Rattle.sig_untrack.specs.Links.{act_of};
ghost use Rattle.effect_tables.specs.Bodies.{signal_number, target_thing};
ghost use Rattle.effect_tables.specs.Scripts.{IsFitting};
ghost use Rattle.effect_tables.specs.declared.links.Links.TheViews.{out-Links};
ghost use Rattle.effect_teardown.specs.Sites.{IsPart, parts_of};
ghost use Rattle.sig_host.specs.Hosts.{HostPlace};
ghost use Rattle.sig_effect.specs.Stores.{AreRuled};
ghost use Rattle.effect_world.specs.Signals.{any_hosts, scene};
ghost use Rattle.effect_world.specs.Stores.{Agrees, AreOwned};
ghost use Rattle.effect_world.specs.Costs.{weight};
ghost use Rattle.effect_world.specs.Answers.{Acted};
ghost use Rattle.effect_acts.specs.Rewires.{rewire_meant};

use crate::cells::set;
use crate::changes::{Change, cell_at, change_at, thing_at};
use crate::children::make_child;
use crate::cleanups::note;
use crate::disposal::dispose;
use crate::messages::log;
use crate::recipes::rewire;
use effect_tables::{Links, Site};
use effect_world::World;
use sig_base::{EffectId, NoMemory, Scalar, Value};
use sig_effect::Event;
use sig_host::{EqualsRule, Lent, Shelf};
use sig_owner::CleanupAct;
use sig_untrack::{Act, Body};

// Notes a cleanup that sets the cell of a place, under an effect that lives.
fn note_set(
    world: &mut World,
    id: EffectId,
    site: &Site,
    links: &Links,
    target: u32,
    scalar: &Scalar,
    events: &mut Vec<Event>,
) -> Result<(), NoMemory>
    requires { AreOwned world.old }
    ensures { (asked : List HostPlace) (slacks : List ℕ) → Agrees asked world.old → OnOk result (Acted slacks
        (scene world.old asked events.old.items) (scene world.new asked events.new.items) any_hosts any_hosts 0
        (λ env. do_act env id 0 (to_note (sets
        (signal_number (target_thing site.now.origin (slice_get (out-Links links.now).targets.items target))) (scalar_value scalar.now))))) }
{
    let cell = cell_at(site.origin, &links.targets, target);
    let copied = scalar.copy()?;
    match note(world, id, CleanupAct::Set(cell, copied), events) {
        Ok(()) => Ok(()),
        Err(_) => Err(NoMemory),
    }
}

// Notes a cleanup that logs a value, under an effect that lives.
fn note_log(
    world: &mut World,
    id: EffectId,
    value: &Value,
    events: &mut Vec<Event>,
) -> Result<(), NoMemory>
    requires { AreOwned world.old }
    ensures { (asked : List HostPlace) (slacks : List ℕ) → Agrees asked world.old → OnOk result (Acted slacks
        (scene world.old asked events.old.items) (scene world.new asked events.new.items) any_hosts any_hosts 0
        (λ env. do_act env id 0 (to_note (logs value.now)))) }
{
    let copied = value.copy()?;
    match note(world, id, CleanupAct::Log(copied), events) {
        Ok(()) => Ok(()),
        Err(_) => Err(NoMemory),
    }
}

// Makes a child of an effect that lives.
fn make_there(
    world: &mut World,
    id: EffectId,
    site: &Site,
    place: u32,
    label: u64,
    events: &mut Vec<Event>,
) -> Result<(), NoMemory>
    requires owned { AreOwned world.old }
    requires fits { IsFitting (rc_value site.now.script) }
    ensures { (asked : List HostPlace) (slacks : List ℕ) → Agrees asked world.old → OnOk result (Acted slacks
        (scene world.old asked events.old.items) (scene world.new asked events.new.items) any_hosts any_hosts 0
        (λ env. do_act env id label (to_make ((parts_of site.now.origin (rc_value site.now.script) site.now.path.items).bodies place)))) }
{
    match make_child(world, id, site, place, label, events) {
        Ok(()) => Ok(()),
        Err(_) => Err(NoMemory),
    }
}

// Rewires as a place of the body says.
fn rewire_at(
    world: &mut World,
    shelf: &mut Shelf,
    site: &Site,
    body: &Body,
    links: &Links,
    place: u32,
    events: &mut Vec<Event>,
) -> Result<(), NoMemory>
    requires agrees { Agrees (⟦<Shelf as Lent>⟧.asked shelf.old) world.old }
    requires counted { ⟦<Shelf as Lent>⟧.counted shelf.old }
    requires worn { weight world.old < 2 ^ 126 }
    requires part { IsPart (rc_value site.now.script) site.now.path.items body.now links.now }
    requires fits { IsFitting (rc_value site.now.script) }
    ensures done { (slacks : List ℕ) → OnOk result (Acted slacks
        (scene world.old (⟦<Shelf as Lent>⟧.asked shelf.old) events.old.items) (scene world.new (⟦<Shelf as Lent>⟧.asked shelf.new) events.new.items)
        (λ hosts. ⟦<Shelf as Lent>⟧.answers hosts shelf.old) (λ hosts. ⟦<Shelf as Lent>⟧.answers hosts shelf.new) 1
        (λ env. rewire_meant ((parts_of site.now.origin (rc_value site.now.script) site.now.path.items).rewirings place))) }
    ensures counted { OnOk result (⟦<Shelf as Lent>⟧.counted shelf.new) }
{
    let alloc = *events.allocator();
    let change = change_at(
        alloc,
        site.origin,
        &links.targets,
        &body.rewires,
        &links.rewires,
        place,
    )?;
    let Change { id, recipe, slots } = change;
    rewire(world, shelf, id, recipe, slots, events)?;
    Ok(())
}

/// Does one act of an effect, whose body and links stand there; its next child would have this number in its label. What an act names that
/// is gone is told as refused.
///
/// # Errors
///
/// After `NoMemory` world and shelf may only be dropped.
pub fn do_act(
    world: &mut World,
    shelf: &mut Shelf,
    rules: &[EqualsRule],
    id: EffectId,
    site: &Site,
    body: &Body,
    links: &Links,
    label: u64,
    act: &Act,
    events: &mut Vec<Event>,
) -> Result<(), NoMemory>
    requires agrees { Agrees (⟦<Shelf as Lent>⟧.asked shelf.old) world.old }
    requires ruled { AreRuled (length rules.now) world.old.graph.state.signals }
    requires counted { ⟦<Shelf as Lent>⟧.counted shelf.old }
    requires worn { weight world.old < 2 ^ 126 }
    requires part { IsPart (rc_value site.now.script) site.now.path.items body.now links.now }
    requires fits { IsFitting (rc_value site.now.script) }
    ensures done { OnOk result (Acted (map (λ r. r.slack) rules.now)
        (scene world.old (⟦<Shelf as Lent>⟧.asked shelf.old) events.old.items) (scene world.new (⟦<Shelf as Lent>⟧.asked shelf.new) events.new.items)
        (λ hosts. ⟦<Shelf as Lent>⟧.answers hosts shelf.old) (λ hosts. ⟦<Shelf as Lent>⟧.answers hosts shelf.new) 1
        (λ env. do_act env id label (act_of (parts_of site.now.origin (rc_value site.now.script) site.now.path.items) act.now))) }
    ensures counted { OnOk result (⟦<Shelf as Lent>⟧.counted shelf.new) }
{
    match act {
        Act::Set(target, scalar) => {
            set(
                world,
                rules,
                site.origin,
                &links.targets,
                *target,
                scalar,
                events,
            )?;
            Ok(())
        }
        Act::Log(value) => {
            log(world, value, events)?;
            Ok(())
        }
        Act::CleanupSet(target, scalar) => {
            note_set(world, id, site, links, *target, scalar, events)?;
            Ok(())
        }
        Act::CleanupLog(value) => {
            note_log(world, id, value, events)?;
            Ok(())
        }
        Act::Effect(place) => {
            make_there(world, id, site, *place, label, events)?;
            Ok(())
        }
        Act::Dispose(target) => {
            let thing = thing_at(site.origin, &links.targets, *target);
            dispose(world, shelf, rules, thing, events)?;
            Ok(())
        }
        Act::Rewire(place) => {
            rewire_at(world, shelf, site, body, links, *place, events)?;
            Ok(())
        }
    }
}

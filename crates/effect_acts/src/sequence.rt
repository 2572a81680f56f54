// The acts of a run in order.
ghost use Rattle.std.specs.Prelude.{◌≡◌, ◌∷◌, [], ◌+◌, ◌<◌, ◌^◌, OnOk, length, map};
ghost use Rattle.std.specs.Rc.{rc_value};
ghost use Rattle.effect_model.specs.Runs.{do_acts, next_child};
ghost use Rattle.sig_untrack.specs.Links.{Parts, act_of, acts_of};
ghost use Rattle.effect_tables.specs.Scripts.{IsFitting};
ghost use Rattle.effect_teardown.specs.Sites.{IsPart, parts_of};
ghost use Rattle.sig_effect.specs.Stores.{AreRuled};
ghost use Rattle.effect_world.specs.Signals.{scene};
ghost use Rattle.effect_world.specs.Stores.{Agrees};
ghost use Rattle.effect_world.specs.Costs.{weight};
ghost use Rattle.effect_world.specs.Answers.{Acted};

use crate::act::do_act;
use effect_tables::{Links, Site};
use effect_teardown::effect_row;
use effect_world::World;
use sig_base::{EffectId, NoMemory};
use sig_effect::Event;
use sig_host::{EqualsRule, Lent, Shelf};
use sig_untrack::{Act, Body};

// The number in the label of the next child, after an act.
fn next_label(act: &Act, label: u64) -> u64
    requires { label + 1 < 2 ^ 64 }
    ensures { (p : Parts) → result ≡ next_child (act_of p act.now) label }
{
    match act {
        Act::Effect(_) => label + 1,
        _ => label,
    }
}

// Does one act, where the effect lives.
fn act_there(
    world: &mut World,
    shelf: &mut Shelf,
    rules: &[EqualsRule],
    id: EffectId,
    site: &Site,
    body: &Body,
    links: &Links,
    label: u64,
    act: &Act,
    events: &mut Vec<Event>,
) -> Result<(), NoMemory>
    requires agrees { Agrees (⟦<Shelf as Lent>⟧.asked shelf.old) world.old }
    requires ruled { AreRuled (length rules.now) world.old.graph.state.signals }
    requires counted { ⟦<Shelf as Lent>⟧.counted shelf.old }
    requires worn { weight world.old < 2 ^ 126 }
    requires part { IsPart (rc_value site.now.script) site.now.path.items body.now links.now }
    requires fits { IsFitting (rc_value site.now.script) }
    ensures done { OnOk result (Acted (map (λ r. r.slack) rules.now)
        (scene world.old (⟦<Shelf as Lent>⟧.asked shelf.old) events.old.items) (scene world.new (⟦<Shelf as Lent>⟧.asked shelf.new) events.new.items)
        (λ hosts. ⟦<Shelf as Lent>⟧.answers hosts shelf.old) (λ hosts. ⟦<Shelf as Lent>⟧.answers hosts shelf.new) 1
        (λ env. do_acts env id label (act_of (parts_of site.now.origin (rc_value site.now.script) site.now.path.items) act.now ∷ []))) }
    ensures counted { OnOk result (⟦<Shelf as Lent>⟧.counted shelf.new) }
{
    let Some(_row) = effect_row(&world.tables, id) else {
        return Ok(());
    };
    do_act(
        world, shelf, rules, id, site, body, links, label, act, events,
    )?;
    Ok(())
}

/// Does the acts of an effect, whose body and links stand there, in order and while the effect lives. Its children have the numbers from 1
/// on in their labels. What an act names that is gone is told as refused.
///
/// # Errors
///
/// After `NoMemory` world and shelf may only be dropped.
pub fn do_acts(
    world: &mut World,
    shelf: &mut Shelf,
    rules: &[EqualsRule],
    id: EffectId,
    site: &Site,
    body: &Body,
    links: &Links,
    acts: &[Act],
    events: &mut Vec<Event>,
) -> Result<(), NoMemory>
    requires agrees { Agrees (⟦<Shelf as Lent>⟧.asked shelf.old) world.old }
    requires ruled { AreRuled (length rules.now) world.old.graph.state.signals }
    requires counted { ⟦<Shelf as Lent>⟧.counted shelf.old }
    requires worn { weight world.old < 2 ^ 125 }
    requires part { IsPart (rc_value site.now.script) site.now.path.items body.now links.now }
    requires fits { IsFitting (rc_value site.now.script) }
    ensures done { OnOk result (Acted (map (λ r. r.slack) rules.now)
        (scene world.old (⟦<Shelf as Lent>⟧.asked shelf.old) events.old.items) (scene world.new (⟦<Shelf as Lent>⟧.asked shelf.new) events.new.items)
        (λ hosts. ⟦<Shelf as Lent>⟧.answers hosts shelf.old) (λ hosts. ⟦<Shelf as Lent>⟧.answers hosts shelf.new) (length acts.now)
        (λ env. do_acts env id 1 (acts_of (parts_of site.now.origin (rc_value site.now.script) site.now.path.items) acts.now))) }
    ensures counted { OnOk result (⟦<Shelf as Lent>⟧.counted shelf.new) }
{
    let mut label: u64 = 1;
    for act in acts {
        let _told = events.len();
        let next = next_label(act, label);
        act_there(
            world, shelf, rules, id, site, body, links, label, act, events,
        )?;
        label = next;
    }
    Ok(())
}

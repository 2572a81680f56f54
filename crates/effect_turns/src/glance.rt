// An effect is looked at.
ghost use Rattle.std.specs.Prelude.{◌≡◌, [], ℕ, List, IfOk, OnOk};
ghost use Rattle.signal_model.specs.Recipes.{Hosts};
ghost use Rattle.signal_model.specs.Values.{value_of};
ghost use Rattle.signal_model.specs.Kept.{AreKept};
ghost use Rattle.effect_model.specs.Runs.{is_effect_due, looked_names};
ghost use Rattle.effect_tables.specs.Placed.{effect_of};
ghost use Rattle.sig_effect.specs.Stores.{environment};
ghost use Rattle.sig_computed.specs.Scenes as settling;
ghost use Rattle.sig_computed.specs.Scenes.{CanSettle, Settles};
ghost use Rattle.effect_world.specs.Signals.{scene};
ghost use Rattle.effect_world.specs.Stores.{IsSound};
ghost use Rattle.effect_world.specs.Wholes.{whole_of};
ghost use Rattle.effect_turns.specs.Runs.{CanRun, Runs, Spends};
ghost use Rattle.effect_tables.specs.Visits.{glance, is_due};

use crate::near::effect_near;
use effect_tables::Effect;
use effect_world::World;
use sig_base::{EffectId, NoMemory};
use sig_computed::RunNote;
use sig_effect::{Event, tell_runs};
use sig_graph::Graph;
use sig_host::{Lent, Shelf};

// Settles what an effect keeps of its last run, up to the first that differs now: whether it is due.
fn look_at(
    graph: &mut Graph,
    shelf: &mut Shelf,
    effect: &Effect,
    notes: &mut Vec<RunNote>,
) -> Result<bool, NoMemory>
    requires can { CanSettle (settling.scene graph.old (⟦<Shelf as Lent>⟧.asked shelf.old) notes.old.items) }
    requires counted { ⟦<Shelf as Lent>⟧.counted shelf.old }
    ensures due { (hosts : Hosts) → ⟦<Shelf as Lent>⟧.answers hosts shelf.old → AreKept hosts graph.old.state.signals graph.old.state.memos →
        IfOk result (λ b. b ≡ is_effect_due (λ m. value_of hosts graph.old.state.signals m []) (effect_of effect.now).kept) }
    ensures after { OnOk result (Settles
        (settling.scene graph.old (⟦<Shelf as Lent>⟧.asked shelf.old) notes.old.items)
        (settling.scene graph.new (⟦<Shelf as Lent>⟧.asked shelf.new) notes.new.items)
        (λ hosts. ⟦<Shelf as Lent>⟧.answers hosts shelf.old) (λ hosts. ⟦<Shelf as Lent>⟧.answers hosts shelf.new)
        (λ hosts. looked_names (λ m. value_of hosts graph.old.state.signals m []) (effect_of effect.now).kept)) }
    ensures counted { OnOk result (⟦<Shelf as Lent>⟧.counted shelf.new) }
{
    match &effect.kept {
        Some(reads) => {
            let due = effect_runs::look(graph, shelf, Some(reads.as_slice()), notes)?;
            Ok(due)
        }
        None => {
            let due = effect_runs::look(graph, shelf, None, notes)?;
            Ok(due)
        }
    }
}

/// Looks at the effect of a number, which is looked for at a place first: whether it lives and is due. What it read, tracked, in its last run is
/// settled in order, up to the first that has another outcome now.
///
/// # Errors
///
/// After `NoMemory` world and shelf may only be dropped.
pub(crate) fn glance(
    world: &mut World,
    shelf: &mut Shelf,
    id: EffectId,
    place: usize,
    events: &mut Vec<Event>,
) -> Result<bool, NoMemory>
    requires can { CanRun (scene world.old (⟦<Shelf as Lent>⟧.asked shelf.old) events.old.items) }
    requires counted { ⟦<Shelf as Lent>⟧.counted shelf.old }
    ensures due { (hosts : Hosts) (slacks : List ℕ) → ⟦<Shelf as Lent>⟧.answers hosts shelf.old → IsSound hosts (⟦<Shelf as Lent>⟧.asked shelf.old) world.old →
        IfOk result (λ b. b ≡ is_due (environment hosts slacks) id (whole_of (⟦<Shelf as Lent>⟧.asked shelf.old) world.old)) }
    ensures done { (slacks : List ℕ) → OnOk result (Runs slacks
        (scene world.old (⟦<Shelf as Lent>⟧.asked shelf.old) events.old.items) (scene world.new (⟦<Shelf as Lent>⟧.asked shelf.new) events.new.items)
        (λ hosts. ⟦<Shelf as Lent>⟧.answers hosts shelf.old) (λ hosts. ⟦<Shelf as Lent>⟧.answers hosts shelf.new) (λ env. glance env id)) }
    ensures spent { OnOk result (Spends
        (scene world.old (⟦<Shelf as Lent>⟧.asked shelf.old) events.old.items) (scene world.new (⟦<Shelf as Lent>⟧.asked shelf.new) events.new.items)) }
    ensures counted { OnOk result (⟦<Shelf as Lent>⟧.counted shelf.new) }
{
    let _count = events.len();
    let mut notes = Vec::new(*events.allocator());
    let Some(effect) = effect_near(&world.tables, place, id) else {
        return Ok(false);
    };
    let due = look_at(&mut world.graph, shelf, effect, &mut notes)?;
    tell_runs(events, notes)?;
    Ok(due)
}

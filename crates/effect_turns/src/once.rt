// A body that belongs to no effect is evaluated once.
ghost use Rattle.std.specs.Prelude.{◌≡◌, ◌≤◌, [], ℕ, List, IfOk, OnOk, length};
ghost use Rattle.signal_model.specs.Recipes.{Hosts};
ghost use Rattle.signal_model.specs.Sound.{names_of};
ghost use Rattle.effect_model.specs.Bodies.{body_evaluation};
ghost use Rattle.effect_model.specs.Worlds.{settle};
ghost use Rattle.effect_tables.specs.Bodies.{body_of};
ghost use Rattle.effect_tables.specs.Scripts.{IsFitting};
ghost use Rattle.effect_tables.specs.declared.effect.TheConstants.{MOST_STATEMENTS};
ghost use Rattle.effect_teardown.specs.Sites.{parts_of};
ghost use Rattle.effect_runs.specs.Evaluations.{result_of, IsShort};
ghost use Rattle.effect_world.specs.Signals.{scene};
ghost use Rattle.effect_world.specs.Stores.{IsSound};
ghost use Rattle.effect_turns.specs.Runs.{CanHear, Runs, Spends};

use crate::run::evaluate;
use effect_runs::{BodyEnd, BodyRun};
use effect_tables::Script;
use effect_world::World;
use sig_base::NoMemory;
use sig_effect::Event;
use sig_host::{Lent, Shelf};

/// Evaluates a body that belongs to no effect, as that of an event's handler, and settles what it reads, in order. Nothing that it read is kept.
/// What it wants done, what was settled, how far counters came, and that the shelf's counts are right are told apart, as they need different
/// things.
///
/// # Errors
///
/// After `NoMemory` world and shelf may only be dropped.
pub fn hear_once(
    world: &mut World,
    shelf: &mut Shelf,
    script: &Script,
    events: &mut Vec<Event>,
) -> Result<BodyEnd, NoMemory>
    requires can { CanHear (scene world.old (⟦<Shelf as Lent>⟧.asked shelf.old) events.old.items) }
    requires counted { ⟦<Shelf as Lent>⟧.counted shelf.old }
    requires fits { IsFitting script.now }
    ensures result { (hosts : Hosts) → ⟦<Shelf as Lent>⟧.answers hosts shelf.old → IsSound hosts (⟦<Shelf as Lent>⟧.asked shelf.old) world.old →
        IfOk result (λ e. result_of (parts_of 0 script.now []) e ≡ (body_evaluation hosts world.old.graph.state.signals (body_of 0 script.now [])).result) }
    ensures few { IfOk result (IsShort MOST_STATEMENTS) }
    ensures done { (slacks : List ℕ) → OnOk result (Runs slacks
        (scene world.old (⟦<Shelf as Lent>⟧.asked shelf.old) events.old.items) (scene world.new (⟦<Shelf as Lent>⟧.asked shelf.new) events.new.items)
        (λ hosts. ⟦<Shelf as Lent>⟧.answers hosts shelf.old) (λ hosts. ⟦<Shelf as Lent>⟧.answers hosts shelf.new)
        (λ env w. settle env (names_of (body_evaluation env.hosts w.signals (body_of 0 script.now [])).reads) w)) }
    ensures tables { OnOk result (world.new.tables ≡ world.old.tables) }
    ensures told { OnOk result (length events.old.items ≤ length events.new.items) }
    ensures spent { OnOk result (Spends
        (scene world.old (⟦<Shelf as Lent>⟧.asked shelf.old) events.old.items) (scene world.new (⟦<Shelf as Lent>⟧.asked shelf.new) events.new.items)) }
    ensures counted { OnOk result (⟦<Shelf as Lent>⟧.counted shelf.new) }
{
    let run = evaluate(world, shelf, &script.body, &script.links, events)?;
    let BodyRun { tracked: _, end } = run;
    Ok(end)
}

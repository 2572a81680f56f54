// An effect disposes of things.
ghost use Rattle.std.specs.Prelude.{◌≡◌, ◌<◌, ◌^◌, OnOk, length, map};
ghost use Rattle.effect_model.specs.Acts.{dispose_thing};
ghost use Rattle.effect_tables.specs.Bodies.{thing_of};
ghost use Rattle.sig_effect.specs.Stores.{AreRuled};
ghost use Rattle.sig_effect.specs.declared.events.Event.TheVariants as event;
ghost use Rattle.effect_world.specs.Signals.{scene};
ghost use Rattle.effect_world.specs.Stores.{Agrees};
ghost use Rattle.effect_world.specs.Answers.{Acted};

use effect_tables::Thing;
use effect_world::World;
use sig_base::NoMemory;
use sig_effect::{EffectFault, Event};
use sig_host::{EqualsRule, Lent, Shelf};

// How it is told that a thing can't be disposed, since it is gone.
fn refusal(thing: &Thing) -> Event
    ensures { result ≡ event.RefusedGone thing.now }
{
    Event::RefusedGone(*thing)
}

/// Disposes a thing, with all that stands under it. One that is gone is told as refused.
///
/// # Errors
///
/// After `NoMemory` world and shelf may only be dropped.
pub fn dispose(
    world: &mut World,
    shelf: &mut Shelf,
    rules: &[EqualsRule],
    thing: Thing,
    events: &mut Vec<Event>,
) -> Result<(), NoMemory>
    requires agrees { Agrees (⟦<Shelf as Lent>⟧.asked shelf.old) world.old }
    requires ruled { AreRuled (length rules.now) world.old.graph.state.signals }
    requires counted { ⟦<Shelf as Lent>⟧.counted shelf.old }
    requires worn { world.old.graph.state.worn < 2 ^ 126 }
    ensures done { OnOk result (Acted (map (λ r. r.slack) rules.now)
        (scene world.old (⟦<Shelf as Lent>⟧.asked shelf.old) events.old.items) (scene world.new (⟦<Shelf as Lent>⟧.asked shelf.new) events.new.items)
        (λ hosts. ⟦<Shelf as Lent>⟧.answers hosts shelf.old) (λ hosts. ⟦<Shelf as Lent>⟧.answers hosts shelf.new)
        0 (λ env. dispose_thing env (thing_of thing))) }
    ensures counted { OnOk result (⟦<Shelf as Lent>⟧.counted shelf.new) }
{
    let refused = refusal(&thing);
    match world.dispose(shelf, rules, thing, events) {
        Ok(()) => Ok(()),
        Err(EffectFault::Gone) => {
            events.push(refused)?;
            Ok(())
        }
        Err(_) => Err(NoMemory),
    }
}

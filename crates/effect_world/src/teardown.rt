// Steps of teardowns are done.
ghost use Rattle.std.specs.Prelude.{◌≡◌, ◌+◌, ◌++◌, ◌∷◌, [], ◌<◌, ◌≤◌, ◌^◌, ℕ, true, false, List, OnOk, length, map};
ghost use Rattle.std.specs.List.{AllByRecursion};
ghost use Rattle.signal_model.specs.Signals.{is_there, standing, is_cell};
ghost use Rattle.effect_model.specs.Acts.{set_cell, undo, undo_all};
ghost use Rattle.effect_model.specs.Owners.{cleans, ends, the_effect, the_signal, the_watcher};
ghost use Rattle.effect_tables.specs.Bodies as tables;
ghost use Rattle.effect_tables.specs.Bodies.{undoing_of, undoings_of};
ghost use Rattle.effect_teardown.specs.Trees.{IsEffect};
ghost use Rattle.sig_host.specs.Hosts.{HostPlace};
ghost use Rattle.sig_graph.specs.States.{is_given};
ghost use Rattle.sig_owner.specs.Tables.{cleanup_of};
ghost use Rattle.sig_effect.specs.Stores as below;
ghost use Rattle.sig_effect.specs.Stores.{AreRuled};
ghost use Rattle.sig_effect.specs.Events.{AreNamed};
ghost use Rattle.sig_effect.specs.declared.events.Event.TheVariants as event;
ghost use Rattle.effect_world.specs.Signals.{any_hosts, scene, IsNoted, Undoes};
ghost use Rattle.effect_world.specs.Stores.{Agrees};
ghost use Rattle.effect_world.specs.Wholes.{stores_of};

use crate::world::World;
use effect_model::How;
use effect_tables::{Thing, Undoing};
use sig_base::{EffectId, NoMemory, NodeId, Value, WatcherId};
use sig_effect::{Event, drop_left, tell_change};
use sig_graph::Standing;
use sig_host::{EqualsRule, Lent, Shelf};
use sig_owner::CleanupAct;

// Tells that a thing is gone.
fn tell_gone(events: &mut Vec<Event>, thing: Thing) -> Result<(), NoMemory>
    ensures { OnOk result (events.new.items ≡ events.old.items ++ event.Gone thing ∷ []) }
{
    events.push(Event::Gone(thing))?;
    Ok(())
}

// The effect that a thing is.
fn effect_in(thing: &Thing) -> EffectId
    requires { IsEffect (tables.thing_of thing.now) }
    ensures { tables.thing_of thing.now ≡ the_effect result }
{
    match thing {
        Thing::Effect(id) => *id,
        Thing::Signal(_) => unreachable!(),
        Thing::Owner(_) => unreachable!(),
        Thing::Page(_) => unreachable!(),
        Thing::Watcher(_) => unreachable!(),
    }
}

impl World {
    /// Whether a signal lives.
    pub fn is_signal(&self, id: NodeId) -> bool
        ensures { result ≡ is_there (standing self.now.graph.state.signals id) }
    {
        match self.graph.standing(id) {
            Standing::Gone => false,
            Standing::Cell => true,
            Standing::Computed => true,
            Standing::Computing => true,
        }
    }

    /// Sets a cell. What is gone is told as refused, and a computed is left as it is.
    pub fn set_signal(
        &mut self,
        rules: &[EqualsRule],
        id: NodeId,
        value: Value,
        events: &mut Vec<Event>,
    ) -> Result<(), NoMemory>
        requires ruled { AreRuled (length rules.now) self.old.graph.state.signals }
        requires worn { self.old.graph.state.worn < 2 ^ 127 }
        ensures done { (asked : List HostPlace) → below.Agrees asked (stores_of self.old) → OnOk result (Undoes (map (λ r. r.slack) rules.now)
            (scene self.old asked events.old.items) (scene self.new asked events.new.items) any_hosts any_hosts 1
            (λ env. set_cell env id value)) }
        ensures told { OnOk result (length events.old.items ≤ length events.new.items) }
        ensures agrees { (asked : List HostPlace) → Agrees asked self.old → OnOk result (Agrees asked self.new) }
    {
        match self.graph.standing(id) {
            Standing::Gone => {
                events.push(Event::RefusedGone(Thing::Signal(id)))?;
                Ok(())
            }
            Standing::Cell => {
                self.set_there(rules, id, value, events)?;
                Ok(())
            }
            Standing::Computed => Ok(()),
            Standing::Computing => Ok(()),
        }
    }

    // Sets a cell that stands.
    fn set_there(
        &mut self,
        rules: &[EqualsRule],
        id: NodeId,
        value: Value,
        events: &mut Vec<Event>,
    ) -> Result<(), NoMemory>
        requires kind { is_cell (standing self.old.graph.state.signals id) ≡ true }
        requires ruled { AreRuled (length rules.now) self.old.graph.state.signals }
        requires worn { self.old.graph.state.worn < 2 ^ 127 }
        ensures done { (asked : List HostPlace) → below.Agrees asked (stores_of self.old) → OnOk result (Undoes (map (λ r. r.slack) rules.now)
            (scene self.old asked events.old.items) (scene self.new asked events.new.items) any_hosts any_hosts 1
            (λ env. set_cell env id value)) }
        ensures told { OnOk result (length events.old.items ≤ length events.new.items) }
        ensures agrees { (asked : List HostPlace) → Agrees asked self.old → OnOk result (Agrees asked self.new) }
    {
        match self.change_cell(rules, id, value, events) {
            Ok(_) => Ok(()),
            Err(_) => Err(NoMemory),
        }
    }

    // Does a cleanup of an effect.
    fn clean(
        &mut self,
        rules: &[EqualsRule],
        effect: EffectId,
        cleanup: &CleanupAct,
        events: &mut Vec<Event>,
    ) -> Result<(), NoMemory>
        requires ruled { AreRuled (length rules.now) self.old.graph.state.signals }
        requires worn { self.old.graph.state.worn < 2 ^ 127 }
        ensures told { OnOk result (length events.old.items + 1 ≤ length events.new.items) }
        ensures done { (asked : List HostPlace) → below.Agrees asked (stores_of self.old) → OnOk result (Undoes (map (λ r. r.slack) rules.now)
            (scene self.old asked events.old.items) (scene self.new asked events.new.items) any_hosts any_hosts 1
            (λ env. undo env (cleans (the_effect effect) (cleanup_of cleanup.now)))) }
    {
        events.push(Event::Cleanup(effect))?;
        match cleanup {
            CleanupAct::Set(cell, scalar) => {
                let scalar = scalar.copy()?;
                let value = Value::from(scalar);
                self.set_signal(rules, *cell, value, events)?;
                Ok(())
            }
            CleanupAct::Log(value) => {
                let value = value.copy()?;
                events.push(Event::Log(value))?;
                Ok(())
            }
        }
    }

    // Ends a signal. A computed that asks a host formula drops it first, and that is told with the number of its asks; a signal goes out
    // of all watchers, and its end is told as a change too. One that is gone is told as gone.
    fn end_signal(
        &mut self,
        shelf: &mut Shelf,
        id: NodeId,
        events: &mut Vec<Event>,
    ) -> Result<(), NoMemory>
        requires worn { self.old.graph.state.worn < 2 ^ 127 }
        requires agrees { below.Agrees (⟦<Shelf as Lent>⟧.asked shelf.old) (stores_of self.old) }
        requires counted { ⟦<Shelf as Lent>⟧.counted shelf.old }
        ensures done { (slacks : List ℕ) → OnOk result (Undoes slacks
            (scene self.old (⟦<Shelf as Lent>⟧.asked shelf.old) events.old.items) (scene self.new (⟦<Shelf as Lent>⟧.asked shelf.new) events.new.items)
            (λ hosts. ⟦<Shelf as Lent>⟧.answers hosts shelf.old) (λ hosts. ⟦<Shelf as Lent>⟧.answers hosts shelf.new) 1
            (λ env. undo env (ends (the_signal id)))) }
        ensures counted { OnOk result (⟦<Shelf as Lent>⟧.counted shelf.new) }
        ensures told { OnOk result (length events.old.items + 1 ≤ length events.new.items) }
        ensures named { is_given self.old.graph id ≡ true → AreNamed self.old.graph self.old.watchers.made events.old.items →
            OnOk result (AreNamed self.new.graph self.new.watchers.made events.new.items) }
    {
        match self.graph.dispose_node(id) {
            Ok(left) => {
                drop_left(shelf, left, events)?;
                self.watchers.forget(id);
                tell_change(events, id, How::Gone)?;
                tell_gone(events, Thing::Signal(id))?;
                Ok(())
            }
            Err(_) => {
                tell_gone(events, Thing::Signal(id))?;
                Ok(())
            }
        }
    }

    // Ends a watcher. One that is gone is told as gone.
    fn end_watcher(&mut self, id: WatcherId, events: &mut Vec<Event>) -> Result<(), NoMemory>
        ensures done { (slacks : List ℕ) (asked : List HostPlace) → below.Agrees asked (stores_of self.old) → OnOk result (Undoes slacks
            (scene self.old asked events.old.items) (scene self.new asked events.new.items) any_hosts any_hosts 1
            (λ env. undo env (ends (the_watcher id)))) }
        ensures told { OnOk result (length events.old.items + 1 ≤ length events.new.items) }
        ensures named { id < self.old.watchers.made → AreNamed self.old.graph self.old.watchers.made events.old.items →
            OnOk result (AreNamed self.new.graph self.new.watchers.made events.new.items) }
    {
        match self.watchers.remove(id) {
            Ok(()) => {
                tell_gone(events, Thing::Watcher(id))?;
                Ok(())
            }
            Err(_) => {
                tell_gone(events, Thing::Watcher(id))?;
                Ok(())
            }
        }
    }

    // Ends a thing as far as signals go, and tells of it.
    fn end_thing(
        &mut self,
        shelf: &mut Shelf,
        thing: &Thing,
        events: &mut Vec<Event>,
    ) -> Result<(), NoMemory>
        requires worn { self.old.graph.state.worn < 2 ^ 127 }
        requires agrees { below.Agrees (⟦<Shelf as Lent>⟧.asked shelf.old) (stores_of self.old) }
        requires counted { ⟦<Shelf as Lent>⟧.counted shelf.old }
        ensures done { (slacks : List ℕ) → OnOk result (Undoes slacks
            (scene self.old (⟦<Shelf as Lent>⟧.asked shelf.old) events.old.items) (scene self.new (⟦<Shelf as Lent>⟧.asked shelf.new) events.new.items)
            (λ hosts. ⟦<Shelf as Lent>⟧.answers hosts shelf.old) (λ hosts. ⟦<Shelf as Lent>⟧.answers hosts shelf.new) 1
            (λ env. undo env (ends (tables.thing_of thing.now)))) }
        ensures counted { OnOk result (⟦<Shelf as Lent>⟧.counted shelf.new) }
        ensures told { OnOk result (length events.old.items + 1 ≤ length events.new.items) }
    {
        match thing {
            Thing::Signal(id) => {
                self.end_signal(shelf, *id, events)?;
                Ok(())
            }
            Thing::Watcher(id) => {
                self.end_watcher(*id, events)?;
                Ok(())
            }
            Thing::Owner(id) => {
                tell_gone(events, Thing::Owner(*id))?;
                Ok(())
            }
            Thing::Effect(id) => {
                tell_gone(events, Thing::Effect(*id))?;
                Ok(())
            }
            Thing::Page(id) => {
                tell_gone(events, Thing::Page(*id))?;
                Ok(())
            }
        }
    }

    // Does one step of a teardown to the signals, and tells of it.
    fn undo(
        &mut self,
        shelf: &mut Shelf,
        rules: &[EqualsRule],
        undoing: &Undoing,
        events: &mut Vec<Event>,
    ) -> Result<(), NoMemory>
        requires noted { IsNoted undoing.now }
        requires ruled { AreRuled (length rules.now) self.old.graph.state.signals }
        requires worn { self.old.graph.state.worn < 2 ^ 127 }
        requires agrees { below.Agrees (⟦<Shelf as Lent>⟧.asked shelf.old) (stores_of self.old) }
        requires counted { ⟦<Shelf as Lent>⟧.counted shelf.old }
        ensures done { OnOk result (Undoes (map (λ r. r.slack) rules.now)
            (scene self.old (⟦<Shelf as Lent>⟧.asked shelf.old) events.old.items) (scene self.new (⟦<Shelf as Lent>⟧.asked shelf.new) events.new.items)
            (λ hosts. ⟦<Shelf as Lent>⟧.answers hosts shelf.old) (λ hosts. ⟦<Shelf as Lent>⟧.answers hosts shelf.new) 1
            (λ env. undo env (undoing_of undoing.now))) }
        ensures counted { OnOk result (⟦<Shelf as Lent>⟧.counted shelf.new) }
        ensures told { OnOk result (length events.old.items + 1 ≤ length events.new.items) }
    {
        match undoing {
            Undoing::Cleanup(thing, cleanup) => {
                let effect = effect_in(thing);
                self.clean(rules, effect, cleanup, events)?;
                Ok(())
            }
            Undoing::Gone(thing) => {
                self.end_thing(shelf, thing, events)?;
                Ok(())
            }
        }
    }

    /// Does the steps of a teardown to the signals, in order, and tells of each.
    pub(crate) fn undo_all(
        &mut self,
        shelf: &mut Shelf,
        rules: &[EqualsRule],
        undoings: &[Undoing],
        events: &mut Vec<Event>,
    ) -> Result<(), NoMemory>
        requires noted { AllByRecursion IsNoted undoings.now }
        requires ruled { AreRuled (length rules.now) self.old.graph.state.signals }
        requires worn { self.old.graph.state.worn + length undoings.now < 2 ^ 127 }
        requires agrees { below.Agrees (⟦<Shelf as Lent>⟧.asked shelf.old) (stores_of self.old) }
        requires counted { ⟦<Shelf as Lent>⟧.counted shelf.old }
        ensures done { OnOk result (Undoes (map (λ r. r.slack) rules.now)
            (scene self.old (⟦<Shelf as Lent>⟧.asked shelf.old) events.old.items) (scene self.new (⟦<Shelf as Lent>⟧.asked shelf.new) events.new.items)
            (λ hosts. ⟦<Shelf as Lent>⟧.answers hosts shelf.old) (λ hosts. ⟦<Shelf as Lent>⟧.answers hosts shelf.new) (length undoings.now)
            (λ env. undo_all env (undoings_of undoings.now))) }
        ensures counted { OnOk result (⟦<Shelf as Lent>⟧.counted shelf.new) }
        ensures told { OnOk result (length events.old.items + length undoings.now ≤ length events.new.items) }
    {
        for undoing in undoings {
            self.undo(shelf, rules, undoing, events)?;
        }
        Ok(())
    }
}

// Things end, with all that stands under them.
ghost use Rattle.std.specs.Prelude.{◌≡◌, ◌<◌, ◌^◌, true, OnOk, length, map};
ghost use Rattle.effect_model.specs.Acts as acts;
ghost use Rattle.effect_model.specs.Acts.{dispose_thing};
ghost use Rattle.effect_model.specs.Owners.{the_effect};
ghost use Rattle.effect_model.specs.Worlds.{lives};
ghost use Rattle.effect_tables.specs.Bodies.{thing_of};
ghost use Rattle.sig_effect.specs.Stores.{AreRuled};
ghost use Rattle.effect_world.specs.Signals.{is_standing};
ghost use Rattle.effect_world.specs.Stores.{Agrees};
ghost use Rattle.effect_world.specs.Wholes.{whole_of};
ghost use Rattle.effect_world.specs.Answers.{Acted, Refuses};
ghost use Rattle.effect_world.specs.Signals.{scene};

use crate::world::World;
use effect_tables::Thing;
use sig_base::EffectId;
use sig_effect::{EffectFault, Event};
use sig_host::{EqualsRule, Lent, Shelf};
use sig_owner::OwnFault;

impl World {
    // Whether a signal or a watcher lives; other things aren't looked at.
    fn is_standing(&self, thing: &Thing) -> bool
        ensures { result ≡ is_standing (thing_of thing.now) self.now }
    {
        match thing {
            Thing::Signal(id) => self.is_signal(*id),
            Thing::Watcher(id) => self.watchers.is_alive(*id),
            Thing::Owner(_) => true,
            Thing::Effect(_) => true,
            Thing::Page(_) => true,
        }
    }

    /// Disposes a thing: what stands under it is taken back, the last made first, and then it ends. Each cleanup on the way is done, and
    /// each thing that ends is told; a computed that asks a host formula drops it first.
    ///
    /// # Errors
    ///
    /// `Gone` where the thing is gone; then all is as before. After `NoMemory` world and shelf may only be dropped.
    pub fn dispose(
        &mut self,
        shelf: &mut Shelf,
        rules: &[EqualsRule],
        thing: Thing,
        events: &mut Vec<Event>,
    ) -> Result<(), EffectFault>
        requires agrees { Agrees (⟦<Shelf as Lent>⟧.asked shelf.old) self.old }
        requires ruled { AreRuled (length rules.now) self.old.graph.state.signals }
        requires counted { ⟦<Shelf as Lent>⟧.counted shelf.old }
        requires worn { self.old.graph.state.worn < 2 ^ 126 }
        ensures done { OnOk result (Acted (map (λ r. r.slack) rules.now)
            (scene self.old (⟦<Shelf as Lent>⟧.asked shelf.old) events.old.items) (scene self.new (⟦<Shelf as Lent>⟧.asked shelf.new) events.new.items)
            (λ hosts. ⟦<Shelf as Lent>⟧.answers hosts shelf.old) (λ hosts. ⟦<Shelf as Lent>⟧.answers hosts shelf.new) 0 (λ env. dispose_thing env (thing_of thing))) }
        ensures counted { OnOk result (⟦<Shelf as Lent>⟧.counted shelf.new) }
        ensures refuses { Refuses result (lives (thing_of thing) (whole_of (⟦<Shelf as Lent>⟧.asked shelf.old) self.old))
            ((self.new ≡ self.old) × (shelf.new ≡ shelf.old) × (events.new ≡ events.old)) }
    {
        if !self.is_standing(&thing) {
            return Err(EffectFault::Gone);
        }
        match effect_teardown::take_out(&mut self.tables, thing) {
            Ok(undoings) => {
                let _count = undoings.len();
                self.undo_all(shelf, rules, &undoings, events)?;
                self.heard.forget();
                Ok(())
            }
            Err(OwnFault::Gone) => Err(EffectFault::Gone),
            Err(_) => Err(EffectFault::NoMemory),
        }
    }

    /// Takes back what stands under an effect, the last made first, as a run of it begins. Each cleanup on the way is done, and each thing
    /// that ends is told.
    ///
    /// # Errors
    ///
    /// `Gone` where the effect is gone; then all is as before. After `NoMemory` world and shelf may only be dropped.
    pub fn take_back(
        &mut self,
        shelf: &mut Shelf,
        rules: &[EqualsRule],
        id: EffectId,
        events: &mut Vec<Event>,
    ) -> Result<(), EffectFault>
        requires agrees { Agrees (⟦<Shelf as Lent>⟧.asked shelf.old) self.old }
        requires ruled { AreRuled (length rules.now) self.old.graph.state.signals }
        requires counted { ⟦<Shelf as Lent>⟧.counted shelf.old }
        requires worn { self.old.graph.state.worn < 2 ^ 126 }
        ensures done { OnOk result (Acted (map (λ r. r.slack) rules.now)
            (scene self.old (⟦<Shelf as Lent>⟧.asked shelf.old) events.old.items) (scene self.new (⟦<Shelf as Lent>⟧.asked shelf.new) events.new.items)
            (λ hosts. ⟦<Shelf as Lent>⟧.answers hosts shelf.old) (λ hosts. ⟦<Shelf as Lent>⟧.answers hosts shelf.new) 0 (λ env. acts.take_back env (the_effect id))) }
        ensures counted { OnOk result (⟦<Shelf as Lent>⟧.counted shelf.new) }
        ensures refuses { Refuses result (lives (the_effect id) (whole_of (⟦<Shelf as Lent>⟧.asked shelf.old) self.old))
            ((self.new ≡ self.old) × (shelf.new ≡ shelf.old) × (events.new ≡ events.old)) }
    {
        match effect_teardown::take_back(&mut self.tables, id) {
            Ok(undoings) => {
                if undoings.is_empty() {
                    return Ok(());
                }
                let _count = undoings.len();
                self.undo_all(shelf, rules, &undoings, events)?;
                self.heard.forget();
                Ok(())
            }
            Err(OwnFault::Gone) => Err(EffectFault::Gone),
            Err(_) => Err(EffectFault::NoMemory),
        }
    }
}

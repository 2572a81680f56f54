// Changes that are collected while a batch is open: watchers are notified of them together, or they are given back.
ghost use Rattle.std.specs.Prelude.{◌≡◌, ◌<◌, ◌^◌, [], List, IfOk, OnOk, length, map};
ghost use Rattle.signal_model.specs.Recipes.{Hosts};
ghost use Rattle.signal_model.specs.Signals.{is_there, standing};
ghost use Rattle.effect_model.specs.Acts.{is_notified_by_any, notified_by_any, waiting_if};
ghost use Rattle.effect_model.specs.Batches.{abort, commit, set_quietly};
ghost use Rattle.sig_host.specs.Hosts.{HostPlace};
ghost use Rattle.sig_state.specs.Batches.{AreRuled as AreRuledIn, HasRoom};
ghost use Rattle.sig_state.specs.Equality.{is_alike_here};
ghost use Rattle.sig_effect.specs.Stores.{environment};
ghost use Rattle.sig_effect.specs.Answers.{is_same};
ghost use Rattle.sig_effect.specs.Events.{AreNamed};
ghost use Rattle.sig_effect.specs.Results.{AreNotices};
ghost use Rattle.sig_watcher.specs.Notices.{told_entry};
ghost use Rattle.sig_watcher.specs.Tables.{with_each};
ghost use Rattle.effect_world.specs.Stores.{Agrees, AreOwned, Does, IsSound};
ghost use Rattle.effect_world.specs.Answers.{CanSet, Changed, Collects, Refuses};

use crate::world::World;
use effect_model::How;
use sig_base::{NoMemory, NodeId, Value};
use sig_effect::{EffectFault, Event, tell_change, tell_notified, tell_values};
use sig_host::EqualsRule;
use sig_state::{Batch, Gone, SetDone, set_in};

impl World {
    /// Gives a cell a value while a batch is open, unless its equality calls it the same as the one that it has: the cell joins the batch
    /// with its value before. The change is told, and nobody is notified.
    ///
    /// # Errors
    ///
    /// `Gone` where the cell is gone; then all is as before. After `NoMemory` world and batch may only be dropped.
    pub fn set_in(
        &mut self,
        batch: &mut Batch,
        rules: &[EqualsRule],
        id: NodeId,
        value: Value,
        events: &mut Vec<Event>,
    ) -> Result<SetDone, EffectFault>
        requires can { CanSet (length rules.now) (standing self.old.graph.state.signals id) }
        requires worn { self.old.graph.state.worn < 2 ^ 127 }
        requires room { HasRoom id batch.old }
        ensures done { IfOk result (λ d. is_same d ≡ is_alike_here (map (λ r. r.slack) rules.now) (standing self.old.graph.state.signals id) value) }
        ensures changed { OnOk result (Changed (map (λ r. r.slack) rules.now)
            self.old self.new events.old.items events.new.items 1 (λ env. set_quietly env id value)) }
        ensures collects { OnOk result (Collects (map (λ r. r.slack) rules.now) (standing self.old.graph.state.signals id) id value batch.old batch.new) }
        ensures tables { self.new.tables ≡ self.old.tables }
        ensures refuses { Refuses result (is_there (standing self.old.graph.state.signals id))
            ((self.new ≡ self.old) × (batch.new ≡ batch.old) × (events.new ≡ events.old)) }
    {
        let _made = self.graph.made();
        match set_in(batch, &mut self.graph, rules, id, value) {
            Ok(SetDone::Accepted) => {
                self.heard.wake(id);
                tell_change(events, id, How::Set)?;
                Ok(SetDone::Accepted)
            }
            Ok(SetDone::Same) => Ok(SetDone::Same),
            Err(Gone) => Err(EffectFault::Gone),
        }
    }

    /// Tells of the changes of a batch that ends: of the cells whose value as it began and present value are unlike by their equality the
    /// watchers are notified together, each once and in the order of making; those whose notification tried a command are told behind
    /// them, all at once.
    ///
    /// # Errors
    ///
    /// `NoMemory` alone; then the world may only be dropped.
    pub fn commit(
        &mut self,
        batch: &Batch,
        rules: &[EqualsRule],
        events: &mut Vec<Event>,
    ) -> Result<(), NoMemory>
        requires owned { AreOwned self.old }
        requires ruled { AreRuledIn (length rules.now) self.old.graph.state.signals batch.now.changed }
        ensures does { (hosts : Hosts) (asked : List HostPlace) → IsSound hosts asked self.old →
            OnOk result (Does hosts asked asked self.old self.new events.old.items events.new.items
            (commit (environment hosts (map (λ r. r.slack) rules.now)) batch.now.changed)) }
        ensures agrees { (asked : List HostPlace) → Agrees asked self.old → OnOk result (Agrees asked self.new) }
        ensures graph { OnOk result (self.new.graph ≡ self.old.graph) }
        ensures made { OnOk result (self.new.watchers.made ≡ self.old.watchers.made) }
        ensures tables { self.new.tables ≡ self.old.tables }
        ensures named { AreNamed self.old.graph self.old.watchers.made events.old.items →
            OnOk result (AreNamed self.new.graph self.new.watchers.made events.new.items) }
    {
        let mut cells = Vec::with_capacity(*events.allocator(), batch.len())?;
        batch.net(&self.graph, rules, &mut cells);
        self.notify_of_all(&cells, events)?;
        Ok(())
    }

    // Notifies of changes of these cells together, and tells of it.
    fn notify_of_all(&mut self, cells: &[NodeId], events: &mut Vec<Event>) -> Result<(), NoMemory>
        ensures graph { self.new.graph ≡ self.old.graph }
        ensures tables { self.new.tables ≡ self.old.tables }
        ensures heard { self.new.heard ≡ self.old.heard }
        ensures watchers { OnOk result (self.new.watchers
            ≡ with_each (waiting_if (is_notified_by_any self.old.graph.state.signals self.old.graph.state.memos cells.now)) self.old.watchers) }
        ensures notices { OnOk result (AreNotices
            (map told_entry (notified_by_any self.old.graph.state.signals self.old.graph.state.memos cells.now self.old.watchers.watchers))
            events.old.items events.new.items) }
        ensures named { AreNamed self.old.graph self.old.watchers.made events.old.items →
            OnOk result (AreNamed self.new.graph self.new.watchers.made events.new.items) }
    {
        let mut told = Vec::with_capacity(*events.allocator(), self.watchers.live())?;
        self.watchers.tell_all(&self.graph, cells, &mut told);
        tell_notified(events, &told)?;
        Ok(())
    }

    /// Gives each cell of a batch that ends the value back that it had as the batch began, where it has another one. Each such change is
    /// told, and nobody is notified.
    ///
    /// # Errors
    ///
    /// `NoMemory` alone; then the world may only be dropped.
    pub fn abort(&mut self, batch: Batch, events: &mut Vec<Event>) -> Result<(), NoMemory>
        requires worn { self.old.graph.state.worn < 2 ^ 127 }
        ensures changed { OnOk result (Changed [] self.old self.new events.old.items events.new.items (length batch.changed) (λ env. abort batch.changed)) }
        ensures watchers { OnOk result (self.new.watchers ≡ self.old.watchers) }
        ensures tables { self.new.tables ≡ self.old.tables }
    {
        let _made = self.graph.made();
        let mut cells = Vec::with_capacity(*events.allocator(), batch.len())?;
        batch.abort(&mut self.graph, &mut cells);
        tell_values(events, &cells)?;
        self.heard.forget();
        Ok(())
    }
}

// Cells are set, rows edited, computeds rewired, things disposed, and watchers told what to watch.
ghost use Rattle.std.specs.Prelude.{◌≡◌, ◌<◌, ◌^◌, ℕ, [], List, None, IfOk, IfErr, OnOk, length, map};
ghost use Rattle.signal_model.specs.Recipes.{Hosts};
ghost use Rattle.sig_host.specs.Hosts.{HostPlace};
ghost use Rattle.sig_effect.specs.declared.errors.EffectFault.TheVariants as fault;
ghost use Rattle.sig_effect.specs.Stores.{environment, AreRuled};
ghost use Rattle.effect_world.specs.Stores.{AreOwned, IsSound};
ghost use Rattle.effect_world.specs.Costs.{weight};
ghost use Rattle.effect_world.specs.Wholes.{whole_of};
ghost use Rattle.live_cmd.specs.declared.command.Command.TheVariants as command;
ghost use Rattle.live_cmd.specs.declared.command.Verb.TheVariants as verb;
ghost use Rattle.live_model.specs.Machine.{done, host_refusal, row_refusal, unwatch_refusal};
ghost use Rattle.live_model.specs.Scripts.{IsReadSource};
ghost use Rattle.live_core.specs.Consistency.{AreFine, IsReady, Leaves, Steps};
ghost use Rattle.live_core.specs.Doing.{CanAsk, CanDo, Did};
ghost use Rattle.live_core.specs.Views.{plain_of};

use crate::lists::edited_rows;
use crate::machine::Machine;
use live_cmd::{NameList, RowEdit, SourceText};
use live_entries::Entry;
use live_labels::tell_all;
use live_linking::{linked_source, signals_of};
use live_pages::keep_live;
use sig_base::{Name, NodeId, Scalar, Value, WatcherId};
use sig_effect::EffectFault;
use sig_host::{EqualsRule, Lent, Shelf};

impl Machine {
    /// Gives a cell a value. What is notified is told; while a batch is open the cell joins it, and nobody is notified.
    pub(crate) fn set(
        &mut self,
        rules: &[EqualsRule],
        name: &Name,
        value: Scalar,
    ) -> Result<Vec<Entry>, EffectFault>
        requires ready { IsReady self.old }
        requires owned { AreOwned self.old.world }
        requires weight { weight self.old.world < 2 ^ 125 }
        requires ruled { AreRuled (length rules.now) self.old.world.graph.state.signals }
        requires fine { AreFine self.old (command.Set name.now value) }
        ensures steps { (hosts : Hosts) (asked : List HostPlace) → IsSound hosts asked self.old.world →
            IfOk result (λ es. Steps hosts asked self.new es.items
            (done (environment hosts (map (λ r. r.slack) rules.now)) (plain_of asked self.old) (command.Set name.now value))) }
        ensures leaves { (hosts : Hosts) (asked : List HostPlace) (count : ℕ) → IsSound hosts asked self.old.world →
            OnOk result (Leaves asked asked count self.old self.new) }
        ensures memory { IfErr result (λ e. e ≡ fault.NoMemory) }
    {
        let cell = NodeId::of(self.names.number_of(name));
        let told = self.set_value(rules, cell, value.into())?;
        Ok(told)
    }

    /// Edits the rows of a list, as a cell is given a value; nothing is done where the rows stay the same. Machine, owners, counters and
    /// rules are asked for apart, as for each set of a cell, and so is that the names don't refuse it and that the rows don't, for these
    /// are two checks.
    pub(crate) fn edit(
        &mut self,
        rules: &[EqualsRule],
        name: &Name,
        edit: &RowEdit,
    ) -> Result<Vec<Entry>, EffectFault>
        requires ready { IsReady self.old }
        requires owned { AreOwned self.old.world }
        requires weight { weight self.old.world < 2 ^ 125 }
        requires ruled { AreRuled (length rules.now) self.old.world.graph.state.signals }
        requires fine { AreFine self.old (command.Edit name.now edit.now) }
        requires fits { row_refusal (plain_of [] self.old) (command.Edit name.now edit.now) ≡ None }
        ensures steps { (hosts : Hosts) (asked : List HostPlace) → IsSound hosts asked self.old.world →
            IfOk result (λ es. Steps hosts asked self.new es.items
            (done (environment hosts (map (λ r. r.slack) rules.now)) (plain_of asked self.old) (command.Edit name.now edit.now))) }
        ensures leaves { (hosts : Hosts) (asked : List HostPlace) (count : ℕ) → IsSound hosts asked self.old.world →
            OnOk result (Leaves asked asked count self.old self.new) }
        ensures memory { IfErr result (λ e. e ≡ fault.NoMemory) }
    {
        let list = NodeId::of(self.names.number_of(name));
        let rows = edited_rows(self.alloc, &self.world, list, edit)?;
        let told = self.set_value(rules, list, Value::Rows(rows))?;
        Ok(told)
    }

    /// Gives a computed another formula or host formula. A host formula that is left is dropped, and told.
    pub(crate) fn rewire(
        &mut self,
        shelf: &mut Shelf,
        name: &Name,
        source: SourceText,
    ) -> Result<Vec<Entry>, EffectFault>
        requires can { CanAsk (⟦<Shelf as Lent>⟧.asked shelf.old) self.old (⟦<Shelf as Lent>⟧.counted shelf.old) (2 ^ 125) }
        requires few { IsReadSource source }
        requires alone { self.old.batch ≡ None }
        requires fine { AreFine self.old (command.Rewire name.now source) }
        requires free { host_refusal (whole_of (⟦<Shelf as Lent>⟧.asked shelf.old) self.old.world) source ≡ None }
        ensures did { (slacks : List ℕ) (count : ℕ) → IfOk result (λ es. Did (⟦<Shelf as Lent>⟧.asked shelf.old) (⟦<Shelf as Lent>⟧.asked shelf.new) count self.old self.new
            (λ hosts. ⟦<Shelf as Lent>⟧.answers hosts shelf.old) (λ hosts. ⟦<Shelf as Lent>⟧.answers hosts shelf.new) (⟦<Shelf as Lent>⟧.counted shelf.new) 0
            es.items (λ hosts. done (environment hosts slacks) (plain_of (⟦<Shelf as Lent>⟧.asked shelf.old) self.old) (command.Rewire name.now source))) }
        ensures memory { IfErr result (λ e. e ≡ fault.NoMemory) }
    {
        let computed = NodeId::of(self.names.number_of(name));
        let linked = linked_source(self.alloc, &self.names, source)?;
        let mut events = Vec::new(self.alloc);
        self.world
            .rewire(shelf, computed, linked.recipe, linked.slots, &mut events)?;
        let told = tell_all(self.alloc, &mut self.labels, &mut self.journal, &events)?;
        Ok(told)
    }

    /// Takes a thing away, and before it all that stands under it, the last made first. Cleanups on the way are done; a host formula that
    /// a computed asks is dropped, and told before. Pages that end are dropped. A cleanup may set a cell, and so needs the rules.
    pub(crate) fn dispose(
        &mut self,
        shelf: &mut Shelf,
        rules: &[EqualsRule],
        name: &Name,
    ) -> Result<Vec<Entry>, EffectFault>
        requires can { CanDo (⟦<Shelf as Lent>⟧.asked shelf.old) (length rules.now) self.old (⟦<Shelf as Lent>⟧.counted shelf.old) (2 ^ 125) }
        requires alone { self.old.batch ≡ None }
        requires fine { AreFine self.old (command.Named verb.Dispose name.now) }
        ensures did { (count : ℕ) → IfOk result (λ es. Did (⟦<Shelf as Lent>⟧.asked shelf.old) (⟦<Shelf as Lent>⟧.asked shelf.new) count self.old self.new
            (λ hosts. ⟦<Shelf as Lent>⟧.answers hosts shelf.old) (λ hosts. ⟦<Shelf as Lent>⟧.answers hosts shelf.new) (⟦<Shelf as Lent>⟧.counted shelf.new) 0
            es.items (λ hosts. done (environment hosts (map (λ r. r.slack) rules.now)) (plain_of (⟦<Shelf as Lent>⟧.asked shelf.old) self.old) (command.Named verb.Dispose name.now))) }
        ensures memory { IfErr result (λ e. e ≡ fault.NoMemory) }
    {
        let Some(thing) = self.names.thing_named(name) else {
            return Ok(Vec::new(self.alloc));
        };
        let mut events = Vec::new(self.alloc);
        self.world.dispose(shelf, rules, thing, &mut events)?;
        let _count = events.len();
        let told = tell_all(self.alloc, &mut self.labels, &mut self.journal, &events)?;
        keep_live(&mut self.pages, &self.world.tables.pages);
        Ok(told)
    }

    /// Lets a watcher watch these signals too, and arms it.
    pub(crate) fn watch(
        &mut self,
        name: &Name,
        signals: &NameList,
    ) -> Result<Vec<Entry>, EffectFault>
        requires ready { IsReady self.old }
        requires owned { AreOwned self.old.world }
        requires fine { AreFine self.old (command.Watch name.now signals.now) }
        ensures steps { (hosts : Hosts) (slacks : List ℕ) (asked : List HostPlace) → IsSound hosts asked self.old.world →
            IfOk result (λ es. Steps hosts asked self.new es.items
            (done (environment hosts slacks) (plain_of asked self.old) (command.Watch name.now signals.now))) }
        ensures leaves { (hosts : Hosts) (asked : List HostPlace) (count : ℕ) → IsSound hosts asked self.old.world →
            OnOk result (Leaves asked asked count self.old self.new) }
        ensures memory { IfErr result (λ e. e ≡ fault.NoMemory) }
    {
        let watcher = WatcherId::of(self.names.number_of(name));
        let signals = signals_of(self.alloc, &self.names, signals.as_slice())?;
        self.world.watch(watcher, &signals)?;
        Ok(Vec::new(self.alloc))
    }

    /// Lets a watcher no longer watch a signal.
    pub(crate) fn unwatch(&mut self, name: &Name, signal: &Name) -> Result<Vec<Entry>, EffectFault>
        requires ready { IsReady self.old }
        requires owned { AreOwned self.old.world }
        requires fine { AreFine self.old (command.Unwatch name.now signal.now) }
        requires watched { unwatch_refusal (plain_of [] self.old) (command.Unwatch name.now signal.now) ≡ None }
        ensures steps { (hosts : Hosts) (slacks : List ℕ) (asked : List HostPlace) → IsSound hosts asked self.old.world →
            IfOk result (λ es. Steps hosts asked self.new es.items
            (done (environment hosts slacks) (plain_of asked self.old) (command.Unwatch name.now signal.now))) }
        ensures leaves { (hosts : Hosts) (asked : List HostPlace) (count : ℕ) → IsSound hosts asked self.old.world →
            OnOk result (Leaves asked asked count self.old self.new) }
        ensures memory { IfErr result (λ e. e ≡ fault.NoMemory) }
    {
        let watcher = WatcherId::of(self.names.number_of(name));
        let signal = NodeId::of(self.names.number_of(signal));
        self.world.unwatch(watcher, signal)?;
        Ok(Vec::new(self.alloc))
    }
}

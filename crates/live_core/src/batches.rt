// Cells get values, and changes are collected while a batch is open: they are told together as it is committed, or given back as it is
// aborted.
ghost use Rattle.std.specs.Prelude.{◌≡◌, ◌<◌, ◌^◌, ℕ, [], true, false, List, None, IfErr, IfOk, OnOk, is_some, length, map};
ghost use Rattle.signal_model.specs.Recipes.{Hosts};
ghost use Rattle.signal_model.specs.Signals.{is_computed, is_there, standing};
ghost use Rattle.sig_host.specs.Hosts.{HostPlace};
ghost use Rattle.sig_effect.specs.declared.errors.EffectFault.TheVariants as fault;
ghost use Rattle.sig_effect.specs.Stores.{environment, AreRuled};
ghost use Rattle.effect_world.specs.Stores.{AreOwned, IsSound};
ghost use Rattle.effect_world.specs.Costs.{weight};
ghost use Rattle.live_cmd.specs.declared.command.Bare.TheVariants as bares;
ghost use Rattle.live_cmd.specs.declared.command.Command.TheVariants as command;
ghost use Rattle.live_model.specs.Machine.{done, setting};
ghost use Rattle.live_core.specs.Consistency.{IsReady, Leaves, Steps};
ghost use Rattle.live_core.specs.Views.{plain_of};

use crate::machine::Machine;
use live_entries::Entry;
use live_labels::tell_all;
use sig_base::{NodeId, Value};
use sig_effect::EffectFault;
use sig_host::EqualsRule;
use sig_state::Batch;

impl Machine {
    // Whether nobody hears of a change: no journal was begun, and no watcher lives.
    fn is_unheard(&self) -> bool
        ensures journal { result ≡ true → self.now.journal ≡ None }
        ensures watchers { result ≡ true → length self.now.world.watchers.watchers ≡ 0 }
    {
        match &self.journal {
            Some(_) => false,
            None => self.world.watchers.live() == 0,
        }
    }

    // Gives a cell a value while no batch is open and nobody hears of it, so that nothing is told. Its clauses are those of `set_told`, and that
    // nobody hears of it.
    #[inline(always)]
    fn set_unheard(&mut self, rules: &[EqualsRule], cell: NodeId, value: Value)
        requires ready { IsReady self.old }
        requires alone { self.old.batch ≡ None }
        requires owned { AreOwned self.old.world }
        requires weight { weight self.old.world < 2 ^ 125 }
        requires ruled { AreRuled (length rules.now) self.old.world.graph.state.signals }
        requires kind { is_computed (standing self.old.world.graph.state.signals cell) ≡ false }
        requires there { is_there (standing self.old.world.graph.state.signals cell) ≡ true }
        requires journal { self.old.journal ≡ None }
        requires watchers { length self.old.world.watchers.watchers ≡ 0 }
        ensures steps { (hosts : Hosts) (asked : List HostPlace) → IsSound hosts asked self.old.world →
            Steps hosts asked self.new [] (setting (environment hosts (map (λ r. r.slack) rules.now)) (plain_of asked self.old) cell value) }
        ensures leaves { (hosts : Hosts) (asked : List HostPlace) (count : ℕ) → IsSound hosts asked self.old.world →
            Leaves asked asked count self.old self.new }
    {
        match self.world.change_unwatched(rules, cell, value) {
            Ok(_) => {}
            Err(_) => unreachable!(),
        }
    }

    // Gives a cell a value while no batch is open. What is notified is told. Most of its clauses ask, each for something that may fail by
    // itself: a ready machine, no open batch, owners that agree, room in the counters, rules that are there, and a cell that stands.
    #[inline(never)]
    fn set_told(
        &mut self,
        rules: &[EqualsRule],
        cell: NodeId,
        value: Value,
    ) -> Result<Vec<Entry>, EffectFault>
        requires ready { IsReady self.old }
        requires alone { self.old.batch ≡ None }
        requires owned { AreOwned self.old.world }
        requires weight { weight self.old.world < 2 ^ 125 }
        requires ruled { AreRuled (length rules.now) self.old.world.graph.state.signals }
        requires kind { is_computed (standing self.old.world.graph.state.signals cell) ≡ false }
        requires there { is_there (standing self.old.world.graph.state.signals cell) ≡ true }
        ensures steps { (hosts : Hosts) (asked : List HostPlace) → IsSound hosts asked self.old.world →
            IfOk result (λ es. Steps hosts asked self.new es.items
            (setting (environment hosts (map (λ r. r.slack) rules.now)) (plain_of asked self.old) cell value)) }
        ensures leaves { (hosts : Hosts) (asked : List HostPlace) (count : ℕ) → IsSound hosts asked self.old.world →
            OnOk result (Leaves asked asked count self.old self.new) }
        ensures memory { IfErr result (λ e. e ≡ fault.NoMemory) }
    {
        self.events.clear();
        let _done = self
            .world
            .change_cell(rules, cell, value, &mut self.events)?;
        let told = tell_all(
            self.alloc,
            &mut self.labels,
            &mut self.journal,
            &self.events,
        )?;
        Ok(told)
    }

    // So it is done, with the same clauses; and where nobody hears of it, nothing is put together that would be told.
    #[inline(always)]
    fn set_alone(
        &mut self,
        rules: &[EqualsRule],
        cell: NodeId,
        value: Value,
    ) -> Result<Vec<Entry>, EffectFault>
        requires ready { IsReady self.old }
        requires alone { self.old.batch ≡ None }
        requires owned { AreOwned self.old.world }
        requires weight { weight self.old.world < 2 ^ 125 }
        requires ruled { AreRuled (length rules.now) self.old.world.graph.state.signals }
        requires kind { is_computed (standing self.old.world.graph.state.signals cell) ≡ false }
        requires there { is_there (standing self.old.world.graph.state.signals cell) ≡ true }
        ensures steps { (hosts : Hosts) (asked : List HostPlace) → IsSound hosts asked self.old.world →
            IfOk result (λ es. Steps hosts asked self.new es.items
            (setting (environment hosts (map (λ r. r.slack) rules.now)) (plain_of asked self.old) cell value)) }
        ensures leaves { (hosts : Hosts) (asked : List HostPlace) (count : ℕ) → IsSound hosts asked self.old.world →
            OnOk result (Leaves asked asked count self.old self.new) }
        ensures memory { IfErr result (λ e. e ≡ fault.NoMemory) }
    {
        if self.is_unheard() {
            self.set_unheard(rules, cell, value);
            return Ok(Vec::new(self.alloc));
        }
        let told = self.set_told(rules, cell, value)?;
        Ok(told)
    }

    // Gives a cell a value while a batch is open: the cell joins it, and nobody is notified. Its clauses are those of `set_value`, and that one is
    // open.
    #[inline(never)]
    fn set_batched(
        &mut self,
        rules: &[EqualsRule],
        cell: NodeId,
        value: Value,
    ) -> Result<Vec<Entry>, EffectFault>
        requires ready { IsReady self.old }
        requires batched { is_some self.old.batch ≡ true }
        requires owned { AreOwned self.old.world }
        requires weight { weight self.old.world < 2 ^ 125 }
        requires ruled { AreRuled (length rules.now) self.old.world.graph.state.signals }
        requires kind { is_computed (standing self.old.world.graph.state.signals cell) ≡ false }
        requires there { is_there (standing self.old.world.graph.state.signals cell) ≡ true }
        ensures steps { (hosts : Hosts) (asked : List HostPlace) → IsSound hosts asked self.old.world →
            IfOk result (λ es. Steps hosts asked self.new es.items
            (setting (environment hosts (map (λ r. r.slack) rules.now)) (plain_of asked self.old) cell value)) }
        ensures leaves { (hosts : Hosts) (asked : List HostPlace) (count : ℕ) → IsSound hosts asked self.old.world →
            OnOk result (Leaves asked asked count self.old self.new) }
        ensures memory { IfErr result (λ e. e ≡ fault.NoMemory) }
    {
        let Some(batch) = &mut self.batch else {
            unreachable!();
        };
        let mut events = Vec::new(self.alloc);
        let _done = self.world.set_in(batch, rules, cell, value, &mut events)?;
        let told = tell_all(self.alloc, &mut self.labels, &mut self.journal, &events)?;
        Ok(told)
    }

    /// Gives a cell a value. What is notified is told; while a batch is open the cell joins it, and nobody is notified. It asks for all
    /// that a set without a batch asks for, but that none is open; what it comes to and that another command may follow are two clauses,
    /// as only the first one is about the entries.
    ///
    /// # Errors
    ///
    /// `NoMemory` alone.
    #[inline(always)]
    pub fn set_value(
        &mut self,
        rules: &[EqualsRule],
        cell: NodeId,
        value: Value,
    ) -> Result<Vec<Entry>, EffectFault>
        requires ready { IsReady self.old }
        requires owned { AreOwned self.old.world }
        requires weight { weight self.old.world < 2 ^ 125 }
        requires ruled { AreRuled (length rules.now) self.old.world.graph.state.signals }
        requires kind { is_computed (standing self.old.world.graph.state.signals cell) ≡ false }
        requires there { is_there (standing self.old.world.graph.state.signals cell) ≡ true }
        ensures steps { (hosts : Hosts) (asked : List HostPlace) → IsSound hosts asked self.old.world →
            IfOk result (λ es. Steps hosts asked self.new es.items
            (setting (environment hosts (map (λ r. r.slack) rules.now)) (plain_of asked self.old) cell value)) }
        ensures leaves { (hosts : Hosts) (asked : List HostPlace) (count : ℕ) → IsSound hosts asked self.old.world →
            OnOk result (Leaves asked asked count self.old self.new) }
        ensures memory { IfErr result (λ e. e ≡ fault.NoMemory) }
    {
        if self.batch.is_some() {
            let told = self.set_batched(rules, cell, value)?;
            return Ok(told);
        }
        let told = self.set_alone(rules, cell, value)?;
        Ok(told)
    }

    /// Opens a batch, in which nothing was changed yet.
    pub(crate) fn begin(&mut self) -> Result<Vec<Entry>, EffectFault>
        requires ready { IsReady self.old }
        ensures steps { (hosts : Hosts) (slacks : List ℕ) (asked : List HostPlace) → IsSound hosts asked self.old.world →
            IfOk result (λ es. Steps hosts asked self.new es.items
            (done (environment hosts slacks) (plain_of asked self.old) (command.Bare bares.Begin))) }
        ensures leaves { (asked : List HostPlace) (count : ℕ) → OnOk result (Leaves asked asked count self.old self.new) }
        ensures memory { IfErr result (λ e. e ≡ fault.NoMemory) }
    {
        let batch = Batch::begin(self.alloc, &self.world.graph)?;
        self.batch = Some(batch);
        Ok(Vec::new(self.alloc))
    }

    /// Ends the batch that is open, and tells of its changes together: what they notify, each watcher once.
    pub(crate) fn commit(&mut self, rules: &[EqualsRule]) -> Result<Vec<Entry>, EffectFault>
        requires ready { IsReady self.old }
        requires owned { AreOwned self.old.world }
        requires ruled { AreRuled (length rules.now) self.old.world.graph.state.signals }
        ensures steps { (hosts : Hosts) (asked : List HostPlace) → IsSound hosts asked self.old.world →
            IfOk result (λ es. Steps hosts asked self.new es.items
            (done (environment hosts (map (λ r. r.slack) rules.now)) (plain_of asked self.old) (command.Bare bares.Commit))) }
        ensures leaves { (hosts : Hosts) (asked : List HostPlace) (count : ℕ) → IsSound hosts asked self.old.world →
            OnOk result (Leaves asked asked count self.old self.new) }
        ensures memory { IfErr result (λ e. e ≡ fault.NoMemory) }
    {
        let Some(batch) = self.batch.take() else {
            return Ok(Vec::new(self.alloc));
        };
        let mut events = Vec::new(self.alloc);
        self.world.commit(&batch, rules, &mut events)?;
        let told = tell_all(self.alloc, &mut self.labels, &mut self.journal, &events)?;
        Ok(told)
    }

    /// Ends the batch that is open, and gives its cells the values back that they had as it began. Nobody is notified.
    pub(crate) fn abort(&mut self) -> Result<Vec<Entry>, EffectFault>
        requires ready { IsReady self.old }
        requires owned { AreOwned self.old.world }
        requires weight { weight self.old.world < 2 ^ 125 }
        ensures steps { (hosts : Hosts) (slacks : List ℕ) (asked : List HostPlace) → IsSound hosts asked self.old.world →
            IfOk result (λ es. Steps hosts asked self.new es.items
            (done (environment hosts slacks) (plain_of asked self.old) (command.Bare bares.Abort))) }
        ensures leaves { (hosts : Hosts) (asked : List HostPlace) (count : ℕ) → IsSound hosts asked self.old.world →
            OnOk result (Leaves asked asked count self.old self.new) }
        ensures memory { IfErr result (λ e. e ≡ fault.NoMemory) }
    {
        let Some(batch) = self.batch.take() else {
            return Ok(Vec::new(self.alloc));
        };
        let _count = batch.len();
        let mut events = Vec::new(self.alloc);
        self.world.abort(batch, &mut events)?;
        let told = tell_all(self.alloc, &mut self.labels, &mut self.journal, &events)?;
        Ok(told)
    }
}

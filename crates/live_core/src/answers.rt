// What is told of signals and watchers.
ghost use Rattle.std.specs.Prelude.{◌≡◌, ◌∷◌, ◌^◌, ℕ, [], List, IfOk, IfErr};
ghost use Rattle.signal_model.specs.Recipes.{Hosts};
ghost use Rattle.sig_host.specs.Hosts.{HostPlace};
ghost use Rattle.sig_nodes.specs.Answers.{mark_meant};
ghost use Rattle.sig_effect.specs.declared.errors.EffectFault.TheVariants as fault;
ghost use Rattle.sig_effect.specs.Stores.{environment};
ghost use Rattle.effect_world.specs.Stores.{IsSound};
ghost use Rattle.live_cmd.specs.declared.command.Command.TheVariants as command;
ghost use Rattle.live_cmd.specs.declared.command.Verb.TheVariants as verb;
ghost use Rattle.live_entries.specs.declared.entry.Entry.TheVariants as entry;
ghost use Rattle.live_model.specs.Machine.{done, seen_of};
ghost use Rattle.live_core.specs.Consistency.{AreFine, IsReady, Steps};
ghost use Rattle.live_core.specs.Doing.{CanAsk, Did};
ghost use Rattle.live_core.specs.Views.{plain_of};

use crate::machine::Machine;
use live_entries::{Entry, PageBytes, Seen};
use live_labels::{names_of_signals, tell_all};
use live_pages::{page_among, scratch, shown_of};
use sig_base::{Name, NoMemory, NodeId, PageId, WatcherId};
use sig_effect::EffectFault;
use sig_graph::Mark;
use sig_host::{Lent, Shelf};
use std::alloc::Global;

/// One entry.
///
/// # Errors
///
/// `NoMemory` where it finds no room.
pub fn one(alloc: Global, entry: Entry) -> Result<Vec<Entry>, NoMemory>
    ensures { IfOk result (λ entries. entries.items ≡ entry ∷ []) }
{
    let mut entries = Vec::with_capacity(alloc, 1)?;
    entries.push(entry)?;
    Ok(entries)
}

// A mark, as it is told.
fn seen_of(mark: Mark) -> Seen
    ensures { result ≡ seen_of (mark_meant mark) }
{
    match mark {
        Mark::Clean => Seen::Clean,
        Mark::Checked => Seen::Checked,
        Mark::Dirty => Seen::Dirty,
    }
}

// Tells that nothing is shown from scratch, where no page lives.
fn unshown(alloc: Global, name: Name) -> Result<Vec<Entry>, EffectFault>
    ensures told { IfOk result (λ entries. entries.items ≡ entry.Scratch name [] ∷ []) }
    ensures memory { IfErr result (λ e. e ≡ fault.NoMemory) }
{
    let nothing = PageBytes::of(alloc, Vec::new(alloc))?;
    let told = one(alloc, Entry::Scratch(name, nothing))?;
    Ok(told)
}

impl Machine {
    /// Tells what a name comes to, and the runs on the way.
    pub(crate) fn get(&mut self, shelf: &mut Shelf, name: Name) -> Result<Vec<Entry>, EffectFault>
        requires can { CanAsk (⟦<Shelf as Lent>⟧.asked shelf.old) self.old (⟦<Shelf as Lent>⟧.counted shelf.old) (2 ^ 125) }
        ensures did { (slacks : List ℕ) (count : ℕ) → IfOk result (λ es. Did (⟦<Shelf as Lent>⟧.asked shelf.old) (⟦<Shelf as Lent>⟧.asked shelf.new) count self.old self.new
            (λ hosts. ⟦<Shelf as Lent>⟧.answers hosts shelf.old) (λ hosts. ⟦<Shelf as Lent>⟧.answers hosts shelf.new) (⟦<Shelf as Lent>⟧.counted shelf.new) (2 ^ 80)
            es.items (λ hosts. done (environment hosts slacks) (plain_of (⟦<Shelf as Lent>⟧.asked shelf.old) self.old) (command.Named verb.Get name))) }
        ensures memory { IfErr result (λ e. e ≡ fault.NoMemory) }
    {
        let signal = NodeId::of(self.names.number_of(&name));
        let mut events = Vec::new(self.alloc);
        let outcome = self.world.ask(shelf, signal, &mut events)?;
        let _count = events.len();
        let mut told = tell_all(self.alloc, &mut self.labels, &mut self.journal, &events)?;
        told.push(Entry::Outcome(name, outcome))?;
        Ok(told)
    }

    /// Tells how a computed stands.
    pub(crate) fn state(&mut self, name: Name) -> Result<Vec<Entry>, EffectFault>
        requires ready { IsReady self.old }
        requires fine { AreFine self.old (command.Named verb.State name) }
        ensures steps { (hosts : Hosts) (slacks : List ℕ) (asked : List HostPlace) → IsSound hosts asked self.old.world →
            IfOk result (λ es. Steps hosts asked self.new es.items
            (done (environment hosts slacks) (plain_of asked self.old) (command.Named verb.State name))) }
        ensures same { self.new ≡ self.old }
        ensures memory { IfErr result (λ e. e ≡ fault.NoMemory) }
    {
        let computed = NodeId::of(self.names.number_of(&name));
        let seen = seen_of(self.world.graph.mark_of(computed));
        let told = one(self.alloc, Entry::State(name, seen))?;
        Ok(told)
    }

    /// Tells the sources that a computed keeps.
    pub(crate) fn sources(&self, name: Name) -> Result<Vec<Entry>, EffectFault>
        requires ready { IsReady self.now }
        ensures steps { (hosts : Hosts) (slacks : List ℕ) (asked : List HostPlace) → IsSound hosts asked self.now.world →
            IfOk result (λ es. Steps hosts asked self.now es.items
            (done (environment hosts slacks) (plain_of asked self.now) (command.Named verb.Sources name))) }
        ensures memory { IfErr result (λ e. e ≡ fault.NoMemory) }
    {
        let computed = NodeId::of(self.names.number_of(&name));
        let sources = names_of_signals(
            self.alloc,
            &self.labels.signals,
            self.world.graph.sources(computed),
        )?;
        let told = one(self.alloc, Entry::Sources(name, sources))?;
        Ok(told)
    }

    /// Tells the computeds that a watcher watches and that have to run, or something below them.
    pub(crate) fn pending(&mut self, name: Name) -> Result<Vec<Entry>, EffectFault>
        requires ready { IsReady self.old }
        requires fine { AreFine self.old (command.Named verb.Pending name) }
        ensures steps { (hosts : Hosts) (slacks : List ℕ) (asked : List HostPlace) → IsSound hosts asked self.old.world →
            IfOk result (λ es. Steps hosts asked self.new es.items
            (done (environment hosts slacks) (plain_of asked self.old) (command.Named verb.Pending name))) }
        ensures same { self.new ≡ self.old }
        ensures memory { IfErr result (λ e. e ≡ fault.NoMemory) }
    {
        let watcher = WatcherId::of(self.names.number_of(&name));
        let pending = self.world.watchers.pending(&mut self.world.graph, watcher)?;
        let pending = names_of_signals(self.alloc, &self.labels.signals, &pending)?;
        let told = one(self.alloc, Entry::Pending(name, pending))?;
        Ok(told)
    }

    /// Tells a page as it was last brought up to date.
    pub(crate) fn show(&self, name: Name) -> Result<Vec<Entry>, EffectFault>
        requires ready { IsReady self.now }
        ensures steps { (hosts : Hosts) (slacks : List ℕ) (asked : List HostPlace) → IsSound hosts asked self.now.world →
            IfOk result (λ es. Steps hosts asked self.now es.items
            (done (environment hosts slacks) (plain_of asked self.now) (command.Named verb.Show name))) }
        ensures memory { IfErr result (λ e. e ≡ fault.NoMemory) }
    {
        let page = PageId::of(self.names.number_of(&name));
        let shown = shown_of(self.alloc, &self.pages, page)?;
        let told = one(self.alloc, Entry::Page(name, shown))?;
        Ok(told)
    }

    /// Tells what the template of a page shows from scratch, and the runs on the way. The page stays as it is.
    pub(crate) fn scratch(
        &mut self,
        shelf: &mut Shelf,
        name: Name,
    ) -> Result<Vec<Entry>, EffectFault>
        requires can { CanAsk (⟦<Shelf as Lent>⟧.asked shelf.old) self.old (⟦<Shelf as Lent>⟧.counted shelf.old) (2 ^ 125) }
        requires fine { AreFine self.old (command.Named verb.Scratch name) }
        ensures did { (slacks : List ℕ) (count : ℕ) → IfOk result (λ es. Did (⟦<Shelf as Lent>⟧.asked shelf.old) (⟦<Shelf as Lent>⟧.asked shelf.new) count self.old self.new
            (λ hosts. ⟦<Shelf as Lent>⟧.answers hosts shelf.old) (λ hosts. ⟦<Shelf as Lent>⟧.answers hosts shelf.new) (⟦<Shelf as Lent>⟧.counted shelf.new) (2 ^ 80)
            es.items (λ hosts. done (environment hosts slacks) (plain_of (⟦<Shelf as Lent>⟧.asked shelf.old) self.old) (command.Named verb.Scratch name))) }
        ensures memory { IfErr result (λ e. e ≡ fault.NoMemory) }
    {
        let page = PageId::of(self.names.number_of(&name));
        let Some(shown) = page_among(&self.pages, page) else {
            return unshown(self.alloc, name);
        };
        let template = shown.template;
        let mut told = Vec::new(self.alloc);
        let html = scratch(
            &mut self.world,
            shelf,
            &self.templates,
            &self.labels,
            &mut self.journal,
            template,
            &mut told,
        )?;
        told.push(Entry::Scratch(name, html))?;
        Ok(told)
    }
}

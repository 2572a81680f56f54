// The journal is begun, and tells why a computed ran.
ghost use Rattle.std.specs.Prelude.{◌≡◌, ℕ, List, IfErr, IfOk, OnOk, option_map};
ghost use Rattle.signal_model.specs.Recipes.{Hosts};
ghost use Rattle.sig_host.specs.Hosts.{HostPlace};
ghost use Rattle.sig_effect.specs.declared.errors.EffectFault.TheVariants as fault;
ghost use Rattle.sig_effect.specs.Stores.{environment};
ghost use Rattle.effect_world.specs.Stores.{IsSound};
ghost use Rattle.live_cmd.specs.declared.command.Bare.TheVariants as bares;
ghost use Rattle.live_cmd.specs.declared.command.Command.TheVariants as command;
ghost use Rattle.live_cmd.specs.declared.command.Verb.TheVariants as verb;
ghost use Rattle.live_model.specs.Journals.{chain_in, why_entries};
ghost use Rattle.live_model.specs.Machine.{done};
ghost use Rattle.live_core.specs.Consistency.{IsReady, Leaves, Steps};
ghost use Rattle.live_core.specs.Views.{plain_of};

use crate::machine::Machine;
use live_entries::Entry;
use live_labels::tell_why;
use live_why::Recorder;
use sig_base::{Name, NoMemory, NodeId};
use sig_effect::EffectFault;
use std::alloc::Global;
use why_model::Link;

// The chain of a computed by the journal that was begun; none where none was, or it never ran.
fn chain_in(journal: &Option<Recorder>, id: NodeId) -> Result<Option<Vec<Link>>, NoMemory>
    ensures { IfOk result (λ o. option_map (λ v. v.items) o ≡ chain_in journal.now id) }
{
    match journal {
        None => Ok(None),
        Some(recorder) => {
            let links = recorder.journal().chain(id)?;
            Ok(links)
        }
    }
}

// What is told of the chain of a computed.
fn tell_chain(
    alloc: Global,
    names: &[Name],
    name: Name,
    links: Option<Vec<Link>>,
) -> Result<Vec<Entry>, NoMemory>
    ensures { IfOk result (λ es. es.items ≡ why_entries names.now name (option_map (λ v. v.items) links)) }
{
    match links {
        None => Ok(Vec::new(alloc)),
        Some(links) => {
            let told = tell_why(alloc, names, name, &links)?;
            Ok(told)
        }
    }
}

impl Machine {
    /// Begins a journal, in which nothing is noted yet.
    pub(crate) fn begin_record(&mut self) -> Result<Vec<Entry>, EffectFault>
        requires ready { IsReady self.old }
        ensures steps { (hosts : Hosts) (slacks : List ℕ) (asked : List HostPlace) → IsSound hosts asked self.old.world →
            IfOk result (λ es. Steps hosts asked self.new es.items
            (done (environment hosts slacks) (plain_of asked self.old) (command.Bare bares.Record))) }
        ensures leaves { (asked : List HostPlace) (count : ℕ) → OnOk result (Leaves asked asked count self.old self.new) }
        ensures memory { IfErr result (λ e. e ≡ fault.NoMemory) }
    {
        self.journal = Some(Recorder::new(self.alloc));
        Ok(Vec::new(self.alloc))
    }

    /// Tells why a computed ran last, and so on as far as runs were caused by runs.
    pub(crate) fn why(&self, name: Name) -> Result<Vec<Entry>, EffectFault>
        requires ready { IsReady self.now }
        ensures steps { (hosts : Hosts) (slacks : List ℕ) (asked : List HostPlace) → IsSound hosts asked self.now.world →
            IfOk result (λ es. Steps hosts asked self.now es.items
            (done (environment hosts slacks) (plain_of asked self.now) (command.Named verb.Why name))) }
        ensures memory { IfErr result (λ e. e ≡ fault.NoMemory) }
    {
        let computed = NodeId::of(self.names.number_of(&name));
        let links = chain_in(&self.journal, computed)?;
        let told = tell_chain(self.alloc, &self.labels.signals, name, links)?;
        Ok(told)
    }
}

// Cells, lists, computeds, owners, effects, watchers and templates are made, under names that are new.
ghost use Rattle.std.specs.Prelude.{◌≡◌, ◌<◌, ◌^◌, ℕ, true, [], List, None, IfOk, IfErr, OnOk, length};
ghost use Rattle.sig_base.specs.declared.value.Value.TheVariants as value;
ghost use Rattle.signal_model.specs.Recipes.{Hosts};
ghost use Rattle.sig_host.specs.Hosts.{HostPlace};
ghost use Rattle.sig_effect.specs.declared.errors.EffectFault.TheVariants as fault;
ghost use Rattle.sig_effect.specs.Stores.{environment};
ghost use Rattle.effect_world.specs.Stores.{Agrees, AreOwned, IsSound};
ghost use Rattle.effect_world.specs.Wholes.{whole_of};
ghost use Rattle.effect_world.specs.Costs.{weight};
ghost use Rattle.tpl_blocks.specs.Blocks.{lines_of};
ghost use Rattle.tpl_model.specs.Laws.{IsTemplate};
ghost use Rattle.live_cmd.specs.declared.command.Command.TheVariants as command;
ghost use Rattle.live_model.specs.Machine.{done, host_refusal, over_limit, rule_refusal};
ghost use Rattle.live_model.specs.Scripts.{IsReadSource, is_list};
ghost use Rattle.live_model.specs.Rows.{no_rows};
ghost use Rattle.live_model.specs.Uses.{is_fit};
ghost use Rattle.live_core.specs.Consistency.{AreFine, IsReady, Leaves, Steps};
ghost use Rattle.live_core.specs.Views.{plain_of};

use crate::faults::{make_effect, make_owner};
use crate::machine::Machine;
use effect_tables::Script;
use live_cmd::{EffectBody, NameList, SourceText, Try};
use live_entries::Entry;
use live_linking::{linked_source, links_of, owner_of, signals_of};
use live_model::Kind;
use live_pages::LinkedTemplate;
use sig_base::{Name, NoMemory, Scalar, Value};
use sig_effect::EffectFault;
use sig_rows::new_rows;
use std::alloc::Global;
use tpl_syntax::Template;

// The place of an equality rule.
fn rule_place(equals: Option<u64>) -> Option<usize>
    ensures { result ≡ equals }
{
    match equals {
        Some(place) => Some(place as usize),
        None => None,
    }
}

// Copies of names.
fn copied(alloc: Global, names: &[Name]) -> Result<Vec<Name>, NoMemory>
    ensures { IfOk result (λ v. v.items ≡ names.now) }
{
    let mut out = Vec::new(alloc);
    for name in names {
        out.push(name.copy()?)?;
    }
    Ok(out)
}

// A list without rows, as a value.
fn no_rows(alloc: Global, fields: &NameList) -> Result<Value, NoMemory>
    requires { is_list fields.now ≡ true }
    ensures { IfOk result (λ v. v ≡ value.Rows (no_rows fields.now)) }
{
    let names = copied(alloc, fields.as_slice())?;
    let rows = new_rows(alloc, names)?;
    Ok(Value::Rows(rows))
}

impl Machine {
    /// Makes a cell, with an equality rule perhaps. Its clauses are those of each making by name: a ready machine, owners that agree,
    /// room in the counters, no open batch, a good name and room for one more are asked for apart; the entries, what it leaves, and that
    /// only memory may be wanting are told apart.
    pub(crate) fn make_cell(
        &mut self,
        name: Name,
        value: Scalar,
        equals: Option<u64>,
        inside: Option<Name>,
    ) -> Result<Vec<Entry>, EffectFault>
        requires ready { IsReady self.old }
        requires owned { AreOwned self.old.world }
        requires weight { weight self.old.world < 2 ^ 125 }
        requires alone { self.old.batch ≡ None }
        requires fine { AreFine self.old (command.Cell name value equals inside) }
        requires room { over_limit (plain_of [] self.old) (command.Cell name value equals inside) ≡ None }
        ensures steps { (hosts : Hosts) (slacks : List ℕ) (asked : List HostPlace) → IsSound hosts asked self.old.world →
            IfOk result (λ es. Steps hosts asked self.new es.items
            (done (environment hosts slacks) (plain_of asked self.old) (command.Cell name value equals inside))) }
        ensures leaves { (hosts : Hosts) (asked : List HostPlace) (slacks : List ℕ) (count : ℕ) → IsSound hosts asked self.old.world →
            length slacks ≡ count → rule_refusal slacks equals ≡ None →
            OnOk result (Leaves asked asked count self.old self.new) }
        ensures memory { IfErr result (λ e. e ≡ fault.NoMemory) }
    {
        let owner = owner_of(&self.names, &inside);
        let id = self
            .world
            .make_cell(value.into(), rule_place(equals), owner)?;
        self.name_signal(name, Kind::Cell, id)?;
        Ok(Vec::new(self.alloc))
    }

    /// Makes a list of these fields, without rows. Its clauses are those of the making of a cell, and one that the fields may be those of
    /// a list.
    pub(crate) fn make_list(
        &mut self,
        name: Name,
        fields: &NameList,
        inside: Option<Name>,
    ) -> Result<Vec<Entry>, EffectFault>
        requires ready { IsReady self.old }
        requires owned { AreOwned self.old.world }
        requires weight { weight self.old.world < 2 ^ 125 }
        requires fields { is_list fields.now ≡ true }
        requires alone { self.old.batch ≡ None }
        requires fine { AreFine self.old (command.List name fields.now inside) }
        requires room { over_limit (plain_of [] self.old) (command.List name fields.now inside) ≡ None }
        ensures steps { (hosts : Hosts) (slacks : List ℕ) (asked : List HostPlace) → IsSound hosts asked self.old.world →
            IfOk result (λ es. Steps hosts asked self.new es.items
            (done (environment hosts slacks) (plain_of asked self.old) (command.List name fields.now inside))) }
        ensures leaves { (hosts : Hosts) (asked : List HostPlace) (rules : ℕ) → IsSound hosts asked self.old.world →
            OnOk result (Leaves asked asked rules self.old self.new) }
        ensures memory { IfErr result (λ e. e ≡ fault.NoMemory) }
    {
        let owner = owner_of(&self.names, &inside);
        let rows = no_rows(self.alloc, fields)?;
        let id = self.world.make_cell(rows, None, owner)?;
        self.name_signal(name, Kind::List, id)?;
        Ok(Vec::new(self.alloc))
    }

    /// Makes a computed. A host formula that it asks has to be free. Its clauses are those of the making of a cell, and one that a host
    /// formula has few arguments; that it is free stands before what is told, as the shelf isn't at hand here.
    pub(crate) fn make_computed(
        &mut self,
        name: Name,
        source: SourceText,
        inside: Option<Name>,
    ) -> Result<Vec<Entry>, EffectFault>
        requires ready { IsReady self.old }
        requires owned { AreOwned self.old.world }
        requires weight { weight self.old.world < 2 ^ 125 }
        requires few { IsReadSource source }
        requires alone { self.old.batch ≡ None }
        requires fine { AreFine self.old (command.Computed name source inside) }
        requires room { over_limit (plain_of [] self.old) (command.Computed name source inside) ≡ None }
        ensures steps { (hosts : Hosts) (slacks : List ℕ) (asked : List HostPlace) → Agrees asked self.old.world →
            host_refusal (whole_of asked self.old.world) source ≡ None → IsSound hosts asked self.old.world →
            IfOk result (λ es. Steps hosts asked self.new es.items
            (done (environment hosts slacks) (plain_of asked self.old) (command.Computed name source inside))) }
        ensures leaves { (hosts : Hosts) (asked : List HostPlace) (rules : ℕ) → IsSound hosts asked self.old.world →
            Agrees asked self.old.world → host_refusal (whole_of asked self.old.world) source ≡ None →
            OnOk result (Leaves asked asked rules self.old self.new) }
        ensures memory { IfErr result (λ e. e ≡ fault.NoMemory) }
    {
        let _made = self.world.graph.made();
        let owner = owner_of(&self.names, &inside);
        let linked = linked_source(self.alloc, &self.names, source)?;
        let id = self
            .world
            .make_computed(linked.recipe, linked.slots, owner)?;
        self.name_signal(name, Kind::Computed, id)?;
        Ok(Vec::new(self.alloc))
    }

    /// Makes an owner.
    pub(crate) fn make_owner(
        &mut self,
        name: Name,
        inside: Option<Name>,
    ) -> Result<Vec<Entry>, EffectFault>
        requires ready { IsReady self.old }
        requires owned { AreOwned self.old.world }
        requires fine { AreFine self.old (command.Owner name inside) }
        requires room { over_limit (plain_of [] self.old) (command.Owner name inside) ≡ None }
        ensures steps { (hosts : Hosts) (slacks : List ℕ) (asked : List HostPlace) → IsSound hosts asked self.old.world →
            IfOk result (λ es. Steps hosts asked self.new es.items
            (done (environment hosts slacks) (plain_of asked self.old) (command.Owner name inside))) }
        ensures leaves { (hosts : Hosts) (asked : List HostPlace) (rules : ℕ) → IsSound hosts asked self.old.world →
            OnOk result (Leaves asked asked rules self.old self.new) }
        ensures memory { IfErr result (λ e. e ≡ fault.NoMemory) }
    {
        let owner = owner_of(&self.names, &inside);
        let id = make_owner(&mut self.world, owner)?;
        self.name_owner(name, id)?;
        Ok(Vec::new(self.alloc))
    }

    /// Makes an effect of a body. It has not run.
    pub(crate) fn make_effect(
        &mut self,
        name: Name,
        body: EffectBody,
        inside: Option<Name>,
    ) -> Result<Vec<Entry>, EffectFault>
        requires ready { IsReady self.old }
        requires owned { AreOwned self.old.world }
        requires weight { weight self.old.world < 2 ^ 125 }
        requires fit { is_fit body ≡ true }
        requires fine { AreFine self.old (command.Effect name body inside) }
        ensures steps { (hosts : Hosts) (slacks : List ℕ) (asked : List HostPlace) → IsSound hosts asked self.old.world →
            IfOk result (λ es. Steps hosts asked self.new es.items
            (done (environment hosts slacks) (plain_of asked self.old) (command.Effect name body inside))) }
        ensures leaves { (hosts : Hosts) (asked : List HostPlace) (rules : ℕ) → IsSound hosts asked self.old.world →
            OnOk result (Leaves asked asked rules self.old self.new) }
        ensures memory { IfErr result (λ e. e ≡ fault.NoMemory) }
    {
        let owner = owner_of(&self.names, &inside);
        let links = links_of(self.alloc, &self.names, name.as_str(), body.as_body())?;
        let script = Script {
            body: body.into_body(),
            links,
        };
        let id = make_effect(self.alloc, &mut self.world, script, owner)?;
        self.name_effect(name, id)?;
        Ok(Vec::new(self.alloc))
    }

    /// Makes a watcher, which tries a command at each notification where one is given.
    pub(crate) fn make_watcher(
        &mut self,
        name: Name,
        tries: Option<Try>,
    ) -> Result<Vec<Entry>, EffectFault>
        requires ready { IsReady self.old }
        requires owned { AreOwned self.old.world }
        requires fine { AreFine self.old (command.Watcher name tries) }
        requires room { over_limit (plain_of [] self.old) (command.Watcher name tries) ≡ None }
        ensures steps { (hosts : Hosts) (slacks : List ℕ) (asked : List HostPlace) → IsSound hosts asked self.old.world →
            IfOk result (λ es. Steps hosts asked self.new es.items
            (done (environment hosts slacks) (plain_of asked self.old) (command.Watcher name tries))) }
        ensures leaves { (hosts : Hosts) (asked : List HostPlace) (rules : ℕ) → IsSound hosts asked self.old.world →
            OnOk result (Leaves asked asked rules self.old self.new) }
        ensures memory { IfErr result (λ e. e ≡ fault.NoMemory) }
    {
        let _count = self.labels.watchers.len();
        let watcher = self.world.make_watcher(tries.is_some())?;
        self.name_watcher(name, watcher)?;
        Ok(Vec::new(self.alloc))
    }

    /// Makes a template.
    pub(crate) fn make_template(
        &mut self,
        name: Name,
        template: Template,
    ) -> Result<Vec<Entry>, EffectFault>
        requires ready { IsReady self.old }
        requires fine { AreFine self.old (command.Template name template) }
        requires template { IsTemplate (lines_of template) }
        ensures steps { (hosts : Hosts) (slacks : List ℕ) (asked : List HostPlace) → IsSound hosts asked self.old.world →
            IfOk result (λ es. Steps hosts asked self.new es.items
            (done (environment hosts slacks) (plain_of asked self.old) (command.Template name template))) }
        ensures leaves { (hosts : Hosts) (asked : List HostPlace) (rules : ℕ) → IsSound hosts asked self.old.world →
            OnOk result (Leaves asked asked rules self.old self.new) }
        ensures memory { IfErr result (λ e. e ≡ fault.NoMemory) }
    {
        let links = signals_of(self.alloc, &self.names, template.names())?;
        let number = self.templates.len() as u64;
        self.templates.push(LinkedTemplate { template, links })?;
        self.names.make(name, Kind::Template, number)?;
        Ok(Vec::new(self.alloc))
    }
}

// Handlers of events are made, and run as one is fired.
ghost use Rattle.std.specs.Prelude.{◌≡◌, ◌+◌, ◌<◌, ◌^◌, ◌++◌, ◌∷◌, ℕ, true, List, [], None, IfOk, IfErr, OnOk, length, map};
ghost use Rattle.effect_world.specs.Stores.{IsSound};
ghost use Rattle.event_model.specs.Handlers.{fired_on};
ghost use Rattle.event_model.specs.declared.limits.TheConstants.{MOST_HANDLERS};
ghost use Rattle.live_cmd.specs.declared.command.Command.TheVariants as command;
ghost use Rattle.live_core.specs.Consistency.{IsReady, Leaves, Steps};
ghost use Rattle.live_core.specs.Doing.{CanDo, Did};
ghost use Rattle.live_core.specs.Views.{plain_of};
ghost use Rattle.live_model.specs.Handlers.{fired_of};
ghost use Rattle.live_model.specs.Machine.{done, over_limit, page_at};
ghost use Rattle.live_model.specs.Names.{number_of};
ghost use Rattle.live_model.specs.Uses.{is_fit};
ghost use Rattle.live_pages.specs.Updates.{AreStanding};
ghost use Rattle.live_pages.specs.Views.{page_of};
ghost use Rattle.sig_effect.specs.Stores.{environment};
ghost use Rattle.sig_effect.specs.declared.errors.EffectFault.TheVariants as fault;
ghost use Rattle.sig_host.specs.Hosts.{HostPlace};
ghost use Rattle.signal_model.specs.Recipes.{Hosts};
ghost use Rattle.tpl_live.specs.Contents.{standing};
ghost use Rattle.tpl_live.specs.Pages.{page_in, Stands};
ghost use Rattle.tpl_model.specs.Lines.{Line};

use crate::machine::Machine;
use effect_tables::Script;
use event_model::Fired;
use live_cmd::EffectBody;
use live_entries::Entry;
use live_firing::run_all;
use live_linking::links_of;
use live_pages::{Mounted, page_among};
use page_events::{FireFault, HandlerFault, Handlers};
use sig_base::{Name, NoMemory, PageId, PlaceId, Text};
use sig_effect::EffectFault;
use sig_host::{EqualsRule, Lent, Shelf};
use std::alloc::Global;

// Makes a handler, where there is room for one; want of memory is the only fault.
fn add_handler(
    handlers: &mut Handlers,
    template: PlaceId,
    line: usize,
    event: &Text,
) -> Result<(), NoMemory>
    requires { length handlers.old < MOST_HANDLERS }
    ensures { OnOk result (handlers.new ≡ handlers.old ++ record { template = template; line = line; event = event.now } ∷ []) }
{
    match handlers.add(template, line, event) {
        Ok(_) => Ok(()),
        Err(HandlerFault::NoMemory) => Err(NoMemory),
        Err(HandlerFault::Limit) => unreachable!(),
    }
}

// The handlers that run as an event is fired at a node of a page; none where there is no such node.
fn fired_on(
    alloc: Global,
    handlers: &Handlers,
    page: &Mounted,
    node: u64,
    event: &Text,
) -> Result<Vec<Fired>, NoMemory>
    ensures { (lines : List Line) (links : List ℕ) → Stands lines links (standing page.now.page) →
        IfOk result (λ fs. fs.items ≡ fired_on handlers.now (page_in (standing page.now.page)) page.now.template node event.now) }
{
    let template = PlaceId::of(page.template);
    match handlers.fired(&page.page, template, node, event) {
        Ok(fired) => Ok(fired),
        Err(FireFault::NoNode(_)) => Ok(Vec::new(alloc)),
        Err(FireFault::NoMemory) => Err(NoMemory),
    }
}

impl Machine {
    /// Makes a handler of an event at the nodes of a line of a template, the last of all. Lines are counted from 1. Its clauses are those of each
    /// making: a ready machine, a good body, names that aren't refused and room for one more are asked for apart; the entries, what it leaves,
    /// and that only memory may be wanting are told apart.
    pub(crate) fn make_handler(
        &mut self,
        template: &Name,
        line: u64,
        event: &Text,
        body: EffectBody,
    ) -> Result<Vec<Entry>, EffectFault>
        requires ready { IsReady self.old }
        requires fit { is_fit body ≡ true }
        requires room { over_limit (plain_of [] self.old) (command.On template.now line event.now body) ≡ None }
        ensures steps { (hosts : Hosts) (slacks : List ℕ) (asked : List HostPlace) → IsSound hosts asked self.old.world →
            IfOk result (λ es. Steps hosts asked self.new es.items
            (done (environment hosts slacks) (plain_of asked self.old) (command.On template.now line event.now body))) }
        ensures leaves { (hosts : Hosts) (asked : List HostPlace) (rules : ℕ) → IsSound hosts asked self.old.world →
            OnOk result (Leaves asked asked rules self.old self.new) }
        ensures memory { IfErr result (λ e. e ≡ fault.NoMemory) }
    {
        let number = PlaceId::of(self.names.number_of(template));
        let links = links_of(self.alloc, &self.names, "", body.as_body())?;
        add_handler(&mut self.handlers, number, line as usize, event)?;
        self.scripts.push(Script {
            body: body.into_body(),
            links,
        })?;
        Ok(Vec::new(self.alloc))
    }

    // The handlers that run as an event is fired at a node of a page.
    fn fired_at(&self, page: &Name, node: u64, event: &Text) -> Result<Vec<Fired>, NoMemory>
        requires { AreStanding self.now.pages.items }
        ensures { (asked : List HostPlace) → IfOk result (λ fs. fs.items ≡ fired_of (plain_of asked self.now).handlers
            (page_at (map page_of self.now.pages.items) (number_of self.now.names page.now)) node event.now) }
    {
        let number = PageId::of(self.names.number_of(page));
        let Some(shown) = page_among(&self.pages, number) else {
            return Ok(Vec::new(self.alloc));
        };
        let fired = fired_on(self.alloc, &self.handlers, shown, node, event)?;
        Ok(fired)
    }

    /// Runs the handlers that wait for an event at a node of a page, and then those at the nodes around it, from the inside outwards.
    pub(crate) fn fire(
        &mut self,
        shelf: &mut Shelf,
        rules: &[EqualsRule],
        page: &Name,
        node: u64,
        event: &Text,
    ) -> Result<Vec<Entry>, EffectFault>
        requires can { CanDo (⟦<Shelf as Lent>⟧.asked shelf.old) (length rules.now) self.old (⟦<Shelf as Lent>⟧.counted shelf.old) (2 ^ 124) }
        requires alone { self.old.batch ≡ None }
        ensures did { (count : ℕ) → IfOk result (λ es. Did (⟦<Shelf as Lent>⟧.asked shelf.old) (⟦<Shelf as Lent>⟧.asked shelf.new) count self.old self.new
            (λ hosts. ⟦<Shelf as Lent>⟧.answers hosts shelf.old) (λ hosts. ⟦<Shelf as Lent>⟧.answers hosts shelf.new) (⟦<Shelf as Lent>⟧.counted shelf.new) (2 ^ 80)
            es.items (λ hosts. done (environment hosts (map (λ r. r.slack) rules.now)) (plain_of (⟦<Shelf as Lent>⟧.asked shelf.old) self.old) (command.Fire page.now node event.now))) }
        ensures memory { IfErr result (λ e. e ≡ fault.NoMemory) }
    {
        let fired = self.fired_at(page, node, event)?;
        let mut told = Vec::new(self.alloc);
        run_all(
            &mut self.world,
            &mut self.labels,
            &mut self.journal,
            shelf,
            rules,
            &self.scripts,
            page,
            &fired,
            &mut told,
        )?;
        Ok(told)
    }
}

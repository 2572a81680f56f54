// Commands that aren't refused are done.
ghost use Rattle.std.specs.Prelude.{◌≡◌, ◌^◌, ℕ, List, None, IfOk, IfErr, length, map};
ghost use Rattle.signal_model.specs.Recipes.{Hosts};
ghost use Rattle.sig_host.specs.Hosts.{HostPlace};
ghost use Rattle.sig_effect.specs.declared.errors.EffectFault.TheVariants as fault;
ghost use Rattle.sig_effect.specs.Stores.{environment, AreNew};
ghost use Rattle.effect_world.specs.Stores.{IsSound};
ghost use Rattle.effect_world.specs.Costs.{weight};
ghost use Rattle.live_cmd.specs.declared.command.Command.TheVariants as command;
ghost use Rattle.live_model.specs.Machine.{batch_refusal, done, empty, over_limit, place_refusal, row_refusal, unwatch_refusal};
ghost use Rattle.live_core.specs.Consistency.{AreFine, WorldAgrees, IsReadable, IsReady};
ghost use Rattle.live_core.specs.Doing.{CanDo, Did};
ghost use Rattle.live_core.specs.Views.{batch_of, plain_of};
ghost use Rattle.effect_world.specs.Wholes.{whole_of};

use crate::machine::Machine;
use effect_world::World;
use live_cmd::{Bare, Command, Verb};
use live_entries::Entry;
use live_labels::Labels;
use live_names::Names;
use page_events::Handlers;
use sig_base::{Name, NoMemory};
use sig_effect::EffectFault;
use sig_host::{EqualsRule, Lent, Shelf};
use std::alloc::Global;

impl Machine {
    /// The machine before the first command.
    ///
    /// # Errors
    ///
    /// `NoMemory` where memory ran out.
    pub fn new(alloc: Global) -> Result<Machine, NoMemory>
        ensures plain { (asked : List HostPlace) → AreNew asked → IfOk result (λ m. plain_of asked m ≡ empty (length asked)) }
        ensures sound { (hosts : Hosts) (asked : List HostPlace) → AreNew asked → IfOk result (λ m. IsSound hosts asked m.world) }
        ensures holds { (asked : List HostPlace) (rules : ℕ) → IfOk result (λ m. WorldAgrees asked rules m.world) }
        ensures ready { IfOk result IsReady }
        ensures weight { IfOk result (λ m. weight m.world ≡ 0) }
    {
        let world = World::new(alloc)?;
        Ok(Machine {
            alloc,
            names: Names::new(alloc),
            labels: Labels::new(alloc),
            world,
            batch: None,
            journal: None,
            templates: Vec::new(alloc),
            handlers: Handlers::new(alloc),
            scripts: Vec::new(alloc),
            pages: Vec::new(alloc),
            events: Vec::new(alloc),
            notes: Vec::new(alloc),
        })
    }

    /// Does what a verb says to a name. It is a function by itself in the program too, as `perform` is, so that a get or a set pays for no other command.
    #[inline(never)]
    pub(crate) fn do_verb(
        &mut self,
        shelf: &mut Shelf,
        rules: &[EqualsRule],
        verb: Verb,
        name: Name,
    ) -> Result<Vec<Entry>, EffectFault>
        requires can { CanDo (⟦<Shelf as Lent>⟧.asked shelf.old) (length rules.now) self.old (⟦<Shelf as Lent>⟧.counted shelf.old) (2 ^ 124) }
        requires fine { AreFine self.old (command.Named verb name) }
        requires batch { batch_refusal (batch_of self.old.batch) (command.Named verb name) ≡ None }
        ensures did { IfOk result (λ es. Did (⟦<Shelf as Lent>⟧.asked shelf.old) (⟦<Shelf as Lent>⟧.asked shelf.new) (length rules.now) self.old self.new
            (λ hosts. ⟦<Shelf as Lent>⟧.answers hosts shelf.old) (λ hosts. ⟦<Shelf as Lent>⟧.answers hosts shelf.new) (⟦<Shelf as Lent>⟧.counted shelf.new) (2 ^ 80)
            es.items (λ hosts. done (environment hosts (map (λ r. r.slack) rules.now)) (plain_of (⟦<Shelf as Lent>⟧.asked shelf.old) self.old) (command.Named verb name))) }
        ensures memory { IfErr result (λ e. e ≡ fault.NoMemory) }
    {
        match verb {
            Verb::Get => self.get(shelf, name),
            Verb::State => self.state(name),
            Verb::Sources => self.sources(name),
            Verb::Pending => self.pending(name),
            Verb::Show => self.show(name),
            Verb::Scratch => self.scratch(shelf, name),
            Verb::Dispose => self.dispose(shelf, rules, &name),
            Verb::Why => self.why(name),
        }
    }

    // Does a command of one word. As there is no name, the batch is the only check that is left.
    fn do_bare(
        &mut self,
        shelf: &mut Shelf,
        rules: &[EqualsRule],
        bare: Bare,
    ) -> Result<Vec<Entry>, EffectFault>
        requires can { CanDo (⟦<Shelf as Lent>⟧.asked shelf.old) (length rules.now) self.old (⟦<Shelf as Lent>⟧.counted shelf.old) (2 ^ 124) }
        requires batch { batch_refusal (batch_of self.old.batch) (command.Bare bare) ≡ None }
        ensures did { IfOk result (λ es. Did (⟦<Shelf as Lent>⟧.asked shelf.old) (⟦<Shelf as Lent>⟧.asked shelf.new) (length rules.now) self.old self.new
            (λ hosts. ⟦<Shelf as Lent>⟧.answers hosts shelf.old) (λ hosts. ⟦<Shelf as Lent>⟧.answers hosts shelf.new) (⟦<Shelf as Lent>⟧.counted shelf.new) (2 ^ 80)
            es.items (λ hosts. done (environment hosts (map (λ r. r.slack) rules.now)) (plain_of (⟦<Shelf as Lent>⟧.asked shelf.old) self.old) (command.Bare bare))) }
        ensures memory { IfErr result (λ e. e ≡ fault.NoMemory) }
    {
        match bare {
            Bare::Flush => self.flush(shelf, rules, true),
            Bare::Begin => self.begin(),
            Bare::Commit => self.commit(rules),
            Bare::Abort => self.abort(),
            Bare::Record => self.begin_record(),
        }
    }

    /// Does a command that isn't refused. Each check that a command passed is a clause of its own, as each kind of command needs only
    /// some of them.
    ///
    /// # Errors
    ///
    /// `NoMemory` alone.
    #[inline(never)]
    pub fn perform(
        &mut self,
        shelf: &mut Shelf,
        rules: &[EqualsRule],
        command: Command,
    ) -> Result<Vec<Entry>, EffectFault>
        requires can { CanDo (⟦<Shelf as Lent>⟧.asked shelf.old) (length rules.now) self.old (⟦<Shelf as Lent>⟧.counted shelf.old) (2 ^ 124) }
        requires batch { batch_refusal (batch_of self.old.batch) command ≡ None }
        requires fine { AreFine self.old command }
        requires places { place_refusal (map (λ r. r.slack) rules.now) (whole_of (⟦<Shelf as Lent>⟧.asked shelf.old) self.old.world) command ≡ None }
        requires read { IsReadable command }
        requires rows { row_refusal (plain_of (⟦<Shelf as Lent>⟧.asked shelf.old) self.old) command ≡ None }
        requires room { over_limit (plain_of (⟦<Shelf as Lent>⟧.asked shelf.old) self.old) command ≡ None }
        requires watched { unwatch_refusal (plain_of (⟦<Shelf as Lent>⟧.asked shelf.old) self.old) command ≡ None }
        ensures did { IfOk result (λ es. Did (⟦<Shelf as Lent>⟧.asked shelf.old) (⟦<Shelf as Lent>⟧.asked shelf.new) (length rules.now) self.old self.new
            (λ hosts. ⟦<Shelf as Lent>⟧.answers hosts shelf.old) (λ hosts. ⟦<Shelf as Lent>⟧.answers hosts shelf.new) (⟦<Shelf as Lent>⟧.counted shelf.new) (2 ^ 80)
            es.items (λ hosts. done (environment hosts (map (λ r. r.slack) rules.now)) (plain_of (⟦<Shelf as Lent>⟧.asked shelf.old) self.old) command)) }
        ensures memory { IfErr result (λ e. e ≡ fault.NoMemory) }
    {
        match command {
            Command::Cell {
                name,
                value,
                equals,
                inside,
            } => self.make_cell(name, value, equals, inside),
            Command::List {
                name,
                fields,
                inside,
            } => self.make_list(name, &fields, inside),
            Command::Edit { name, edit } => self.edit(rules, &name, &edit),
            Command::Set { name, value } => self.set(rules, &name, value),
            Command::Computed {
                name,
                source,
                inside,
            } => self.make_computed(name, source, inside),
            Command::Rewire { name, source } => self.rewire(shelf, &name, source),
            Command::Owner { name, inside } => self.make_owner(name, inside),
            Command::Watcher { name, tries } => self.make_watcher(name, tries),
            Command::Watch { name, signals } => self.watch(&name, &signals),
            Command::Unwatch { name, signal } => self.unwatch(&name, &signal),
            Command::Effect { name, body, inside } => self.make_effect(name, body, inside),
            Command::On {
                template,
                place,
                event,
                body,
            } => self.make_handler(&template, place, &event, body),
            Command::Fire { page, node, event } => self.fire(shelf, rules, &page, node, &event),
            Command::Template { name, template } => self.make_template(name, template),
            Command::Mount {
                name,
                template,
                inside,
            } => self.mount(shelf, name, &template, &inside),
            Command::Named { verb, name } => self.do_verb(shelf, rules, verb, name),
            Command::Bare(bare) => self.do_bare(shelf, rules, bare),
        }
    }
}

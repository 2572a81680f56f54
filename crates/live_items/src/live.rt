// The machine with its end: after want of memory it does nothing more.
ghost use Rattle.std.specs.Prelude.{◌≡◌, ◌+◌, ◌<◌, ◌^◌, ◌∷◌, ℕ, [], List, true, false, All, IfOk, OnOk, OnErr, IsErr, length, map, is_some};
ghost use Rattle.signal_model.specs.Recipes.{Hosts};
ghost use Rattle.sig_host.specs.Hosts.{hosts_of};
ghost use Rattle.sig_effect.specs.Stores.{environment};
ghost use Rattle.effect_world.specs.Stores.{IsSound};
ghost use Rattle.live_cmd.specs.declared.command.Command.TheVariants as command;
ghost use Rattle.live_cmd.specs.declared.command.Item.TheVariants as item;
ghost use Rattle.live_cmd.specs.declared.command.Verb.TheVariants as verb;
ghost use Rattle.live_model.specs.Machine.{empty, step, reached, Machine};
ghost use Rattle.live_core.specs.Consistency.{IsKept, IsReadItem, SomeHosts};
ghost use Rattle.live_core.specs.Doing.{TellsFor};
ghost use Rattle.live_core.specs.Views.{plain_of};

use crate::commands::{act, try_get, try_set};
use live_cmd::Item;
use live_entries::Entry;
use sig_base::{Name, NoMemory, Scalar};
use sig_host::{EqualsRule, HostFormula, Lent, Shelf};
use std::alloc::Global;

/// What a machine stands for, and what holds of it.
pub trait Running {
    /// The plain machine, with the asks of each host formula.
    ghost machine: { Self → Machine };

    /// The slacks of the equality rules.
    ghost slacks: { Self → List ℕ };

    /// What is kept of the signals is sound, where the host formulas answer so.
    ghost sound: { Hosts → Self → Type 0 };

    /// What a machine keeps from one command to the next, whatever host formulas answer.
    ghost kept: { Self → Type 0 };
}

/// The names, signals, watchers, owners, effects, templates and pages of a script, with the host formulas and the equality rules. It does
/// one command after the other.
pub struct Live {
    machine: live_core::Machine,
    shelf: Shelf,
    rules: Vec<EqualsRule>,
    done: u64,
    broken: bool,
}

impl Drop for Live {
    fn drop(self) {
        let Live {
            machine: _,
            shelf: _,
            rules: _,
            done: _,
            broken: _,
        } = self;
    }
}

impl Running for Live {
    ghost machine = { λ l. plain_of (map (λ p. record { there = is_some p.host; asks = p.count }) l.shelf.places.items) l.machine };

    ghost slacks = { λ l. map (λ r. r.slack) l.rules.items };

    ghost sound = { λ hosts l. IsSound hosts (map (λ p. record { there = is_some p.host; asks = p.count }) l.shelf.places.items) l.machine.world };

    ghost kept = { λ l. IsKept (map (λ p. record { there = is_some p.host; asks = p.count }) l.shelf.places.items)
        (length l.rules.items) l.machine l.done l.broken };
}

impl Live {
    /// The machine before the first command, with the host formulas and the equality rules by their places. No host formula was asked.
    /// What later calls ask for is told of it clause by clause, as they ask for it: how the formulas answer, where the machine stands,
    /// the slacks, that all is in order, the counts, and that no item was done and nothing went wrong yet.
    ///
    /// # Errors
    ///
    /// `NoMemory` where memory ran out; the formulas and the rules are dropped.
    pub fn new(
        alloc: Global,
        hosts: Vec<Box<dyn HostFormula>>,
        rules: Vec<EqualsRule>,
    ) -> Result<Live, NoMemory>
        requires unasked { All (λ h. asks h ≡ 0) hosts.items }
        ensures answers { IfOk result (λ l. ⟦<Shelf as Lent>⟧.answers (hosts_of (map (λ h. step_of h) hosts.items)) l.shelf) }
        ensures machine { IfOk result (λ l. ⟦<Live as Running>⟧.machine l ≡ empty (length hosts.items)) }
        ensures slacks { IfOk result (λ l. ⟦<Live as Running>⟧.slacks l ≡ map (λ r. r.slack) rules.items) }
        ensures sound { (hosts : Hosts) → IfOk result (⟦<Live as Running>⟧.sound hosts) }
        ensures kept { IfOk result ⟦<Live as Running>⟧.kept }
        ensures counted { IfOk result (λ l. ⟦<Shelf as Lent>⟧.counted l.shelf) }
        ensures done { IfOk result (λ l. l.done ≡ 0) }
        ensures whole { IfOk result (λ l. l.broken ≡ false) }
    {
        let shelf = Shelf::new(alloc, hosts)?;
        let machine = live_core::Machine::new(alloc)?;
        Ok(Live {
            machine,
            shelf,
            rules,
            done: 0,
            broken: false,
        })
    }

    /// Does one item as `do_command` does, whose clauses it has. Where no trace is asked for, entries may be left out that are printed only
    /// there: the runs on the way to what a `get` tells, and of the turns of a `flush` the runs and the evaluated bodies.
    ///
    /// # Errors
    ///
    /// `NoMemory` where memory ran out. After it each later call answers that too, and changes nothing.
    pub fn do_item(&mut self, item: Item, traced: bool) -> Result<Vec<Entry>, NoMemory>
        requires kept { ⟦<Live as Running>⟧.kept self.old }
        requires meant { self.old.broken ≡ false → SomeHosts (λ hosts. ⟦<Shelf as Lent>⟧.answers hosts self.old.shelf × ⟦<Live as Running>⟧.sound hosts self.old) }
        requires counted { self.old.broken ≡ false → ⟦<Shelf as Lent>⟧.counted self.old.shelf }
        requires read { IsReadItem item }
        requires room { self.old.done < 2 ^ 23 }
        ensures step { (hosts : Hosts) → ⟦<Shelf as Lent>⟧.answers hosts self.old.shelf → ⟦<Live as Running>⟧.sound hosts self.old →
            IfOk result (λ es.
            TellsFor traced (⟦<Live as Running>⟧.machine self.new) es.items
            (step (environment hosts (⟦<Live as Running>⟧.slacks self.old)) (⟦<Live as Running>⟧.machine self.old) item)
            × ⟦<Live as Running>⟧.sound hosts self.new × ⟦<Shelf as Lent>⟧.answers hosts self.new.shelf) }
        ensures kept { ⟦<Live as Running>⟧.kept self.new }
        ensures meant { self.new.broken ≡ false → SomeHosts (λ hosts. ⟦<Shelf as Lent>⟧.answers hosts self.new.shelf × ⟦<Live as Running>⟧.sound hosts self.new) }
        ensures counted { self.new.broken ≡ false → ⟦<Shelf as Lent>⟧.counted self.new.shelf }
        ensures slacks { ⟦<Live as Running>⟧.slacks self.new ≡ ⟦<Live as Running>⟧.slacks self.old }
        ensures done { OnOk result (self.new.done ≡ self.old.done + 1) }
        ensures whole { OnOk result (self.new.broken ≡ false) }
        ensures broken { OnErr result (self.new.broken ≡ true) }
        ensures stays { self.old.broken ≡ true → IsErr result × (self.new ≡ self.old) }
    {
        if self.broken {
            return Err(NoMemory);
        }
        self.broken = true;
        let entries = act(
            &mut self.machine,
            &mut self.shelf,
            &self.rules,
            item,
            traced,
        )?;
        self.broken = false;
        self.done += 1;
        Ok(entries)
    }

    /// Does a `get` of a name where no trace is asked for, as `do_item` does, whose clauses it has. What it tells is one entry.
    ///
    /// # Errors
    ///
    /// `NoMemory` where memory ran out. After it each later call answers that too, and changes nothing.
    pub fn get(&mut self, name: Name) -> Result<Entry, NoMemory>
        requires kept { ⟦<Live as Running>⟧.kept self.old }
        requires meant { self.old.broken ≡ false → SomeHosts (λ hosts. ⟦<Shelf as Lent>⟧.answers hosts self.old.shelf × ⟦<Live as Running>⟧.sound hosts self.old) }
        requires counted { self.old.broken ≡ false → ⟦<Shelf as Lent>⟧.counted self.old.shelf }
        requires room { self.old.done < 2 ^ 23 }
        ensures step { (hosts : Hosts) → ⟦<Shelf as Lent>⟧.answers hosts self.old.shelf → ⟦<Live as Running>⟧.sound hosts self.old →
            IfOk result (λ e.
            TellsFor false (⟦<Live as Running>⟧.machine self.new) (e ∷ [])
            (step (environment hosts (⟦<Live as Running>⟧.slacks self.old)) (⟦<Live as Running>⟧.machine self.old) (item.Do (command.Named verb.Get name)))
            × ⟦<Live as Running>⟧.sound hosts self.new × ⟦<Shelf as Lent>⟧.answers hosts self.new.shelf) }
        ensures kept { ⟦<Live as Running>⟧.kept self.new }
        ensures meant { self.new.broken ≡ false → SomeHosts (λ hosts. ⟦<Shelf as Lent>⟧.answers hosts self.new.shelf × ⟦<Live as Running>⟧.sound hosts self.new) }
        ensures counted { self.new.broken ≡ false → ⟦<Shelf as Lent>⟧.counted self.new.shelf }
        ensures slacks { ⟦<Live as Running>⟧.slacks self.new ≡ ⟦<Live as Running>⟧.slacks self.old }
        ensures done { OnOk result (self.new.done ≡ self.old.done + 1) }
        ensures whole { OnOk result (self.new.broken ≡ false) }
        ensures broken { OnErr result (self.new.broken ≡ true) }
        ensures stays { self.old.broken ≡ true → IsErr result × (self.new ≡ self.old) }
    {
        if self.broken {
            return Err(NoMemory);
        }
        self.broken = true;
        let entry = try_get(&mut self.machine, &mut self.shelf, name)?;
        self.broken = false;
        self.done += 1;
        Ok(entry)
    }

    /// Gives a cell a value, as `do_item` does, whose clauses it has. A set leaves nothing out of what it tells.
    ///
    /// # Errors
    ///
    /// `NoMemory` where memory ran out. After it each later call answers that too, and changes nothing.
    pub fn set(&mut self, name: Name, value: Scalar) -> Result<Vec<Entry>, NoMemory>
        requires kept { ⟦<Live as Running>⟧.kept self.old }
        requires meant { self.old.broken ≡ false → SomeHosts (λ hosts. ⟦<Shelf as Lent>⟧.answers hosts self.old.shelf × ⟦<Live as Running>⟧.sound hosts self.old) }
        requires counted { self.old.broken ≡ false → ⟦<Shelf as Lent>⟧.counted self.old.shelf }
        requires room { self.old.done < 2 ^ 23 }
        ensures step { (hosts : Hosts) → ⟦<Shelf as Lent>⟧.answers hosts self.old.shelf → ⟦<Live as Running>⟧.sound hosts self.old →
            IfOk result (λ es.
            (reached (⟦<Live as Running>⟧.machine self.new) es.items
            ≡ step (environment hosts (⟦<Live as Running>⟧.slacks self.old)) (⟦<Live as Running>⟧.machine self.old) (item.Do (command.Set name value)))
            × ⟦<Live as Running>⟧.sound hosts self.new × ⟦<Shelf as Lent>⟧.answers hosts self.new.shelf) }
        ensures kept { ⟦<Live as Running>⟧.kept self.new }
        ensures meant { self.new.broken ≡ false → SomeHosts (λ hosts. ⟦<Shelf as Lent>⟧.answers hosts self.new.shelf × ⟦<Live as Running>⟧.sound hosts self.new) }
        ensures counted { self.new.broken ≡ false → ⟦<Shelf as Lent>⟧.counted self.new.shelf }
        ensures slacks { ⟦<Live as Running>⟧.slacks self.new ≡ ⟦<Live as Running>⟧.slacks self.old }
        ensures done { OnOk result (self.new.done ≡ self.old.done + 1) }
        ensures whole { OnOk result (self.new.broken ≡ false) }
        ensures broken { OnErr result (self.new.broken ≡ true) }
        ensures stays { self.old.broken ≡ true → IsErr result × (self.new ≡ self.old) }
    {
        if self.broken {
            return Err(NoMemory);
        }
        self.broken = true;
        let entries = try_set(&mut self.machine, &self.rules, name, value)?;
        self.broken = false;
        self.done += 1;
        Ok(entries)
    }

    /// Does one item and tells what came of it: one step of the plain machine, the entries of a trace included. A refused item changes
    /// nothing. Each host formula was asked as often as the machine says: once by each run of its computed, and once more after each good
    /// read. What has to be in order is asked for and given back clause by clause, so that items may follow one another; the step, the
    /// slacks, which stay, the number of items, and what want of memory means and leaves are clauses apart.
    ///
    /// # Errors
    ///
    /// `NoMemory` where memory ran out. After it each later call answers that too, and changes nothing.
    pub fn do_command(&mut self, item: Item) -> Result<Vec<Entry>, NoMemory>
        requires kept { ⟦<Live as Running>⟧.kept self.old }
        requires meant { self.old.broken ≡ false → SomeHosts (λ hosts. ⟦<Shelf as Lent>⟧.answers hosts self.old.shelf × ⟦<Live as Running>⟧.sound hosts self.old) }
        requires counted { self.old.broken ≡ false → ⟦<Shelf as Lent>⟧.counted self.old.shelf }
        requires read { IsReadItem item }
        requires room { self.old.done < 2 ^ 23 }
        ensures step { (hosts : Hosts) → ⟦<Shelf as Lent>⟧.answers hosts self.old.shelf → ⟦<Live as Running>⟧.sound hosts self.old →
            IfOk result (λ es.
            (reached (⟦<Live as Running>⟧.machine self.new) es.items
            ≡ step (environment hosts (⟦<Live as Running>⟧.slacks self.old)) (⟦<Live as Running>⟧.machine self.old) item)
            × ⟦<Live as Running>⟧.sound hosts self.new × ⟦<Shelf as Lent>⟧.answers hosts self.new.shelf) }
        ensures kept { ⟦<Live as Running>⟧.kept self.new }
        ensures meant { self.new.broken ≡ false → SomeHosts (λ hosts. ⟦<Shelf as Lent>⟧.answers hosts self.new.shelf × ⟦<Live as Running>⟧.sound hosts self.new) }
        ensures counted { self.new.broken ≡ false → ⟦<Shelf as Lent>⟧.counted self.new.shelf }
        ensures slacks { ⟦<Live as Running>⟧.slacks self.new ≡ ⟦<Live as Running>⟧.slacks self.old }
        ensures done { OnOk result (self.new.done ≡ self.old.done + 1) }
        ensures whole { OnOk result (self.new.broken ≡ false) }
        ensures broken { OnErr result (self.new.broken ≡ true) }
        ensures stays { self.old.broken ≡ true → IsErr result × (self.new ≡ self.old) }
    {
        let entries = self.do_item(item, true)?;
        Ok(entries)
    }
}

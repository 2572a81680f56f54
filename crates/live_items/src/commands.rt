// One item: refused, or done.
ghost use Rattle.std.specs.Prelude.{◌≡◌, ◌<◌, ◌^◌, ◌∷◌, ℕ, [], List, false, IfOk, OnOk, length, map};
ghost use Rattle.signal_model.specs.Recipes.{Hosts};
ghost use Rattle.sig_host.specs.Hosts.{HostPlace};
ghost use Rattle.sig_effect.specs.declared.errors.EffectFault.TheVariants as fault;
ghost use Rattle.sig_effect.specs.Stores.{environment, AreRuled};
ghost use Rattle.effect_world.specs.Costs.{weight};
ghost use Rattle.effect_world.specs.Stores.{AreOwned, IsSound};
ghost use Rattle.live_cmd.specs.declared.command.Bare.TheVariants as bares;
ghost use Rattle.live_cmd.specs.declared.command.Command.TheVariants as command;
ghost use Rattle.live_cmd.specs.declared.command.Item.TheVariants as item;
ghost use Rattle.live_cmd.specs.declared.command.Verb.TheVariants as verb;
ghost use Rattle.live_entries.specs.declared.entry.Entry.TheVariants as entry;
ghost use Rattle.live_model.specs.Machine.{step};
ghost use Rattle.live_core.specs.Consistency.{IsReadable, IsReadItem, IsReady, Leaves, Steps};
ghost use Rattle.live_core.specs.Doing.{CanAsk, CanDo, DidFor};
ghost use Rattle.live_core.specs.Views.{plain_of};

use crate::refusals::refusal_of;
use live_cmd::{Bare, Command, Item, Verb};
use live_core::{Machine, one};
use live_entries::{Entry, Refusal};
use live_model::{Kind, Need};
use live_names::{number_meant, refusal_at};
use live_uses::Use;
use sig_base::{Name, NoMemory, NodeId, Scalar};
use sig_effect::EffectFault;
use sig_host::{EqualsRule, Lent, Shelf};
use std::alloc::Global;

// Want of memory, which is the only fault of a command that isn't refused.
fn memory_of(why: EffectFault) -> NoMemory
    requires { why ≡ fault.NoMemory }
{
    match why {
        EffectFault::NoMemory => NoMemory,
        EffectFault::Limit | EffectFault::Gone => unreachable!(),
    }
}

// Tells why an item is refused.
fn refused(alloc: Global, refusal: Refusal) -> Result<Vec<Entry>, NoMemory>
    ensures { IfOk result (λ es. es.items ≡ entry.Error refusal ∷ []) }
{
    let told = one(alloc, Entry::Error(refusal))?;
    Ok(told)
}

// Does a command, or refuses it. A frame of its own keeps what the rarer commands need away from those that are done before all others.
#[inline(never)]
fn try_command(
    machine: &mut Machine,
    shelf: &mut Shelf,
    rules: &[EqualsRule],
    command: Command,
    traced: bool,
) -> Result<Vec<Entry>, NoMemory>
    requires can { CanDo (⟦<Shelf as Lent>⟧.asked shelf.old) (length rules.now) machine.old (⟦<Shelf as Lent>⟧.counted shelf.old) (2 ^ 124) }
    requires read { IsReadable command }
    ensures did { IfOk result (λ es. DidFor traced (⟦<Shelf as Lent>⟧.asked shelf.old) (⟦<Shelf as Lent>⟧.asked shelf.new) (length rules.now) machine.old machine.new
        (λ hosts. ⟦<Shelf as Lent>⟧.answers hosts shelf.old) (λ hosts. ⟦<Shelf as Lent>⟧.answers hosts shelf.new) (⟦<Shelf as Lent>⟧.counted shelf.new) (2 ^ 80)
        es.items (λ hosts. step (environment hosts (map (λ r. r.slack) rules.now)) (plain_of (⟦<Shelf as Lent>⟧.asked shelf.old) machine.old) (item.Do command))) }
{
    let Ok(refusal) = refusal_of(machine, shelf, rules, &command) else {
        drop(command);
        return Err(NoMemory);
    };
    if let Some(refusal) = refusal {
        drop(command);
        return refused(machine.alloc, refusal);
    }
    match machine.perform(shelf, rules, command) {
        Ok(entries) => Ok(entries),
        Err(fault) => Err(memory_of(fault)),
    }
}

/// Sets a cell, or refuses that, which only the name may be a reason for. What the name stands for is looked up once. What it comes to and that another
/// command may follow are two clauses, as for each set; the four that ask are those of a set that isn't refused.
pub(crate) fn try_set(
    machine: &mut Machine,
    rules: &[EqualsRule],
    name: Name,
    value: Scalar,
) -> Result<Vec<Entry>, NoMemory>
    requires ready { IsReady machine.old }
    requires owned { AreOwned machine.old.world }
    requires weight { weight machine.old.world < 2 ^ 125 }
    requires ruled { AreRuled (length rules.now) machine.old.world.graph.state.signals }
    ensures steps { (hosts : Hosts) (asked : List HostPlace) → IsSound hosts asked machine.old.world →
        IfOk result (λ es. Steps hosts asked machine.new es.items
        (step (environment hosts (map (λ r. r.slack) rules.now)) (plain_of asked machine.old) (item.Do (command.Set name value)))) }
    ensures leaves { (hosts : Hosts) (asked : List HostPlace) (count : ℕ) → IsSound hosts asked machine.old.world →
        OnOk result (Leaves asked asked count machine.old machine.new) }
{
    let meaning = machine.names.meaning_of(&name);
    let used = Use {
        name: &name,
        need: Need::Of(Kind::Cell),
    };
    if let Some(refusal) = refusal_at(&machine.world, &used, meaning)? {
        return refused(machine.alloc, refusal);
    }
    let cell = NodeId::of(number_meant(meaning));
    match machine.set_value(rules, cell, value.into()) {
        Ok(told) => Ok(told),
        Err(fault) => Err(memory_of(fault)),
    }
}

/// Tells what a name comes to and not the runs on the way, or why that is refused, which only the name may be a reason for. What the name stands for is looked
/// up once.
pub(crate) fn try_get(
    machine: &mut Machine,
    shelf: &mut Shelf,
    name: Name,
) -> Result<Entry, NoMemory>
    requires can { CanAsk (⟦<Shelf as Lent>⟧.asked shelf.old) machine.old (⟦<Shelf as Lent>⟧.counted shelf.old) (2 ^ 125) }
    ensures did { (slacks : List ℕ) (count : ℕ) → IfOk result (λ e. DidFor false (⟦<Shelf as Lent>⟧.asked shelf.old) (⟦<Shelf as Lent>⟧.asked shelf.new) count
        machine.old machine.new (λ hosts. ⟦<Shelf as Lent>⟧.answers hosts shelf.old) (λ hosts. ⟦<Shelf as Lent>⟧.answers hosts shelf.new)
        (⟦<Shelf as Lent>⟧.counted shelf.new) (2 ^ 80)
        (e ∷ []) (λ hosts. step (environment hosts slacks) (plain_of (⟦<Shelf as Lent>⟧.asked shelf.old) machine.old) (item.Do (command.Named verb.Get name)))) }
{
    let meaning = machine.names.meaning_of(&name);
    let used = Use {
        name: &name,
        need: Need::Signal,
    };
    if let Some(refusal) = refusal_at(&machine.world, &used, meaning)? {
        return Ok(Entry::Error(refusal));
    }
    match machine.get_untraced(shelf, name, number_meant(meaning)) {
        Ok(told) => Ok(told),
        Err(fault) => Err(memory_of(fault)),
    }
}

// So it is with a list of what is told.
fn get(machine: &mut Machine, shelf: &mut Shelf, name: Name) -> Result<Vec<Entry>, NoMemory>
    requires can { CanAsk (⟦<Shelf as Lent>⟧.asked shelf.old) machine.old (⟦<Shelf as Lent>⟧.counted shelf.old) (2 ^ 125) }
    ensures did { (slacks : List ℕ) (count : ℕ) → IfOk result (λ es. DidFor false (⟦<Shelf as Lent>⟧.asked shelf.old) (⟦<Shelf as Lent>⟧.asked shelf.new) count
        machine.old machine.new (λ hosts. ⟦<Shelf as Lent>⟧.answers hosts shelf.old) (λ hosts. ⟦<Shelf as Lent>⟧.answers hosts shelf.new)
        (⟦<Shelf as Lent>⟧.counted shelf.new) (2 ^ 80)
        es.items (λ hosts. step (environment hosts slacks) (plain_of (⟦<Shelf as Lent>⟧.asked shelf.old) machine.old) (item.Do (command.Named verb.Get name)))) }
{
    let told = try_get(machine, shelf, name)?;
    let told = one(machine.alloc, told)?;
    Ok(told)
}

// Does what a verb says to a name, or refuses it. The runs on the way to what a `get` tells are told only where a trace is asked for. A frame of its
// own keeps what it needs away from other commands.
#[inline(never)]
fn try_verb(
    machine: &mut Machine,
    shelf: &mut Shelf,
    rules: &[EqualsRule],
    verb: Verb,
    name: Name,
    traced: bool,
) -> Result<Vec<Entry>, NoMemory>
    requires can { CanDo (⟦<Shelf as Lent>⟧.asked shelf.old) (length rules.now) machine.old (⟦<Shelf as Lent>⟧.counted shelf.old) (2 ^ 124) }
    ensures did { IfOk result (λ es. DidFor traced (⟦<Shelf as Lent>⟧.asked shelf.old) (⟦<Shelf as Lent>⟧.asked shelf.new) (length rules.now) machine.old machine.new
        (λ hosts. ⟦<Shelf as Lent>⟧.answers hosts shelf.old) (λ hosts. ⟦<Shelf as Lent>⟧.answers hosts shelf.new) (⟦<Shelf as Lent>⟧.counted shelf.new) (2 ^ 80)
        es.items (λ hosts. step (environment hosts (map (λ r. r.slack) rules.now)) (plain_of (⟦<Shelf as Lent>⟧.asked shelf.old) machine.old) (item.Do (command.Named verb name)))) }
{
    if traced {
        return try_command(machine, shelf, rules, Command::Named { verb, name }, traced);
    }
    match verb {
        Verb::Get => get(machine, shelf, name),
        _ => try_command(machine, shelf, rules, Command::Named { verb, name }, traced),
    }
}

// Brings the effects that are due and the pages up to date, or refuses that, which only an open batch may be a reason for.
fn try_flush(
    machine: &mut Machine,
    shelf: &mut Shelf,
    rules: &[EqualsRule],
    traced: bool,
) -> Result<Vec<Entry>, NoMemory>
    requires can { CanDo (⟦<Shelf as Lent>⟧.asked shelf.old) (length rules.now) machine.old (⟦<Shelf as Lent>⟧.counted shelf.old) (2 ^ 124) }
    ensures did { IfOk result (λ es. DidFor traced (⟦<Shelf as Lent>⟧.asked shelf.old) (⟦<Shelf as Lent>⟧.asked shelf.new) (length rules.now) machine.old machine.new
        (λ hosts. ⟦<Shelf as Lent>⟧.answers hosts shelf.old) (λ hosts. ⟦<Shelf as Lent>⟧.answers hosts shelf.new) (⟦<Shelf as Lent>⟧.counted shelf.new) (2 ^ 80)
        es.items (λ hosts. step (environment hosts (map (λ r. r.slack) rules.now)) (plain_of (⟦<Shelf as Lent>⟧.asked shelf.old) machine.old)
        (item.Do (command.Bare bares.Flush)))) }
{
    if machine.batch.is_some() {
        return try_command(machine, shelf, rules, Command::Bare(Bare::Flush), traced);
    }
    match machine.flush(shelf, rules, traced) {
        Ok(entries) => Ok(entries),
        Err(fault) => Err(memory_of(fault)),
    }
}

// Does a command of one word, or refuses it.
fn try_bare(
    machine: &mut Machine,
    shelf: &mut Shelf,
    rules: &[EqualsRule],
    bare: Bare,
    traced: bool,
) -> Result<Vec<Entry>, NoMemory>
    requires can { CanDo (⟦<Shelf as Lent>⟧.asked shelf.old) (length rules.now) machine.old (⟦<Shelf as Lent>⟧.counted shelf.old) (2 ^ 124) }
    ensures did { IfOk result (λ es. DidFor traced (⟦<Shelf as Lent>⟧.asked shelf.old) (⟦<Shelf as Lent>⟧.asked shelf.new) (length rules.now) machine.old machine.new
        (λ hosts. ⟦<Shelf as Lent>⟧.answers hosts shelf.old) (λ hosts. ⟦<Shelf as Lent>⟧.answers hosts shelf.new) (⟦<Shelf as Lent>⟧.counted shelf.new) (2 ^ 80)
        es.items (λ hosts. step (environment hosts (map (λ r. r.slack) rules.now)) (plain_of (⟦<Shelf as Lent>⟧.asked shelf.old) machine.old) (item.Do (command.Bare bare)))) }
{
    match bare {
        Bare::Flush => try_flush(machine, shelf, rules, traced),
        _ => try_command(machine, shelf, rules, Command::Bare(bare), traced),
    }
}

// Does a command, or refuses it. What scripts say most, to set, to get and to flush, is looked at before all others.
fn do_command(
    machine: &mut Machine,
    shelf: &mut Shelf,
    rules: &[EqualsRule],
    command: Command,
    traced: bool,
) -> Result<Vec<Entry>, NoMemory>
    requires can { CanDo (⟦<Shelf as Lent>⟧.asked shelf.old) (length rules.now) machine.old (⟦<Shelf as Lent>⟧.counted shelf.old) (2 ^ 124) }
    requires read { IsReadable command }
    ensures did { IfOk result (λ es. DidFor traced (⟦<Shelf as Lent>⟧.asked shelf.old) (⟦<Shelf as Lent>⟧.asked shelf.new) (length rules.now) machine.old machine.new
        (λ hosts. ⟦<Shelf as Lent>⟧.answers hosts shelf.old) (λ hosts. ⟦<Shelf as Lent>⟧.answers hosts shelf.new) (⟦<Shelf as Lent>⟧.counted shelf.new) (2 ^ 80)
        es.items (λ hosts. step (environment hosts (map (λ r. r.slack) rules.now)) (plain_of (⟦<Shelf as Lent>⟧.asked shelf.old) machine.old) (item.Do command))) }
{
    match command {
        Command::Set { name, value } => try_set(machine, rules, name, value),
        Command::Named { verb, name } => try_verb(machine, shelf, rules, verb, name, traced),
        Command::Bare(bare) => try_bare(machine, shelf, rules, bare, traced),
        command => try_command(machine, shelf, rules, command, traced),
    }
}

/// Does one item. A refused one changes nothing. What only a trace prints may be left out where none is asked for.
pub(crate) fn act(
    machine: &mut Machine,
    shelf: &mut Shelf,
    rules: &[EqualsRule],
    item: Item,
    traced: bool,
) -> Result<Vec<Entry>, NoMemory>
    requires can { CanDo (⟦<Shelf as Lent>⟧.asked shelf.old) (length rules.now) machine.old (⟦<Shelf as Lent>⟧.counted shelf.old) (2 ^ 124) }
    requires read { IsReadItem item }
    ensures did { IfOk result (λ es. DidFor traced (⟦<Shelf as Lent>⟧.asked shelf.old) (⟦<Shelf as Lent>⟧.asked shelf.new) (length rules.now) machine.old machine.new
        (λ hosts. ⟦<Shelf as Lent>⟧.answers hosts shelf.old) (λ hosts. ⟦<Shelf as Lent>⟧.answers hosts shelf.new) (⟦<Shelf as Lent>⟧.counted shelf.new) (2 ^ 80)
        es.items (λ hosts. step (environment hosts (map (λ r. r.slack) rules.now)) (plain_of (⟦<Shelf as Lent>⟧.asked shelf.old) machine.old) item)) }
{
    match item {
        Item::Do(command) => do_command(machine, shelf, rules, command, traced),
        Item::Refused(refusal) => refused(machine.alloc, refusal),
    }
}

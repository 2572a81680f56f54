// An effect keeps what it has read.
ghost use Rattle.std.specs.Prelude.{◌≡◌, ◌∷◌, ◌+◌, [], ℕ, List, IfOk, OnOk, length};
ghost use Rattle.signal_model.specs.Sound.{names_of};
ghost use Rattle.effect_model.specs.Runs.{keep_reads};
ghost use Rattle.sig_host.specs.Hosts.{HostPlace};
ghost use Rattle.effect_world.specs.Signals.{any_hosts, scene};
ghost use Rattle.effect_world.specs.Stores.{Agrees, AreOwned};
ghost use Rattle.effect_world.specs.Answers.{Acted};

use effect_world::World;
use sig_base::{EffectId, NoMemory, NodeId};
use sig_effect::Event;
use sig_untrack::Read;
use std::alloc::Global;

// The signal that was read, and no other.
fn name_of(alloc: Global, read: &Read) -> Result<Vec<NodeId>, NoMemory>
    ensures { IfOk result (λ v. v.items ≡ names_of (read.now ∷ [])) }
{
    let mut names = Vec::with_capacity(alloc, 1)?;
    names.push(read.id)?;
    Ok(names)
}

/// An effect keeps the tracked reads of its body, which was evaluated, and that is told.
///
/// # Errors
///
/// After `NoMemory` the world may only be dropped.
pub fn keep_reads(
    world: &mut World,
    id: EffectId,
    reads: Vec<Read>,
    events: &mut Vec<Event>,
) -> Result<(), NoMemory>
    requires { AreOwned world.old }
    ensures done { (asked : List HostPlace) (slacks : List ℕ) → Agrees asked world.old → OnOk result (Acted slacks
        (scene world.old asked events.old.items) (scene world.new asked events.new.items) any_hosts any_hosts 0 (λ env. keep_reads id reads.items)) }
    ensures told { OnOk result (length events.new.items ≡ length events.old.items + 1) }
{
    let alloc = *events.allocator();
    world.heard.miss(&world.tables.effects, id);
    let names = sig_untrack::names(alloc, &reads)?;
    world.tables.keep(id, reads);
    events.push(Event::Body(id, names))?;
    Ok(())
}

/// An effect keeps the one tracked read of its body, which was evaluated, and that is told.
///
/// # Errors
///
/// After `NoMemory` the world may only be dropped.
pub fn keep_one(
    world: &mut World,
    id: EffectId,
    read: Read,
    events: &mut Vec<Event>,
) -> Result<(), NoMemory>
    requires { AreOwned world.old }
    ensures done { (asked : List HostPlace) (slacks : List ℕ) → Agrees asked world.old → OnOk result (Acted slacks
        (scene world.old asked events.old.items) (scene world.new asked events.new.items) any_hosts any_hosts 0 (λ env. keep_reads id (read ∷ []))) }
    ensures told { OnOk result (length events.new.items ≡ length events.old.items + 1) }
{
    let alloc = *events.allocator();
    let effects = &world.tables.effects;
    world.heard.miss(effects, id);
    let names = name_of(alloc, &read)?;
    world.tables.keep_one(alloc, id, read)?;
    events.push(Event::Body(id, names))?;
    Ok(())
}

// Effects that need no look.
ghost use Rattle.std.specs.Prelude.{◌≡◌, IsTrue, OnOk};
ghost use Rattle.effect_tables.specs.Consistency.{TablesAgree};
ghost use Rattle.effect_tables.specs.Placed.{effect_of};
ghost use Rattle.effect_world.specs.Stores.{Hears};
ghost use Rattle.effect_turns.specs.Stills.{are_kept_still, IsNext, IsQuiet};

use crate::near::{effect_here, parting};
use effect_runs::are_still;
use effect_tables::{Effect, Heard};
use effect_world::World;
use sig_base::{EffectId, NoMemory, NodeId};
use sig_graph::Graph;
use sig_untrack::Read;
use std::alloc::Global;

// Whether an effect has run, and all that it read, tracked, in its last run are cells that have their values still.
fn has_still(graph: &Graph, effect: &Effect) -> bool
    ensures { result ≡ are_kept_still graph.now.state.signals (effect_of effect.now).kept }
{
    match &effect.kept {
        Some(reads) => are_still(graph, reads.as_slice()),
        None => false,
    }
}

/// Whether the effect of a number stands at a place, has run, and has read cells alone that have their values still. Then it isn't due, and a
/// look at it would do nothing.
pub(crate) fn is_quiet(world: &World, place: usize, id: EffectId) -> bool
    requires { TablesAgree world.now.tables }
    ensures { IsTrue result → IsQuiet id world.now }
{
    match effect_here(&world.tables.effects, place, id) {
        Some(effect) => has_still(&world.graph, effect),
        None => false,
    }
}

/// The place of the next effect that may need a look, of those whose numbers aren't lower than this. It is looked for from a place on.
pub(crate) fn next_loud(world: &World, near: usize, low: u64) -> usize
    requires tables { TablesAgree world.now.tables }
    requires heard { Hears world.now }
    ensures { IsNext low result world.now }
{
    let first = parting(&world.tables.effects, near, low);
    world.heard.next_loud(first)
}

// Of how many effects at most it is noted that one cell wakes them, as each that is noted is looked for among them.
const MOST_NOTED: usize = 32;

// Whether a cell wakes as many. It decides what is marked, and nothing of what comes of it.
fn is_crowded(heard: &Heard, id: NodeId) -> bool {
    match heard.readers.get(&id) {
        Some(places) => places.len() > MOST_NOTED,
        None => false,
    }
}

// Whether one of these was read of such a cell.
fn some_crowded(heard: &Heard, reads: &[Read]) -> bool {
    reads.iter().any(|read| is_crowded(heard, read.id))
}

/// Marks the effect of a number, which stands at a place: until a cell that it read has another value it needs no look. One that
/// read a cell of which many are noted stays unmarked.
///
/// # Errors
///
/// After `NoMemory` the world may only be dropped.
pub(crate) fn hear(
    world: &mut World,
    alloc: Global,
    place: usize,
    id: EffectId,
) -> Result<(), NoMemory>
    requires tables { TablesAgree world.old.tables }
    requires heard { Hears world.old }
    requires quiet { IsQuiet id world.old }
    ensures same { OnOk result (world.new ≡ record world.old { heard = world.new.heard }) }
    ensures heard { OnOk result (Hears world.new) }
{
    let Some(effect) = effect_here(&world.tables.effects, place, id) else {
        return Ok(());
    };
    let Some(reads) = &effect.kept else {
        return Ok(());
    };
    if some_crowded(&world.heard, reads) {
        return Ok(());
    }
    world.heard.hear(alloc, place, reads)?;
    Ok(())
}

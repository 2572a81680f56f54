// Readers in the sets of dependants of what they keep.
ghost use Rattle.std.specs.Prelude.{◌≡◌, ℕ, ◌+◌, ◌<◌, ◌≤◌, ◌^◌, ◌==◌, ◌⊎◌, [], ◌∷◌, length, true, false, if◌then◌else◌, slice_get, slice_set, IfSome, OnOk, OnErr};
ghost use Rattle.std.specs.List.{All};
ghost use Rattle.signal_model.specs.Laws.{AreDistinct};
ghost use Rattle.signal_model.specs.Signals.{is_in};
ghost use Rattle.sig_marks.specs.Tables.{Drops, Relinks};
ghost use Rattle.sig_marks.specs.Sets.{HasRoom, Links, Makes, Unlinks, depends_in, keys_held, keys_of, spare_at, stands_of};

use crate::presence::stands_in;
use crate::readers::Readers;
use sig_base::{NoMemory, NodeId};
use sig_store::Store;
use std::alloc::Global;

fn unlink_at(sets: &mut Store<Readers>, from: NodeId, reader: u64)
    ensures { Unlinks sets.old.entries sets.new.entries (from ∷ []) reader }
{
    let id = from.number();
    if !stands_in(sets, id) {
        return;
    }
    let readers = sets.value_mut(id);
    readers.remove(reader);
}

fn link_at(sets: &mut Store<Readers>, to: NodeId, reader: u64)
    requires { HasRoom sets.old.entries reader to }
    ensures on { Links sets.old.entries sets.new.entries (to ∷ []) reader }
    ensures room { (m : ℕ) → HasRoom sets.old.entries reader m → HasRoom sets.new.entries reader m }
{
    let id = to.number();
    if !stands_in(sets, id) {
        return;
    }
    let readers = sets.value_mut(id);
    readers.insert(reader);
}

fn reserve_at(
    sets: &mut Store<Readers>,
    alloc: Global,
    to: NodeId,
    reader: u64,
) -> Result<(), NoMemory>
    ensures ok { OnOk result (0 < spare_at sets.new.entries reader to) }
    ensures makes { Makes sets.old.entries sets.new.entries reader }
{
    let id = to.number();
    if !stands_in(sets, id) {
        return Ok(());
    }
    let readers = sets.value_mut(id);
    readers.reserve(alloc, reader)
}

// Takes a reader out of the dependants of all these sources.
fn unlink_all(sets: &mut Store<Readers>, sources: &[NodeId], reader: u64)
    ensures { Unlinks sets.old.entries sets.new.entries sources.now reader }
{
    for source in sources {
        unlink_at(sets, *source, reader);
    }
}

// Puts a reader among the dependants of all of these that stand, in room that is there.
fn link_all(sets: &mut Store<Readers>, reads: &[NodeId], reader: u64)
    requires { All (λ n. 0 < spare_at sets.old.entries reader n) reads.now }
    ensures { Links sets.old.entries sets.new.entries reads.now reader }
{
    for read in reads {
        link_at(sets, *read, reader);
    }
}

// Makes room for a reader in each of these. What there is stays, after an `Err` too.
fn reserve_all(
    sets: &mut Store<Readers>,
    alloc: Global,
    reads: &[NodeId],
    reader: u64,
) -> Result<(), NoMemory>
    ensures ok { OnOk result (All (λ n. 0 < spare_at sets.new.entries reader n) reads.now) }
    ensures makes { Makes sets.old.entries sets.new.entries reader }
{
    for read in reads {
        reserve_at(sets, alloc, *read, reader)?;
    }
    Ok(())
}

/// Gives a reader these sources in place of the earlier ones. After an `Err` only room was made.
pub(crate) fn relink(
    sets: &mut Store<Readers>,
    alloc: Global,
    sources: &[NodeId],
    reads: &[NodeId],
    reader: u64,
) -> Result<(), NoMemory>
    ensures ok { OnOk result (Relinks (keys_of sets.old.entries) (keys_of sets.new.entries) (stands_of sets.old.entries) sources.now reads.now reader) }
    ensures few { (m d : ℕ) → depends_in sets.new.entries m d ≡ true → (reader ≡ d) ⊎ (depends_in sets.old.entries m d ≡ true) }
    ensures stands { stands_of sets.new.entries ≡ stands_of sets.old.entries }
    ensures err { OnErr result (keys_of sets.new.entries ≡ keys_of sets.old.entries) }
{
    reserve_all(sets, alloc, reads, reader)?;
    unlink_all(sets, sources, reader);
    link_all(sets, reads, reader);
    Ok(())
}

/// The reader at a place of a set, none past the last one. It takes no memory.
pub(crate) fn reader_at(set: &Readers, place: usize) -> Option<NodeId>
    ensures at { result ≡ slice_get (keys_held set.now) place }
    ensures once { AreDistinct (keys_held set.now) }
    ensures next { IfSome result (λ d. place + 1 < 2 ^ 64) }
{
    let readers = set.as_slice();
    if place < readers.len() {
        Some(NodeId::of(readers[place]))
    } else {
        None
    }
}

// Takes a signal's set away.
fn forget_at(sets: &mut Store<Readers>, id: u64)
    ensures off { (m d : ℕ) → depends_in sets.new.entries m d ≡ (if m == id then false else depends_in sets.old.entries m d) }
    ensures stands { stands_of sets.new.entries ≡ slice_set (stands_of sets.old.entries) id false }
{
    if !stands_in(sets, id) {
        return;
    }
    let _set = sets.remove(id);
}

/// Takes a signal out of the dependants of its sources, and takes its own set away. It takes no memory.
pub(crate) fn drop_links(sets: &mut Store<Readers>, sources: &[NodeId], id: u64)
    ensures after { Drops (keys_of sets.old.entries) (keys_of sets.new.entries) sources.now id }
    ensures stands { stands_of sets.new.entries ≡ slice_set (stands_of sets.old.entries) id false }
{
    unlink_all(sets, sources, id);
    forget_at(sets, id);
}

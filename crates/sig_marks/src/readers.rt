// Who reads a signal.
ghost use Rattle.std.specs.Prelude.{◌≡◌, ℕ, ◌<◌, ◌≤◌, ◌==◌, ◌⊎◌, [], ◌∷◌, true, false, if◌then◌else◌, IfOk, OnOk};
ghost use Rattle.indexmap.specs.IndexSet.{spare};
ghost use Rattle.signal_model.specs.Laws.{AreDistinct};
ghost use Rattle.signal_model.specs.Signals.{is_in};
ghost use Rattle.sig_marks.specs.Sets.{keys_held, room_for};

use crate::reader_list::ReaderList;
use indexmap::IndexSet;
use sig_base::NoMemory;
use std::alloc::Global;
use std::slice;

// So many readers stand in a list; where there are more, they have an index.
const MOST_LISTED: usize = 8;

/// The readers of a signal, each once. While there is but one it stands in place, so that most signals take no memory for them.
#[derive(Drop)]
pub(crate) enum Readers {
    /// None.
    Nobody,
    /// One.
    One(u64),
    /// A few, once there was room for two.
    Few(ReaderList),
    /// Any number of them, once there was room for more than a few.
    Many(Box<IndexSet<u64>>),
}

// Room for a reader more in a set.
fn reserve_one(set: &mut IndexSet<u64>) -> Result<(), NoMemory>
    ensures ok { OnOk result (0 < spare set.new) }
    ensures keys { set.new.keys ≡ set.old.keys }
    ensures room { spare set.old ≤ spare set.new }
{
    set.reserve(1)?;
    Ok(())
}

// A reader's end in a set.
fn unlink_one(set: &mut IndexSet<u64>, reader: u64)
    ensures off { (d : ℕ) → is_in d set.new.keys ≡ (if reader == d then false else is_in d set.old.keys) }
    ensures room { spare set.old ≤ spare set.new }
{
    set.swap_remove(&reader);
}

// A reader more in a set, in room that is there.
fn link_one(set: &mut IndexSet<u64>, reader: u64)
    requires { (is_in reader set.old.keys ≡ true) ⊎ (0 < spare set.old) }
    ensures on { (d : ℕ) → is_in d set.new.keys ≡ (if reader == d then true else is_in d set.old.keys) }
{
    match set.insert(reader) {
        Ok(_) => {}
        Err(_) => unreachable!(),
    }
}

impl Readers {
    /// They, in their order.
    #[inline(always)]
    pub(crate) fn as_slice(&self) -> &[u64]
        ensures keys { result.now ≡ keys_held self.now }
        ensures once { AreDistinct (keys_held self.now) }
    {
        match self {
            Readers::Nobody => &[],
            Readers::One(reader) => slice::from_ref(reader),
            Readers::Few(list) => list.as_slice(),
            Readers::Many(set) => set.as_slice(),
        }
    }

    /// A reader's end, which takes no memory.
    pub(crate) fn remove(&mut self, reader: u64)
        ensures off { (d : ℕ) → is_in d (keys_held self.new) ≡ (if reader == d then false else is_in d (keys_held self.old)) }
        ensures room { room_for reader self.old ≤ room_for reader self.new }
    {
        match self {
            Readers::Nobody => {}
            Readers::One(one) => {
                if *one == reader {
                    *self = Readers::Nobody;
                }
            }
            Readers::Few(list) => list.remove(reader),
            Readers::Many(set) => unlink_one(set, reader),
        }
    }

    /// A reader more, in room that is there.
    pub(crate) fn insert(&mut self, reader: u64)
        requires { (is_in reader (keys_held self.old) ≡ true) ⊎ (0 < room_for reader self.old) }
        ensures on { (d : ℕ) → is_in d (keys_held self.new) ≡ (if reader == d then true else is_in d (keys_held self.old)) }
    {
        match self {
            Readers::Nobody => *self = Readers::One(reader),
            Readers::One(_) => {}
            Readers::Few(list) => list.insert(reader),
            Readers::Many(set) => link_one(set, reader),
        }
    }

    /// Room for a reader, once it is none of them any more. After an `Err` only room was made.
    pub(crate) fn reserve(&mut self, alloc: Global, reader: u64) -> Result<(), NoMemory>
        ensures ok { OnOk result (0 < room_for reader self.new) }
        ensures keys { keys_held self.new ≡ keys_held self.old }
        ensures room { room_for reader self.old ≤ room_for reader self.new }
    {
        match self {
            Readers::Nobody => Ok(()),
            Readers::One(one) => {
                if *one != reader {
                    *self = Readers::Few(ReaderList::of(alloc, *one)?);
                }
                Ok(())
            }
            Readers::Few(list) => {
                if list.has_room() {
                    return Ok(());
                }
                if list.len() < MOST_LISTED {
                    return list.reserve();
                }
                *self = Readers::Many(list.indexed(alloc)?);
                Ok(())
            }
            Readers::Many(set) => reserve_one(set),
        }
    }
}

// A few readers in a list.
ghost use Rattle.std.specs.Prelude.{◌≡◌, ℕ, ◌<◌, ◌≤◌, ◌+◌, ◌==◌, ◌⊎◌, [], ◌∷◌, length, true, false, if◌then◌else◌, slice_get, IfSome, IfNone, IfOk, OnOk, Some};
ghost use Rattle.indexmap.specs.IndexSet.{spare};
ghost use Rattle.signal_model.specs.Laws.{AreDistinct};
ghost use Rattle.signal_model.specs.Signals.{is_in};

use indexmap::IndexSet;
use sig_base::NoMemory;
use std::alloc::Global;
use std::marker::Model;

// How many readers there is room for at first.
const FIRST_ROOM: usize = 4;

/// A few readers, each once, in the order in which they came where none has gone.
#[derive(Drop)]
pub(crate) struct ReaderList {
    keys: Vec<u64>,
}

impl Model for ReaderList {
    ghost use Rattle.signal_model.specs.Laws.{AreDistinct};
    ghost use Rattle.std.specs.Prelude.{◌-◌, vec_capacity, vec_len};
    ghost use Rattle.sig_marks.specs.Listed.{ReaderKeys};

    ghost Value = { ReaderKeys };

    ghost view = { λ l. record { keys = l.keys.items; room = vec_capacity l.keys - vec_len l.keys } };

    ghost invariant = { λ l. AreDistinct l.keys.items };
}

// Where a reader stands in a list, none if it isn't there.
fn place_of(keys: &[u64], reader: u64) -> Option<usize>
    ensures within { IfSome result (λ p. p < length keys.now) }
    ensures some { IfSome result (λ p. slice_get keys.now p ≡ Some reader) }
    ensures none { IfNone result (is_in reader keys.now ≡ false) }
{
    for place in 0..keys.len() {
        if keys[place] == reader {
            return Some(place);
        }
    }
    None
}

// An index of a list, with room for one more.
fn index_of(alloc: Global, keys: &[u64]) -> Result<Box<IndexSet<u64>>, NoMemory>
    requires { AreDistinct keys.now }
    ensures { IfOk result (λ s. (s.value.keys ≡ keys.now) × (0 < spare s.value)) }
{
    let mut set = IndexSet::with_capacity(alloc, keys.len() + 1)?;
    for key in keys {
        set.insert(*key)?;
    }
    set.reserve(1)?;
    let held = Box::new(alloc, set)?;
    Ok(held)
}

impl ReaderList {
    /// One reader, with room for more.
    pub(crate) fn of(alloc: Global, reader: u64) -> Result<ReaderList, NoMemory>
        ensures { IfOk result (λ f. (f.keys ≡ reader ∷ []) × (0 < f.room)) }
    {
        let mut keys = Vec::with_capacity(alloc, FIRST_ROOM)?;
        keys.push_reserved(reader);
        Ok(ReaderList { keys })
    }

    /// They, in their order.
    #[inline(always)]
    pub(crate) fn as_slice(&self) -> &[u64]
        ensures keys { result.now ≡ self.now.keys }
        ensures once { AreDistinct self.now.keys }
    {
        &self.keys
    }

    /// How many they are.
    pub(crate) fn len(&self) -> usize
        ensures { result ≡ length self.now.keys }
    {
        self.keys.len()
    }

    /// A reader's end, which takes no memory.
    pub(crate) fn remove(&mut self, reader: u64)
        ensures off { (d : ℕ) → is_in d self.new.keys ≡ (if reader == d then false else is_in d self.old.keys) }
        ensures room { self.old.room ≤ self.new.room }
    {
        let Some(place) = place_of(&self.keys, reader) else {
            return;
        };
        self.keys.remove(place);
    }

    /// A reader more, in room that is there.
    pub(crate) fn insert(&mut self, reader: u64)
        requires { (is_in reader self.old.keys ≡ true) ⊎ (0 < self.old.room) }
        ensures on { (d : ℕ) → is_in d self.new.keys ≡ (if reader == d then true else is_in d self.old.keys) }
    {
        if place_of(&self.keys, reader).is_some() {
            return;
        }
        self.keys.push_reserved(reader);
    }

    /// Whether there is room for a reader more.
    pub(crate) fn has_room(&self) -> bool
        ensures yes { result ≡ true → 0 < self.now.room }
        ensures full { result ≡ false → self.now.room ≡ 0 }
    {
        self.keys.len() < self.keys.capacity()
    }

    /// Room for a reader more.
    pub(crate) fn reserve(&mut self) -> Result<(), NoMemory>
        ensures ok { OnOk result (0 < self.new.room) }
        ensures keys { self.new.keys ≡ self.old.keys }
        ensures room { self.old.room ≤ self.new.room }
    {
        self.keys.reserve(1)?;
        Ok(())
    }

    /// The same readers in an index, with room for one more.
    pub(crate) fn indexed(&self, alloc: Global) -> Result<Box<IndexSet<u64>>, NoMemory>
        ensures { IfOk result (λ s. (s.value.keys ≡ self.now.keys) × (0 < spare s.value)) }
    {
        index_of(alloc, self.as_slice())
    }
}

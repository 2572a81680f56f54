// Owners by their own numbers.
ghost use Rattle.std.specs.Prelude.{◌≡◌, ◌+◌, ◌++◌, ◌∷◌, [], length, Some, IfOk, OnOk};
ghost use Rattle.effect_tables.specs.Owners.{closed_at, living};
ghost use Rattle.sig_store.specs.Stored.{entry};

use sig_base::{NoMemory, OwnerId};
use sig_store::Store;
use std::alloc::Global;
use std::marker::Model;

/// The row of the store that each owner has, by the owners' own numbers. Of an owner that is gone none is kept.
#[derive(Drop)]
pub struct OwnerRows {
    rows: Store<OwnerId>,
    live: usize,
}

impl Model for OwnerRows {
    ghost use Rattle.effect_tables.specs.Owners.{OwnerList};

    ghost Value = { OwnerList };

    ghost use Rattle.std.specs.Prelude.{◌≡◌, length};
    ghost use Rattle.effect_tables.specs.Owners.{living};

    ghost view = { λ o. record { items = o.rows.entries } };

    ghost invariant = { λ o. o.live ≡ length (living 0 o.rows.entries) };
}

// One more, where so many can be counted.
fn one_more(count: usize) -> Result<usize, NoMemory>
    ensures { IfOk result (λ n. n ≡ count + 1) }
{
    if count == usize::MAX {
        return Err(NoMemory);
    }
    Ok(count + 1)
}

impl OwnerRows {
    /// No owners.
    pub fn new(alloc: Global) -> OwnerRows
        ensures { result.items ≡ [] }
    {
        OwnerRows {
            rows: Store::new(alloc),
            live: 0,
        }
    }

    /// How many were made.
    pub fn made(&self) -> u64
        ensures { result ≡ length self.now.items }
    {
        self.rows.made()
    }

    /// How many live.
    pub fn live(&self) -> usize
        ensures { result ≡ length (living 0 self.now.items) }
    {
        self.live
    }

    /// The row of an owner, none where it is gone or wasn't made.
    pub fn get(&self, id: OwnerId) -> Option<OwnerId>
        ensures { result ≡ entry self.now.items id }
    {
        self.rows.get(id.number()).copied()
    }

    /// One owner more, which lives and has this row. Its number is the next.
    pub(crate) fn add(&mut self, row: OwnerId) -> Result<(), NoMemory>
        ensures { OnOk result (self.new.items ≡ self.old.items ++ Some row ∷ []) }
    {
        let live = one_more(self.live)?;
        self.rows.reserve(1)?;
        self.rows.push(row);
        self.live = live;
        Ok(())
    }

    /// An owner is gone; its row is given, none where it was gone before or wasn't made.
    pub fn close(&mut self, id: OwnerId) -> Option<OwnerId>
        ensures row { result ≡ entry self.old.items id }
        ensures after { self.new.items ≡ closed_at id self.old.items }
    {
        if self.get(id).is_none() {
            return None;
        }
        self.live -= 1;
        Some(self.rows.remove(id.number()))
    }
}

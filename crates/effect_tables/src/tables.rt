// The tables.
ghost use Rattle.std.specs.Prelude.{◌≡◌, IfOk};
ghost use Rattle.effect_model.specs.Owners.{nothing};
ghost use Rattle.effect_model.specs.Worlds.{World};
ghost use Rattle.sig_owner.specs.Trees.{owned_of};
ghost use Rattle.effect_tables.specs.Consistency.{TablesAgree};
ghost use Rattle.effect_tables.specs.Placed.{placed, untouched};

use crate::effect::Effect;
use crate::owner_rows::OwnerRows;
use crate::thing::Thing;
use indexmap::IndexMap;
use sig_base::{NoMemory, OwnerId, PageId};
use sig_owner::Owners;
use std::alloc::Global;

/// Owners, effects and pages. The store has what stands under what, by rows of its own; `things` says which thing each row is that lives,
/// and `owners` which row an owner has. Effects and pages stand in the order of making. Of what ended nothing is kept.
pub struct Tables {
    pub store: Owners,
    pub things: IndexMap<OwnerId, Thing>,
    pub owners: OwnerRows,
    pub effects: Vec<Effect>,
    pub pages: Vec<PageId>,
    pub effects_made: u64,
    pub pages_made: u64,
}

impl Drop for Tables {
    fn drop(self) {
        let Tables {
            store: _,
            things: _,
            owners: _,
            effects: _,
            pages: _,
            effects_made: _,
            pages_made: _,
        } = self;
    }
}

impl Tables {
    /// Nothing was made.
    ///
    /// # Errors
    ///
    /// `NoMemory` where memory ran out.
    pub fn new(alloc: Global) -> Result<Tables, NoMemory>
        ensures placed { (w : World) → IfOk result (λ t. placed t w ≡ untouched w) }
        ensures holds { IfOk result (λ t. TablesAgree t) }
        ensures bare { IfOk result (λ t. owned_of t.store ≡ nothing) }
    {
        let store = Owners::new(alloc)?;
        let things = IndexMap::new(alloc);
        let owners = OwnerRows::new(alloc);
        let effects = Vec::new(alloc);
        let pages = Vec::new(alloc);
        Ok(Tables {
            store,
            things,
            owners,
            effects,
            pages,
            effects_made: 0,
            pages_made: 0,
        })
    }
}

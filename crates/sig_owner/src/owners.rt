// The store of owners.
ghost use Rattle.std.specs.Prelude.{◌≡◌, ℕ, ◌&&◌, not, ◌<◌, ◌≤◌, ◌↔◌, [], length, true, false, IfOk, IsErrOf, OnOk, OnErr};
ghost use Rattle.effect_model.specs.Owners as owning;
ghost use Rattle.effect_model.specs.Owners.{alone, emptied, put_under, taken_out, teardown_of, the_effect, the_owner, under, is_holder};
ghost use Rattle.effect_model.specs.declared.limits.TheConstants.{MOST_OWNERS};
ghost use Rattle.sig_owner.specs.declared.errors.OwnFault.TheVariants as fault;
ghost use Rattle.sig_owner.specs.Tables.{changed_at, cleanup_of, dropped, is_open, leaf, live_at, noted, owner_count, thing_at, thing_of, with_holder, with_item};
ghost use Rattle.sig_owner.specs.Trees.{has_thing, made_in, owned_of};
ghost use Rattle.sig_owner.specs.Walks.{is_ended, undoings_of, with_taken_back};

use crate::errors::OwnFault;
use crate::holder::{
    Holder, Made, add_holder, clear_at, drop_holder_at, drop_leaf_at, end_each, is_live_at,
    is_open, is_thing_at, put_at,
};
use crate::places::{forget, forget_each, hint_of, note_place};
use crate::thing::{CleanupAct, Thing, Undoing};
use crate::walk::teardown_under;
use effect_model::MOST_OWNERS;
use indexmap::IndexMap;
use sig_base::{EffectId, NoMemory, OwnerId};
use sig_store::Store;
use std::alloc::Global;
use std::marker::Model;

/// Owners, and effects with the owner that was made for each: what stands under what, and the cleanups that are noted there. What ended
/// leaves nothing behind.
pub struct Owners {
    alloc: Global,
    holders: Store<Holder>,
    owners: usize,
    places: IndexMap<Thing, OwnerId>,
}

impl Drop for Owners {
    fn drop(self) {
        let Owners {
            alloc: _,
            holders: _,
            owners: _,
            places: _,
        } = self;
    }
}

impl Model for Owners {
    ghost use Rattle.std.specs.Prelude.{List};
    ghost use Rattle.sig_owner.specs.Tables.{Row};

    ghost Value = { List Row };

    ghost use Rattle.sig_owner.specs.Tables.{rows_of};
    ghost use Rattle.sig_owner.specs.Keys.{placed};
    ghost use Rattle.sig_owner.specs.Places.{Keeps};

    ghost view = { λ o. rows_of o.holders.entries };

    ghost invariant = { λ o. Keeps (rows_of o.holders.entries) o.owners (placed o.places) };
}

impl Owners {
    /// No owners.
    pub fn new(alloc: Global) -> Result<Owners, NoMemory>
        ensures after { IfOk result (λ o. o ≡ []) }
        ensures tree { IfOk result (λ o. owned_of o ≡ owning.nothing) }
    {
        Ok(Owners {
            alloc,
            holders: Store::new(alloc),
            owners: 0,
            places: IndexMap::new(alloc),
        })
    }

    /// Makes an owner, which stands last inside the one that is given, else at the top. It is refused where as many owners live as may be,
    /// or where the one that is given is gone. After a refusal, and without memory, the store is as before.
    pub fn make(&mut self, inside: Option<OwnerId>) -> Result<OwnerId, OwnFault>
        ensures after { IfOk result (λ id. self.new ≡ with_holder self.old inside (the_owner id)) }
        ensures tree { IfOk result (λ id. owned_of self.new ≡ made_in self.old inside (the_owner id) (owned_of self.old)) }
        ensures gives { IfOk result (λ id. id ≡ length self.old) }
        ensures limit { IsErrOf result fault.Limit ↔ (MOST_OWNERS ≤ owner_count self.old) }
        ensures gone { IsErrOf result fault.Gone ↔ ((owner_count self.old < MOST_OWNERS) × (is_open self.old inside ≡ false)) }
        ensures err { OnErr result (self.new ≡ self.old) }
    {
        if self.owners >= MOST_OWNERS {
            return Err(OwnFault::Limit);
        }
        if !is_open(&self.holders, &inside) {
            return Err(OwnFault::Gone);
        }
        let id = OwnerId::of(self.holders.made());
        add_holder(self.alloc, &mut self.holders, Thing::Owner(id), inside)?;
        self.owners += 1;
        Ok(id)
    }

    /// Makes an owner for an effect for which none lives. The effect stands last inside the owner that is given, else at the top. It is
    /// refused where that one is gone. After a refusal, and without memory, the store is as before.
    pub fn make_for(
        &mut self,
        effect: EffectId,
        inside: Option<OwnerId>,
    ) -> Result<OwnerId, OwnFault>
        requires { has_thing (the_effect effect) (owned_of self.old) ≡ false }
        ensures after { OnOk result (self.new ≡ with_holder self.old inside (the_effect effect)) }
        ensures tree { OnOk result (owned_of self.new ≡ made_in self.old inside (the_effect effect) (owned_of self.old)) }
        ensures gives { IfOk result (λ id. id ≡ length self.old) }
        ensures limit { IsErrOf result fault.Limit → ⊥ }
        ensures gone { IsErrOf result fault.Gone ↔ (is_open self.old inside ≡ false) }
        ensures err { OnErr result (self.new ≡ self.old) }
    {
        if !is_open(&self.holders, &inside) {
            return Err(OwnFault::Gone);
        }
        let id = OwnerId::of(self.holders.made());
        note_place(&mut self.places, &Thing::Effect(effect), id)?;
        add_holder(self.alloc, &mut self.holders, Thing::Effect(effect), inside)?;
        Ok(id)
    }

    /// Puts a node or a page that stands under no owner last under an owner. It is refused where the owner is gone. After a refusal, and
    /// without memory, the store is as before.
    pub fn adopt(&mut self, id: OwnerId, thing: Thing) -> Result<(), OwnFault>
        requires kind { is_holder (thing_of thing) ≡ false }
        requires lone { has_thing (thing_of thing) (owned_of self.old) ≡ false }
        ensures after { OnOk result (self.new ≡ changed_at (with_item (leaf (thing_of thing))) id self.old) }
        ensures tree { OnOk result (owned_of self.new ≡ put_under (thing_at self.old id) (alone (thing_of thing)) (owned_of self.old)) }
        ensures limit { IsErrOf result fault.Limit → ⊥ }
        ensures gone { IsErrOf result fault.Gone ↔ (live_at self.old id ≡ false) }
        ensures err { OnErr result (self.new ≡ self.old) }
    {
        if !is_live_at(&self.holders, id) {
            return Err(OwnFault::Gone);
        }
        note_place(&mut self.places, &thing, id)?;
        put_at(&mut self.holders, id, Made::Leaf(thing))?;
        Ok(())
    }

    /// Notes a cleanup under an owner. It is refused where the owner is gone. After a refusal, and without memory, the store is as before.
    pub fn note_cleanup(&mut self, id: OwnerId, cleanup: CleanupAct) -> Result<(), OwnFault>
        ensures after { OnOk result (self.new ≡ changed_at (with_item (noted (cleanup_of cleanup))) id self.old) }
        ensures tree { OnOk result (owned_of self.new
            ≡ put_under (thing_at self.old id) (owning.cleanup (cleanup_of cleanup) owning.nothing) (owned_of self.old)) }
        ensures limit { IsErrOf result fault.Limit → ⊥ }
        ensures gone { IsErrOf result fault.Gone ↔ (live_at self.old id ≡ false) }
        ensures err { OnErr result (self.new ≡ self.old) }
    {
        if !is_live_at(&self.holders, id) {
            return Err(OwnFault::Gone);
        }
        put_at(&mut self.holders, id, Made::Cleanup(cleanup))?;
        Ok(())
    }

    /// Takes back what stands under an owner: the last made first, under an owner or effect all that stands under it before its own end.
    /// What stood there is gone, and nothing stands under the owner any more. It is refused where the owner is gone. After a refusal, and
    /// without memory, the store is as before.
    pub fn take_back(&mut self, id: OwnerId) -> Result<Vec<Undoing>, OwnFault>
        ensures undoings { IfOk result (λ us.
            undoings_of (thing_at self.old) us.items ≡ teardown_of (thing_at self.old id) (under (thing_at self.old id) (owned_of self.old))) }
        ensures after { OnOk result (self.new ≡ with_taken_back self.old id) }
        ensures tree { OnOk result (owned_of self.new ≡ emptied (thing_at self.old id) (owned_of self.old)) }
        ensures lives { IfOk result (λ us. (n : ℕ) →
            live_at self.new n ≡ (live_at self.old n && not (is_ended (thing_at self.old n) (undoings_of (thing_at self.old) us.items)))) }
        ensures nowhere { OnOk result ((n : ℕ) → live_at self.new n ≡ false → has_thing (the_owner n) (owned_of self.new) ≡ false) }
        ensures limit { IsErrOf result fault.Limit → ⊥ }
        ensures gone { IsErrOf result fault.Gone ↔ (live_at self.old id ≡ false) }
        ensures err { OnErr result (self.new ≡ self.old) }
    {
        if !is_live_at(&self.holders, id) {
            return Err(OwnFault::Gone);
        }
        let teardown = teardown_under(self.alloc, &self.holders, id)?;
        end_each(&mut self.holders, &mut self.owners, &teardown.ended);
        clear_at(&mut self.holders, id);
        forget_each(&mut self.places, &teardown.undoings);
        Ok(teardown.undoings)
    }

    /// Takes a thing out of what it stands under, if anything, and nothing else. An owner, or an effect with its owner, under which
    /// nothing stands any more is gone then. It takes no memory.
    pub fn drop_thing(&mut self, thing: Thing)
        requires { is_holder (thing_of thing) ≡ true → under (thing_of thing) (owned_of self.old) ≡ owning.nothing }
        ensures after { self.new ≡ dropped (thing_of thing) self.old }
        ensures tree { owned_of self.new ≡ taken_out (thing_of thing) (owned_of self.old) }
        ensures nowhere { (n : ℕ) → live_at self.new n ≡ false → has_thing (the_owner n) (owned_of self.new) ≡ false }
    {
        let Some(id) = hint_of(&self.places, &thing) else {
            return;
        };
        if is_thing_at(&self.holders, id, &thing) {
            drop_holder_at(&mut self.holders, &mut self.owners, id);
            forget(&mut self.places, &thing);
            return;
        }
        if is_live_at(&self.holders, id) {
            drop_leaf_at(&mut self.holders, id, &thing);
            forget(&mut self.places, &thing);
        }
    }
}

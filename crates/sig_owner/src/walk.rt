// How what stands under a holder is taken back: a walk with a stack of its own, which changes nothing.
ghost use Rattle.std.specs.Prelude.{◌≡◌, ◌<◌, ◌≤◌, ◌+◌, ◌-◌, ◌*◌, ◌++◌, ◌∷◌, [], length, slice_index_or, true, false, IfOk, OnOk};
ghost use Rattle.effect_model.specs.Owners.{ends, teardown_of};
ghost use Rattle.sig_owner.specs.Tables.{item_of, items_at, items_of, live_at, rows_of, thing_at};
ghost use Rattle.sig_owner.specs.Trees.{stands_under};
ghost use Rattle.sig_owner.specs.Walks.{ArePending, GoesOn, ended_under, IsTable, IsWalk, left_in, rest, rest_of, steps_undoings, steps_under, undoings_of, work};

use crate::holder::{Holder, Made, made_at, thing_at};
use crate::thing::Undoing;
use sig_base::{NoMemory, OwnerId};
use sig_store::Store;
use std::alloc::Global;

/// What waits for an inner holder to end: so many items are still to be taken back under its own holder.
#[derive(Clone, Copy)]
pub(crate) struct Pending {
    pub holder: OwnerId,
    pub left: usize,
    pub inner: OwnerId,
}

/// A walk that is under way: the holder where it stands, how many items are left there, what waits for that holder to end, the innermost
/// last, what was undone so far, and which holders have ended.
#[derive(Drop)]
pub(crate) struct Walk {
    pub at: OwnerId,
    pub left: usize,
    pub pending: Vec<Pending>,
    pub undoings: Vec<Undoing>,
    pub ended: Vec<OwnerId>,
}

impl Walk {
    // A walk at a holder.
    fn new(alloc: Global, holders: &Store<Holder>, id: OwnerId) -> Walk
        ensures at { result.at ≡ id }
        ensures left { result.left ≡ length (items_at (rows_of holders.now.entries) id) }
        ensures pending { result.pending.items ≡ [] }
        ensures undoings { result.undoings.items ≡ [] }
        ensures ended { result.ended.items ≡ [] }
    {
        Walk {
            at: id,
            left: made_at(holders, id).len(),
            pending: Vec::new(alloc),
            undoings: Vec::new(alloc),
            ended: Vec::new(alloc),
        }
    }

    // Goes on at an inner holder.
    fn enter(&mut self, holders: &Store<Holder>, inner: OwnerId) -> Result<(), NoMemory>
        ensures at { OnOk result (self.new.at ≡ inner) }
        ensures left { OnOk result (self.new.left ≡ length (items_at (rows_of holders.now.entries) inner)) }
        ensures pending { OnOk result (self.new.pending.items ≡ self.old.pending.items ++ record { holder = self.old.at; left = self.old.left; inner = inner } ∷ []) }
        ensures undoings { OnOk result (self.new.undoings.items ≡ self.old.undoings.items) }
        ensures ended { OnOk result (self.new.ended.items ≡ self.old.ended.items) }
    {
        let pending = Pending {
            holder: self.at,
            left: self.left,
            inner,
        };
        self.pending.push(pending)?;
        self.at = inner;
        self.left = made_at(holders, inner).len();
        Ok(())
    }

    // Takes back one item, which is no longer counted as left.
    fn take_one(&mut self, holders: &Store<Holder>, made: &Made) -> Result<(), NoMemory>
        requires table { IsTable (rows_of holders.now.entries) }
        requires walk { IsWalk (rows_of holders.now.entries) self.old }
        requires left { self.old.left < length (items_at (rows_of holders.now.entries) self.old.at) }
        requires item { item_of made.now ≡ slice_index_or (items_at (rows_of holders.now.entries) self.old.at) self.old.left (item_of made.now) }
        ensures walk { OnOk result (IsWalk (rows_of holders.now.entries) self.new) }
        ensures goes { OnOk result (let rows = rows_of holders.now.entries in
            GoesOn rows self.old.undoings.items self.new.undoings.items self.old.ended.items self.new.ended.items
            (rest_of rows self.old.at (self.old.left + 1) self.old.pending.items) (rest rows self.new)) }
        ensures work { OnOk result (let rows = rows_of holders.now.entries in
            work (rest rows self.new) self.new.pending.items < work (rest_of rows self.old.at (self.old.left + 1) self.old.pending.items) self.old.pending.items) }
    {
        match made {
            Made::Held(inner) => self.enter(holders, *inner)?,
            Made::Leaf(thing) => self.undoings.push(Undoing::Gone(*thing))?,
            Made::Cleanup(cleanup) => {
                self.undoings
                    .push(Undoing::Cleanup(self.at, cleanup.copy()?))?;
            }
        }
        Ok(())
    }

    // Ends an inner holder, and goes on where it stands.
    fn leave(&mut self, holders: &Store<Holder>, pending: Pending) -> Result<(), NoMemory>
        requires { live_at (rows_of holders.now.entries) pending.inner ≡ true }
        ensures at { OnOk result (self.new.at ≡ pending.holder) }
        ensures left { OnOk result (self.new.left ≡ pending.left) }
        ensures pending { OnOk result (self.new.pending.items ≡ self.old.pending.items) }
        ensures undoings { OnOk result (undoings_of (thing_at (rows_of holders.now.entries)) self.new.undoings.items
            ≡ undoings_of (thing_at (rows_of holders.now.entries)) self.old.undoings.items ++ ends (thing_at (rows_of holders.now.entries) pending.inner) ∷ []) }
        ensures ended { OnOk result (self.new.ended.items ≡ self.old.ended.items ++ pending.inner ∷ []) }
    {
        let thing = thing_at(holders, pending.inner);
        self.undoings.push(Undoing::Gone(thing))?;
        self.ended.push(pending.inner)?;
        self.at = pending.holder;
        self.left = pending.left;
        Ok(())
    }

    // One step; false where nothing is left.
    fn step(&mut self, holders: &Store<Holder>) -> Result<bool, NoMemory>
        requires table { IsTable (rows_of holders.now.entries) }
        requires walk { IsWalk (rows_of holders.now.entries) self.old }
        ensures walk { OnOk result (IsWalk (rows_of holders.now.entries) self.new) }
        ensures goes { OnOk result (let rows = rows_of holders.now.entries in
            GoesOn rows self.old.undoings.items self.new.undoings.items self.old.ended.items self.new.ended.items (rest rows self.old) (rest rows self.new)) }
        ensures work { IfOk result (λ on. let rows = rows_of holders.now.entries in
            on ≡ true → work (rest rows self.new) self.new.pending.items < work (rest rows self.old) self.old.pending.items) }
        ensures end { IfOk result (λ on. on ≡ false → rest (rows_of holders.now.entries) self.new ≡ []) }
    {
        if self.left == 0 {
            let Some(pending) = self.pending.pop() else {
                return Ok(false);
            };
            self.leave(holders, pending)?;
            return Ok(true);
        }
        self.left -= 1;
        let made = made_at(holders, self.at);
        self.take_one(holders, &made[self.left])?;
        Ok(true)
    }
}

/// What taking back undoes, in order, and the holders that end with it.
#[derive(Drop)]
pub(crate) struct Teardown {
    pub undoings: Vec<Undoing>,
    pub ended: Vec<OwnerId>,
}

/// How what stands under a holder is taken back, the last made first. It changes nothing.
pub(crate) fn teardown_under(
    alloc: Global,
    holders: &Store<Holder>,
    id: OwnerId,
) -> Result<Teardown, NoMemory>
    requires { IsTable (rows_of holders.now.entries) }
    ensures undoings { IfOk result (λ t. let rows = rows_of holders.now.entries in
        undoings_of (thing_at rows) t.undoings.items ≡ teardown_of (thing_at rows id) (stands_under rows id)) }
    ensures ended { IfOk result (λ t. t.ended.items ≡ ended_under (rows_of holders.now.entries) id) }
{
    let mut walk = Walk::new(alloc, holders, id);
    while walk.step(holders)? {}
    Ok(Teardown {
        undoings: walk.undoings,
        ended: walk.ended,
    })
}

// Steps of taking back in the store.
ghost use Rattle.std.specs.Prelude.{◌≡◌, ◌∷◌, [], true, IfOk};
ghost use Rattle.effect_model.specs.Owners.{disposal_of, emptied, ends, nothing, taken_out, teardown_of, under};
ghost use Rattle.sig_owner.specs.Tables.{live_at, thing_at, thing_of};
ghost use Rattle.sig_owner.specs.Trees.{owned_of};
ghost use Rattle.sig_owner.specs.Walks.{undoings_of};
ghost use Rattle.effect_teardown.specs.Teardowns.{EndsIn};

use sig_base::{NoMemory, OwnerId};
use sig_owner::{Owners, Thing as Stored, Undoing as Step};
use std::alloc::Global;

/// Takes back what stands under a row that lives.
pub(crate) fn take_back_in(store: &mut Owners, row: OwnerId) -> Result<Vec<Step>, NoMemory>
    requires { live_at store.old row ≡ true }
    ensures steps { IfOk result (λ us.
        undoings_of (thing_at store.old) us.items ≡ teardown_of (thing_at store.old row) (under (thing_at store.old row) (owned_of store.old))) }
    ensures done { IfOk result (λ us.
        EndsIn store.old store.new (undoings_of (thing_at store.old) us.items) (emptied (thing_at store.old row) (owned_of store.old))) }
{
    match store.take_back(row) {
        Ok(steps) => Ok(steps),
        Err(_) => Err(NoMemory),
    }
}

// Takes out a thing under which nothing stands.
fn drop_in(store: &mut Owners, thing: &Stored)
    requires { under (thing_of thing.now) (owned_of store.old) ≡ nothing }
    ensures { EndsIn store.old store.new (ends (thing_of thing.now) ∷ []) (taken_out (thing_of thing.now) (owned_of store.old)) }
{
    store.drop_thing(*thing);
}

/// Takes out an owner or an effect that lives in this row, with all that stands under it.
pub(crate) fn holder_out(
    store: &mut Owners,
    row: OwnerId,
    thing: Stored,
) -> Result<Vec<Step>, NoMemory>
    requires lives { live_at store.old row ≡ true }
    requires thing { thing_at store.old row ≡ thing_of thing }
    ensures steps { IfOk result (λ us. undoings_of (thing_at store.old) us.items ≡ disposal_of (thing_of thing) (owned_of store.old)) }
    ensures done { IfOk result (λ us.
        EndsIn store.old store.new (undoings_of (thing_at store.old) us.items) (taken_out (thing_of thing) (owned_of store.old))) }
{
    let mut steps = take_back_in(store, row)?;
    drop_in(store, &thing);
    steps.push(Step::Gone(thing))?;
    Ok(steps)
}

/// Takes out a thing under which nothing stands.
pub(crate) fn leaf_out(
    alloc: Global,
    store: &mut Owners,
    thing: Stored,
) -> Result<Vec<Step>, NoMemory>
    requires { under (thing_of thing) (owned_of store.old) ≡ nothing }
    ensures steps { IfOk result (λ us. undoings_of (thing_at store.old) us.items ≡ disposal_of (thing_of thing) (owned_of store.old)) }
    ensures done { IfOk result (λ us.
        EndsIn store.old store.new (undoings_of (thing_at store.old) us.items) (taken_out (thing_of thing) (owned_of store.old))) }
{
    let mut steps = Vec::new(alloc);
    drop_in(store, &thing);
    steps.push(Step::Gone(thing))?;
    Ok(steps)
}

// What stands in the tables is taken back.
ghost use Rattle.std.specs.Prelude.{◌≡◌, ◌⊎◌, ◌∷◌, [], true, false, map, IfOk, IfErr, IsErrOf, OnOk};
ghost use Rattle.effect_model.specs.Owners.{the_effect, the_owner, the_page, the_signal};
ghost use Rattle.sig_owner.specs.declared.errors.OwnFault.TheVariants as fault;
ghost use Rattle.effect_tables.specs.declared.thing.Undoing.TheVariants as undoing;
ghost use Rattle.effect_tables.specs.Consistency.{AreRising, TablesAgree};
ghost use Rattle.effect_tables.specs.Bodies.{thing_of, undoings_of};
ghost use Rattle.effect_tables.specs.Things.{noted};
ghost use Rattle.effect_tables.specs.Placed.{tree_of};
ghost use Rattle.effect_teardown.specs.Rows.{is_tabled};
ghost use Rattle.effect_teardown.specs.Trees.{AreFormed};
ghost use Rattle.effect_teardown.specs.Steps.{retold};
ghost use Rattle.effect_teardown.specs.Teardowns.{Ends, TakesBack, TakesOut};

use crate::lookup::{effect_row, has_page};
use crate::removal::end_all;
use crate::stored::{holder_out, leaf_out, take_back_in};
use crate::things::retold_all;
use effect_tables::{Tables, Thing, Undoing};
use sig_base::{EffectId, NoMemory, NodeId, OwnerId, PageId};
use sig_owner::{OwnFault, Thing as Stored, Undoing as Step};

// What ends in these steps of the store goes out of the tables; the steps are given by things.
fn finish(tables: &mut Tables, steps: Vec<Step>) -> Result<Vec<Undoing>, NoMemory>
    requires { AreRising 0 tables.old.effects.items }
    ensures told { IfOk result (λ us. undoings_of us.items ≡ map (retold (noted tables.old.things)) steps.items) }
    ensures done { IfOk result (λ us. Ends tables.old tables.new (undoings_of us.items)) }
{
    let undoings = retold_all(*tables.effects.allocator(), &tables.things, &steps)?;
    end_all(
        &mut tables.owners,
        &mut tables.effects,
        &mut tables.pages,
        &mut tables.things,
        &undoings,
    );
    Ok(undoings)
}

/// Takes back what stands under an effect, and gives the steps of it in order: the last made first, and under each thing what stands
/// there before its own end. What is gone is out of the tables; the effect itself stays.
///
/// # Errors
///
/// `Gone` where the effect is gone; then all is as before. After `NoMemory` the tables may only be dropped.
pub fn take_back(tables: &mut Tables, id: EffectId) -> Result<Vec<Undoing>, OwnFault>
    requires holds { TablesAgree tables.old }
    requires formed { AreFormed (tree_of tables.old) }
    ensures takes { IfOk result (λ us. TakesBack tables.old tables.new (the_effect id) (undoings_of us.items)) }
    ensures there { OnOk result (is_tabled (the_effect id) tables.old ≡ true) }
    ensures gone { IsErrOf result fault.Gone → is_tabled (the_effect id) tables.old ≡ false }
    ensures limit { IsErrOf result fault.Limit → ⊥ }
    ensures err { IfErr result (λ e. (e ≡ fault.NoMemory) ⊎ (tables.new ≡ tables.old)) }
{
    let Some(row) = effect_row(tables, id) else {
        return Err(OwnFault::Gone);
    };
    let steps = take_back_in(&mut tables.store, row)?;
    let undoings = finish(tables, steps)?;
    Ok(undoings)
}

// Takes out an owner that lives.
fn owner_out(tables: &mut Tables, id: OwnerId) -> Result<Vec<Undoing>, OwnFault>
    requires holds { TablesAgree tables.old }
    requires formed { AreFormed (tree_of tables.old) }
    ensures takes { IfOk result (λ us. TakesOut tables.old tables.new (the_owner id) (undoings_of us.items)) }
    ensures there { OnOk result (is_tabled (the_owner id) tables.old ≡ true) }
    ensures gone { IsErrOf result fault.Gone → is_tabled (the_owner id) tables.old ≡ false }
    ensures limit { IsErrOf result fault.Limit → ⊥ }
    ensures err { IfErr result (λ e. (e ≡ fault.NoMemory) ⊎ (tables.new ≡ tables.old)) }
{
    let Some(row) = tables.owners.get(id) else {
        return Err(OwnFault::Gone);
    };
    let steps = holder_out(&mut tables.store, row, Stored::Owner(row))?;
    let undoings = finish(tables, steps)?;
    Ok(undoings)
}

// Takes out an effect that lives.
fn effect_out(tables: &mut Tables, id: EffectId) -> Result<Vec<Undoing>, OwnFault>
    requires holds { TablesAgree tables.old }
    requires formed { AreFormed (tree_of tables.old) }
    ensures takes { IfOk result (λ us. TakesOut tables.old tables.new (the_effect id) (undoings_of us.items)) }
    ensures there { OnOk result (is_tabled (the_effect id) tables.old ≡ true) }
    ensures gone { IsErrOf result fault.Gone → is_tabled (the_effect id) tables.old ≡ false }
    ensures limit { IsErrOf result fault.Limit → ⊥ }
    ensures err { IfErr result (λ e. (e ≡ fault.NoMemory) ⊎ (tables.new ≡ tables.old)) }
{
    let Some(row) = effect_row(tables, id) else {
        return Err(OwnFault::Gone);
    };
    let steps = holder_out(&mut tables.store, row, Stored::Effect(id))?;
    let undoings = finish(tables, steps)?;
    Ok(undoings)
}

// Takes out a page that lives.
fn page_out(tables: &mut Tables, id: PageId) -> Result<Vec<Undoing>, OwnFault>
    requires holds { TablesAgree tables.old }
    requires formed { AreFormed (tree_of tables.old) }
    ensures takes { IfOk result (λ us. TakesOut tables.old tables.new (the_page id) (undoings_of us.items)) }
    ensures there { OnOk result (is_tabled (the_page id) tables.old ≡ true) }
    ensures gone { IsErrOf result fault.Gone → is_tabled (the_page id) tables.old ≡ false }
    ensures limit { IsErrOf result fault.Limit → ⊥ }
    ensures err { IfErr result (λ e. (e ≡ fault.NoMemory) ⊎ (tables.new ≡ tables.old)) }
{
    if !has_page(&tables.pages, id) {
        return Err(OwnFault::Gone);
    }
    let alloc = *tables.effects.allocator();
    let steps = leaf_out(alloc, &mut tables.store, Stored::Page(id))?;
    let undoings = finish(tables, steps)?;
    Ok(undoings)
}

// Takes out a signal.
fn signal_out(tables: &mut Tables, id: NodeId) -> Result<Vec<Undoing>, NoMemory>
    requires holds { TablesAgree tables.old }
    requires formed { AreFormed (tree_of tables.old) }
    ensures takes { IfOk result (λ us. TakesOut tables.old tables.new (the_signal id) (undoings_of us.items)) }
{
    let alloc = *tables.effects.allocator();
    let steps = leaf_out(alloc, &mut tables.store, Stored::Node(id))?;
    let undoings = finish(tables, steps)?;
    Ok(undoings)
}

// A thing that never stands in the tables ends in one step.
fn alone_out(tables: &Tables, thing: Thing) -> Result<Vec<Undoing>, NoMemory>
    ensures { IfOk result (λ us. us.items ≡ undoing.Gone thing ∷ []) }
{
    let mut undoings = Vec::new(*tables.effects.allocator());
    undoings.push(Undoing::Gone(thing))?;
    Ok(undoings)
}

/// Takes a thing out of the tables, with all that stands under it, and gives the steps of its disposal in order: what stands under it is
/// taken back, and then it ends. Whether a signal or a watcher lives the tables don't know: it is taken out of what it stands under, if
/// anything.
///
/// # Errors
///
/// `Gone` where an owner, an effect or a page is gone; then all is as before. After `NoMemory` the tables may only be dropped.
pub fn take_out(tables: &mut Tables, thing: Thing) -> Result<Vec<Undoing>, OwnFault>
    requires holds { TablesAgree tables.old }
    requires formed { AreFormed (tree_of tables.old) }
    ensures takes { IfOk result (λ us. TakesOut tables.old tables.new (thing_of thing) (undoings_of us.items)) }
    ensures there { OnOk result (is_tabled (thing_of thing) tables.old ≡ true) }
    ensures gone { IsErrOf result fault.Gone → is_tabled (thing_of thing) tables.old ≡ false }
    ensures limit { IsErrOf result fault.Limit → ⊥ }
    ensures err { IfErr result (λ e. (e ≡ fault.NoMemory) ⊎ (tables.new ≡ tables.old)) }
{
    match thing {
        Thing::Owner(id) => owner_out(tables, id),
        Thing::Effect(id) => effect_out(tables, id),
        Thing::Page(id) => page_out(tables, id),
        Thing::Signal(id) => {
            let undoings = signal_out(tables, id)?;
            Ok(undoings)
        }
        Thing::Watcher(id) => {
            let undoings = alone_out(tables, Thing::Watcher(id))?;
            Ok(undoings)
        }
    }
}

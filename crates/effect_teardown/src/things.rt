// Steps of the store, by the things that its rows are.
ghost use Rattle.std.specs.Prelude.{◌≡◌, IfOk, map};
ghost use Rattle.effect_tables.specs.Bodies.{thing_of, undoing_of, undoings_of};
ghost use Rattle.effect_tables.specs.Things.{named_at, noted};
ghost use Rattle.effect_teardown.specs.Steps.{retold, told_thing};

use effect_tables::{Thing, Undoing, noted_thing};
use indexmap::IndexMap;
use sig_base::{NoMemory, OwnerId};
use sig_owner::{Thing as Stored, Undoing as Step};
use std::alloc::Global;

// The thing of a row; owner 0 where none is noted.
fn thing_at(things: &IndexMap<OwnerId, Thing>, row: OwnerId) -> Thing
    ensures { thing_of result ≡ named_at (noted things.now) row }
{
    match noted_thing(things, row) {
        Some(thing) => thing,
        None => Thing::Owner(OwnerId::of(0)),
    }
}

// A thing of the store, by the things of its rows.
fn told_thing(things: &IndexMap<OwnerId, Thing>, thing: &Stored) -> Thing
    ensures { thing_of result ≡ told_thing (noted things.now) thing.now }
{
    match thing {
        Stored::Owner(row) => thing_at(things, *row),
        Stored::Node(id) => Thing::Signal(*id),
        Stored::Effect(id) => Thing::Effect(*id),
        Stored::Page(id) => Thing::Page(*id),
    }
}

// A step of the store, by the things of its rows.
fn retold(things: &IndexMap<OwnerId, Thing>, step: &Step) -> Result<Undoing, NoMemory>
    ensures { IfOk result (λ u. undoing_of u ≡ retold (noted things.now) step.now) }
{
    match step {
        Step::Cleanup(row, cleanup) => Ok(Undoing::Cleanup(
            thing_at(things, *row),
            cleanup.copy()?,
        )),
        Step::Gone(thing) => Ok(Undoing::Gone(told_thing(things, thing))),
    }
}

/// Steps of the store, by the things of its rows, in order.
pub(crate) fn retold_all(
    alloc: Global,
    things: &IndexMap<OwnerId, Thing>,
    steps: &[Step],
) -> Result<Vec<Undoing>, NoMemory>
    ensures { IfOk result (λ us. undoings_of us.items ≡ map (retold (noted things.now)) steps.now) }
{
    let mut undoings = Vec::new(alloc);
    for step in steps {
        let undoing = retold(things, step)?;
        undoings.push(undoing)?;
    }
    Ok(undoings)
}

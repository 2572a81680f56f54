// The evaluation of a line's formula on the outcomes that are known.
ghost use Rattle.std.specs.Prelude.{◌≡◌, ◌<◌, length, slice_get, IfErr, IfOk, IfSome, OnOk, Some};
ghost use Rattle.std.specs.Option.{option_copied};
ghost use Rattle.sig_formula.specs.Trees.{tree};
ghost use Rattle.signal_model.specs.Recipes.{IsJudged};
ghost use Rattle.signal_model.specs.Sound.{names_of};
ghost use Rattle.signal_model.specs.Values.{learnt};
ghost use Rattle.tpl_model.specs.Shapes.{row_here};
ghost use Rattle.tpl_model.specs.Sources.{on_known};
ghost use Rattle.tpl_scratch.specs.Pages.{answered, IsFound, IsNeed, Stops};

use crate::stop::Stop;
use sig_base::{Known, NoMemory, Outcome, Step, Text, Value};
use sig_formula::{Formula, RowRef, step};
use signal_model::judged;
use std::alloc::Global;
use std::marker::Model;

/// The row of an `each` in which a line stands: its key, and the row for formulas.
#[derive(Drop)]
pub(crate) struct Here {
    pub(crate) key: Text,
    pub(crate) row: RowRef,
}

impl Model for Here {
    ghost use Rattle.tpl_model.specs.Shapes.{Here};

    ghost Value = { Here };

    ghost view = { λ h. record { key = h.key; row = h.row } };
}

// The row for formulas.
fn row_of(here: Option<&Here>) -> Option<&RowRef>
    requires { IfSome here (λ h. h.now.row.place < length h.now.row.rows.rows) }
    ensures row { option_copied result ≡ row_here (option_copied here.entry) }
    ensures inside { IfSome result (λ r. r.now.place < length r.now.rows.rows) }
{
    match here {
        Some(here) => Some(&here.row),
        None => None,
    }
}

// What a formula answers to the values that it has read so far.
fn answer(
    alloc: Global,
    formula: &Formula,
    here: Option<&Here>,
    known: &[Option<Outcome>],
    read: &[Known],
) -> Result<Step, NoMemory>
    requires { IfSome here (λ h. h.now.row.place < length h.now.row.rows.rows) }
    ensures answer { IfOk result (λ s. s ≡ answered known.now (row_here (option_copied here.entry)) (tree formula.now) read.now) }
    ensures judged { IfOk result (λ s. IsJudged (length known.now) read.now s) }
{
    let row = row_of(here);
    let step = step(alloc, formula, row, read)?;
    Ok(judged(known.len(), read, step))
}

// The outcome of a name, where it is known.
fn known_outcome(known: &[Option<Outcome>], name: u32) -> Result<Outcome, Stop>
    requires { name < length known.now }
    ensures found { IfOk result (λ o. slice_get known.now name ≡ Some (Some o)) }
    ensures need { IfErr result (λ e. IsNeed known.now name e) }
{
    match &known[name as usize] {
        Some(outcome) => Ok(outcome.copy()?),
        None => Err(Stop::Ask(name)),
    }
}

// One more value was read.
fn learn(read: &mut Vec<Known>, slot: u32, value: Value) -> Result<(), NoMemory>
    ensures { OnOk result (read.new.items ≡ learnt read.old.items slot value) }
{
    read.push(Known { slot, value })?;
    Ok(())
}

/// What a line's formula comes to. Its names are read one after the other, in the order in which it needs them, and it ends at the first that
/// isn't known or has a fault.
pub(crate) fn evaluated(
    alloc: Global,
    formula: &Formula,
    here: Option<&Here>,
    known: &[Option<Outcome>],
) -> Result<Outcome, Stop>
    requires { IfSome here (λ h. h.now.row.place < length h.now.row.rows.rows) }
    ensures found { IfOk result (λ o. IsFound known.now (on_known known.now (row_here (option_copied here.entry)) (tree formula.now)) o) }
    ensures stops { IfErr result (λ e.
        Stops known.now (names_of (on_known known.now (row_here (option_copied here.entry)) (tree formula.now)).reads) e) }
{
    let mut read: Vec<Known> = Vec::new(alloc);
    'asking: loop {
        let slot = match answer(alloc, formula, here, known, &read)? {
            Step::Read(slot) => slot,
            Step::Done(value) => return Ok(Outcome::Good(value)),
            Step::Fail(fault) => return Ok(Outcome::Bad(fault)),
        };
        match known_outcome(known, slot)? {
            Outcome::Good(value) => learn(&mut read, slot, value)?,
            Outcome::Bad(fault) => return Ok(Outcome::Bad(fault)),
        }
    }
}

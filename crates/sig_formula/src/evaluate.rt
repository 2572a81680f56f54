// What a formula answers to what was read so far.
ghost use Rattle.std.specs.Prelude.{◌≡◌, ◌<◌, length, IfOk, IfSome};
ghost use Rattle.std.specs.Option.{option_copied};
ghost use Rattle.sig_formula.specs.Evaluation.{answer_of, formula_step, known_at, served};
ghost use Rattle.sig_formula.specs.Trees.{tree};

use crate::at_once::{AtOnce, answer_at_once};
use crate::{Formula, Paused, RowRef};
use sig_base::{Fault, Known, NoMemory, Outcome, Step, Value};
use std::alloc::Global;

/// What a formula answers: the first slot that it needs and doesn't know, and whether that read is tracked; or what it comes to.
#[derive(Drop)]
pub enum FormulaStep {
    Ask(u32, bool),
    End(Outcome),
}

/// The value of a slot, where it is known.
pub(crate) fn known_at(slot: u32, known: &[Known]) -> Option<&Value>
    ensures { option_copied result ≡ known_at slot known.now }
{
    for entry in known {
        if entry.slot == slot {
            return Some(&entry.value);
        }
    }
    None
}

/// The value of a slot: a tracked read is served by tracked reads alone, an untracked one by either.
pub(crate) fn served<'a>(
    tracking: bool,
    slot: u32,
    tracked: &'a [Known],
    untracked: &'a [Known],
) -> Option<&'a Value>
    ensures { option_copied result ≡ served tracking slot tracked.now untracked.now }
{
    match known_at(slot, tracked) {
        Some(value) => Some(value),
        None if tracking => None,
        None => known_at(slot, untracked),
    }
}

// The step of a formula by the list of its instructions.
#[tactic(auto, using(crate::proofs::Progress::begun_is_reached))]
#[inline(never)]
fn step_by_list(
    alloc: Global,
    tracking: bool,
    f: &Formula,
    row: Option<&RowRef>,
    tracked: &[Known],
    untracked: &[Known],
) -> Result<FormulaStep, NoMemory>
    requires { IfSome row (λ r. r.now.place < length r.now.rows.rows) }
    ensures { IfOk result (λ s. s ≡ formula_step tracking (tree f.now) (option_copied row.entry) tracked.now untracked.now) }
{
    let mut paused = Paused::begun(alloc, tracking, f)?;
    let step = paused.run(alloc, tracking, f, row, tracked, untracked)?;
    Ok(step)
}

/// What a formula answers to what was read so far, tracked and untracked: the first slot that it needs and doesn't know, its value, or its
/// first fault. Operands are evaluated from left to right; then their kinds are checked; then the operation is done. The second part of
/// `sum` and `keep` is evaluated, checked and used for one row before the next. Outside of `untrack` reads are tracked as `tracking` says.
pub fn formula_step(
    alloc: Global,
    tracking: bool,
    f: &Formula,
    row: Option<&RowRef>,
    tracked: &[Known],
    untracked: &[Known],
) -> Result<FormulaStep, NoMemory>
    requires { IfSome row (λ r. r.now.place < length r.now.rows.rows) }
    ensures { IfOk result (λ s. s ≡ formula_step tracking (tree f.now) (option_copied row.entry) tracked.now untracked.now) }
{
    let mut outcome = Outcome::Bad(Fault::Kind);
    match answer_at_once(tracking, f, row, tracked, untracked, &mut outcome)? {
        AtOnce::Ask(slot, tracked) => Ok(FormulaStep::Ask(slot, tracked)),
        AtOnce::End => Ok(FormulaStep::End(outcome)),
        AtOnce::Open => step_by_list(alloc, tracking, f, row, tracked, untracked),
    }
}

/// The same where nothing is tracked apart: what a formula answers to the values known so far.
pub fn step(
    alloc: Global,
    f: &Formula,
    row: Option<&RowRef>,
    known: &[Known],
) -> Result<Step, NoMemory>
    requires { IfSome row (λ r. r.now.place < length r.now.rows.rows) }
    ensures { IfOk result (λ s. s ≡ answer_of (tree f.now) (option_copied row.entry) known.now) }
{
    match formula_step(alloc, false, f, row, known, &[])? {
        FormulaStep::Ask(slot, _) => Ok(Step::Read(slot)),
        FormulaStep::End(Outcome::Good(value)) => Ok(Step::Done(value)),
        FormulaStep::End(Outcome::Bad(fault)) => Ok(Step::Fail(fault)),
    }
}

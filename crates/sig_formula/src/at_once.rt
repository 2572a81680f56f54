// Formulas of few operations, which are answered without a list of instructions.
ghost use Rattle.std.specs.Prelude.{◌≡◌, ◌<◌, false, length, None, Option, IfOk, IfSome};
ghost use Rattle.std.specs.Option.{option_copied};
ghost use Rattle.sig_base.specs.declared.value.Value.TheVariants as value;
ghost use Rattle.sig_formula.specs.declared.evaluate.FormulaStep.TheVariants.{End};
ghost use Rattle.sig_formula.specs.declared.formula.RowRef.{RowRef};
ghost use Rattle.sig_formula.specs.Evaluation.{answer_of, formula_step, operated};
ghost use Rattle.sig_formula.specs.Operations.{operand_told, told, IsTold};
ghost use Rattle.sig_formula.specs.Programs.{decides};
ghost use Rattle.sig_formula.specs.Trees.{binary, tree};

use crate::evaluate::served;
use crate::operate::{difference, product, sum};
use crate::parts::operate_numbers;
use crate::program::decides;
use crate::row::{field_outcome, key_outcome};
use crate::{BinOp, Formula, RowRef};
use sig_base::{Known, NoMemory, Outcome, Scalar, Value};

/// What is told of a formula at once: the slot that it needs, with whether that read is tracked; that it ends; or nothing.
#[derive(Clone, Copy)]
pub(crate) enum AtOnce {
    Ask(u32, bool),
    End,
    Open,
}

/// What is told at once of a formula by the values known so far. An outcome stands where the caller has a place for it.
#[derive(Clone, Copy)]
pub enum Told {
    /// It needs the value of a slot.
    Slot(u32),
    /// It came to an outcome.
    Ended,
    /// Nothing is told.
    Open,
}

// The same of an operand: the whole number that it is.
#[derive(Clone, Copy)]
enum Operand {
    Ask(u32, bool),
    Number(i64),
    Open,
}

// An operand that is a literal or a slot.
#[inline(always)]
fn leaf_of(tracking: bool, f: &Formula, tracked: &[Known], untracked: &[Known]) -> Operand
    ensures { (row : Option RowRef) →
        operand_told result (formula_step tracking (tree f.now) row tracked.now untracked.now) ≡ formula_step tracking (tree f.now) row tracked.now untracked.now }
{
    match f {
        Formula::Lit(Scalar::Int(number)) => Operand::Number(*number),
        Formula::Slot(slot) => match served(tracking, *slot, tracked, untracked) {
            Some(Value::Int(number)) => Operand::Number(*number),
            Some(_) => Operand::Open,
            None => Operand::Ask(*slot, tracking),
        },
        _ => Operand::Open,
    }
}

// What a part comes to, where it is a whole number.
fn number_in(outcome: Outcome) -> Operand
    ensures { operand_told result (End outcome) ≡ End outcome }
{
    match outcome {
        Outcome::Good(Value::Int(number)) => Operand::Number(number),
        _ => Operand::Open,
    }
}

// The whole number that an operator makes of two.
fn number_of(op: BinOp, left: i64, right: i64) -> Operand
    ensures { operand_told result (End (operated op (value.Int left) (value.Int right))) ≡ End (operated op (value.Int left) (value.Int right)) }
{
    match op {
        BinOp::Add => number_in(sum(left, right)),
        BinOp::Sub => number_in(difference(left, right)),
        BinOp::Mul => number_in(product(left, right)),
        _ => Operand::Open,
    }
}

// One operation between two of these.
#[inline(never)]
fn part_of(
    tracking: bool,
    op: BinOp,
    left: &Formula,
    right: &Formula,
    tracked: &[Known],
    untracked: &[Known],
) -> Operand
    ensures { (row : Option RowRef) → operand_told result (formula_step tracking (binary op (tree left.now) (tree right.now)) row tracked.now untracked.now)
        ≡ formula_step tracking (binary op (tree left.now) (tree right.now)) row tracked.now untracked.now }
{
    if decides(op) {
        return Operand::Open;
    }
    match leaf_of(tracking, left, tracked, untracked) {
        Operand::Number(first) => match leaf_of(tracking, right, tracked, untracked) {
            Operand::Number(second) => number_of(op, first, second),
            Operand::Ask(slot, tracked) => Operand::Ask(slot, tracked),
            Operand::Open => Operand::Open,
        },
        Operand::Ask(slot, tracked) => Operand::Ask(slot, tracked),
        Operand::Open => Operand::Open,
    }
}

// An operand that is a literal or a slot, or one operation between two of them.
#[inline(always)]
fn operand_of(tracking: bool, f: &Formula, tracked: &[Known], untracked: &[Known]) -> Operand
    ensures { (row : Option RowRef) →
        operand_told result (formula_step tracking (tree f.now) row tracked.now untracked.now) ≡ formula_step tracking (tree f.now) row tracked.now untracked.now }
{
    match f {
        Formula::Bin(op, left, right) => part_of(tracking, *op, left, right, tracked, untracked),
        _ => leaf_of(tracking, f, tracked, untracked),
    }
}

// What an operator makes of two whole numbers; nothing is told where it makes a text of them.
#[inline(always)]
fn operate_at_once(op: BinOp, left: i64, right: i64, outcome: &mut Outcome) -> AtOnce
    ensures { told result outcome.new (End (operated op (value.Int left) (value.Int right))) ≡ End (operated op (value.Int left) (value.Int right)) }
{
    if operate_numbers(op, left, right, outcome) {
        return AtOnce::End;
    }
    AtOnce::Open
}

// An operator whose left operand doesn't decide.
#[inline(always)]
fn operation_at_once(
    tracking: bool,
    op: BinOp,
    left: &Formula,
    right: &Formula,
    tracked: &[Known],
    untracked: &[Known],
    outcome: &mut Outcome,
) -> AtOnce
    requires { decides op ≡ false }
    ensures { (row : Option RowRef) →
        told result outcome.new (formula_step tracking (binary op (tree left.now) (tree right.now)) row tracked.now untracked.now)
        ≡ formula_step tracking (binary op (tree left.now) (tree right.now)) row tracked.now untracked.now }
{
    match operand_of(tracking, left, tracked, untracked) {
        Operand::Number(first) => match operand_of(tracking, right, tracked, untracked) {
            Operand::Number(second) => operate_at_once(op, first, second, outcome),
            Operand::Ask(slot, tracked) => AtOnce::Ask(slot, tracked),
            Operand::Open => AtOnce::Open,
        },
        Operand::Ask(slot, tracked) => AtOnce::Ask(slot, tracked),
        Operand::Open => AtOnce::Open,
    }
}

/// What a formula answers, where it is a literal, a slot, a part of the row, or an operation between whole numbers that are literals,
/// slots or one operation between such; what it comes to stands in `outcome`. It looks at no more than seven parts of a formula, so that a
/// long one, which is asked again for each slot, is left to the list of its instructions.
///
/// # Errors
///
/// `NoMemory` alone.
#[inline(always)]
pub(crate) fn answer_at_once(
    tracking: bool,
    f: &Formula,
    row: Option<&RowRef>,
    tracked: &[Known],
    untracked: &[Known],
    outcome: &mut Outcome,
) -> Result<AtOnce, NoMemory>
    requires { IfSome row (λ r. r.now.place < length r.now.rows.rows) }
    ensures { IfOk result (λ a. told a outcome.new (formula_step tracking (tree f.now) (option_copied row.entry) tracked.now untracked.now)
        ≡ formula_step tracking (tree f.now) (option_copied row.entry) tracked.now untracked.now) }
{
    match f {
        Formula::Lit(scalar) => {
            *outcome = Outcome::Good(Value::from(scalar.copy()?));
            Ok(AtOnce::End)
        }
        Formula::Slot(slot) => {
            let Some(value) = served(tracking, *slot, tracked, untracked) else {
                return Ok(AtOnce::Ask(*slot, tracking));
            };
            *outcome = Outcome::Good(value.copy()?);
            Ok(AtOnce::End)
        }
        Formula::It(field) => {
            *outcome = field_outcome(field, row)?;
            Ok(AtOnce::End)
        }
        Formula::ItKey => {
            *outcome = key_outcome(row)?;
            Ok(AtOnce::End)
        }
        Formula::Bin(op, left, right) => {
            if decides(*op) {
                return Ok(AtOnce::Open);
            }
            Ok(operation_at_once(tracking, *op, left, right, tracked, untracked, outcome))
        }
        _ => Ok(AtOnce::Open),
    }
}

/// What a formula of few operations answers to the values known so far, without a list of instructions: the slot that it needs and that isn't
/// known, or that it came to what stands in `outcome` then. Of other formulas nothing is told.
///
/// # Errors
///
/// `NoMemory` alone.
#[tactic(auto, using(crate::proofs::Progress::end_told))]
#[inline(always)]
pub fn told_at_once(f: &Formula, known: &[Known], outcome: &mut Outcome) -> Result<Told, NoMemory>
    ensures { IfOk result (λ t. IsTold t outcome.new (answer_of (tree f.now) None known.now)) }
{
    match answer_at_once(false, f, None, known, &[], outcome)? {
        AtOnce::Ask(slot, _) => Ok(Told::Slot(slot)),
        AtOnce::End => Ok(Told::Ended),
        AtOnce::Open => Ok(Told::Open),
    }
}

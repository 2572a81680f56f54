// The parts of a formula that are whole numbers or truths, for who reads what they need where it comes to them.
ghost use Rattle.std.specs.Prelude.{◌≡◌, true, false};
ghost use Rattle.sig_base.specs.declared.value.Value.TheVariants as value;
ghost use Rattle.sig_formula.specs.Evaluation.{operated};
ghost use Rattle.sig_formula.specs.Operations.{IsPartTold};
ghost use Rattle.sig_formula.specs.Trees.{tree};

use crate::evaluate::known_at;
use crate::operate::{difference, outcome_of, product, sum};
use crate::{BinOp, Formula};
use sig_base::{Known, Outcome, Scalar, Value};

/// What is told of a part of a formula.
#[derive(Clone, Copy)]
pub enum Part {
    /// It needs the value of a slot.
    Slot(u32),
    /// It is a whole number, whatever else comes to be known.
    Number(i64),
    /// It is a truth, whatever else comes to be known.
    Truth(bool),
    /// Nothing is told.
    Open,
}

/// What is told of a literal or of a slot by the values known so far; nothing of other parts and of other kinds of values.
#[tactic(auto, using(crate::proofs::Numbers::literal_stays, crate::proofs::Numbers::slot_stays))]
#[inline(always)]
pub fn part_told(f: &Formula, known: &[Known]) -> Part
    ensures { IsPartTold result (tree f.now) known.now }
{
    match f {
        Formula::Lit(Scalar::Int(number)) => Part::Number(*number),
        Formula::Lit(Scalar::Bool(truth)) => Part::Truth(*truth),
        Formula::Slot(slot) => match known_at(*slot, known) {
            Some(Value::Int(number)) => Part::Number(*number),
            Some(Value::Bool(truth)) => Part::Truth(*truth),
            Some(_) => Part::Open,
            None => Part::Slot(*slot),
        },
        _ => Part::Open,
    }
}

// Whether an operator makes something else than a text of two whole numbers: this stands in `outcome` then.
#[inline(never)]
fn any_operated(op: BinOp, left: i64, right: i64, outcome: &mut Outcome) -> bool
    ensures { result ≡ true → outcome.new ≡ operated op (value.Int left) (value.Int right) }
{
    match outcome_of(op, &Value::Int(left), &Value::Int(right)) {
        Some(made) => {
            *outcome = made;
            true
        }
        None => false,
    }
}

/// Whether an operator makes something else than a text of two whole numbers: this stands in `outcome` then. The commonest operators stand
/// on their own.
#[inline(always)]
pub fn operate_numbers(op: BinOp, left: i64, right: i64, outcome: &mut Outcome) -> bool
    ensures { result ≡ true → outcome.new ≡ operated op (value.Int left) (value.Int right) }
{
    match op {
        BinOp::Add => {
            *outcome = sum(left, right);
            true
        }
        BinOp::Sub => {
            *outcome = difference(left, right);
            true
        }
        BinOp::Mul => {
            *outcome = product(left, right);
            true
        }
        _ => any_operated(op, left, right, outcome),
    }
}

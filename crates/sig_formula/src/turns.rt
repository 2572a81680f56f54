// The parts of a formula in the turn of their evaluation, for who goes over it and reads what they need.
ghost use Rattle.std.specs.Prelude.{◌≡◌, ◌++◌, List, MatchOption, None, Some};
ghost use Rattle.sig_base.specs.declared.value.Known.{Known};
ghost use Rattle.sig_base.specs.declared.value.Value.TheVariants as value;
ghost use Rattle.sig_formula.specs.Evaluation.{operated};
ghost use Rattle.sig_formula.specs.declared.parts.Part.TheVariants as part;
ghost use Rattle.sig_formula.specs.Trees.{Tree, tree};
ghost use Rattle.sig_formula.specs.Turns.{IsDecided, IsOperated, IsPartOf, IsPartRead, first_in, goes_on, next_in, told_value};

use crate::operate::{difference, outcome_of, product, sum};
use crate::program::decides;
use crate::{BinOp, Formula, Part};
use sig_base::{Outcome, Value};

/// The part of a formula that is evaluated first.
#[inline(always)]
pub fn first_part(f: &Formula) -> Option<&Formula>
    ensures { MatchOption result (first_in (tree f.now) ≡ None) (λ a. first_in (tree f.now) ≡ Some (tree a.now)) }
{
    match f {
        Formula::Not(first) => Some(&**first),
        Formula::Bin(_, first, _) => Some(&**first),
        Formula::If(first, _, _) => Some(&**first),
        _ => None,
    }
}

// Whether an operator goes on with its right operand, by what is told of its left one.
#[inline(always)]
fn goes_on(op: BinOp, first: Part) -> bool
    ensures { result ≡ goes_on op (told_value first) }
{
    match (op, first) {
        (BinOp::Or, Part::Truth(false)) => true,
        (BinOp::And, Part::Truth(true)) => true,
        (_, Part::Number(_) | Part::Truth(_)) => !decides(op),
        _ => false,
    }
}

/// The part of a formula that is evaluated next, by what is told of the first.
#[inline(always)]
pub fn next_part(f: &Formula, first: Part) -> Option<&Formula>
    ensures { MatchOption result (next_in (tree f.now) first ≡ None) (λ b. next_in (tree f.now) first ≡ Some (tree b.now)) }
{
    match f {
        Formula::Bin(op, _, right) => {
            if goes_on(*op, first) {
                return Some(&**right);
            }
            None
        }
        Formula::If(_, one, other) => match first {
            Part::Truth(true) => Some(&**one),
            Part::Truth(false) => Some(&**other),
            _ => None,
        },
        _ => None,
    }
}

// What is told of an operation whose left operand is a truth, where this decides.
#[inline(always)]
fn operation_decided(op: BinOp, truth: bool) -> Part
    ensures { IsDecided result op truth }
{
    match (op, truth) {
        (BinOp::Or, true) => Part::Truth(true),
        (BinOp::And, false) => Part::Truth(false),
        _ => Part::Open,
    }
}

// What is told of a formula whose first part is a truth, where no other part is needed.
#[inline(always)]
fn truth_decided(f: &Formula, truth: bool) -> Part
    ensures { (a : Tree) (known : List Known) → first_in (tree f.now) ≡ Some a → IsPartRead (part.Truth truth) a known →
        IsPartRead result (tree f.now) known }
{
    match f {
        Formula::Not(_) => Part::Truth(!truth),
        Formula::Bin(op, _, _) => operation_decided(*op, truth),
        _ => Part::Open,
    }
}

/// What is told of a formula by its first part alone.
#[inline(always)]
pub fn part_decided(f: &Formula, first: Part) -> Part
    ensures { (a : Tree) (known : List Known) → first_in (tree f.now) ≡ Some a → IsPartRead first a known →
        IsPartRead result (tree f.now) known }
{
    match first {
        Part::Slot(slot) => Part::Slot(slot),
        Part::Truth(truth) => truth_decided(f, truth),
        _ => Part::Open,
    }
}

// The part that an outcome is.
#[inline(always)]
fn part_of(outcome: Outcome) -> Part
    ensures { IsPartOf result outcome }
{
    match outcome {
        Outcome::Good(Value::Int(number)) => Part::Number(number),
        Outcome::Good(Value::Bool(truth)) => Part::Truth(truth),
        _ => Part::Open,
    }
}

// What is told of any operation between two values.
#[inline(never)]
fn any_made(op: BinOp, left: &Value, right: &Value) -> Part
    ensures { IsPartOf result (operated op left.now right.now) }
{
    match outcome_of(op, left, right) {
        Some(outcome) => part_of(outcome),
        None => Part::Open,
    }
}

// The same between two whole numbers: the commonest operators stand on their own.
#[inline(always)]
fn number_made(op: BinOp, left: i64, right: i64) -> Part
    ensures { IsPartOf result (operated op (value.Int left) (value.Int right)) }
{
    match op {
        BinOp::Add => part_of(sum(left, right)),
        BinOp::Sub => part_of(difference(left, right)),
        BinOp::Mul => part_of(product(left, right)),
        _ => any_made(op, &Value::Int(left), &Value::Int(right)),
    }
}

// What is told of an operation by what is told of its operands.
#[inline(always)]
fn operation_made(op: BinOp, left: Part, right: Part) -> Part
    ensures { IsOperated result op left right }
{
    match (left, right) {
        (_, Part::Slot(slot)) => Part::Slot(slot),
        (Part::Number(m), Part::Number(n)) => number_made(op, m, n),
        (Part::Truth(p), Part::Truth(q)) => any_made(op, &Value::Bool(p), &Value::Bool(q)),
        _ => Part::Open,
    }
}

/// What is told of a formula by the part that is evaluated next.
#[inline(always)]
pub fn part_made(f: &Formula, first: Part, next: Part) -> Part
    ensures { (a b : Tree) (known more : List Known) → first_in (tree f.now) ≡ Some a → IsPartRead first a known →
        next_in (tree f.now) first ≡ Some b → IsPartRead next b (known ++ more) → IsPartRead result (tree f.now) (known ++ more) }
{
    match f {
        Formula::Bin(op, _, _) => operation_made(*op, first, next),
        Formula::If(_, _, _) => next,
        _ => Part::Open,
    }
}

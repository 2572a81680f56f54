// What operators make of their operands.
ghost use Rattle.std.specs.Prelude.{◌≡◌, IfOk, MatchOption};
ghost use Rattle.sig_base.specs.Values.{shown};
ghost use Rattle.sig_formula.specs.Evaluation.{calculated, calculation, compared, count_outcome, decided, equality, joined_texts, negated, operated, order, text_outcome, truth};

use crate::BinOp;
use sig_base::{Fault, NoMemory, Outcome, Text, TextFault, Value};
use std::alloc::Global;
use std::cmp::Ordering;

// A truth, and no other kind.
fn truth(value: &Value) -> Outcome
    ensures { result ≡ truth value.now }
{
    match value {
        Value::Bool(b) => Outcome::Good(Value::Bool(*b)),
        _ => Outcome::Bad(Fault::Kind),
    }
}

/// How many rows there are.
pub fn counted(value: &Value) -> Outcome
    ensures { result ≡ count_outcome value.now }
{
    match value {
        Value::Rows(rows) => Outcome::Good(Value::Int(rows.rows().len() as i64)),
        _ => Outcome::Bad(Fault::Kind),
    }
}

/// The other truth.
pub fn negated(value: &Value) -> Outcome
    ensures { result ≡ negated value.now }
{
    match value {
        Value::Bool(b) => Outcome::Good(Value::Bool(!*b)),
        _ => Outcome::Bad(Fault::Kind),
    }
}

/// What the left operand decides alone: that of `or` and `and` must be a truth.
pub fn decided(op: BinOp, left: &Value) -> Option<Outcome>
    ensures { result ≡ decided op left.now }
{
    match (op, left) {
        (BinOp::Or, Value::Bool(true)) => Some(Outcome::Good(Value::Bool(true))),
        (BinOp::Or, Value::Bool(false)) => None,
        (BinOp::And, Value::Bool(true)) => None,
        (BinOp::And, Value::Bool(false)) => Some(Outcome::Good(Value::Bool(false))),
        (BinOp::Or | BinOp::And, _) => Some(Outcome::Bad(Fault::Kind)),
        _ => None,
    }
}

// Whether two scalars of one kind are equal.
fn equality(left: &Value, right: &Value) -> Option<bool>
    ensures { result ≡ equality left.now right.now }
{
    match (left, right) {
        (Value::Bool(p), Value::Bool(q)) => Some(p == q),
        (Value::Int(m), Value::Int(n)) => Some(m == n),
        (Value::Text(s), Value::Text(t)) => Some(s == t),
        _ => None,
    }
}

// How two whole numbers, or two texts by their bytes, are ordered.
fn order(left: &Value, right: &Value) -> Option<Ordering>
    ensures { result ≡ order left.now right.now }
{
    match (left, right) {
        (Value::Int(m), Value::Int(n)) => Some(m.cmp(n)),
        (Value::Text(s), Value::Text(t)) => Some(s.as_str().as_bytes().cmp(t.as_str().as_bytes())),
        _ => None,
    }
}

// The answer of a comparison.
fn compared(holds: Option<bool>) -> Outcome
    ensures { result ≡ compared holds }
{
    match holds {
        Some(b) => Outcome::Good(Value::Bool(b)),
        None => Outcome::Bad(Fault::Kind),
    }
}

// A text of at most `MOST_TEXT` bytes.
fn text_outcome(alloc: Global, text: &str) -> Result<Outcome, NoMemory>
    ensures { IfOk result (λ o. o ≡ text_outcome text.now) }
{
    match Text::new(alloc, text) {
        Ok(text) => Ok(Outcome::Good(Value::Text(text))),
        Err(TextFault::Long) => Ok(Outcome::Bad(Fault::Long)),
        Err(TextFault::NoMemory(error)) => Err(error),
    }
}

// Two scalars as they are shown, one after the other.
fn joined_texts(alloc: Global, left: Value, right: Value) -> Result<Outcome, NoMemory>
    ensures { IfOk result (λ o. o ≡ joined_texts (shown left) (shown right)) }
{
    let (Some(first), Some(second)) = (left.into_scalar(), right.into_scalar()) else {
        return Ok(Outcome::Bad(Fault::Kind));
    };
    let text = format!(in alloc; "{first}{second}")?;
    text_outcome(alloc, text.as_str())
}

/// The sum of two whole numbers.
pub(crate) fn sum(m: i64, n: i64) -> Outcome
    ensures { result ≡ calculated BinOp.Add m n }
{
    match m.checked_add(n) {
        Some(number) => Outcome::Good(Value::Int(number)),
        None => Outcome::Bad(Fault::Overflow),
    }
}

/// Their difference.
pub(crate) fn difference(m: i64, n: i64) -> Outcome
    ensures { result ≡ calculated BinOp.Sub m n }
{
    match m.checked_sub(n) {
        Some(number) => Outcome::Good(Value::Int(number)),
        None => Outcome::Bad(Fault::Overflow),
    }
}

/// Their product.
pub(crate) fn product(m: i64, n: i64) -> Outcome
    ensures { result ≡ calculated BinOp.Mul m n }
{
    match m.checked_mul(n) {
        Some(number) => Outcome::Good(Value::Int(number)),
        None => Outcome::Bad(Fault::Overflow),
    }
}

// The quotient, truncated towards zero.
fn quotient(m: i64, n: i64) -> Outcome
    ensures { result ≡ calculated BinOp.Div m n }
{
    if n == 0 {
        return Outcome::Bad(Fault::Zero);
    }
    match m.checked_div(n) {
        Some(number) => Outcome::Good(Value::Int(number)),
        None => Outcome::Bad(Fault::Overflow),
    }
}

// The remainder of that quotient.
fn remainder(m: i64, n: i64) -> Outcome
    ensures { result ≡ calculated BinOp.Rem m n }
{
    if n == 0 {
        return Outcome::Bad(Fault::Zero);
    }
    Outcome::Good(Value::Int(m.wrapping_rem(n)))
}

/// What an operator of whole numbers makes of two values.
pub fn calculation(op: BinOp, left: &Value, right: &Value) -> Outcome
    ensures { result ≡ calculation op left.now right.now }
{
    let (Value::Int(m), Value::Int(n)) = (left, right) else {
        return Outcome::Bad(Fault::Kind);
    };
    match op {
        BinOp::Add => sum(*m, *n),
        BinOp::Sub => difference(*m, *n),
        BinOp::Mul => product(*m, *n),
        BinOp::Div => quotient(*m, *n),
        BinOp::Rem => remainder(*m, *n),
        _ => Outcome::Bad(Fault::Kind),
    }
}

/// What an operator makes of two operands; none where it writes them one after the other.
pub(crate) fn outcome_of(op: BinOp, left: &Value, right: &Value) -> Option<Outcome>
    ensures { MatchOption result (op ≡ BinOp.Join) (λ o. o ≡ operated op left.now right.now) }
{
    match op {
        BinOp::Or | BinOp::And => Some(truth(right)),
        BinOp::Eq => Some(compared(equality(left, right))),
        BinOp::Ne => Some(compared(equality(left, right).map(|same| !same))),
        BinOp::Lt => Some(compared(order(left, right).map(|o| o.is_lt()))),
        BinOp::Le => Some(compared(order(left, right).map(|o| o.is_le()))),
        BinOp::Gt => Some(compared(order(left, right).map(|o| o.is_gt()))),
        BinOp::Ge => Some(compared(order(left, right).map(|o| o.is_ge()))),
        BinOp::Join => None,
        _ => Some(calculation(op, left, right)),
    }
}

/// What an operator makes of two operands.
pub fn operated(alloc: Global, op: BinOp, left: Value, right: Value) -> Result<Outcome, NoMemory>
    ensures { IfOk result (λ o. o ≡ operated op left right) }
{
    match outcome_of(op, &left, &right) {
        Some(outcome) => Ok(outcome),
        None => joined_texts(alloc, left, right),
    }
}

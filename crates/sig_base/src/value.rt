// Values, faults, and what a formula asks and answers.
ghost use Rattle.std.specs.Prelude.{◌≡◌, ◌↔◌, IfOk, IsTrue};
ghost use Rattle.sig_base.specs.Values.{is_alike, same_outcome, same_value, scalar_of, scalar_value};

use crate::{NoMemory, Rows, Scalar, Text};
use std::fmt;

/// The value of a signal or a formula.
#[derive(Drop)]
pub enum Value {
    Bool(bool),
    Int(i64),
    Text(Text),
    Rows(Rows),
}

/// Why there is no value.
#[derive(Clone, Copy, PartialEq, Eq)]
pub enum Fault {
    /// A whole number outside 64 bits.
    Overflow,
    /// A division by zero.
    Zero,
    /// An operand of the wrong kind, or two kinds compared.
    Kind,
    /// A text of more than `MOST_TEXT` bytes.
    Long,
    /// A read of a disposed signal.
    Gone,
    /// A field that the rows don't have.
    Absent,
    /// A read of a computed that is being evaluated.
    Cycle,
    /// A host formula's own fault.
    Host(u8),
    /// A host formula asked for a slot outside its arguments.
    Slot,
    /// A host formula asked for a slot that it had read.
    Twice,
}

/// What an evaluation came to.
#[derive(Drop)]
pub enum Outcome {
    Good(Value),
    Bad(Fault),
}

/// The value of a slot.
#[derive(Drop)]
pub struct Known {
    pub slot: u32,
    pub value: Value,
}

/// What a formula answers to the values known so far: it needs a slot, or it ends.
#[derive(Drop)]
pub enum Step {
    Read(u32),
    Done(Value),
    Fail(Fault),
}

impl Value {
    /// The same value, which shares its texts and lists.
    pub fn copy(&self) -> Result<Value, NoMemory>
        ensures { IfOk result (λ v. v ≡ self.now) }
    {
        match self {
            Value::Bool(b) => Ok(Value::Bool(*b)),
            Value::Int(n) => Ok(Value::Int(*n)),
            Value::Text(text) => Ok(Value::Text(text.copy()?)),
            Value::Rows(rows) => Ok(Value::Rows(rows.copy()?)),
        }
    }

    /// The value as a scalar; none where it is rows.
    pub fn into_scalar(self) -> Option<Scalar>
        ensures { result ≡ scalar_of self }
    {
        match self {
            Value::Bool(b) => Some(Scalar::Bool(b)),
            Value::Int(n) => Some(Scalar::Int(n)),
            Value::Text(text) => Some(Scalar::Text(text)),
            Value::Rows(_) => None,
        }
    }

    /// Whether the two are one value: rows by their fields, their order, their keys and their scalars.
    pub fn same(&self, other: &Value) -> bool
        ensures value { result ≡ same_value self.now other.now }
        ensures exact { IsTrue result ↔ (self.now ≡ other.now) }
    {
        match (self, other) {
            (Value::Bool(p), Value::Bool(q)) => p == q,
            (Value::Int(m), Value::Int(n)) => m == n,
            (Value::Text(s), Value::Text(t)) => s == t,
            (Value::Rows(t), Value::Rows(u)) => t == u,
            _ => false,
        }
    }
}

impl From<Scalar> for Value {
    ghost from_gives = { λ s v. v ≡ scalar_value s };

    fn from(scalar: Scalar) -> Value {
        match scalar {
            Scalar::Bool(b) => Value::Bool(b),
            Scalar::Int(n) => Value::Int(n),
            Scalar::Text(text) => Value::Text(text),
        }
    }
}

impl fmt::Display for Fault {
    ghost use Rattle.std.specs.Prelude.{Some};
    ghost use Rattle.sig_base.specs.Printer.{fault_name};

    ghost output = { λ f. Some (fault_name f) };

    fn fmt<W: fmt::Write>(&self, f: &mut fmt::Formatter<W>) -> fmt::Result {
        match self {
            Fault::Overflow => f.write_str("overflow"),
            Fault::Zero => f.write_str("zero"),
            Fault::Kind => f.write_str("kind"),
            Fault::Long => f.write_str("long"),
            Fault::Gone => f.write_str("gone"),
            Fault::Absent => f.write_str("absent"),
            Fault::Cycle => f.write_str("cycle"),
            Fault::Host(n) => write!(f, "host {n}"),
            Fault::Slot => f.write_str("slot"),
            Fault::Twice => f.write_str("twice"),
        }
    }
}

impl Outcome {
    /// The same outcome.
    pub fn copy(&self) -> Result<Outcome, NoMemory>
        ensures { IfOk result (λ o. o ≡ self.now) }
    {
        match self {
            Outcome::Good(value) => Ok(Outcome::Good(value.copy()?)),
            Outcome::Bad(fault) => Ok(Outcome::Bad(*fault)),
        }
    }

    /// Whether the two are one outcome.
    pub fn same(&self, other: &Outcome) -> bool
        ensures value { result ≡ same_outcome self.now other.now }
        ensures exact { IsTrue result ↔ (self.now ≡ other.now) }
    {
        match (self, other) {
            (Outcome::Good(a), Outcome::Good(b)) => a.same(b),
            (Outcome::Bad(e), Outcome::Bad(f)) => e == f,
            _ => false,
        }
    }
}

impl Known {
    /// The same slot with the same value.
    pub fn copy(&self) -> Result<Known, NoMemory>
        ensures { IfOk result (λ k. k ≡ self.now) }
    {
        Ok(Known {
            slot: self.slot,
            value: self.value.copy()?,
        })
    }
}

/// Whether two whole numbers are at most `slack` apart; of other values, whether they are the same.
pub fn alike(slack: u64, a: &Value, b: &Value) -> bool
    ensures { result ≡ is_alike slack a.now b.now }
{
    match (a, b) {
        (Value::Int(m), Value::Int(n)) => m.abs_diff(*n) <= slack,
        _ => a.same(b),
    }
}

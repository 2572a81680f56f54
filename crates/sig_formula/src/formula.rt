// Formulas as trees.

use sig_base::{Name, Rows, Scalar};

/// An operator between two operands.
#[derive(Clone, Copy)]
pub enum BinOp {
    Or,
    And,
    Eq,
    Ne,
    Lt,
    Le,
    Gt,
    Ge,
    /// Two scalars as they are shown, one after the other.
    Join,
    Add,
    Sub,
    Mul,
    Div,
    Rem,
}

/// A formula over slots, which stand for its names in the order of their first places.
#[derive(Drop)]
pub enum Formula {
    Lit(Scalar),
    Slot(u32),
    /// A field of the row that the formula speaks of.
    It(Name),
    /// The key of that row.
    ItKey,
    Not(Box<Formula>),
    Bin(BinOp, Box<Formula>, Box<Formula>),
    /// A test, and what is evaluated where it is true and where it is false.
    If(Box<Formula>, Box<Formula>, Box<Formula>),
    /// How many rows there are.
    Count(Box<Formula>),
    /// Rows, and what is added up over them: it speaks of each row in turn.
    Sum(Box<Formula>, Box<Formula>),
    /// Rows, and what holds of those that are kept: it speaks of each row in turn.
    Keep(Box<Formula>, Box<Formula>),
    /// A read that isn't tracked; it has the value of what it holds.
    Untrack(Box<Formula>),
}

/// The row that a formula speaks of: rows, and a place among them.
#[derive(Drop)]
pub struct RowRef {
    pub rows: Rows,
    pub place: usize,
}

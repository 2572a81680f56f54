// Formulas whose leaves are places of tokens.

use sig_formula::BinOp;

/// What stands before one formula in parentheses.
#[derive(Clone, Copy)]
pub enum Around {
    Count,
    Untrack,
}

/// What stands before rows and a formula about each of them, in parentheses.
#[derive(Clone, Copy)]
pub enum OverRows {
    Sum,
    Keep,
}

/// A formula as it was read: names and texts are the places of their tokens.
#[derive(Drop)]
pub enum Rough {
    Name(usize),
    Text(usize),
    Number(i64),
    Truth(bool),
    /// The key of a row or one of its fields, by the place of its name behind `it.`.
    It(usize),
    Not(Box<Rough>),
    Bin(BinOp, Box<Rough>, Box<Rough>),
    /// A test, and what is evaluated where it is true and where it is false.
    If(Box<Rough>, Box<Rough>, Box<Rough>),
    Around(Around, Box<Rough>),
    /// Rows, and what is evaluated of each of them.
    OverRows(OverRows, Box<Rough>, Box<Rough>),
}

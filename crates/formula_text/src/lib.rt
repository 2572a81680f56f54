//! Formulas as text, in both directions.
#![tactic(auto)]

mod judge;
mod operators;
mod reader;
mod rough;
mod sign;
mod theorems;
mod wired;
mod writer;

pub use judge::has_row_form;
pub use reader::read_rough;
pub use rough::{Around, OverRows, Rough};
pub use theorems::{
    canonical_text_reads, fewest_parentheses, leaves_are_tokens, names_for_slots, one_formula,
    written_formulas_read_back,
};
pub use wired::{Allow, FormulaFault, Wired, read_formula, wire};
pub use writer::{put_formula, put_formula_of};

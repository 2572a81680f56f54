//! Host formulas and equality rules: what the caller hands in, and the shelf that keeps the formulas.
#![tactic(auto)]

mod formula;
mod rule;
mod shelf;

pub use formula::{HostFormula, lends_rows};
pub use rule::EqualsRule;
pub use shelf::{Lent, Shelf};

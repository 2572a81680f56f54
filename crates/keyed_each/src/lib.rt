//! The steps that lead from the rows of a list to its rows after an edit, by their keys.
#![tactic(auto)]

mod key;
mod numbers;
mod places;

pub use key::RowKey;
pub use numbers::place_numbers;
pub use places::{RowStep, place, steps_lead};

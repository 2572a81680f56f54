//! How the body of an effect is evaluated, and when an effect is due.
#![tactic(auto)]

mod at_once;
mod due;
mod evaluate;
mod run;

pub use at_once::{LoggedCell, logged_cell};
pub use due::{are_still, look};
pub use evaluate::evaluate_body;
pub use run::{BodyEnd, BodyRun};

//! Formulas, and what they answer to the values known so far.
#![tactic(auto)]

mod at_once;
mod copies;
mod evaluate;
mod formula;
mod laws;
mod machine;
mod operate;
mod parts;
mod program;
mod resume;
mod rounds;
mod row;
mod turns;

pub use at_once::{Told, told_at_once};
pub use copies::copy_formula;
pub use evaluate::{FormulaStep, formula_step, step};
pub use formula::{BinOp, Formula, RowRef};
pub use laws::{formulas_ask_own_unknown_slots, rows_are_asked_by_it_alone};
pub use parts::{Part, operate_numbers, part_told};
pub use program::decides;
pub use resume::Paused;
pub use turns::{first_part, next_part, part_decided, part_made};

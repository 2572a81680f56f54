//! Formulas of a page's lines, evaluated on signals that are settled as they are asked for.
#![tactic(auto)]

mod again;
mod comparisons;
mod evaluation;
mod name_list;
mod outcomes;
mod still;
mod unseen;

pub use again::{first_other, hear_again, hear_all_again};
pub use comparisons::{Comparisons, Rehearing};
pub use evaluation::{Evaluated, Read, evaluate};
pub use outcomes::{Outcomes, hear};
pub use unseen::Unseen;

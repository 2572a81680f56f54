//! Whether links are the chain of a computed, by the facts alone.
#![tactic(auto)]

mod causes;
mod checking;
mod looking;

pub use checking::check;

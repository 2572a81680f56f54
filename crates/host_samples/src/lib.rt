//! Host formulas as samples: `Pick`, `Cascade` and `Clamp`, which the program lends to its scripts.
#![tactic(auto)]

mod cascade;
mod chain;
mod clamp;
mod known;
mod pick;

pub use cascade::Cascade;
pub use chain::lend;
pub use clamp::Clamp;
pub use pick::Pick;

//! The plain machine: what a script's commands do, and what they tell.
#![tactic(auto)]

mod laws;
mod names;

pub use laws::{flush_shows_scratch, page_shows_shape};
pub use names::{Kind, Meaning, Need};

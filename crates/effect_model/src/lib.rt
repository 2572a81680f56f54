//! What effects are: what stands under what, how their bodies are evaluated, when they run, and how things end.
#![tactic(auto)]

mod how;
mod laws;
mod limits;
mod plain;

pub use how::How;
pub use laws::flush_by_turns;
pub use limits::{MOST_EFFECTS, MOST_OWNERS, MOST_WATCHERS};
pub use plain::Plain;

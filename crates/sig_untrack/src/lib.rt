//! Bodies of effects, what they answer to the values known so far, tracked and untracked, and what an effect keeps of its last run.
#![tactic(auto)]

mod body;
mod evaluate;
mod logging;
mod reads;

pub use body::{Act, Body, BodyStep, Recipe2, Rewire, Stmt};
pub use evaluate::body_step;
pub use logging::logged_slot;
pub use reads::{Read, names};

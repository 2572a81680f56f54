//! What the signal graph is: values from scratch, what is kept of them, and when a computed runs.
#![tactic(auto)]

mod answers;
pub mod laws;

pub use answers::judged;

//! What holds of the pages of a script, for all environments and all scripts.
#![tactic(auto)]

mod laws;

pub use laws::{live_law, shown_law};

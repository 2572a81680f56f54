//! What the names in sources, in texts and in the bodies of effects stand for.
#![tactic(auto)]

mod bodies;
mod sources;

pub use bodies::links_of;
pub use sources::{LinkedSource, linked_source, owner_of, signals_of};

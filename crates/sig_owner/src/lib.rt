//! The store of what stands under what: owners and effects, what was made under each, and how it is taken back.
#![tactic(auto)]

mod errors;
mod holder;
mod owners;
mod places;
mod thing;
mod walk;

pub use errors::OwnFault;
pub use owners::Owners;
pub use thing::{CleanupAct, Thing, Undoing};

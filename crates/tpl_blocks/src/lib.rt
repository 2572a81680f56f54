//! The lines of a template as they nest.
#![tactic(auto)]

mod block;
mod builder;
mod laws;

pub use block::Block;
pub use builder::block_of;
pub use laws::read_law;

//! Settling: what is asked is brought up to date, and nothing else runs. It is defined step by step, as a loop over a stack of frames that
//! needs only what a store of nodes gives.
#![tactic(auto)]

mod all;
mod frames;
pub mod laws;
mod notes;
mod settler;
mod turns;
mod visited;

pub use all::settle_all;
pub use notes::RunNote;
pub use settler::settle;
pub use sig_graph::IdList;

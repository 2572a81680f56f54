//! The operations of a page that is brought up to date, read from the tree that stands: what leaves, which children move and what comes to them, and
//! what nodes that stay say otherwise.
#![tactic(auto)]

mod arrivals;
mod leaving;
mod looks;
mod moves;
mod set;

pub use arrivals::put_nodes;
pub use leaving::removals;
pub use looks::put_looks;
pub use moves::put_moves;

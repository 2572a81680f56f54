//! Tables that are made once: who has each seat, which seats a search has reached, what it has found, and the way that it went.
#![tactic(auto)]

mod finds;
mod reached;
mod seats;
mod trail;

pub use finds::Finds;
pub use reached::Reached;
pub use seats::Seats;
pub use trail::Trail;

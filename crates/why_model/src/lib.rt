//! What a journal of signals notes, and why a computed ran by it.
#![tactic(auto)]

mod causes;
mod limits;

pub use causes::{Cause, Link, is_cycle, is_rewire};
pub use limits::MOST_FACTS;

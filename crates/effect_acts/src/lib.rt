//! What a run of an effect does to the world, act by act and in order. What an act names that is gone is told as refused.
#![tactic(auto)]

mod act;
mod alone;
mod cells;
mod changes;
mod children;
mod cleanups;
mod disposal;
mod messages;
mod reads;
mod recipes;
mod sequence;

pub use act::do_act;
pub use alone::do_alone;
pub use cells::set;
pub use changes::Change;
pub use children::make_child;
pub use cleanups::note;
pub use disposal::dispose;
pub use messages::{fail, log};
pub use reads::{keep_one, keep_reads};
pub use recipes::rewire;
pub use sequence::do_acts;

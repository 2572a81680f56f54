//! What stands in the tables is taken back: in which order, and what is left; and where the bodies of effects stand in their scripts.
#![tactic(auto)]

mod laws;
mod lookup;
mod paths;
mod removal;
mod stored;
mod teardown;
mod things;

pub use laws::child_law;
pub use lookup::effect_row;
pub use paths::{body_at, links_at};
pub use teardown::{take_back, take_out};

//! Runs of effects, turns and flushes; and bodies that belong to no effect, run once.
#![tactic(auto)]

mod flushes;
mod glance;
mod near;
mod once;
mod quiet;
mod run;
mod turns;

pub use flushes::{FlushEnd, MOST_TURNS, flush};
pub use once::hear_once;
pub use run::run_effect;
pub use turns::turn;

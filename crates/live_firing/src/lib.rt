//! Handlers of events run: what they read is settled, they are done act by act, and all is told.
#![tactic(auto)]

mod acting;
mod running;
mod telling;

pub use running::run_all;

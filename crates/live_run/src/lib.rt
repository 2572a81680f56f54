//! Does what the words of a command line ask for: runs a script from a source, or a generated one, and prints to a sink, or follows frames.
#![tactic(auto)]

mod frames;
mod input;
mod laws;
mod run;
mod script;
mod script_run;

pub use input::{ReadEnd, read_all, script_for};
pub use laws::complete_law;
pub use run::{MOST_HOSTS, MOST_RULES, Status, run_live};

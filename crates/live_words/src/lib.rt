//! The words of the command line, read as those of one simple command: a job, perhaps a number of rounds, and the flag `--trace`.
#![tactic(auto)]

mod jobs;
mod laws;
mod rounds;
mod words;

pub use jobs::{Job, MOST_ROUNDS, ScriptJob};
pub use laws::rounds_are_few;
pub use words::read_job;

//! What things are called in what is told, and what is told of the events of a world.
#![tactic(auto)]

mod labels;
mod names;
mod notes;
mod reasons;
mod report;

pub use labels::Labels;
pub use names::{label_effect, named_count, names_of_signals};
pub use notes::note_runs;
pub use reasons::tell_why;
pub use report::{append, put_entry, tell_all, tell_for, tell_runs};

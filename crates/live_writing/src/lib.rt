//! How the commands of a script are written.
#![tactic(auto)]

mod inside;
mod laws;
mod rows;
mod sources;
mod watchers;
mod writer;

pub use laws::commands_read_back;
pub use writer::command_line;

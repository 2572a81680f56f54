//! The names that commands use, in the order of their text, and what else is asked of the text of a body.
#![tactic(auto)]

mod bodies;
mod commands;
mod hosts;
mod slots;
mod uses;

pub use bodies::uses_of_body;
pub use commands::{need_of, uses_of};
pub use hosts::hosts_of_body;
pub use uses::Use;

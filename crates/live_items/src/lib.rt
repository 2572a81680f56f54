//! One item after the other: refused, or done by the machine.
#![tactic(auto)]

mod commands;
mod live;
mod refusals;

pub use live::{Live, Running};

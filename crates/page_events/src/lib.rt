//! Handlers of events on pages, and which of them run as an event is fired.
#![tactic(auto)]

mod fault;
mod handlers;
mod waiting;
mod way;

pub use fault::{FireFault, HandlerFault};
pub use handlers::Handlers;

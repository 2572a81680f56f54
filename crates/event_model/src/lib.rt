//! Events on pages: the nodes that an event goes to, and the handlers that wait there for it. Definitions and laws alone.
#![tactic(auto)]

mod awaited;
mod fired;
pub mod laws;
mod limits;

pub use awaited::Awaited;
pub use fired::Fired;
pub use limits::MOST_HANDLERS;

//! Watchers: who watches which signals, and who is told of a change.
#![tactic(auto)]

mod errors;
mod reach;
mod recipients;
mod watcher;
mod watchers;

pub use effect_model::MOST_WATCHERS;
pub use errors::WatchFault;
pub use recipients::Told;
pub use watchers::Watchers;

//! The world of signals, watchers, owners, effects and pages: what is made, changed and disposed, and what is told of it.
#![tactic(auto)]

mod batches;
mod changes;
mod creation;
mod ends;
mod queries;
mod teardown;
mod unwatched;
mod watchers;
mod world;

pub use world::World;

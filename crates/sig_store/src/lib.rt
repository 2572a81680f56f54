//! Values by the numbers under which they were made, of which only those that stand take memory.
#![tactic(auto)]

mod store;

pub use store::Store;

//! What a script made, and what each command that isn't refused does to it.
#![tactic(auto)]

mod answers;
mod batches;
mod bindings;
mod changes;
mod creation;
mod events;
mod faults;
mod items;
mod lists;
mod machine;
mod pages;
mod records;
mod untraced;

pub use answers::one;
pub use lists::edit_refusal;
pub use machine::Machine;

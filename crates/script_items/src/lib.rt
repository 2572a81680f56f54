//! The items of a script: what each line is, each block, and what they are refused for.
#![tactic(auto)]

mod block;
mod chain;
mod common;
mod contents;
mod item;
mod known;
mod laws;
mod many_fields;
mod operation;
mod quick;
mod short;

pub use item::next_item;
pub use known::KnownNames;
pub use laws::{commands_alone, items_cut, items_in_turn, one_item, one_list, one_meaning};
pub use quick::{Brief, next_brief};

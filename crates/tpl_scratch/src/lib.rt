//! What a template shows where some outcomes are known: the page from scratch, or the name whose outcome is needed next.
#![tactic(auto)]

mod evaluate;
mod nodes;
mod scratch;
mod show;
mod stop;
mod text;

pub use nodes::Nodes;
pub use scratch::{ScratchStep, page_from_scratch};
pub use show::{put_attribute, put_named, shows_branch};
pub use text::{attribute_value, node_text};

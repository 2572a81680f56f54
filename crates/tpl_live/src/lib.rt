//! Live pages of templates: a page is mounted and brought up to date, with the operations that lead there.
#![tactic(auto)]

mod first;
mod page;
mod plan;
mod scratch;

pub use page::Page;
pub use scratch::tree_from_scratch;

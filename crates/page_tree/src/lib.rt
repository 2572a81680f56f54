//! Numbered trees: pages as operations edit them. A tree is a table from number to node, so an edit costs by the node and
//! its siblings, and never by the page.
#![tactic(auto)]

mod ancestors;
mod behind;
mod element_name;
mod html;
mod moves;
mod numbers;
mod removal;
mod sub;
mod table;
mod text_node;
mod tree;

pub use sub::Sub;
pub use tree::{NodeKind, Tree};

//! The graph of signals: cells and computeds by id, which depends on which, how each stands, and the evaluations that are under way.
#![tactic(auto)]

mod end_marks;
mod errors;
mod evaluation;
mod graph;
mod holders;
mod links;
mod looks;
mod marks;
mod queries;
mod reading;
mod search;
mod search_marks;
mod source_looks;
mod spares;

pub use errors::NodeFault;
pub use graph::Graph;
pub use reading::Reached;
pub use sig_nodes::{Asked, IdList, Mark, Recipe, Standing};
pub use source_looks::{SignalLook, SourceLook};
pub use spares::clear_few;

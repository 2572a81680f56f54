// The nodes of a shape that stand on a page already, with their numbers there.
mod arrivals;
mod guess;
mod lines;
mod marker;
mod nodes;
mod numbers;

pub use arrivals::put_coming;
pub(crate) use marker::mark_all;
pub use nodes::PageNodes;
pub use numbers::{Numbers, put_addresses};

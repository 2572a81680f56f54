//! The generated workload: a script of so many rounds, and the lines that tell what running it came to.
#![tactic(auto)]

mod script;
mod summary;

pub use script::bench_script;
pub use summary::{Counts, put_summary};

//! Where a script comes from and where its output goes, with counts of what failed.
#![tactic(auto)]

mod memory;
mod standard;
mod traits;
mod writer;

pub use memory::{MemSink, MemSource};
pub use standard::{StdSink, StdSource};
pub use traits::{Sink, Source};
pub use writer::put_all;

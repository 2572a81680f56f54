//! Sets of cells, alone and collected in batches.
#![tactic(auto)]

mod batch;
mod errors;
mod sets;

pub use batch::{Batch, set_in};
pub use errors::Gone;
pub use sets::{SetDone, set};

//! Operations on a numbered tree: doing them, writing them, and reading them.
#![tactic(auto)]

mod judge;
mod nodes;
mod numbers;
mod op;
mod parts;
mod reader;
mod replay;
mod writer;

pub use op::{ApplyFault, Op, OpFault};
pub use reader::{one_reading, read_op};
pub use replay::{apply, perform};
pub use writer::op_line;

//! Bodies as text, in both directions.
#![tactic(auto)]

mod allowance;
mod builder;
mod fault;
mod judge;
mod laws;
mod line;
mod lists;
mod logging;
mod named;
mod read;
mod reader;
mod stmt;
mod writer;

pub use allowance::{Allowance, StatementSet};
pub use fault::{BodyFault, BodyWhy};
pub use judge::{MOST_BODY_LINES, MOST_LEVELS};
pub use laws::{bodies_read_back, one_body, one_line};
pub use line::{Line, PlainLine, Source};
pub use named::NamedFormula;
pub use read::{read_body, read_numbered};
pub use writer::put_body;

//! What the commands of a script tell, why they are refused, and the lines in which it is printed.
#![tactic(auto)]

mod entry;
mod label;
mod page;
mod refusal;
mod writer;

pub use entry::{Entry, Reason, Seen};
pub use label::{ChildPath, Label};
pub use line_forms::NameList;
pub use page::{PageBytes, PageOp};
pub use refusal::{FieldDetail, LimitWord, Refusal};
pub use writer::entry_line;

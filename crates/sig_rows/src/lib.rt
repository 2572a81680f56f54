//! Edits of rows: each is an edit of the list of rows, or leaves all as it was; why one is refused, which is asked
//! without making it; and what one makes of rows that allow it.
#![tactic(auto)]

mod edit;
mod fault;
mod made;
mod refusals;
mod row;

pub use edit::{insert, move_to, new_rows, put_field, remove};
pub use fault::RowFault;
pub use made::{field_put, inserted, moved, removed};
pub use refusals::{insert_fault, move_fault, put_fault, remove_fault};

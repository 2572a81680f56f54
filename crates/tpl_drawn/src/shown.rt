// The shape of a page, from what is kept of its template's lines.
mod nodes;
mod parts;

pub(crate) use nodes::put_element;
pub use nodes::put_shown;
pub(crate) use parts::{put_attributes, put_text, rows_in};

//! HTML's names and the escaping of texts and of attribute values.
#![tactic(auto)]

mod escapes;
mod names;

pub use escapes::{is_plain_text, put_attr, put_bytes, put_text};
pub use names::{good_name, is_raw, is_void};

//! Values, names and numbers of things, and the two errors that every layer speaks of.
#![tactic(auto)]

mod chars;
mod count;
mod errors;
mod ids;
mod limits;
mod name;
mod print;
mod rows;
mod same;
mod scalar;
mod text;
mod value;
mod word;

pub use count::Count;
pub use errors::{Failed, NoMemory};
pub use ids::{EffectId, NodeId, OwnerId, PageId, PlaceId, WatcherId, one_given};
pub use limits::{
    MOST_FIELDS, MOST_HEIGHT, MOST_LINE, MOST_NAME, MOST_NODES, MOST_PAGES, MOST_ROWS, MOST_SCRIPT,
    MOST_SOURCES, MOST_TAG, MOST_TEMPLATE_LINES, MOST_TEMPLATES, MOST_TEXT,
};
pub use name::{Name, NameFault};
pub use print::{put_fault, put_quoted, put_scalar, put_value};
pub use rows::{Row, Rows, Scalars};
pub use same::same_bytes;
pub use scalar::{Scalar, put_decimal, put_shown};
pub use text::{Text, TextFault};
pub use value::{Fault, Known, Outcome, Step, Value, alike};
pub use word::{begins_word, in_tag, in_word, is_blank, is_name, is_tag};

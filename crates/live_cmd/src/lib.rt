//! Commands, and the lines of a script that say them.
#![tactic(auto)]

mod command;
mod fields;
mod judge;
mod last;
mod line;
mod names;
mod reader;
mod row_lines;
mod sources;
mod watchers;

pub use command::{Bare, Command, EffectBody, Item, RowEdit, SourceText, Try, Verb};
pub use fields::are_fields;
pub use judge::refused_for;
pub use line::{Found, Line};
pub use line_forms::NameList;
pub use reader::read_line;

//! Templates of pages as text, in both directions.
#![tactic(auto)]

mod builder;
mod fault;
mod judge;
mod laws;
mod line;
mod place;
mod read;
mod reader;
mod template;
mod writer;

pub use fault::{TemplateFault, TemplateWhy};
pub use judge::MOST_DEPTH;
pub use laws::{one_line, one_template, templates_read_back};
pub use line::{Line, Mark, Purpose, TplLine};
pub use read::{read_numbered, read_template};
pub use template::Template;
pub use writer::put_template;

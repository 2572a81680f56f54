//! The names of a script: what they stand for, and why one is refused at its place.
#![tactic(auto)]

mod life;
mod names;
mod refusals;

pub use life::{is_page_among, lives};
pub use names::{Names, number_meant};
pub use refusals::refusal_at;

//! Edits of a list's rows as a script has them: what they make, or why they are refused.
#![tactic(auto)]

mod edits;
mod refusals;

pub use edits::{edited, refusal};

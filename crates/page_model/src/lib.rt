//! Pages as numbered trees, the edits between two of them, and the law of their replay: definitions and laws alone.
#![tactic(auto)]

pub mod laws;

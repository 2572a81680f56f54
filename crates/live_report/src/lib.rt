//! What a job prints of a script's items and of what they tell: the lines as they come, or the frames, or a summary at the end.
#![tactic(auto)]

mod counters;
mod report;

pub use report::Report;

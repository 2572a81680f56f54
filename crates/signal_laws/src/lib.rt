//! What evaluations may rely on: the laws of the memos that the signal graph keeps.
#![tactic(auto)]

pub mod laws;

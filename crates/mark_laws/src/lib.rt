//! What dependants and pushed marks promise: the laws that the bodies of a graph's store rest on.
#![tactic(auto)]

pub mod laws;

//! Worked journals: the chains that they tell, and which links the checker takes.
#![tactic(auto)]

#[cfg(test)]
mod chains;

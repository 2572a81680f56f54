//! Worked command lines, and the workloads that they name.
#![tactic(auto)]

#[cfg(test)]
mod words;
#[cfg(test)]
mod workloads;

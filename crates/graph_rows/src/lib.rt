//! Worked owners, watchers, batches, bodies and host samples: what is taken back, who is told, and what is answered.
#![tactic(auto)]

#[cfg(test)]
mod batches;
#[cfg(test)]
mod bodies;
#[cfg(test)]
mod owners;
#[cfg(test)]
mod plain;
#[cfg(test)]
mod samples;
#[cfg(test)]
mod watchers;

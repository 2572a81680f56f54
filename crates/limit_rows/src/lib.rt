//! Limits, each reached and passed by one, and scripts of thousands of lines, over sources and sinks in memory.
#![tactic(auto)]

#[cfg(test)]
mod bounds;
#[cfg(test)]
mod clean;
#[cfg(test)]
mod deep;
#[cfg(test)]
mod limits;
#[cfg(test)]
mod pieces;
#[cfg(test)]
mod run;

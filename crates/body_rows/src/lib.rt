//! Bodies as tests: which blocks of lines are one of an effect or a handler, what it is, what the others are refused for, and how bodies are
//! written.
#![tactic(auto)]

#[cfg(test)]
mod blocks;
#[cfg(test)]
mod bodies;
#[cfg(test)]
mod handlers;
#[cfg(test)]
mod limits;
#[cfg(test)]
mod refused;
#[cfg(test)]
mod written;

//! Worked operations as tests: they are read, written again, and lead from page to page; so are notes of pages and their frames.
#![tactic(auto)]

#[cfg(test)]
mod follow;
#[cfg(test)]
mod frames;
#[cfg(test)]
mod lines;
#[cfg(test)]
mod ops;
#[cfg(test)]
mod tests;

//! Templates as tests: which blocks of lines are one, what the others are refused for, how their lines nest, how they are written, what they show
//! from scratch, what lines hear, and what is kept of them.
#![tactic(auto)]

#[cfg(test)]
mod blocks;
#[cfg(test)]
mod copies;
#[cfg(test)]
mod formulas;
#[cfg(test)]
mod limits;
#[cfg(test)]
mod memos;
#[cfg(test)]
mod nested;
#[cfg(test)]
mod outcomes;
#[cfg(test)]
mod refused;
#[cfg(test)]
mod scene;
#[cfg(test)]
mod scratch;
#[cfg(test)]
mod written;

//! Worked worlds with owners, effects and pages: what is taken back, what a body wants done, and when an effect is due.
#![tactic(auto)]

#[cfg(test)]
mod runs;
#[cfg(test)]
mod scene;
#[cfg(test)]
mod scripts;
#[cfg(test)]
mod taken;
#[cfg(test)]
mod tree;

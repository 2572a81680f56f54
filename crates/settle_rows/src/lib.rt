//! Worked graphs: what settling answers, which computeds run for it, and what is asked of host formulas.
#![tactic(auto)]

#[cfg(test)]
mod host_rows;
#[cfg(test)]
mod hosts;
#[cfg(test)]
mod rows;
#[cfg(test)]
mod scene;
#[cfg(test)]
mod shelf;
#[cfg(test)]
mod step_rows;

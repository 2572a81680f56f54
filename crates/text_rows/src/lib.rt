//! Worked texts: the tokens of a line, formulas that are read and written again, the commands of a script, and what HTML escapes.
#![tactic(auto)]

#[cfg(test)]
mod escapes;
#[cfg(test)]
mod formulas;
#[cfg(test)]
mod pieces;
#[cfg(test)]
mod tokens;

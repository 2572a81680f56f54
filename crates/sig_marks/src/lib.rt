//! Whom a change reaches: the dependants of each signal, and marks that are pushed along them, by the signals' numbers.
#![tactic(auto)]

mod links;
mod marks;
mod presence;
mod propagation;
mod reader_list;
mod readers;

pub use marks::Marks;

//! Worked values and rows: how they are printed, compared, copied, edited and placed, stores of values by number, and the sources and sinks of bytes.
#![tactic(auto)]

#[cfg(test)]
mod children;
#[cfg(test)]
mod places;
#[cfg(test)]
mod rows;
#[cfg(test)]
mod stores;
#[cfg(test)]
mod streams;
#[cfg(test)]
mod values;
#[cfg(test)]
mod worked;

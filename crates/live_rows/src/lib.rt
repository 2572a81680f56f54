//! Worked scripts and what they print, over sources and sinks in memory.
#![tactic(auto)]

#[cfg(test)]
mod batches;
#[cfg(test)]
mod cuts;
#[cfg(test)]
mod effects;
#[cfg(test)]
mod elements;
#[cfg(test)]
mod events;
#[cfg(test)]
mod faults;
#[cfg(test)]
mod frames;
#[cfg(test)]
mod graph;
#[cfg(test)]
mod hosts;
#[cfg(test)]
mod journals;
#[cfg(test)]
mod lists;
#[cfg(test)]
mod rows;
#[cfg(test)]
mod run;
#[cfg(test)]
mod sources;
#[cfg(test)]
mod tried;
#[cfg(test)]
mod watchers;
#[cfg(test)]
mod workload;

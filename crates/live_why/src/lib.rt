//! The journal: what changed signals and which computeds ran, with an index by which it tells why a computed ran.
#![tactic(auto)]

mod errors;
mod facts;
mod index;
mod journal;
mod ledger;
mod recorder;

pub use errors::JournalFault;
pub use facts::Fact;
pub use journal::Journal;
pub use recorder::Recorder;

//! What is told on the way, and why a call is refused; what changes of signals do to their stores and to who watches them; and what stands
//! under the numbers of signals meanwhile.
#![tactic(auto)]

mod errors;
mod events;
mod laws;
mod notices;

pub use errors::EffectFault;
pub use events::Event;
pub use laws::kinds_law;
pub use notices::{drop_left, tell_change, tell_notified, tell_runs, tell_values};

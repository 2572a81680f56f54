//! What a page keeps of its lines: what is heard of them on signals that are settled as they are asked for, how it is made of that, and how it is
//! brought up to date by what changed.
#![tactic(auto)]

mod listening;
mod making;
mod renewing;

pub use listening::{listen, listen_again, listen_all, listen_all_again};
pub use making::make;
pub use renewing::{Renewed, renew};

//! What a page shows, from what it keeps of its lines: the nodes with their numbers, and which of them are compared when it is brought up to date,
//! by what became of the lines. What isn't marked is as it was.
#![tactic(auto)]

mod comparing;
mod marks;
mod nodes;
mod shown;

pub use comparing::{Compared, compare_law, compared};
pub use marks::{Numbers, PageNodes, put_addresses, put_coming};
pub use shown::put_shown;

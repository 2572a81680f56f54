//! What a template shows: its lines, and the shape that they give on the outcomes of their formulas; what a page keeps of lines, what became of it,
//! and a shape, as the code has them; and the laws by which a page follows what changed. No graph stands below it.
#![tactic(auto)]

mod change;
mod fault;
pub mod laws;
mod mark;
mod memo;
mod shown;

pub use change::Change;
pub use fault::{either_failed, is_fault, is_over};
pub use mark::{Child, Mark};
pub use memo::{Heard, PageMemo};
pub use shown::{Address, Look, Shown};

//! The pages of a script: mounted, brought up to date in their order, told with the operations that lead to them, shown from scratch, and
//! dropped when they end.
#![tactic(auto)]

mod creation;
mod lookup;
mod mounted;
mod report;
mod update;

pub use creation::{mount, scratch};
pub use lookup::{keep_live, page_among, shown_of, template_among};
pub use mounted::{LinkedTemplate, Mounted};
pub use update::bring_all_up;

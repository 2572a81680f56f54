//! Laws of scripts: what their items do is what the commands of the world do, nothing that is gone does anything, no host formula that was
//! dropped is asked, what is refused leaves all as it was, and the changes of a batch are told together or given back.
//! And of scripts that are cut: the items of both parts, what they tell, and what is printed of them.
#![tactic(auto)]

pub mod laws;

pub use laws::{entries_cut, output_cut, script_cut};

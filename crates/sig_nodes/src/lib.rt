//! The nodes of signals by id: what lives in each, what is kept of a computed, and what an edit of one node makes of it.
#![tactic(auto)]

mod answers;
mod bodies;
mod id_lists;
mod moved;
mod node;
mod nodes;
mod store;

pub use answers::{Asked, Mark, Recipe, Standing};
pub use bodies::{
    asks_host_at, body_at, compared_at, computation_at, differs, host_at, is_computed,
    is_linkable_at, is_live_at, kept_at, read_at, rule_at, seat_at, shown_at, slot_at, slots_at,
    sources_at, standing_at, value_at,
};
pub use id_lists::IdList;
pub use node::{Body, Computation, Memo, Node, Source, is_cycle};
pub use nodes::Nodes;
pub use store::{ask_at, begin_at, end_at, keep_memo_at, renew_memo_at, rewire_at, set_value_at};

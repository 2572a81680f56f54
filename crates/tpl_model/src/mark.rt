// Nodes that stand on a page and are shown again.

use crate::shown::{Look, Shown};

/// A child of a node that stands on the page.
#[derive(Drop)]
pub enum Child {
    /// It stands there too, under this number.
    Kept(u64),
    /// It is new, with all below it.
    New(Box<Shown>),
}

/// A node that stands on the page and is shown again: its number there, what it says next, and its next children. The root says nothing.
#[derive(Drop)]
pub struct Mark {
    pub number: u64,
    pub look: Option<Look>,
    pub children: Vec<Child>,
}

// What the places of a body stand for.

use crate::thing::Thing;
use sig_base::NodeId;

/// What a statement of a body acts on: a thing, or the named effect that is made with the body, also where a nested effect names it.
#[derive(Clone, Copy)]
pub enum Target {
    Thing(Thing),
    This,
}

/// The signals of a rewiring's own names, in order.
pub struct Slots {
    pub ids: Vec<NodeId>,
}

impl Drop for Slots {
    fn drop(self) {
        let Slots { ids: _ } = self;
    }
}

/// What the places of a body stand for, each list in the order of the body's own: its names, its targets, its nested effects, and
/// the names of its rewirings.
pub struct Links {
    pub names: Vec<NodeId>,
    pub targets: Vec<Target>,
    pub inner: Vec<Links>,
    pub rewires: Vec<Slots>,
}

impl Drop for Links {
    fn drop(self) {
        let Links {
            names: _,
            targets: _,
            inner: _,
            rewires: _,
        } = self;
    }
}

// Things, and the steps of taking back.

use sig_base::{EffectId, NodeId, OwnerId, PageId, WatcherId};
use sig_owner::CleanupAct;

/// What can be made and disposed, by its number among those of its kind.
#[derive(Clone, Copy)]
pub enum Thing {
    Signal(NodeId),
    Owner(OwnerId),
    Effect(EffectId),
    Page(PageId),
    Watcher(WatcherId),
}

/// One step of taking back: a cleanup that was noted under a thing is to be done, or a thing is gone.
pub enum Undoing {
    Cleanup(Thing, CleanupAct),
    Gone(Thing),
}

impl Drop for Undoing {
    fn drop(self) {
        match self {
            Undoing::Cleanup(_, _) => {}
            Undoing::Gone(_) => {}
        }
    }
}

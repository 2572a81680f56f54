// What settling tells of its runs.

use sig_base::{NodeId, Outcome};
use sig_graph::IdList;

/// A computed that ran: what it read in order of first reading, and what it came to.
pub struct RunNote {
    pub id: NodeId,
    pub reads: IdList,
    pub outcome: Outcome,
}

impl Drop for RunNote {
    #[inline(always)]
    fn drop(self) {
        let RunNote {
            id: _,
            reads: _,
            outcome: _,
        } = self;
    }
}

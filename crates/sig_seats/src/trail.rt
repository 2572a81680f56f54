// The way of a search.
ghost use Rattle.std.specs.Prelude.{◌≡◌, ◌<◌, ◌∷◌, [], length, IfOk, IfSome, IfNone};

use sig_base::{MOST_NODES, NoMemory, NodeId};
use std::alloc::Global;
use std::marker::Model;

/// The signals from where a search is back to where it began, each kept by the one behind it. There is room for each signal that lives.
#[derive(Drop)]
pub struct Trail {
    ids: Vec<NodeId>,
}

impl Model for Trail {
    ghost use Rattle.std.specs.Prelude.{ℕ, ◌≤◌, List, reverse, vec_capacity};
    ghost use Rattle.sig_base.specs.declared.limits.TheConstants.{MOST_NODES};

    ghost Value = { List ℕ };

    ghost view = { λ t. reverse t.ids.items };

    ghost invariant = { λ t. MOST_NODES ≤ vec_capacity t.ids };
}

impl Trail {
    /// With nothing on it.
    pub fn new(alloc: Global) -> Result<Trail, NoMemory>
        ensures { IfOk result (λ t. t ≡ []) }
    {
        let ids = Vec::with_capacity(alloc, MOST_NODES)?;
        Ok(Trail { ids })
    }

    /// Goes to a signal.
    pub fn enter(&mut self, id: NodeId)
        requires { length self.old < MOST_NODES }
        ensures { self.new ≡ id ∷ self.old }
    {
        self.ids.push_reserved(id);
    }

    /// Goes back from where it is, and tells where that was; none where nothing is on it.
    pub fn leave(&mut self) -> Option<NodeId>
        ensures some { IfSome result (λ n. self.old ≡ n ∷ self.new) }
        ensures none { IfNone result (self.old ≡ []) }
    {
        self.ids.pop()
    }

    /// Goes back from everything.
    pub fn clear(&mut self)
        ensures { self.new ≡ [] }
    {
        self.ids.clear();
    }
}

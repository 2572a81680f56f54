// The nodes of signals by id.
ghost use Rattle.std.specs.Prelude.{◌≡◌, ◌<◌, ◌++◌, ◌∷◌, [], length, true, Some, IfOk, IfSome, IfNone, OnOk, slice_get};
ghost use Rattle.std.specs.Borrow.{sem};
ghost use Rattle.sig_nodes.specs.declared.node.Body.TheVariants as body;
ghost use Rattle.sig_nodes.specs.Nodes.{body_at, changed_at, gone_node, is_live_body, seat_at};

use crate::node::Node;
use sig_base::{MOST_NODES, NoMemory, NodeId};
use sig_store::Store;
use std::alloc::Global;
use std::marker::Model;

/// The node of each signal that lives, by the number of its id. A signal that is gone leaves no node behind.
#[derive(Drop)]
pub struct Nodes {
    store: Store<Node>,
}

impl Model for Nodes {
    ghost use Rattle.sig_formula.specs.Codes.{tree_code};
    ghost use Rattle.std.specs.Coded.{codes};
    ghost use Rattle.sig_nodes.specs.Gaps.{NodeTable};

    ghost Value = { NodeTable };

    ghost coded = { Prim.hlevel (codes, tree_code) };

    ghost use Rattle.sig_nodes.specs.Gaps.{nodes_of, table};

    ghost view = { λ n. table (nodes_of n.store.entries) n.store.room };
}

impl Nodes {
    ghost use Rattle.sig_nodes.specs.Lends.{lends_node};

    /// No signal was made. There is memory for as many as may live.
    pub fn new(alloc: Global) -> Result<Nodes, NoMemory>
        ensures { IfOk result (λ n. n.items ≡ []) }
    {
        let store = Store::with_capacity(alloc, MOST_NODES)?;
        Ok(Nodes { store })
    }

    /// Makes room for one more, if there is none.
    pub fn reserve(&mut self) -> Result<(), NoMemory>
        ensures room { OnOk result (0 < self.new.room) }
        ensures items { self.new.items ≡ self.old.items }
    {
        self.store.reserve(1)?;
        Ok(())
    }

    /// How many signals were made, gone ones too.
    pub fn made(&self) -> u64
        ensures { result ≡ length self.now.items }
    {
        self.store.made()
    }

    /// The node of a signal, none where it is gone or wasn't made.
    #[inline(always)]
    pub fn at(&self, id: NodeId) -> Option<&Node>
        ensures some { IfSome result (λ x. slice_get self.now.items id ≡ Some x.now) }
        ensures gone { IfNone result (body_at self.now.items id ≡ body.Gone) }
        ensures seat { IfNone result (seat_at self.now.items id ≡ 0) }
    {
        self.store.get(id.number())
    }

    /// The node of a live signal, for writing.
    #[inline(always)]
    pub(crate) fn node_mut(&mut self, id: NodeId) -> &mut Node
        requires { is_live_body (body_at self.old.items id) ≡ true }
        ensures* writes_back { sem 𝓛 (lends_node self.entry id result) }
        ensures value { slice_get self.old.items id ≡ Some result.now }
    {
        self.store.value_mut(id.number())
    }

    /// Puts the node of the next signal in, in room that is there.
    pub fn push(&mut self, node: Node)
        requires { 0 < self.old.room }
        ensures { self.new.items ≡ self.old.items ++ node ∷ [] }
    {
        self.store.push(node);
    }

    /// Takes the node of a live signal out.
    pub fn take_out(&mut self, id: NodeId)
        requires { is_live_body (body_at self.old.items id) ≡ true }
        ensures { self.new.items ≡ changed_at gone_node id self.old.items }
    {
        self.store.remove(id.number());
    }
}

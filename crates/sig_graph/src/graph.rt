// The graph, and how signals are made, changed and disposed.
ghost use Rattle.std.specs.Prelude.{◌≡◌, ℕ, ◌+◌, ◌<◌, ◌↔◌, ◌∷◌, [], length, true, false, None, Some, IfOk, IfErr, IsErr, IsErrOf, OnOk, OnErr};
ghost use Rattle.std.specs.List.{All};
ghost use Rattle.signal_model.specs.Signals.{is_there, standing, is_cell};
ghost use Rattle.signal_model.specs.Changes.{live_count};
ghost use Rattle.sig_graph.specs.declared.errors.NodeFault.TheVariants as fault;
ghost use Rattle.sig_nodes.specs.Answers.{expression_of, host_here, value_here, HasFewSlots};
ghost use Rattle.sig_nodes.specs.Computations.{recipe_made};
ghost use Rattle.sig_graph.specs.Parts.{with_new};
ghost use Rattle.sig_nodes.specs.Nodes.{FewSlotsBody, IsFresh, slots_body};
ghost use Rattle.sig_graph.specs.States.{are_there, is_computing, is_given, no_state, with_disposal, with_new_cell, with_new_computed, with_rewiring, with_set, Becomes, CanWear, Makes};

use crate::errors::NodeFault;
use crate::search::note_fresh;
use crate::spares::Spares;
use sig_base::{Count, MOST_NODES, NoMemory, NodeId, Value};
use sig_marks::Marks;
use sig_nodes::{
    Body, Computation, Node, Nodes, Recipe, host_at, is_computed, is_linkable_at, is_live_at,
    rewire_at, seat_at, set_value_at, sources_at,
};
use sig_seats::{Finds, Reached, Seats, Trail};
use std::alloc::Global;
use std::marker::Model;

/// Signals: cells and computeds, with what is kept of the computeds' evaluations.
pub struct Graph {
    pub(crate) alloc: Global,
    pub(crate) nodes: Nodes,
    pub(crate) seats: Seats,
    pub(crate) generation: u128,
    pub(crate) looked: u128,
    pub(crate) worn: u128,
    pub(crate) marks: Marks,
    pub(crate) finds: Finds,
    pub(crate) reached: Reached,
    pub(crate) trail: Trail,
    // where the numbers of a run are put before they are kept
    pub(crate) room: Vec<Option<Count>>,
    pub(crate) spares: Spares,
}

impl Drop for Graph {
    fn drop(self) {
        let Graph {
            alloc: _,
            nodes: _,
            seats: _,
            generation: _,
            looked: _,
            worn: _,
            marks: _,
            finds: _,
            reached: _,
            trail: _,
            room: _,
            spares: _,
        } = self;
    }
}

impl Model for Graph {
    ghost use Rattle.std.specs.Prelude.{length};
    ghost use Rattle.sig_formula.specs.Codes.{tree_code};
    ghost use Rattle.std.specs.Coded.{codes};
    ghost use Rattle.sig_graph.specs.States.{Seen};

    ghost Value = { Seen };

    ghost coded = { Prim.hlevel (codes, tree_code) };

    ghost use Rattle.sig_graph.specs.Parts.{state_of};
    ghost use Rattle.sig_graph.specs.Places.{seen, IsGraph};

    ghost view = { λ g. seen (state_of g.nodes.items g.generation g.looked g.worn) g.seats.holders (length g.nodes.items) g.marks.dependants };

    ghost invariant = { λ g. IsGraph g.nodes.items g.seats g.generation g.worn g.marks g.finds };
}

impl Graph {
    /// No signals.
    pub fn new(alloc: Global) -> Result<Graph, NoMemory>
        ensures state { IfOk result (λ g. g.state ≡ no_state) }
        ensures given { IfOk result (λ g. g.given ≡ 0) }
    {
        Ok(Graph {
            alloc,
            nodes: Nodes::new(alloc)?,
            seats: Seats::new(alloc)?,
            generation: 0,
            looked: 0,
            worn: 0,
            marks: Marks::new(alloc),
            finds: Finds::new(alloc)?,
            reached: Reached::new(alloc)?,
            trail: Trail::new(alloc)?,
            room: Vec::new(alloc),
            spares: Spares::new(alloc),
        })
    }

    // Makes a signal of what lives in it.
    fn add(&mut self, body: Body) -> Result<NodeId, NodeFault>
        requires fresh { IsFresh body }
        requires few { FewSlotsBody body }
        requires given { All (λ n. is_given self.old n ≡ true) (slots_body body) }
        requires worn { CanWear self.old.state }
        ensures after { IfOk result (λ id. Makes self.old self.new id (with_new self.old.state id body)) }
        ensures limit { IsErrOf result fault.Limit ↔ (live_count self.old.state.signals ≡ MOST_NODES) }
        ensures fault { IsErrOf result fault.Gone → ⊥ }
        ensures err { OnErr result (self.new ≡ self.old) }
    {
        if self.seats.free() == 0 {
            return Err(NodeFault::Limit);
        }
        self.nodes.reserve()?;
        self.marks.add(is_computed(&body))?;
        let id = NodeId::of(self.nodes.made());
        let seat = self.seats.take(id);
        let node = Node::new(seat, body);
        self.nodes.push(node);
        self.worn += 1;
        Ok(id)
    }

    /// Makes a cell of a value and the place of an equality rule. Its id is the number of signals that were made before. It is
    /// refused where as many signals live as may be; after a refusal the graph is as before.
    pub fn add_cell(&mut self, value: Value, rule: Option<usize>) -> Result<NodeId, NodeFault>
        requires { CanWear self.old.state }
        ensures after { IfOk result (λ id.
            Makes self.old self.new id (with_new_cell self.old.state (record { name = id; value = value; rule = rule }))) }
        ensures limit { IsErrOf result fault.Limit ↔ (live_count self.old.state.signals ≡ MOST_NODES) }
        ensures fault { IsErrOf result fault.Gone → ⊥ }
        ensures err { OnErr result (self.new ≡ self.old) }
    {
        self.add(Body::Cell(value, rule))
    }

    /// Makes a computed of what it asks and of the signals that its slots stand for. Its id is the number of signals that were made
    /// before. It is refused where as many signals live as may be; after a refusal the graph is as before.
    pub fn add_computed(&mut self, recipe: Recipe, slots: Vec<NodeId>) -> Result<NodeId, NodeFault>
        requires given { All (λ n. is_given self.old n ≡ true) slots.items }
        requires few { HasFewSlots (expression_of recipe) slots.items }
        requires worn { CanWear self.old.state }
        ensures after { IfOk result (λ id.
            Makes self.old self.new id (with_new_computed self.old.state
            (record { name = id; recipe = recipe_made (expression_of recipe) slots.items }))) }
        ensures limit { IsErrOf result fault.Limit ↔ (live_count self.old.state.signals ≡ MOST_NODES) }
        ensures fault { IsErrOf result fault.Gone → ⊥ }
        ensures err { OnErr result (self.new ≡ self.old) }
    {
        self.add(Body::Computed(Computation::new(self.alloc, recipe, slots)))
    }

    /// Gives a cell another value, and gives back the one before. It takes no memory.
    #[inline(always)]
    pub fn replace(&mut self, id: NodeId, value: Value) -> Value
        requires live { is_cell (standing self.old.state.signals id) ≡ true }
        requires worn { CanWear self.old.state }
        ensures after { Becomes self.old self.new (with_set self.old.state id value) }
        ensures before { value_here (standing self.old.state.signals id) ≡ Some result }
    {
        let _count = self.nodes.made();
        self.marks.spread(id);
        self.generation += 1;
        self.worn += 1;
        let before = set_value_at(&mut self.nodes, id, value);
        note_fresh(self.worn, self.marks.fresh(), &mut self.finds);
        before
    }

    /// Gives a computed another recipe, and gives the place of the host formula that it asked before. It is refused where it, or a
    /// signal that a slot would stand for, is gone; then the graph is as before. It takes no memory. A computed, one that isn't being
    /// evaluated, slots that were made and are few, and room in the counters are asked for apart; the graph, the host formula of before
    /// and the refusal, with its cause and what it leaves, are told apart.
    pub fn rewire(
        &mut self,
        id: NodeId,
        recipe: Recipe,
        slots: Vec<NodeId>,
    ) -> Result<Option<usize>, NodeFault>
        requires kind { is_cell (standing self.old.state.signals id) ≡ false }
        requires idle { is_computing self.old.state id ≡ false }
        requires given { All (λ n. is_given self.old n ≡ true) slots.items }
        requires few { HasFewSlots (expression_of recipe) slots.items }
        requires worn { CanWear self.old.state }
        ensures after { OnOk result (Becomes self.old self.new (with_rewiring self.old.state id (recipe_made (expression_of recipe) slots.items))) }
        ensures host { IfOk result (λ place. place ≡ host_here (standing self.old.state.signals id)) }
        ensures gone { IsErr result ↔ (are_there self.old.state.signals (id ∷ slots.items) ≡ false) }
        ensures fault { IfErr result (λ e. e ≡ fault.Gone) }
        ensures err { OnErr result (self.new ≡ self.old) }
    {
        if !is_linkable_at(&self.nodes, id, &slots) {
            return Err(NodeFault::Gone);
        }
        let host = host_at(&self.nodes, id);
        self.marks.push(id);
        self.generation += 1;
        self.worn += 1;
        rewire_at(&mut self.nodes, id, recipe, slots);
        Ok(host)
    }

    /// Disposes a signal, and gives the place of the host formula that it asked. It is refused where the signal is gone already.
    /// It takes no memory.
    pub fn dispose_node(&mut self, id: NodeId) -> Result<Option<usize>, NodeFault>
        requires { CanWear self.old.state }
        ensures after { OnOk result (Becomes self.old self.new (with_disposal self.old.state id)) }
        ensures host { IfOk result (λ place. place ≡ host_here (standing self.old.state.signals id)) }
        ensures gone { IsErr result ↔ (is_there (standing self.old.state.signals id) ≡ false) }
        ensures fault { IfErr result (λ e. e ≡ fault.Gone) }
        ensures err { OnErr result (self.new ≡ self.old) }
    {
        if !is_live_at(&self.nodes, id) {
            return Err(NodeFault::Gone);
        }
        let host = host_at(&self.nodes, id);
        self.marks.spread(id);
        self.marks.take_out(id, sources_at(&self.nodes, id));
        self.seats.leave(id, seat_at(&self.nodes, id));
        self.nodes.take_out(id);
        self.generation += 1;
        self.worn += 1;
        Ok(host)
    }
}

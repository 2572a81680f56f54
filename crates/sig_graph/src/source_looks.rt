// One look at a source that a computed keeps: at the computed's node, and at the source's.
ghost use Rattle.std.specs.Prelude.{◌≡◌, ℕ, ◌+◌, ◌<◌, ◌^◌, ◌&&◌, not, List, Option, Some, true, false, IfSome, is_some, slice_get};
ghost use Rattle.signal_model.specs.Memos.{Memo, holds_cycle, memo_is_cycle, sources_in, sources_of};
ghost use Rattle.sig_marks.specs.Tables.{marked_at};
ghost use Rattle.sig_seats.specs.Found.{found_at};
ghost use Rattle.sig_nodes.specs.declared.node.Body.TheVariants as body;
ghost use Rattle.sig_nodes.specs.declared.node.Node.{Node};
ghost use Rattle.sig_nodes.specs.Nodes.{body_at, has_moved_body, is_computed_body, known_body};
ghost use Rattle.sig_graph.specs.Looks.{has_moved};
ghost use Rattle.sig_base.specs.declared.limits.TheConstants.{MOST_NODES};
ghost use Rattle.sig_graph.specs.Places.{KeepsFound, KeepsMarks};
ghost use Rattle.sig_graph.specs.Search.{AreSeated};
ghost use Rattle.sig_graph.specs.SourceLooks.{named, HasNextPlace, IsLookHere, IsSignalLook, IsSignalLookHere, IsSourceLook};
ghost use Rattle.sig_graph.specs.States.{with_look, Becomes};

use crate::evaluation::count;
use crate::graph::Graph;
use crate::search::node_told;
use sig_base::NodeId;
use sig_marks::Marks;
use sig_nodes::{Body, Computation, Node, Nodes, computation_at};
use sig_seats::Finds;

/// What a look at a source that a computed keeps finds.
#[derive(Clone, Copy)]
pub enum SourceLook {
    /// No source is left.
    Past,
    /// A computed that isn't being evaluated, and of which a search has found that it isn't clean.
    Due(NodeId),
    /// A computed that isn't being evaluated, and is marked.
    Marked(NodeId),
    /// Any other, which needs no settling, and whether it has moved.
    Ready(bool),
}

/// What a look at a signal finds.
#[derive(Clone, Copy)]
pub enum SignalLook {
    /// No computed, or one that is being evaluated.
    Other,
    /// A computed that isn't being evaluated, and whether it is clean, where that is told without a search.
    Idle(Option<bool>),
}

// Whether a computed lives in a node that isn't being evaluated.
#[inline(always)]
fn is_idle(node: &Node) -> bool
    ensures { result ≡ (is_computed_body node.now.body && not (is_some (known_body node.now.body))) }
{
    match &node.body {
        Body::Computed(computation) => !computation.is_computing(),
        _ => false,
    }
}

// Whether it is one of which a search has found at this count of changes that it, or something below it, must run. Its node is only
// looked at where one has.
#[inline(always)]
fn is_found(finds: &Finds, worn: u128, id: NodeId, node: &Node) -> bool
    ensures idle { result ≡ true → (is_computed_body node.now.body && not (is_some (known_body node.now.body))) ≡ true }
    ensures found { result ≡ true → found_at finds.now id ≡ worn }
{
    finds.is_found(worn, id) && is_idle(node)
}

// Whether it is one that is marked.
#[inline(always)]
fn is_open(marks: &Marks, node: &Node, id: NodeId) -> bool
    ensures { result ≡ ((is_computed_body node.now.body && not (is_some (known_body node.now.body))) && marked_at marks.now.marked id) }
{
    is_idle(node) && marks.is_marked(id)
}

// Whether the source at a place has moved, where who keeps it doesn't hold `cycle`, by its node.
fn has_moved(node: &Node, computation: &Computation, place: usize) -> bool
    ensures { (xs : List Node) (n : ℕ) → slice_get xs n ≡ Some node.now → named (slice_get (sources_in computation.now.memo) place) ≡ Some n → result ≡ (not (memo_is_cycle computation.now.memo) && has_moved_body xs (slice_get (sources_in computation.now.memo) place)) }
{
    if computation.holds_cycle() {
        return false;
    }
    match computation.source(place) {
        Some(source) => source.has_moved(node),
        None => false,
    }
}

// The same of one that is gone.
fn has_gone(computation: &Computation, place: usize) -> bool
    ensures { (xs : List Node) (n : ℕ) → body_at xs n ≡ body.Gone → named (slice_get (sources_in computation.now.memo) place) ≡ Some n → result ≡ (not (memo_is_cycle computation.now.memo) && has_moved_body xs (slice_get (sources_in computation.now.memo) place)) }
{
    if computation.holds_cycle() {
        return false;
    }
    match computation.source(place) {
        Some(source) => source.has_gone(),
        None => false,
    }
}

// What a look at the node of the source at a place finds. Only where it needs no settling is it compared with what was read of it.
#[inline(always)]
fn node_look(
    nodes: &Nodes,
    marks: &Marks,
    finds: &Finds,
    worn: u128,
    computation: &Computation,
    place: usize,
    id: NodeId,
) -> SourceLook
    requires { named (slice_get (sources_in computation.now.memo) place) ≡ Some id }
    ensures { (g : ℕ) → KeepsFound nodes.now.items g worn finds.now → IsLookHere nodes.now.items marks.now.marked g computation.now.memo (slice_get (sources_in computation.now.memo) place) result }
{
    let Some(node) = nodes.at(id) else {
        return SourceLook::Ready(has_gone(computation, place));
    };
    if is_found(finds, worn, id, node) {
        return SourceLook::Due(id);
    }
    if is_open(marks, node, id) {
        return SourceLook::Marked(id);
    }
    SourceLook::Ready(has_moved(node, computation, place))
}

// What a look at the source that a computed keeps at a place finds.
#[inline(always)]
fn place_look(
    nodes: &Nodes,
    marks: &Marks,
    finds: &Finds,
    worn: u128,
    computation: &Computation,
    place: usize,
) -> SourceLook
    ensures look { (g : ℕ) → KeepsFound nodes.now.items g worn finds.now → IsLookHere nodes.now.items marks.now.marked g computation.now.memo (slice_get (sources_in computation.now.memo) place) result }
    ensures next { HasNextPlace place result }
{
    let names = computation.sources();
    if place < names.len() {
        return node_look(nodes, marks, finds, worn, computation, place, names[place]);
    }
    SourceLook::Past
}

// Whether the source that a computed keeps at a place has moved, where that is a certain one, which lives, and the computed doesn't hold
// `cycle`; none else.
#[inline(always)]
fn moved_from(
    nodes: &Nodes,
    computation: &Computation,
    place: usize,
    source: NodeId,
) -> Option<bool>
    ensures named { IfSome result (λ m. named (slice_get (sources_in computation.now.memo) place) ≡ Some source) }
    ensures moved { IfSome result (λ m. m ≡ (not (memo_is_cycle computation.now.memo) && has_moved_body nodes.now.items (slice_get (sources_in computation.now.memo) place))) }
    ensures next { IfSome result (λ m. place + 1 < 2 ^ 64) }
{
    let names = computation.sources();
    if computation.holds_cycle() || place >= names.len() || names[place] != source {
        return None;
    }
    match nodes.at(source) {
        Some(node) => Some(has_moved(node, computation, place)),
        None => None,
    }
}

// What a look at a signal finds.
#[inline(always)]
fn signal_look(
    nodes: &Nodes,
    generation: u128,
    worn: u128,
    marks: &Marks,
    finds: &Finds,
    id: NodeId,
) -> SignalLook
    requires marks { KeepsMarks nodes.now.items generation marks.now }
    requires seats { AreSeated nodes.now.items MOST_NODES }
    requires kept { KeepsFound nodes.now.items generation worn finds.now }
    ensures { IsSignalLookHere nodes.now.items generation id result }
{
    let Some(node) = nodes.at(id) else {
        return SignalLook::Other;
    };
    if !is_idle(node) {
        return SignalLook::Other;
    }
    let told = node_told(nodes, generation, worn, marks, finds, id, node);
    SignalLook::Idle(told)
}

impl Graph {
    /// Looks at a signal: of a computed that isn't being evaluated it tells whether it is clean, where that is told without a search. It is no
    /// counted step, and takes no memory.
    #[inline(always)]
    pub fn look_at(&self, id: NodeId) -> SignalLook
        ensures { IsSignalLook self.now.state id result }
    {
        let _count = self.nodes.made();
        signal_look(
            &self.nodes,
            self.generation,
            self.worn,
            &self.marks,
            &self.finds,
            id,
        )
    }

    /// Whether the source that a computed keeps at a place has moved, where that is a certain one, which lives, and the computed doesn't hold
    /// `cycle`; none else. It looks at nothing else, so that it is less than a look at the source, and is no counted step.
    #[inline(always)]
    pub fn moved_source(&self, id: NodeId, place: usize, source: NodeId) -> Option<bool>
        ensures named { IfSome result (λ m. named (slice_get (sources_of self.now.state.memos id) place) ≡ Some source) }
        ensures moved { IfSome result (λ m. m ≡ (not (holds_cycle self.now.state.memos id) && has_moved self.now.state (slice_get (sources_of self.now.state.memos id) place))) }
        ensures next { IfSome result (λ m. place + 1 < 2 ^ 64) }
    {
        let _count = self.nodes.made();
        let computation = computation_at(&self.nodes, id)?;
        let moved = moved_from(&self.nodes, computation, place, source)?;
        Some(moved)
    }

    /// Looks at the source that a computed keeps at a place. One that is no computed, is being evaluated or isn't marked needs no settling, and is
    /// compared with what was read of it. Of any other computed it tells whether a search has found that it isn't clean. It is no
    /// counted step, and takes no memory.
    #[inline(always)]
    pub fn look_at_source(&self, id: NodeId, place: usize) -> SourceLook
        ensures look { IsSourceLook self.now.state id (slice_get (sources_of self.now.state.memos id) place) result }
        ensures next { HasNextPlace place result }
    {
        let _count = self.nodes.made();
        match computation_at(&self.nodes, id) {
            Some(computation) => place_look(
                &self.nodes,
                &self.marks,
                &self.finds,
                self.worn,
                computation,
                place,
            ),
            None => SourceLook::Past,
        }
    }

    /// One counted step.
    pub fn count_step(&mut self)
        ensures after { Becomes self.old self.new (with_look self.old.state) }
        ensures seats { self.new.seats ≡ self.old.seats }
    {
        let _count = self.nodes.made();
        count(&mut self.looked);
    }
}

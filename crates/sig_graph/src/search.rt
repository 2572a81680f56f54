// The search for a computed that must run, among what is marked below a computed.
ghost use Rattle.std.specs.Prelude.{◌≡◌, ℕ, ◌+◌, ◌*◌, ◌<◌, ◌≤◌, ◌++◌, ◌∷◌, ◌&&◌, [], length, not, true, false, List, Some, IfNone, IfSome, is_some, slice_get};
ghost use Rattle.std.specs.Option.{option_map};
ghost use Rattle.signal_model.specs.Signals.{is_in};
ghost use Rattle.signal_model.specs.Memos.{source_names, sources_in};
ghost use Rattle.signal_model.specs.Marks.{mark_of};
ghost use Rattle.sig_graph.specs.Looks.{is_clean_mark};
ghost use Rattle.sig_nodes.specs.declared.node.Node.{Node};
ghost use Rattle.sig_nodes.specs.Nodes.{body_at, is_computed_body, memo_body, seat_at};
ghost use Rattle.sig_graph.specs.Parts.{memos_of, signals_of};
ghost use Rattle.sig_graph.specs.Places.{CanSearch, KeepsFound};
ghost use Rattle.sig_graph.specs.Search.{first_new, is_due_at, is_new, AreDue, AreSeated, HasDue, IsWay, Reaches};

use crate::marks::is_node_due;
use sig_base::{MOST_NODES, NodeId};
use sig_marks::Marks;
use sig_nodes::{Body, Node, Nodes, seat_at, sources_at};
use sig_seats::{Finds, Reached, Trail};

// A computed that a search goes to, and its node.
#[derive(Clone, Copy)]
struct Next<'a> {
    id: NodeId,
    node: &'a Node,
}

// Whether a computed lives in a node whose seat isn't reached yet.
fn is_node_new(node: &Node, reached: &Reached) -> bool
    ensures { result ≡ (is_computed_body node.now.body && not (is_in node.now.seat reached.now)) }
{
    match node.body {
        Body::Computed(_) => !reached.has(node.seat),
        _ => false,
    }
}

// The node of a marked computed that stands there, where its seat isn't reached yet.
fn new_node<'a>(nodes: &'a Nodes, marks: &Marks, reached: &Reached, id: NodeId) -> Option<&'a Node>
    ensures new { is_some result ≡ is_new nodes.now.items marks.now.marked reached.now id }
    ensures node { IfSome result (λ x. slice_get nodes.now.items id ≡ Some x.now) }
{
    if !marks.is_marked(id) {
        return None;
    }
    let node = nodes.at(id)?;
    if is_node_new(node, reached) {
        Some(node)
    } else {
        None
    }
}

// The first such one among the sources that a computed keeps.
fn next_below<'a>(
    nodes: &'a Nodes,
    marks: &Marks,
    reached: &Reached,
    id: NodeId,
) -> Option<Next<'a>>
    ensures next { option_map (λ n. n.id) result ≡ first_new nodes.now.items marks.now.marked reached.now (source_names (sources_in (memo_body (body_at nodes.now.items id)))) }
    ensures node { IfSome result (λ n. slice_get nodes.now.items n.id ≡ Some n.node.now) }
{
    for source in sources_at(nodes, id) {
        if let Some(node) = new_node(nodes, marks, reached, *source) {
            return Some(Next { id: *source, node });
        }
    }
    None
}

// Whether it is told without a search that a computed, or something below it, must run: a search has found it, or it must run itself.
fn is_told(
    nodes: &Nodes,
    generation: u128,
    worn: u128,
    id: NodeId,
    node: &Node,
    finds: &Finds,
) -> bool
    requires live { is_computed_body (body_at nodes.now.items id) ≡ true }
    requires node { slice_get nodes.now.items id ≡ Some node.now }
    requires kept { KeepsFound nodes.now.items generation worn finds.now }
    ensures due { result ≡ true → HasDue nodes.now.items generation id }
    ensures calm { result ≡ false → is_due_at nodes.now.items generation id ≡ false }
{
    finds.is_found(worn, id) || is_node_due(nodes, generation, node)
}

// Goes to a computed, whose seat is reached from then on.
#[inline(always)]
fn go_to(id: NodeId, seat: usize, reached: &mut Reached, trail: &mut Trail)
    requires inside { seat < MOST_NODES }
    requires fresh { is_in seat reached.old ≡ false }
    requires room { length trail.old ≤ length reached.old }
    ensures reached { reached.new ≡ reached.old ++ seat ∷ [] }
    ensures trail { trail.new ≡ id ∷ trail.old }
    ensures room { length reached.new ≤ MOST_NODES }
{
    reached.add(seat);
    trail.enter(id);
}

// One turn at a computed that was left: goes to the next one below it, and tells whether that one, or something below it, must run; where
// there is none, the search is through with the computed. As it is one turn of a loop, what the search reached and its room are asked for
// and given back clause by clause; each answer has one, and so have the way along the trail, what was reached before, and the steps,
// which bound the search.
fn turn(
    nodes: &Nodes,
    generation: u128,
    worn: u128,
    marks: &Marks,
    finds: &Finds,
    id: NodeId,
    reached: &mut Reached,
    trail: &mut Trail,
) -> bool
    requires seats { AreSeated nodes.now.items MOST_NODES }
    requires kept { KeepsFound nodes.now.items generation worn finds.now }
    requires part { Reaches nodes.now.items marks.now.marked generation reached.old (id ∷ trail.old) }
    requires room { length trail.old < length reached.old }
    requires most { length reached.old ≤ MOST_NODES }
    ensures way { (root : ℕ) → IsWay nodes.now.items generation root (id ∷ trail.old) → IsWay nodes.now.items generation root trail.new }
    ensures due { result ≡ true → (root : ℕ) → IsWay nodes.now.items generation root (id ∷ trail.old) → AreDue nodes.now.items generation trail.new × HasDue nodes.now.items generation root }
    ensures part { result ≡ false → Reaches nodes.now.items marks.now.marked generation reached.new trail.new }
    ensures more { (s : ℕ) → is_in s reached.old ≡ true → is_in s reached.new ≡ true }
    ensures room { length trail.new ≤ length reached.new }
    ensures most { length reached.new ≤ MOST_NODES }
    ensures steps { length trail.new + 2 * length reached.old ≡ length trail.old + 2 * length reached.new }
{
    let Some(next) = next_below(nodes, marks, reached, id) else {
        return false;
    };
    trail.enter(id);
    go_to(next.id, next.node.seat, reached, trail);
    is_told(nodes, generation, worn, next.id, next.node, finds)
}

// Goes on from where the search is, and tells whether it comes to what must run. The trail leads there then, and else is empty.
fn goes_to_due(
    nodes: &Nodes,
    generation: u128,
    worn: u128,
    marks: &Marks,
    finds: &Finds,
    reached: &mut Reached,
    trail: &mut Trail,
) -> bool
    requires seats { AreSeated nodes.now.items MOST_NODES }
    requires kept { KeepsFound nodes.now.items generation worn finds.now }
    requires part { Reaches nodes.now.items marks.now.marked generation reached.old trail.old }
    requires room { length trail.old ≤ length reached.old }
    requires most { length reached.old ≤ MOST_NODES }
    ensures due { result ≡ true → (root : ℕ) → IsWay nodes.now.items generation root trail.old → AreDue nodes.now.items generation trail.new × HasDue nodes.now.items generation root }
    ensures part { result ≡ false → Reaches nodes.now.items marks.now.marked generation reached.new [] }
    ensures more { (s : ℕ) → is_in s reached.old ≡ true → is_in s reached.new ≡ true }
{
    while let Some(id) = trail.leave() {
        if turn(nodes, generation, worn, marks, finds, id, reached, trail) {
            return true;
        }
    }
    false
}

// Notes of all on a trail, which is empty then, that they, or something below them, must run.
fn note_all(worn: u128, trail: &mut Trail, finds: &mut Finds)
    ensures { (xs : List Node) (g : ℕ) → AreDue xs g trail.old → KeepsFound xs g worn finds.old → KeepsFound xs g worn finds.new }
{
    while let Some(id) = trail.leave() {
        finds.note(worn, id);
    }
}

/// The same of all these, as each of them is so: a set makes those that it marks newly due, or something below them. It looks at no node.
pub(crate) fn note_fresh(worn: u128, fresh: &[u64], finds: &mut Finds)
    ensures { (xs : List Node) (g : ℕ) → ((m : ℕ) → is_in m fresh.now ≡ true → HasDue xs g m) →
        KeepsFound xs g worn finds.old → KeepsFound xs g worn finds.new }
{
    for number in fresh {
        finds.note(worn, NodeId::of(*number));
    }
}

// Begins at a computed.
fn begin(nodes: &Nodes, id: NodeId, reached: &mut Reached, trail: &mut Trail)
    requires live { is_computed_body (body_at nodes.now.items id) ≡ true }
    requires seats { AreSeated nodes.now.items MOST_NODES }
    ensures reached { reached.new ≡ seat_at nodes.now.items id ∷ [] }
    ensures trail { trail.new ≡ id ∷ [] }
{
    reached.clear();
    trail.clear();
    go_to(id, seat_at(nodes, id), reached, trail);
}

/// Whether something below a computed that needn't run itself must run. Where nothing must, all seats that the search came to are reached
/// afterwards. What it found is noted by id, with the count of changes at which it did, and is only searched for anew after the next change, or where
/// another note took its place.
pub(crate) fn finds_below(
    nodes: &Nodes,
    generation: u128,
    worn: u128,
    marks: &Marks,
    id: NodeId,
    reached: &mut Reached,
    trail: &mut Trail,
    finds: &mut Finds,
) -> bool
    requires can { CanSearch nodes.now.items generation worn marks.now finds.old id }
    requires calm { is_due_at nodes.now.items generation id ≡ false }
    ensures mark { not result ≡ is_clean_mark (mark_of (signals_of nodes.now.items) (memos_of generation nodes.now.items) id) }
    ensures reached { result ≡ false → Reaches nodes.now.items marks.now.marked generation reached.new [] }
    ensures kept { KeepsFound nodes.now.items generation worn finds.new }
{
    begin(nodes, id, reached, trail);
    if goes_to_due(nodes, generation, worn, marks, finds, reached, trail) {
        note_all(worn, trail, finds);
        return true;
    }
    false
}

/// Whether a computed is clean, as far as it is told without a search, by its node: it isn't where it was found that it, or something below
/// it, must run; it is where it isn't marked; and it isn't where it must run itself. None where a search tells it.
#[inline(always)]
pub(crate) fn node_told(
    nodes: &Nodes,
    generation: u128,
    worn: u128,
    marks: &Marks,
    finds: &Finds,
    id: NodeId,
    node: &Node,
) -> Option<bool>
    requires can { CanSearch nodes.now.items generation worn marks.now finds.now id }
    requires node { slice_get nodes.now.items id ≡ Some node.now }
    ensures clean { IfSome result (λ b. b ≡ is_clean_mark (mark_of (signals_of nodes.now.items) (memos_of generation nodes.now.items) id)) }
    ensures calm { IfNone result (is_due_at nodes.now.items generation id ≡ false) }
{
    if finds.is_found(worn, id) {
        return Some(false);
    }
    if !marks.is_marked(id) {
        return Some(true);
    }
    if is_node_due(nodes, generation, node) {
        return Some(false);
    }
    None
}

/// Whether a computed is clean, as far as it is told without a search.
pub(crate) fn told_clean(
    nodes: &Nodes,
    generation: u128,
    worn: u128,
    marks: &Marks,
    finds: &Finds,
    id: NodeId,
) -> Option<bool>
    requires { CanSearch nodes.now.items generation worn marks.now finds.now id }
    ensures clean { IfSome result (λ b. b ≡ is_clean_mark (mark_of (signals_of nodes.now.items) (memos_of generation nodes.now.items) id)) }
    ensures calm { IfNone result (is_due_at nodes.now.items generation id ≡ false) }
{
    match nodes.at(id) {
        Some(node) => node_told(nodes, generation, worn, marks, finds, id, node),
        None => unreachable!(),
    }
}

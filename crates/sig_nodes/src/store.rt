// Edits of the nodes of a graph.
ghost use Rattle.std.specs.Prelude.{◌≡◌, ℕ, ◌+◌, ◌<◌, ◌^◌, ◌++◌, ◌∷◌, [], List, length, take, true, false, None, Some, IfOk, IfSome, IfNone, OnErr, OnOk};
ghost use Rattle.std.specs.Option.{option_copied};
ghost use Rattle.signal_model.specs.Memos.{is_stale_by, source_names, sources_in};
ghost use Rattle.sig_nodes.specs.Computations.{GoesOn, at_generation, recipe_made, renewed};
ghost use Rattle.sig_nodes.specs.Answers.{expression_of, IsAnswerHere, IsJudgedAnswer};
ghost use Rattle.sig_nodes.specs.Nodes.{body_at, change_at, changed_at, is_cell_body, is_computed_body, known_body, known_node, memo_body, rewired_node, run_node, set_node, slots_body, stands_of, value_body};

use crate::answers::{Asked, Recipe};
use crate::id_lists::IdList;
use crate::node::{Body, Memo, Node};
use crate::nodes::Nodes;
use sig_base::{Count, Known, NoMemory, NodeId, Outcome, Value};
use std::alloc::Global;
use std::mem;

// Gives a cell's node another value, and gives back the one before.
fn set_value(node: &mut Node, value: Value) -> Value
    requires live { is_cell_body node.old.body ≡ true }
    requires worn { node.old.number + 1 < 2 ^ 128 }
    ensures node { node.new ≡ set_node value node.old }
    ensures before { value_body node.old.body ≡ Some result }
{
    node.number.raise();
    match &mut node.body {
        Body::Cell(held, _) => mem::replace(held, value),
        _ => unreachable!(),
    }
}

/// Gives a cell another value, and gives back the one before.
pub fn set_value_at(nodes: &mut Nodes, id: NodeId, value: Value) -> Value
    requires live { is_cell_body (body_at nodes.old.items id) ≡ true }
    requires worn { change_at nodes.old.items id + 1 < 2 ^ 128 }
    ensures nodes { nodes.new.items ≡ changed_at (set_node value) id nodes.old.items }
    ensures before { value_body (body_at nodes.old.items id) ≡ Some result }
{
    set_value(nodes.node_mut(id), value)
}

// Keeps a run in a computed's node, whose number rises where the outcome is another.
fn keep_memo(node: &mut Node, memo: Memo)
    requires live { is_computed_body node.old.body ≡ true }
    requires worn { node.old.number + 1 < 2 ^ 128 }
    ensures { node.new ≡ run_node memo node.old }
{
    match &mut node.body {
        Body::Computed(computation) => {
            if !computation.has_outcome(memo.outcome()) {
                node.number.raise();
            }
            computation.keep(memo)
        }
        _ => unreachable!(),
    }
}

/// Keeps a run of a computed, which ends its evaluation.
pub fn keep_memo_at(nodes: &mut Nodes, id: NodeId, memo: Memo)
    requires live { is_computed_body (body_at nodes.old.items id) ≡ true }
    requires worn { change_at nodes.old.items id + 1 < 2 ^ 128 }
    ensures { nodes.new.items ≡ changed_at (run_node memo) id nodes.old.items }
{
    keep_memo(nodes.node_mut(id), memo);
}

// Keeps a run of a computed's node that read exactly what the kept one did, and gives the list of it, none where it read something else. What
// is kept, what that needs of the run before and the list are told apart, and so is what leaves the node as it is.
fn renew_memo(
    node: &mut Node,
    outcome: &Outcome,
    reads: &[NodeId],
    numbers: &mut Vec<Option<Count>>,
    generation: u128,
) -> Result<Option<IdList>, NoMemory>
    requires numbers { length numbers.old.items ≡ length reads.now }
    requires worn { node.old.number + 1 < 2 ^ 128 }
    ensures list { IfOk result (λ o. IfSome o (λ l. l.items ≡ reads.now)) }
    ensures same { IfOk result (λ o. IfSome o (λ l. source_names (sources_in (memo_body node.old.body)) ≡ reads.now)) }
    ensures kept { IfOk result (λ o. IfSome o (λ l.
        node.new ≡ run_node (renewed (memo_body node.old.body) outcome.now numbers.old.items generation) node.old)) }
    ensures other { IfOk result (λ o. IfNone o (node.new ≡ node.old)) }
    ensures err { OnErr result (node.new ≡ node.old) }
{
    match &mut node.body {
        Body::Computed(computation) => {
            let number = &mut node.number;
            let list = computation.keep_again(number, outcome, reads, numbers, generation)?;
            Ok(list)
        }
        _ => Ok(None),
    }
}

/// Keeps a run of a computed that read exactly what the kept one did, by the numbers now, which ends its evaluation, and gives the list of
/// what it read: none where the kept one read something else; then nothing changes, and so it is without memory. What is kept, what that
/// needs of the run before and the list are told apart.
pub fn renew_memo_at(
    nodes: &mut Nodes,
    id: NodeId,
    outcome: &Outcome,
    reads: &[NodeId],
    numbers: &mut Vec<Option<Count>>,
    generation: u128,
) -> Result<Option<IdList>, NoMemory>
    requires live { is_computed_body (body_at nodes.old.items id) ≡ true }
    requires numbers { length numbers.old.items ≡ length reads.now }
    requires worn { change_at nodes.old.items id + 1 < 2 ^ 128 }
    ensures list { IfOk result (λ o. IfSome o (λ l. l.items ≡ reads.now)) }
    ensures same { IfOk result (λ o. IfSome o (λ l. source_names (sources_in (memo_body (body_at nodes.old.items id))) ≡ reads.now)) }
    ensures kept { IfOk result (λ o. IfSome o (λ l.
        nodes.new.items ≡ changed_at (run_node (renewed (memo_body (body_at nodes.old.items id)) outcome.now numbers.old.items generation)) id nodes.old.items)) }
    ensures other { IfOk result (λ o. IfNone o (nodes.new.items ≡ nodes.old.items)) }
    ensures err { OnErr result (nodes.new.items ≡ nodes.old.items) }
{
    let list = renew_memo(nodes.node_mut(id), outcome, reads, numbers, generation)?;
    Ok(list)
}

// Gives a computed's node another recipe.
fn rewire(node: &mut Node, recipe: Recipe, slots: Vec<NodeId>)
    requires live { is_computed_body node.old.body ≡ true }
    requires worn { node.old.number + 1 < 2 ^ 128 }
    ensures { node.new ≡ rewired_node (recipe_made (expression_of recipe) slots.items) node.old }
{
    node.number.raise();
    match &mut node.body {
        Body::Computed(computation) => computation.rewire(recipe, slots),
        _ => unreachable!(),
    }
}

/// Gives a computed another recipe.
pub fn rewire_at(nodes: &mut Nodes, id: NodeId, recipe: Recipe, slots: Vec<NodeId>)
    requires live { is_computed_body (body_at nodes.old.items id) ≡ true }
    requires worn { change_at nodes.old.items id + 1 < 2 ^ 128 }
    ensures { nodes.new.items ≡ changed_at (rewired_node (recipe_made (expression_of recipe) slots.items)) id nodes.old.items }
{
    rewire(nodes.node_mut(id), recipe, slots);
}

// Begins the evaluation of a computed's node, and tells whether it has to run whatever its sources are.
#[inline(always)]
fn begin(node: &mut Node, generation: u128) -> bool
    requires { is_computed_body node.old.body ≡ true }
    ensures node { node.new ≡ known_node (Some []) node.old }
    ensures stale { result ≡ is_stale_by (at_generation generation) (memo_body node.old.body) }
{
    match &mut node.body {
        Body::Computed(computation) => {
            computation.begin();
            computation.is_stale(generation)
        }
        _ => unreachable!(),
    }
}

/// Begins the evaluation of a computed, and tells whether it has to run whatever its sources are.
#[inline(always)]
pub fn begin_at(nodes: &mut Nodes, generation: u128, id: NodeId) -> bool
    requires { is_computed_body (body_at nodes.old.items id) ≡ true }
    ensures nodes { nodes.new.items ≡ changed_at (known_node (Some [])) id nodes.old.items }
    ensures stale { result ≡ is_stale_by (at_generation generation) (memo_body (body_at nodes.old.items id)) }
{
    begin(nodes.node_mut(id), generation)
}

// Ends the evaluation of a computed's node.
fn end(node: &mut Node)
    requires { is_computed_body node.old.body ≡ true }
    ensures { node.new ≡ known_node None node.old }
{
    match &mut node.body {
        Body::Computed(computation) => computation.end(),
        _ => unreachable!(),
    }
}

/// Ends the evaluation of a computed.
pub fn end_at(nodes: &mut Nodes, id: NodeId)
    requires { is_computed_body (body_at nodes.old.items id) ≡ true }
    ensures { nodes.new.items ≡ changed_at (known_node None) id nodes.old.items }
{
    end(nodes.node_mut(id));
}

// Asks the recipe of a computed's node.
fn ask(
    alloc: Global,
    node: &mut Node,
    known: &[Known],
    outcome: &mut Outcome,
) -> Result<Asked, NoMemory>
    requires { GoesOn (known_body node.old.body) known.now }
    ensures kept { node.new ≡ known_node (known_body node.new.body) node.old }
    ensures noted { OnOk result (known_body node.new.body ≡ Some known.now) }
    ensures answer { IfOk result (λ a. (name : ℕ) → IsAnswerHere (stands_of name node.old.body) known.now a outcome.new) }
    ensures judged { IfOk result (λ a. IsJudgedAnswer (length (slots_body node.old.body)) known.now a) }
{
    match &mut node.body {
        Body::Computed(computation) => {
            let answer = computation.ask(alloc, known, outcome)?;
            Ok(answer)
        }
        _ => unreachable!(),
    }
}

/// Asks a computed's recipe with the values known so far, of which the earlier ones are noted already, and notes the others.
pub fn ask_at(
    alloc: Global,
    nodes: &mut Nodes,
    id: NodeId,
    known: &[Known],
    outcome: &mut Outcome,
) -> Result<Asked, NoMemory>
    requires { GoesOn (known_body (body_at nodes.old.items id)) known.now }
    ensures kept { nodes.new.items ≡ changed_at (known_node (known_body (body_at nodes.new.items id))) id nodes.old.items }
    ensures noted { OnOk result (known_body (body_at nodes.new.items id) ≡ Some known.now) }
    ensures answer { IfOk result (λ a. IsAnswerHere (stands_of id (body_at nodes.old.items id)) known.now a outcome.new) }
    ensures judged { IfOk result (λ a. IsJudgedAnswer (length (slots_body (body_at nodes.old.items id))) known.now a) }
{
    let answer = ask(alloc, nodes.node_mut(id), known, outcome)?;
    Ok(answer)
}

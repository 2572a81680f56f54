// Watchers of a cell and of a computed that reads it, with ample memory.
ghost use Rattle.std.specs.Prelude.{◌≡◌, ◌∷◌, [], true, IfOk};
ghost use Rattle.std.specs.List.{All};
ghost use Rattle.sig_graph.specs.States.{is_given, no_state, CanWear};
ghost use Rattle.sig_watcher.specs.Tables.{no_watchers};

use sig_base::{NoMemory, NodeId, Outcome, Value, WatcherId};
use sig_formula::Formula;
use sig_graph::{Graph, Recipe, Standing};
use sig_watcher::{Told, WatchFault, Watchers};
use std::alloc::Global;
use std::test::Fail;

// No signals.
pub(crate) fn no_signals(alloc: Global) -> Result<Box<Graph>, NoMemory>
    ensures { IfOk result (λ g. g.value.state ≡ no_state) }
{
    let graph = Graph::new(alloc)?;
    Ok(Box::new(alloc, graph)?)
}

// Nobody who watches.
fn nobody(alloc: Global) -> Result<Box<Watchers>, NoMemory>
    ensures { IfOk result (λ w. w.value ≡ no_watchers) }
{
    let watchers = Watchers::new(alloc)?;
    Ok(Box::new(alloc, watchers)?)
}

fn told(watcher: WatcherId, refused: bool) -> Told {
    Told { watcher, refused }
}

// Tells of a change, and whether these were told.
fn are_told(
    alloc: Global,
    watchers: &mut Watchers,
    graph: &Graph,
    id: NodeId,
    wanted: &[Told],
) -> Result<bool, Fail> {
    let mut told = Vec::with_capacity(alloc, watchers.live())?;
    watchers.tell(graph, id, &mut told);
    Ok(told.as_slice() == wanted)
}

// Whether a watcher's pending computeds are these.
fn are_pending(
    watchers: &Watchers,
    graph: &mut Graph,
    w: WatcherId,
    wanted: &[NodeId],
) -> Result<bool, WatchFault>
    ensures { graph.new ≡ graph.old }
{
    let pending = watchers.pending(graph, w)?;
    Ok(pending.as_slice() == wanted)
}

// Whether two watchers of a cell are told once, and one of them again once it watches again.
fn two_are_told(
    alloc: Global,
    watchers: &mut Watchers,
    graph: &Graph,
    a: NodeId,
) -> Result<bool, Fail>
    requires { watchers.old ≡ no_watchers }
{
    let w = watchers.add(false)?;
    let v = watchers.add(true)?;
    watchers.watch(w, &[a, a])?;
    watchers.watch(v, &[a])?;
    let first = are_told(alloc, watchers, graph, a, &[told(w, false), told(v, true)])?;
    let second = are_told(alloc, watchers, graph, a, &[])?;
    watchers.watch(v, &[])?;
    let third = are_told(alloc, watchers, graph, a, &[told(v, true)])?;
    Ok(first && second && third)
}

// Whether two watchers of a new cell are told so.
fn a_cell_is_told(alloc: Global, graph: &mut Graph) -> Result<bool, Fail>
    requires { graph.old.state ≡ no_state }
{
    let a = graph.add_cell(Value::Int(1), None)?;
    let mut watchers = nobody(alloc)?;
    two_are_told(alloc, &mut watchers, graph, a)
}

#[test]
fn who_watches_is_told_once(rt: HostRuntime) -> Result<(), Fail> {
    let alloc = rt.alloc();
    let mut graph = no_signals(alloc)?;
    assert!(rt; a_cell_is_told(alloc, &mut graph)?);
    Ok(())
}

// A list of one.
fn one(alloc: Global, id: NodeId) -> Result<Vec<NodeId>, Fail>
    ensures { IfOk result (λ v. v.items ≡ id ∷ []) }
{
    let mut ids = Vec::new(alloc);
    ids.push(id)?;
    Ok(ids)
}

// Keeps a run of a computed, which read these.
fn keep_run(graph: &mut Graph, id: NodeId, reads: Vec<NodeId>) -> Result<(), Fail>
    requires given { All (λ n. is_given graph.old n ≡ true) reads.items }
    requires worn { CanWear graph.old.state }
{
    let Standing::Computed = graph.standing(id) else {
        return Err("no computed")?;
    };
    graph.begin(id);
    graph.keep_run(id, Outcome::Good(Value::Int(1)), reads)?;
    Ok(())
}

// Whether a change of the cell is told to the watcher of the computed once that has run, and not before.
fn reaches(
    alloc: Global,
    watchers: &mut Watchers,
    graph: &mut Graph,
    a: NodeId,
    b: NodeId,
) -> Result<bool, Fail>
    requires watchers { watchers.old ≡ no_watchers }
    requires given { is_given graph.old a ≡ true }
    requires worn { CanWear graph.old.state }
{
    let w = watchers.add(false)?;
    watchers.watch(w, &[b])?;
    let never = are_told(alloc, watchers, graph, a, &[])?;
    let waits = are_pending(watchers, graph, w, &[b])?;
    let reads = one(alloc, a)?;
    keep_run(graph, b, reads)?;
    let rests = are_pending(watchers, graph, w, &[])?;
    let ran = are_told(alloc, watchers, graph, a, &[told(w, false)])?;
    Ok(never && waits && rests && ran)
}

// Whether a new computed, which asks for a new cell, is reached so.
fn a_computed_is_reached(alloc: Global, graph: &mut Graph) -> Result<bool, Fail>
    requires { graph.old.state ≡ no_state }
{
    let a = graph.add_cell(Value::Int(1), None)?;
    let slots = one(alloc, a)?;
    let b = graph.add_computed(Recipe::Formula(Formula::Slot(0)), slots)?;
    let mut watchers = nobody(alloc)?;
    reaches(alloc, &mut watchers, graph, a, b)
}

#[test]
fn a_computed_that_ran_is_reached(rt: HostRuntime) -> Result<(), Fail> {
    let alloc = rt.alloc();
    let mut graph = no_signals(alloc)?;
    assert!(rt; a_computed_is_reached(alloc, &mut graph)?);
    Ok(())
}

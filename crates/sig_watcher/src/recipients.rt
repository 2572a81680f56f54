// Who is told of changes, and which computeds are pending.
ghost use Rattle.std.specs.Prelude.{◌≡◌, ℕ, ◌+◌, ◌<◌, ◌≤◌, ◌++◌, ◌∷◌, [], map, length, vec_len, vec_capacity, IfOk, OnOk};
ghost use Rattle.std.specs.List.{list_any};
ghost use Rattle.signal_model.specs.Kept.{OnlyComputedsKeep};
ghost use Rattle.effect_model.specs.Acts.{is_notified_by_any, notified_by_any, waiting_if};
ghost use Rattle.sig_nodes.specs.Answers.{mark_meant};
ghost use Rattle.sig_watcher.specs.Numbers.{changed_at, AreNumbered};
ghost use Rattle.sig_watcher.specs.Reach.{AreReaching};
ghost use Rattle.effect_model.specs.Watchers.{is_clean, is_pending, pending_of};
ghost use Rattle.sig_watcher.specs.Notices.{passes_at, told_at, told_entry, waiting_after};

use crate::reach::{is_some_found, reach};
use crate::watcher::Watcher;
use sig_base::{NoMemory, NodeId, WatcherId};
use sig_graph::{Graph, Mark, Standing};
use sig_seats::Reached;
use std::alloc::Global;

/// A watcher that was notified.
#[derive(Clone, Copy, PartialEq, Eq)]
pub struct Told {
    pub watcher: WatcherId,
    /// Whether its notification tried a command, which is always refused.
    pub refused: bool,
}

// ---- who is told

// Whether the watcher at a place is notified of changes, by the seats that they reach.
fn is_hit(
    graph: &Graph,
    ids: &[NodeId],
    reached: &Reached,
    watchers: &[Watcher],
    place: usize,
) -> bool
    requires { place < length watchers.now }
    ensures { OnlyComputedsKeep graph.now.state.signals graph.now.state.memos → AreReaching graph.now ids.now reached.now →
        result ≡ passes_at (is_notified_by_any graph.now.state.signals graph.now.state.memos ids.now) place watchers.now }
{
    let watcher = &watchers[place];
    watcher.is_watching() && is_some_found(graph, ids, reached, watcher.signals())
}

// Tells of the watcher at a place where it is notified, which is waiting afterwards.
fn tell_at(hit: bool, watchers: &mut Vec<Watcher>, place: usize, told: &mut Vec<Told>)
    requires place { place < length watchers.old.items }
    requires room { vec_len told.old < vec_capacity told.old }
    ensures watchers { watchers.new.items ≡ changed_at (waiting_after hit) place watchers.old.items }
    ensures told { told.new.items ≡ told.old.items ++ told_at hit place watchers.old.items }
    ensures len { vec_len told.new ≤ vec_len told.old + 1 }
    ensures capacity { vec_capacity told.old ≤ vec_capacity told.new }
{
    if !hit {
        return;
    }
    let one = told_entry(&watchers[place]);
    match told.push(one) {
        Ok(_) => {}
        Err(_) => unreachable!(),
    }
    watchers[place].wait();
}

fn told_entry(watcher: &Watcher) -> Told
    ensures { result ≡ told_entry watcher.now }
{
    Told {
        watcher: watcher.id(),
        refused: watcher.tries(),
    }
}

/// Tells of all watchers that changes of these signals notify, which are waiting afterwards. Of the table of seats it clears those that
/// were reached before.
pub(crate) fn tell_all(
    watchers: &mut Vec<Watcher>,
    reached: &mut Reached,
    graph: &Graph,
    ids: &[NodeId],
    told: &mut Vec<Told>,
)
    requires room { vec_len told.old + length watchers.old.items ≤ vec_capacity told.old }
    ensures told { OnlyComputedsKeep graph.now.state.signals graph.now.state.memos →
        told.new.items ≡ told.old.items ++ map told_entry (notified_by_any graph.now.state.signals graph.now.state.memos ids.now watchers.old.items) }
    ensures watchers { OnlyComputedsKeep graph.now.state.signals graph.now.state.memos →
        watchers.new.items ≡ map (waiting_if (is_notified_by_any graph.now.state.signals graph.now.state.memos ids.now)) watchers.old.items }
    ensures numbered { (made : ℕ) → AreNumbered watchers.old.items made → AreNumbered watchers.new.items made }
{
    reach(graph, ids, reached);
    for place in 0..watchers.len() {
        let hit = is_hit(graph, ids, reached, watchers, place);
        tell_at(hit, watchers, place, told);
    }
}

/// Whether some watcher is watching.
pub(crate) fn is_some_watching(watchers: &[Watcher]) -> bool
    ensures { result ≡ list_any (λ x. x.watching) watchers.now }
{
    for place in 0..watchers.len() {
        if watchers[place].is_watching() {
            return true;
        }
    }
    false
}

// ---- what is pending

// Whether a signal is a computed whose mark isn't clean.
fn is_pending(graph: &mut Graph, id: NodeId) -> bool
    ensures pending { result ≡ is_pending graph.old.state.signals graph.old.state.memos id }
    ensures same { graph.new ≡ graph.old }
{
    match graph.standing(id) {
        Standing::Gone => false,
        Standing::Cell => false,
        Standing::Computed => !is_clean(graph.mark_of(id)),
        Standing::Computing => !is_clean(graph.mark_of(id)),
    }
}

fn is_clean(mark: Mark) -> bool
    ensures { result ≡ is_clean (mark_meant mark) }
{
    match mark {
        Mark::Clean => true,
        Mark::Checked => false,
        Mark::Dirty => false,
    }
}

// Puts a signal behind the others where it is pending.
fn push_pending(pending: &mut Vec<NodeId>, graph: &mut Graph, id: NodeId) -> Result<(), NoMemory>
    ensures pending { OnOk result (pending.new.items ≡ pending.old.items ++ pending_of graph.old.state.signals graph.old.state.memos (id ∷ [])) }
    ensures same { graph.new ≡ graph.old }
{
    if is_pending(graph, id) {
        pending.push(id)?;
        return Ok(());
    }
    Ok(())
}

/// The pending computeds among these, in order.
pub(crate) fn pending_of(
    alloc: Global,
    graph: &mut Graph,
    ids: &[NodeId],
) -> Result<Vec<NodeId>, NoMemory>
    ensures pending { IfOk result (λ v. v.items ≡ pending_of graph.old.state.signals graph.old.state.memos ids.now) }
    ensures same { graph.new ≡ graph.old }
{
    let mut pending = Vec::new(alloc);
    for id in ids {
        push_pending(&mut pending, graph, *id)?;
    }
    Ok(pending)
}

// All watchers.
ghost use Rattle.std.specs.Prelude.{◌≡◌, ◌==◌, ℕ, ◌+◌, ◌++◌, vec_len, vec_capacity, ◌<◌, ◌≤◌, ◌↔◌, ◌⊎◌, ◌&&◌, not, length, map, true, false, IfOk, IfErr, IfSome, IfNone, IsErrOf, OnOk, OnErr};
ghost use Rattle.effect_model.specs.Acts.{forget, is_notified, is_notified_by_any, notified_by, notified_by_any, waiting_if};
ghost use Rattle.effect_model.specs.Commands.{armed};
ghost use Rattle.sig_watcher.specs.declared.errors.WatchFault.TheVariants as fault;
ghost use Rattle.sig_watcher.specs.Numbers.{changed_at, AreNumbered, IsFirst};
ghost use Rattle.effect_model.specs.Watchers.{signals_at, watches};
ghost use Rattle.sig_watcher.specs.Tables.{is_alive, no_watchers, with_changed, with_each, with_new, with_removal};
ghost use Rattle.effect_model.specs.Watchers.{pending_of};
ghost use Rattle.sig_watcher.specs.Notices.{told_entry};

use crate::errors::WatchFault;
use crate::recipients::{Told, is_some_watching, pending_of, tell_all};
use crate::watcher::{Watcher, is_among};
use effect_model::MOST_WATCHERS;
use sig_base::{NoMemory, NodeId, WatcherId, one_given};
use sig_graph::Graph;
use sig_seats::Reached;
use std::alloc::Global;
use std::marker::Model;

/// Watchers, with the signals that each watches, and the table of the seats that the last change reached. Signals that are disposed are
/// to be forgotten.
pub struct Watchers {
    alloc: Global,
    watchers: Vec<Watcher>,
    made: u64,
    reached: Reached,
}

impl Drop for Watchers {
    fn drop(self) {
        let Watchers {
            alloc: _,
            watchers: _,
            made: _,
            reached: _,
        } = self;
    }
}

impl Model for Watchers {
    ghost use Rattle.sig_watcher.specs.Tables.{Table};

    ghost Value = { Table };

    ghost use Rattle.sig_watcher.specs.Numbers.{AreNumbered};

    ghost view = { λ w. record { watchers = w.watchers.items; made = w.made } };

    ghost invariant = { λ w. AreNumbered w.watchers.items w.made };
}

impl Watchers {
    /// No watchers.
    pub fn new(alloc: Global) -> Result<Watchers, NoMemory>
        ensures { IfOk result (λ w. w ≡ no_watchers) }
    {
        Ok(Watchers {
            alloc,
            watchers: Vec::new(alloc),
            made: 0,
            reached: Reached::new(alloc)?,
        })
    }

    /// How many watchers live. Their numbers are below the count of those that were made, and rise in the order of making.
    pub fn live(&self) -> usize
        ensures count { result ≡ length self.now.watchers }
        ensures numbered { AreNumbered self.now.watchers self.now.made }
    {
        self.watchers.len()
    }

    /// Whether a watcher lives.
    pub fn is_alive(&self, w: WatcherId) -> bool
        ensures { result ≡ is_alive self.now.watchers w }
    {
        is_alive(&self.watchers, w)
    }

    /// Whether a signal is among those that a watcher watches. A watcher that is gone watches none.
    pub fn watches(&self, w: WatcherId, id: NodeId) -> bool
        ensures { result ≡ watches self.now.watchers w id }
    {
        watches(&self.watchers, w, id)
    }

    /// Makes a watcher, which has no signals and is waiting; it may try a command when it is notified. Its id is the number of
    /// watchers that were made before. It is refused where as many watchers live as may be; after a refusal all is as before.
    pub fn add(&mut self, tries: bool) -> Result<WatcherId, WatchFault>
        ensures id { IfOk result (λ id. id ≡ self.old.made) }
        ensures after { OnOk result (self.new ≡ with_new tries self.old) }
        ensures limit { IsErrOf result fault.Limit ↔ (length self.old.watchers ≡ MOST_WATCHERS) }
        ensures fault { IfErr result (λ e. (e ≡ fault.Limit) ⊎ (e ≡ fault.NoMemory)) }
        ensures err { OnErr result (self.new ≡ self.old) }
    {
        if is_full(&self.watchers) {
            return Err(WatchFault::Limit);
        }
        let made = one_given(self.made)?;
        let id = WatcherId::of(self.made);
        self.watchers.push(Watcher::new(self.alloc, id, tries))?;
        self.made = made;
        Ok(id)
    }

    /// Appends the signals that a watcher doesn't watch yet, in order and once each, and arms it; with no signals it only arms. It is
    /// refused where the watcher is gone; after a refusal, also for want of memory, all is as before.
    pub fn watch(&mut self, w: WatcherId, ids: &[NodeId]) -> Result<(), WatchFault>
        ensures after { OnOk result (self.new ≡ with_changed w (armed ids.now) self.old) }
        ensures gone { IsErrOf result fault.Gone ↔ (is_alive self.old.watchers w ≡ false) }
        ensures fault { IfErr result (λ e. (e ≡ fault.Gone) ⊎ (e ≡ fault.NoMemory)) }
        ensures err { OnErr result (self.new ≡ self.old) }
    {
        let Some(place) = place_of(&self.watchers, w) else {
            return Err(WatchFault::Gone);
        };
        arm_at(&mut self.watchers, place, ids)?;
        Ok(())
    }

    /// Takes a signal out of a watcher's. It is refused where the watcher is gone or doesn't watch the signal; then all is as before.
    pub fn unwatch(&mut self, w: WatcherId, id: NodeId) -> Result<(), WatchFault>
        ensures after { OnOk result (self.new ≡ with_changed w (forget id) self.old) }
        ensures gone { IsErrOf result fault.Gone ↔ (is_alive self.old.watchers w ≡ false) }
        ensures not_watched { IsErrOf result fault.NotWatched ↔ ((is_alive self.old.watchers w && not (watches self.old.watchers w id)) ≡ true) }
        ensures fault { IfErr result (λ e. (e ≡ fault.Gone) ⊎ (e ≡ fault.NotWatched)) }
        ensures err { OnErr result (self.new ≡ self.old) }
    {
        let Some(place) = place_of(&self.watchers, w) else {
            return Err(WatchFault::Gone);
        };
        if !watches_at(&self.watchers, place, id) {
            return Err(WatchFault::NotWatched);
        }
        forget_at(&mut self.watchers, place, id);
        Ok(())
    }

    /// Removes a watcher. It is refused where the watcher is gone; then all is as before.
    pub fn remove(&mut self, w: WatcherId) -> Result<(), WatchFault>
        ensures after { OnOk result (self.new ≡ with_removal w self.old) }
        ensures gone { IsErrOf result fault.Gone ↔ (is_alive self.old.watchers w ≡ false) }
        ensures fault { IfErr result (λ e. e ≡ fault.Gone) }
        ensures err { OnErr result (self.new ≡ self.old) }
    {
        let Some(place) = place_of(&self.watchers, w) else {
            return Err(WatchFault::Gone);
        };
        let _removed = self.watchers.remove(place);
        Ok(())
    }

    /// The computeds among a watcher's signals that must run, or else something below them along kept sources, in the order in
    /// which they are watched. It is refused where the watcher is gone.
    pub fn pending(&self, graph: &mut Graph, w: WatcherId) -> Result<Vec<NodeId>, WatchFault>
        ensures names { IfOk result (λ v. v.items ≡ pending_of graph.old.state.signals graph.old.state.memos (signals_at self.now.watchers w)) }
        ensures same { graph.new ≡ graph.old }
        ensures gone { IsErrOf result fault.Gone ↔ (is_alive self.now.watchers w ≡ false) }
        ensures fault { IfErr result (λ e. (e ≡ fault.Gone) ⊎ (e ≡ fault.NoMemory)) }
    {
        let Some(place) = place_of(&self.watchers, w) else {
            return Err(WatchFault::Gone);
        };
        let pending = pending_at(self.alloc, graph, &self.watchers, place)?;
        Ok(pending)
    }

    /// Tells of changes of these signals together: of each watcher that is watching, and one of whose signals is one of them or has one
    /// of them in the closure of its kept sources, once and in the order of making. They are put behind what the list has, in room that is
    /// there for all that live, and are waiting afterwards. It takes no memory, and costs what the changes before reached, what these
    /// reach, and the signals of the watchers times these; of a signal that is gone it looks at all seats.
    pub fn tell_all(&mut self, graph: &Graph, ids: &[NodeId], told: &mut Vec<Told>)
        requires room { vec_len told.old + length self.old.watchers ≤ vec_capacity told.old }
        ensures told { told.new.items ≡ told.old.items ++ map told_entry (notified_by_any graph.now.state.signals graph.now.state.memos ids.now self.old.watchers) }
        ensures after { self.new ≡ with_each (waiting_if (is_notified_by_any graph.now.state.signals graph.now.state.memos ids.now)) self.old }
    {
        if !is_some_watching(&self.watchers) {
            return;
        }
        let _made = graph.made();
        tell_all(&mut self.watchers, &mut self.reached, graph, ids, told);
    }

    /// Tells of a change of one signal.
    pub fn tell(&mut self, graph: &Graph, id: NodeId, told: &mut Vec<Told>)
        requires room { vec_len told.old + length self.old.watchers ≤ vec_capacity told.old }
        ensures told { told.new.items ≡ told.old.items ++ map told_entry (notified_by graph.now.state.signals graph.now.state.memos id self.old.watchers) }
        ensures after { self.new ≡ with_each (waiting_if (is_notified graph.now.state.signals graph.now.state.memos id)) self.old }
    {
        self.tell_all(graph, &[id], told);
    }

    /// Takes a signal out of all watchers. It takes no memory.
    pub fn forget(&mut self, id: NodeId)
        ensures { self.new ≡ with_each (forget id) self.old }
    {
        forget_all(&mut self.watchers, id);
    }
}

// Whether as many live as there may be.
fn is_full(watchers: &[Watcher]) -> bool
    ensures { result ≡ (length watchers.now == MOST_WATCHERS) }
{
    watchers.len() == MOST_WATCHERS
}

// Where the watcher of an id stands.
fn place_of(watchers: &[Watcher], w: WatcherId) -> Option<usize>
    ensures some { IfSome result (λ p. IsFirst watchers.now w p) }
    ensures none { IfNone result (is_alive watchers.now w ≡ false) }
{
    for place in 0..watchers.len() {
        if w == watchers[place].id() {
            return Some(place);
        }
    }
    None
}

// Whether the watcher of an id is among these.
fn is_alive(watchers: &[Watcher], w: WatcherId) -> bool
    ensures { result ≡ is_alive watchers.now w }
{
    match place_of(watchers, w) {
        Some(_) => true,
        None => false,
    }
}

// Whether the watcher of an id watches a signal.
fn watches(watchers: &[Watcher], w: WatcherId, id: NodeId) -> bool
    ensures { result ≡ watches watchers.now w id }
{
    match place_of(watchers, w) {
        Some(place) => watches_at(watchers, place, id),
        None => false,
    }
}

// Arms the watcher at a place.
fn arm_at(watchers: &mut Vec<Watcher>, place: usize, ids: &[NodeId]) -> Result<(), NoMemory>
    requires { place < length watchers.old.items }
    ensures after { OnOk result (watchers.new.items ≡ changed_at (armed ids.now) place watchers.old.items) }
    ensures err { OnErr result (watchers.new.items ≡ watchers.old.items) }
{
    let _count = watchers.len();
    watchers[place].arm(ids)?;
    Ok(())
}

// Whether the watcher at a place watches a signal.
fn watches_at(watchers: &[Watcher], place: usize, id: NodeId) -> bool
    requires { place < length watchers.now }
    ensures { (w : ℕ) → IsFirst watchers.now w place → result ≡ watches watchers.now w id }
{
    is_among(watchers[place].signals(), id)
}

// The pending computeds among the signals of the watcher at a place.
fn pending_at(
    alloc: Global,
    graph: &mut Graph,
    watchers: &[Watcher],
    place: usize,
) -> Result<Vec<NodeId>, NoMemory>
    requires { place < length watchers.now }
    ensures pending { (w : ℕ) → IsFirst watchers.now w place → IfOk result (λ v. v.items ≡ pending_of graph.old.state.signals graph.old.state.memos (signals_at watchers.now w)) }
    ensures same { graph.new ≡ graph.old }
{
    let pending = pending_of(alloc, graph, watchers[place].signals())?;
    Ok(pending)
}

// Takes a signal out of those of the watcher at a place.
fn forget_at(watchers: &mut Vec<Watcher>, place: usize, id: NodeId)
    requires { place < length watchers.old.items }
    ensures { watchers.new.items ≡ changed_at (forget id) place watchers.old.items }
{
    let _count = watchers.len();
    watchers[place].forget(id);
}

// Takes a signal out of those of each watcher.
fn forget_all(watchers: &mut Vec<Watcher>, id: NodeId)
    ensures { watchers.new.items ≡ map (forget id) watchers.old.items }
{
    for place in 0..watchers.len() {
        forget_at(watchers, place, id);
    }
}

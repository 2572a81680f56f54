// One watcher.
ghost use Rattle.std.specs.Prelude.{◌≡◌, ◌+◌, ◌≤◌, ◌<◌, ◌++◌, ◌∷◌, [], false, true, length, vec_len, vec_capacity, OnOk, OnErr, if◌then◌else◌};
ghost use Rattle.signal_model.specs.Signals.{is_in, without};
ghost use Rattle.effect_model.specs.Acts.{forget};
ghost use Rattle.effect_model.specs.Commands.{also_watched, armed};
ghost use Rattle.sig_watcher.specs.Tables.{new_watcher, waiting};

use sig_base::{NoMemory, NodeId, WatcherId};
use std::alloc::Global;
use std::marker::Model;

/// A watcher: the signals that it watches in order and once each, whether it is watching, and whether its notification tries a
/// command.
#[derive(Drop)]
pub(crate) struct Watcher {
    id: WatcherId,
    signals: Vec<NodeId>,
    watching: bool,
    tries: bool,
}

impl Model for Watcher {
    ghost use Rattle.effect_model.specs.Worlds.{Watcher};

    ghost Value = { Watcher };

    ghost view = { λ w. record { number = w.id; signals = w.signals.items; watching = w.watching; tries = w.tries } };
}

impl Watcher {
    /// One that is waiting and has no signals.
    pub(crate) fn new(alloc: Global, id: WatcherId, tries: bool) -> Watcher
        ensures { result ≡ new_watcher id tries }
    {
        Watcher {
            id,
            signals: Vec::new(alloc),
            watching: false,
            tries,
        }
    }

    pub(crate) fn id(&self) -> WatcherId
        ensures { result ≡ self.now.number }
    {
        self.id
    }

    pub(crate) fn signals(&self) -> &[NodeId]
        ensures { result.now ≡ self.now.signals }
    {
        &self.signals
    }

    pub(crate) fn is_watching(&self) -> bool
        ensures { result ≡ self.now.watching }
    {
        self.watching
    }

    /// Whether its notification tries a command.
    pub(crate) fn tries(&self) -> bool
        ensures { result ≡ self.now.tries }
    {
        self.tries
    }

    /// Appends the signals that it doesn't watch yet, and is watching. Without memory it stays as it is.
    pub(crate) fn arm(&mut self, ids: &[NodeId]) -> Result<(), NoMemory>
        ensures armed { OnOk result (self.new ≡ armed ids.now self.old) }
        ensures err { OnErr result (self.new ≡ self.old) }
    {
        self.signals.reserve(ids.len())?;
        append_new(&mut self.signals, ids);
        self.watching = true;
        Ok(())
    }

    /// No longer watches a signal.
    pub(crate) fn forget(&mut self, id: NodeId)
        ensures { self.new ≡ forget id self.old }
    {
        take_out(&mut self.signals, id);
    }

    /// Is waiting until it is armed again.
    pub(crate) fn wait(&mut self)
        ensures { self.new ≡ waiting self.old }
    {
        self.watching = false;
    }
}

/// Whether an id is among these.
pub(crate) fn is_among(ids: &[NodeId], id: NodeId) -> bool
    ensures { result ≡ is_in id ids.now }
{
    for one in ids {
        if id == *one {
            return true;
        }
    }
    false
}

// Appends an id unless it is there, in room for it.
fn append_once(held: &mut Vec<NodeId>, id: NodeId)
    requires { vec_len held.old < vec_capacity held.old }
    ensures items { held.new.items ≡ (if is_in id held.old.items then held.old.items else held.old.items ++ id ∷ []) }
    ensures len { vec_len held.new ≤ vec_len held.old + 1 }
    ensures capacity { vec_capacity held.old ≤ vec_capacity held.new }
{
    if is_among(held, id) {
        return;
    }
    match held.push(id) {
        Ok(_) => {}
        Err(_) => unreachable!(),
    }
}

// Appends each id that isn't there yet, in room for all of them.
fn append_new(held: &mut Vec<NodeId>, ids: &[NodeId])
    requires { vec_len held.old + length ids.now ≤ vec_capacity held.old }
    ensures { held.new.items ≡ also_watched held.old.items ids.now }
{
    for id in ids {
        append_once(held, *id);
    }
}

// Takes an id out wherever it stands.
fn take_out(held: &mut Vec<NodeId>, id: NodeId)
    ensures { held.new.items ≡ without (λ m. m) id held.old.items }
{
    held.retain(|one| id != *one);
}

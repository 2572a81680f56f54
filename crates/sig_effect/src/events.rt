// What is told on the way.

use effect_model::How;
use effect_tables::Thing;
use sig_base::{EffectId, Fault, NodeId, Value, WatcherId};
use sig_computed::RunNote;

/// What is told on the way.
pub enum Event {
    /// A computed ran.
    Run(RunNote),
    /// A signal was changed: a cell was set or given back, a computed rewired, or either is gone.
    Change(NodeId, How),
    /// A watcher was notified, and is waiting from then on.
    Notify(WatcherId),
    /// The notifications of these watchers tried a command, which was refused.
    Frozen(Vec<WatcherId>),
    /// The host formula of a place was dropped, after so many asks.
    Dropped(usize, u128),
    /// A value is logged.
    Log(Value),
    /// An effect's body was evaluated, with its tracked reads.
    Body(EffectId, Vec<NodeId>),
    /// An effect's body failed.
    Fail(EffectId, Fault),
    /// A cleanup of an effect is about to be done.
    Cleanup(EffectId),
    /// A thing is gone.
    Gone(Thing),
    /// An act is refused: a thing that it names is gone.
    RefusedGone(Thing),
    /// An act is refused: the host formula of a place is used or was dropped.
    RefusedHost(usize),
    /// A child effect was made, by its parent and with this number in its label.
    Made {
        child: EffectId,
        parent: EffectId,
        label: u64,
    },
    /// A cleanup of an effect is noted.
    Noted(EffectId),
}

impl Drop for Event {
    fn drop(self) {
        match self {
            Event::Run(_) => {}
            Event::Change(_, _) => {}
            Event::Notify(_) => {}
            Event::Frozen(_) => {}
            Event::Dropped(_, _) => {}
            Event::Log(_) => {}
            Event::Body(_, _) => {}
            Event::Fail(_, _) => {}
            Event::Cleanup(_) => {}
            Event::Gone(_) => {}
            Event::RefusedGone(_) => {}
            Event::RefusedHost(_) => {}
            Event::Made {
                child: _,
                parent: _,
                label: _,
            } => {}
            Event::Noted(_) => {}
        }
    }
}

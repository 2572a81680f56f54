// What things are called.
ghost use Rattle.std.specs.Prelude.{◌≡◌};
ghost use Rattle.live_model.specs.Labels.{no_labels};
ghost use Rattle.live_labels.specs.Views.{labels_of};

use indexmap::IndexMap;
use live_entries::Label;
use sig_base::Name;
use std::alloc::Global;

/// The names of signals, owners, pages and watchers, each at its number, and the labels of effects by their numbers. An effect that a
/// command made keeps its label, a child has it as long as it lives.
pub struct Labels {
    pub signals: Vec<Name>,
    pub owners: Vec<Name>,
    pub pages: Vec<Name>,
    pub watchers: Vec<Name>,
    pub effects: IndexMap<u64, Label>,
}

impl Drop for Labels {
    fn drop(self) {
        let Labels {
            signals: _,
            owners: _,
            pages: _,
            watchers: _,
            effects: _,
        } = self;
    }
}

impl Labels {
    /// Nothing was made.
    pub fn new(alloc: Global) -> Labels
        ensures { labels_of result ≡ no_labels }
    {
        Labels {
            signals: Vec::new(alloc),
            owners: Vec::new(alloc),
            pages: Vec::new(alloc),
            watchers: Vec::new(alloc),
            effects: IndexMap::new(alloc),
        }
    }
}

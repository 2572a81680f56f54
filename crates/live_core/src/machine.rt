// The machine: what a script made.

use effect_tables::Script;
use effect_world::World;
use live_labels::Labels;
use live_names::Names;
use live_pages::{LinkedTemplate, Mounted};
use live_why::Recorder;
use page_events::Handlers;
use sig_computed::RunNote;
use sig_effect::Event;
use sig_state::Batch;
use std::alloc::Global;

/// What a script made: what its names stand for, what things are called, the signals, watchers, owners and effects, the batch that is
/// open, the journal, once it was begun, the templates, the handlers of events with what each of them does, and the pages that live. Host
/// formulas and equality rules stand beside it, and are handed to each act that needs them. The events of the last set or flush stand in a
/// list that is kept, so that the next one finds room for its own; so is the list in which an untraced get notes runs, which go once they are
/// noted, and a flush those of each page.
#[derive(Drop)]
pub struct Machine {
    pub alloc: Global,
    pub names: Names,
    pub labels: Labels,
    pub world: World,
    pub batch: Option<Batch>,
    pub journal: Option<Recorder>,
    pub templates: Vec<LinkedTemplate>,
    pub handlers: Handlers,
    pub scripts: Vec<Script>,
    pub pages: Vec<Mounted>,
    pub events: Vec<Event>,
    pub notes: Vec<RunNote>,
}

// What is marked of each signal.
ghost use Rattle.std.specs.Prelude.{◌≡◌, ◌==◌, ℕ, [], OnErr, OnOk, if◌then◌else◌};
ghost use Rattle.live_why.specs.Marking.{marks_at};

use indexmap::IndexMap;
use sig_base::{NoMemory, NodeId};
use std::alloc::Global;

/// Numbers of facts about a signal, 0 for none: its last run, the last that rewired it, and the last that moved it.
#[derive(Clone, Copy)]
pub(crate) struct Marks {
    pub run: usize,
    pub rewired: usize,
    pub moved: usize,
}

/// The marks of each signal that facts tell of.
#[derive(Drop)]
pub(crate) struct Index {
    pub marks: IndexMap<NodeId, Marks>,
}

impl Index {
    /// No signal is marked.
    pub(crate) fn new(alloc: Global) -> Index
        ensures { result.marks.entries ≡ [] }
    {
        Index {
            marks: IndexMap::new(alloc),
        }
    }

    /// The marks of a signal.
    pub(crate) fn at(&self, id: NodeId) -> Marks
        ensures { result ≡ marks_at self.now.marks.entries id }
    {
        match self.marks.get(&id) {
            Some(marks) => *marks,
            None => Marks {
                run: 0,
                rewired: 0,
                moved: 0,
            },
        }
    }

    /// Marks a signal.
    pub(crate) fn put(&mut self, id: NodeId, marks: Marks) -> Result<(), NoMemory>
        ensures put { OnOk result ((n : ℕ) → marks_at self.new.marks.entries n
            ≡ (if n == id then marks else marks_at self.old.marks.entries n)) }
        ensures err { OnErr result ((n : ℕ) → marks_at self.new.marks.entries n ≡ marks_at self.old.marks.entries n) }
    {
        self.marks.insert(id, marks)?;
        Ok(())
    }
}

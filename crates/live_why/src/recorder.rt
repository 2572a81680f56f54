// A journal that keeps as many facts as it may.
ghost use Rattle.std.specs.Prelude.{◌≡◌, OnErr, OnOk, map};
ghost use Rattle.why_model.specs.Facts.{has_run, was_changed};
ghost use Rattle.why_model.specs.Records.{no_facts, with_fact, with_facts};
ghost use Rattle.live_why.specs.Views.{note_of};

use crate::errors::JournalFault;
use crate::journal::Journal;
use effect_model::How;
use sig_base::{NoMemory, NodeId};
use sig_computed::RunNote;
use std::alloc::Global;
use std::marker::Model;

/// The first facts that were noted, so many as there may be, and whether another came.
pub struct Recorder {
    journal: Journal,
    is_full: bool,
}

impl Drop for Recorder {
    fn drop(self) {
        let Recorder {
            journal: _,
            is_full: _,
        } = self;
    }
}

impl Model for Recorder {
    ghost use Rattle.why_model.specs.Records as plain;

    ghost Value = { plain.Journal };

    ghost view = { λ r. record { facts = r.journal; full = r.is_full } };
}

impl Recorder {
    /// Nothing is noted.
    pub fn new(alloc: Global) -> Recorder
        ensures { result ≡ no_facts }
    {
        Recorder {
            journal: Journal::new(alloc),
            is_full: false,
        }
    }

    /// Whether a fact came for which there was no place.
    pub fn is_full(&self) -> bool
        ensures { result ≡ self.now.full }
    {
        self.is_full
    }

    /// The facts that are kept.
    pub fn journal(&self) -> &Journal
        ensures { result.now ≡ self.now.facts }
    {
        &self.journal
    }

    /// Notes that a signal was changed, if there is place for it.
    ///
    /// # Errors
    ///
    /// `NoMemory` where memory ran out; then all is as before.
    pub fn note_change(&mut self, id: NodeId, how: How) -> Result<(), NoMemory>
        ensures noted { OnOk result (self.new ≡ with_fact (was_changed id how) self.old) }
        ensures err { OnErr result (self.new ≡ self.old) }
    {
        match self.journal.note_change(id, how) {
            Ok(()) => Ok(()),
            Err(JournalFault::Full) => {
                self.is_full = true;
                Ok(())
            }
            Err(JournalFault::NoMemory) => Err(NoMemory),
        }
    }

    /// Notes a run, if there is place for it.
    ///
    /// # Errors
    ///
    /// `NoMemory` where memory ran out; then all is as before.
    pub fn note_run(&mut self, run: &RunNote) -> Result<(), NoMemory>
        ensures noted { OnOk result (self.new ≡ with_fact (has_run (note_of run.now)) self.old) }
        ensures err { OnErr result (self.new ≡ self.old) }
    {
        match self.journal.note_run(run) {
            Ok(()) => Ok(()),
            Err(JournalFault::Full) => {
                self.is_full = true;
                Ok(())
            }
            Err(JournalFault::NoMemory) => Err(NoMemory),
        }
    }

    /// Notes runs, one after the other, as many as there is place for.
    ///
    /// # Errors
    ///
    /// `NoMemory` where memory ran out.
    pub fn note_all(&mut self, runs: &[RunNote]) -> Result<(), NoMemory>
        ensures { OnOk result (self.new ≡ with_facts (map has_run (map note_of runs.now)) self.old) }
    {
        for run in runs {
            self.note_run(run)?;
        }
        Ok(())
    }
}

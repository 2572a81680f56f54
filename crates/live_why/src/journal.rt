// The journal.
ghost use Rattle.std.specs.Prelude.{◌≡◌, ◌∷◌, ◌++◌, ◌≤◌, ◌↔◌, [], IfOk, IsErrOf, OnErr, OnOk, length, option_map};
ghost use Rattle.why_model.specs.Facts.{has_run, was_changed};
ghost use Rattle.why_model.specs.Chains.{chain};
ghost use Rattle.live_why.specs.Views.{facts_of, note_of};
ghost use Rattle.live_why.specs.declared.errors.JournalFault.TheVariants as fault;

use crate::errors::JournalFault;
use crate::facts::Fact;
use crate::ledger::Ledger;
use effect_model::How;
use sig_base::{NoMemory, NodeId};
use sig_computed::RunNote;
use std::alloc::Global;
use std::marker::Model;
use why_model::{Link, MOST_FACTS};

/// The facts that were noted, in order.
pub struct Journal {
    ledger: Ledger,
}

impl Drop for Journal {
    fn drop(self) {
        let Journal { ledger: _ } = self;
    }
}

impl Model for Journal {
    ghost use Rattle.std.specs.Prelude.{List};
    ghost use Rattle.why_model.specs.Facts as plain;

    ghost Value = { List plain.Fact };

    ghost use Rattle.live_why.specs.Views.{facts_of};
    ghost use Rattle.live_why.specs.Marking.{IsRight};

    ghost view = { λ j. facts_of j.ledger.facts.items };

    ghost invariant = { λ j. IsRight j.ledger.facts.items j.ledger.causes.items j.ledger.index.marks.entries };
}

impl Journal {
    /// Nothing is noted.
    pub fn new(alloc: Global) -> Journal
        ensures { result ≡ [] }
    {
        Journal {
            ledger: Ledger::new(alloc),
        }
    }

    /// The facts in order.
    pub fn facts(&self) -> &[Fact]
        ensures { facts_of result.now ≡ self.now }
    {
        self.ledger.facts.as_slice()
    }

    /// Notes that a signal was changed.
    ///
    /// # Errors
    ///
    /// `Full` where there are as many facts as there may be, `NoMemory` where memory ran out; then all is as before.
    pub fn note_change(&mut self, id: NodeId, how: How) -> Result<(), JournalFault>
        ensures noted { OnOk result (self.new ≡ self.old ++ was_changed id how ∷ []) }
        ensures err { OnErr result (self.new ≡ self.old) }
        ensures full { IsErrOf result fault.Full ↔ (MOST_FACTS ≤ length self.old) }
    {
        self.ledger.note_change(id, how)?;
        Ok(())
    }

    /// Notes a run.
    ///
    /// # Errors
    ///
    /// `Full` where there are as many facts as there may be, `NoMemory` where memory ran out; then all is as before.
    pub fn note_run(&mut self, run: &RunNote) -> Result<(), JournalFault>
        ensures noted { OnOk result (self.new ≡ self.old ++ has_run (note_of run.now) ∷ []) }
        ensures err { OnErr result (self.new ≡ self.old) }
        ensures full { IsErrOf result fault.Full ↔ (MOST_FACTS ≤ length self.old) }
    {
        self.ledger.note_run(run)?;
        Ok(())
    }

    /// The chain of a computed: its last run with its cause, and so on as far as runs were caused by runs; none where it never ran.
    ///
    /// # Errors
    ///
    /// `NoMemory` where memory ran out.
    pub fn chain(&self, id: NodeId) -> Result<Option<Vec<Link>>, NoMemory>
        ensures { IfOk result (λ o. option_map (λ v. v.items) o ≡ chain self.now id) }
    {
        let links = self.ledger.chain(id)?;
        Ok(links)
    }
}

// What a body reads, and how it ends.
ghost use Rattle.std.specs.Prelude.{◌≡◌, ◌++◌, [], not, IfOk, OnOk};
ghost use Rattle.sig_base.specs.declared.value.Outcome.TheVariants.{Bad, Good};
ghost use Rattle.effect_model.specs.Bodies.{if_tracked};
ghost use Rattle.effect_runs.specs.declared.run.BodyEnd.TheVariants as end;
ghost use Rattle.effect_runs.specs.Evaluations.{learnt_if};

use sig_base::{Fault, Known, NoMemory, NodeId, Outcome, Value};
use sig_untrack::{Act, Read};
use std::alloc::Global;

/// How a body ends: with acts to be done, or by its first fault.
#[derive(Drop)]
pub enum BodyEnd {
    Acts(Vec<Act>),
    Fail(Fault),
}

/// What came of a body: its tracked reads, in the order of first tracked reading, also where it failed; and how it ended.
#[derive(Drop)]
pub struct BodyRun {
    pub tracked: Vec<Read>,
    pub end: BodyEnd,
}

/// What a body knows of its slots, tracked and untracked, and its tracked reads in order.
#[derive(Drop)]
pub(crate) struct Reading {
    pub(crate) tracked: Vec<Known>,
    pub(crate) untracked: Vec<Known>,
    pub(crate) reads: Vec<Read>,
}

impl Reading {
    /// Nothing was read.
    pub(crate) fn new(alloc: Global) -> Reading
        ensures tracked { result.tracked.items ≡ [] }
        ensures untracked { result.untracked.items ≡ [] }
        ensures reads { result.reads.items ≡ [] }
    {
        Reading {
            tracked: Vec::new(alloc),
            untracked: Vec::new(alloc),
            reads: Vec::new(alloc),
        }
    }

    /// The value of a slot was read. An untracked read isn't kept.
    pub(crate) fn learn(
        &mut self,
        slot: u32,
        tracked: bool,
        id: NodeId,
        value: Value,
    ) -> Result<(), NoMemory>
        ensures tracked { OnOk result (self.new.tracked.items ≡ learnt_if tracked self.old.tracked.items slot value) }
        ensures untracked { OnOk result (self.new.untracked.items ≡ learnt_if (not tracked) self.old.untracked.items slot value) }
        ensures reads { OnOk result (self.new.reads.items
            ≡ self.old.reads.items ++ if_tracked tracked (record { name = id; outcome = Good value }) []) }
    {
        if !tracked {
            self.untracked.push(Known { slot, value })?;
            return Ok(());
        }
        let outcome = Outcome::Good(value.copy()?);
        self.tracked.push(Known { slot, value })?;
        self.reads.push(Read { id, outcome })?;
        Ok(())
    }

    /// The fault of a signal was read, which ends the body.
    pub(crate) fn fail(self, tracked: bool, id: NodeId, fault: Fault) -> Result<BodyRun, NoMemory>
        ensures reads { IfOk result (λ r. r.tracked.items
            ≡ self.reads.items ++ if_tracked tracked (record { name = id; outcome = Bad fault }) []) }
        ensures end { IfOk result (λ r. r.end ≡ end.Fail fault) }
    {
        let mut reads = self.reads;
        if tracked {
            let outcome = Outcome::Bad(fault);
            reads.push(Read { id, outcome })?;
        }
        Ok(BodyRun {
            tracked: reads,
            end: BodyEnd::Fail(fault),
        })
    }
}

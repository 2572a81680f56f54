// The calls of an evaluation.
ghost use Rattle.std.specs.Prelude.{◌≡◌, ◌+◌, ◌<◌, ◌≤◌, ◌&&◌, not, if◌then◌else◌, [], length, take, true, false, None, Some, IfOk, IfSome, IfNone, OnOk, slice_get};
ghost use Rattle.std.specs.List.{All};
ghost use Rattle.signal_model.specs.Signals.{is_computed, standing};
ghost use Rattle.signal_model.specs.Memos.{holds_cycle, is_stale, sources_of};
ghost use Rattle.sig_graph.specs.Reading.{HasReadOn, IsReachedHere, IsReadOne, reached_steps};
ghost use Rattle.sig_graph.specs.Looks.{has_moved};
ghost use Rattle.sig_nodes.specs.Answers.{slots_here, IsAnswerHere, IsJudgedAnswer};
ghost use Rattle.sig_graph.specs.States.{counted, is_computing, is_given, progress_at, with_kept_run, with_look, with_progress, Becomes, CanWear};
ghost use Rattle.sig_nodes.specs.Computations.{GoesOn};

use crate::end_marks::{end_mark, look_over, run_unmarks, stop_unmarks};
use crate::graph::Graph;
use crate::links::{copied, relink};
use crate::reading::{Reached, read_ready, read_slots};
use sig_base::{Known, NoMemory, NodeId, Outcome};
use sig_nodes::{
    Asked, Computation, IdList, Memo, ask_at, begin_at, compared_at, computation_at, end_at,
    keep_memo_at, renew_memo_at,
};

/// One counted step more.
pub(crate) fn counted(looked: u128) -> u128
    ensures { result ≡ counted looked }
{
    if looked < u128::MAX {
        looked + 1
    } else {
        looked
    }
}

// Whether a slot of a computed stands for a certain signal.
#[inline(always)]
fn stands_for(computation: &Computation, slot: u32, signal: NodeId) -> bool
    ensures { result ≡ true → slice_get computation.now.recipe.slots slot ≡ Some signal }
{
    match computation.slot(slot) {
        Some(id) => id == signal,
        None => false,
    }
}

// A count below this isn't nearly the last one, which its upper half tells alone.
const EARLY: u128 = u128::MAX - u64::MAX as u128;

// The same for a count that is nearly the last one. It stands apart, as hardly any is.
#[inline(never)]
fn count_late(looked: &mut u128)
    ensures { looked.new ≡ counted looked.old }
{
    *looked = counted(*looked);
}

/// Counts one step more.
#[inline(always)]
pub(crate) fn count(looked: &mut u128)
    ensures { looked.new ≡ counted looked.old }
{
    if *looked < EARLY {
        *looked += 1;
        return;
    }
    count_late(looked);
}

// So many more, up to a count that is nearly the last one. It stands apart, as hardly any is.
#[inline(never)]
fn count_late_by(looked: &mut u128, more: usize)
    ensures { looked.new ≤ looked.old + more }
{
    *looked = looked.saturating_add(more as u128);
}

/// Counts so many steps more at most.
#[inline(always)]
pub(crate) fn count_by(looked: &mut u128, more: usize)
    ensures { looked.new ≤ looked.old + more }
{
    if *looked < EARLY {
        *looked += more as u128;
        return;
    }
    count_late_by(looked, more);
}

impl Graph {
    // Begins the evaluation of a computed, and tells whether it is stale.
    #[inline(always)]
    fn begun_stale(&mut self, id: NodeId) -> bool
        requires live { is_computed (standing self.old.state.signals id) ≡ true }
        requires idle { is_computing self.old.state id ≡ false }
        ensures stale { result ≡ is_stale self.old.state.memos id }
        ensures after { Becomes self.old self.new (with_progress self.old.state id (Some [])) }
        ensures begun { progress_at id self.new.state.progress ≡ Some [] }
        ensures seats { self.new.seats ≡ self.old.seats }
    {
        let _count = self.nodes.made();
        self.marks.push(id);
        begin_at(&mut self.nodes, self.generation, id)
    }

    /// Begins the evaluation of a computed, which is computing from then on.
    pub fn begin(&mut self, id: NodeId)
        requires live { is_computed (standing self.old.state.signals id) ≡ true }
        requires idle { is_computing self.old.state id ≡ false }
        ensures after { Becomes self.old self.new (with_progress self.old.state id (Some [])) }
        ensures begun { progress_at id self.new.state.progress ≡ Some [] }
        ensures seats { self.new.seats ≡ self.old.seats }
    {
        let _stale = self.begun_stale(id);
    }

    /// Begins the evaluation of a computed, as `begin` does, and tells whether it has to run whatever its sources are: it has never run,
    /// holds `cycle` of an earlier generation, or holds another outcome and was rewired since. It is a counted step.
    #[inline(always)]
    pub fn begin_stale(&mut self, id: NodeId) -> bool
        requires live { is_computed (standing self.old.state.signals id) ≡ true }
        requires idle { is_computing self.old.state id ≡ false }
        ensures stale { result ≡ is_stale self.old.state.memos id }
        ensures after { Becomes self.old self.new (with_look (with_progress self.old.state id (Some []))) }
        ensures begun { progress_at id self.new.state.progress ≡ Some [] }
        ensures seats { self.new.seats ≡ self.old.seats }
    {
        let stale = self.begun_stale(id);
        count(&mut self.looked);
        stale
    }

    /// The answer of a computed's recipe to the values known so far, which begin with those of the last such call of this
    /// evaluation: a formula's answer, whose outcome goes where one stands, or the place of the host formula that is to be asked. It is a
    /// counted step. Without memory the graph may only be dropped.
    pub fn recipe(
        &mut self,
        id: NodeId,
        known: &[Known],
        outcome: &mut Outcome,
    ) -> Result<Asked, NoMemory>
        requires { GoesOn (progress_at id self.old.state.progress) known.now }
        ensures answer { IfOk result (λ a. IsAnswerHere (standing self.old.state.signals id) known.now a outcome.new) }
        ensures judged { IfOk result (λ a. IsJudgedAnswer (length (slots_here (standing self.old.state.signals id))) known.now a) }
        ensures after { OnOk result (Becomes self.old self.new (with_look (with_progress self.old.state id (Some known.now)))) }
        ensures seats { OnOk result (self.new.seats ≡ self.old.seats) }
    {
        let _count = self.nodes.made();
        count(&mut self.looked);
        let answer = ask_at(self.alloc, &mut self.nodes, id, known, outcome)?;
        Ok(answer)
    }

    /// Goes on with the evaluation of a computed's formula as long as the slot that it needs next is read without a look below: its signal is
    /// no computed, or one that is neither being evaluated nor has anything to be settled first, and shows a good value. Each is put behind
    /// what is known and what was read. It tells what the formula comes to: its end, and then its outcome stands in its place, or a slot that
    /// isn't read so. A host formula, and one of many operations, are left to `recipe`. Each answer that it goes on with, or that it tells, is
    /// a counted step. What it read, that the lists stay as even as they were, what it came to, the names, the steps and the graph are told
    /// apart.
    #[inline(always)]
    pub fn read_on(
        &mut self,
        id: NodeId,
        known: &mut Vec<Known>,
        reads: &mut Vec<NodeId>,
        outcome: &mut Outcome,
    ) -> Result<Reached, NoMemory>
        ensures read { OnOk result (HasReadOn self.old.state id known.old.items reads.old.items known.new.items reads.new.items) }
        ensures even { length known.new.items + length reads.old.items ≡ length known.old.items + length reads.new.items }
        ensures reached { IfOk result (λ r. IsReachedHere r (standing self.old.state.signals id) known.new.items outcome.new) }
        ensures given { OnOk result (All (λ n. is_given self.old n ≡ true) reads.old.items → All (λ n. is_given self.old n ≡ true) reads.new.items) }
        ensures steps { IfOk result (λ r. self.new.state.looked + length known.old.items ≤ self.old.state.looked + length known.new.items + reached_steps r) }
        ensures after { OnOk result (Becomes self.old self.new (record self.old.state { looked = self.new.state.looked })) }
        ensures seats { OnOk result (self.new.seats ≡ self.old.seats) }
    {
        let _count = self.nodes.made();
        let Some(computation) = computation_at(&self.nodes, id) else {
            return Ok(Reached::Left);
        };
        let reached = read_slots(
            &self.nodes,
            &self.marks,
            computation,
            known,
            reads,
            outcome,
            &mut self.looked,
        )?;
        Ok(reached)
    }

    /// Reads a slot that a computed's formula has asked for, where its signal is a certain one, which is read at once, as `read_on` reads it, and
    /// puts it behind what is known and what was read. Whether it did: else nothing changes, and so it is where a host formula has asked. It is
    /// no counted step. Without memory the two lists may only be dropped.
    #[inline(always)]
    pub fn read_slot(
        &self,
        id: NodeId,
        slot: u32,
        signal: NodeId,
        known: &mut Vec<Known>,
        reads: &mut Vec<NodeId>,
    ) -> Result<bool, NoMemory>
        ensures read { IfOk result (λ b. IsReadOne b self.now.state id slot known.old.items reads.old.items known.new.items reads.new.items) }
        ensures even { length known.new.items + length reads.old.items ≡ length known.old.items + length reads.new.items }
        ensures given { IfOk result (λ b. All (λ n. is_given self.now n ≡ true) reads.old.items → All (λ n. is_given self.now n ≡ true) reads.new.items) }
    {
        let _count = self.nodes.made();
        let Some(computation) = computation_at(&self.nodes, id) else {
            return Ok(false);
        };
        let Some(_formula) = computation.formula() else {
            return Ok(false);
        };
        if !stands_for(computation, slot, signal) {
            return Ok(false);
        }
        let read = read_ready(&self.nodes, &self.marks, computation, slot, known, reads)?;
        Ok(read)
    }

    /// Changes three lists, for what is known, read and visited in a settling, for the graph's own, which are empty and have the room of those
    /// that were left there before. It takes no memory.
    pub fn swap_lists(
        &mut self,
        known: &mut Vec<Known>,
        reads: &mut Vec<NodeId>,
        visited: &mut Vec<NodeId>,
    )
        ensures known { known.new.items ≡ [] }
        ensures reads { reads.new.items ≡ [] }
        ensures visited { visited.new.items ≡ [] }
        ensures same { self.new ≡ self.old }
    {
        let _count = self.nodes.made();
        self.spares.swap(known, reads, visited);
    }

    /// Whether a computed doesn't hold `cycle`, and its kept source at a place has another number than the one that was read, or is
    /// computing. Where it doesn't hold `cycle` it is a counted step.
    pub fn compare(&mut self, id: NodeId, place: usize) -> bool
        requires { place < length (sources_of self.old.state.memos id) }
        ensures moved { result ≡ (not (holds_cycle self.old.state.memos id) && has_moved self.old.state (slice_get (sources_of self.old.state.memos id) place)) }
        ensures after { Becomes self.old self.new (if holds_cycle self.old.state.memos id then self.old.state else with_look self.old.state) }
        ensures seats { self.new.seats ≡ self.old.seats }
    {
        match compared_at(&self.nodes, id, place) {
            Some(moved) => {
                count(&mut self.looked);
                moved
            }
            None => false,
        }
    }

    // Ends an evaluation with a run, by the list of what it read.
    fn keep_list(&mut self, id: NodeId, outcome: Outcome, reads: IdList) -> Result<(), NoMemory>
        requires computing { is_computing self.old.state id ≡ true }
        requires given { All (λ n. is_given self.old n ≡ true) reads.items }
        requires worn { CanWear self.old.state }
        ensures after { OnOk result (Becomes self.old self.new (with_kept_run self.old.state id outcome reads.items)) }
        ensures seats { OnOk result (self.new.seats ≡ self.old.seats) }
    {
        let _count = self.nodes.made();
        let ids = reads.as_slice();
        let mut numbers = Vec::new(self.alloc);
        let marked = look_over(&mut numbers, &self.nodes, &self.marks, ids)?;
        relink(&self.nodes, &mut self.marks, id, ids)?;
        let unmarks = run_unmarks(&outcome, marked);
        end_mark(&mut self.marks, id, unmarks);
        self.worn += 1;
        let memo = Memo::new(outcome, reads, numbers, self.generation);
        keep_memo_at(&mut self.nodes, id, memo);
        Ok(())
    }

    /// Ends an evaluation with a run: the computed keeps its outcome, and what it read with the present numbers. Its own number
    /// rises where it kept no such outcome. Without memory the graph may only be dropped.
    pub fn keep_run(
        &mut self,
        id: NodeId,
        outcome: Outcome,
        reads: Vec<NodeId>,
    ) -> Result<(), NoMemory>
        requires computing { is_computing self.old.state id ≡ true }
        requires given { All (λ n. is_given self.old n ≡ true) reads.items }
        requires worn { CanWear self.old.state }
        ensures after { OnOk result (Becomes self.old self.new (with_kept_run self.old.state id outcome reads.items)) }
        ensures seats { OnOk result (self.new.seats ≡ self.old.seats) }
    {
        let reads = IdList::of(self.alloc, reads)?;
        self.keep_list(id, outcome, reads)?;
        Ok(())
    }

    // Ends an evaluation with a run that read exactly what the kept one did, and gives the list of it, none where it read something else: then
    // nothing changes. Its clauses are those of any run, beside that.
    fn keep_again(
        &mut self,
        id: NodeId,
        outcome: &Outcome,
        reads: &[NodeId],
    ) -> Result<Option<IdList>, NoMemory>
        requires computing { is_computing self.old.state id ≡ true }
        requires given { All (λ n. is_given self.old n ≡ true) reads.now }
        requires worn { CanWear self.old.state }
        ensures list { IfOk result (λ o. IfSome o (λ l. l.items ≡ reads.now)) }
        ensures after { IfOk result (λ o. IfSome o (λ l. Becomes self.old self.new (with_kept_run self.old.state id outcome.now reads.now))) }
        ensures seats { IfOk result (λ o. IfSome o (λ l. self.new.seats ≡ self.old.seats)) }
        ensures other { IfOk result (λ o. IfNone o (self.new ≡ self.old)) }
    {
        let _count = self.nodes.made();
        let marked = look_over(&mut self.room, &self.nodes, &self.marks, reads)?;
        let Some(list) = renew_memo_at(
            &mut self.nodes,
            id,
            outcome,
            reads,
            &mut self.room,
            self.generation,
        )?
        else {
            return Ok(None);
        };
        let unmarks = run_unmarks(outcome, marked);
        end_mark(&mut self.marks, id, unmarks);
        self.worn += 1;
        Ok(Some(list))
    }

    // Ends an evaluation with a run, and gives what it read in a new list. It stands apart, as most runs read what the ones before did.
    #[inline(never)]
    fn keep_anew(
        &mut self,
        id: NodeId,
        outcome: &Outcome,
        reads: &[NodeId],
    ) -> Result<IdList, NoMemory>
        requires computing { is_computing self.old.state id ≡ true }
        requires given { All (λ n. is_given self.old n ≡ true) reads.now }
        requires worn { CanWear self.old.state }
        ensures list { IfOk result (λ l. l.items ≡ reads.now) }
        ensures after { OnOk result (Becomes self.old self.new (with_kept_run self.old.state id outcome.now reads.now)) }
        ensures seats { OnOk result (self.new.seats ≡ self.old.seats) }
    {
        let ids = copied(self.alloc, reads)?;
        let list = IdList::of(self.alloc, ids)?;
        let kept = list.copy()?;
        let same = outcome.copy()?;
        self.keep_list(id, same, kept)?;
        Ok(list)
    }

    /// Ends an evaluation with a run, as `keep_run` does, and gives what it read in the list that is kept: that of the kept run, where it
    /// read the same.
    pub fn keep_reads(
        &mut self,
        id: NodeId,
        outcome: &Outcome,
        reads: &[NodeId],
    ) -> Result<IdList, NoMemory>
        requires computing { is_computing self.old.state id ≡ true }
        requires given { All (λ n. is_given self.old n ≡ true) reads.now }
        requires worn { CanWear self.old.state }
        ensures list { IfOk result (λ l. l.items ≡ reads.now) }
        ensures after { OnOk result (Becomes self.old self.new (with_kept_run self.old.state id outcome.now reads.now)) }
        ensures seats { OnOk result (self.new.seats ≡ self.old.seats) }
    {
        let Some(list) = self.keep_again(id, outcome, reads)? else {
            return self.keep_anew(id, outcome, reads);
        };
        Ok(list)
    }

    /// Ends an evaluation without a run.
    pub fn stop(&mut self, id: NodeId)
        requires { is_computing self.old.state id ≡ true }
        ensures after { Becomes self.old self.new (with_progress self.old.state id None) }
        ensures seats { self.new.seats ≡ self.old.seats }
    {
        let _count = self.nodes.made();
        let unmarks = stop_unmarks(&self.nodes, self.generation, &self.marks, id);
        end_mark(&mut self.marks, id, unmarks);
        end_at(&mut self.nodes, id);
    }
}

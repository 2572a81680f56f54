// The frames of computeds that are being evaluated, and what one step of a frame comes to.
ghost use Rattle.std.specs.Prelude.{◌≡◌, ◌++◌, [], ◌∷◌, true, IfOk, OnOk};
ghost use Rattle.sig_base.specs.declared.value.Outcome.TheVariants.{Good};
ghost use Rattle.signal_model.specs.Signals.{standing};
ghost use Rattle.signal_model.specs.Sound.{names_of};
ghost use Rattle.signal_model.specs.Values.{learnt};
ghost use Rattle.sig_nodes.specs.declared.answers.Asked.TheVariants.{Ended};
ghost use Rattle.sig_nodes.specs.Answers.{IsAnswerHere};
ghost use Rattle.sig_computed.specs.Reading.{HasGoneOn, IsToldWhere, is_ended, reached_phase};
ghost use Rattle.sig_computed.specs.Steps.{Running};
ghost use Rattle.sig_computed.specs.Views.{blank_phase, frame_of, held, outer_of, outer_phase, phase_of, tops};

use sig_base::{Fault, Known, NoMemory, NodeId, Outcome, Value};
use sig_graph::{Graph, Reached, clear_few};
use std::alloc::Global;
use std::marker::Model;
use std::mem;

/// What a run has learnt: the slots that are known, and what was read. A source that is read makes a slot known, or else ends the run, so
/// that the ids are enough: what each was read as is the value of its slot.
#[derive(Drop)]
pub(crate) struct Learnt {
    known: Vec<Known>,
    reads: Vec<NodeId>,
}

impl Model for Learnt {
    ghost use Rattle.std.specs.Prelude.{◌≡◌, length};
    ghost use Rattle.sig_computed.specs.Lessons.{Lesson, good_seen};

    ghost Value = { Lesson };

    ghost view = { λ l. record { known = l.known.items; reads = good_seen l.reads.items l.known.items } };

    ghost invariant = { λ l. length l.reads.items ≡ length l.known.items };
}

/// What the frame of a computed is doing.
#[derive(Clone, Copy)]
pub(crate) enum Doing {
    /// It looks at its kept sources, from the one at a place on.
    Looking(usize),
    /// It waits for the source at that place, and then decides by it.
    LookedAt(usize),
    /// It runs.
    Running,
    /// Its recipe has asked for a slot, and it waits for that one.
    Waiting(u32),
}

/// The computed that is evaluated now, the innermost one. What it has learnt counts from the moment on when it runs.
#[derive(Drop)]
pub(crate) struct Open {
    pub(crate) id: NodeId,
    pub(crate) doing: Doing,
    pub(crate) learnt: Learnt,
    /// The signal that has to be settled first, or the source that ended the run, where the turn says so.
    pub(crate) needed: NodeId,
    /// What its run came to, where the turn says so.
    pub(crate) outcome: Outcome,
    // What is put aside next goes into one of these, which held what was put aside before, and leaves its lists for what is learnt
    // meanwhile. So a settling makes as many as wait at once at most.
    spares: Vec<Box<Learnt>>,
}

/// A computed around it, which waits for a source. What it has learnt stands apart, so that a frame is small: none where that is nothing.
#[derive(Drop)]
pub(crate) struct Outer {
    pub(crate) id: NodeId,
    pub(crate) doing: Doing,
    pub(crate) learnt: Option<Box<Learnt>>,
}

/// What one step of a frame comes to. The frame is left in its new phase.
#[derive(Clone, Copy)]
pub(crate) enum Turn {
    GoesOn,
    /// Another computed has to be settled first, which the frame tells.
    Needs,
    /// It is done without a run.
    Stops,
    /// It has run: the frame has what it read, and what it came to.
    Ends,
    /// A source that it read ended the run: the frame tells this one, and what it was read as.
    Falls,
}

impl Learnt {
    /// Nothing.
    pub(crate) fn new(alloc: Global) -> Learnt {
        Learnt {
            known: Vec::new(alloc),
            reads: Vec::new(alloc),
        }
    }

    /// The slots that are known.
    pub(crate) fn known(&self) -> &[Known]
        ensures { result.now ≡ self.now.known }
    {
        &self.known
    }

    /// The signals that were read.
    pub(crate) fn reads(&self) -> &[NodeId]
        ensures { result.now ≡ names_of self.now.reads }
    {
        &self.reads
    }

    // Whether it has learnt nothing.
    #[inline(always)]
    fn is_nothing(&self) -> bool
        ensures known { result ≡ true → self.now.known ≡ [] }
        ensures reads { result ≡ true → self.now.reads ≡ [] }
    {
        self.known.is_empty()
    }

    /// A signal was read as a good value, which makes a slot known.
    pub(crate) fn learn(&mut self, id: NodeId, slot: u32, value: Value) -> Result<(), NoMemory>
        ensures known { OnOk result (self.new.known ≡ learnt self.old.known slot value) }
        ensures reads { OnOk result (self.new.reads ≡ self.old.reads ++ (record { name = id; outcome = Good value }) ∷ []) }
    {
        self.known.reserve(1)?;
        self.reads.push(id)?;
        self.known.push_reserved(Known { slot, value });
        Ok(())
    }

    /// Reads on, as far as the slots that a formula needs are ready, and tells what it came to: where that is its end, its outcome stands in the
    /// place that is handed in.
    #[inline(always)]
    pub(crate) fn read_on(
        &mut self,
        graph: &mut Graph,
        id: NodeId,
        outcome: &mut Outcome,
    ) -> Result<Reached, NoMemory>
        ensures on { IfOk result (λ r. HasGoneOn graph.old graph.new id (Running self.old.known self.old.reads) (reached_phase r self.new) (is_ended r)) }
        ensures ended { IfOk result (λ r. is_ended r ≡ true → IsAnswerHere (standing graph.old.state.signals id) self.new.known Ended outcome.new) }
    {
        let reached = graph.read_on(id, &mut self.known, &mut self.reads, outcome)?;
        Ok(reached)
    }

    /// Reads a slot that was waited for, where a formula asked for it and its signal is a certain one, which is read at once. Whether it did: else
    /// nothing changes.
    pub(crate) fn read_slot(
        &mut self,
        graph: &Graph,
        id: NodeId,
        slot: u32,
        signal: NodeId,
    ) -> Result<bool, NoMemory>
        ensures { IfOk result (λ b. IsToldWhere b graph.now id slot self.old self.new) }
    {
        let read = graph.read_slot(id, slot, signal, &mut self.known, &mut self.reads)?;
        Ok(read)
    }

    /// Exchanges its lists, and a list of ids, for those that the graph keeps, which are empty and have room.
    pub(crate) fn swap_lists(&mut self, graph: &mut Graph, ids: &mut Vec<NodeId>)
        ensures graph { graph.new ≡ graph.old }
        ensures ids { ids.new.items ≡ [] }
    {
        graph.swap_lists(&mut self.known, &mut self.reads, ids);
    }

    // It has learnt nothing. The lists keep their room, so that what is learnt next asks for no memory where that had enough.
    #[inline(always)]
    fn forget(&mut self)
        ensures known { self.new.known ≡ [] }
        ensures reads { self.new.reads ≡ [] }
    {
        if self.known.is_empty() {
            return;
        }
        clear_few(&mut self.known);
        self.reads.clear();
    }
}

impl Open {
    /// A frame that looks at the first source.
    pub(crate) fn new(alloc: Global, id: NodeId) -> Open
        ensures { result.id ≡ id }
    {
        Open {
            id,
            doing: Doing::Looking(0),
            learnt: Learnt::new(alloc),
            needed: id,
            outcome: Outcome::Bad(Fault::Cycle),
            spares: Vec::new(alloc),
        }
    }
}

/// A frame begins to run.
pub(crate) fn begin_run(frame: &mut Open)
    ensures id { frame.new.id ≡ frame.old.id }
    ensures phase { phase_of frame.new.doing frame.new.learnt ≡ Running [] [] }
{
    frame.learnt.forget();
    frame.doing = Doing::Running;
}

// One of those that are there, or else a new one.
fn spare_or_new(alloc: Global, spares: &mut Vec<Box<Learnt>>) -> Result<Box<Learnt>, NoMemory> {
    match spares.pop() {
        Some(learnt) => Ok(learnt),
        None => {
            let learnt = Box::new(alloc, Learnt::new(alloc))?;
            Ok(learnt)
        }
    }
}

// Takes what was learnt, to be kept apart. What stands in its place then doesn't count.
fn put_aside(
    alloc: Global,
    spares: &mut Vec<Box<Learnt>>,
    learnt: &mut Learnt,
) -> Result<Box<Learnt>, NoMemory>
    ensures { IfOk result (λ aside. aside.value ≡ learnt.old) }
{
    let mut aside = spare_or_new(alloc, spares)?;
    mem::swap(&mut *aside, learnt);
    Ok(aside)
}

// What a frame has learnt is kept apart while it waits, unless that is nothing, or it looks, where that doesn't count.
fn take_learnt(alloc: Global, frame: &mut Open) -> Result<Option<Box<Learnt>>, NoMemory>
    ensures phase { IfOk result (λ aside. outer_phase frame.old.doing aside ≡ phase_of frame.old.doing frame.old.learnt) }
    ensures id { OnOk result (frame.new.id ≡ frame.old.id) }
    ensures doing { OnOk result (frame.new.doing ≡ frame.old.doing) }
    ensures needed { OnOk result (frame.new.needed ≡ frame.old.needed) }
{
    match frame.doing {
        Doing::Looking(_) => Ok(None),
        Doing::LookedAt(_) => Ok(None),
        _ => {
            if frame.learnt.is_nothing() {
                return Ok(None);
            }
            let aside = put_aside(alloc, &mut frame.spares, &mut frame.learnt)?;
            Ok(Some(aside))
        }
    }
}

/// The computed that a frame needs is the innermost one from now on, in whatever phase.
pub(crate) fn go_in(alloc: Global, stack: &mut Vec<Outer>, frame: &mut Open) -> Result<(), NoMemory>
    ensures stack { OnOk result (tops stack.new.items ≡ frame_of frame.old ∷ tops stack.old.items) }
    ensures id { OnOk result (frame.new.id ≡ frame.old.needed) }
{
    let learnt = take_learnt(alloc, frame)?;
    stack.push(Outer {
        id: frame.id,
        doing: frame.doing,
        learnt,
    })?;
    frame.id = frame.needed;
    Ok(())
}

// Nothing counts of what was learnt meanwhile: where a frame looks, it doesn't count anyway.
fn take_nothing(doing: Doing, learnt: &mut Learnt)
    ensures { phase_of doing learnt.new ≡ blank_phase doing }
{
    match doing {
        Doing::Looking(_) => {}
        Doing::LookedAt(_) => {}
        _ => learnt.forget(),
    }
}

// Keeps one for the next time in more room, or lets it go where there is no memory. It stands apart, as mostly there is room.
#[inline(never)]
fn keep_more(spares: &mut Vec<Box<Learnt>>, learnt: Box<Learnt>) {
    match spares.push(learnt) {
        Ok(_) => {}
        Err(_) => {}
    }
}

// Keeps one for the next time, or lets it go where there is no room for one more.
#[inline(always)]
fn keep_spare(spares: &mut Vec<Box<Learnt>>, learnt: Box<Learnt>) {
    if spares.len() < spares.capacity() {
        spares.push_reserved(learnt);
        return;
    }
    keep_more(spares, learnt);
}

// What was put aside is again what a frame has learnt, and what it has now is left for the next time. It stands apart, as most frames wait
// before they run.
#[inline(never)]
fn take_back(frame: &mut Open, aside: Box<Learnt>)
    ensures learnt { frame.new.learnt ≡ aside.value }
    ensures id { frame.new.id ≡ frame.old.id }
    ensures doing { frame.new.doing ≡ frame.old.doing }
{
    let mut aside = aside;
    mem::swap(&mut frame.learnt, &mut *aside);
    keep_spare(&mut frame.spares, aside);
}

// A frame is again what it was before it waited.
#[inline(always)]
fn take_up(frame: &mut Open, outer: Outer)
    ensures { frame_of frame.new ≡ outer_of outer }
{
    let Outer { id, doing, learnt } = outer;
    frame.id = id;
    frame.doing = doing;
    match learnt {
        Some(learnt) => take_back(frame, learnt),
        None => take_nothing(doing, &mut frame.learnt),
    }
}

/// The innermost frame is left for the one around it. Whether there is one.
#[inline(always)]
pub(crate) fn go_out(stack: &mut Vec<Outer>, frame: &mut Open) -> bool
    ensures { held result frame.new (tops stack.new.items) ≡ tops stack.old.items }
{
    match stack.pop() {
        Some(outer) => {
            take_up(frame, outer);
            true
        }
        None => false,
    }
}

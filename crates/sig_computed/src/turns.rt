// One step of a frame: a look at a kept source, an answer of the recipe, or a slot that was waited for.
ghost use Rattle.std.specs.Prelude.{◌≡◌, ◌+◌, ◌<◌, ◌^◌, ◌&&◌, not, ℕ, [], true, false, List, Some, None, IfOk, IfSome, OnOk, drop, length, slice_get, slice_index};
ghost use Rattle.signal_model.specs.Recipes.{Hosts, IsJudged};
ghost use Rattle.signal_model.specs.Signals.{is_computed, is_in, standing};
ghost use Rattle.signal_model.specs.Memos.{holds_cycle, sources_of};
ghost use Rattle.signal_model.specs.Marks.{mark_of};
ghost use Rattle.sig_computed.specs.Skips.{compare_steps, look_steps, passed_over, source_steps};
ghost use Rattle.signal_model.specs.Sound.{standing_outcome};
ghost use Rattle.sig_nodes.specs.declared.answers.Standing.TheVariants.{Computed};
ghost use Rattle.sig_nodes.specs.Answers.{answer_here, host_here, kind_here, slots_here};
ghost use Rattle.sig_graph.specs.Looks.{has_moved, is_clean_mark};
ghost use Rattle.sig_graph.specs.SourceLooks.{named};
ghost use Rattle.sig_graph.specs.States.{is_computing, is_given, progress_at};
ghost use Rattle.sig_nodes.specs.Computations.{GoesOn};
ghost use Rattle.sig_computed.specs.Reading.{ComesToRun, HasEnded, HasGoneOn, HasTurned};
ghost use Rattle.sig_computed.specs.Steps.{answered, decided, is_ready, looked, ready_outcome, slot_read, Running};
ghost use Rattle.sig_computed.specs.declared.frames.Doing.TheVariants as doing;
ghost use Rattle.sig_computed.specs.Views.{evaluating, first_moved, first_name, frame_of, move_of, or_cycle, phase_of, progressed, Stays};
ghost use Rattle.sig_computed.specs.Waited.{IsVisitedSource};
ghost use Rattle.sig_computed.specs.Asked.{asked_once, places_by, CanAsk};
ghost use Rattle.sig_computed.specs.Turns.{move_by, move_reads, progress_by, turn_steps, waits, AreReadsGiven, Fits, IsAnswered, IsMove};

use crate::frames::{Doing, Open, Turn, begin_run};
use crate::visited::Visited;
use sig_base::{Known, NoMemory, NodeId, Outcome, Step};
use sig_graph::{Asked, Graph, Reached, SignalLook, SourceLook};
use sig_host::{Lent, Shelf};
use signal_model::judged;
use std::alloc::Global;

/// Looks at a computed that isn't being evaluated: whether it is clean. It is a counted step.
pub(crate) fn is_clean(graph: &mut Graph, id: NodeId) -> bool
    requires live { is_computed (standing graph.old.state.signals id) ≡ true }
    ensures clean { result ≡ is_clean_mark (mark_of graph.old.state.signals graph.old.state.memos id) }
    ensures after { Stays graph.old graph.new graph.old.state.progress 1 }
{
    graph.is_clean(id)
}

// Whether a computed that isn't being evaluated needs no settling first: it was visited, or is clean. Where it is told already whether it is
// clean, it needs no look.
#[inline(always)]
fn is_settled(
    graph: &mut Graph,
    visited: &mut Visited,
    id: NodeId,
    told: Option<bool>,
) -> Result<bool, NoMemory>
    requires idle { Computed ≡ kind_here (standing graph.old.state.signals id) (is_computing graph.old.state id) }
    requires told { IfSome told (λ b. b ≡ is_clean_mark (mark_of graph.old.state.signals graph.old.state.memos id)) }
    ensures ready { IfOk result (λ b. b ≡ is_ready (standing graph.old.state.signals id) (is_in id (evaluating graph.old.state)) (is_in id (passed_over graph.old.state.signals graph.old.state.memos visited.old))) }
    ensures after { OnOk result (Stays graph.old graph.new graph.old.state.progress (look_steps (standing graph.old.state.signals id) (is_in id (evaluating graph.old.state)) (is_in id visited.old))) }
    ensures visited { OnOk result ((m : ℕ) → is_in m visited.new ≡ is_in m visited.old) }
{
    let has = visited.has(id)?;
    if has {
        return Ok(true);
    }
    match told {
        Some(clean) => {
            graph.count_step();
            Ok(clean)
        }
        None => Ok(is_clean(graph, id)),
    }
}

// Whether a source needs no settling first: it is no computed, is being evaluated, was visited, or is clean. Mostly one look tells whether it
// is clean.
fn is_ready(graph: &mut Graph, visited: &mut Visited, id: NodeId) -> Result<bool, NoMemory>
    ensures ready { IfOk result (λ b. b ≡ is_ready (standing graph.old.state.signals id) (is_in id (evaluating graph.old.state)) (is_in id (passed_over graph.old.state.signals graph.old.state.memos visited.old))) }
    ensures after { OnOk result (Stays graph.old graph.new graph.old.state.progress (look_steps (standing graph.old.state.signals id) (is_in id (evaluating graph.old.state)) (is_in id visited.old))) }
    ensures visited { OnOk result ((m : ℕ) → is_in m visited.new ≡ is_in m visited.old) }
{
    match graph.look_at(id) {
        SignalLook::Idle(told) => is_settled(graph, visited, id, told),
        SignalLook::Other => Ok(true),
    }
}

// A frame goes on once a source is ready: its computed runs where that has moved, and else looks at the next.
fn go_on(frame: &mut Open, place: usize, moved: bool) -> Turn
    requires { place < 18446744073709551615 }
    ensures turn { move_of result frame.new ≡ decided false moved place }
    ensures id { frame.new.id ≡ frame.old.id }
    ensures given { move_reads (move_of result frame.new) ≡ [] }
    ensures steps { compare_steps (move_of result frame.new) ≡ 1 }
{
    if moved {
        begin_run(frame);
        return Turn::GoesOn;
    }
    frame.doing = Doing::Looking(place + 1);
    Turn::GoesOn
}

// A source that is ready is compared, and decides. Mostly the look at a source has compared it, so this stands apart.
#[inline(never)]
fn decide(graph: &mut Graph, frame: &mut Open, place: usize) -> Turn
    requires inside { place < length (sources_of graph.old.state.memos frame.old.id) }
    requires small { place < 18446744073709551615 }
    ensures turn { move_of result frame.new ≡ decided (holds_cycle graph.old.state.memos frame.old.id) (first_moved graph.old.state.memos (evaluating graph.old.state) (drop place (sources_of graph.old.state.memos frame.old.id))) place }
    ensures id { frame.new.id ≡ frame.old.id }
    ensures given { move_reads (move_of result frame.new) ≡ [] }
    ensures after { Stays graph.old graph.new graph.old.state.progress (compare_steps (move_of result frame.new)) }
{
    let moved = graph.compare(frame.id, place);
    go_on(frame, place, moved)
}

// A look into a computed among the kept sources that isn't being evaluated. Its clauses are those of any look, beside what is known of the
// computed.
#[inline(always)]
fn look_into(
    graph: &mut Graph,
    visited: &mut Visited,
    frame: &mut Open,
    place: usize,
    id: NodeId,
    told: Option<bool>,
) -> Result<Turn, NoMemory>
    requires name { Some id ≡ first_name (drop place (sources_of graph.old.state.memos frame.old.id)) }
    requires inside { place < length (sources_of graph.old.state.memos frame.old.id) }
    requires small { place < 18446744073709551615 }
    requires idle { Computed ≡ kind_here (standing graph.old.state.signals id) (is_computing graph.old.state id) }
    requires told { IfSome told (λ b. b ≡ is_clean_mark (mark_of graph.old.state.signals graph.old.state.memos id)) }
    ensures turn { IfOk result (λ t. move_of t frame.new ≡ looked graph.old.state.signals graph.old.state.memos (evaluating graph.old.state) (passed_over graph.old.state.signals graph.old.state.memos visited.old) (holds_cycle graph.old.state.memos frame.old.id) place (drop place (sources_of graph.old.state.memos frame.old.id))) }
    ensures id { OnOk result (frame.new.id ≡ frame.old.id) }
    ensures given { IfOk result (λ t. move_reads (move_of t frame.new) ≡ []) }
    ensures after { IfOk result (λ t. Stays graph.old graph.new graph.old.state.progress (source_steps graph.old.state.signals (evaluating graph.old.state) visited.old (drop place (sources_of graph.old.state.memos frame.old.id)) (move_of t frame.new))) }
    ensures visited { OnOk result ((m : ℕ) → is_in m visited.new ≡ is_in m visited.old) }
{
    let ready = is_settled(graph, visited, id, told)?;
    if !ready {
        frame.doing = Doing::LookedAt(place);
        frame.needed = id;
        return Ok(Turn::Needs);
    }
    Ok(decide(graph, frame, place))
}

// A source of which is known whether it has moved decides, where it needs no settling.
fn compared(graph: &mut Graph, frame: &mut Open, place: usize, moved: bool) -> Turn
    requires small { place < 18446744073709551615 }
    requires moved { moved ≡ (not (holds_cycle graph.old.state.memos frame.old.id) && has_moved graph.old.state (slice_get (sources_of graph.old.state.memos frame.old.id) place)) }
    ensures turn { (visited : List ℕ) (name : ℕ) → named (slice_get (sources_of graph.old.state.memos frame.old.id) place) ≡ Some name →
        is_ready (standing graph.old.state.signals name) (is_in name (evaluating graph.old.state)) (is_in name (passed_over graph.old.state.signals graph.old.state.memos visited)) ≡ true →
        move_of result frame.new ≡ looked graph.old.state.signals graph.old.state.memos (evaluating graph.old.state) (passed_over graph.old.state.signals graph.old.state.memos visited) (holds_cycle graph.old.state.memos frame.old.id) place (drop place (sources_of graph.old.state.memos frame.old.id)) }
    ensures id { frame.new.id ≡ frame.old.id }
    ensures given { move_reads (move_of result frame.new) ≡ [] }
    ensures after { (visited : List ℕ) (name : ℕ) → named (slice_get (sources_of graph.old.state.memos frame.old.id) place) ≡ Some name →
        Stays graph.old graph.new graph.old.state.progress (source_steps graph.old.state.signals (evaluating graph.old.state) visited (drop place (sources_of graph.old.state.memos frame.old.id)) (move_of result frame.new)) }
{
    graph.count_step();
    go_on(frame, place, moved)
}

// A look at the kept sources from a place on.
#[inline(always)]
fn look(
    graph: &mut Graph,
    visited: &mut Visited,
    frame: &mut Open,
    place: usize,
) -> Result<Turn, NoMemory>
    ensures turn { IfOk result (λ t. move_of t frame.new ≡ looked graph.old.state.signals graph.old.state.memos (evaluating graph.old.state) (passed_over graph.old.state.signals graph.old.state.memos visited.old) (holds_cycle graph.old.state.memos frame.old.id) place (drop place (sources_of graph.old.state.memos frame.old.id))) }
    ensures id { OnOk result (frame.new.id ≡ frame.old.id) }
    ensures given { IfOk result (λ t. move_reads (move_of t frame.new) ≡ []) }
    ensures after { IfOk result (λ t. Stays graph.old graph.new graph.old.state.progress (source_steps graph.old.state.signals (evaluating graph.old.state) visited.old (drop place (sources_of graph.old.state.memos frame.old.id)) (move_of t frame.new))) }
    ensures visited { OnOk result ((m : ℕ) → is_in m visited.new ≡ is_in m visited.old) }
{
    match graph.look_at_source(frame.id, place) {
        SourceLook::Past => Ok(Turn::Stops),
        SourceLook::Due(id) => look_into(graph, visited, frame, place, id, Some(false)),
        SourceLook::Marked(id) => look_into(graph, visited, frame, place, id, None),
        SourceLook::Ready(moved) => Ok(compared(graph, frame, place, moved)),
    }
}

// Whether the kept source at a place has moved, where that is what was visited last; none else.
#[inline(always)]
fn moved_last(graph: &Graph, visited: &Visited, id: NodeId, place: usize) -> Option<bool>
    ensures source { IfSome result (λ m. IsVisitedSource graph.now.state visited.now id (slice_get (sources_of graph.now.state.memos id) place) m) }
    ensures next { IfSome result (λ m. place + 1 < 2 ^ 64) }
{
    let last = visited.last()?;
    let moved = graph.moved_source(id, place, last)?;
    Some(moved)
}

// A look at a source as `look` makes it; it stands apart, as it is rare here.
#[inline(never)]
fn look_anew(
    graph: &mut Graph,
    visited: &mut Visited,
    frame: &mut Open,
    place: usize,
) -> Result<Turn, NoMemory>
    ensures turn { IfOk result (λ t. move_of t frame.new ≡ looked graph.old.state.signals graph.old.state.memos (evaluating graph.old.state) (passed_over graph.old.state.signals graph.old.state.memos visited.old) (holds_cycle graph.old.state.memos frame.old.id) place (drop place (sources_of graph.old.state.memos frame.old.id))) }
    ensures id { OnOk result (frame.new.id ≡ frame.old.id) }
    ensures given { IfOk result (λ t. move_reads (move_of t frame.new) ≡ []) }
    ensures after { IfOk result (λ t. Stays graph.old graph.new graph.old.state.progress (source_steps graph.old.state.signals (evaluating graph.old.state) visited.old (drop place (sources_of graph.old.state.memos frame.old.id)) (move_of t frame.new))) }
    ensures visited { OnOk result ((m : ℕ) → is_in m visited.new ≡ is_in m visited.old) }
{
    let turn = look(graph, visited, frame, place)?;
    Ok(turn)
}

// A look at the source that was waited for: mostly it was visited last, and is only compared.
#[inline(always)]
fn look_again(
    graph: &mut Graph,
    visited: &mut Visited,
    frame: &mut Open,
    place: usize,
) -> Result<Turn, NoMemory>
    ensures turn { IfOk result (λ t. move_of t frame.new ≡ looked graph.old.state.signals graph.old.state.memos (evaluating graph.old.state) (passed_over graph.old.state.signals graph.old.state.memos visited.old) (holds_cycle graph.old.state.memos frame.old.id) place (drop place (sources_of graph.old.state.memos frame.old.id))) }
    ensures id { OnOk result (frame.new.id ≡ frame.old.id) }
    ensures given { IfOk result (λ t. move_reads (move_of t frame.new) ≡ []) }
    ensures after { IfOk result (λ t. Stays graph.old graph.new graph.old.state.progress (source_steps graph.old.state.signals (evaluating graph.old.state) visited.old (drop place (sources_of graph.old.state.memos frame.old.id)) (move_of t frame.new))) }
    ensures visited { OnOk result ((m : ℕ) → is_in m visited.new ≡ is_in m visited.old) }
{
    match moved_last(graph, visited, frame.id, place) {
        Some(moved) => Ok(compared(graph, frame, place, moved)),
        None => look_anew(graph, visited, frame, place),
    }
}

/// What a source that is ready is read as.
#[inline(always)]
pub(crate) fn outcome_of(graph: &Graph, id: NodeId) -> Result<Outcome, NoMemory>
    ensures { IfOk result (λ o. o ≡ or_cycle (ready_outcome (standing graph.now.state.signals id) (is_in id (evaluating graph.now.state)) (standing_outcome graph.now.state.signals graph.now.state.memos id))) }
{
    graph.shown(id)
}

// A slot is read as an outcome: a good value is told to the recipe, and a fault ends the run.
fn tell(frame: &mut Open, slot: u32, id: NodeId, outcome: Outcome) -> Result<Turn, NoMemory>
    ensures turn { IfOk result (λ t. move_of t frame.new ≡ slot_read slot id (Some outcome) frame.old.learnt.known frame.old.learnt.reads) }
    ensures id { OnOk result (frame.new.id ≡ frame.old.id) }
{
    match outcome {
        Outcome::Good(value) => {
            frame.learnt.learn(id, slot, value)?;
            frame.doing = Doing::Running;
            Ok(Turn::GoesOn)
        }
        Outcome::Bad(fault) => {
            frame.needed = id;
            frame.outcome = Outcome::Bad(fault);
            Ok(Turn::Falls)
        }
    }
}

// The signal of a slot.
fn slot_of(graph: &Graph, node: NodeId, slot: u32) -> NodeId
    requires { slot < length (slots_here (standing graph.now.state.signals node)) }
    ensures id { result ≡ slice_index (slots_here (standing graph.now.state.signals node)) slot }
    ensures given { is_given graph.now result ≡ true }
{
    match graph.slot(node, slot) {
        Some(id) => id,
        None => unreachable!(),
    }
}

// A slot is waited for.
fn wait(
    graph: &mut Graph,
    visited: &mut Visited,
    frame: &mut Open,
    slot: u32,
) -> Result<Turn, NoMemory>
    requires slot { slot < length (slots_here (standing graph.old.state.signals frame.old.id)) }
    requires given { AreReadsGiven graph.old frame.old.learnt.reads }
    ensures turn { IfOk result (λ t. move_of t frame.new ≡ waits graph.old.state.signals graph.old.state.memos (evaluating graph.old.state) (passed_over graph.old.state.signals graph.old.state.memos visited.old) slot (slice_index (slots_here (standing graph.old.state.signals frame.old.id)) slot) frame.old.learnt.known frame.old.learnt.reads) }
    ensures id { OnOk result (frame.new.id ≡ frame.old.id) }
    ensures given { IfOk result (λ t. AreReadsGiven graph.old (move_reads (move_of t frame.new))) }
    ensures after { OnOk result (Stays graph.old graph.new graph.old.state.progress (look_steps (standing graph.old.state.signals (slice_index (slots_here (standing graph.old.state.signals frame.old.id)) slot)) (is_in (slice_index (slots_here (standing graph.old.state.signals frame.old.id)) slot) (evaluating graph.old.state)) (is_in (slice_index (slots_here (standing graph.old.state.signals frame.old.id)) slot) visited.old))) }
    ensures visited { OnOk result ((m : ℕ) → is_in m visited.new ≡ is_in m visited.old) }
{
    let id = slot_of(graph, frame.id, slot);
    let ready = is_ready(graph, visited, id)?;
    if !ready {
        frame.doing = Doing::Waiting(slot);
        frame.needed = id;
        return Ok(Turn::Needs);
    }
    let outcome = outcome_of(graph, id)?;
    let turn = tell(frame, slot, id, outcome)?;
    Ok(turn)
}

// A host formula has answered.
fn answered(frame: &mut Open, answer: Step) -> Turn
    ensures turn { move_of result frame.new ≡ answered answer frame.old.learnt.known frame.old.learnt.reads }
    ensures id { frame.new.id ≡ frame.old.id }
{
    match answer {
        Step::Done(value) => {
            frame.outcome = Outcome::Good(value);
            Turn::Ends
        }
        Step::Fail(fault) => {
            frame.outcome = Outcome::Bad(fault);
            Turn::Ends
        }
        Step::Read(slot) => {
            frame.doing = Doing::Waiting(slot);
            Turn::GoesOn
        }
    }
}

// What a computed's host formula answers, which is asked now. The answer is told by the meanings by which the shelf answers, and its form
// under any; what the shelf answers, its counts and its asks have a clause each, as the asks are told only where memory was left.
fn host_answer(
    alloc: Global,
    graph: &Graph,
    shelf: &mut Shelf,
    node: NodeId,
    place: usize,
    known: &[Known],
) -> Result<Step, NoMemory>
    requires counted { ⟦<Shelf as Lent>⟧.counted shelf.old }
    requires host { CanAsk (host_here (standing graph.now.state.signals node)) (⟦<Shelf as Lent>⟧.asked shelf.old) }
    requires place { host_here (standing graph.now.state.signals node) ≡ Some place }
    ensures answer { (hosts : Hosts) → ⟦<Shelf as Lent>⟧.answers hosts shelf.old → IfOk result (λ s. s ≡ answer_here hosts (standing graph.now.state.signals node) known.now) }
    ensures judged { IfOk result (λ s. IsJudged (length (slots_here (standing graph.now.state.signals node))) known.now s) }
    ensures answers { (hosts : Hosts) → ⟦<Shelf as Lent>⟧.answers hosts shelf.old → ⟦<Shelf as Lent>⟧.answers hosts shelf.new }
    ensures counted { ⟦<Shelf as Lent>⟧.counted shelf.new }
    ensures asked { OnOk result (⟦<Shelf as Lent>⟧.asked shelf.new ≡ asked_once (host_here (standing graph.now.state.signals node)) (⟦<Shelf as Lent>⟧.asked shelf.old)) }
{
    let step = shelf.ask(alloc, place, known)?;
    Ok(judged(graph.slots(node).len(), known, step))
}

// A recipe is asked with what is known: a formula's outcome goes where that of the frame stands. The turn is told by the meanings of the host formulas, in its form under any, and by the ids that
// it read; the frame and the graph have clauses of their own, and so have what the shelf answers, its counts and its asks.
fn run(
    alloc: Global,
    graph: &mut Graph,
    shelf: &mut Shelf,
    frame: &mut Open,
) -> Result<Turn, NoMemory>
    requires known { GoesOn (progress_at frame.old.id graph.old.state.progress) frame.old.learnt.known }
    requires given { AreReadsGiven graph.old frame.old.learnt.reads }
    requires counted { ⟦<Shelf as Lent>⟧.counted shelf.old }
    requires host { CanAsk (host_here (standing graph.old.state.signals frame.old.id)) (⟦<Shelf as Lent>⟧.asked shelf.old) }
    ensures turn { (hosts : Hosts) → ⟦<Shelf as Lent>⟧.answers hosts shelf.old → IfOk result (λ t. move_of t frame.new ≡ answered (answer_here hosts (standing graph.old.state.signals frame.old.id) frame.old.learnt.known) frame.old.learnt.known frame.old.learnt.reads) }
    ensures id { OnOk result (frame.new.id ≡ frame.old.id) }
    ensures some { IfOk result (λ t. IsAnswered (slots_here (standing graph.old.state.signals frame.old.id)) frame.old.learnt.known frame.old.learnt.reads (move_of t frame.new)) }
    ensures given { IfOk result (λ t. AreReadsGiven graph.old (move_reads (move_of t frame.new))) }
    ensures after { OnOk result (Stays graph.old graph.new (progressed frame.old.id (Some frame.old.learnt.known) graph.old.state.progress) 1) }
    ensures answers { (hosts : Hosts) → ⟦<Shelf as Lent>⟧.answers hosts shelf.old → OnOk result (⟦<Shelf as Lent>⟧.answers hosts shelf.new) }
    ensures counted { OnOk result (⟦<Shelf as Lent>⟧.counted shelf.new) }
    ensures asked { OnOk result (⟦<Shelf as Lent>⟧.asked shelf.new ≡ asked_once (host_here (standing graph.old.state.signals frame.old.id)) (⟦<Shelf as Lent>⟧.asked shelf.old)) }
{
    let asked = graph.recipe(frame.id, frame.learnt.known(), &mut frame.outcome)?;
    match asked {
        Asked::Slot(slot) => {
            frame.doing = Doing::Waiting(slot);
            Ok(Turn::GoesOn)
        }
        Asked::Ended => Ok(Turn::Ends),
        Asked::Host(place) => {
            let answer = host_answer(alloc, graph, shelf, frame.id, place, frame.learnt.known())?;
            Ok(answered(frame, answer))
        }
    }
}

// One step of a frame, which is left in its new phase. Its clauses are those of a recipe that is asked, for any phase: the turn by the
// meanings of the host formulas, in its form and by the ids that it read, the frame, the graph, and what the shelf answers, its counts
// and its asks.
fn turn_of(
    alloc: Global,
    graph: &mut Graph,
    shelf: &mut Shelf,
    visited: &mut Visited,
    frame: &mut Open,
) -> Result<Turn, NoMemory>
    requires fits { Fits graph.old (frame_of frame.old) }
    requires counted { ⟦<Shelf as Lent>⟧.counted shelf.old }
    requires host { CanAsk (host_here (standing graph.old.state.signals frame.old.id)) (⟦<Shelf as Lent>⟧.asked shelf.old) }
    ensures turn { (hosts : Hosts) → ⟦<Shelf as Lent>⟧.answers hosts shelf.old → IfOk result (λ t. move_of t frame.new ≡ move_by hosts graph.old.state.signals graph.old.state.memos (evaluating graph.old.state) (passed_over graph.old.state.signals graph.old.state.memos visited.old) frame.old.id (phase_of frame.old.doing frame.old.learnt)) }
    ensures id { OnOk result (frame.new.id ≡ frame.old.id) }
    ensures some { IfOk result (λ t. IsMove graph.old.state.signals graph.old.state.memos (evaluating graph.old.state) (passed_over graph.old.state.signals graph.old.state.memos visited.old) frame.old.id (phase_of frame.old.doing frame.old.learnt) (move_of t frame.new)) }
    ensures given { IfOk result (λ t. AreReadsGiven graph.old (move_reads (move_of t frame.new))) }
    ensures after { IfOk result (λ t. Stays graph.old graph.new (progress_by frame.old.id (phase_of frame.old.doing frame.old.learnt) graph.old.state.progress) (turn_steps graph.old.state.signals graph.old.state.memos (evaluating graph.old.state) visited.old frame.old.id (phase_of frame.old.doing frame.old.learnt) (move_of t frame.new))) }
    ensures answers { (hosts : Hosts) → ⟦<Shelf as Lent>⟧.answers hosts shelf.old → OnOk result (⟦<Shelf as Lent>⟧.answers hosts shelf.new) }
    ensures counted { OnOk result (⟦<Shelf as Lent>⟧.counted shelf.new) }
    ensures asked { OnOk result (⟦<Shelf as Lent>⟧.asked shelf.new ≡ places_by (standing graph.old.state.signals frame.old.id) (phase_of frame.old.doing frame.old.learnt) (⟦<Shelf as Lent>⟧.asked shelf.old)) }
    ensures visited { OnOk result ((m : ℕ) → is_in m visited.new ≡ is_in m visited.old) }
{
    match frame.doing {
        Doing::Looking(place) => look(graph, visited, frame, place),
        Doing::LookedAt(place) => look_again(graph, visited, frame, place),
        Doing::Running => run(alloc, graph, shelf, frame),
        Doing::Waiting(slot) => wait(graph, visited, frame, slot),
    }
}

// A frame that runs reads on, as far as the slots that its formula needs are ready, and waits for the next where that is told. Whether the
// formula came to its end: the frame has its outcome then.
#[inline(always)]
fn run_on(graph: &mut Graph, frame: &mut Open) -> Result<bool, NoMemory>
    requires { frame.old.doing ≡ doing.Running }
    ensures on { IfOk result (λ ended. HasGoneOn graph.old graph.new frame.old.id (Running frame.old.learnt.known frame.old.learnt.reads) (phase_of frame.new.doing frame.new.learnt) ended) }
    ensures id { OnOk result (frame.new.id ≡ frame.old.id) }
    ensures ended { IfOk result (λ ended. ended ≡ true → HasEnded (standing graph.old.state.signals frame.old.id) frame.new) }
{
    let reached = frame.learnt.read_on(graph, frame.id, &mut frame.outcome)?;
    match reached {
        Reached::Ended => Ok(true),
        Reached::Needs(slot) => {
            frame.doing = Doing::Waiting(slot);
            Ok(false)
        }
        Reached::Left => Ok(false),
    }
}

// A frame that comes back to the slot that it waits for, whose signal was settled last, reads that one where it is ready, and runs then.
#[inline(always)]
fn come_back(
    graph: &Graph,
    visited: &Visited,
    frame: &mut Open,
    slot: u32,
) -> Result<bool, NoMemory>
    requires waits { frame.old.doing ≡ doing.Waiting slot }
    ensures run { IfOk result (λ runs. ComesToRun runs graph.now frame.old frame.new) }
    ensures id { OnOk result (frame.new.id ≡ frame.old.id) }
{
    let Some(last) = visited.last() else {
        return Ok(false);
    };
    let read = frame.learnt.read_slot(graph, frame.id, slot, last)?;
    if !read {
        return Ok(false);
    }
    frame.doing = Doing::Running;
    Ok(true)
}

// Whether a frame runs, as one does that comes back to its slot where that is read.
#[inline(always)]
fn comes_to_run(graph: &Graph, visited: &Visited, frame: &mut Open) -> Result<bool, NoMemory>
    requires { Fits graph.now (frame_of frame.old) }
    ensures run { IfOk result (λ runs. ComesToRun runs graph.now frame.old frame.new) }
    ensures id { OnOk result (frame.new.id ≡ frame.old.id) }
{
    match frame.doing {
        Doing::Running => Ok(true),
        Doing::Waiting(slot) => come_back(graph, visited, frame, slot),
        _ => Ok(false),
    }
}

// Where a frame runs, or comes back to the slot that it waits for, it reads on, as far as the slots that its formula needs are ready. Whether
// the formula came to its end: the frame has its outcome then.
#[inline(always)]
fn read_on(graph: &mut Graph, visited: &Visited, frame: &mut Open) -> Result<bool, NoMemory>
    requires { Fits graph.old (frame_of frame.old) }
    ensures on { IfOk result (λ ended. HasGoneOn graph.old graph.new frame.old.id (phase_of frame.old.doing frame.old.learnt) (phase_of frame.new.doing frame.new.learnt) ended) }
    ensures id { OnOk result (frame.new.id ≡ frame.old.id) }
    ensures ended { IfOk result (λ ended. ended ≡ true → HasEnded (standing graph.old.state.signals frame.old.id) frame.new) }
{
    let runs = comes_to_run(graph, visited, frame)?;
    if !runs {
        return Ok(false);
    }
    let ended = run_on(graph, frame)?;
    Ok(ended)
}

/// One turn of a frame: it reads on, and where this hasn't ended its run, it takes a step from the phase that it has come to. The turn, the
/// frame, and what the shelf answers, its counts and its asks have a clause each.
#[inline(always)]
pub(crate) fn next_turn(
    alloc: Global,
    graph: &mut Graph,
    shelf: &mut Shelf,
    visited: &mut Visited,
    frame: &mut Open,
) -> Result<Turn, NoMemory>
    requires fits { Fits graph.old (frame_of frame.old) }
    requires counted { ⟦<Shelf as Lent>⟧.counted shelf.old }
    requires host { CanAsk (host_here (standing graph.old.state.signals frame.old.id)) (⟦<Shelf as Lent>⟧.asked shelf.old) }
    ensures turned { IfOk result (λ t. HasTurned graph.old graph.new (λ hosts. ⟦<Shelf as Lent>⟧.answers hosts shelf.old) (frame_of frame.old) visited.old (move_of t frame.new)) }
    ensures id { OnOk result (frame.new.id ≡ frame.old.id) }
    ensures answers { (hosts : Hosts) → ⟦<Shelf as Lent>⟧.answers hosts shelf.old → OnOk result (⟦<Shelf as Lent>⟧.answers hosts shelf.new) }
    ensures counted { OnOk result (⟦<Shelf as Lent>⟧.counted shelf.new) }
    ensures asked { OnOk result (⟦<Shelf as Lent>⟧.asked shelf.new ≡ places_by (standing graph.old.state.signals frame.old.id) (phase_of frame.old.doing frame.old.learnt) (⟦<Shelf as Lent>⟧.asked shelf.old)) }
    ensures visited { OnOk result ((m : ℕ) → is_in m visited.new ≡ is_in m visited.old) }
{
    let ended = read_on(graph, visited, frame)?;
    if ended {
        return Ok(Turn::Ends);
    }
    let turn = turn_of(alloc, graph, shelf, visited, frame)?;
    Ok(turn)
}

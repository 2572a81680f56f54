// Settling by a loop over a stack of frames, so its depth rests on no machine stack.
ghost use Rattle.std.specs.Prelude.{◌≡◌, ◌+◌, ◌*◌, ◌<◌, ◌≤◌, ◌^◌, ◌++◌, ◌∷◌, ℕ, [], List, true, false, None, Some, IfOk, IfSome, OnOk, map, reverse, length, vec_capacity, vec_len};
ghost use Rattle.std.specs.List.{All};
ghost use Rattle.sig_base.specs.declared.value.Outcome.{Outcome};
ghost use Rattle.sig_base.specs.declared.value.Outcome.TheVariants.{Good};
ghost use Rattle.sig_base.specs.declared.value.Value.TheVariants.{Int};
ghost use Rattle.signal_model.specs.Recipes.{Hosts};
ghost use Rattle.signal_model.specs.Signals.{is_computed, is_in, standing};
ghost use Rattle.signal_model.specs.Values.{value_of, Seen};
ghost use Rattle.signal_model.specs.Kept.{AreKept};
ghost use Rattle.signal_model.specs.Sound.{names_of, standing_outcome};
ghost use Rattle.sig_graph.specs.States.{is_computing, is_given, progress_at, CanWear};
ghost use Rattle.sig_computed.specs.Steps.{frame_names, new_frame};
ghost use Rattle.sig_host.specs.Hosts.{most_asked};
ghost use Rattle.sig_computed.specs.Asked.{AreThere};
ghost use Rattle.sig_computed.specs.Notes.{note_of, HasRoom, IsIdle};
ghost use Rattle.sig_computed.specs.Scenes.{scene, CanSettle, Settles};
ghost use Rattle.sig_computed.specs.Views.{evaluating, evaluation_of, frame_of, held, move_of, progressed, reads_until, tops, Stays};
ghost use Rattle.sig_computed.specs.Turns.{evaluation_note, first_stack, notes_of, stack_after, visited_after, AreReadsGiven, CanMove, HasFirst, IsKept, IsMoved};

use crate::frames::{Doing, Learnt, Open, Outer, Turn, begin_run, go_in, go_out};
use crate::notes::RunNote;
use crate::turns::{is_clean, next_turn, outcome_of};
use crate::visited::Visited;
use sig_base::{Fault, NoMemory, NodeId, Outcome, Value};
use sig_graph::{Graph, IdList, Standing};
use sig_host::{Lent, Shelf};
use std::alloc::Global;
use std::mem;

// Begins the evaluation of a computed: what is stale runs, and all else looks first.
#[inline(always)]
fn begin(graph: &mut Graph, frame: &mut Open)
    requires live { is_computed (standing graph.old.state.signals frame.old.id) ≡ true }
    requires idle { is_computing graph.old.state frame.old.id ≡ false }
    ensures frame { frame_of frame.new ≡ new_frame graph.old.state.memos frame.old.id }
    ensures after { Stays graph.old graph.new (progressed frame.old.id (Some []) graph.old.state.progress) 1 }
    ensures begun { progress_at frame.old.id graph.new.state.progress ≡ Some [] }
{
    if graph.begin_stale(frame.id) {
        begin_run(frame);
        return;
    }
    frame.doing = Doing::Looking(0);
}

// What was read, and behind it the source that ended the run.
fn names_until(alloc: Global, learnt: &Learnt, last: NodeId) -> Result<Vec<NodeId>, NoMemory>
    ensures { (outcome : Outcome) → IfOk result (λ v. v.items ≡ names_of (reads_until learnt.now.reads last outcome)) }
{
    let reads = learnt.reads();
    let mut all = Vec::with_capacity(alloc, reads.len())?;
    all.extend_from_slice(reads)?;
    all.push(last)?;
    Ok(all)
}

// Keeps a run in the graph, by the names of what it read, and gives the list of these that is kept.
fn keep_in(
    graph: &mut Graph,
    node: NodeId,
    names: &[NodeId],
    outcome: &Outcome,
) -> Result<IdList, NoMemory>
    requires computing { is_computing graph.old.state node ≡ true }
    requires given { All (λ n. is_given graph.old n ≡ true) names.now }
    requires worn { CanWear graph.old.state }
    ensures list { IfOk result (λ l. l.items ≡ names.now) }
    ensures kept { OnOk result ((reads : List Seen) → names.now ≡ names_of reads → IsKept graph.old graph.new node (record { reads = reads; outcome = outcome.now })) }
{
    let list = graph.keep_reads(node, outcome, names)?;
    Ok(list)
}

// The whole number that an outcome is, if any.
#[inline(always)]
fn int_of(outcome: &Outcome) -> Option<i64>
    ensures { IfSome result (λ n. outcome.now ≡ Good (Int n)) }
{
    match outcome {
        Outcome::Good(Value::Int(n)) => Some(*n),
        _ => None,
    }
}

// Notes a run in room that is there. The note has the outcome that stood in its place, in which another one stands then.
#[inline(never)]
fn note_other(notes: &mut Vec<RunNote>, id: NodeId, reads: IdList, outcome: &mut Outcome)
    requires { vec_len notes.old < vec_capacity notes.old }
    ensures { notes.new.items ≡ notes.old.items ++ (record { id = id; reads = reads; outcome = outcome.old }) ∷ [] }
{
    let noted = mem::replace(outcome, Outcome::Bad(Fault::Cycle));
    notes.push_reserved(RunNote {
        id,
        reads,
        outcome: noted,
    });
}

// The same, where what stands in the place then doesn't count. A whole number is copied, which is less than to put something in its place.
#[inline(always)]
fn note(notes: &mut Vec<RunNote>, id: NodeId, reads: IdList, outcome: &mut Outcome)
    requires { vec_len notes.old < vec_capacity notes.old }
    ensures { notes.new.items ≡ notes.old.items ++ (record { id = id; reads = reads; outcome = outcome.old }) ∷ [] }
{
    match int_of(outcome) {
        Some(n) => notes.push_reserved(RunNote {
            id,
            reads,
            outcome: Outcome::Good(Value::Int(n)),
        }),
        None => note_other(notes, id, reads, outcome),
    }
}

// Keeps a run by the names of what it read, and notes it: the note has the outcome that stood in its place, and the graph a copy.
#[inline(always)]
fn keep(
    graph: &mut Graph,
    notes: &mut Vec<RunNote>,
    node: NodeId,
    names: &[NodeId],
    outcome: &mut Outcome,
) -> Result<(), NoMemory>
    requires computing { is_computing graph.old.state node ≡ true }
    requires given { All (λ n. is_given graph.old n ≡ true) names.now }
    requires worn { CanWear graph.old.state }
    ensures after { OnOk result ((seen : List Seen) → names.now ≡ names_of seen → IsKept graph.old graph.new node (evaluation_of seen outcome.old)) }
    ensures notes { OnOk result (map note_of notes.new.items ≡ map note_of notes.old.items ++ (record { name = node; reads = names.now; outcome = outcome.old }) ∷ []) }
{
    notes.reserve(1)?;
    let reads = keep_in(graph, node, names, outcome)?;
    note(notes, node, reads, outcome);
    Ok(())
}

// Keeps the run of a frame that has come to its end.
fn keep_ended(graph: &mut Graph, notes: &mut Vec<RunNote>, frame: &mut Open) -> Result<(), NoMemory>
    requires computing { is_computing graph.old.state frame.old.id ≡ true }
    requires given { AreReadsGiven graph.old frame.old.learnt.reads }
    requires worn { CanWear graph.old.state }
    ensures after { OnOk result (IsKept graph.old graph.new frame.old.id (evaluation_of frame.old.learnt.reads frame.old.outcome)) }
    ensures notes { OnOk result (map note_of notes.new.items ≡ map note_of notes.old.items ++ evaluation_note frame.old.id (evaluation_of frame.old.learnt.reads frame.old.outcome) ∷ []) }
    ensures id { OnOk result (frame.new.id ≡ frame.old.id) }
{
    keep(
        graph,
        notes,
        frame.id,
        frame.learnt.reads(),
        &mut frame.outcome,
    )?;
    Ok(())
}

// Keeps the run of a frame that a source has ended, which was read last. It stands apart, as it is rare.
#[inline(never)]
fn keep_fallen(
    alloc: Global,
    graph: &mut Graph,
    notes: &mut Vec<RunNote>,
    frame: &mut Open,
) -> Result<(), NoMemory>
    requires computing { is_computing graph.old.state frame.old.id ≡ true }
    requires given { AreReadsGiven graph.old (reads_until frame.old.learnt.reads frame.old.needed frame.old.outcome) }
    requires worn { CanWear graph.old.state }
    ensures after { OnOk result (IsKept graph.old graph.new frame.old.id (evaluation_of (reads_until frame.old.learnt.reads frame.old.needed frame.old.outcome) frame.old.outcome)) }
    ensures notes { OnOk result (map note_of notes.new.items ≡ map note_of notes.old.items ++ evaluation_note frame.old.id (evaluation_of (reads_until frame.old.learnt.reads frame.old.needed frame.old.outcome) frame.old.outcome) ∷ []) }
    ensures id { OnOk result (frame.new.id ≡ frame.old.id) }
{
    let names = names_until(alloc, &frame.learnt, frame.needed)?;
    keep(graph, notes, frame.id, &names, &mut frame.outcome)?;
    Ok(())
}

// Makes the move of the innermost frame, and tells whether one is left. What it needs of the graph is asked for apart, and the frames, what
// was visited, the notes and the graph are told apart.
fn apply(
    alloc: Global,
    graph: &mut Graph,
    stack: &mut Vec<Outer>,
    visited: &mut Visited,
    notes: &mut Vec<RunNote>,
    frame: &mut Open,
    turn: Turn,
) -> Result<bool, NoMemory>
    requires computing { is_computing graph.old.state frame.old.id ≡ true }
    requires worn { CanWear graph.old.state }
    requires can { CanMove graph.old (move_of turn frame.old) }
    ensures stack { IfOk result (λ going. held going frame.new (tops stack.new.items) ≡ stack_after graph.old.state.memos frame.old.id (move_of turn frame.old) (tops stack.old.items)) }
    ensures visited { (m : ℕ) → OnOk result (is_in m visited.new ≡ is_in m (visited_after frame.old.id (move_of turn frame.old) visited.old)) }
    ensures notes { OnOk result (map note_of notes.new.items ≡ map note_of notes.old.items ++ notes_of frame.old.id (move_of turn frame.old)) }
    ensures graph { OnOk result (IsMoved graph.old graph.new frame.old.id (move_of turn frame.old)) }
{
    match turn {
        Turn::GoesOn => Ok(true),
        Turn::Needs => {
            go_in(alloc, stack, frame)?;
            begin(graph, frame);
            Ok(true)
        }
        Turn::Stops => {
            graph.stop(frame.id);
            visited.add(frame.id)?;
            Ok(go_out(stack, frame))
        }
        Turn::Ends => {
            keep_ended(graph, notes, frame)?;
            visited.add(frame.id)?;
            Ok(go_out(stack, frame))
        }
        Turn::Falls => {
            keep_fallen(alloc, graph, notes, frame)?;
            visited.add(frame.id)?;
            Ok(go_out(stack, frame))
        }
    }
}

// Begins with the computed that is asked for, where it isn't clean. Whether it isn't.
fn first(graph: &mut Graph, frame: &mut Open) -> bool
    requires live { is_computed (standing graph.old.state.signals frame.old.id) ≡ true }
    requires idle { IsIdle graph.old.state }
    ensures stack { held result frame.new [] ≡ first_stack graph.old.state.signals graph.old.state.memos frame.old.id }
    ensures graph { HasFirst graph.old graph.new frame.old.id (held result frame.new []) }
{
    if is_clean(graph, frame.id) {
        return false;
    }
    begin(graph, frame);
    true
}

// Settles a computed. Its clauses are those of settling any signal, but for the value, which is told as what the computed shows then. It
// stands apart since what is no computed needs no frames.
#[inline(never)]
fn bring_up(
    graph: &mut Graph,
    shelf: &mut Shelf,
    id: NodeId,
    notes: &mut Vec<RunNote>,
) -> Result<(), NoMemory>
    requires live { is_computed (standing graph.old.state.signals id) ≡ true }
    requires idle { IsIdle graph.old.state }
    requires worn { HasRoom graph.old.state }
    requires counted { ⟦<Shelf as Lent>⟧.counted shelf.old }
    requires there { AreThere graph.old.state.signals (⟦<Shelf as Lent>⟧.asked shelf.old) }
    requires room { most_asked (⟦<Shelf as Lent>⟧.asked shelf.old) < 2 ^ 127 }
    ensures value { (hosts : Hosts) → ⟦<Shelf as Lent>⟧.answers hosts shelf.old → AreKept hosts graph.old.state.signals graph.old.state.memos →
        OnOk result (standing_outcome graph.new.state.signals graph.new.state.memos id ≡ Some (value_of hosts graph.old.state.signals id [])) }
    ensures settles { OnOk result (Settles
        (scene graph.old (⟦<Shelf as Lent>⟧.asked shelf.old) notes.old.items) (scene graph.new (⟦<Shelf as Lent>⟧.asked shelf.new) notes.new.items)
        (λ hosts. ⟦<Shelf as Lent>⟧.answers hosts shelf.old) (λ hosts. ⟦<Shelf as Lent>⟧.answers hosts shelf.new) (λ _. id ∷ [])) }
    ensures can { CanSettle (scene graph.old (⟦<Shelf as Lent>⟧.asked shelf.old) notes.old.items) →
        OnOk result (CanSettle (scene graph.new (⟦<Shelf as Lent>⟧.asked shelf.new) notes.new.items)) }
    ensures counted { OnOk result (⟦<Shelf as Lent>⟧.counted shelf.new) }
{
    let _made = graph.made();
    let alloc = *notes.allocator();
    let mut visited = Visited::new(alloc);
    let mut stack = Vec::new(alloc);
    let mut frame = Open::new(alloc, id);
    visited.swap_lists(graph, &mut frame.learnt);
    let mut going = first(graph, &mut frame);
    while going {
        let turn = next_turn(alloc, graph, shelf, &mut visited, &mut frame)?;
        going = apply(
            alloc,
            graph,
            &mut stack,
            &mut visited,
            notes,
            &mut frame,
            turn,
        )?;
    }
    visited.swap_lists(graph, &mut frame.learnt);
    Ok(())
}

/// Settles a signal, gone ones too, and gives its outcome, which is its value from scratch. What is kept afterwards and the notes
/// that are put behind are those of settling its name, whatever was set, rewired or disposed before. Host formulas are asked exactly
/// as the runs of this call ask them, each once and once more after each good read. What is clean is passed over at one look, and the
/// counted steps keep to their bound. Signals stay, and nothing is being evaluated before and after. Without memory graph and shelf may
/// only be dropped. What is no computed takes no memory but that of the answer. What graph, shelf and counters have to be is asked for
/// apart; the value needs that what is kept is sound, the settling doesn't, and that more names may be settled is told only where that
/// was known before, so these are clauses apart.
pub fn settle(
    graph: &mut Graph,
    shelf: &mut Shelf,
    id: NodeId,
    notes: &mut Vec<RunNote>,
) -> Result<Outcome, NoMemory>
    requires idle { IsIdle graph.old.state }
    requires worn { HasRoom graph.old.state }
    requires counted { ⟦<Shelf as Lent>⟧.counted shelf.old }
    requires there { AreThere graph.old.state.signals (⟦<Shelf as Lent>⟧.asked shelf.old) }
    requires room { most_asked (⟦<Shelf as Lent>⟧.asked shelf.old) < 2 ^ 127 }
    ensures value { (hosts : Hosts) → ⟦<Shelf as Lent>⟧.answers hosts shelf.old → AreKept hosts graph.old.state.signals graph.old.state.memos →
        IfOk result (λ o. o ≡ value_of hosts graph.old.state.signals id []) }
    ensures settles { OnOk result (Settles
        (scene graph.old (⟦<Shelf as Lent>⟧.asked shelf.old) notes.old.items) (scene graph.new (⟦<Shelf as Lent>⟧.asked shelf.new) notes.new.items)
        (λ hosts. ⟦<Shelf as Lent>⟧.answers hosts shelf.old) (λ hosts. ⟦<Shelf as Lent>⟧.answers hosts shelf.new) (λ _. id ∷ [])) }
    ensures can { CanSettle (scene graph.old (⟦<Shelf as Lent>⟧.asked shelf.old) notes.old.items) →
        OnOk result (CanSettle (scene graph.new (⟦<Shelf as Lent>⟧.asked shelf.new) notes.new.items)) }
    ensures counted { OnOk result (⟦<Shelf as Lent>⟧.counted shelf.new) }
{
    let kind = graph.standing(id);
    match kind {
        Standing::Computed => {
            bring_up(graph, shelf, id, notes)?;
            let outcome = outcome_of(graph, id)?;
            Ok(outcome)
        }
        _ => outcome_of(graph, id),
    }
}

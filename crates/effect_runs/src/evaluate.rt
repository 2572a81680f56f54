// The evaluation of a body.
ghost use Rattle.std.specs.Prelude.{◌≡◌, ◌<◌, length, slice_index, IfOk, OnOk};
ghost use Rattle.signal_model.specs.Recipes.{Hosts};
ghost use Rattle.signal_model.specs.Kept.{AreKept};
ghost use Rattle.signal_model.specs.Sound.{names_of};
ghost use Rattle.effect_model.specs.Bodies.{body_evaluation};
ghost use Rattle.sig_untrack.specs.Links.{Parts};
ghost use Rattle.sig_untrack.specs.Stated.{before, no_bodies, statements_of};
ghost use Rattle.effect_tables.specs.Scripts.{count_of};
ghost use Rattle.effect_runs.specs.Evaluations.{body_seen, HasNames, IsRunOf, IsShort};
ghost use Rattle.sig_computed.specs.Scenes.{scene, CanSettle, Settles};

use crate::at_once::log_at_once;
use crate::run::{BodyEnd, BodyRun, Reading};
use sig_base::{NoMemory, NodeId, Outcome};
use sig_computed::{RunNote, settle};
use sig_graph::Graph;
use sig_host::{Lent, Shelf};
use sig_untrack::{Body, BodyStep, body_step};

// The signal that a slot stands for.
fn slot_name(names: &[NodeId], slot: u32) -> NodeId
    requires { slot < length names.now }
    ensures { result ≡ slice_index names.now slot }
{
    names[slot as usize]
}

// Evaluates a body that may ask for several slots: it is asked again with each value that it reads, until it wants acts done, or a read or a
// formula has a fault. Its clauses are those of each body.
fn ask_on(
    graph: &mut Graph,
    shelf: &mut Shelf,
    body: &Body,
    names: &[NodeId],
    notes: &mut Vec<RunNote>,
) -> Result<BodyRun, NoMemory>
    requires can { CanSettle (scene graph.old (⟦<Shelf as Lent>⟧.asked shelf.old) notes.old.items) }
    requires counted { ⟦<Shelf as Lent>⟧.counted shelf.old }
    requires fit { HasNames body.now names.now }
    ensures run { (hosts : Hosts) (p : Parts) → ⟦<Shelf as Lent>⟧.answers hosts shelf.old → AreKept hosts graph.old.state.signals graph.old.state.memos →
        IfOk result (IsRunOf p (body_evaluation hosts graph.old.state.signals (body_seen p body.now names.now))) }
    ensures after { (p : Parts) → OnOk result (Settles
        (scene graph.old (⟦<Shelf as Lent>⟧.asked shelf.old) notes.old.items) (scene graph.new (⟦<Shelf as Lent>⟧.asked shelf.new) notes.new.items)
        (λ hosts. ⟦<Shelf as Lent>⟧.answers hosts shelf.old) (λ hosts. ⟦<Shelf as Lent>⟧.answers hosts shelf.new)
        (λ hosts. names_of (body_evaluation hosts graph.old.state.signals (body_seen p body.now names.now)).reads)) }
    ensures few { IfOk result (λ r. IsShort (count_of (statements_of (before body.now no_bodies))) r.end) }
    ensures can { OnOk result (CanSettle (scene graph.new (⟦<Shelf as Lent>⟧.asked shelf.new) notes.new.items)) }
    ensures counted { OnOk result (⟦<Shelf as Lent>⟧.counted shelf.new) }
{
    let alloc = *notes.allocator();
    let mut reading = Reading::new(alloc);
    'asking: loop {
        let (slot, tracked) = match body_step(alloc, body, &reading.tracked, &reading.untracked)? {
            BodyStep::Read { slot, tracked } => (slot, tracked),
            BodyStep::Acts(acts) => {
                return Ok(BodyRun {
                    tracked: reading.reads,
                    end: BodyEnd::Acts(acts),
                });
            }
            BodyStep::Fail(fault) => {
                return Ok(BodyRun {
                    tracked: reading.reads,
                    end: BodyEnd::Fail(fault),
                });
            }
        };
        let id = slot_name(names, slot);
        let _count = notes.len();
        match settle(graph, shelf, id, notes)? {
            Outcome::Good(value) => reading.learn(slot, tracked, id, value)?,
            Outcome::Bad(fault) => {
                let run = reading.fail(tracked, id, fault)?;
                return Ok(run);
            }
        }
    }
}

/// Evaluates the body of an effect on the values of its names, one for each slot. It is asked with what it has read, again with each
/// value that it asks for, until it wants acts done, at most one for each of its statements, or a read or a formula has a fault. Each signal
/// that it reads is settled at its place, one that is read untracked and later tracked at both. One that logs a cell, and does nothing else, is
/// read as it stands.
///
/// # Errors
///
/// After `NoMemory` graph and shelf may only be dropped.
pub fn evaluate_body(
    graph: &mut Graph,
    shelf: &mut Shelf,
    body: &Body,
    names: &[NodeId],
    notes: &mut Vec<RunNote>,
) -> Result<BodyRun, NoMemory>
    requires can { CanSettle (scene graph.old (⟦<Shelf as Lent>⟧.asked shelf.old) notes.old.items) }
    requires counted { ⟦<Shelf as Lent>⟧.counted shelf.old }
    requires fit { HasNames body.now names.now }
    ensures run { (hosts : Hosts) (p : Parts) → ⟦<Shelf as Lent>⟧.answers hosts shelf.old → AreKept hosts graph.old.state.signals graph.old.state.memos →
        IfOk result (IsRunOf p (body_evaluation hosts graph.old.state.signals (body_seen p body.now names.now))) }
    ensures after { (p : Parts) → OnOk result (Settles
        (scene graph.old (⟦<Shelf as Lent>⟧.asked shelf.old) notes.old.items) (scene graph.new (⟦<Shelf as Lent>⟧.asked shelf.new) notes.new.items)
        (λ hosts. ⟦<Shelf as Lent>⟧.answers hosts shelf.old) (λ hosts. ⟦<Shelf as Lent>⟧.answers hosts shelf.new)
        (λ hosts. names_of (body_evaluation hosts graph.old.state.signals (body_seen p body.now names.now)).reads)) }
    ensures few { IfOk result (λ r. IsShort (count_of (statements_of (before body.now no_bodies))) r.end) }
    ensures can { OnOk result (CanSettle (scene graph.new (⟦<Shelf as Lent>⟧.asked shelf.new) notes.new.items)) }
    ensures counted { OnOk result (⟦<Shelf as Lent>⟧.counted shelf.new) }
{
    let at_once = log_at_once(*notes.allocator(), graph, body, names)?;
    match at_once {
        Some(logged) => Ok(logged),
        None => {
            let run = ask_on(graph, shelf, body, names, notes)?;
            Ok(run)
        }
    }
}

// A body that logs the value of one cell, and does nothing else, is read as it stands.
ghost use Rattle.std.specs.Prelude.{◌≡◌, ◌∷◌, ◌<◌, [], length, slice_index, IfOk, IfSome};
ghost use Rattle.sig_base.specs.declared.value.Outcome.TheVariants.{Good};
ghost use Rattle.effect_model.specs.Bodies.{to_do, to_log};
ghost use Rattle.sig_untrack.specs.Links.{Parts};
ghost use Rattle.effect_runs.specs.Evaluations.{result_of, HasLogged, IsLogged, IsShort, LogsCell, LogsName};

use crate::run::{BodyEnd, BodyRun};
use sig_base::{NoMemory, NodeId, Outcome, Value};
use sig_graph::Graph;
use sig_untrack::{Act, Body, Read, logged_slot};
use std::alloc::Global;

// The signal that a slot stands for, where there is such a slot.
fn name_at(names: &[NodeId], slot: u32) -> Option<NodeId>
    ensures within { IfSome result (λ n. slot < length names.now) }
    ensures name { IfSome result (λ n. n ≡ slice_index names.now slot) }
{
    let place = slot as usize;
    if place < names.len() {
        return Some(names[place]);
    }
    None
}

// The signal that a body logs, where that is all that it does.
fn logged_name(body: &Body, names: &[NodeId]) -> Option<NodeId>
    ensures { IfSome result (λ n. LogsName n body.now names.now) }
{
    match logged_slot(body) {
        Some(slot) => name_at(names, slot),
        None => None,
    }
}

/// The cell that a body logs: what was read of it, and its value, which is to be logged.
#[derive(Drop)]
pub struct LoggedCell {
    pub read: Read,
    pub value: Value,
}

/// The cell that a body logs, where that is all that it does. Nothing is settled, and the body isn't asked.
///
/// # Errors
///
/// `NoMemory` where memory ran out.
pub fn logged_cell(
    graph: &Graph,
    body: &Body,
    names: &[NodeId],
) -> Result<Option<LoggedCell>, NoMemory>
    ensures { IfOk result (λ o. IfSome o (LogsCell graph.now.state.signals body.now names.now)) }
{
    let Some(id) = logged_name(body, names) else {
        return Ok(None);
    };
    let Some(value) = graph.cell_value(id) else {
        return Ok(None);
    };
    let outcome = Outcome::Good(value.copy()?);
    let value = value.copy()?;
    Ok(Some(LoggedCell {
        read: Read { id, outcome },
        value,
    }))
}

// What was read of a signal.
fn one_read(alloc: Global, id: NodeId, value: &Value) -> Result<Vec<Read>, NoMemory>
    ensures { IfOk result (λ v. v.items ≡ record { name = id; outcome = Good value.now } ∷ []) }
{
    let mut reads = Vec::with_capacity(alloc, 1)?;
    let outcome = Outcome::Good(value.copy()?);
    reads.push(Read { id, outcome })?;
    Ok(reads)
}

// A value is to be logged.
fn one_act(alloc: Global, value: &Value) -> Result<BodyEnd, NoMemory>
    ensures end { IfOk result (λ e. (p : Parts) → result_of p e ≡ to_do (to_log value.now ∷ [])) }
    ensures few { IfOk result (IsShort 1) }
{
    let mut acts = Vec::with_capacity(alloc, 1)?;
    acts.push(Act::Log(value.copy()?))?;
    Ok(BodyEnd::Acts(acts))
}

// What comes of a body that logs what one signal is read as.
fn logged(alloc: Global, id: NodeId, value: &Value) -> Result<BodyRun, NoMemory>
    ensures { IfOk result (IsLogged id value.now) }
{
    let tracked = one_read(alloc, id, value)?;
    let end = one_act(alloc, value)?;
    Ok(BodyRun { tracked, end })
}

/// What comes of a body that logs the value of one cell, and does nothing else. Nothing is settled, and the body isn't asked.
///
/// # Errors
///
/// `NoMemory` where memory ran out.
pub(crate) fn log_at_once(
    alloc: Global,
    graph: &Graph,
    body: &Body,
    names: &[NodeId],
) -> Result<Option<BodyRun>, NoMemory>
    ensures { IfOk result (λ o. IfSome o (HasLogged graph.now.state.signals body.now names.now)) }
{
    let Some(id) = logged_name(body, names) else {
        return Ok(None);
    };
    let Some(value) = graph.cell_value(id) else {
        return Ok(None);
    };
    let run = logged(alloc, id, value)?;
    Ok(Some(run))
}

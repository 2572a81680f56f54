// The evaluation of a formula on what is heard of the names that it asks for.
ghost use Rattle.std.specs.Prelude.{◌≡◌, ◌<◌, ◌++◌, ◌∷◌, [], length, slice_index, IfOk, IfSome, OnOk, Option};
ghost use Rattle.std.specs.Option.{option_copied};
ghost use Rattle.sig_formula.specs.Trees.{tree};
ghost use Rattle.sig_formula.specs.Trees as trees;
ghost use Rattle.sig_formula.specs.declared.formula.RowRef.{RowRef as ARow};
ghost use Rattle.signal_model.specs.Recipes.{recipe_answer, Hosts, IsJudged};
ghost use Rattle.signal_model.specs.Values.{learnt};
ghost use Rattle.sig_base.specs.declared.value.Outcome.TheVariants.{Bad, Good};
ghost use Rattle.tpl_hearing.specs.Heard.{recipe_of, scene, CanSettle, Evaluates, Hears, IsSlot};

use crate::outcomes::{Outcomes, hear};
use sig_base::{Fault, Known, NoMemory, NodeId, Outcome, Step, Value};
use sig_computed::RunNote;
use sig_formula::{Formula, RowRef, step};
use sig_graph::Graph;
use sig_host::{Lent, Shelf};
use signal_model::judged;
use std::alloc::Global;
use std::marker::Model;

/// A name that a formula has read, and its outcome.
#[derive(Drop)]
pub struct Read {
    pub id: NodeId,
    pub outcome: Outcome,
}

impl Model for Read {
    ghost use Rattle.signal_model.specs.Values.{Seen};

    ghost Value = { Seen };

    ghost view = { λ r. record { name = r.id; outcome = r.outcome } };
}

/// What a formula has read, in order, and what it comes to.
#[derive(Drop)]
pub struct Evaluated {
    pub reads: Vec<Read>,
    pub outcome: Outcome,
}

impl Model for Evaluated {
    ghost use Rattle.signal_model.specs.Values.{Evaluation};

    ghost Value = { Evaluation };

    ghost view = { λ e. record { reads = e.reads.items; outcome = e.outcome } };
}

// The name of a slot.
fn slot_name(slots: &[NodeId], slot: u32) -> NodeId
    requires { slot < length slots.now }
    ensures { result ≡ slice_index slots.now slot }
{
    slots[slot as usize]
}

// What a formula with its row answers to the values of its slots that are known so far.
fn answer(
    alloc: Global,
    formula: &Formula,
    row: Option<&RowRef>,
    slots: &[NodeId],
    known: &[Known],
) -> Result<Step, NoMemory>
    requires { IfSome row (λ r. r.now.place < length r.now.rows.rows) }
    ensures answer { (hosts : Hosts) → IfOk result (λ s.
        s ≡ recipe_answer hosts (recipe_of (tree formula.now) (option_copied row.entry) slots.now) known.now) }
    ensures judged { IfOk result (λ s. IsJudged (length slots.now) known.now s) }
{
    let step = step(alloc, formula, row, known)?;
    Ok(judged(slots.len(), known, step))
}

// A value was read.
fn learn(
    known: &mut Vec<Known>,
    reads: &mut Vec<Read>,
    slot: u32,
    id: NodeId,
    value: Value,
) -> Result<(), NoMemory>
    ensures known { OnOk result (known.new.items ≡ learnt known.old.items slot value) }
    ensures reads { OnOk result (reads.new.items ≡ reads.old.items ++ record { name = id; outcome = Good value } ∷ []) }
{
    let outcome = Outcome::Good(value.copy()?);
    known.push(Known { slot, value })?;
    reads.push(Read { id, outcome })?;
    Ok(())
}

// A fault was read, which ends the evaluation.
fn failed(reads: Vec<Read>, id: NodeId, fault: Fault) -> Result<Evaluated, NoMemory>
    ensures { IfOk result (λ e. e ≡ record { reads = reads.items ++ record { name = id; outcome = Bad fault } ∷ []; outcome = Bad fault }) }
{
    let mut reads = reads;
    let outcome = Outcome::Bad(fault);
    reads.push(Read { id, outcome })?;
    Ok(Evaluated {
        reads,
        outcome: Outcome::Bad(fault),
    })
}

// The slot that a formula is and nothing else, where it is one of so many.
fn slot_alone(formula: &Formula, count: usize) -> Option<u32>
    ensures { IfSome result (λ s. IsSlot (tree formula.now) s count) }
{
    match formula {
        Formula::Slot(slot) => {
            if (*slot as usize) < count {
                return Some(*slot);
            }
            None
        }
        _ => None,
    }
}

// One value was read, and it is what the formula comes to.
fn passed(alloc: Global, id: NodeId, value: Value) -> Result<Evaluated, NoMemory>
    ensures { IfOk result (λ e. e ≡ record { reads = record { name = id; outcome = Good value } ∷ []; outcome = Good value }) }
{
    let mut reads = Vec::with_capacity(alloc, 1)?;
    let outcome = Outcome::Good(value.copy()?);
    reads.push(Read { id, outcome })?;
    Ok(Evaluated {
        reads,
        outcome: Outcome::Good(value),
    })
}

// Evaluates a formula that is a slot and nothing else: what its name shows is what it comes to. Its clauses are those of each formula.
fn evaluate_slot(
    alloc: Global,
    graph: &mut Graph,
    shelf: &mut Shelf,
    heard: &mut Outcomes,
    slot: u32,
    slots: &[NodeId],
    notes: &mut Vec<RunNote>,
) -> Result<Evaluated, NoMemory>
    requires inside { slot < length slots.now }
    requires can { CanSettle (scene graph.old (⟦<Shelf as Lent>⟧.asked shelf.old) notes.old.items) }
    requires counted { ⟦<Shelf as Lent>⟧.counted shelf.old }
    ensures evaluated { (row : Option ARow) → IfOk result (λ e. Evaluates (recipe_of (trees.slot slot) row slots.now) e heard.old heard.new) }
    ensures after { OnOk result (Hears
        (scene graph.old (⟦<Shelf as Lent>⟧.asked shelf.old) notes.old.items) (scene graph.new (⟦<Shelf as Lent>⟧.asked shelf.new) notes.new.items)
        (λ hosts. ⟦<Shelf as Lent>⟧.answers hosts shelf.old) (λ hosts. ⟦<Shelf as Lent>⟧.answers hosts shelf.new) heard.old heard.new) }
    ensures can { OnOk result (CanSettle (scene graph.new (⟦<Shelf as Lent>⟧.asked shelf.new) notes.new.items)) }
    ensures counted { OnOk result (⟦<Shelf as Lent>⟧.counted shelf.new) }
{
    let id = slot_name(slots, slot);
    match hear(graph, shelf, heard, id, notes)? {
        Outcome::Good(value) => {
            let evaluated = passed(alloc, id, value)?;
            Ok(evaluated)
        }
        Outcome::Bad(fault) => {
            let evaluated = failed(Vec::new(alloc), id, fault)?;
            Ok(evaluated)
        }
    }
}

// Evaluates a formula that may ask for several slots: it is asked again with each value that it reads. Its clauses are those of each formula.
fn ask_on(
    alloc: Global,
    graph: &mut Graph,
    shelf: &mut Shelf,
    heard: &mut Outcomes,
    formula: &Formula,
    row: Option<&RowRef>,
    slots: &[NodeId],
    notes: &mut Vec<RunNote>,
) -> Result<Evaluated, NoMemory>
    requires place { IfSome row (λ r. r.now.place < length r.now.rows.rows) }
    requires can { CanSettle (scene graph.old (⟦<Shelf as Lent>⟧.asked shelf.old) notes.old.items) }
    requires counted { ⟦<Shelf as Lent>⟧.counted shelf.old }
    ensures evaluated { IfOk result (λ e.
        Evaluates (recipe_of (tree formula.now) (option_copied row.entry) slots.now) e heard.old heard.new) }
    ensures after { OnOk result (Hears
        (scene graph.old (⟦<Shelf as Lent>⟧.asked shelf.old) notes.old.items) (scene graph.new (⟦<Shelf as Lent>⟧.asked shelf.new) notes.new.items)
        (λ hosts. ⟦<Shelf as Lent>⟧.answers hosts shelf.old) (λ hosts. ⟦<Shelf as Lent>⟧.answers hosts shelf.new) heard.old heard.new) }
    ensures can { OnOk result (CanSettle (scene graph.new (⟦<Shelf as Lent>⟧.asked shelf.new) notes.new.items)) }
    ensures counted { OnOk result (⟦<Shelf as Lent>⟧.counted shelf.new) }
{
    let mut known: Vec<Known> = Vec::new(alloc);
    let mut reads: Vec<Read> = Vec::new(alloc);
    'asking: loop {
        let slot = match answer(alloc, formula, row, slots, &known)? {
            Step::Read(slot) => slot,
            Step::Done(value) => {
                return Ok(Evaluated {
                    reads,
                    outcome: Outcome::Good(value),
                });
            }
            Step::Fail(fault) => {
                return Ok(Evaluated {
                    reads,
                    outcome: Outcome::Bad(fault),
                });
            }
        };
        let id = slot_name(slots, slot);
        match hear(graph, shelf, heard, id, notes)? {
            Outcome::Good(value) => learn(&mut known, &mut reads, slot, id, value)?,
            Outcome::Bad(fault) => {
                let evaluated = failed(reads, id, fault)?;
                return Ok(evaluated);
            }
        }
    }
}

/// Evaluates a formula of a line, with the row in which the line stands: it is asked again with each value that it reads, until it ends or
/// a name has a fault. One that is a slot and nothing else isn't asked.
///
/// # Errors
///
/// `NoMemory` alone; names may then have been settled.
pub fn evaluate(
    alloc: Global,
    graph: &mut Graph,
    shelf: &mut Shelf,
    heard: &mut Outcomes,
    formula: &Formula,
    row: Option<&RowRef>,
    slots: &[NodeId],
    notes: &mut Vec<RunNote>,
) -> Result<Evaluated, NoMemory>
    requires place { IfSome row (λ r. r.now.place < length r.now.rows.rows) }
    requires can { CanSettle (scene graph.old (⟦<Shelf as Lent>⟧.asked shelf.old) notes.old.items) }
    requires counted { ⟦<Shelf as Lent>⟧.counted shelf.old }
    ensures evaluated { IfOk result (λ e.
        Evaluates (recipe_of (tree formula.now) (option_copied row.entry) slots.now) e heard.old heard.new) }
    ensures after { OnOk result (Hears
        (scene graph.old (⟦<Shelf as Lent>⟧.asked shelf.old) notes.old.items) (scene graph.new (⟦<Shelf as Lent>⟧.asked shelf.new) notes.new.items)
        (λ hosts. ⟦<Shelf as Lent>⟧.answers hosts shelf.old) (λ hosts. ⟦<Shelf as Lent>⟧.answers hosts shelf.new) heard.old heard.new) }
    ensures can { OnOk result (CanSettle (scene graph.new (⟦<Shelf as Lent>⟧.asked shelf.new) notes.new.items)) }
    ensures counted { OnOk result (⟦<Shelf as Lent>⟧.counted shelf.new) }
{
    let Some(slot) = slot_alone(formula, slots.len()) else {
        let evaluated = ask_on(alloc, graph, shelf, heard, formula, row, slots, notes)?;
        return Ok(evaluated);
    };
    let evaluated = evaluate_slot(alloc, graph, shelf, heard, slot, slots, notes)?;
    Ok(evaluated)
}

// Reading a formula's slots in one go, as long as what it needs next is read without a look below.
ghost use Rattle.std.specs.Prelude.{◌≡◌, ◌+◌, ◌≤◌, List, [], ◌++◌, ◌∷◌, length, false, true, None, IfOk, IfSome, OnOk};
ghost use Rattle.sig_base.specs.declared.value.Known.{Known};
ghost use Rattle.sig_base.specs.declared.value.Outcome.{Outcome};
ghost use Rattle.sig_base.specs.declared.value.Outcome.TheVariants.{Good};
ghost use Rattle.sig_base.specs.declared.value.Value.TheVariants as value;
ghost use Rattle.sig_graph.specs.Reading.{AsksFor, HasReadHere, IsOnward, IsReached, IsReadWhere, IsReady, IsReadyPart, IsWalked, reached_steps};
ghost use Rattle.sig_nodes.specs.Reading.{IsNeeded};
ghost use Rattle.sig_formula.specs.Evaluation.{known_at};
ghost use Rattle.sig_formula.specs.Operations.{IsPartTold};
ghost use Rattle.sig_formula.specs.Turns.{IsPartRead};
ghost use Rattle.sig_formula.specs.Programs.{decides};
ghost use Rattle.sig_formula.specs.Trees as trees;
ghost use Rattle.sig_formula.specs.Trees.{binary, tree};
ghost use Rattle.signal_model.specs.Recipes as recipes;

use crate::evaluation::{count, count_by};
use sig_base::{Known, NoMemory, NodeId, Outcome, Value};
use sig_formula::{
    BinOp, Formula, Part, Told, decides, first_part, next_part, operate_numbers, part_decided,
    part_made, part_told,
};
use sig_marks::Marks;
use sig_nodes::{Body, Computation, Nodes, body_at};

/// How many slots a formula may have that is gone over from its start, with all its parts, after each of them that was left. One of more
/// slots goes on from where it stands.
const MOST_SLOTS: usize = 8;

/// What one answer of a formula comes to.
#[derive(Clone, Copy)]
enum Onward {
    /// The slot that it needed is read.
    Read,
    /// It came to its end.
    Ended,
    /// It is left to who settles what is below.
    Left,
}

/// What a formula comes to that is read on.
#[derive(Clone, Copy)]
pub enum Reached {
    /// It came to its end.
    Ended,
    /// It needs a slot whose signal isn't read at once.
    Needs(u32),
    /// Nothing is told of it.
    Left,
}

/// What a formula comes to that is gone over once.
#[derive(Clone, Copy)]
enum Walked {
    /// It came to its end.
    Ended,
    /// It needs a slot that is left to who settles what is below.
    Left(u32),
    /// Nothing is told: it is to be asked for each slot.
    Open,
}

// The value that a signal is read as at once: that of a cell, or the good one of a computed that is neither being evaluated nor marked.
#[inline(always)]
fn ready_value<'a>(nodes: &'a Nodes, marks: &Marks, id: NodeId) -> Option<&'a Value>
    ensures { IfSome result (λ v. IsReady nodes.now.items marks.now.marked id v.now) }
{
    match body_at(nodes, id) {
        Some(Body::Cell(value, _)) => Some(value),
        Some(Body::Computed(computation)) => {
            if marks.is_marked(id) {
                return None;
            }
            computation.value()
        }
        _ => None,
    }
}

// A slot is known, and its signal was read, where there may be no room for that. It stands apart, as mostly there is room. Without memory
// neither is.
#[inline(never)]
fn learn_more(
    known: &mut Vec<Known>,
    reads: &mut Vec<NodeId>,
    slot: u32,
    value: Value,
    id: NodeId,
) -> Result<(), NoMemory>
    ensures known { OnOk result (known.new.items ≡ known.old.items ++ (record { slot = slot; value = value }) ∷ []) }
    ensures reads { OnOk result (reads.new.items ≡ reads.old.items ++ id ∷ []) }
    ensures even { length known.new.items + length reads.old.items ≡ length known.old.items + length reads.new.items }
{
    known.reserve(1)?;
    reads.reserve(1)?;
    known.push_reserved(Known { slot, value });
    reads.push_reserved(id);
    Ok(())
}

// A slot is known, and its signal was read. Without memory neither is.
#[inline(always)]
fn learn(
    known: &mut Vec<Known>,
    reads: &mut Vec<NodeId>,
    slot: u32,
    value: Value,
    id: NodeId,
) -> Result<(), NoMemory>
    ensures known { OnOk result (known.new.items ≡ known.old.items ++ (record { slot = slot; value = value }) ∷ []) }
    ensures reads { OnOk result (reads.new.items ≡ reads.old.items ++ id ∷ []) }
    ensures even { length known.new.items + length reads.old.items ≡ length known.old.items + length reads.new.items }
{
    if known.len() < known.capacity() && reads.len() < reads.capacity() {
        known.push_reserved(Known { slot, value });
        reads.push_reserved(id);
        return Ok(());
    }
    learn_more(known, reads, slot, value, id)?;
    Ok(())
}

/// Reads a slot where its signal is read at once, and tells whether it is.
#[inline(always)]
pub(crate) fn read_ready(
    nodes: &Nodes,
    marks: &Marks,
    computation: &Computation,
    slot: u32,
    known: &mut Vec<Known>,
    reads: &mut Vec<NodeId>,
) -> Result<bool, NoMemory>
    ensures read { IfOk result (λ b. IsReadWhere b nodes.now.items marks.now.marked computation.now.recipe slot known.old.items reads.old.items known.new.items reads.new.items) }
    ensures even { length known.new.items + length reads.old.items ≡ length known.old.items + length reads.new.items }
{
    let Some(id) = computation.slot(slot) else {
        return Ok(false);
    };
    let Some(value) = ready_value(nodes, marks, id) else {
        return Ok(false);
    };
    let value = value.copy()?;
    learn(known, reads, slot, value, id)?;
    Ok(true)
}

// Reads a slot that is needed next, where its signal is read at once.
#[inline(always)]
fn read_slot(
    nodes: &Nodes,
    marks: &Marks,
    computation: &Computation,
    slot: u32,
    known: &mut Vec<Known>,
    reads: &mut Vec<NodeId>,
) -> Result<Onward, NoMemory>
    requires { IsNeeded computation.now.recipe known.old.items slot }
    ensures onward { (o : Outcome) → IfOk result (λ w. IsOnward nodes.now.items marks.now.marked computation.now.recipe w known.old.items reads.old.items known.new.items reads.new.items o) }
    ensures even { length known.new.items + length reads.old.items ≡ length known.old.items + length reads.new.items }
{
    let read = read_ready(nodes, marks, computation, slot, known, reads)?;
    if read {
        return Ok(Onward::Read);
    }
    Ok(Onward::Left)
}

// One answer of a formula of few operations, of which the slot that it needs is read, where that is read at once.
#[inline(always)]
fn read_next(
    nodes: &Nodes,
    marks: &Marks,
    computation: &Computation,
    known: &mut Vec<Known>,
    reads: &mut Vec<NodeId>,
    outcome: &mut Outcome,
) -> Result<Onward, NoMemory>
    ensures onward { IfOk result (λ w. IsOnward nodes.now.items marks.now.marked computation.now.recipe w known.old.items reads.old.items known.new.items reads.new.items outcome.new) }
    ensures even { length known.new.items + length reads.old.items ≡ length known.old.items + length reads.new.items }
{
    match computation.told(known, outcome)? {
        Told::Slot(slot) => read_slot(nodes, marks, computation, slot, known, reads),
        Told::Ended => Ok(Onward::Ended),
        Told::Open => Ok(Onward::Left),
    }
}

// The same for any formula of few operations, which is asked for each slot.
#[inline(never)]
fn read_anew(
    nodes: &Nodes,
    marks: &Marks,
    computation: &Computation,
    known: &mut Vec<Known>,
    reads: &mut Vec<NodeId>,
    outcome: &mut Outcome,
    looked: &mut u128,
) -> Result<Reached, NoMemory>
    ensures read { OnOk result (HasReadHere nodes.now.items marks.now.marked computation.now.recipe known.old.items reads.old.items known.new.items reads.new.items) }
    ensures even { length known.new.items + length reads.old.items ≡ length known.old.items + length reads.new.items }
    ensures reached { IfOk result (λ r. IsReached r computation.now.recipe known.new.items outcome.new) }
    ensures steps { IfOk result (λ r. looked.new + length known.old.items ≤ looked.old + length known.new.items + reached_steps r) }
{
    for _ in 0..computation.slots().len() + 1 {
        match read_next(nodes, marks, computation, known, reads, outcome)? {
            Onward::Read => {
                count(looked);
            }
            Onward::Ended => {
                count(looked);
                return Ok(Reached::Ended);
            }
            Onward::Left => return Ok(Reached::Left),
        }
    }
    Ok(Reached::Left)
}

// What a formula comes to that needs a slot which is left: that is told, and counted, where it is one of its slots.
#[inline(always)]
fn slot_left(computation: &Computation, slot: u32, looked: &mut u128) -> Reached
    ensures reached { (known : List Known) (o : Outcome) → IsNeeded computation.now.recipe known slot → IsReached result computation.now.recipe known o }
    ensures steps { looked.new ≤ looked.old + reached_steps result }
{
    let Some(_id) = computation.slot(slot) else {
        return Reached::Left;
    };
    count(looked);
    Reached::Needs(slot)
}

// What is told of a slot by its signal: the whole number or truth that this is read as at once; nothing where it is read as another value.
#[inline(always)]
fn ready_part(nodes: &Nodes, marks: &Marks, slot: u32, id: NodeId) -> Part
    ensures { IsReadyPart result nodes.now.items marks.now.marked id }
{
    match ready_value(nodes, marks, id) {
        Some(Value::Int(number)) => Part::Number(*number),
        Some(Value::Bool(truth)) => Part::Truth(*truth),
        Some(_) => Part::Open,
        None => Part::Slot(slot),
    }
}

// Reads a slot that a part of a formula needs, where its signal is read at once as a whole number or a truth.
#[inline(always)]
fn read_needed(
    nodes: &Nodes,
    marks: &Marks,
    computation: &Computation,
    slot: u32,
    known: &mut Vec<Known>,
    reads: &mut Vec<NodeId>,
) -> Result<Part, NoMemory>
    requires unknown { known_at slot known.old.items ≡ None }
    requires needed { IsNeeded computation.now.recipe known.old.items slot }
    ensures read { OnOk result (HasReadHere nodes.now.items marks.now.marked computation.now.recipe known.old.items reads.old.items known.new.items reads.new.items) }
    ensures even { length known.new.items + length reads.old.items ≡ length known.old.items + length reads.new.items }
    ensures part { IfOk result (λ p. IsPartTold p (trees.slot slot) known.new.items) }
{
    let Some(id) = computation.slot(slot) else {
        return Ok(Part::Slot(slot));
    };
    match ready_part(nodes, marks, slot, id) {
        Part::Number(number) => {
            learn(known, reads, slot, Value::Int(number), id)?;
            Ok(Part::Number(number))
        }
        Part::Truth(truth) => {
            learn(known, reads, slot, Value::Bool(truth), id)?;
            Ok(Part::Truth(truth))
        }
        Part::Slot(_) => Ok(Part::Slot(slot)),
        Part::Open => Ok(Part::Open),
    }
}

// What is told of a part of a formula, once the slot that it needs is read, where that is read at once.
#[inline(always)]
fn read_part(
    nodes: &Nodes,
    marks: &Marks,
    computation: &Computation,
    part: &Formula,
    known: &mut Vec<Known>,
    reads: &mut Vec<NodeId>,
) -> Result<Part, NoMemory>
    requires { AsksFor computation.now.recipe (tree part.now) known.old.items }
    ensures read { OnOk result (HasReadHere nodes.now.items marks.now.marked computation.now.recipe known.old.items reads.old.items known.new.items reads.new.items) }
    ensures even { length known.new.items + length reads.old.items ≡ length known.old.items + length reads.new.items }
    ensures part { IfOk result (λ p. IsPartRead p (tree part.now) known.new.items) }
{
    let told = part_told(part, known);
    match told {
        Part::Slot(slot) => {
            let read = read_needed(nodes, marks, computation, slot, known, reads)?;
            Ok(read)
        }
        _ => Ok(told),
    }
}

// What is told of a part of any form, whose own parts are gone over in the turn of their evaluation.
fn read_tree(
    nodes: &Nodes,
    marks: &Marks,
    computation: &Computation,
    part: &Formula,
    known: &mut Vec<Known>,
    reads: &mut Vec<NodeId>,
) -> Result<Part, NoMemory>
    requires { AsksFor computation.now.recipe (tree part.now) known.old.items }
    ensures read { OnOk result (HasReadHere nodes.now.items marks.now.marked computation.now.recipe known.old.items reads.old.items known.new.items reads.new.items) }
    ensures even { length known.new.items + length reads.old.items ≡ length known.old.items + length reads.new.items }
    ensures part { IfOk result (λ p. IsPartRead p (tree part.now) known.new.items) }
{
    let Some(first) = first_part(part) else {
        let leaf = read_part(nodes, marks, computation, part, known, reads)?;
        return Ok(leaf);
    };
    let told = read_tree(nodes, marks, computation, first, known, reads)?;
    let Some(next) = next_part(part, told) else {
        return Ok(part_decided(part, told));
    };
    let second = read_tree(nodes, marks, computation, next, known, reads)?;
    Ok(part_made(part, told, second))
}

// The same of a part of the whole formula, or of the whole. One that has parts of its own is gone over where this is asked for.
#[inline(always)]
fn read_side(
    nodes: &Nodes,
    marks: &Marks,
    computation: &Computation,
    deep: bool,
    part: &Formula,
    known: &mut Vec<Known>,
    reads: &mut Vec<NodeId>,
) -> Result<Part, NoMemory>
    requires { AsksFor computation.now.recipe (tree part.now) known.old.items }
    ensures read { OnOk result (HasReadHere nodes.now.items marks.now.marked computation.now.recipe known.old.items reads.old.items known.new.items reads.new.items) }
    ensures even { length known.new.items + length reads.old.items ≡ length known.old.items + length reads.new.items }
    ensures part { IfOk result (λ p. IsPartRead p (tree part.now) known.new.items) }
{
    let Some(_first) = first_part(part) else {
        let leaf = read_part(nodes, marks, computation, part, known, reads)?;
        return Ok(leaf);
    };
    if deep {
        let told = read_tree(nodes, marks, computation, part, known, reads)?;
        return Ok(told);
    }
    Ok(Part::Open)
}

// A whole number is what a formula comes to.
#[inline(always)]
fn put_number(number: i64, outcome: &mut Outcome)
    ensures { outcome.new ≡ Good (value.Int number) }
{
    *outcome = Outcome::Good(Value::Int(number));
}

// A truth is what a formula comes to.
#[inline(always)]
fn put_truth(truth: bool, outcome: &mut Outcome)
    ensures { outcome.new ≡ Good (value.Bool truth) }
{
    *outcome = Outcome::Good(Value::Bool(truth));
}

// Goes over a formula that comes to what is told of it: one that is no operation, or whose left operand may decide.
#[inline(always)]
fn read_alone(
    nodes: &Nodes,
    marks: &Marks,
    computation: &Computation,
    formula: &Formula,
    known: &mut Vec<Known>,
    reads: &mut Vec<NodeId>,
    outcome: &mut Outcome,
) -> Result<Walked, NoMemory>
    requires { computation.now.recipe.expression ≡ recipes.formula None (tree formula.now) }
    ensures read { OnOk result (HasReadHere nodes.now.items marks.now.marked computation.now.recipe known.old.items reads.old.items known.new.items reads.new.items) }
    ensures even { length known.new.items + length reads.old.items ≡ length known.old.items + length reads.new.items }
    ensures walked { IfOk result (λ w. IsWalked w computation.now.recipe known.new.items outcome.new) }
{
    let deep = computation.slots().len() <= MOST_SLOTS;
    match read_side(nodes, marks, computation, deep, formula, known, reads)? {
        Part::Number(number) => {
            put_number(number, outcome);
            Ok(Walked::Ended)
        }
        Part::Truth(truth) => {
            put_truth(truth, outcome);
            Ok(Walked::Ended)
        }
        Part::Slot(slot) => Ok(Walked::Left(slot)),
        Part::Open => Ok(Walked::Open),
    }
}

// Goes over an operation between two parts of which the left one doesn't decide.
#[inline(always)]
fn read_pair(
    nodes: &Nodes,
    marks: &Marks,
    computation: &Computation,
    op: BinOp,
    left: &Formula,
    right: &Formula,
    known: &mut Vec<Known>,
    reads: &mut Vec<NodeId>,
    outcome: &mut Outcome,
) -> Result<Walked, NoMemory>
    requires free { decides op ≡ false }
    requires formula { computation.now.recipe.expression ≡ recipes.formula None (binary op (tree left.now) (tree right.now)) }
    ensures read { OnOk result (HasReadHere nodes.now.items marks.now.marked computation.now.recipe known.old.items reads.old.items known.new.items reads.new.items) }
    ensures even { length known.new.items + length reads.old.items ≡ length known.old.items + length reads.new.items }
    ensures walked { IfOk result (λ w. IsWalked w computation.now.recipe known.new.items outcome.new) }
{
    let deep = computation.slots().len() <= MOST_SLOTS;
    let first = match read_side(nodes, marks, computation, deep, left, known, reads)? {
        Part::Number(number) => number,
        Part::Slot(slot) => return Ok(Walked::Left(slot)),
        _ => return Ok(Walked::Open),
    };
    match read_side(nodes, marks, computation, deep, right, known, reads)? {
        Part::Number(second) => {
            if operate_numbers(op, first, second, outcome) {
                return Ok(Walked::Ended);
            }
            Ok(Walked::Open)
        }
        Part::Slot(slot) => Ok(Walked::Left(slot)),
        _ => Ok(Walked::Open),
    }
}

// Goes over a formula once, and reads the slots that it needs where it comes to them: one that is a whole number or a truth, or is made of
// such by operations and conditions.
#[inline(always)]
fn walk(
    nodes: &Nodes,
    marks: &Marks,
    computation: &Computation,
    known: &mut Vec<Known>,
    reads: &mut Vec<NodeId>,
    outcome: &mut Outcome,
) -> Result<Walked, NoMemory>
    ensures read { OnOk result (HasReadHere nodes.now.items marks.now.marked computation.now.recipe known.old.items reads.old.items known.new.items reads.new.items) }
    ensures even { length known.new.items + length reads.old.items ≡ length known.old.items + length reads.new.items }
    ensures walked { IfOk result (λ w. IsWalked w computation.now.recipe known.new.items outcome.new) }
{
    let Some(formula) = computation.formula() else {
        return Ok(Walked::Open);
    };
    match formula {
        Formula::Bin(op, left, right) => {
            if decides(*op) {
                return read_alone(nodes, marks, computation, formula, known, reads, outcome);
            }
            read_pair(
                nodes,
                marks,
                computation,
                *op,
                left,
                right,
                known,
                reads,
                outcome,
            )
        }
        _ => read_alone(nodes, marks, computation, formula, known, reads, outcome),
    }
}

/// Goes on with the evaluation of a formula as long as the slot that it needs next is read at once, and tells what it comes to: where that
/// is its end, its outcome stands in its place. Each answer that it goes on with, or that it tells, is a counted step.
#[inline(always)]
pub(crate) fn read_slots(
    nodes: &Nodes,
    marks: &Marks,
    computation: &Computation,
    known: &mut Vec<Known>,
    reads: &mut Vec<NodeId>,
    outcome: &mut Outcome,
    looked: &mut u128,
) -> Result<Reached, NoMemory>
    ensures read { OnOk result (HasReadHere nodes.now.items marks.now.marked computation.now.recipe known.old.items reads.old.items known.new.items reads.new.items) }
    ensures even { length known.new.items + length reads.old.items ≡ length known.old.items + length reads.new.items }
    ensures reached { IfOk result (λ r. IsReached r computation.now.recipe known.new.items outcome.new) }
    ensures steps { IfOk result (λ r. looked.new + length known.old.items ≤ looked.old + length known.new.items + reached_steps r) }
{
    let before = known.len();
    let walked = walk(nodes, marks, computation, known, reads, outcome)?;
    count_by(looked, known.len() - before);
    match walked {
        Walked::Ended => {
            count(looked);
            Ok(Reached::Ended)
        }
        Walked::Left(slot) => Ok(slot_left(computation, slot, looked)),
        Walked::Open => read_anew(nodes, marks, computation, known, reads, outcome, looked),
    }
}

// The operations on the children of nodes that stay.
ghost use Rattle.std.specs.Prelude.{◌≡◌, ◌++◌, ◌∷◌, [], ◌<◌, ℕ, suc, List, length, map, slice_get, Some, OnOk, IfOk};
ghost use Rattle.keyed_each.specs.declared.places.RowStep.{RowStep};
ghost use Rattle.page_model.specs.Edits.{siblings};
ghost use Rattle.page_model.specs.Forest.{Forest, kids};
ghost use Rattle.page_model.specs.Labels.{Kind};
ghost use Rattle.page_model.specs.Replay.{OpMove};
ghost use Rattle.page_ops.specs.Ops.{op_of};
ghost use Rattle.page_tree.specs.Subs.{side_by_side, sub_tree};
ghost use Rattle.tpl_model.specs.NextPage.Children.{children_moved};
ghost use Rattle.tpl_patch.specs.Moves.{AllFit, AllSound, AreSound, Fits, moved_between, number_after, number_behind};
ghost use Rattle.tpl_patch.specs.Spelled.{spelled};
ghost use Rattle.tpl_model.specs.ShownNodes.Shapes.{child_of, mark_of};

use crate::arrivals::{Row, row_of};
use keyed_each::{RowStep, place_numbers};
use page_ops::Op;
use page_tree::{Sub, Tree};
use sig_base::NoMemory;
use std::alloc::Global;
use std::collections::VecDeque;
use tpl_model::{Child, Mark};
use tpl_scratch::Nodes;

// What comes to a place: the next of these subtrees, where one is left.
fn put_arrival(
    parent: u64,
    place: usize,
    waiting: &mut VecDeque<Sub>,
    ops: &mut Vec<Op>,
) -> Result<(), NoMemory>
    ensures { (n j : ℕ) (numbers : List ℕ) (steps : List RowStep) → OnOk result (
        map op_of ops.new.items ++ spelled parent (suc place) numbers steps (side_by_side (map sub_tree waiting.new.items))
        ≡ map op_of ops.old.items ++ spelled parent place (n ∷ numbers) (RowStep.Insert j ∷ steps) (side_by_side (map sub_tree waiting.old.items))) }
{
    let Some(sub) = waiting.pop_front() else {
        return Ok(());
    };
    // a subtree is one node, whatever stands below it
    let _ = sub.number();
    ops.push(Op::Insert(parent, place as u64, sub))?;
    Ok(())
}

// Appends the move of a child to a place.
fn put_move(number: u64, place: usize, ops: &mut Vec<Op>) -> Result<(), NoMemory>
    ensures { OnOk result (map op_of ops.new.items ≡ map op_of ops.old.items ++ OpMove number place ∷ []) }
{
    ops.push(Op::Move(number, place as u64))?;
    Ok(())
}

// The step for the child of this number at this place; what comes is taken from these subtrees in order.
fn put_step(
    parent: u64,
    place: usize,
    number: u64,
    step: RowStep,
    waiting: &mut VecDeque<Sub>,
    ops: &mut Vec<Op>,
) -> Result<(), NoMemory>
    ensures { (numbers : List ℕ) (steps : List RowStep) → OnOk result (
        map op_of ops.new.items ++ spelled parent (suc place) numbers steps (side_by_side (map sub_tree waiting.new.items))
        ≡ map op_of ops.old.items ++ spelled parent place (number ∷ numbers) (step ∷ steps) (side_by_side (map sub_tree waiting.old.items))) }
{
    match step {
        RowStep::Keep => Ok(()),
        RowStep::Move(_) => {
            put_move(number, place, ops)?;
            Ok(())
        }
        RowStep::Insert(_) => {
            put_arrival(parent, place, waiting, ops)?;
            Ok(())
        }
    }
}

// The step at a place.
fn step_at(steps: &[RowStep], place: usize) -> RowStep
    requires { place < length steps.now }
    ensures { slice_get steps.now place ≡ Some result }
{
    steps[place]
}

// The operations that the steps for children of these numbers are, with what comes.
fn put_steps(
    parent: u64,
    numbers: &[u64],
    steps: &[RowStep],
    subs: Vec<Sub>,
    ops: &mut Vec<Op>,
) -> Result<(), NoMemory>
    requires { length steps.now ≡ length numbers.now }
    ensures { OnOk result (map op_of ops.new.items ≡
        map op_of ops.old.items ++ spelled parent 0 numbers.now steps.now (side_by_side (map sub_tree subs.items))) }
{
    let mut waiting = VecDeque::from_vec(subs);
    for (place, number) in numbers.iter().enumerate() {
        put_step(
            parent,
            place,
            *number,
            step_at(steps, place),
            &mut waiting,
            ops,
        )?;
    }
    Ok(())
}

// The operations on the children of one node; the answer is the next number after those of what comes.
fn put_children(
    alloc: Global,
    tree: &Tree,
    next: u64,
    parent: u64,
    children: &[Child],
    ops: &mut Vec<Op>,
) -> Result<u64, NoMemory>
    requires { AreSound (map child_of children.now) }
    ensures next { IfOk result (λ n. n ≡ number_after next (map child_of children.now)) }
    ensures ops { (row : Forest Kind) → Fits (siblings (kids parent tree.now)) next (map child_of children.now) row → OnOk result (
        map op_of ops.new.items ≡ map op_of ops.old.items ++ children_moved tree.now parent row) }
{
    let row = row_of(alloc, next, children)?;
    let Row { numbers, coming } = row;
    let steps = place_numbers(alloc, tree.children(parent), &numbers, next)?;
    let Nodes { subs, next } = coming;
    put_steps(parent, &numbers, &steps, subs, ops)?;
    Ok(next)
}

/// Appends the operations on the children of marked nodes, one node after the other, as they lead from this tree to the next one, where what comes
/// has the numbers from `next` on: a child whose number stood under its node moves exactly where it doesn't stand at its place. The answer is the
/// next number after these.
///
/// # Errors
///
/// `NoMemory` alone.
pub fn put_moves(
    alloc: Global,
    tree: &Tree,
    next: u64,
    marks: &[Mark],
    ops: &mut Vec<Op>,
) -> Result<u64, NoMemory>
    requires { AllSound (map mark_of marks.now) }
    ensures next { IfOk result (λ n. n ≡ number_behind next (map mark_of marks.now)) }
    ensures ops { (after : Forest Kind) → AllFit tree.now next (map mark_of marks.now) after → OnOk result (
        map op_of ops.new.items ≡ map op_of ops.old.items ++ moved_between tree.now after (map mark_of marks.now)) }
{
    let mut number = next;
    for mark in marks {
        let children = &mark.children;
        number = put_children(alloc, tree, number, mark.number, children, ops)?;
    }
    Ok(number)
}

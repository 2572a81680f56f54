// Why an operation is refused, if it is.
ghost use Rattle.std.specs.Prelude.{◌≡◌, ◌&&◌, IfOk, suc, true};
ghost use Rattle.page_model.specs.Forest.{count, depth, kids, label_in, on};
ghost use Rattle.page_model.specs.Labels.{Root, holds};
ghost use Rattle.page_model.specs.Replay as replay;
ghost use Rattle.page_tree.specs.Subs.{insertion, sub_tree};
ghost use Rattle.page_ops.specs.Ops.{Judges, coming_fault, op_of, other_count};

use crate::numbers::{first_deep, first_used};
use crate::op::{ApplyFault, Op};
use page_tree::{NodeKind, Sub, Tree};
use sig_base::{NoMemory, Text};
use std::alloc::Global;

fn is_below_root(tree: &Tree, id: u64) -> bool
    ensures { result ≡ replay.below_root id tree.now }
{
    tree.kind(id).is_some() && id != 0
}

fn holds_children(tree: &Tree, id: u64) -> bool
    ensures { result ≡ (on id tree.now && holds (label_in Root id tree.now)) }
{
    matches!(tree.kind(id), Some(NodeKind::Root | NodeKind::Element))
}

// How many children a node has; none where there is no such node.
fn children(tree: &Tree, id: u64) -> u64
    ensures { result ≡ count (kids id tree.now) }
{
    match tree.child_count(id) {
        None => 0,
        Some(count) => count as u64,
    }
}

// How many attributes of other names an element has.
fn other_attributes(tree: &Tree, id: u64, name: &Text) -> Option<u64>
    ensures { result ≡ other_count name.now (label_in Root id tree.now) }
{
    let Some(count) = tree.attr_count(id) else {
        return None;
    };
    if tree.attr_place(id, name).is_some() {
        return Some(count as u64 - 1);
    }
    Some(count as u64)
}

// How many steps the children of a node stand below the root.
fn steps_below(tree: &Tree, parent: u64) -> u64
    ensures { on parent tree.now ≡ true → result ≡ suc (depth parent tree.now) }
{
    match tree.depth(parent) {
        None => 0,
        Some(steps) => steps + 1,
    }
}

fn judge_remove(tree: &Tree, id: u64) -> Option<ApplyFault>
    ensures { Judges result (replay.do_op (replay.OpRemove id) tree.now) }
{
    if is_below_root(tree, id) {
        return None;
    }
    Some(ApplyFault::NoSuchNode(id))
}

fn judge_move(tree: &Tree, id: u64, place: u64) -> Option<ApplyFault>
    ensures { Judges result (replay.do_op (replay.OpMove id place) tree.now) }
{
    let Some(parent) = tree.parent_of(id) else {
        return Some(ApplyFault::NoSuchNode(id));
    };
    if place < children(tree, parent) {
        return None;
    }
    Some(ApplyFault::NoSuchPlace(place))
}

fn judge_text(tree: &Tree, id: u64, text: &Text) -> Option<ApplyFault>
    ensures { Judges result (replay.do_op (replay.OpText id text.now) tree.now) }
{
    if matches!(tree.kind(id), Some(NodeKind::Text)) {
        return None;
    }
    Some(ApplyFault::NoSuchNode(id))
}

fn judge_attr(tree: &Tree, id: u64, place: u64, name: &Text, value: &Text) -> Option<ApplyFault>
    ensures { Judges result (replay.do_op (replay.OpAttr id place name.now value.now) tree.now) }
{
    let Some(others) = other_attributes(tree, id, name) else {
        return Some(ApplyFault::NoSuchNode(id));
    };
    if place <= others {
        return None;
    }
    Some(ApplyFault::NoSuchPlace(place))
}

fn judge_unattr(tree: &Tree, id: u64, name: &Text) -> Option<ApplyFault>
    ensures { Judges result (replay.do_op (replay.OpUnattr id name.now) tree.now) }
{
    if tree.attr_count(id).is_some() {
        return None;
    }
    Some(ApplyFault::NoSuchNode(id))
}

// Why a subtree can't come below a node of the tree.
fn judge_coming(
    alloc: Global,
    tree: &Tree,
    parent: u64,
    sub: &Sub,
) -> Result<Option<ApplyFault>, NoMemory>
    ensures { IfOk result (λ why. on parent tree.now ≡ true →
        why ≡ coming_fault
        (replay.first_used (sub_tree sub.now) (sub_tree sub.now) tree.now)
        (replay.first_deep (suc (depth parent tree.now)) (sub_tree sub.now))) }
{
    if let Some(number) = first_used(alloc, tree, sub)? {
        return Ok(Some(ApplyFault::NumberUsed(number)));
    }
    let steps = steps_below(tree, parent);
    if let Some(number) = first_deep(sub, steps) {
        return Ok(Some(ApplyFault::TooDeep(number)));
    }
    Ok(None)
}

fn judge_insert(
    alloc: Global,
    tree: &Tree,
    parent: u64,
    place: u64,
    sub: &Sub,
) -> Result<Option<ApplyFault>, NoMemory>
    ensures { IfOk result (λ why. Judges why (replay.do_op (insertion parent place (sub_tree sub.now)) tree.now)) }
{
    // a subtree is one node, whatever stands below it
    let _ = sub.number();
    if !holds_children(tree, parent) {
        return Ok(Some(ApplyFault::NoSuchNode(parent)));
    }
    if place > children(tree, parent) {
        return Ok(Some(ApplyFault::NoSuchPlace(place)));
    }
    let why = judge_coming(alloc, tree, parent, sub)?;
    Ok(why)
}

/// Why an operation is refused; None where it isn't.
pub fn judge(alloc: Global, tree: &Tree, op: &Op) -> Result<Option<ApplyFault>, NoMemory>
    ensures { IfOk result (λ why. Judges why (replay.do_op (op_of op.now) tree.now)) }
{
    match op {
        Op::Remove(id) => Ok(judge_remove(tree, *id)),
        Op::Insert(parent, place, sub) => {
            let why = judge_insert(alloc, tree, *parent, *place, sub)?;
            Ok(why)
        }
        Op::Move(id, place) => Ok(judge_move(tree, *id, *place)),
        Op::Text(id, text) => Ok(judge_text(tree, *id, text)),
        Op::Attr(id, place, name, value) => Ok(judge_attr(tree, *id, *place, name, value)),
        Op::Unattr(id, name) => Ok(judge_unattr(tree, *id, name)),
    }
}

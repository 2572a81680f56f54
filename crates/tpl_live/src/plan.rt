// How a page comes up to date: the numbers of its nodes, and the operations that lead to the next tree, all read from the tree that stands.
ghost use Rattle.std.specs.Prelude.{◌≡◌, ◌<◌, ◌^◌, ◌+◌, ◌++◌, ◌∷◌, [], length, map, slice_get, IfOk, OnOk};
ghost use Rattle.std.specs.List.{flat_map};
ghost use Rattle.page_model.specs.Forest.{Forest, keys, node, none};
ghost use Rattle.page_model.specs.Labels.{Kind, Root};
ghost use Rattle.page_model.specs.Pages.{NumberedPage, IsPage, new_order, page_shape, renumbered, tree_of};
ghost use Rattle.page_model.specs.Replay.{replay, Done};
ghost use Rattle.page_ops.specs.Ops.{op_of};
ghost use Rattle.page_tree.specs.Queries.{IsDone};
ghost use Rattle.tpl_blocks.specs.Blocks.{block};
ghost use Rattle.tpl_model.specs.KeptLines.Changes.{changed};
ghost use Rattle.tpl_drawn.specs.Addresses.{coming_below, noted_from, number_at};
ghost use Rattle.tpl_drawn.specs.Lines.{line_at, lined_from};
ghost use Rattle.tpl_model.specs.KeptLines.Kept.{kept};
ghost use Rattle.tpl_patch.specs.Attributes.{mark_told};
ghost use Rattle.tpl_patch.specs.Moves.{AllFit, AllSound, number_behind};
ghost use Rattle.tpl_model.specs.ShownNodes.Addresses.{address_of};
ghost use Rattle.tpl_model.specs.ShownNodes.Shapes.{all_shown, child_of, mark_of};
ghost use Rattle.tpl_live.specs.Pages.{lines_shape, shown_in, AreKnown, AreLined};
ghost use Rattle.tpl_live.specs.Plans.{children_staying, number_staying, keeps_children, moving, numbers_of as numbers_in, numbers_staying, ops_towards, stay_as, stays_at, AllBring, CanCompare, Carries, Compares, LeadOn};

use page_ops::{Op, perform};
use page_tree::Tree;
use sig_base::NoMemory;
use std::alloc::Global;
use tpl_blocks::Block;
use tpl_drawn::{Compared, Numbers, PageNodes, compared, put_addresses, put_coming, put_shown};
use tpl_model::{Address, Change, Child, Mark, PageMemo, Shown};
use tpl_patch::{put_looks, put_moves, removals};

/// The numbers of a page's nodes, by their addresses, and the lines of those below the root, from those that it shows there and from its tree.
///
/// # Errors
///
/// `NoMemory` alone.
pub fn read_numbers(alloc: Global, nodes: Vec<Shown>, tree: &Tree) -> Result<Numbers, NoMemory>
    requires { length (keys (all_shown nodes.items)) + 1 ≡ length (keys tree.now) }
    ensures lines { (p : NumberedPage) → IsPage p → page_shape p ≡ node 0 Root (all_shown nodes.items) none → tree.now ≡ tree_of p →
        IfOk result (λ n. AreLined p (line_at n)) }
    ensures numbers { (p : NumberedPage) → IsPage p → page_shape p ≡ node 0 Root (all_shown nodes.items) none → tree.now ≡ tree_of p →
        IfOk result (λ n. AreKnown p tree.now (number_at n)) }
{
    let mut addresses = Vec::new(alloc);
    put_addresses(nodes, &mut addresses)?;
    let mut all = Vec::new(alloc);
    tree.put_numbers(&mut all)?;
    let numbers = Numbers::of(alloc, addresses, &all)?;
    Ok(numbers)
}

// So it is from what is kept of its lines and from its tree.
fn numbers_of(
    alloc: Global,
    lines: &Block,
    memo: &PageMemo,
    tree: &Tree,
) -> Result<Numbers, NoMemory>
    requires { length (keys (shown_in (block lines.now) (kept memo.now))) + 1 ≡ length (keys tree.now) }
    ensures lines { (p : NumberedPage) → IsPage p → page_shape p ≡ lines_shape (block lines.now) (kept memo.now) → tree.now ≡ tree_of p →
        IfOk result (λ n. AreLined p (line_at n)) }
    ensures numbers { (p : NumberedPage) → IsPage p → page_shape p ≡ lines_shape (block lines.now) (kept memo.now) → tree.now ≡ tree_of p →
        IfOk result (λ n. AreKnown p tree.now (number_at n)) }
{
    let mut shown = Vec::new(alloc);
    put_shown(alloc, None, lines, memo, &mut shown)?;
    let numbers = read_numbers(alloc, shown, tree)?;
    Ok(numbers)
}

// Notes what came under the numbers from this one on, once a tree has come to show what is kept of these lines. Where most of what is noted may be
// gone, the numbers are read off anew.
#[inline(never)]
fn note_coming(
    alloc: Global,
    lines: &Block,
    memo: &PageMemo,
    tree: &Tree,
    coming: Vec<Address>,
    from: u64,
    numbers: &mut Numbers,
) -> Result<(), NoMemory>
    requires many { length (keys (shown_in (block lines.now) (kept memo.now))) + 1 ≡ length (keys tree.now) }
    requires room { from + length coming.items < 2 ^ 64 }
    ensures lines { (p : NumberedPage) → IsPage p → page_shape p ≡ lines_shape (block lines.now) (kept memo.now) → tree.now ≡ tree_of p →
        AreLined p (lined_from coming.items from (line_at numbers.old)) → OnOk result (AreLined p (line_at numbers.new)) }
    ensures numbers { (p : NumberedPage) → IsPage p → page_shape p ≡ lines_shape (block lines.now) (kept memo.now) → tree.now ≡ tree_of p →
        AreKnown p tree.now (noted_from coming.items from (number_at numbers.old)) → OnOk result (AreKnown p tree.now (number_at numbers.new)) }
{
    numbers.note_all(coming, from)?;
    if numbers.is_crowded() {
        *numbers = numbers_of(alloc, lines, memo, tree)?;
    }
    Ok(())
}

// So it is where anything came; otherwise the numbers stay as they are.
fn renumber(
    alloc: Global,
    lines: &Block,
    memo: &PageMemo,
    tree: &Tree,
    coming: Vec<Address>,
    from: u64,
    numbers: &mut Numbers,
) -> Result<(), NoMemory>
    requires many { length (keys (shown_in (block lines.now) (kept memo.now))) + 1 ≡ length (keys tree.now) }
    requires room { from + length coming.items < 2 ^ 64 }
    ensures lines { (p : NumberedPage) → IsPage p → page_shape p ≡ lines_shape (block lines.now) (kept memo.now) → tree.now ≡ tree_of p →
        AreLined p (lined_from coming.items from (line_at numbers.old)) → OnOk result (AreLined p (line_at numbers.new)) }
    ensures numbers { (p : NumberedPage) → IsPage p → page_shape p ≡ lines_shape (block lines.now) (kept memo.now) → tree.now ≡ tree_of p →
        AreKnown p tree.now (noted_from coming.items from (number_at numbers.old)) → OnOk result (AreKnown p tree.now (number_at numbers.new)) }
{
    if coming.is_empty() {
        return Ok(());
    }
    note_coming(alloc, lines, memo, tree, coming, from, numbers)?;
    Ok(())
}

// The numbers of marked nodes.
fn mark_numbers(alloc: Global, marks: &[Mark]) -> Result<Vec<u64>, NoMemory>
    ensures { IfOk result (λ ns. ns.items ≡ numbers_in (map mark_of marks.now)) }
{
    let mut numbers = Vec::new(alloc);
    for mark in marks {
        numbers.push(mark.number)?;
    }
    Ok(numbers)
}

// Appends a child's number where it stays.
fn put_staying(child: &Child, out: &mut Vec<u64>) -> Result<(), NoMemory>
    ensures { OnOk result (out.new.items ≡ out.old.items ++ number_staying (child_of child.now)) }
{
    match child {
        Child::Kept(number) => {
            out.push(*number)?;
            Ok(())
        }
        Child::New(_) => Ok(()),
    }
}

// Appends the numbers of those children that stay.
fn put_all_staying(children: &[Child], out: &mut Vec<u64>) -> Result<(), NoMemory>
    ensures { OnOk result (out.new.items ≡ out.old.items ++ numbers_staying (map child_of children.now)) }
{
    for child in children {
        put_staying(child, out)?;
    }
    Ok(())
}

// The numbers of those children of marked nodes that stay.
fn staying(alloc: Global, marks: &[Mark]) -> Result<Vec<u64>, NoMemory>
    ensures { IfOk result (λ ns. ns.items ≡ children_staying (map mark_of marks.now)) }
{
    let mut numbers = Vec::new(alloc);
    for mark in marks {
        numbers.reserve(mark.children.len())?;
        put_all_staying(&mark.children, &mut numbers)?;
    }
    Ok(numbers)
}

// The number at a place.
fn number_there(numbers: &[u64], place: usize) -> Option<u64>
    ensures { result ≡ slice_get numbers.now place }
{
    numbers.get(place).copied()
}

// Whether a child stays under this number.
fn stays_at(child: &Child, number: Option<u64>) -> bool
    ensures { result ≡ stays_at (child_of child.now) number }
{
    match child {
        Child::Kept(kept) => match number {
            Some(number) => *kept == number,
            None => false,
        },
        Child::New(_) => false,
    }
}

// Whether children all stay, under these numbers and no others.
fn stay_as(children: &[Child], numbers: &[u64]) -> bool
    ensures { result ≡ stay_as (map child_of children.now) numbers.now }
{
    for (place, child) in children.iter().enumerate() {
        if !stays_at(child, number_there(numbers, place)) {
            return false;
        }
    }
    number_there(numbers, children.len()).is_none()
}

// Whether the next children of a marked node are those that it has.
fn keeps_children(tree: &Tree, mark: &Mark) -> bool
    ensures { result ≡ keeps_children tree.now (mark_of mark.now) }
{
    stay_as(&mark.children, tree.children(mark.number))
}

// Appends a mark unless the node keeps its children.
fn put_moving(tree: &Tree, mark: Mark, out: &mut Vec<Mark>) -> Result<(), NoMemory>
    ensures { OnOk result (map mark_of out.new.items ≡ map mark_of out.old.items ++ moving tree.now (mark_of mark ∷ [])) }
{
    if keeps_children(tree, &mark) {
        return Ok(());
    }
    out.push(mark)?;
    Ok(())
}

// The marks of those nodes whose next children aren't those that they have.
fn moving(alloc: Global, tree: &Tree, marks: Vec<Mark>) -> Result<Vec<Mark>, NoMemory>
    ensures { IfOk result (λ ms. map mark_of ms.items ≡ moving tree.now (map mark_of marks.items)) }
{
    let mut left = Vec::new(alloc);
    for mark in marks {
        put_moving(tree, mark, &mut left)?;
    }
    Ok(left)
}

/// The operations that bring a page up to date, the addresses of what comes in the order of the new numbers, and the next unused number then.
#[derive(Drop)]
pub struct Plan {
    pub ops: Vec<Op>,
    pub coming: Vec<Address>,
    pub next: u64,
}

// The operations where the children of no node differ: what nodes say otherwise.
fn said_otherwise(
    alloc: Global,
    tree: &Tree,
    next: u64,
    restated: &[Mark],
) -> Result<Plan, NoMemory>
    ensures next { IfOk result (λ p. p.next ≡ next) }
    ensures coming { IfOk result (λ p. p.coming.items ≡ []) }
    ensures ops { IfOk result (λ p. map op_of p.ops.items ≡ flat_map (mark_told tree.now) (map mark_of restated.now)) }
{
    let mut ops = Vec::new(alloc);
    put_looks(tree, restated, &mut ops)?;
    let coming = Vec::new(alloc);
    Ok(Plan { ops, coming, next })
}

// The operations that lead from a tree to the next one, by the marks of the nodes whose children may differ and of those that may say something
// else: removals, then what is done to the children of each, then texts and attributes. What comes has the numbers from `next` on.
#[inline(never)]
fn all_operations(
    alloc: Global,
    tree: &Tree,
    next: u64,
    touched: Vec<Mark>,
    restated: &[Mark],
) -> Result<Plan, NoMemory>
    requires { AllSound (map mark_of touched.items) }
    ensures next { IfOk result (λ p. p.next ≡ number_behind next (map mark_of touched.items)) }
    ensures coming { IfOk result (λ p. map address_of p.coming.items ≡ coming_below (map mark_of touched.items)) }
    ensures ops { (after : Forest Kind) → AllFit tree.now next (map mark_of touched.items) after →
        IfOk result (λ p. map op_of p.ops.items ≡ ops_towards tree.now after (map mark_of touched.items) (map mark_of restated.now)) }
{
    let parents = mark_numbers(alloc, &touched)?;
    let kept = staying(alloc, &touched)?;
    let mut ops = removals(alloc, tree, &kept, &parents)?;
    let behind = put_moves(alloc, tree, next, &touched, &mut ops)?;
    put_looks(tree, restated, &mut ops)?;
    let mut coming = Vec::new(alloc);
    put_coming(touched, &mut coming)?;
    Ok(Plan {
        ops,
        coming,
        next: behind,
    })
}

// So they are; where no node is marked for its children, no list of these is made.
fn operations(
    alloc: Global,
    tree: &Tree,
    next: u64,
    touched: Vec<Mark>,
    restated: &[Mark],
) -> Result<Plan, NoMemory>
    requires { AllSound (map mark_of touched.items) }
    ensures next { IfOk result (λ p. p.next ≡ number_behind next (map mark_of touched.items)) }
    ensures coming { IfOk result (λ p. map address_of p.coming.items ≡ coming_below (map mark_of touched.items)) }
    ensures ops { (after : Forest Kind) → AllFit tree.now next (map mark_of touched.items) after →
        IfOk result (λ p. map op_of p.ops.items ≡ ops_towards tree.now after (map mark_of touched.items) (map mark_of restated.now)) }
{
    if touched.is_empty() {
        let plan = said_otherwise(alloc, tree, next, restated)?;
        return Ok(plan);
    }
    let plan = all_operations(alloc, tree, next, touched, restated)?;
    Ok(plan)
}

// The operations from a page to what lines show next, by what is kept of these lines and what became of it.
fn planned(
    alloc: Global,
    lines: &Block,
    memo: &PageMemo,
    change: &Change,
    page: &PageNodes,
) -> Result<Plan, NoMemory>
    requires { CanCompare (block lines.now) (kept memo.now) (changed change.now) (number_at page.now.numbers) page.now.tree page.now.next }
    ensures ops { (p : NumberedPage) → Compares p (block lines.now) (kept memo.now) (changed change.now) (number_at page.now.numbers) page.now.tree page.now.next →
        IfOk result (λ r. LeadOn p (lines_shape (block lines.now) (kept memo.now)) (map op_of r.ops.items) r.next) }
    ensures coming { (p : NumberedPage) → Compares p (block lines.now) (kept memo.now) (changed change.now) (number_at page.now.numbers) page.now.tree page.now.next →
        IfOk result (λ r. map address_of r.coming.items ≡ new_order p (lines_shape (block lines.now) (kept memo.now))) }
    ensures next { IfOk result (λ r. r.next ≡ page.now.next + length r.coming.items) }
{
    let marks = compared(alloc, lines, memo, change, page)?;
    let Compared { touched, restated } = marks;
    let touched = moving(alloc, &page.tree, touched)?;
    let plan = operations(alloc, &page.tree, page.next, touched, &restated)?;
    Ok(plan)
}

/// Does operations one after the other, none of which is refused.
///
/// # Errors
///
/// `NoMemory` alone; some may then be done.
pub fn apply_all(alloc: Global, tree: &mut Tree, ops: &[Op]) -> Result<(), NoMemory>
    requires brings { AllBring (map op_of ops.now) }
    requires leads { IsDone (replay (map op_of ops.now) tree.old) }
    ensures { OnOk result (replay (map op_of ops.now) tree.old ≡ Done tree.new) }
{
    for op in ops {
        perform(alloc, tree, op)?;
    }
    Ok(())
}

/// Brings a page's nodes to what lines show next, by what is kept of these lines and what became of it, and gives the operations that led there.
///
/// # Errors
///
/// `NoMemory` alone; some of the operations may then be done.
pub fn carry(
    alloc: Global,
    lines: &Block,
    memo: &PageMemo,
    change: &Change,
    nodes: &mut PageNodes,
) -> Result<Vec<Op>, NoMemory>
    requires { CanCompare (block lines.now) (kept memo.now) (changed change.now) (number_at nodes.old.numbers) nodes.old.tree nodes.old.next }
    ensures lines { (p : NumberedPage) →
        Compares p (block lines.now) (kept memo.now) (changed change.now) (number_at nodes.old.numbers) nodes.old.tree nodes.old.next →
        AreLined p (line_at nodes.old.numbers) →
        OnOk result (AreLined (renumbered p (lines_shape (block lines.now) (kept memo.now))) (line_at nodes.new.numbers)) }
    ensures carries { (p : NumberedPage) →
        Compares p (block lines.now) (kept memo.now) (changed change.now) (number_at nodes.old.numbers) nodes.old.tree nodes.old.next →
        IfOk result (λ ops. Carries p (lines_shape (block lines.now) (kept memo.now)) (map op_of ops.items) nodes.new.next nodes.new.tree
        (number_at nodes.new.numbers)) }
{
    let plan = planned(alloc, lines, memo, change, nodes)?;
    let Plan { ops, coming, next } = plan;
    apply_all(alloc, &mut nodes.tree, &ops)?;
    renumber(
        alloc,
        lines,
        memo,
        &nodes.tree,
        coming,
        nodes.next,
        &mut nodes.numbers,
    )?;
    nodes.next = next;
    Ok(ops)
}

// Lines that are gone over by what became of what is kept of them.
ghost use Rattle.std.specs.Prelude.{◌≡◌, ◌&&◌, ℕ, [], Option, Some, None, true, not, map, IfOk, OnOk};
ghost use Rattle.std.specs.List.Sorted.{IsNonDecreasingBy, IsPermutation};
ghost use Rattle.std.specs.Option.{option_copied};
ghost use Rattle.sig_base.specs.Tables.{Table};
ghost use Rattle.page_model.specs.Addresses.{address};
ghost use Rattle.page_model.specs.Labels as label;
ghost use Rattle.tpl_drawn.specs.Comparison.{restated_in, touched_in};
ghost use Rattle.tpl_blocks.specs.Blocks.{block, waiting};
ghost use Rattle.tpl_model.specs.KeptLines.Changes as model;
ghost use Rattle.tpl_model.specs.KeptLines.Changes.{chain, changed, first_in, is_stays, same_before};
ghost use Rattle.tpl_drawn.specs.Marks.{Knows};
ghost use Rattle.tpl_drawn.specs.Addresses.{number_on};
ghost use Rattle.tpl_model.specs.KeptLines.Kept.{kept, rows_from};
ghost use Rattle.tpl_drawn.specs.Shown.{attributes_of, fits, inside_of, shows};
ghost use Rattle.tpl_model.specs.ShownNodes.Shapes.{mark_of};
ghost use Rattle.tpl_model.specs.declared.mark.Mark.{Mark as AMark};
ghost use Rattle.tpl_model.specs.PageUpdates.PageMemos.{values};
ghost use Rattle.tpl_drawn.specs.Walks.{as_listed, further, of_element, of_first, of_inside, of_lines, of_marks, of_rows, or_stays, walk_of, where_gone};

use crate::comparing::children::room_for;
use crate::comparing::keeping::{first_keeps, keeps_nodes};
use crate::comparing::kept::{put_if_listed, put_kept};
use crate::comparing::node_marks::{Compared, put_made, put_part, put_text_again};
use crate::comparing::passing::past_same;
use crate::marks::PageNodes;
use crate::nodes::{attributes_of, fits, inside_of, later_of, loop_of, shows};
use crate::shown::put_attributes;
use sig_base::{NoMemory, Row, Text};
use sig_formula::Formula;
use std::alloc::Global;
use tpl_blocks::Block;
use tpl_model::{Change, Child, Look, Mark, PageMemo};

// Whether all stays.
fn is_stays(change: &Change) -> bool
    ensures { result ≡ is_stays (changed change.now) }
{
    match change {
        Change::Stays => true,
        Change::Made => false,
        Change::Over(_, _, _) => false,
        Change::First(_, _) => false,
        Change::Same(_, _) => false,
    }
}

// Whether the first of some parts stays.
fn first_stays(inside: &[Change]) -> bool
    ensures { result ≡ is_stays (first_in (chain (map changed inside.now))) }
{
    let Some(change) = inside.first() else {
        return false;
    };
    is_stays(change)
}

// Whether nothing is to be done for an element that was heard again: its children aren't listed, it is the same, and so is all inside it.
fn is_quiet(listed: bool, same: bool, inside: &[Change]) -> bool
    ensures { result ≡ ((not listed && same) && is_stays (first_in (chain (map changed inside.now)))) }
{
    !listed && same && first_stays(inside)
}

// Lines, by what became of the first of some parts.
#[cycle(comparing)]
fn compare_first(
    alloc: Global,
    listed: bool,
    key: Option<&Text>,
    lines: &Block,
    memo: &PageMemo,
    inside: &[Change],
    page: &PageNodes,
    children: &mut Vec<Child>,
    out: &mut Compared,
) -> Result<(), NoMemory>
    ensures { (known : ℕ → Option ℕ) → Knows (number_on page.now) known →
        OnOk result (walk_of children.new.items out.new ≡ further (walk_of children.old.items out.old)
        (as_listed listed (of_lines known (option_copied key.entry) (block lines.now) (kept memo.now) (first_in (chain (map changed inside.now)))))) }
{
    let Some(change) = inside.first() else {
        put_made(alloc, listed, key, lines, memo, page, children, out)?;
        return Ok(());
    };
    compare_lines(alloc, listed, key, lines, memo, change, page, children, out)?;
    Ok(())
}

// What is inside an element of this number, with a mark of the element for its children unless it keeps those that it has.
#[cycle(comparing)]
fn compare_inside(
    alloc: Global,
    number: u64,
    key: Option<&Text>,
    inner: &Block,
    memo: &PageMemo,
    inside: &[Change],
    page: &PageNodes,
    out: &mut Compared,
) -> Result<(), NoMemory>
    ensures { (known : ℕ → Option ℕ) → Knows (number_on page.now) known →
        OnOk result (walk_of [] out.new ≡ further (walk_of [] out.old)
        (of_inside known (option_copied key.entry) number (block inner.now) (kept memo.now) (chain (map changed inside.now)))) }
{
    if first_stays(inside) {
        return Ok(());
    }
    let keeps = first_keeps(inner, inside);
    let mut children = room_for(alloc, !keeps, &page.tree, number)?;
    compare_first(
        alloc,
        !keeps,
        key,
        inner,
        memo,
        inside,
        page,
        &mut children,
        out,
    )?;
    if keeps {
        return Ok(());
    }
    out.touched.push(Mark {
        number,
        look: None,
        children,
    })?;
    Ok(())
}

// The marks of an element of this number, whose attributes may be as they were heard before, and of all below it.
#[cycle(comparing)]
fn compare_kept(
    alloc: Global,
    same: bool,
    number: u64,
    key: Option<&Text>,
    name: &Text,
    attributes: &[(Text, Formula)],
    inner: &Block,
    memo: &PageMemo,
    inside: &[Change],
    page: &PageNodes,
    out: &mut Compared,
) -> Result<(), NoMemory>
    ensures { (known : ℕ → Option ℕ) → Knows (number_on page.now) known →
        OnOk result (walk_of [] out.new ≡ further (walk_of [] out.old)
        (of_marks known (option_copied key.entry) same (Some number) (label.Element name.now (values (waiting attributes.now) (attributes_of (kept memo.now))))
        (block inner.now) (inside_of (kept memo.now)) (chain (map changed inside.now)))) }
{
    compare_inside(
        alloc,
        number,
        key,
        inner,
        inside_of(memo),
        inside,
        page,
        out,
    )?;
    if same {
        return Ok(());
    }
    let mut values = Vec::new(alloc);
    put_attributes(alloc, attributes, attributes_of(memo), &mut values)?;
    let name = name.copy()?;
    out.restated.push(Mark {
        number,
        look: Some(Look::Element(name, values)),
        children: Vec::new(alloc),
    })?;
    Ok(())
}

// An element that was heard again.
#[cycle(comparing)]
fn compare_element(
    alloc: Global,
    listed: bool,
    same: bool,
    line: usize,
    key: Option<&Text>,
    name: &Text,
    attributes: &[(Text, Formula)],
    inner: &Block,
    memo: &PageMemo,
    inside: &[Change],
    page: &PageNodes,
    children: &mut Vec<Child>,
    out: &mut Compared,
) -> Result<(), NoMemory>
    ensures { (known : ℕ → Option ℕ) → Knows (number_on page.now) known →
        OnOk result (walk_of children.new.items out.new ≡ further (walk_of children.old.items out.old)
        (as_listed listed (of_element known (option_copied key.entry) same (address line (option_copied key.entry))
        (label.Element name.now (values (waiting attributes.now) (attributes_of (kept memo.now))))
        (block inner.now) (inside_of (kept memo.now)) (chain (map changed inside.now))))) }
{
    if is_quiet(listed, same, inside) {
        return Ok(());
    }
    let number = put_kept(
        alloc, listed, line, key, name, attributes, inner, memo, page, children,
    )?;
    let Some(number) = number else {
        return Ok(());
    };
    compare_kept(
        alloc, same, number, key, name, attributes, inner, memo, inside, page, out,
    )?;
    Ok(())
}

// A branch of a choice whose test was heard again, the first or the other, where it is shown.
#[cycle(comparing)]
fn compare_branch(
    alloc: Global,
    listed: bool,
    first: bool,
    key: Option<&Text>,
    lines: &Block,
    memo: &PageMemo,
    inside: &[Change],
    page: &PageNodes,
    children: &mut Vec<Child>,
    out: &mut Compared,
) -> Result<(), NoMemory>
    ensures { (known : ℕ → Option ℕ) → Knows (number_on page.now) known →
        OnOk result (walk_of children.new.items out.new ≡ further (walk_of children.old.items out.old)
        (as_listed listed (where_gone (shows (kept memo.now) first)
        (of_lines known (option_copied key.entry) (block lines.now) (inside_of (kept memo.now)) (first_in (chain (map changed inside.now))))))) }
{
    if !shows(memo, first) {
        return Ok(());
    }
    compare_first(
        alloc,
        listed,
        key,
        lines,
        inside_of(memo),
        inside,
        page,
        children,
        out,
    )?;
    Ok(())
}

// The lines of one row; where nothing is told of them, they stay.
#[cycle(comparing)]
fn compare_row(
    alloc: Global,
    listed: bool,
    key: &Text,
    inner: &Block,
    memo: &PageMemo,
    change: Option<&Change>,
    page: &PageNodes,
    children: &mut Vec<Child>,
    out: &mut Compared,
) -> Result<(), NoMemory>
    ensures { (known : ℕ → Option ℕ) → Knows (number_on page.now) known →
        OnOk result (walk_of children.new.items out.new ≡ further (walk_of children.old.items out.old)
        (as_listed listed (of_lines known (Some key.now) (block inner.now) (kept memo.now) (or_stays (option_copied change.entry))))) }
{
    let Some(change) = change else {
        put_if_listed(alloc, listed, Some(key), inner, memo, page, children)?;
        return Ok(());
    };
    if is_stays(change) {
        put_if_listed(alloc, listed, Some(key), inner, memo, page, children)?;
        return Ok(());
    }
    compare_lines(
        alloc,
        listed,
        Some(key),
        inner,
        memo,
        change,
        page,
        children,
        out,
    )?;
    Ok(())
}

// The lines of each row.
#[cycle(comparing)]
fn compare_rows(
    alloc: Global,
    listed: bool,
    inner: &Block,
    rows: &[Row],
    memos: &[PageMemo],
    inside: &[Change],
    page: &PageNodes,
    children: &mut Vec<Child>,
    out: &mut Compared,
) -> Result<(), NoMemory>
    ensures { (known : ℕ → Option ℕ) → Knows (number_on page.now) known → (t : Table) (i : ℕ) →
        OnOk result (walk_of children.new.items out.new ≡ further (walk_of children.old.items out.old)
        (as_listed listed (of_rows known (block inner.now) (rows_from t i rows.now (map kept memos.now)) (chain (map changed inside.now))))) }
{
    for (place, memo) in memos.iter().enumerate() {
        let Some(row) = rows.get(place) else {
            return Ok(());
        };
        let change = inside.get(place);
        compare_row(
            alloc, listed, &row.key, inner, memo, change, page, children, out,
        )?;
    }
    Ok(())
}

// The first of some lines, which was heard again and may be as it was heard before.
#[cycle(comparing)]
fn compare_part(
    alloc: Global,
    listed: bool,
    same: bool,
    key: Option<&Text>,
    lines: &Block,
    memo: &PageMemo,
    inside: &[Change],
    page: &PageNodes,
    children: &mut Vec<Child>,
    out: &mut Compared,
) -> Result<(), NoMemory>
    ensures { fits (block lines.now) (kept memo.now) ≡ true → (known : ℕ → Option ℕ) → Knows (number_on page.now) known →
        OnOk result (walk_of children.new.items out.new ≡ further (walk_of children.old.items out.old)
        (as_listed listed (of_first known (option_copied key.entry) same (block lines.now) (kept memo.now) (chain (map changed inside.now))))) }
{
    match lines {
        Block::Empty => Ok(()),
        Block::Text(line, _, _) => {
            put_text_again(alloc, listed, same, *line, key, memo, page, children, out)?;
            Ok(())
        }
        Block::Tag(line, name, attributes, inner, _) => {
            compare_element(
                alloc, listed, same, *line, key, name, attributes, inner, memo, inside, page,
                children, out,
            )?;
            Ok(())
        }
        Block::Choice(_, one, other, _) => {
            compare_branch(
                alloc, listed, true, key, one, memo, inside, page, children, out,
            )?;
            compare_branch(
                alloc, listed, false, key, other, memo, inside, page, children, out,
            )?;
            Ok(())
        }
        Block::Each(_, inner, _) => {
            let (rows, memos) = loop_of(memo);
            compare_rows(
                alloc, listed, inner, rows, memos, inside, page, children, out,
            )?;
            Ok(())
        }
        Block::Attempt(first, second, _) => {
            put_part(
                alloc, listed, same, true, key, first, memo, page, children, out,
            )?;
            put_part(
                alloc, listed, same, false, key, second, memo, page, children, out,
            )?;
            Ok(())
        }
    }
}

// Lines of which the first was heard again, and may be as it was heard before; so many behind it are the same with nothing inside them, and this
// became of the lines behind these.
#[cycle(comparing)]
fn compare_parts(
    alloc: Global,
    listed: bool,
    same: bool,
    key: Option<&Text>,
    lines: &Block,
    memo: &PageMemo,
    inside: &[Change],
    more: usize,
    later: &Change,
    page: &PageNodes,
    children: &mut Vec<Child>,
    out: &mut Compared,
) -> Result<(), NoMemory>
    ensures { (known : ℕ → Option ℕ) → Knows (number_on page.now) known →
        OnOk result (walk_of children.new.items out.new ≡ further (walk_of children.old.items out.old)
        (as_listed listed (of_lines known (option_copied key.entry) (block lines.now) (kept memo.now) (model.over same (chain (map changed inside.now)) (same_before more (changed later.now)))))) }
{
    if !fits(lines, memo) {
        return Ok(());
    }
    compare_part(
        alloc, listed, same, key, lines, memo, inside, page, children, out,
    )?;
    let behind = later_of(memo);
    match lines {
        Block::Empty => Ok(()),
        Block::Text(_, _, rest) => {
            compare_behind(
                alloc, listed, key, rest, behind, more, later, page, children, out,
            )?;
            Ok(())
        }
        Block::Tag(_, _, _, _, rest) => {
            compare_behind(
                alloc, listed, key, rest, behind, more, later, page, children, out,
            )?;
            Ok(())
        }
        Block::Choice(_, _, _, rest) => {
            compare_behind(
                alloc, listed, key, rest, behind, more, later, page, children, out,
            )?;
            Ok(())
        }
        Block::Each(_, _, rest) => {
            compare_behind(
                alloc, listed, key, rest, behind, more, later, page, children, out,
            )?;
            Ok(())
        }
        Block::Attempt(_, _, rest) => {
            compare_behind(
                alloc, listed, key, rest, behind, more, later, page, children, out,
            )?;
            Ok(())
        }
    }
}

// Lines of which so many are the same with nothing inside them, where this became of the lines behind these.
#[cycle(comparing)]
fn compare_behind(
    alloc: Global,
    listed: bool,
    key: Option<&Text>,
    lines: &Block,
    memo: &PageMemo,
    count: usize,
    later: &Change,
    page: &PageNodes,
    children: &mut Vec<Child>,
    out: &mut Compared,
) -> Result<(), NoMemory>
    ensures { (known : ℕ → Option ℕ) → Knows (number_on page.now) known →
        OnOk result (walk_of children.new.items out.new ≡ further (walk_of children.old.items out.old)
        (as_listed listed (of_lines known (option_copied key.entry) (block lines.now) (kept memo.now) (same_before count (changed later.now))))) }
{
    if count == 0 {
        compare_lines(alloc, listed, key, lines, memo, later, page, children, out)?;
        return Ok(());
    }
    let more = count - 1;
    compare_parts(
        alloc,
        listed,
        true,
        key,
        lines,
        memo,
        &[],
        more,
        later,
        page,
        children,
        out,
    )?;
    Ok(())
}

// Lines in the row of this key: of those that stay the topmost nodes are children, those that were made anew are marked all, and of the others
// each part is gone over. Where children aren't listed, those that stay aren't looked up.
#[cycle(comparing)]
fn compare_lines(
    alloc: Global,
    listed: bool,
    key: Option<&Text>,
    lines: &Block,
    memo: &PageMemo,
    change: &Change,
    page: &PageNodes,
    children: &mut Vec<Child>,
    out: &mut Compared,
) -> Result<(), NoMemory>
    ensures { (known : ℕ → Option ℕ) → Knows (number_on page.now) known →
        OnOk result (walk_of children.new.items out.new ≡ further (walk_of children.old.items out.old)
        (as_listed listed (of_lines known (option_copied key.entry) (block lines.now) (kept memo.now) (changed change.now)))) }
{
    match change {
        Change::Stays => {
            put_if_listed(alloc, listed, key, lines, memo, page, children)?;
            Ok(())
        }
        Change::Made => {
            put_made(alloc, listed, key, lines, memo, page, children, out)?;
            Ok(())
        }
        Change::Over(same, inside, later) => {
            compare_parts(
                alloc, listed, *same, key, lines, memo, inside, 0, later, page, children, out,
            )?;
            Ok(())
        }
        Change::First(same, inside) => {
            let still = Change::stays();
            compare_parts(
                alloc, listed, *same, key, lines, memo, inside, 0, &still, page, children, out,
            )?;
            Ok(())
        }
        Change::Same(more, later) => {
            compare_parts(
                alloc,
                listed,
                true,
                key,
                lines,
                memo,
                &[],
                *more,
                later,
                page,
                children,
                out,
            )?;
            Ok(())
        }
    }
}

// All marks, as they come, the root's behind the others unless it keeps the children that it has.
fn all_compared(
    alloc: Global,
    lines: &Block,
    memo: &PageMemo,
    change: &Change,
    page: &PageNodes,
) -> Result<Compared, NoMemory>
    ensures touched { (known : ℕ → Option ℕ) → Knows (number_on page.now) known →
        IfOk result (λ r. map mark_of r.touched.items ≡ touched_in known (block lines.now) (kept memo.now) (changed change.now)) }
    ensures restated { (known : ℕ → Option ℕ) → Knows (number_on page.now) known →
        IfOk result (λ r. map mark_of r.restated.items ≡ restated_in known (block lines.now) (kept memo.now) (changed change.now)) }
{
    let mut out = Compared {
        touched: Vec::new(alloc),
        restated: Vec::new(alloc),
    };
    let keeps = keeps_nodes(lines, change);
    let mut children = room_for(alloc, !keeps, &page.tree, 0)?;
    let (behind, left, told) = past_same(!keeps, lines, memo, change);
    compare_lines(
        alloc,
        !keeps,
        None,
        behind,
        left,
        told,
        page,
        &mut children,
        &mut out,
    )?;
    if keeps {
        return Ok(out);
    }
    out.touched.push(Mark {
        number: 0,
        look: None,
        children,
    })?;
    Ok(out)
}

/// The nodes of both pages that are compared when a page of these numbers is brought up to date, by ascending numbers: those whose children may
/// differ, and those whose text or attributes may differ. What is kept of its lines now tells of the next page, and the
/// change of what became of it; of lines that stay only the topmost nodes are looked up, and so are texts and elements that were heard so before.
///
/// # Errors
///
/// `NoMemory` alone.
pub fn compared(
    alloc: Global,
    lines: &Block,
    memo: &PageMemo,
    change: &Change,
    page: &PageNodes,
) -> Result<Compared, NoMemory>
    ensures touched { (known : ℕ → Option ℕ) → Knows (number_on page.now) known →
        IfOk result (λ r. IsPermutation (touched_in known (block lines.now) (kept memo.now) (changed change.now)) (map mark_of r.touched.items)) }
    ensures restated { (known : ℕ → Option ℕ) → Knows (number_on page.now) known →
        IfOk result (λ r. IsPermutation (restated_in known (block lines.now) (kept memo.now) (changed change.now)) (map mark_of r.restated.items)) }
    ensures touched_sorted { IfOk result (λ r. IsNonDecreasingBy (λ (m : AMark). m.number) r.touched.items) }
    ensures restated_sorted { IfOk result (λ r. IsNonDecreasingBy (λ (m : AMark). m.number) r.restated.items) }
{
    let mut out = all_compared(alloc, lines, memo, change, page)?;
    out.touched.sort_by_key(|mark| mark.number)?;
    out.restated.sort_by_key(|mark| mark.number)?;
    Ok(out)
}

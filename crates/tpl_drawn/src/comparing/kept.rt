// Lines whose nodes stay: the topmost are looked up by address, and nothing below them is gone over.
ghost use Rattle.std.specs.Prelude.{◌≡◌, ◌++◌, ℕ, true, None, Option, Some, map, IfOk, OnOk};
ghost use Rattle.std.specs.Option.{option_copied};
ghost use Rattle.sig_base.specs.Tables.{Table};
ghost use Rattle.page_model.specs.Addresses.{address};
ghost use Rattle.page_model.specs.Forest.{node, none};
ghost use Rattle.page_model.specs.Labels as label;
ghost use Rattle.tpl_blocks.specs.Blocks.{block, waiting};
ghost use Rattle.tpl_drawn.specs.Marks.{children_in, Knows};
ghost use Rattle.tpl_drawn.specs.Addresses.{number_on};
ghost use Rattle.tpl_model.specs.KeptLines.Kept.{kept, rows_from};
ghost use Rattle.tpl_drawn.specs.Shown.{attributes_of, inside_of, is_line, shows, where_shown};
ghost use Rattle.tpl_model.specs.ShownNodes.Shapes.{child_of};
ghost use Rattle.tpl_drawn.specs.Heads.{text_at};
ghost use Rattle.tpl_drawn.specs.Walks.{where_listed};
ghost use Rattle.tpl_model.specs.PageUpdates.PageMemos.{nodes, row_nodes, values};

use crate::comparing::children::put_new;
use crate::marks::PageNodes;
use crate::nodes::{fits, inside_of, later_of, loop_of, shows};
use crate::shown::{put_element, put_text};
use sig_base::{NoMemory, Row, Text};
use sig_formula::Formula;
use std::alloc::Global;
use tpl_blocks::Block;
use tpl_model::{Child, PageMemo};

/// Appends a text as a child, where children are listed: by its number where it has one; otherwise it comes.
///
/// # Errors
///
/// `NoMemory` alone.
pub(crate) fn put_text_child(
    alloc: Global,
    listed: bool,
    number: Option<u64>,
    line: usize,
    key: Option<&Text>,
    memo: &PageMemo,
    children: &mut Vec<Child>,
) -> Result<(), NoMemory>
    ensures { is_line (kept memo.now) ≡ true → (known : ℕ → Option ℕ) → known (address line (option_copied key.entry)) ≡ number →
        OnOk result (map child_of children.new.items ≡ map child_of children.old.items
        ++ where_listed listed (children_in known (text_at (address line (option_copied key.entry)) (kept memo.now)))) }
{
    if !listed {
        return Ok(());
    }
    let Some(number) = number else {
        let mut shown = Vec::new(alloc);
        put_text(alloc, line, key, memo, &mut shown)?;
        put_new(shown, children)?;
        return Ok(());
    };
    children.push(Child::Kept(number))?;
    Ok(())
}

/// Appends a text that stays as a child, where children are listed.
///
/// # Errors
///
/// `NoMemory` alone.
pub fn put_staying_text(
    alloc: Global,
    listed: bool,
    line: usize,
    key: Option<&Text>,
    memo: &PageMemo,
    page: &PageNodes,
    children: &mut Vec<Child>,
) -> Result<(), NoMemory>
    ensures { is_line (kept memo.now) ≡ true → (known : ℕ → Option ℕ) → Knows (number_on page.now) known →
        OnOk result (map child_of children.new.items ≡ map child_of children.old.items
        ++ where_listed listed (children_in known (text_at (address line (option_copied key.entry)) (kept memo.now)))) }
{
    if !listed {
        return Ok(());
    }
    let number = page.number_of(line, key)?;
    put_text_child(alloc, listed, number, line, key, memo, children)?;
    Ok(())
}

// Appends an element that comes with all below it. It stands apart, as few come where many stay.
#[inline(never)]
fn put_coming(
    alloc: Global,
    line: usize,
    key: Option<&Text>,
    name: &Text,
    attributes: &[(Text, Formula)],
    inner: &Block,
    memo: &PageMemo,
    children: &mut Vec<Child>,
) -> Result<(), NoMemory>
    ensures { (known : ℕ → Option ℕ) → known (address line (option_copied key.entry)) ≡ None →
        OnOk result (map child_of children.new.items ≡ map child_of children.old.items
        ++ children_in known (node (address line (option_copied key.entry))
        (label.Element name.now (values (waiting attributes.now) (attributes_of (kept memo.now))))
        (nodes (option_copied key.entry) (block inner.now) (inside_of (kept memo.now))) none)) }
{
    let mut shown = Vec::new(alloc);
    put_element(alloc, line, key, name, attributes, inner, memo, &mut shown)?;
    put_new(shown, children)?;
    Ok(())
}

/// Appends an element as a child, where children are listed, and answers its number where it has one; where it has none, it comes with all below it.
///
/// # Errors
///
/// `NoMemory` alone.
pub fn put_kept(
    alloc: Global,
    listed: bool,
    line: usize,
    key: Option<&Text>,
    name: &Text,
    attributes: &[(Text, Formula)],
    inner: &Block,
    memo: &PageMemo,
    page: &PageNodes,
    children: &mut Vec<Child>,
) -> Result<Option<u64>, NoMemory>
    ensures number { (known : ℕ → Option ℕ) → Knows (number_on page.now) known → IfOk result (λ n. n ≡ known (address line (option_copied key.entry))) }
    ensures child { (known : ℕ → Option ℕ) → Knows (number_on page.now) known →
        OnOk result (map child_of children.new.items ≡ map child_of children.old.items
        ++ where_listed listed (children_in known (node (address line (option_copied key.entry))
        (label.Element name.now (values (waiting attributes.now) (attributes_of (kept memo.now))))
        (nodes (option_copied key.entry) (block inner.now) (inside_of (kept memo.now))) none))) }
{
    let number = page.number_of(line, key)?;
    if !listed {
        return Ok(number);
    }
    let Some(number) = number else {
        put_coming(alloc, line, key, name, attributes, inner, memo, children)?;
        return Ok(None);
    };
    children.push(Child::Kept(number))?;
    Ok(Some(number))
}

// The nodes of a branch of a choice that stays, or of a part of what is tried, the first or the other, where it is shown.
#[cycle(staying)]
fn put_staying_branch(
    alloc: Global,
    first: bool,
    key: Option<&Text>,
    lines: &Block,
    memo: &PageMemo,
    page: &PageNodes,
    children: &mut Vec<Child>,
) -> Result<(), NoMemory>
    ensures { (known : ℕ → Option ℕ) → Knows (number_on page.now) known →
        OnOk result (map child_of children.new.items ≡ map child_of children.old.items
        ++ children_in known (where_shown (shows (kept memo.now) first) (nodes (option_copied key.entry) (block lines.now) (inside_of (kept memo.now))))) }
{
    if !shows(memo, first) {
        return Ok(());
    }
    put_staying(alloc, key, lines, inside_of(memo), page, children)?;
    Ok(())
}

// The nodes of rows that stay.
#[cycle(staying)]
fn put_staying_rows(
    alloc: Global,
    inner: &Block,
    rows: &[Row],
    memos: &[PageMemo],
    page: &PageNodes,
    children: &mut Vec<Child>,
) -> Result<(), NoMemory>
    ensures { (known : ℕ → Option ℕ) → Knows (number_on page.now) known → (t : Table) (i : ℕ) →
        OnOk result (map child_of children.new.items ≡ map child_of children.old.items
        ++ children_in known (row_nodes (λ h m. nodes (Some h.key) (block inner.now) m) (rows_from t i rows.now (map kept memos.now)))) }
{
    for (place, memo) in memos.iter().enumerate() {
        let Some(row) = rows.get(place) else {
            return Ok(());
        };
        put_staying(alloc, Some(&row.key), inner, memo, page, children)?;
    }
    Ok(())
}

// Appends the topmost nodes that lines show, by their numbers; one without a number comes with all below it.
#[cycle(staying)]
fn put_staying(
    alloc: Global,
    key: Option<&Text>,
    lines: &Block,
    memo: &PageMemo,
    page: &PageNodes,
    children: &mut Vec<Child>,
) -> Result<(), NoMemory>
    ensures { (known : ℕ → Option ℕ) → Knows (number_on page.now) known →
        OnOk result (map child_of children.new.items ≡ map child_of children.old.items
        ++ children_in known (nodes (option_copied key.entry) (block lines.now) (kept memo.now))) }
{
    if !fits(lines, memo) {
        return Ok(());
    }
    match lines {
        Block::Empty => Ok(()),
        Block::Text(line, _, rest) => {
            put_staying_text(alloc, true, *line, key, memo, page, children)?;
            put_staying(alloc, key, rest, later_of(memo), page, children)?;
            Ok(())
        }
        Block::Tag(line, name, attributes, inner, rest) => {
            put_kept(
                alloc, true, *line, key, name, attributes, inner, memo, page, children,
            )?;
            put_staying(alloc, key, rest, later_of(memo), page, children)?;
            Ok(())
        }
        Block::Choice(_, one, other, rest) => {
            put_staying_branch(alloc, true, key, one, memo, page, children)?;
            put_staying_branch(alloc, false, key, other, memo, page, children)?;
            put_staying(alloc, key, rest, later_of(memo), page, children)?;
            Ok(())
        }
        Block::Each(_, inner, rest) => {
            let (rows, memos) = loop_of(memo);
            put_staying_rows(alloc, inner, rows, memos, page, children)?;
            put_staying(alloc, key, rest, later_of(memo), page, children)?;
            Ok(())
        }
        Block::Attempt(first, second, rest) => {
            put_staying_branch(alloc, true, key, first, memo, page, children)?;
            put_staying_branch(alloc, false, key, second, memo, page, children)?;
            put_staying(alloc, key, rest, later_of(memo), page, children)?;
            Ok(())
        }
    }
}

/// Appends the topmost nodes of lines that stay, where children are listed.
///
/// # Errors
///
/// `NoMemory` alone.
pub fn put_if_listed(
    alloc: Global,
    listed: bool,
    key: Option<&Text>,
    lines: &Block,
    memo: &PageMemo,
    page: &PageNodes,
    children: &mut Vec<Child>,
) -> Result<(), NoMemory>
    ensures { (known : ℕ → Option ℕ) → Knows (number_on page.now) known →
        OnOk result (map child_of children.new.items ≡ map child_of children.old.items
        ++ where_listed listed (children_in known (nodes (option_copied key.entry) (block lines.now) (kept memo.now)))) }
{
    if !listed {
        return Ok(());
    }
    put_staying(alloc, key, lines, memo, page, children)?;
    Ok(())
}

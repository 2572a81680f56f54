// The marks of nodes that are compared.
ghost use Rattle.std.specs.Prelude.{◌≡◌, ◌++◌, ◌∷◌, ℕ, [], true, Option, map, OnOk};
ghost use Rattle.std.specs.Option.{option_copied};
ghost use Rattle.page_model.specs.Addresses.{address};
ghost use Rattle.tpl_drawn.specs.Comparison.{restated_part, touched_part};
ghost use Rattle.tpl_blocks.specs.Blocks.{block};
ghost use Rattle.tpl_drawn.specs.Marks.{Knows};
ghost use Rattle.tpl_drawn.specs.Addresses.{number_on};
ghost use Rattle.tpl_model.specs.KeptLines.Kept.{kept};
ghost use Rattle.tpl_drawn.specs.Shown.{inside_of, is_line, shows};
ghost use Rattle.tpl_model.specs.ShownNodes.Shapes.{mark_of};
ghost use Rattle.tpl_drawn.specs.Heads.{text_at};
ghost use Rattle.tpl_model.specs.PageUpdates.PageMemos.{nodes};
ghost use Rattle.tpl_drawn.specs.Walks.{as_listed, further, of_made, of_text, of_tried, walk_of, where_gone};

use crate::comparing::children::put_children;
use crate::comparing::kept::{put_if_listed, put_staying_text};
use crate::comparing::texts::{put_text_made, put_text_said};
use crate::marks::{PageNodes, mark_all};
use crate::nodes::{fits, inside_of, later_of, shows};
use crate::shown::put_shown;
use sig_base::{NoMemory, Text};
use std::alloc::Global;
use tpl_blocks::Block;
use tpl_model::{Child, Mark, PageMemo};

/// The nodes of both pages that are compared.
#[derive(Drop)]
pub struct Compared {
    /// Those whose children may differ, each with its next children and without its look.
    pub touched: Vec<Mark>,
    /// Those whose text or attributes may differ, each with its next look and without children.
    pub restated: Vec<Mark>,
}

// Marks a node for its children and for its look.
fn put_mark(alloc: Global, mark: Mark, out: &mut Compared) -> Result<(), NoMemory>
    ensures touched { OnOk result (map mark_of out.new.touched.items ≡ map mark_of out.old.touched.items ++ touched_part (mark_of mark) ∷ []) }
    ensures restated { OnOk result (map mark_of out.new.restated.items ≡ map mark_of out.old.restated.items ++ restated_part (mark_of mark) ∷ []) }
{
    let Mark {
        number,
        look,
        children,
    } = mark;
    out.touched.push(Mark {
        number,
        look: None,
        children,
    })?;
    out.restated.push(Mark {
        number,
        look,
        children: Vec::new(alloc),
    })?;
    Ok(())
}

// Marks nodes for their children and for their looks.
fn put_marks(alloc: Global, marks: Vec<Mark>, out: &mut Compared) -> Result<(), NoMemory>
    ensures touched { OnOk result (map mark_of out.new.touched.items ≡ map mark_of out.old.touched.items ++ map touched_part (map mark_of marks.items)) }
    ensures restated { OnOk result (map mark_of out.new.restated.items ≡ map mark_of out.old.restated.items ++ map restated_part (map mark_of marks.items)) }
{
    out.touched.reserve(marks.len())?;
    out.restated.reserve(marks.len())?;
    for mark in marks {
        put_mark(alloc, mark, out)?;
    }
    Ok(())
}

// Goes over lines that were made anew, by the nodes that they show.
fn put_nodes_made(
    alloc: Global,
    listed: bool,
    key: Option<&Text>,
    lines: &Block,
    memo: &PageMemo,
    page: &PageNodes,
    children: &mut Vec<Child>,
    out: &mut Compared,
) -> Result<(), NoMemory>
    ensures { (known : ℕ → Option ℕ) → Knows (number_on page.now) known →
        OnOk result (walk_of children.new.items out.new ≡ further (walk_of children.old.items out.old)
        (as_listed listed (of_made known (nodes (option_copied key.entry) (block lines.now) (kept memo.now))))) }
{
    let mut shown = Vec::new(alloc);
    put_shown(alloc, key, lines, memo, &mut shown)?;
    let mut marks = Vec::with_capacity(alloc, shown.len())?;
    let more = mark_all(alloc, shown, page, &mut marks)?;
    put_children(listed, more, children)?;
    put_marks(alloc, marks, out)?;
    Ok(())
}

/// Goes over lines that were made anew; texts without the nodes that they show, up to the first line that is none.
///
/// # Errors
///
/// `NoMemory` alone.
pub fn put_made(
    alloc: Global,
    listed: bool,
    key: Option<&Text>,
    lines: &Block,
    memo: &PageMemo,
    page: &PageNodes,
    children: &mut Vec<Child>,
    out: &mut Compared,
) -> Result<(), NoMemory>
    ensures { (known : ℕ → Option ℕ) → Knows (number_on page.now) known →
        OnOk result (walk_of children.new.items out.new ≡ further (walk_of children.old.items out.old)
        (as_listed listed (of_made known (nodes (option_copied key.entry) (block lines.now) (kept memo.now))))) }
{
    let Block::Text(line, _, rest) = lines else {
        put_nodes_made(alloc, listed, key, lines, memo, page, children, out)?;
        return Ok(());
    };
    if !fits(lines, memo) {
        return Ok(());
    }
    put_text_made(alloc, listed, *line, key, memo, page, children, out)?;
    let later = later_of(memo);
    put_made(alloc, listed, key, rest, later, page, children, out)?;
    Ok(())
}

// Goes over lines of a part of what is tried; where this is the same they stay, and otherwise they were made anew.
fn put_tried(
    alloc: Global,
    listed: bool,
    same: bool,
    key: Option<&Text>,
    lines: &Block,
    memo: &PageMemo,
    page: &PageNodes,
    children: &mut Vec<Child>,
    out: &mut Compared,
) -> Result<(), NoMemory>
    ensures { (known : ℕ → Option ℕ) → Knows (number_on page.now) known →
        OnOk result (walk_of children.new.items out.new ≡ further (walk_of children.old.items out.old)
        (as_listed listed (of_tried known same (nodes (option_copied key.entry) (block lines.now) (kept memo.now))))) }
{
    if same {
        put_if_listed(alloc, listed, key, lines, memo, page, children)?;
        return Ok(());
    }
    put_made(alloc, listed, key, lines, memo, page, children, out)?;
    Ok(())
}

/// Goes over a part of what is tried, the first or the other, where it is shown; where what is tried is the same its nodes stay, and otherwise they were
/// made anew.
///
/// # Errors
///
/// `NoMemory` alone.
pub fn put_part(
    alloc: Global,
    listed: bool,
    same: bool,
    first: bool,
    key: Option<&Text>,
    lines: &Block,
    memo: &PageMemo,
    page: &PageNodes,
    children: &mut Vec<Child>,
    out: &mut Compared,
) -> Result<(), NoMemory>
    ensures { (known : ℕ → Option ℕ) → Knows (number_on page.now) known →
        OnOk result (walk_of children.new.items out.new ≡ further (walk_of children.old.items out.old)
        (as_listed listed (where_gone (shows (kept memo.now) first)
        (of_tried known same (nodes (option_copied key.entry) (block lines.now) (inside_of (kept memo.now))))))) }
{
    if !shows(memo, first) {
        return Ok(());
    }
    put_tried(
        alloc,
        listed,
        same,
        key,
        lines,
        inside_of(memo),
        page,
        children,
        out,
    )?;
    Ok(())
}

/// Goes over a text that was heard again; where it was heard so before, it stays.
///
/// # Errors
///
/// `NoMemory` alone.
pub fn put_text_again(
    alloc: Global,
    listed: bool,
    same: bool,
    line: usize,
    key: Option<&Text>,
    memo: &PageMemo,
    page: &PageNodes,
    children: &mut Vec<Child>,
    out: &mut Compared,
) -> Result<(), NoMemory>
    ensures { is_line (kept memo.now) ≡ true → (known : ℕ → Option ℕ) → Knows (number_on page.now) known →
        OnOk result (walk_of children.new.items out.new ≡ further (walk_of children.old.items out.old)
        (as_listed listed (of_text known same (text_at (address line (option_copied key.entry)) (kept memo.now))))) }
{
    if same {
        put_staying_text(alloc, listed, line, key, memo, page, children)?;
        return Ok(());
    }
    let restated = &mut out.restated;
    put_text_said(alloc, listed, line, key, memo, page, children, restated)?;
    Ok(())
}

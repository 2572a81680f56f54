// The nodes that lines show.
ghost use Rattle.std.specs.Prelude.{◌≡◌, ℕ, Some, map, OnOk};
ghost use Rattle.std.specs.Option.{option_copied};
ghost use Rattle.sig_base.specs.Tables.{Table};
ghost use Rattle.page_model.specs.Addresses.{address};
ghost use Rattle.page_model.specs.Forest.{after, none, node};
ghost use Rattle.page_model.specs.Labels as label;
ghost use Rattle.tpl_blocks.specs.Blocks.{block, waiting};
ghost use Rattle.tpl_model.specs.KeptLines.Kept.{kept, rows_from};
ghost use Rattle.tpl_drawn.specs.Shown.{attributes_of, inside_of, shows, where_shown};
ghost use Rattle.tpl_model.specs.ShownNodes.Shapes.{all_shown};
ghost use Rattle.tpl_model.specs.PageUpdates.PageMemos.{nodes, row_nodes, values};

use crate::nodes::{attributes_of, fits, inside_of, later_of, loop_of, shows};
use crate::shown::parts::{put, put_attributes, put_text};
use sig_base::{NoMemory, Row, Text};
use sig_formula::Formula;
use std::alloc::Global;
use tpl_blocks::Block;
use tpl_model::{Address, PageMemo, Shown};

/// Appends an element with all below it, by what is kept of it.
///
/// # Errors
///
/// `NoMemory` alone.
#[cycle(showing)]
pub(crate) fn put_element(
    alloc: Global,
    line: usize,
    key: Option<&Text>,
    name: &Text,
    attributes: &[(Text, Formula)],
    inner: &Block,
    memo: &PageMemo,
    out: &mut Vec<Shown>,
) -> Result<(), NoMemory>
    ensures { OnOk result (all_shown out.new.items ≡ after (all_shown out.old.items)
        (node (address line (option_copied key.entry)) (label.Element name.now (values (waiting attributes.now) (attributes_of (kept memo.now))))
        (nodes (option_copied key.entry) (block inner.now) (inside_of (kept memo.now))) none)) }
{
    let mut values = Vec::new(alloc);
    put_attributes(alloc, attributes, attributes_of(memo), &mut values)?;
    let mut children = Vec::new(alloc);
    put_shown(alloc, key, inner, inside_of(memo), &mut children)?;
    let address = Address::new(line, key)?;
    let name = name.copy()?;
    let node = Shown::element(address, name, values, children);
    put(out, node)?;
    Ok(())
}

// The nodes of a branch of a choice, or of a part of what is tried, the first or the other, where it is shown.
#[cycle(showing)]
fn put_branch(
    alloc: Global,
    first: bool,
    key: Option<&Text>,
    lines: &Block,
    memo: &PageMemo,
    out: &mut Vec<Shown>,
) -> Result<(), NoMemory>
    ensures { OnOk result (all_shown out.new.items ≡ after (all_shown out.old.items)
        (where_shown (shows (kept memo.now) first) (nodes (option_copied key.entry) (block lines.now) (inside_of (kept memo.now))))) }
{
    if !shows(memo, first) {
        return Ok(());
    }
    put_shown(alloc, key, lines, inside_of(memo), out)?;
    Ok(())
}

// The nodes of lines for each row.
#[cycle(showing)]
fn put_rows(
    alloc: Global,
    inner: &Block,
    rows: &[Row],
    memos: &[PageMemo],
    out: &mut Vec<Shown>,
) -> Result<(), NoMemory>
    ensures { (t : Table) (i : ℕ) → OnOk result (all_shown out.new.items ≡ after (all_shown out.old.items)
        (row_nodes (λ h m. nodes (Some h.key) (block inner.now) m) (rows_from t i rows.now (map kept memos.now)))) }
{
    for (place, memo) in memos.iter().enumerate() {
        let Some(row) = rows.get(place) else {
            return Ok(());
        };
        put_shown(alloc, Some(&row.key), inner, memo, out)?;
    }
    Ok(())
}

/// Appends the nodes that lines show in the row of this key, by what is kept of these lines; no formula is evaluated.
///
/// # Errors
///
/// `NoMemory` alone.
#[cycle(showing)]
pub fn put_shown(
    alloc: Global,
    key: Option<&Text>,
    lines: &Block,
    memo: &PageMemo,
    out: &mut Vec<Shown>,
) -> Result<(), NoMemory>
    ensures { OnOk result (all_shown out.new.items ≡ after (all_shown out.old.items) (nodes (option_copied key.entry) (block lines.now) (kept memo.now))) }
{
    if !fits(lines, memo) {
        return Ok(());
    }
    match lines {
        Block::Empty => Ok(()),
        Block::Text(line, _, rest) => {
            put_text(alloc, *line, key, memo, out)?;
            put_shown(alloc, key, rest, later_of(memo), out)?;
            Ok(())
        }
        Block::Tag(line, name, attributes, inner, rest) => {
            put_element(alloc, *line, key, name, attributes, inner, memo, out)?;
            put_shown(alloc, key, rest, later_of(memo), out)?;
            Ok(())
        }
        Block::Choice(_, one, other, rest) => {
            put_branch(alloc, true, key, one, memo, out)?;
            put_branch(alloc, false, key, other, memo, out)?;
            put_shown(alloc, key, rest, later_of(memo), out)?;
            Ok(())
        }
        Block::Each(_, inner, rest) => {
            let (rows, memos) = loop_of(memo);
            put_rows(alloc, inner, rows, memos, out)?;
            put_shown(alloc, key, rest, later_of(memo), out)?;
            Ok(())
        }
        Block::Attempt(first, second, rest) => {
            put_branch(alloc, true, key, first, memo, out)?;
            put_branch(alloc, false, key, second, memo, out)?;
            put_shown(alloc, key, rest, later_of(memo), out)?;
            Ok(())
        }
    }
}

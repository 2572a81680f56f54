// What is shown of the first of some lines.
ghost use Rattle.std.specs.Prelude.{◌≡◌, ◌++◌, length, map, IfOk, OnOk};
ghost use Rattle.std.specs.Option.{option_copied};
ghost use Rattle.page_model.specs.Addresses.{address};
ghost use Rattle.page_model.specs.Forest.{after};
ghost use Rattle.tpl_blocks.specs.Blocks.{waiting};
ghost use Rattle.tpl_model.specs.KeptLines.Kept.{heard_of, kept};
ghost use Rattle.tpl_model.specs.ShownNodes.Shapes.{all_shown, shown_tree};
ghost use Rattle.tpl_drawn.specs.Heads.{rows_in, text_at};
ghost use Rattle.tpl_model.specs.PageUpdates.PageMemos.{values};

use sig_base::{NoMemory, Outcome, Row, Text, Value};
use sig_formula::Formula;
use std::alloc::Global;
use tpl_model::{Address, Heard, PageMemo, Shown};
use tpl_scratch::{attribute_value, node_text};

/// Appends a node.
pub fn put(out: &mut Vec<Shown>, node: Shown) -> Result<(), NoMemory>
    ensures { OnOk result (all_shown out.new.items ≡ after (all_shown out.old.items) (shown_tree node)) }
{
    out.push(node)?;
    Ok(())
}

/// Appends the attributes of an element, by what was heard of them.
///
/// # Errors
///
/// `NoMemory` alone.
pub(crate) fn put_attributes(
    alloc: Global,
    attributes: &[(Text, Formula)],
    all: &[Heard],
    out: &mut Vec<(Text, Option<Text>)>,
) -> Result<(), NoMemory>
    ensures { OnOk result (out.new.items ≡ out.old.items ++ values (waiting attributes.now) (map heard_of all.now)) }
{
    let Some((attribute, attributes)) = attributes.split_first() else {
        return Ok(());
    };
    let Some((heard, all)) = all.split_first() else {
        return Ok(());
    };
    let outcome = heard.outcome.copy()?;
    let value = attribute_value(alloc, outcome)?;
    let name = attribute.0.copy()?;
    out.push((name, value))?;
    put_attributes(alloc, attributes, all, out)?;
    Ok(())
}

/// The rows that an outcome is.
pub(crate) fn rows_in(outcome: &Outcome) -> &[Row]
    ensures { result.now ≡ rows_in outcome.now }
{
    match outcome {
        Outcome::Good(Value::Rows(rows)) => rows.rows(),
        _ => &[],
    }
}

/// Appends a text, by what is kept of it.
///
/// # Errors
///
/// `NoMemory` alone.
#[tactic(auto, using(tpl_model::proofs::MemoEquations::kept_unread, tpl_model::proofs::MemoEquations::kept_blank, tpl_model::proofs::MemoEquations::kept_line, tpl_model::proofs::MemoEquations::kept_element, tpl_model::proofs::MemoEquations::kept_branch, tpl_model::proofs::MemoEquations::kept_loop, tpl_model::proofs::MemoEquations::kept_either, tpl_scratch::proofs::Shared::after_none))]
pub(crate) fn put_text(
    alloc: Global,
    line: usize,
    key: Option<&Text>,
    memo: &PageMemo,
    out: &mut Vec<Shown>,
) -> Result<(), NoMemory>
    ensures { OnOk result (all_shown out.new.items ≡ after (all_shown out.old.items) (text_at (address line (option_copied key.entry)) (kept memo.now))) }
{
    match memo {
        PageMemo::Line(heard, _) => {
            let outcome = heard.outcome.copy()?;
            let said = node_text(alloc, outcome)?;
            let address = Address::new(line, key)?;
            let node = Shown::text(alloc, address, said);
            put(out, node)?;
            Ok(())
        }
        PageMemo::Unread => Ok(()),
        PageMemo::Blank => Ok(()),
        PageMemo::Element(_, _, _) => Ok(()),
        PageMemo::Branch(_, _, _) => Ok(()),
        PageMemo::Loop(_, _, _) => Ok(()),
        PageMemo::Either(_, _, _) => Ok(()),
    }
}

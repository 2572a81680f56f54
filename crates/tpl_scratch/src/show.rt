// What the lines of a template show on the outcomes that are known.
ghost use Rattle.std.specs.Prelude.{◌≡◌, ◌<◌, ◌++◌, [], length, IfErr, IfOk, IfSome, OnOk, false, true};
ghost use Rattle.std.specs.Option.{option_copied};
ghost use Rattle.sig_formula.specs.Trees.{tree};
ghost use Rattle.signal_model.specs.Sound.{names_of};
ghost use Rattle.page_model.specs.Labels.{with_value};
ghost use Rattle.tpl_model.specs.Shapes.{attributes_told, row_here, shown_block, then_shown, Showing};
ghost use Rattle.tpl_model.specs.Sources.{on_known};
ghost use Rattle.tpl_blocks.specs.Blocks.{block};
ghost use Rattle.tpl_scratch.specs.Pages.{attributes_in, beside, each_shown, element_shown, nodes_of, rows_of, rows_shown, shown_where, shows_branch, text_shown, unless_ended, with_node};
ghost use Rattle.tpl_scratch.specs.Pages.{AreBranches, HasAttributes, IsHere, Numbered, PutsAttribute, Shows, Stops};

use crate::evaluate::{Here, evaluated};
use crate::nodes::Nodes;
use crate::stop::Stop;
use crate::text::{attribute_value, node_text};
use sig_base::{NoMemory, Outcome, Rows, Text, Value};
use sig_formula::{Formula, RowRef};
use std::alloc::Global;
use tpl_blocks::Block;
use tpl_model::{either_failed, is_fault, is_over};

// A text.
fn show_text(
    alloc: Global,
    line: usize,
    formula: &Formula,
    here: Option<&Here>,
    known: &[Option<Outcome>],
    out: &mut Nodes,
) -> Result<bool, Stop>
    requires { IfSome here (λ h. h.now.row.place < length h.now.row.rows.rows) }
    ensures shows { IfOk result (λ failed. Shows known.now false
        (text_shown (on_known known.now) (option_copied here.entry) line (tree formula.now)) (nodes_of out.old) (nodes_of out.new) failed) }
    ensures stops { IfErr result (λ e. Stops known.now (text_shown (on_known known.now) (option_copied here.entry) line (tree formula.now)).reads e) }
{
    let outcome = evaluated(alloc, formula, here, known)?;
    let failed = is_fault(&outcome);
    let text = node_text(alloc, outcome)?;
    out.put_text(text)?;
    Ok(failed)
}

/// Appends an attribute where it is present.
///
/// # Errors
///
/// `NoMemory` alone.
pub fn put_attribute(
    out: &mut Vec<(Text, Text)>,
    name: &Text,
    value: Option<Text>,
) -> Result<(), NoMemory>
    ensures { OnOk result (out.new.items ≡ out.old.items ++ with_value name.now value []) }
{
    if let Some(value) = value {
        out.push((name.copy()?, value))?;
    }
    Ok(())
}

/// The attributes of an element that are present, and whether one met a fault.
#[derive(Drop)]
pub(crate) struct Attributes {
    pub(crate) values: Vec<(Text, Text)>,
    pub(crate) failed: bool,
}

// Appends one attribute where it is present; what its formula comes to.
fn put_evaluated(
    alloc: Global,
    attribute: &(Text, Formula),
    here: Option<&Here>,
    known: &[Option<Outcome>],
    out: &mut Vec<(Text, Text)>,
) -> Result<bool, Stop>
    requires { IfSome here (λ h. h.now.row.place < length h.now.row.rows.rows) }
    ensures put { IfOk result (λ failed. PutsAttribute known.now (row_here (option_copied here.entry)) attribute.now.0 (tree attribute.now.1) out.old.items out.new.items failed) }
    ensures stops { IfErr result (λ e.
        Stops known.now (names_of (on_known known.now (row_here (option_copied here.entry)) (tree attribute.now.1)).reads) e) }
{
    let outcome = evaluated(alloc, &attribute.1, here, known)?;
    let failed = is_fault(&outcome);
    let value = attribute_value(alloc, outcome)?;
    put_attribute(out, &attribute.0, value)?;
    Ok(failed)
}

// The attributes of an element that are present, up to the first that meets a fault where showing ends at one.
fn attributes_here(
    alloc: Global,
    attributes: &[(Text, Formula)],
    ends: bool,
    here: Option<&Here>,
    known: &[Option<Outcome>],
) -> Result<Attributes, Stop>
    requires { IfSome here (λ h. h.now.row.place < length h.now.row.rows.rows) }
    ensures found { IfOk result (λ found.
        HasAttributes known.now ends (row_here (option_copied here.entry)) (attributes_in attributes.now) found) }
    ensures stops { IfErr result (λ e.
        Stops known.now (attributes_told ends (on_known known.now) (row_here (option_copied here.entry)) (attributes_in attributes.now)).reads e) }
{
    let mut values = Vec::new(alloc);
    let mut failed = false;
    for attribute in attributes {
        let fault = put_evaluated(alloc, attribute, here, known, &mut values)?;
        if is_over(ends, fault) {
            return Ok(Attributes {
                values,
                failed: true,
            });
        }
        failed = either_failed(failed, fault);
    }
    Ok(Attributes { values, failed })
}

/// Appends an element under a name that is copied.
///
/// # Errors
///
/// `NoMemory` alone.
pub fn put_named(
    out: &mut Nodes,
    name: &Text,
    attributes: Vec<(Text, Text)>,
    children: Nodes,
) -> Result<(), NoMemory>
    ensures { OnOk result (nodes_of out.new ≡ with_node (nodes_of out.old) name.now attributes.items (nodes_of children)) }
{
    let name = name.copy()?;
    out.put_element(name, attributes, children)?;
    Ok(())
}

// What is behind lines that met a fault or didn't, unless showing ends there.
#[cycle(showing)]
fn show_behind(
    alloc: Global,
    failed: bool,
    rest: &Block,
    ends: bool,
    here: Option<&Here>,
    known: &[Option<Outcome>],
    out: &mut Nodes,
) -> Result<bool, Stop>
    requires { IfSome here (λ h. h.now.row.place < length h.now.row.rows.rows) }
    ensures shows { IfOk result (λ any. (x : Showing) (before : Numbered) → Shows known.now ends x before (nodes_of out.old) failed →
        Shows known.now ends (then_shown ends x (shown_block (on_known known.now) ends (option_copied here.entry) (block rest.now))) before (nodes_of out.new) any) }
    ensures stops { IfErr result (λ e. (x : Showing) (before : Numbered) → Shows known.now ends x before (nodes_of out.old) failed →
        Stops known.now (then_shown ends x (shown_block (on_known known.now) ends (option_copied here.entry) (block rest.now))).reads e) }
{
    if is_over(ends, failed) {
        return Ok(true);
    }
    let later = show(alloc, rest, ends, here, known, out)?;
    Ok(either_failed(failed, later))
}

// An element, its attributes before its children.
#[cycle(showing)]
fn show_element(
    alloc: Global,
    line: usize,
    name: &Text,
    attributes: &[(Text, Formula)],
    inner: &Block,
    ends: bool,
    here: Option<&Here>,
    known: &[Option<Outcome>],
    out: &mut Nodes,
) -> Result<bool, Stop>
    requires { IfSome here (λ h. h.now.row.place < length h.now.row.rows.rows) }
    ensures shows { IfOk result (λ failed. Shows known.now ends
        (element_shown (on_known known.now) ends (option_copied here.entry) line name.now (attributes_in attributes.now) (block inner.now))
        (nodes_of out.old) (nodes_of out.new) failed) }
    ensures stops { IfErr result (λ e. Stops known.now
        (element_shown (on_known known.now) ends (option_copied here.entry) line name.now (attributes_in attributes.now) (block inner.now)).reads e) }
{
    let found = attributes_here(alloc, attributes, ends, here, known)?;
    let mut children = out.children(alloc)?;
    let failed = show_behind(alloc, found.failed, inner, ends, here, known, &mut children)?;
    put_named(out, name, found.values, children)?;
    Ok(failed)
}

/// Whether an outcome shows a branch of a choice, the first or the other.
pub fn shows_branch(outcome: &Outcome, first: bool) -> bool
    ensures { result ≡ shows_branch outcome.now first }
{
    match outcome {
        Outcome::Good(Value::Bool(true)) => first,
        Outcome::Good(Value::Bool(false)) => !first,
        _ => false,
    }
}

/// The branches of a choice that are shown, and whether its test met a fault.
#[derive(Drop)]
pub(crate) struct Branches {
    pub(crate) one: bool,
    pub(crate) other: bool,
    pub(crate) failed: bool,
}

// The branches that are shown where a test comes to what it does.
fn branches_of(
    alloc: Global,
    test: &Formula,
    here: Option<&Here>,
    known: &[Option<Outcome>],
) -> Result<Branches, Stop>
    requires { IfSome here (λ h. h.now.row.place < length h.now.row.rows.rows) }
    ensures found { IfOk result (λ b. AreBranches known.now (on_known known.now (row_here (option_copied here.entry)) (tree test.now)) b) }
    ensures stops { IfErr result (λ e.
        Stops known.now (names_of (on_known known.now (row_here (option_copied here.entry)) (tree test.now)).reads) e) }
{
    let outcome = evaluated(alloc, test, here, known)?;
    let one = shows_branch(&outcome, true);
    let other = shows_branch(&outcome, false);
    let failed = is_fault(&outcome);
    Ok(Branches { one, other, failed })
}

// The lines, where they are shown.
#[cycle(showing)]
fn show_where(
    alloc: Global,
    shown: bool,
    lines: &Block,
    ends: bool,
    here: Option<&Here>,
    known: &[Option<Outcome>],
    out: &mut Nodes,
) -> Result<bool, Stop>
    requires { IfSome here (λ h. h.now.row.place < length h.now.row.rows.rows) }
    ensures shows { IfOk result (λ failed. Shows known.now ends
        (shown_where (on_known known.now) ends (option_copied here.entry) shown (block lines.now)) (nodes_of out.old) (nodes_of out.new) failed) }
    ensures stops { IfErr result (λ e. Stops known.now
        (shown_where (on_known known.now) ends (option_copied here.entry) shown (block lines.now)).reads e) }
{
    if !shown {
        return Ok(false);
    }
    let failed = show(alloc, lines, ends, here, known, out)?;
    Ok(failed)
}

/// Nodes that were made beside others, and whether showing them ended at a fault.
#[derive(Drop)]
pub(crate) struct Tried {
    pub(crate) nodes: Nodes,
    pub(crate) ended: bool,
}

// Lines up to the first that meets a fault, beside the nodes that stand.
#[cycle(showing)]
fn show_tried(
    alloc: Global,
    first: &Block,
    here: Option<&Here>,
    known: &[Option<Outcome>],
    out: &Nodes,
) -> Result<Tried, Stop>
    requires { IfSome here (λ h. h.now.row.place < length h.now.row.rows.rows) }
    ensures shows { IfOk result (λ t. Shows known.now true (shown_block (on_known known.now) true (option_copied here.entry) (block first.now))
        (beside (nodes_of out.now)) (nodes_of t.nodes) t.ended) }
    ensures stops { IfErr result (λ e. Stops known.now (shown_block (on_known known.now) true (option_copied here.entry) (block first.now)).reads e) }
{
    let mut nodes = out.beside(alloc);
    let ended = show(alloc, first, true, here, known, &mut nodes)?;
    Ok(Tried { nodes, ended })
}

// Appends the nodes of what is tried, unless it ended.
fn put_tried(tried: Tried, out: &mut Nodes) -> Result<(), NoMemory>
    ensures { OnOk result (nodes_of out.new ≡ unless_ended tried.ended (nodes_of out.old) (nodes_of tried.nodes)) }
{
    let Tried { nodes, ended } = tried;
    if ended {
        return Ok(());
    }
    out.put_all(nodes)?;
    Ok(())
}

// The row at a place.
fn here_at(rows: &Rows, place: usize) -> Result<Here, NoMemory>
    requires { place < length rows.now.rows }
    ensures here { IfOk result (λ h. IsHere rows.now place h) }
    ensures inside { IfOk result (λ h. h.row.place < length h.row.rows.rows) }
{
    Ok(Here {
        key: rows.row(place).key.copy()?,
        row: RowRef {
            rows: rows.copy()?,
            place,
        },
    })
}

// The lines once for each row.
#[cycle(showing)]
fn show_rows(
    alloc: Global,
    rows: &Rows,
    inner: &Block,
    ends: bool,
    known: &[Option<Outcome>],
    out: &mut Nodes,
) -> Result<bool, Stop>
    ensures shows { IfOk result (λ failed. Shows known.now ends (rows_shown (on_known known.now) ends (block inner.now) rows.now 0 rows.now.rows)
        (nodes_of out.old) (nodes_of out.new) failed) }
    ensures stops { IfErr result (λ e. Stops known.now (rows_shown (on_known known.now) ends (block inner.now) rows.now 0 rows.now.rows).reads e) }
{
    let mut failed = false;
    for place in 0..rows.len() {
        let here = here_at(rows, place)?;
        let fault = show(alloc, inner, ends, Some(&here), known, out)?;
        if is_over(ends, fault) {
            return Ok(true);
        }
        failed = either_failed(failed, fault);
    }
    Ok(failed)
}

// The rows of an outcome.
fn rows_in(outcome: Outcome) -> Option<Rows>
    ensures { result ≡ rows_of outcome }
{
    match outcome {
        Outcome::Good(Value::Rows(rows)) => Some(rows),
        _ => None,
    }
}

// The lines once for each row, where there are rows.
#[cycle(showing)]
fn show_each(
    alloc: Global,
    rows: Option<Rows>,
    inner: &Block,
    ends: bool,
    known: &[Option<Outcome>],
    out: &mut Nodes,
) -> Result<bool, Stop>
    ensures shows { IfOk result (λ failed. Shows known.now ends (each_shown (on_known known.now) ends rows (block inner.now)) (nodes_of out.old) (nodes_of out.new) failed) }
    ensures stops { IfErr result (λ e. Stops known.now (each_shown (on_known known.now) ends rows (block inner.now)).reads e) }
{
    match rows {
        Some(rows) => {
            let failed = show_rows(alloc, &rows, inner, ends, known, out)?;
            Ok(failed)
        }
        None => Ok(false),
    }
}

/// Appends what lines show, in document order; what they need is looked for in that order, too. Where showing ends at a fault, nothing is read
/// behind the first line that meets one, and what was appended is of no use. Whether a line met a fault.
#[cycle(showing)]
pub(crate) fn show(
    alloc: Global,
    lines: &Block,
    ends: bool,
    here: Option<&Here>,
    known: &[Option<Outcome>],
    out: &mut Nodes,
) -> Result<bool, Stop>
    requires { IfSome here (λ h. h.now.row.place < length h.now.row.rows.rows) }
    ensures shows { IfOk result (λ failed. Shows known.now ends (shown_block (on_known known.now) ends (option_copied here.entry) (block lines.now))
        (nodes_of out.old) (nodes_of out.new) failed) }
    ensures stops { IfErr result (λ e. Stops known.now (shown_block (on_known known.now) ends (option_copied here.entry) (block lines.now)).reads e) }
{
    match lines {
        Block::Empty => Ok(false),
        Block::Text(line, formula, rest) => {
            let failed = show_text(alloc, *line, formula, here, known, out)?;
            let all = show_behind(alloc, failed, rest, ends, here, known, out)?;
            Ok(all)
        }
        Block::Tag(line, name, attributes, inner, rest) => {
            let failed = show_element(
                alloc, *line, name, attributes, inner, ends, here, known, out,
            )?;
            let all = show_behind(alloc, failed, rest, ends, here, known, out)?;
            Ok(all)
        }
        Block::Choice(test, one, other, rest) => {
            let shown = branches_of(alloc, test, here, known)?;
            let first = show_where(alloc, shown.one, one, ends, here, known, out)?;
            let second = show_where(alloc, shown.other, other, ends, here, known, out)?;
            let failed = either_failed(shown.failed, either_failed(first, second));
            let all = show_behind(alloc, failed, rest, ends, here, known, out)?;
            Ok(all)
        }
        Block::Each(rows, inner, rest) => {
            let outcome = evaluated(alloc, rows, here, known)?;
            let fault = is_fault(&outcome);
            let inside = show_each(alloc, rows_in(outcome), inner, ends, known, out)?;
            let failed = either_failed(fault, inside);
            let all = show_behind(alloc, failed, rest, ends, here, known, out)?;
            Ok(all)
        }
        Block::Attempt(first, second, rest) => {
            let tried = show_tried(alloc, first, here, known, out)?;
            let ended = tried.ended;
            put_tried(tried, out)?;
            let failed = show_where(alloc, ended, second, ends, here, known, out)?;
            let all = show_behind(alloc, failed, rest, ends, here, known, out)?;
            Ok(all)
        }
    }
}

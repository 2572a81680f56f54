// Texts that say something else, or are new.
ghost use Rattle.std.specs.Prelude.{◌≡◌, ◌++◌, ℕ, [], true, Option, Some, map, IfOk, OnOk};
ghost use Rattle.std.specs.Option.{option_copied};
ghost use Rattle.page_model.specs.Addresses.{address};
ghost use Rattle.page_model.specs.Labels as label;
ghost use Rattle.tpl_drawn.specs.Addresses.{number_on};
ghost use Rattle.tpl_drawn.specs.Heads.{text_at};
ghost use Rattle.tpl_drawn.specs.Marks.{children_in, marks_in, Knows};
ghost use Rattle.tpl_drawn.specs.Shown.{is_line};
ghost use Rattle.tpl_drawn.specs.Walks.{as_listed, further, of_made, walk_of, where_listed};
ghost use Rattle.tpl_model.specs.KeptLines.Kept.{kept};
ghost use Rattle.tpl_model.specs.ShownNodes.Shapes.{child_of, mark_of};

use crate::comparing::kept::put_text_child;
use crate::comparing::node_marks::Compared;
use crate::marks::PageNodes;
use sig_base::{NoMemory, Text};
use std::alloc::Global;
use tpl_model::{Child, Look, Mark, PageMemo};
use tpl_scratch::node_text;

// The mark of a text for what it says.
fn said_mark(alloc: Global, number: u64, said: Text) -> Mark
    ensures { mark_of result ≡ record { number = number; look = label.Text said; children = [] } }
{
    Mark {
        number,
        look: Some(Look::Text(said)),
        children: Vec::new(alloc),
    }
}

// The mark of a node for its children, of which there are none.
fn bare_mark(alloc: Global, number: u64) -> Mark
    ensures { mark_of result ≡ record { number = number; look = label.Root; children = [] } }
{
    Mark {
        number,
        look: None,
        children: Vec::new(alloc),
    }
}

// Marks a text of this number for what it says.
fn mark_text(
    alloc: Global,
    number: u64,
    memo: &PageMemo,
    restated: &mut Vec<Mark>,
) -> Result<(), NoMemory>
    ensures { (known : ℕ → Option ℕ) (a : ℕ) → known a ≡ Some number →
        OnOk result (map mark_of restated.new.items ≡ map mark_of restated.old.items ++ marks_in known (text_at a (kept memo.now))) }
{
    match memo {
        PageMemo::Line(heard, _) => {
            let outcome = heard.outcome.copy()?;
            let said = node_text(alloc, outcome)?;
            restated.reserve(1)?;
            restated.push_reserved(said_mark(alloc, number, said));
            Ok(())
        }
        PageMemo::Unread => Ok(()),
        PageMemo::Blank => Ok(()),
        PageMemo::Element(_, _, _) => Ok(()),
        PageMemo::Branch(_, _, _) => Ok(()),
        PageMemo::Loop(_, _, _) => Ok(()),
        PageMemo::Either(_, _, _) => Ok(()),
    }
}

/// Goes over a text that may say something else: where it has a number, it is marked for what it says; otherwise it comes. Gives its number.
///
/// # Errors
///
/// `NoMemory` alone.
pub(crate) fn put_text_said(
    alloc: Global,
    listed: bool,
    line: usize,
    key: Option<&Text>,
    memo: &PageMemo,
    page: &PageNodes,
    children: &mut Vec<Child>,
    restated: &mut Vec<Mark>,
) -> Result<Option<u64>, NoMemory>
    ensures number { (known : ℕ → Option ℕ) → Knows (number_on page.now) known → IfOk result (λ n. n ≡ known (address line (option_copied key.entry))) }
    ensures child { is_line (kept memo.now) ≡ true → (known : ℕ → Option ℕ) → Knows (number_on page.now) known →
        OnOk result (map child_of children.new.items ≡ map child_of children.old.items
        ++ where_listed listed (children_in known (text_at (address line (option_copied key.entry)) (kept memo.now)))) }
    ensures marks { (known : ℕ → Option ℕ) → Knows (number_on page.now) known →
        OnOk result (map mark_of restated.new.items ≡ map mark_of restated.old.items
        ++ marks_in known (text_at (address line (option_copied key.entry)) (kept memo.now))) }
{
    let number = page.number_of(line, key)?;
    put_text_child(alloc, listed, number, line, key, memo, children)?;
    let Some(found) = number else {
        return Ok(None);
    };
    mark_text(alloc, found, memo, restated)?;
    Ok(Some(found))
}

/// Goes over a text that was made anew.
///
/// # Errors
///
/// `NoMemory` alone.
pub(crate) fn put_text_made(
    alloc: Global,
    listed: bool,
    line: usize,
    key: Option<&Text>,
    memo: &PageMemo,
    page: &PageNodes,
    children: &mut Vec<Child>,
    out: &mut Compared,
) -> Result<(), NoMemory>
    ensures { is_line (kept memo.now) ≡ true → (known : ℕ → Option ℕ) → Knows (number_on page.now) known →
        OnOk result (walk_of children.new.items out.new ≡ further (walk_of children.old.items out.old)
        (as_listed listed (of_made known (text_at (address line (option_copied key.entry)) (kept memo.now))))) }
{
    let restated = &mut out.restated;
    let number = put_text_said(alloc, listed, line, key, memo, page, children, restated)?;
    let Some(number) = number else {
        return Ok(());
    };
    out.touched.push(bare_mark(alloc, number))?;
    Ok(())
}

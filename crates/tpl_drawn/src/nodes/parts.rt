// What is kept of the first of some lines, of whatever kind it is.
#![tactic(auto, using(tpl_model::proofs::MemoEquations::kept_unread, tpl_model::proofs::MemoEquations::kept_blank, tpl_model::proofs::MemoEquations::kept_line, tpl_model::proofs::MemoEquations::kept_element, tpl_model::proofs::MemoEquations::kept_branch, tpl_model::proofs::MemoEquations::kept_loop, tpl_model::proofs::MemoEquations::kept_either))]

ghost use Rattle.std.specs.Prelude.{◌≡◌, map};
ghost use Rattle.tpl_blocks.specs.Blocks.{block};
ghost use Rattle.tpl_model.specs.KeptLines.Kept.{heard_of, kept, rows_from};
ghost use Rattle.tpl_drawn.specs.Heads.{table_of};
ghost use Rattle.tpl_drawn.specs.Shown.{attributes_of, fits, inside_of, is_branch, is_either, is_element, is_line, is_loop, later_of, part_of, rows_of, shows, shows_part};

use crate::shown::rows_in;
use sig_base::Row;
use tpl_blocks::Block;
use tpl_model::{Heard, PageMemo};
use tpl_scratch::shows_branch;

fn is_line(memo: &PageMemo) -> bool
    ensures { result ≡ is_line (kept memo.now) }
{
    match memo {
        PageMemo::Line(_, _) => true,
        PageMemo::Unread => false,
        PageMemo::Blank => false,
        PageMemo::Element(_, _, _) => false,
        PageMemo::Branch(_, _, _) => false,
        PageMemo::Loop(_, _, _) => false,
        PageMemo::Either(_, _, _) => false,
    }
}

fn is_element(memo: &PageMemo) -> bool
    ensures { result ≡ is_element (kept memo.now) }
{
    match memo {
        PageMemo::Element(_, _, _) => true,
        PageMemo::Unread => false,
        PageMemo::Blank => false,
        PageMemo::Line(_, _) => false,
        PageMemo::Branch(_, _, _) => false,
        PageMemo::Loop(_, _, _) => false,
        PageMemo::Either(_, _, _) => false,
    }
}

fn is_branch(memo: &PageMemo) -> bool
    ensures { result ≡ is_branch (kept memo.now) }
{
    match memo {
        PageMemo::Branch(_, _, _) => true,
        PageMemo::Unread => false,
        PageMemo::Blank => false,
        PageMemo::Line(_, _) => false,
        PageMemo::Element(_, _, _) => false,
        PageMemo::Loop(_, _, _) => false,
        PageMemo::Either(_, _, _) => false,
    }
}

fn is_loop(memo: &PageMemo) -> bool
    ensures { result ≡ is_loop (kept memo.now) }
{
    match memo {
        PageMemo::Loop(_, _, _) => true,
        PageMemo::Unread => false,
        PageMemo::Blank => false,
        PageMemo::Line(_, _) => false,
        PageMemo::Element(_, _, _) => false,
        PageMemo::Branch(_, _, _) => false,
        PageMemo::Either(_, _, _) => false,
    }
}

fn is_either(memo: &PageMemo) -> bool
    ensures { result ≡ is_either (kept memo.now) }
{
    match memo {
        PageMemo::Either(_, _, _) => true,
        PageMemo::Unread => false,
        PageMemo::Blank => false,
        PageMemo::Line(_, _) => false,
        PageMemo::Element(_, _, _) => false,
        PageMemo::Branch(_, _, _) => false,
        PageMemo::Loop(_, _, _) => false,
    }
}

/// Whether it is kept of a line as the first of these.
pub(crate) fn fits(lines: &Block, memo: &PageMemo) -> bool
    ensures { result ≡ fits (block lines.now) (kept memo.now) }
{
    match lines {
        Block::Empty => false,
        Block::Text(_, _, _) => is_line(memo),
        Block::Tag(_, _, _, _, _) => is_element(memo),
        Block::Choice(_, _, _, _) => is_branch(memo),
        Block::Each(_, _, _) => is_loop(memo),
        Block::Attempt(_, _, _) => is_either(memo),
    }
}

/// What is kept of the lines behind the first.
pub(crate) fn later_of(memo: &PageMemo) -> &PageMemo
    ensures { kept result.now ≡ later_of (kept memo.now) }
{
    match memo {
        PageMemo::Unread => memo,
        PageMemo::Blank => memo,
        PageMemo::Line(_, later) => later,
        PageMemo::Element(_, _, later) => later,
        PageMemo::Branch(_, _, later) => later,
        PageMemo::Loop(_, _, later) => later,
        PageMemo::Either(_, _, later) => later,
    }
}

// What is kept of that part of what is tried which is shown, by what is kept of both: the first, where the second wasn't read.
fn part_of<'a>(first: &'a PageMemo, second: &'a PageMemo) -> &'a PageMemo
    ensures { kept result.now ≡ part_of (kept first.now) (kept second.now) }
{
    match second {
        PageMemo::Unread => first,
        PageMemo::Blank => second,
        PageMemo::Line(_, _) => second,
        PageMemo::Element(_, _, _) => second,
        PageMemo::Branch(_, _, _) => second,
        PageMemo::Loop(_, _, _) => second,
        PageMemo::Either(_, _, _) => second,
    }
}

// Whether a part of what is tried is shown, the first or the second, by what is kept of the second.
fn shows_part(second: &PageMemo, first: bool) -> bool
    ensures { result ≡ shows_part (kept second.now) first }
{
    match second {
        PageMemo::Unread => first,
        PageMemo::Blank => !first,
        PageMemo::Line(_, _) => !first,
        PageMemo::Element(_, _, _) => !first,
        PageMemo::Branch(_, _, _) => !first,
        PageMemo::Loop(_, _, _) => !first,
        PageMemo::Either(_, _, _) => !first,
    }
}

/// What is kept inside an element, or of the branch or the part that is shown.
pub(crate) fn inside_of(memo: &PageMemo) -> &PageMemo
    ensures { kept result.now ≡ inside_of (kept memo.now) }
{
    match memo {
        PageMemo::Element(_, inside, _) => inside,
        PageMemo::Branch(_, inside, _) => inside,
        PageMemo::Unread => memo,
        PageMemo::Blank => memo,
        PageMemo::Line(_, _) => memo,
        PageMemo::Loop(_, _, _) => memo,
        PageMemo::Either(first, second, _) => part_of(first, second),
    }
}

/// What was heard of the attributes of an element.
pub(crate) fn attributes_of(memo: &PageMemo) -> &[Heard]
    ensures { map heard_of result.now ≡ attributes_of (kept memo.now) }
{
    match memo {
        PageMemo::Element(all, _, _) => all,
        PageMemo::Unread => &[],
        PageMemo::Blank => &[],
        PageMemo::Line(_, _) => &[],
        PageMemo::Branch(_, _, _) => &[],
        PageMemo::Loop(_, _, _) => &[],
        PageMemo::Either(_, _, _) => &[],
    }
}

/// Whether a branch of a choice or a part of what is tried is shown, the first or the other.
pub(crate) fn shows(memo: &PageMemo, first: bool) -> bool
    ensures { result ≡ shows (kept memo.now) first }
{
    match memo {
        PageMemo::Branch(test, _, _) => shows_branch(&test.outcome, first),
        PageMemo::Unread => false,
        PageMemo::Blank => false,
        PageMemo::Line(_, _) => false,
        PageMemo::Element(_, _, _) => false,
        PageMemo::Loop(_, _, _) => false,
        PageMemo::Either(_, second, _) => shows_part(second, first),
    }
}

/// The rows of a loop, and what is kept for each of them.
pub(crate) fn loop_of(memo: &PageMemo) -> (&[Row], &[PageMemo])
    ensures { rows_from (table_of (kept memo.now)) 0 result.0.now (map kept result.1.now) ≡ rows_of (kept memo.now) }
{
    match memo {
        PageMemo::Loop(heard, memos, _) => (rows_in(&heard.outcome), memos),
        PageMemo::Unread => (&[], &[]),
        PageMemo::Blank => (&[], &[]),
        PageMemo::Line(_, _) => (&[], &[]),
        PageMemo::Element(_, _, _) => (&[], &[]),
        PageMemo::Branch(_, _, _) => (&[], &[]),
        PageMemo::Either(_, _, _) => (&[], &[]),
    }
}

// Texts that come first and are the same, before lines that are brought up to date: they are passed over without a look at the signals.
ghost use Rattle.std.specs.Prelude.{◌≡◌, IfOk};
ghost use Rattle.tpl_blocks.specs.Blocks.{block};
ghost use Rattle.tpl_hearing.specs.HeardAgain.{AreCompared};
ghost use Rattle.tpl_model.specs.KeptLines.Kept.{kept};
ghost use Rattle.tpl_model.specs.KeptLines.Changes.{changed, same_before};
ghost use Rattle.tpl_kept.specs.SameTexts.{kept_behind, lines_behind, with_behind, AreSameTexts, AreTexts};

use crate::making::rest_of;
use sig_base::NoMemory;
use std::alloc::Global;
use std::mem;
use tpl_blocks::Block;
use tpl_hearing::{Outcomes, Rehearing};
use tpl_model::{Change, PageMemo};

/// How many texts come first of which each name was heard already and has the outcome of before.
pub(crate) fn count_same(hearing: &Rehearing, before: &Outcomes, memo: &PageMemo) -> usize
    requires { AreCompared before.now hearing.now }
    ensures { AreSameTexts result before.now hearing.now.heard (kept memo.now) }
{
    let mut at = memo;
    let mut near: usize = 0;
    let mut count: usize = 0;
    'passing: while count < usize::MAX {
        let PageMemo::Line(line, later) = at else {
            return count;
        };
        if !hearing.are_same(before, near, &line.names) {
            return count;
        }
        near = near.saturating_add(line.names.len());
        count += 1;
        at = later;
    }
    count
}

/// The lines behind so many.
pub(crate) fn lines_behind(lines: &Block, count: usize) -> &Block
    ensures { block result.now ≡ lines_behind count (block lines.now) }
{
    if count == 0 {
        return lines;
    }
    lines_behind(rest_of(lines), count - 1)
}

/// Exchanges what is kept behind so many texts for something else; gives near which place the names behind them are looked for, which decides
/// nothing of what comes of it.
#[tactic(auto, using(tpl_model::proofs::MemoEquations::kept_unread, tpl_model::proofs::MemoEquations::kept_blank, tpl_model::proofs::MemoEquations::kept_line, tpl_model::proofs::MemoEquations::kept_element, tpl_model::proofs::MemoEquations::kept_branch, tpl_model::proofs::MemoEquations::kept_loop, tpl_model::proofs::MemoEquations::kept_either))]
pub(crate) fn swap_behind(
    memo: &mut PageMemo,
    count: usize,
    near: usize,
    other: &mut PageMemo,
) -> usize
    requires { AreTexts count (kept memo.old) }
    ensures other { kept other.new ≡ kept_behind count (kept memo.old) }
    ensures memo { kept memo.new ≡ with_behind count (kept memo.old) (kept other.old) }
{
    if count == 0 {
        mem::swap(memo, other);
        return near;
    }
    match memo {
        PageMemo::Line(line, later) => {
            let next = near.saturating_add(line.names.len());
            swap_behind(later, count - 1, next, other)
        }
        PageMemo::Unread => unreachable!(),
        PageMemo::Blank => unreachable!(),
        PageMemo::Element(_, _, _) => unreachable!(),
        PageMemo::Branch(_, _, _) => unreachable!(),
        PageMemo::Loop(_, _, _) => unreachable!(),
        PageMemo::Either(_, _, _) => unreachable!(),
    }
}

/// So many texts are the same, before lines of which this became.
///
/// # Errors
///
/// `NoMemory` alone.
#[tactic(auto, using(tpl_model::proofs::ChangeEquations::changed_same, tpl_model::proofs::ChangeEquations::none_before, tpl_model::proofs::ChangeEquations::one_less))]
pub(crate) fn same_before(alloc: Global, count: usize, later: Change) -> Result<Change, NoMemory>
    ensures { IfOk result (λ c. changed c ≡ same_before count (changed later)) }
{
    if count == 0 {
        return Ok(later);
    }
    Ok(Change::Same(count - 1, Box::new(alloc, later)?))
}

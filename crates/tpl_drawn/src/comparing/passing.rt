// Texts that are the same, which are passed where children aren't listed.
ghost use Rattle.std.specs.Prelude.{◌≡◌, ℕ, false, List, Option, IfSome};
ghost use Rattle.tpl_blocks.specs.Blocks.{block};
ghost use Rattle.tpl_drawn.specs.Walks.{as_listed, of_lines};
ghost use Rattle.tpl_model.specs.KeptLines.Changes as model;
ghost use Rattle.tpl_model.specs.KeptLines.Changes.{changed, same_before};
ghost use Rattle.tpl_model.specs.KeptLines.Kept.{kept};

use tpl_blocks::Block;
use tpl_model::{Change, PageMemo};

// What is behind so many texts that are the same, and what is kept of it; it isn't told where one of so many lines is no text.
fn past_texts<'a>(
    lines: &'a Block,
    memo: &'a PageMemo,
    count: usize,
) -> Option<(&'a Block, &'a PageMemo)>
    ensures { IfSome result (λ r. (known : ℕ → Option ℕ) (k : Option (List ℕ)) (c : model.Change) →
        as_listed false (of_lines known k (block lines.now) (kept memo.now) (same_before count c))
        ≡ as_listed false (of_lines known k (block r.0.now) (kept r.1.now) c)) }
{
    let mut behind = lines;
    let mut left = memo;
    for _passed in 0..count {
        let Block::Text(_, _, rest) = behind else {
            return None;
        };
        let PageMemo::Line(_, later) = left else {
            return None;
        };
        behind = rest;
        left = later;
    }
    Some((behind, left))
}

/// Where lines are gone over: where children aren't listed, behind their first texts that are the same.
pub(crate) fn past_same<'a>(
    listed: bool,
    lines: &'a Block,
    memo: &'a PageMemo,
    change: &'a Change,
) -> (&'a Block, &'a PageMemo, &'a Change)
    ensures { (known : ℕ → Option ℕ) (k : Option (List ℕ)) →
        as_listed listed (of_lines known k (block lines.now) (kept memo.now) (changed change.now))
        ≡ as_listed listed (of_lines known k (block result.0.now) (kept result.1.now) (changed result.2.now)) }
{
    if listed {
        return (lines, memo, change);
    }
    let Change::Same(more, later) = change else {
        return (lines, memo, change);
    };
    let Block::Text(_, _, rest) = lines else {
        return (lines, memo, change);
    };
    let PageMemo::Line(_, behind) = memo else {
        return (lines, memo, change);
    };
    let Some((first, left)) = past_texts(rest, behind, *more) else {
        return (lines, memo, change);
    };
    (first, left, later)
}

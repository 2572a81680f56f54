// Lines that keep their topmost nodes, so that the children of the node around them needn't be listed.
ghost use Rattle.std.specs.Prelude.{◌≡◌, map};
ghost use Rattle.tpl_blocks.specs.Blocks.{block};
ghost use Rattle.tpl_drawn.specs.Comparison.{keeps_nodes};
ghost use Rattle.tpl_model.specs.KeptLines.Changes as model;
ghost use Rattle.tpl_model.specs.KeptLines.Changes.{chain, changed, first_in, over, same_before, stays};

use crate::comparing::children::is_plain;
use tpl_blocks::Block;
use tpl_model::Change;

// Whether lines of which the first was heard again keep their topmost nodes, where all behind it stays.
#[tactic(auto, using(crate::proofs::Compares::Tops::stays_keep))]
fn keeps_before(lines: &Block, same: bool) -> bool
    ensures { (inside : model.Change) → result ≡ keeps_nodes (block lines.now) (over same inside stays) }
{
    match lines {
        Block::Empty => true,
        Block::Text(_, _, _) => true,
        Block::Tag(_, _, _, _, _) => true,
        Block::Choice(_, _, _, _) => false,
        Block::Each(_, inner, _) => same && is_plain(inner),
        Block::Attempt(_, _, _) => same,
    }
}

// Whether lines of which the first was heard again keep their topmost nodes, where so many behind it are the same with nothing inside them, and this
// became of the lines behind these.
#[cycle(keeping)]
fn keeps_parts(lines: &Block, same: bool, more: usize, later: &Change) -> bool
    ensures { (inside : model.Change) → result ≡ keeps_nodes (block lines.now) (over same inside (same_before more (changed later.now))) }
{
    match lines {
        Block::Empty => true,
        Block::Text(_, _, rest) => keeps_behind(rest, more, later),
        Block::Tag(_, _, _, _, rest) => keeps_behind(rest, more, later),
        Block::Choice(_, _, _, _) => false,
        Block::Each(_, inner, rest) => same && is_plain(inner) && keeps_behind(rest, more, later),
        Block::Attempt(_, _, rest) => same && keeps_behind(rest, more, later),
    }
}

// Whether lines keep their topmost nodes of which so many are the same with nothing inside them, where this became of the lines behind these.
#[cycle(keeping)]
fn keeps_behind(lines: &Block, count: usize, later: &Change) -> bool
    ensures { result ≡ keeps_nodes (block lines.now) (same_before count (changed later.now)) }
{
    if count == 0 {
        return keeps_nodes(lines, later);
    }
    keeps_parts(lines, true, count - 1, later)
}

/// Whether lines keep their topmost nodes, where this became of them.
#[cycle(keeping)]
pub fn keeps_nodes(lines: &Block, change: &Change) -> bool
    ensures { result ≡ keeps_nodes (block lines.now) (changed change.now) }
{
    match change {
        Change::Stays => true,
        Change::Made => is_plain(lines),
        Change::Over(same, _, later) => keeps_parts(lines, *same, 0, later),
        Change::First(same, _) => keeps_before(lines, *same),
        Change::Same(more, later) => keeps_parts(lines, true, *more, later),
    }
}

/// Whether they do where this became of their parts, of which theirs is the first.
pub fn first_keeps(lines: &Block, inside: &[Change]) -> bool
    ensures { result ≡ keeps_nodes (block lines.now) (first_in (chain (map changed inside.now))) }
{
    let Some(change) = inside.first() else {
        return is_plain(lines);
    };
    keeps_nodes(lines, change)
}

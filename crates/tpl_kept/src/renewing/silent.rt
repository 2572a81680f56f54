// Lines of which it is known that they read no name, in whatever row they stand.
ghost use Rattle.std.specs.Prelude.{◌≡◌, map, true};
ghost use Rattle.sig_formula.specs.Trees.{tree};
ghost use Rattle.tpl_blocks.specs.Blocks.{block};
ghost use Rattle.tpl_kept.specs.Nameless.{all_slotless, nameless, slotless};

use crate::renewing::places::{Places, count_places};
use sig_base::Text;
use sig_formula::Formula;
use tpl_blocks::Block;

// Whether a formula has no slot.
fn slotless(formula: &Formula) -> bool
    ensures { result ≡ slotless (tree formula.now) }
{
    match formula {
        Formula::Lit(_) => true,
        Formula::Slot(_) => false,
        Formula::It(_) => true,
        Formula::ItKey => true,
        Formula::Not(inner) => slotless(inner),
        Formula::Bin(_, left, right) => slotless(left) && slotless(right),
        Formula::If(test, held, other) => slotless(test) && (slotless(held) && slotless(other)),
        Formula::Count(rows) => slotless(rows),
        Formula::Sum(rows, inner) => slotless(rows) && slotless(inner),
        Formula::Keep(rows, inner) => slotless(rows) && slotless(inner),
        Formula::Untrack(inner) => slotless(inner),
    }
}

// Whether no formula of attributes has a slot.
fn all_slotless(attributes: &[(Text, Formula)]) -> bool
    ensures { result ≡ all_slotless (map (λ a. (a.0, tree a.1)) attributes.now) }
{
    let Some((attribute, others)) = attributes.split_first() else {
        return true;
    };
    slotless(&attribute.1) && all_slotless(others)
}

// Whether no line has a formula with a slot; of lines with a loop or a `try` it isn't known.
fn nameless(lines: &Block) -> bool
    ensures { result ≡ nameless (block lines.now) }
{
    match lines {
        Block::Empty => true,
        Block::Text(_, formula, rest) => slotless(formula) && nameless(rest),
        Block::Tag(_, _, attributes, inner, rest) => {
            all_slotless(attributes) && (nameless(inner) && nameless(rest))
        }
        Block::Choice(test, one, other, rest) => {
            slotless(test) && (nameless(one) && (nameless(other) && nameless(rest)))
        }
        Block::Each(_, _, _) => false,
        Block::Attempt(_, _, _) => false,
    }
}

/// Whether lines are known to read no name, which is looked at where they stand in rows.
pub(crate) fn reads_nothing(rows: Places<'_>, at: usize, lines: &Block) -> bool
    ensures { result ≡ true → nameless (block lines.now) ≡ true }
{
    count_places(rows).saturating_sub(at) > 1 && nameless(lines)
}

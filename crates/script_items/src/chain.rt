// Reads a computed of operators between names, whole numbers and truths, each of which stands behind one blank and binds no tighter than those
// before it, without cutting it into tokens.
ghost use Rattle.std.specs.Prelude.{◌≡◌, ◌∷◌, ◌++◌, [], ◌<◌, ◌≤◌, ℕ, codes, length, IfOk, IfSome, MatchOption, OnOk};
ghost use Rattle.sig_formula.specs.Trees.{binary, tree};
ghost use Rattle.formula_text.specs.Canonical.{operator_text};
ghost use Rattle.formula_text.specs.Grammar.{before, leaf, level};
ghost use Rattle.formula_text.specs.Refusals.{leaf_tree, with_leaf};
ghost use Rattle.formula_text.specs.Slots.{wired};
ghost use Rattle.script_items.specs.Chains.{linked, linked_tree, with_links, AreLinks, IsChain};
ghost use Rattle.script_items.specs.Operations.{leaf_of, IsOperand};
ghost use Rattle.script_items.specs.Views.{IsPlain};

use crate::common::{behind, parted};
use crate::known::KnownNames;
use crate::operation::{Operand, boxed, formula_of, operand_of, put_name};
use formula_text::Wired;
use line_forms::Unread;
use live_cmd::{Command, Item, SourceText};
use sig_base::{MOST_HEIGHT, Name, NoMemory};
use sig_formula::{BinOp, Formula};
use std::alloc::Global;

/// An operator, and what stands behind it.
#[derive(Drop)]
pub struct Link {
    pub operator: BinOp,
    pub operand: Operand,
}

/// Operators between operands, from left to right.
#[derive(Drop)]
pub struct Chain {
    pub first: Operand,
    pub links: Vec<Link>,
}

// The rule of a leaf, the tightest of the grammar.
const LEAF: u8 = 8;

// The most operators between leaves whose formula isn't too high.
const MOST_LINKS: usize = MOST_HEIGHT - 1;

// The operator that bytes are, if it has one byte, with its rule and the loosest rule of what stands before it.
fn operator_of(text: &[u8]) -> Option<(BinOp, u8, u8)>
    ensures { IfSome result (λ o. (text.now ≡ operator_text o.0) × (o.1 ≡ level o.0) × (o.2 ≡ before o.0)) }
{
    match text {
        [b'+'] => Some((BinOp::Add, 6, 6)),
        [b'-'] => Some((BinOp::Sub, 6, 6)),
        [b'*'] => Some((BinOp::Mul, 7, 7)),
        [b'/'] => Some((BinOp::Div, 7, 7)),
        [b'%'] => Some((BinOp::Rem, 7, 7)),
        [b'<'] => Some((BinOp::Lt, 4, 5)),
        [b'>'] => Some((BinOp::Gt, 4, 5)),
        _ => None,
    }
}

// The operator that bytes are, and its rule, if what stands before it may be of this one.
fn operator_behind(rule: u8, text: &[u8]) -> Option<(BinOp, u8)>
    ensures { IfSome result (λ o. (text.now ≡ operator_text o.0) × (o.1 ≡ level o.0) × (before o.0 ≤ rule)) }
{
    let (operator, own, loosest) = operator_of(text)?;
    if rule < loosest {
        return None;
    }
    Some((operator, own))
}

// An operator, and what stands behind it.
fn link_of(
    alloc: Global,
    known: &mut KnownNames,
    operator: BinOp,
    text: &[u8],
) -> Result<Link, Unread>
    ensures { IfOk result (λ l. (l.operator ≡ operator) × IsOperand text.now l.operand) }
{
    let operand = operand_of(alloc, known, text)?;
    Ok(Link { operator, operand })
}

// What stands before the first blank, and what behind it, if there is one.
fn first_of(text: &[u8]) -> (&[u8], Option<&[u8]>)
    ensures { MatchOption result.1 (text.now ≡ result.0.now) (λ more. text.now ≡ result.0.now ++ 32 ∷ more.now) }
{
    match parted(text, b' ') {
        Some((word, more)) => (word, Some(more)),
        None => (text, None),
    }
}

// The operators behind the first operand and a blank, and what stands behind each.
fn links_of(alloc: Global, known: &mut KnownNames, text: &[u8]) -> Result<Vec<Link>, Unread>
    ensures { IfOk result (λ ls. AreLinks text.now ls.items) }
{
    let mut links = Vec::new(alloc);
    let mut rule = LEAF;
    let mut rest = text;
    while let Some((sign, others)) = parted(rest, b' ') {
        if MOST_LINKS <= links.len() {
            return Err(Unread::NotThere);
        }
        let Some((operator, own)) = operator_behind(rule, sign) else {
            return Err(Unread::NotThere);
        };
        let (word, more) = first_of(others);
        let link = link_of(alloc, known, operator, word)?;
        links.push(link)?;
        let Some(more) = more else {
            return Ok(links);
        };
        rule = own;
        rest = more;
    }
    Err(Unread::NotThere)
}

// The operators between operands that bytes are.
fn chain_of(alloc: Global, known: &mut KnownNames, text: &[u8]) -> Result<Chain, Unread>
    ensures { IfOk result (λ c. IsChain text.now c) }
{
    let Some((word, rest)) = parted(text, b' ') else {
        return Err(Unread::NotThere);
    };
    let links = links_of(alloc, known, rest)?;
    let first = operand_of(alloc, known, word)?;
    Ok(Chain { first, links })
}

// Appends the names behind operators that aren't there yet.
fn put_names(names: &mut Vec<Name>, links: &[Link]) -> Result<(), NoMemory>
    ensures { OnOk result (names.new.items ≡ with_links names.old.items links.now) }
{
    for link in links {
        put_name(names, &link.operand)?;
    }
    Ok(())
}

// The names of operators between operands.
fn names_of(alloc: Global, chain: &Chain) -> Result<Vec<Name>, NoMemory>
    ensures { IfOk result (λ ns. ns.items ≡ with_links (with_leaf [] (leaf_of chain.now.first)) chain.now.links.items) }
{
    let mut names = Vec::new(alloc);
    put_name(&mut names, &chain.first)?;
    put_names(&mut names, &chain.links)?;
    Ok(names)
}

// The formula of an operator between a formula and an operand.
fn joined(alloc: Global, names: &[Name], left: Formula, link: Link) -> Result<Formula, NoMemory>
    requires { length names.now ≤ MOST_HEIGHT }
    ensures { IfOk result (λ f. tree f ≡ binary link.operator (tree left) (leaf_tree names.now (leaf_of link.operand))) }
{
    let left = boxed(alloc, left)?;
    let right = boxed(alloc, formula_of(names, link.operand))?;
    Ok(Formula::Bin(link.operator, left, right))
}

// The formula of operators behind another.
#[tactic(auto, using(crate::proofs::Chains::tree_more))]
fn formula_behind(
    alloc: Global,
    names: &[Name],
    first: Formula,
    links: Vec<Link>,
) -> Result<Formula, NoMemory>
    requires { length names.now ≤ MOST_HEIGHT }
    ensures { IfOk result (λ f. tree f ≡ linked_tree names.now (tree first) links.items) }
{
    let mut formula = first;
    for link in links {
        formula = joined(alloc, names, formula, link)?;
    }
    Ok(formula)
}

// The formula of operators between operands over the places of few names.
fn formula_over(alloc: Global, names: &[Name], chain: Chain) -> Result<Formula, NoMemory>
    requires { length names.now ≤ MOST_HEIGHT }
    ensures { IfOk result (λ f. tree f ≡ linked_tree names.now (leaf_tree names.now (leaf_of chain.first)) chain.links.items) }
{
    let first = formula_of(names, chain.first);
    let formula = formula_behind(alloc, names, first, chain.links)?;
    Ok(formula)
}

// The formula of few operators between operands, with the names of its slots.
fn wired(alloc: Global, chain: Chain) -> Result<Wired, NoMemory>
    requires { length chain.links.items < MOST_HEIGHT }
    ensures { IfOk result (λ w. w ≡ wired (linked (leaf (leaf_of chain.first)) chain.links.items)) }
{
    let names = names_of(alloc, &chain)?;
    let formula = formula_over(alloc, &names, chain)?;
    Ok(Wired { formula, names })
}

// The name and the formula of such a line behind its first word.
fn sides(text: &[u8]) -> Option<(&[u8], &[u8])>
    ensures { IfSome result (λ p. text.now ≡ p.0.now ++ (codes " = " ++ p.1.now)) }
{
    let (name, rest) = parted(text, b' ')?;
    let rest = behind(rest, b'=')?;
    let formula = behind(rest, b' ')?;
    Some((name, formula))
}

/// `computed N = A o B ..`, behind the word and a blank.
pub(crate) fn chained(alloc: Global, known: &mut KnownNames, text: &[u8]) -> Result<Item, Unread>
    ensures { (k : ℕ) → IfOk result (λ i. IsPlain (k, codes "computed " ++ text.now) i) }
{
    let Some((name, formula)) = sides(text) else {
        return Err(Unread::NotThere);
    };
    let chain = chain_of(alloc, known, formula)?;
    let name = known.name(alloc, name)?;
    let formula = wired(alloc, chain)?;
    let source = SourceText::Formula(formula);
    let inside = None;
    Ok(Item::Do(Command::Computed {
        name,
        source,
        inside,
    }))
}

// Reads a computed of one operator between names, whole numbers and truths, of which each part stands behind one blank, without cutting it
// into tokens.
ghost use Rattle.std.specs.Prelude.{◌≡◌, ◌++◌, ◌≤◌, ℕ, codes, length, IfOk, IfSome, OnOk};
ghost use Rattle.sig_formula.specs.Trees.{tree};
ghost use Rattle.formula_text.specs.Canonical.{operator_text};
ghost use Rattle.formula_text.specs.Grammar.{binary, leaf};
ghost use Rattle.formula_text.specs.Refusals.{leaf_tree, with_leaf};
ghost use Rattle.formula_text.specs.Slots.{wired};
ghost use Rattle.script_items.specs.Operations.{leaf_of, operation_text, IsOperand};
ghost use Rattle.script_items.specs.Views.{IsPlain};

use crate::common::{behind, parted};
use crate::known::KnownNames;
use crate::short::short;
use formula_text::Wired;
use line_forms::{Unread, put_new_name, slot_of};
use live_cmd::{Command, Item, SourceText};
use sig_base::{MOST_HEIGHT, MOST_NAME, Name, NoMemory, Scalar};
use sig_formula::{BinOp, Formula};
use std::alloc::Global;

/// What may stand beside an operator.
#[derive(Drop)]
pub enum Operand {
    Name(Name),
    /// A whole number or a truth.
    Value(Scalar),
}

/// What bytes are beside an operator.
#[tactic(auto, using(crate::proofs::Operations::value_operand, crate::proofs::Operations::name_operand))]
pub(crate) fn operand_of(
    alloc: Global,
    known: &mut KnownNames,
    text: &[u8],
) -> Result<Operand, Unread>
    ensures { IfOk result (λ o. IsOperand text.now o) }
{
    if MOST_NAME < text.len() {
        return Err(Unread::NotThere);
    }
    if let Some(value) = short(text) {
        return Ok(Operand::Value(value));
    }
    let name = known.name(alloc, text)?;
    Ok(Operand::Name(name))
}

// The operator that bytes are, if it has one byte.
fn operator_of(text: &[u8]) -> Option<BinOp>
    ensures { IfSome result (λ o. text.now ≡ operator_text o) }
{
    match text {
        [b'+'] => Some(BinOp::Add),
        [b'-'] => Some(BinOp::Sub),
        [b'*'] => Some(BinOp::Mul),
        [b'/'] => Some(BinOp::Div),
        [b'%'] => Some(BinOp::Rem),
        [b'<'] => Some(BinOp::Lt),
        [b'>'] => Some(BinOp::Gt),
        _ => None,
    }
}

/// Appends the name of an operand, if it is one that isn't there yet.
pub(crate) fn put_name(names: &mut Vec<Name>, operand: &Operand) -> Result<(), NoMemory>
    ensures { OnOk result (names.new.items ≡ with_leaf names.old.items (leaf_of operand.now)) }
{
    match operand {
        Operand::Name(name) => put_new_name(names, name),
        Operand::Value(_) => Ok(()),
    }
}

/// The formula of an operand over the places of few names.
pub(crate) fn formula_of(names: &[Name], operand: Operand) -> Formula
    requires { length names.now ≤ MOST_HEIGHT }
    ensures { tree result ≡ leaf_tree names.now (leaf_of operand) }
{
    match operand {
        Operand::Name(name) => Formula::Slot(slot_of(names, &name)),
        Operand::Value(value) => Formula::Lit(value),
    }
}

/// A formula in a box.
pub(crate) fn boxed(alloc: Global, formula: Formula) -> Result<Box<Formula>, NoMemory>
    ensures { IfOk result (λ b. b.value ≡ formula) }
{
    let held = Box::new(alloc, formula)?;
    Ok(held)
}

// The formula of an operator between two operands, with the names of its slots.
fn wired(alloc: Global, operator: BinOp, left: Operand, right: Operand) -> Result<Wired, NoMemory>
    ensures { IfOk result (λ w. w ≡ wired (binary operator (leaf (leaf_of left)) (leaf (leaf_of right)))) }
{
    let mut names = Vec::with_capacity(alloc, 2)?;
    put_name(&mut names, &left)?;
    put_name(&mut names, &right)?;
    let left = boxed(alloc, formula_of(&names, left))?;
    let right = boxed(alloc, formula_of(&names, right))?;
    let formula = Formula::Bin(operator, left, right);
    Ok(Wired { formula, names })
}

// The parts of such a line behind its first word: the name, what stands before the operator, the operator, and what stands behind it.
#[derive(Clone, Copy)]
struct Parts<'a> {
    name: &'a [u8],
    left: &'a [u8],
    operator: BinOp,
    right: &'a [u8],
}

fn parts_of(text: &[u8]) -> Option<Parts<'_>>
    ensures { IfSome result (λ p. text.now ≡ operation_text p.name.now p.left.now p.operator p.right.now) }
{
    let (name, rest) = parted(text, b' ')?;
    let rest = behind(rest, b'=')?;
    let rest = behind(rest, b' ')?;
    let (left, rest) = parted(rest, b' ')?;
    let (sign, right) = parted(rest, b' ')?;
    let operator = operator_of(sign)?;
    Some(Parts {
        name,
        left,
        operator,
        right,
    })
}

/// `computed N = A o B`, behind the word and a blank.
pub(crate) fn computed(alloc: Global, known: &mut KnownNames, text: &[u8]) -> Result<Item, Unread>
    ensures { (k : ℕ) → IfOk result (λ i. IsPlain (k, codes "computed " ++ text.now) i) }
{
    let Some(parts) = parts_of(text) else {
        return Err(Unread::NotThere);
    };
    let right = operand_of(alloc, known, parts.right)?;
    let left = operand_of(alloc, known, parts.left)?;
    let name = known.name(alloc, parts.name)?;
    let formula = wired(alloc, parts.operator, left, right)?;
    let source = SourceText::Formula(formula);
    let inside = None;
    Ok(Item::Do(Command::Computed {
        name,
        source,
        inside,
    }))
}

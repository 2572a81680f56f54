// Formulas with slots and names.
ghost use Rattle.std.specs.Prelude.{◌≡◌, ◌<◌, ◌≤◌, ℕ, List, true, false, None, Some, length, map, position, unwrap_or, IfOk, IfErr, IfSome, IsErrOf};
ghost use Rattle.std.specs.Str.{bytes_eq};
ghost use Rattle.sig_base.specs.declared.text.TextFault.TheVariants as text_fault;
ghost use Rattle.sig_formula.specs.Trees.{tree};
ghost use Rattle.sig_words.specs.Tokens.{AreTokens};
ghost use Rattle.formula_text.specs.declared.wired.FormulaFault.TheVariants as fault;
ghost use Rattle.formula_text.specs.Refusals.{each_tree, has_long_text, one_tree, row_tree, slot_of, slotted};
ghost use Rattle.formula_text.specs.Rough.{bytes_at, draft, HasLeaves};
ghost use Rattle.formula_text.specs.Slots.{of_text_fault, refusal, wired, IsCause, IsLongCause, IsWired, Refuses};

use crate::judge::{has_untrack, is_above, name_at, needs_row, put_names, text_at};
use crate::reader::read_rough;
use crate::rough::{Around, OverRows, Rough};
use sig_base::{MOST_HEIGHT, MOST_SOURCES, Name, NoMemory, Scalar, TextFault, same_bytes};
use sig_formula::Formula;
use sig_words::{Token, token_bytes};
use std::alloc::{AllocFailed, Global};
use std::marker::Model;
use thiserror::Error;

/// A formula over slots, and the names that the slots stand for, in the order of their first places.
#[derive(Drop)]
pub struct Wired {
    pub formula: Formula,
    pub names: Vec<Name>,
}

impl Model for Wired {
    ghost use Rattle.sig_formula.specs.Trees.{tree};
    ghost use Rattle.sig_formula.specs.Codes.{tree_code};
    ghost use Rattle.std.specs.Coded.{codes};
    ghost use Rattle.formula_text.specs.Slots.{Wiring};

    ghost Value = { Wiring };

    ghost coded = { Prim.hlevel (codes, tree_code) };

    ghost view = { λ w. (tree w.formula, w.names.items) };
}

/// What may stand in a formula at its place: the fields of a row, and reads that aren't tracked.
#[derive(Clone, Copy)]
pub struct Allow {
    pub row: bool,
    pub untrack: bool,
}

/// Why there is no formula.
#[derive(Clone, Copy, Debug, PartialEq, Eq, Error)]
pub enum FormulaFault {
    #[error("no formula begins here")]
    Syntax,
    #[error("untrack isn't allowed here")]
    UntrackHere,
    #[error("there is no row here")]
    ItHere,
    #[error("a formula is too high")]
    Nest,
    #[error("a text is too long")]
    TextLong,
    #[error("a formula has too many names")]
    Sources,
    #[error(transparent)]
    NoMemory(NoMemory),
}

impl From<NoMemory> for FormulaFault {
    ghost from_gives = { λ e f. f ≡ fault.NoMemory e };

    fn from(e: NoMemory) -> Self {
        FormulaFault::NoMemory(e)
    }
}

impl From<TextFault> for FormulaFault {
    ghost from_gives = { λ e f. f ≡ of_text_fault e };

    fn from(e: TextFault) -> Self {
        match e {
            TextFault::Long => FormulaFault::TextLong,
            TextFault::NoMemory(e) => FormulaFault::NoMemory(e),
        }
    }
}

impl<T: Drop> From<AllocFailed<T>> for FormulaFault {
    ghost from_gives = { λ _ f. f ≡ fault.NoMemory (record {}) };

    fn from(_: AllocFailed<T>) -> Self {
        FormulaFault::NoMemory(NoMemory)
    }
}

// The place of a name.
fn place_of(names: &[Name], text: &[u8]) -> Option<usize>
    ensures place { result ≡ position (λ m. bytes_eq m text.now) names.now }
    ensures within { IfSome result (λ i. i < length names.now) }
{
    names
        .iter()
        .position(|n| same_bytes(n.as_str().as_bytes(), text))
}

// The slot of a name among few.
fn slot_of(names: &[Name], text: &[u8]) -> u32
    ensures { length names.now ≤ MOST_SOURCES → result ≡ slot_of names.now text.now }
{
    let place = place_of(names, text).unwrap_or(0);
    u32::try_from(place).unwrap_or(u32::MAX)
}

// The key of a row, or its field of this name.
fn row_formula(name: Name) -> Formula
    ensures { tree result ≡ row_tree name }
{
    if name.as_str() == "key" {
        Formula::ItKey
    } else {
        Formula::It(name)
    }
}

fn one_formula(form: Around, inner: Box<Formula>) -> Formula
    ensures { tree result ≡ one_tree form (tree inner.value) }
{
    match form {
        Around::Count => Formula::Count(inner),
        Around::Untrack => Formula::Untrack(inner),
    }
}

fn each_formula(form: OverRows, rows: Box<Formula>, each: Box<Formula>) -> Formula
    ensures { tree result ≡ each_tree form (tree rows.value) (tree each.value) }
{
    match form {
        OverRows::Sum => Formula::Sum(rows, each),
        OverRows::Keep => Formula::Keep(rows, each),
    }
}

// A formula in a box.
fn boxed(alloc: Global, formula: Formula) -> Result<Box<Formula>, NoMemory>
    ensures { IfOk result (λ b. b.value ≡ formula) }
{
    let held = Box::new(alloc, formula)?;
    Ok(held)
}

// The formula whose slots are the places of its names, in a box.
#[cycle(slotting)]
fn slotted(
    alloc: Global,
    line: &[u8],
    tokens: &[Token],
    rough: &Rough,
    names: &[Name],
) -> Result<Box<Formula>, FormulaFault>
    requires of_line { AreTokens line.now tokens.now }
    requires leaves { HasLeaves line.now tokens.now rough.now }
    ensures ok { length names.now ≤ MOST_SOURCES → IfOk result (λ f. tree f.value ≡ slotted names.now (draft line.now tokens.now rough.now)) }
    ensures texts { IfOk result (λ f. has_long_text (draft line.now tokens.now rough.now) ≡ false) }
    ensures failed { IfErr result (λ e. IsLongCause (has_long_text (draft line.now tokens.now rough.now)) e) }
{
    let formula = formula_of(alloc, line, tokens, rough, names)?;
    Ok(boxed(alloc, formula)?)
}

// The formula whose slots are the places of its names.
#[cycle(slotting)]
fn formula_of(
    alloc: Global,
    line: &[u8],
    tokens: &[Token],
    rough: &Rough,
    names: &[Name],
) -> Result<Formula, FormulaFault>
    requires of_line { AreTokens line.now tokens.now }
    requires leaves { HasLeaves line.now tokens.now rough.now }
    ensures ok { length names.now ≤ MOST_SOURCES → IfOk result (λ f. tree f ≡ slotted names.now (draft line.now tokens.now rough.now)) }
    ensures texts { IfOk result (λ f. has_long_text (draft line.now tokens.now rough.now) ≡ false) }
    ensures failed { IfErr result (λ e. IsLongCause (has_long_text (draft line.now tokens.now rough.now)) e) }
{
    match rough {
        Rough::Name(place) => {
            let slot = slot_of(names, token_bytes(line, &tokens[*place]));
            Ok(Formula::Slot(slot))
        }
        Rough::Text(place) => {
            let text = text_at(alloc, line, tokens, *place)?;
            Ok(Formula::Lit(Scalar::Text(text)))
        }
        Rough::Number(n) => Ok(Formula::Lit(Scalar::Int(*n))),
        Rough::Truth(b) => Ok(Formula::Lit(Scalar::Bool(*b))),
        Rough::It(place) => {
            let name = name_at(alloc, line, tokens, *place)?;
            Ok(row_formula(name))
        }
        Rough::Not(inner) => {
            let inner = slotted(alloc, line, tokens, inner, names)?;
            Ok(Formula::Not(inner))
        }
        Rough::Bin(o, left, right) => {
            let left = slotted(alloc, line, tokens, left, names)?;
            let right = slotted(alloc, line, tokens, right, names)?;
            Ok(Formula::Bin(*o, left, right))
        }
        Rough::If(test, held, other) => {
            let test = slotted(alloc, line, tokens, test, names)?;
            let held = slotted(alloc, line, tokens, held, names)?;
            let other = slotted(alloc, line, tokens, other, names)?;
            Ok(Formula::If(test, held, other))
        }
        Rough::Around(form, inner) => {
            let inner = slotted(alloc, line, tokens, inner, names)?;
            Ok(one_formula(*form, inner))
        }
        Rough::OverRows(form, rows, each) => {
            let rows = slotted(alloc, line, tokens, rows, names)?;
            let each = slotted(alloc, line, tokens, each, names)?;
            Ok(each_formula(*form, rows, each))
        }
    }
}

/// A formula that was read, with slots for its names. A formula is refused, in this order, for an `untrack` where none is
/// allowed, for an `it` where there is no row, for a height of more than `MOST_HEIGHT`, for a text of more than `MOST_TEXT` bytes and for more than
/// `MOST_SOURCES` distinct names.
pub fn wire(
    alloc: Global,
    line: &[u8],
    tokens: &[Token],
    rough: &Rough,
    allow: Allow,
) -> Result<Wired, FormulaFault>
    requires of_line { AreTokens line.now tokens.now }
    requires leaves { HasLeaves line.now tokens.now rough.now }
    ensures ok { IfOk result (λ w. w ≡ wired (draft line.now tokens.now rough.now)) }
    ensures accepted { IfOk result (λ w. refusal allow (draft line.now tokens.now rough.now) ≡ None) }
    ensures refused { IfErr result (λ e. IsCause allow (draft line.now tokens.now rough.now) e) }
{
    if has_untrack(rough) && !allow.untrack {
        return Err(FormulaFault::UntrackHere);
    }
    if needs_row(rough) && !allow.row {
        return Err(FormulaFault::ItHere);
    }
    if is_above(rough, MOST_HEIGHT) {
        return Err(FormulaFault::Nest);
    }
    let mut names = Vec::new(alloc);
    put_names(alloc, &mut names, line, tokens, rough)?;
    let formula = formula_of(alloc, line, tokens, rough, &names)?;
    if names.len() > MOST_SOURCES {
        return Err(FormulaFault::Sources);
    }
    Ok(Wired { formula, names })
}

/// The longest formula from a place on, and the place of the token after it. `Syntax` where no formula begins there; the
/// other faults are those of `wire`.
pub fn read_formula(
    alloc: Global,
    line: &[u8],
    tokens: &[Token],
    from: usize,
    allow: Allow,
) -> Result<(Wired, usize), FormulaFault>
    requires of_line { AreTokens line.now tokens.now }
    requires inside { from ≤ length tokens.now }
    ensures ok { IfOk result (λ p. IsWired line.now tokens.now from p.1 allow p.0) }
    ensures refused { IfErr result (λ e. Refuses line.now tokens.now from allow e) }
{
    let Some((rough, to)) = read_rough(alloc, line, tokens, from)? else {
        return Err(FormulaFault::Syntax);
    };
    match wire(alloc, line, tokens, &rough, allow) {
        Ok(wired) => Ok((wired, to)),
        Err(e) => Err(e),
    }
}

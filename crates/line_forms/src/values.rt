// The reader of values between parentheses.
ghost use Rattle.std.specs.Prelude.{◌≡◌, ◌∷◌, ◌++◌, [], List, None, Some, IfOk, MatchOption, OnOk, option_map};
ghost use Rattle.sig_base.specs.declared.scalar.Scalar as scalar;
ghost use Rattle.sig_words.specs.Tokens.{AreTokens};
ghost use Rattle.line_forms.specs.Forms.{listed, value};
ghost use Rattle.line_forms.specs.Reader.{read_behind, read_part, with_first};
ghost use Rattle.line_forms.specs.Reads.{IfRead};
ghost use Rattle.line_forms.specs.Told.{ahead, first_long, AreToldValues, IsToldScalar};

use crate::cursor::{ToldValue, symbol_at, value_at};
use crate::unread::Unread;
use formula_text::FormulaFault;
use sig_base::{NoMemory, Scalar, Scalars};
use sig_words::Token;
use std::alloc::Global;
use std::marker::Model;

/// Values, or that one of them is too long.
pub type ToldValues = Result<Scalars, FormulaFault>;

/// Values that are held while others are read.
#[derive(Drop)]
pub struct Held {
    values: Vec<Scalar>,
}

impl Model for Held {
    ghost use Rattle.std.specs.Prelude.{List};
    ghost use Rattle.sig_base.specs.declared.scalar.Scalar.{Scalar};

    ghost Value = { List Scalar };

    ghost view = { λ h. h.values.items };
}

impl Held {
    // No values.
    fn empty(alloc: Global) -> Held
        ensures { result ≡ [] }
    {
        Held {
            values: Vec::new(alloc),
        }
    }

    // One value more.
    fn push(&mut self, value: Scalar) -> Result<(), NoMemory>
        ensures { OnOk result (self.new ≡ self.old ++ value ∷ []) }
    {
        self.values.push(value)?;
        Ok(())
    }
}

// Held values, or that one of them is too long.
type HeldValues = Result<Held, FormulaFault>;

// One value more behind those that are held.
#[tactic(auto, using(crate::proofs::Scalars::longer_sound))]
fn pushed(held: Held, value: ToldValue) -> Result<HeldValues, NoMemory>
    ensures { (v : scalar.Scalar) → first_long held ≡ None → IsToldScalar v value → IfOk result (λ r. AreToldValues (held ++ v ∷ []) r) }
{
    let mut values = held;
    match value {
        Ok(value) => {
            values.push(value)?;
            Ok(Ok(values))
        }
        Err(fault) => Ok(Err(fault)),
    }
}

// One value more.
fn with_value(held: HeldValues, value: ToldValue) -> Result<HeldValues, NoMemory>
    ensures { (vs : List scalar.Scalar) (v : scalar.Scalar) → AreToldValues vs held → IsToldScalar v value → IfOk result (λ r. AreToldValues (vs ++ v ∷ []) r) }
{
    match held {
        Ok(values) => pushed(values, value),
        Err(fault) => Ok(Err(fault)),
    }
}

// The values behind the first of a list, each behind a comma, up to the closing parenthesis.
#[tactic(auto, unfolding(crate::specs::Told::ahead))]
fn values_behind(
    alloc: Global,
    line: &[u8],
    tokens: &[Token],
    from: usize,
    first: ToldValue,
) -> Result<(HeldValues, usize), Unread>
    requires { AreTokens line.now tokens.now }
    ensures { (v : scalar.Scalar) → IsToldScalar v first → IfRead result (λ found. MatchOption found
        (None ≡ option_map (with_first v) (read_behind value (ahead line.now tokens.now from)))
        (λ p. (vs : List scalar.Scalar) × (Some (vs, ahead line.now tokens.now p.1) ≡ option_map (with_first v) (read_behind value (ahead line.now tokens.now from)))
        × AreToldValues vs p.0)) }
{
    let mut held = with_value(Ok(Held::empty(alloc)), first)?;
    let mut at = from;
    while let Ok(after) = symbol_at(line, tokens, at, b",") {
        let (value, next) = value_at(alloc, line, tokens, after)?;
        let more = with_value(held, value)?;
        held = more;
        at = next;
    }
    let after = symbol_at(line, tokens, at, b")")?;
    Ok((held, after))
}

// Values that were read, to be shared.
fn shared(alloc: Global, held: HeldValues) -> Result<ToldValues, NoMemory>
    ensures { (vs : List scalar.Scalar) → AreToldValues vs held → IfOk result (λ r. AreToldValues vs r) }
{
    match held {
        Ok(held) => Ok(Ok(Scalars::of(alloc, held.values)?)),
        Err(fault) => Ok(Err(fault)),
    }
}

// No values.
fn no_values(alloc: Global) -> Result<ToldValues, NoMemory>
    ensures { IfOk result (λ r. AreToldValues [] r) }
{
    Ok(Ok(Scalars::of(alloc, Vec::new(alloc))?))
}

/// Values between parentheses from a place on, or that one of them is too long, and the place after them.
#[tactic(auto, unfolding(crate::specs::Told::ahead))]
pub fn values_at(
    alloc: Global,
    line: &[u8],
    tokens: &[Token],
    at: usize,
) -> Result<(ToldValues, usize), Unread>
    requires { AreTokens line.now tokens.now }
    ensures { IfRead result (λ found. MatchOption found (read_part (listed value) (ahead line.now tokens.now at) ≡ None)
        (λ p. (vs : List scalar.Scalar) × (read_part (listed value) (ahead line.now tokens.now at) ≡ Some (vs, ahead line.now tokens.now p.1))
        × AreToldValues vs p.0)) }
{
    let at = symbol_at(line, tokens, at, b"(")?;
    if let Ok(after) = symbol_at(line, tokens, at, b")") {
        return Ok((no_values(alloc)?, after));
    }
    let (first, after) = value_at(alloc, line, tokens, at)?;
    let (held, end) = values_behind(alloc, line, tokens, after, first)?;
    Ok((shared(alloc, held)?, end))
}

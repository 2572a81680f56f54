// What a formula is refused for, and its names.
ghost use Rattle.std.specs.Prelude.{◌≡◌, ◌<◌, ◌≤◌, ℕ, List, true, false, Some, length, position, slice_get, nat_lt, IfOk, IsErrOf, OnOk};
ghost use Rattle.std.specs.List.{list_any};
ghost use Rattle.std.specs.Str.{bytes_eq};
ghost use Rattle.sig_base.specs.Words.{is_name};
ghost use Rattle.sig_words.specs.Tokens.{AreTokens};
ghost use Rattle.formula_text.specs.Rough.{bytes_at, draft, inside, HasLeaves, IsLiteralAt};
ghost use Rattle.formula_text.specs.Refusals.{has_row_form, has_untrack, is_above, needs_row, with_name, with_names};

use crate::rough::{Around, Rough};
use sig_base::{MOST_TEXT, Name, NoMemory, Text, TextFault, same_bytes};
use sig_words::{Token, literal, token_bytes};
use std::alloc::Global;
use std::str;

/// Whether an `untrack` stands in it.
pub fn has_untrack(rough: &Rough) -> bool
    ensures { (line : List ℕ) (tokens : List Token) → result ≡ has_untrack (draft line tokens rough.now) }
{
    match rough {
        Rough::Name(_) | Rough::Text(_) | Rough::Number(_) | Rough::Truth(_) => false,
        Rough::It(_) => false,
        Rough::Not(inner) => has_untrack(inner),
        Rough::Bin(_, left, right) | Rough::OverRows(_, left, right) => {
            has_untrack(left) || has_untrack(right)
        }
        Rough::If(test, held, other) => {
            has_untrack(test) || has_untrack(held) || has_untrack(other)
        }
        Rough::Around(Around::Untrack, _) => true,
        Rough::Around(Around::Count, inner) => has_untrack(inner),
    }
}

/// Whether it speaks of a row that it is given: whether `it` stands outside of the second parts of `sum` and `keep`.
pub fn needs_row(rough: &Rough) -> bool
    ensures { (line : List ℕ) (tokens : List Token) → result ≡ needs_row (draft line tokens rough.now) }
{
    match rough {
        Rough::Name(_) | Rough::Text(_) | Rough::Number(_) | Rough::Truth(_) => false,
        Rough::It(_) => true,
        Rough::Not(inner) | Rough::Around(_, inner) => needs_row(inner),
        Rough::Bin(_, left, right) => needs_row(left) || needs_row(right),
        Rough::If(test, held, other) => needs_row(test) || needs_row(held) || needs_row(other),
        Rough::OverRows(_, rows, _) => needs_row(rows),
    }
}

/// Whether one of the forms that rows bring stands in it: `it`, `count`, `sum` or `keep`.
pub fn has_row_form(rough: &Rough) -> bool
    ensures { (line : List ℕ) (tokens : List Token) → result ≡ has_row_form (draft line tokens rough.now) }
{
    match rough {
        Rough::Name(_) | Rough::Text(_) | Rough::Number(_) | Rough::Truth(_) => false,
        Rough::It(_) | Rough::OverRows(_, _, _) => true,
        Rough::Not(inner) => has_row_form(inner),
        Rough::Bin(_, left, right) => has_row_form(left) || has_row_form(right),
        Rough::If(test, held, other) => {
            has_row_form(test) || has_row_form(held) || has_row_form(other)
        }
        Rough::Around(Around::Count, _) => true,
        Rough::Around(Around::Untrack, inner) => has_row_form(inner),
    }
}

/// Whether it is higher than that: a leaf has height 1, every other form one more than its highest part.
#[tactic(auto, unfolding(crate::specs::Refusals::is_above))]
pub fn is_above(rough: &Rough, most: usize) -> bool
    ensures { (line : List ℕ) (tokens : List Token) → result ≡ is_above most (draft line tokens rough.now) }
{
    match rough {
        Rough::Name(_) | Rough::Text(_) | Rough::Number(_) | Rough::Truth(_) => most == 0,
        Rough::It(_) => most == 0,
        Rough::Not(inner) | Rough::Around(_, inner) => most == 0 || is_above(inner, most - 1),
        Rough::Bin(_, left, right) | Rough::OverRows(_, left, right) => {
            most == 0 || is_above(left, most - 1) || is_above(right, most - 1)
        }
        Rough::If(test, held, other) => {
            most == 0
                || is_above(test, most - 1)
                || is_above(held, most - 1)
                || is_above(other, most - 1)
        }
    }
}

/// The text of the literal at a place; `Long` where it has more than `MOST_TEXT` bytes.
pub fn text_at(
    alloc: Global,
    line: &[u8],
    tokens: &[Token],
    place: usize,
) -> Result<Text, TextFault>
    requires of_line { AreTokens line.now tokens.now }
    requires within { place < length tokens.now }
    requires is_literal { IsLiteralAt tokens.now place }
    ensures ok { IfOk result (λ t. t ≡ inside (bytes_at line.now tokens.now place)) }
    ensures short { IfOk result (λ t. length (inside (bytes_at line.now tokens.now place)) ≤ MOST_TEXT) }
    ensures long { IsErrOf result TextFault.Long → MOST_TEXT < length (inside (bytes_at line.now tokens.now place)) }
{
    match literal(alloc, line, &tokens[place]) {
        Ok(text) => Ok(text),
        Err(e) => Err(e),
    }
}

fn is_among(names: &[Name], text: &[u8]) -> bool
    ensures { result ≡ list_any (λ m. bytes_eq m text.now) names.now }
{
    names
        .iter()
        .any(|n| same_bytes(n.as_str().as_bytes(), text))
}

/// The name at a place.
pub fn name_at(alloc: Global, line: &[u8], tokens: &[Token], place: usize) -> Result<Name, NoMemory>
    requires of_line { AreTokens line.now tokens.now }
    requires within { place < length tokens.now }
    requires good { is_name (bytes_at line.now tokens.now place) ≡ true }
    ensures { IfOk result (λ n. n ≡ bytes_at line.now tokens.now place) }
{
    let Ok(text) = str::from_utf8(token_bytes(line, &tokens[place])) else {
        unreachable!()
    };
    Name::of_judged(alloc, text)
}

fn put_name(
    alloc: Global,
    names: &mut Vec<Name>,
    line: &[u8],
    tokens: &[Token],
    place: usize,
) -> Result<(), NoMemory>
    requires of_line { AreTokens line.now tokens.now }
    requires within { place < length tokens.now }
    requires good { is_name (bytes_at line.now tokens.now place) ≡ true }
    ensures { OnOk result (names.new.items ≡ with_name names.old.items (bytes_at line.now tokens.now place)) }
{
    if is_among(names, token_bytes(line, &tokens[place])) {
        return Ok(());
    }
    names.push(name_at(alloc, line, tokens, place)?)?;
    Ok(())
}

/// Appends the names that aren't there yet, in the order of the text.
pub fn put_names(
    alloc: Global,
    names: &mut Vec<Name>,
    line: &[u8],
    tokens: &[Token],
    rough: &Rough,
) -> Result<(), NoMemory>
    requires of_line { AreTokens line.now tokens.now }
    requires leaves { HasLeaves line.now tokens.now rough.now }
    ensures { OnOk result (names.new.items ≡ with_names names.old.items (draft line.now tokens.now rough.now)) }
{
    match rough {
        Rough::Name(place) => put_name(alloc, names, line, tokens, *place),
        Rough::Text(_) | Rough::Number(_) | Rough::Truth(_) | Rough::It(_) => Ok(()),
        Rough::Not(inner) | Rough::Around(_, inner) => put_names(alloc, names, line, tokens, inner),
        Rough::Bin(_, left, right) | Rough::OverRows(_, left, right) => {
            put_names(alloc, names, line, tokens, left)?;
            put_names(alloc, names, line, tokens, right)
        }
        Rough::If(test, held, other) => {
            put_names(alloc, names, line, tokens, test)?;
            put_names(alloc, names, line, tokens, held)?;
            put_names(alloc, names, line, tokens, other)
        }
    }
}

// The small readers of lists: names up to the end of a line, and arguments between parentheses.
ghost use Rattle.std.specs.Prelude.{◌≡◌, ◌≤◌, length, List, None, Some, ℕ, MatchOption, option_and_then, option_map};
ghost use Rattle.std.specs.List.{list_any};
ghost use Rattle.std.specs.Str.{bytes_eq};
ghost use Rattle.sig_words.specs.Lexemes.{lexemes};
ghost use Rattle.line_forms.specs.Forms.{are_distinct, arguments, many, name};
ghost use Rattle.line_forms.specs.Reader.{each_of, if_distinct, read_behind, read_listed, read_part, with_first};
ghost use Rattle.line_forms.specs.Reads.{IfRead};
ghost use Rattle.line_forms.specs.Told.{ahead, IsToldArguments};

use crate::cursor::{name_at, name_of, symbol_at};
use crate::names::NameList;
use crate::unread::Unread;
use formula_text::FormulaFault;
use sig_base::{MOST_SOURCES, Name};
use sig_words::Token;
use std::alloc::Global;

// The names that tokens say.
fn names_of(alloc: Global, line: &[u8], tokens: &[Token]) -> Result<NameList, Unread>
    ensures { IfRead result (λ found. found ≡ each_of name (lexemes line.now tokens.now)) }
{
    let mut names = Vec::new(alloc);
    for token in tokens {
        let name = name_of(alloc, line, token)?;
        names.push(name)?;
    }
    Ok(NameList::of(names))
}

/// The names from a place on, up to the end of the line.
#[tactic(auto, unfolding(crate::specs::Told::ahead))]
pub fn names_at(
    alloc: Global,
    line: &[u8],
    tokens: &[Token],
    at: usize,
) -> Result<(NameList, usize), Unread>
    requires { at ≤ length tokens.now }
    ensures { IfRead result (λ found. option_map (λ p. (p.0, ahead line.now tokens.now p.1)) found ≡ read_part (many name) (ahead line.now tokens.now at)) }
{
    let (_, rest) = tokens.split_at(at);
    let names = names_of(alloc, line, rest)?;
    Ok((names, tokens.len()))
}

// The names behind the first of a list, each behind a comma, up to the closing parenthesis.
#[tactic(auto, unfolding(crate::specs::Told::ahead))]
fn names_behind(
    alloc: Global,
    line: &[u8],
    tokens: &[Token],
    from: usize,
    first: Name,
) -> Result<(NameList, usize), Unread>
    ensures { IfRead result (λ found. option_map (λ p. (p.0, ahead line.now tokens.now p.1)) found
        ≡ option_map (with_first first) (read_behind name (ahead line.now tokens.now from))) }
{
    let mut names = Vec::new(alloc);
    names.push(first)?;
    let mut at = from;
    while let Ok(after) = symbol_at(line, tokens, at, b",") {
        let (name, next) = name_at(alloc, line, tokens, after)?;
        names.push(name)?;
        at = next;
    }
    let after = symbol_at(line, tokens, at, b")")?;
    Ok((NameList::of(names), after))
}

/// Names between parentheses from a place on, and the place after them.
#[tactic(auto, unfolding(crate::specs::Told::ahead))]
pub fn listed_names_at(
    alloc: Global,
    line: &[u8],
    tokens: &[Token],
    at: usize,
) -> Result<(NameList, usize), Unread>
    ensures { IfRead result (λ found. option_map (λ p. (p.0, ahead line.now tokens.now p.1)) found ≡ read_listed name (ahead line.now tokens.now at)) }
{
    let at = symbol_at(line, tokens, at, b"(")?;
    if let Ok(after) = symbol_at(line, tokens, at, b")") {
        return Ok((NameList::of(Vec::new(alloc)), after));
    }
    let (first, after) = name_at(alloc, line, tokens, at)?;
    names_behind(alloc, line, tokens, after, first)
}

// Whether a name is among others.
fn is_among(name: &Name, others: &[Name]) -> bool
    ensures { result ≡ list_any (bytes_eq name.now) others.now }
{
    others.iter().any(|other| name == other)
}

/// Whether no name stands there twice; each is compared with those behind it.
pub fn are_distinct(names: &[Name]) -> bool
    ensures { result ≡ are_distinct names.now }
{
    let mut rest = names;
    while let Some((name, more)) = rest.split_first() {
        if is_among(name, more) {
            return false;
        }
        rest = more;
    }
    true
}

/// The arguments of a host formula, or what is wrong with them.
pub type ToldArguments = Result<NameList, FormulaFault>;

// Arguments that were read, or that they are too many.
fn few(names: NameList) -> ToldArguments
    ensures { IsToldArguments names result }
{
    if MOST_SOURCES < names.as_slice().len() {
        Err(FormulaFault::Sources)
    } else {
        Ok(names)
    }
}

/// Arguments at a place, distinct names between parentheses, or that they are more than `MOST_SOURCES`, and the place after them.
pub fn arguments_at(
    alloc: Global,
    line: &[u8],
    tokens: &[Token],
    at: usize,
) -> Result<(ToldArguments, usize), Unread>
    ensures { IfRead result (λ found. MatchOption found (read_part arguments (ahead line.now tokens.now at) ≡ None)
        (λ p. (ns : List (List ℕ)) × (read_part arguments (ahead line.now tokens.now at) ≡ Some (ns, ahead line.now tokens.now p.1)) × IsToldArguments ns p.0)) }
{
    let (names, after) = listed_names_at(alloc, line, tokens, at)?;
    if !are_distinct(names.as_slice()) {
        return Err(Unread::NotThere);
    }
    Ok((few(names), after))
}

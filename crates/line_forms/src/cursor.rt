// The small readers: each reads one piece of a line from a place on.
ghost use Rattle.std.specs.Prelude.{◌≡◌, ◌<◌, ◌≤◌, ℕ, length, IfSome, List, None, Some, [], IfOk, MatchOption, if◌then◌else◌, option_map};
ghost use Rattle.std.specs.Result.{result_ok};
ghost use Rattle.sig_base.specs.declared.scalar.Scalar as scalar;
ghost use Rattle.sig_words.specs.Lexemes.{lexeme, lexemes, symbol, text_at, word};
ghost use Rattle.sig_words.specs.Literals.{between_quotes, text_of};
ghost use Rattle.sig_words.specs.Tokens.{AreTokens, IsTokenOf};
ghost use Rattle.sig_words.specs.declared.token.TokenKind.TheVariants as kind;
ghost use Rattle.formula_text.specs.Grammar.{Draft};
ghost use Rattle.formula_text.specs.Rough.{draft, HasLeaves};
ghost use Rattle.line_forms.specs.Forms.{count, formula, key, name, tagged, value};
ghost use Rattle.line_forms.specs.Reads.{IfRead};
ghost use Rattle.line_forms.specs.Reader.{count_of, key_of, name_of, read_fixed, read_form, read_formula, read_one, read_part, read_perhaps, read_word, same, scalar_of, tag_of, truth_of};
ghost use Rattle.line_forms.specs.Told.{ahead, IsToldFormula, IsToldKey, IsToldScalar};

use crate::unread::{NotThere, Unread};
use formula_text::{Allow, FormulaFault, Rough, Wired, read_rough, wire};
use sig_base::{Name, NameFault, NoMemory, Scalar, Text, TextFault, same_bytes};
use sig_words::{Token, TokenKind, literal, token_bytes};
use std::alloc::Global;
use std::str;

// Whether a token is this symbol.
fn is_symbol(line: &[u8], token: &Token, text: &[u8]) -> bool
    ensures { result ≡ same (symbol text.now) (lexeme line.now token.now) }
{
    match token.kind {
        TokenKind::Symbol => same_bytes(token_bytes(line, token), text),
        _ => false,
    }
}

/// The word with which a line begins.
#[tactic(auto, unfolding(crate::specs::Told::ahead))]
pub fn first_word<'a>(line: &'a [u8], tokens: &[Token]) -> Result<&'a str, NotThere>
    requires { AreTokens line.now tokens.now }
    ensures { option_map (λ w. (w.now, ahead line.now tokens.now 1)) (result_ok result) ≡ read_word (lexemes line.now tokens.now) }
{
    let token = tokens.first().ok_or(NotThere)?;
    match token.kind {
        TokenKind::Word => {
            let Ok(word) = str::from_utf8(token_bytes(line, token)) else {
                unreachable!()
            };
            Ok(word)
        }
        _ => Err(NotThere),
    }
}

/// A word as a name.
///
/// # Errors
///
/// `NotThere` exactly where it is no name, else `NoMemory` alone.
pub fn as_name(alloc: Global, text: &[u8]) -> Result<Name, Unread>
    ensures { IfRead result (λ found. found ≡ name_of (word text.now)) }
{
    let Ok(text) = str::from_utf8(text) else {
        return Err(Unread::NotThere);
    };
    match Name::new(alloc, text) {
        Ok(name) => Ok(name),
        Err(NameFault::Bad) => Err(Unread::NotThere),
        Err(NameFault::NoMemory(e)) => Err(Unread::NoMemory(e)),
    }
}

/// The name that a token says.
///
/// # Errors
///
/// `NotThere` exactly where it says no name, else `NoMemory` alone.
pub fn name_of(alloc: Global, line: &[u8], token: &Token) -> Result<Name, Unread>
    ensures { IfRead result (λ found. found ≡ name_of (lexeme line.now token.now)) }
{
    match token.kind {
        TokenKind::Word => as_name(alloc, token_bytes(line, token)),
        _ => Err(Unread::NotThere),
    }
}

/// A name at a place, and the place after it.
#[tactic(auto, unfolding(crate::specs::Told::ahead))]
pub fn name_at(
    alloc: Global,
    line: &[u8],
    tokens: &[Token],
    at: usize,
) -> Result<(Name, usize), Unread>
    ensures exact { IfRead result (λ found. option_map (λ p. (p.0, ahead line.now tokens.now p.1)) found ≡ read_one name (ahead line.now tokens.now at)) }
    ensures within { IfOk result (λ p. (at < p.1) × (p.1 ≤ length tokens.now)) }
{
    let token = tokens.get(at).ok_or(NotThere)?;
    let name = name_of(alloc, line, token)?;
    Ok((name, at + 1))
}

/// The place after this symbol, where it stands at a place.
#[tactic(auto, unfolding(crate::specs::Told::ahead))]
pub fn symbol_at(line: &[u8], tokens: &[Token], at: usize, text: &[u8]) -> Result<usize, NotThere>
    ensures exact { option_map (λ p. ahead line.now tokens.now p) (result_ok result) ≡ read_fixed (symbol text.now) (ahead line.now tokens.now at) }
    ensures within { IfOk result (λ p. (at < p) × (p ≤ length tokens.now)) }
{
    let token = tokens.get(at).ok_or(NotThere)?;
    if is_symbol(line, token, text) {
        Ok(at + 1)
    } else {
        Err(NotThere)
    }
}

// Whether a token is this word.
fn is_word(line: &[u8], token: &Token, text: &[u8]) -> bool
    ensures { result ≡ same (word text.now) (lexeme line.now token.now) }
{
    match token.kind {
        TokenKind::Word => same_bytes(token_bytes(line, token), text),
        _ => false,
    }
}

/// The place after this word, where it stands at a place.
#[tactic(auto, unfolding(crate::specs::Told::ahead))]
pub fn word_at(line: &[u8], tokens: &[Token], at: usize, text: &[u8]) -> Result<usize, NotThere>
    ensures exact { option_map (λ p. ahead line.now tokens.now p) (result_ok result) ≡ read_fixed (word text.now) (ahead line.now tokens.now at) }
    ensures within { IfOk result (λ p. (at < p) × (p ≤ length tokens.now)) }
{
    let token = tokens.get(at).ok_or(NotThere)?;
    if is_word(line, token, text) {
        Ok(at + 1)
    } else {
        Err(NotThere)
    }
}

// The number without sign that a token says.
fn count_of(line: &[u8], token: &Token) -> Option<u64>
    ensures { result ≡ count_of (lexeme line.now token.now) }
{
    match token.kind {
        TokenKind::Number(number) => u64::try_from(number).ok(),
        _ => None,
    }
}

/// A number without sign at a place, and the place after it.
#[tactic(auto, unfolding(crate::specs::Told::ahead))]
pub fn count_at(line: &[u8], tokens: &[Token], at: usize) -> Result<(u64, usize), NotThere>
    ensures { option_map (λ p. (p.0, ahead line.now tokens.now p.1)) (result_ok result) ≡ read_one count (ahead line.now tokens.now at) }
{
    let token = tokens.get(at).ok_or(NotThere)?;
    let number = count_of(line, token).ok_or(NotThere)?;
    Ok((number, at + 1))
}

/// A number without sign behind this word, if the word stands at a place, and the place after them.
#[tactic(auto, unfolding(crate::specs::Told::ahead))]
pub fn count_behind(
    line: &[u8],
    tokens: &[Token],
    at: usize,
    text: &[u8],
) -> Result<(Option<u64>, usize), NotThere>
    ensures { option_map (λ p. (p.0, ahead line.now tokens.now p.1)) (result_ok result) ≡ read_perhaps text.now count (ahead line.now tokens.now at) }
{
    let Ok(behind) = word_at(line, tokens, at, text) else {
        return Ok((None, at));
    };
    let (number, after) = count_at(line, tokens, behind)?;
    Ok((Some(number), after))
}

/// The end of the line at a place.
#[tactic(auto, unfolding(crate::specs::Told::ahead))]
pub fn ends_at(tokens: &[Token], at: usize) -> Result<(), NotThere>
    ensures { (line : List ℕ) → result_ok result ≡ read_form [] (ahead line tokens.now at) }
{
    match tokens.get(at) {
        Some(_) => Err(NotThere),
        None => Ok(()),
    }
}

// The name that a token says behind `@`.
fn tag_of(alloc: Global, line: &[u8], token: &Token) -> Result<Text, Unread>
    requires { IsTokenOf line.now token.now }
    ensures { IfRead result (λ found. found ≡ tag_of (lexeme line.now token.now)) }
{
    let TokenKind::Tag = token.kind else {
        return Err(Unread::NotThere);
    };
    let (_, name) = token_bytes(line, token).split_at(1);
    let Ok(name) = str::from_utf8(name) else {
        unreachable!()
    };
    match Text::new(alloc, name) {
        Ok(name) => Ok(name),
        Err(TextFault::Long) => unreachable!(),
        Err(TextFault::NoMemory(e)) => Err(Unread::NoMemory(e)),
    }
}

/// The name behind `@` at a place, and the place after it.
#[tactic(auto, unfolding(crate::specs::Told::ahead))]
pub fn tag_at(
    alloc: Global,
    line: &[u8],
    tokens: &[Token],
    at: usize,
) -> Result<(Text, usize), Unread>
    requires { AreTokens line.now tokens.now }
    ensures { IfRead result (λ found. option_map (λ p. (p.0, ahead line.now tokens.now p.1)) found ≡ read_one tagged (ahead line.now tokens.now at)) }
{
    let token = tokens.get(at).ok_or(NotThere)?;
    let name = tag_of(alloc, line, token)?;
    Ok((name, at + 1))
}

// The truth that a word says.
fn truth_of(word: &[u8]) -> Option<Scalar>
    ensures { result ≡ truth_of word.now }
{
    if same_bytes(word, b"true") {
        Some(Scalar::Bool(true))
    } else if same_bytes(word, b"false") {
        Some(Scalar::Bool(false))
    } else {
        None
    }
}

/// A text, or that it is too long.
pub type ToldKey = Result<Text, FormulaFault>;

// The text that a literal stands for, or that it is too long.
#[tactic(auto, using(crate::proofs::Scalars::long_text))]
fn told_text(alloc: Global, line: &[u8], token: &Token) -> Result<ToldKey, NoMemory>
    requires of_line { IsTokenOf line.now token.now }
    requires is_literal { token.now.kind ≡ kind.Literal }
    ensures { IfOk result (λ r. IsToldKey (text_of (between_quotes (text_at line.now token.now))) r) }
{
    match literal(alloc, line, token) {
        Ok(text) => Ok(Ok(text)),
        Err(TextFault::Long) => Ok(Err(FormulaFault::TextLong)),
        Err(TextFault::NoMemory(e)) => Err(e),
    }
}

/// A value, or what is wrong with it.
pub type ToldValue = Result<Scalar, FormulaFault>;

// The value that a token says, or that its text is too long.
fn value_of(alloc: Global, line: &[u8], token: &Token) -> Result<ToldValue, Unread>
    requires { IsTokenOf line.now token.now }
    ensures { IfRead result (λ found. MatchOption found (scalar_of (lexeme line.now token.now) ≡ None)
        (λ r. (v : scalar.Scalar) × (scalar_of (lexeme line.now token.now) ≡ Some v) × IsToldScalar v r)) }
{
    match token.kind {
        TokenKind::Word => match truth_of(token_bytes(line, token)) {
            Some(truth) => Ok(Ok(truth)),
            None => Err(Unread::NotThere),
        },
        TokenKind::Number(n) => Ok(Ok(Scalar::Int(n))),
        TokenKind::Literal => match told_text(alloc, line, token)? {
            Ok(text) => Ok(Ok(Scalar::Text(text))),
            Err(fault) => Ok(Err(fault)),
        },
        TokenKind::Tag | TokenKind::Symbol => Err(Unread::NotThere),
    }
}

/// A value at a place, or that its text is too long, and the place after it.
#[tactic(auto, unfolding(crate::specs::Told::ahead))]
pub fn value_at(
    alloc: Global,
    line: &[u8],
    tokens: &[Token],
    at: usize,
) -> Result<(ToldValue, usize), Unread>
    requires { AreTokens line.now tokens.now }
    ensures exact { IfRead result (λ found. MatchOption found (read_one value (ahead line.now tokens.now at) ≡ None)
        (λ p. (v : scalar.Scalar) × (read_one value (ahead line.now tokens.now at) ≡ Some (v, ahead line.now tokens.now p.1)) × IsToldScalar v p.0)) }
    ensures within { IfOk result (λ p. (at < p.1) × (p.1 ≤ length tokens.now)) }
{
    let token = tokens.get(at).ok_or(NotThere)?;
    let value = value_of(alloc, line, token)?;
    Ok((value, at + 1))
}

// The text that a token says, or that it is too long.
fn key_of(alloc: Global, line: &[u8], token: &Token) -> Result<ToldKey, Unread>
    requires { IsTokenOf line.now token.now }
    ensures { IfRead result (λ found. MatchOption found (key_of (lexeme line.now token.now) ≡ None)
        (λ r. (t : List ℕ) × (key_of (lexeme line.now token.now) ≡ Some t) × IsToldKey t r)) }
{
    let TokenKind::Literal = token.kind else {
        return Err(Unread::NotThere);
    };
    Ok(told_text(alloc, line, token)?)
}

/// A text at a place, or that it is too long, and the place after it.
#[tactic(auto, unfolding(crate::specs::Told::ahead))]
pub fn key_at(
    alloc: Global,
    line: &[u8],
    tokens: &[Token],
    at: usize,
) -> Result<(ToldKey, usize), Unread>
    requires { AreTokens line.now tokens.now }
    ensures { IfRead result (λ found. MatchOption found (read_one key (ahead line.now tokens.now at) ≡ None)
        (λ p. (t : List ℕ) × (read_one key (ahead line.now tokens.now at) ≡ Some (t, ahead line.now tokens.now p.1)) × IsToldKey t p.0)) }
{
    let token = tokens.get(at).ok_or(NotThere)?;
    let key = key_of(alloc, line, token)?;
    Ok((key, at + 1))
}

/// A formula, or what is wrong with it.
pub type ToldFormula = Result<Wired, FormulaFault>;

/// The longest formula from a place on, by the places of its tokens, and the place after it.
pub fn rough_at(
    alloc: Global,
    line: &[u8],
    tokens: &[Token],
    at: usize,
) -> Result<(Rough, usize), Unread>
    ensures { IfRead result (λ found. MatchOption found (read_formula (ahead line.now tokens.now at) ≡ None)
        (λ p. (read_formula (ahead line.now tokens.now at) ≡ Some (draft line.now tokens.now p.0, ahead line.now tokens.now p.1)) × HasLeaves line.now tokens.now p.0)) }
{
    match read_rough(alloc, line, tokens, at)? {
        Some((rough, to)) => Ok((rough, to)),
        None => Err(Unread::NotThere),
    }
}

/// A formula that was read with slots for its names, or what is wrong with it where this is allowed to it.
pub fn told(
    alloc: Global,
    line: &[u8],
    tokens: &[Token],
    rough: &Rough,
    allow: Allow,
) -> Result<ToldFormula, NoMemory>
    requires of_line { AreTokens line.now tokens.now }
    requires leaves { HasLeaves line.now tokens.now rough.now }
    ensures { IfOk result (λ r. IsToldFormula allow (draft line.now tokens.now rough.now) r) }
{
    match wire(alloc, line, tokens, rough, allow) {
        Ok(wired) => Ok(Ok(wired)),
        Err(fault) => match fault {
            FormulaFault::NoMemory(e) => Err(e),
            fault => Ok(Err(fault)),
        },
    }
}

/// The longest formula from a place on, or what is wrong with it where this is allowed to it, and the place after it.
pub fn formula_at(
    alloc: Global,
    line: &[u8],
    tokens: &[Token],
    at: usize,
    allow: Allow,
) -> Result<(ToldFormula, usize), Unread>
    requires { AreTokens line.now tokens.now }
    ensures { IfRead result (λ found. MatchOption found (read_part formula (ahead line.now tokens.now at) ≡ None)
        (λ p. (f : Draft) × (read_part formula (ahead line.now tokens.now at) ≡ Some (f, ahead line.now tokens.now p.1)) × IsToldFormula allow f p.0)) }
{
    let (rough, to) = rough_at(alloc, line, tokens, at)?;
    let told = told(alloc, line, tokens, &rough, allow)?;
    Ok((told, to))
}

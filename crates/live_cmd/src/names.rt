// Names as they stand in a line, and names made of them. A reader makes its names last, so that it owns none of them while it may end.
ghost use Rattle.std.specs.Prelude.{◌≡◌, ◌∷◌, ◌<◌, ◌≤◌, [], true, codes, length, option_map, IfOk, IfSome};
ghost use Rattle.std.specs.Result.{result_ok};
ghost use Rattle.sig_base.specs.Words.{is_name};
ghost use Rattle.sig_words.specs.Lexemes.{lexeme, word};
ghost use Rattle.line_forms.specs.Forms as form;
ghost use Rattle.line_forms.specs.Reader.{name_of, read_form, read_one, read_perhaps};
ghost use Rattle.line_forms.specs.Told.{ahead};

use line_forms::{NotThere, ends_at, word_at};
use sig_base::{Name, NoMemory, is_name};
use sig_words::{Token, TokenKind, token_bytes};
use std::alloc::Global;
use std::str;

// A word that is a name.
fn name_text(bytes: &[u8]) -> Option<&str>
    ensures exact { option_map (λ t. t.now) result ≡ name_of (word bytes.now) }
    ensures name { IfSome result (λ t. is_name t.now ≡ true) }
{
    if !is_name(bytes) {
        return None;
    }
    let Ok(text) = str::from_utf8(bytes) else {
        unreachable!()
    };
    Some(text)
}

// The name that a token says.
fn name_text_of<'a>(line: &'a [u8], token: &Token) -> Option<&'a str>
    ensures exact { option_map (λ t. t.now) result ≡ name_of (lexeme line.now token.now) }
    ensures name { IfSome result (λ t. is_name t.now ≡ true) }
{
    match token.kind {
        TokenKind::Word => name_text(token_bytes(line, token)),
        _ => None,
    }
}

/// The name at a place, and the place after it.
#[tactic(auto, unfolding(line_forms::specs::Told::ahead))]
pub fn name_text_at<'a>(
    line: &'a [u8],
    tokens: &[Token],
    at: usize,
) -> Result<(&'a str, usize), NotThere>
    ensures exact { option_map (λ p. (p.0.now, ahead line.now tokens.now p.1)) (result_ok result) ≡ read_one form.name (ahead line.now tokens.now at) }
    ensures name { IfOk result (λ p. is_name p.0.now ≡ true) }
    ensures within { IfOk result (λ p. (at < p.1) × (p.1 ≤ length tokens.now)) }
{
    let token = tokens.get(at).ok_or(NotThere)?;
    let name = name_text_of(line, token).ok_or(NotThere)?;
    Ok((name, at + 1))
}

/// The name at the end of a line.
pub fn name_text_last<'a>(line: &'a [u8], tokens: &[Token], at: usize) -> Result<&'a str, NotThere>
    ensures exact { option_map (λ t. (t.now, tt)) (result_ok result) ≡ read_form (form.part (form.one form.name) ∷ []) (ahead line.now tokens.now at) }
    ensures name { IfOk result (λ t. is_name t.now ≡ true) }
{
    let (name, at) = name_text_at(line, tokens, at)?;
    ends_at(tokens, at)?;
    Ok(name)
}

// The owner that `in` names, if the word stands at a place, and the place after them.
fn inside_text_at<'a>(
    line: &'a [u8],
    tokens: &[Token],
    at: usize,
) -> Result<(Option<&'a str>, usize), NotThere>
    ensures exact { option_map (λ p. (option_map (λ t. t.now) p.0, ahead line.now tokens.now p.1)) (result_ok result)
        ≡ read_perhaps (codes "in") form.name (ahead line.now tokens.now at) }
    ensures name { IfOk result (λ p. IfSome p.0 (λ t. is_name t.now ≡ true)) }
{
    let Ok(behind) = word_at(line, tokens, at, b"in") else {
        return Ok((None, at));
    };
    let (name, after) = name_text_at(line, tokens, behind)?;
    Ok((Some(name), after))
}

/// The owner that `in` names at the end of a line, if the word stands there.
pub fn inside_text_last<'a>(
    line: &'a [u8],
    tokens: &[Token],
    at: usize,
) -> Result<Option<&'a str>, NotThere>
    ensures exact { option_map (λ o. (option_map (λ t. t.now) o, tt)) (result_ok result)
        ≡ read_form (form.part (form.perhaps (codes "in") form.name) ∷ []) (ahead line.now tokens.now at) }
    ensures name { IfOk result (λ o. IfSome o (λ t. is_name t.now ≡ true)) }
{
    let (inside, at) = inside_text_at(line, tokens, at)?;
    ends_at(tokens, at)?;
    Ok(inside)
}

/// The name of a text that is one.
pub fn made(alloc: Global, text: &str) -> Result<Name, NoMemory>
    requires { is_name text.now ≡ true }
    ensures { IfOk result (λ n. n ≡ text.now) }
{
    Name::of_judged(alloc, text)
}

/// The name of an owner, if there is one.
pub fn made_inside(alloc: Global, inside: Option<&str>) -> Result<Option<Name>, NoMemory>
    requires { IfSome inside (λ t. is_name t.now ≡ true) }
    ensures { IfOk result (λ o. o ≡ option_map (λ t. t.now) inside.entry) }
{
    match inside {
        Some(text) => Ok(Some(made(alloc, text)?)),
        None => Ok(None),
    }
}

/// Two names.
pub fn made_both(alloc: Global, first: &str, second: &str) -> Result<(Name, Name), NoMemory>
    requires first { is_name first.now ≡ true }
    requires second { is_name second.now ≡ true }
    ensures { IfOk result (λ p. (p.0 ≡ first.now) × (p.1 ≡ second.now)) }
{
    let first = made(alloc, first)?;
    let second = made(alloc, second)?;
    Ok((first, second))
}

/// The name of what is made, and that of its owner, if there is one.
pub fn made_owned(
    alloc: Global,
    name: &str,
    inside: Option<&str>,
) -> Result<(Name, Option<Name>), NoMemory>
    requires name { is_name name.now ≡ true }
    requires inside { IfSome inside (λ t. is_name t.now ≡ true) }
    ensures { IfOk result (λ p. (p.0 ≡ name.now) × (p.1 ≡ option_map (λ t. t.now) inside.entry)) }
{
    let name = made(alloc, name)?;
    let inside = made_inside(alloc, inside)?;
    Ok((name, inside))
}

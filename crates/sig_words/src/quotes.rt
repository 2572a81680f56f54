// The texts that literals stand for.
ghost use Rattle.std.specs.Prelude.{◌≡◌, ◌∷◌, ◌++◌, ◌<◌, ◌≤◌, ℕ, List, IfOk, IsErrOf, encode_utf8_all, length, string_bytes, false};
ghost use Rattle.std.specs.List.{flat_map};
ghost use Rattle.sig_base.specs.Printer.{in_quotes};
ghost use Rattle.sig_words.specs.Lexemes.{text_at};
ghost use Rattle.sig_words.specs.Literals.{between_quotes, has_backslash, meaning, plain, text_of};
ghost use Rattle.sig_words.specs.Tokens.{IsTokenOf};

use crate::token::{Token, TokenKind, token_bytes};
use sig_base::{MOST_TEXT, Text, TextFault};
use std::alloc::{AllocError, Global};
use std::str;

// The character that stands behind a backslash for another.
fn meaning(c: char) -> char
    ensures { result ≡ meaning c }
{
    match c {
        'n' => '\n',
        'r' => '\r',
        't' => '\t',
        _ => c,
    }
}

// Appends what a character between quotes stands for; a backslash that stands behind none waits for the next one.
fn put_plain(out: &mut String, behind: bool, c: char) -> Result<bool, AllocError>
    ensures { IfOk result (λ b. (rest : List ℕ) →
        string_bytes out.new ++ encode_utf8_all (plain b rest) ≡ string_bytes out.old ++ encode_utf8_all (plain behind (c ∷ rest))) }
{
    if behind {
        out.push(meaning(c))?;
        return Ok(false);
    }
    if c == '\\' {
        return Ok(true);
    }
    out.push(c)?;
    Ok(false)
}

// What the text between quotes stands for.
#[tactic(auto, using(std::proofs::lemmas::Str::chars_from_encodes), unfolding(crate::specs::Literals::text_of))]
fn unescape(alloc: Global, inner: &str) -> Result<String, AllocError>
    ensures { IfOk result (λ s. string_bytes s ≡ text_of inner.now) }
{
    let mut out = String::new(alloc);
    let mut behind = false;
    for c in inner.chars() {
        behind = put_plain(&mut out, behind, c)?;
    }
    Ok(out)
}

// Whether a backslash stands in bytes.
fn has_backslash(bytes: &[u8]) -> bool
    ensures { result ≡ has_backslash bytes.now }
{
    bytes.iter().any(|b| *b == b'\\')
}

// The text that the text between quotes stands for: where no backslash stands in it, the same.
#[tactic(auto, using(crate::proofs::Unescaped::as_it_is))]
fn unquoted(alloc: Global, inner: &str) -> Result<Text, TextFault>
    ensures ok { IfOk result (λ t. t ≡ text_of inner.now) }
    ensures short { IfOk result (λ t. length t ≤ MOST_TEXT) }
    ensures long { IsErrOf result TextFault.Long → MOST_TEXT < length (text_of inner.now) }
{
    if !has_backslash(inner.as_bytes()) {
        return Text::new(alloc, inner);
    }
    let value = unescape(alloc, inner)?;
    Text::new(alloc, value.as_str())
}

#[tactic(auto, unfolding(crate::specs::Literals::between_quotes))]
fn between_quotes(text: &[u8]) -> &[u8]
    ensures { result.now ≡ between_quotes text.now }
{
    match text {
        [_, inner @ .., _] => inner,
        _ => &[],
    }
}

/// The text that a literal of this line stands for: `\\`, `\"`, `\n`, `\r` and `\t` between the quotes stand for a backslash,
/// a quote, LF, CR and a tab, and each other character stands for itself. `Long` where it has more than `MOST_TEXT` bytes.
pub fn literal(alloc: Global, line: &[u8], token: &Token) -> Result<Text, TextFault>
    requires of_line { IsTokenOf line.now token.now }
    requires is_literal { token.now.kind ≡ TokenKind.Literal }
    ensures ok { IfOk result (λ t. t ≡ text_of (between_quotes (text_at line.now token.now))) }
    ensures short { IfOk result (λ t. length t ≤ MOST_TEXT) }
    ensures long { IsErrOf result TextFault.Long → MOST_TEXT < length (text_of (between_quotes (text_at line.now token.now))) }
{
    let Ok(inner) = str::from_utf8(between_quotes(token_bytes(line, token))) else {
        unreachable!()
    };
    unquoted(alloc, inner)
}

/// Each character can be written between quotes: a backslash, a quote, LF, CR and a tab with a backslash, any other as it is.
pub fn each_character_is_written()
    ensures { (cs : List ℕ) → plain false (flat_map in_quotes cs) ≡ cs }
{}

// What tokens are in a formula.
ghost use Rattle.std.specs.Prelude.{◌≡◌, ◌∷◌, ◌+◌, ◌<◌, [], length, true, IfSome, MatchOption, if◌then◌else◌};
ghost use Rattle.sig_base.specs.Words.{is_name};
ghost use Rattle.sig_words.specs.Lexemes.{lexeme, text_at};
ghost use Rattle.formula_text.specs.Signs.{later_symbol_sign, later_word_sign, leaf, name, other, sign, symbol_sign, word_sign};
ghost use Rattle.formula_text.specs.Rough.{bytes_at, sign_of, IsSeen, IsSeenAt, signs_from};

use crate::operators::operator_of;
use crate::rough::{Around, OverRows};
use sig_base::{is_name, same_bytes};
use sig_formula::BinOp;
use sig_words::{Token, TokenKind, token_bytes};

#[derive(Clone, Copy)]
pub enum Sign {
    Name,
    Text,
    Number(i64),
    Truth(bool),
    Operator(BinOp),
    Not,
    If,
    Then,
    Else,
    Around(Around),
    OverRows(OverRows),
    It,
    Open,
    Close,
    Comma,
    Dot,
    /// What stands in no formula.
    Other,
}

#[tactic(auto, unfolding(crate::specs::Signs::word_sign))]
fn word_sign(text: &[u8]) -> Sign
    ensures sign { sign_of text.now result ≡ word_sign text.now }
    ensures name { result ≡ Sign.Name → is_name text.now ≡ true }
    ensures no_text { result ≡ Sign.Text → ⊥ }
{
    match operator_of(text) {
        Some(operator) => Sign::Operator(operator),
        None => later_word_sign(text),
    }
}

// What a word is that stands for nothing else.
fn name_sign(text: &[u8]) -> Sign
    ensures sign { sign_of text.now result ≡ (if is_name text.now then leaf (name text.now) else other) }
    ensures name { result ≡ Sign.Name → is_name text.now ≡ true }
    ensures no_text { result ≡ Sign.Text → ⊥ }
{
    if is_name(text) {
        Sign::Name
    } else {
        Sign::Other
    }
}

// What a word of two bytes is that is no operator.
#[tactic(auto, using(sig_base::proofs::Lengths::unlike), unfolding(crate::specs::Signs::later_word_sign, crate::specs::Signs::last_word_sign))]
fn sign_of_two(text: &[u8]) -> Sign
    requires { length text.now ≡ 2 }
    ensures sign { sign_of text.now result ≡ later_word_sign text.now }
    ensures name { result ≡ Sign.Name → is_name text.now ≡ true }
    ensures no_text { result ≡ Sign.Text → ⊥ }
{
    if same_bytes(text, b"if") {
        Sign::If
    } else if same_bytes(text, b"it") {
        Sign::It
    } else {
        name_sign(text)
    }
}

// So it is with three bytes.
#[tactic(auto, using(sig_base::proofs::Lengths::unlike), unfolding(crate::specs::Signs::later_word_sign, crate::specs::Signs::last_word_sign))]
fn sign_of_three(text: &[u8]) -> Sign
    requires { length text.now ≡ 3 }
    ensures sign { sign_of text.now result ≡ later_word_sign text.now }
    ensures name { result ≡ Sign.Name → is_name text.now ≡ true }
    ensures no_text { result ≡ Sign.Text → ⊥ }
{
    if same_bytes(text, b"not") {
        Sign::Not
    } else if same_bytes(text, b"sum") {
        Sign::OverRows(OverRows::Sum)
    } else {
        name_sign(text)
    }
}

// So it is with four.
#[tactic(auto, using(sig_base::proofs::Lengths::unlike), unfolding(crate::specs::Signs::later_word_sign, crate::specs::Signs::last_word_sign))]
fn sign_of_four(text: &[u8]) -> Sign
    requires { length text.now ≡ 4 }
    ensures sign { sign_of text.now result ≡ later_word_sign text.now }
    ensures name { result ≡ Sign.Name → is_name text.now ≡ true }
    ensures no_text { result ≡ Sign.Text → ⊥ }
{
    if same_bytes(text, b"then") {
        Sign::Then
    } else if same_bytes(text, b"else") {
        Sign::Else
    } else if same_bytes(text, b"keep") {
        Sign::OverRows(OverRows::Keep)
    } else if same_bytes(text, b"true") {
        Sign::Truth(true)
    } else {
        name_sign(text)
    }
}

// So it is with five.
#[tactic(auto, using(sig_base::proofs::Lengths::unlike), unfolding(crate::specs::Signs::later_word_sign, crate::specs::Signs::last_word_sign))]
fn sign_of_five(text: &[u8]) -> Sign
    requires { length text.now ≡ 5 }
    ensures sign { sign_of text.now result ≡ later_word_sign text.now }
    ensures name { result ≡ Sign.Name → is_name text.now ≡ true }
    ensures no_text { result ≡ Sign.Text → ⊥ }
{
    if same_bytes(text, b"count") {
        Sign::Around(Around::Count)
    } else if same_bytes(text, b"false") {
        Sign::Truth(false)
    } else {
        name_sign(text)
    }
}

// So it is with seven.
#[tactic(auto, using(sig_base::proofs::Lengths::unlike), unfolding(crate::specs::Signs::later_word_sign, crate::specs::Signs::last_word_sign))]
fn sign_of_seven(text: &[u8]) -> Sign
    requires { length text.now ≡ 7 }
    ensures sign { sign_of text.now result ≡ later_word_sign text.now }
    ensures name { result ≡ Sign.Name → is_name text.now ≡ true }
    ensures no_text { result ≡ Sign.Text → ⊥ }
{
    if same_bytes(text, b"untrack") {
        Sign::Around(Around::Untrack)
    } else {
        name_sign(text)
    }
}

// What a word is that is no operator: the words of each length are looked at apart.
#[tactic(auto, using(sig_base::proofs::Lengths::unlike), unfolding(crate::specs::Signs::later_word_sign, crate::specs::Signs::last_word_sign))]
fn later_word_sign(text: &[u8]) -> Sign
    ensures sign { sign_of text.now result ≡ later_word_sign text.now }
    ensures name { result ≡ Sign.Name → is_name text.now ≡ true }
    ensures no_text { result ≡ Sign.Text → ⊥ }
{
    match text.len() {
        2 => sign_of_two(text),
        3 => sign_of_three(text),
        4 => sign_of_four(text),
        5 => sign_of_five(text),
        7 => sign_of_seven(text),
        _ => name_sign(text),
    }
}

#[tactic(auto, unfolding(crate::specs::Signs::symbol_sign))]
fn symbol_sign(text: &[u8]) -> Sign
    ensures sign { sign_of text.now result ≡ symbol_sign text.now }
    ensures no_name { result ≡ Sign.Name → ⊥ }
    ensures no_text { result ≡ Sign.Text → ⊥ }
{
    match operator_of(text) {
        Some(operator) => Sign::Operator(operator),
        None => later_symbol_sign(text),
    }
}

// What a symbol of one byte is that is no operator.
#[tactic(auto, unfolding(crate::specs::Signs::later_symbol_sign))]
fn mark_sign(b: u8) -> Sign
    ensures sign { sign_of (b ∷ []) result ≡ later_symbol_sign (b ∷ []) }
    ensures no_name { result ≡ Sign.Name → ⊥ }
    ensures no_text { result ≡ Sign.Text → ⊥ }
{
    match b {
        b'(' => Sign::Open,
        b')' => Sign::Close,
        b',' => Sign::Comma,
        b'.' => Sign::Dot,
        _ => Sign::Other,
    }
}

#[tactic(auto, using(sig_base::proofs::Lengths::unlike), unfolding(crate::specs::Signs::later_symbol_sign))]
fn later_symbol_sign(text: &[u8]) -> Sign
    ensures sign { sign_of text.now result ≡ later_symbol_sign text.now }
    ensures no_name { result ≡ Sign.Name → ⊥ }
    ensures no_text { result ≡ Sign.Text → ⊥ }
{
    match text {
        [b] => mark_sign(*b),
        _ => Sign::Other,
    }
}

// What a token of the line is.
fn token_sign(line: &[u8], token: &Token) -> Sign
    ensures sign { sign_of (text_at line.now token.now) result ≡ sign (lexeme line.now token.now) }
    ensures seen { IsSeen line.now token.now result }
{
    match token.kind {
        TokenKind::Word => word_sign(token_bytes(line, token)),
        TokenKind::Tag => Sign::Other,
        TokenKind::Number(n) => Sign::Number(n),
        TokenKind::Literal => Sign::Text,
        TokenKind::Symbol => symbol_sign(token_bytes(line, token)),
    }
}

/// What the token at a place is, if there is one.
#[tactic(auto, using(crate::proofs::Places::from_none))]
pub fn sign_at(line: &[u8], tokens: &[Token], at: usize) -> Option<Sign>
    ensures found { MatchOption result
        (signs_from line.now tokens.now at ≡ [])
        (λ s. signs_from line.now tokens.now at ≡ sign_of (bytes_at line.now tokens.now at) s ∷ signs_from line.now tokens.now (at + 1)) }
    ensures within { IfSome result (λ s. at < length tokens.now) }
    ensures seen { IfSome result (λ s. IsSeenAt line.now tokens.now at s) }
{
    if at < tokens.len() {
        Some(token_sign(line, &tokens[at]))
    } else {
        None
    }
}

// The token at the front of bytes.
ghost use Rattle.std.specs.Prelude.{◌≡◌, ◌∷◌, ◌++◌, ◌+◌, ◌<◌, ◌≤◌, ℕ, ℤ, Bool, List, true, false, length, take, drop, MatchOption, IfSome, slice_index, option_map};
ghost use Rattle.std.specs.List.{list_all};
ghost use Rattle.sig_base.specs.Words.{begins_word, in_tag, in_word};
ghost use Rattle.sig_words.specs.Scanner.{closing, opens_as};
ghost use Rattle.sig_words.specs.Tokens.{IsSymbol, Form, Ends, IsToken, NoToken};

use crate::bytes::{is_escape, is_one, is_two};
use crate::number::integer;
use crate::token::TokenKind;
use sig_base::{MOST_TAG, begins_word, in_tag, in_word};

// The length of the first byte and the bytes of a word that follow it.
fn word_run(bytes: &[u8]) -> usize
    requires { 0 < length bytes.now }
    ensures some { 0 < result }
    ensures within { result ≤ length bytes.now }
    ensures run { list_all in_word (drop 1 (take result bytes.now)) ≡ true }
    ensures ends { in_word (slice_index bytes.now result) ≡ false }
{
    let mut n = 1;
    while n < bytes.len() && in_word(bytes[n]) {
        n += 1;
    }
    n
}

// The length of the first byte and the bytes of a tag's name that follow it.
fn tag_run(bytes: &[u8]) -> usize
    requires { 0 < length bytes.now }
    ensures some { 0 < result }
    ensures within { result ≤ length bytes.now }
    ensures run { list_all in_tag (drop 1 (take result bytes.now)) ≡ true }
    ensures ends { in_tag (slice_index bytes.now result) ≡ false }
{
    let mut n = 1;
    while n < bytes.len() && in_tag(bytes[n]) {
        n += 1;
    }
    n
}

// How long the text is that begins with a quote, up to and with the quote that closes it.
fn literal_len(bytes: &[u8]) -> Option<usize>
    requires { 0 < length bytes.now }
    ensures within { IfSome result (λ n. n ≤ length bytes.now) }
    ensures len { result ≡ option_map (λ n. n + 1) (closing false (drop 1 bytes.now)) }
{
    let mut n = 1;
    let mut behind = false;
    while n < bytes.len() {
        let b = bytes[n];
        n += 1;
        if behind {
            if !is_escape(b) {
                return None;
            }
            behind = false;
        } else if b == b'"' {
            return Some(n);
        } else {
            behind = b == b'\\';
        }
    }
    None
}

/// What the token at a byte can be.
#[derive(Clone, Copy)]
pub enum Start {
    Words,
    Tags,
    Numbers,
    Literals,
    Symbols,
}

#[tactic(auto, unfolding(crate::specs::Scanner::opens_as))]
fn opens_as(sign: bool, b: u8, c: u8) -> Start
    ensures { result ≡ opens_as sign b c }
{
    if begins_word(b) {
        Start::Words
    } else if b == b'@' {
        Start::Tags
    } else if b.is_ascii_digit() {
        Start::Numbers
    } else if b == b'-' && sign && c.is_ascii_digit() {
        Start::Numbers
    } else if b == b'"' {
        Start::Literals
    } else {
        Start::Symbols
    }
}

// The second byte, or 0.
fn second(bytes: &[u8]) -> u8
    ensures { result ≡ slice_index bytes.now 1 }
{
    if bytes.len() > 1 { bytes[1] } else { 0 }
}

fn word(bytes: &[u8]) -> usize
    requires some { 0 < length bytes.now }
    requires begins { begins_word (slice_index bytes.now 0) ≡ true }
    ensures within { (0 < result) × (result ≤ length bytes.now) }
    ensures token { (sign : Bool) → IsToken sign TokenKind.Word (take result bytes.now) (drop result bytes.now) }
{
    word_run(bytes)
}

fn tag(bytes: &[u8]) -> Option<usize>
    requires some { 0 < length bytes.now }
    requires begins { slice_index bytes.now 0 ≡ 64 }
    ensures within { IfSome result (λ n. (0 < n) × (n ≤ length bytes.now)) }
    ensures token { MatchOption result
        ((text next : List ℕ) → bytes.now ≡ text ++ next
        → Form TokenKind.Tag text → Ends TokenKind.Tag text next → ⊥)
        (λ n. Form TokenKind.Tag (take n bytes.now) × Ends TokenKind.Tag (take n bytes.now) (drop n bytes.now)) }
{
    if !second(bytes).is_ascii_lowercase() {
        return None;
    }
    let n = tag_run(bytes);
    if n > MOST_TAG + 1 {
        return None;
    }
    Some(n)
}

fn number(bytes: &[u8]) -> Option<(i64, usize)>
    requires { 0 < length bytes.now }
    ensures within { IfSome result (λ x. (0 < x.1) × (x.1 ≤ length bytes.now)) }
    ensures token { MatchOption result
        ((z : ℤ) (text next : List ℕ) → bytes.now ≡ text ++ next
        → Form (TokenKind.Number z) text → Ends (TokenKind.Number z) text next → ⊥)
        (λ x. Form (TokenKind.Number x.0) (take x.1 bytes.now)
        × Ends (TokenKind.Number x.0) (take x.1 bytes.now) (drop x.1 bytes.now)) }
{
    let n = word_run(bytes);
    let (text, _) = bytes.split_at(n);
    let Some(z) = integer(text) else {
        return None;
    };
    Some((z, n))
}

fn symbol(bytes: &[u8]) -> Option<usize>
    requires { 0 < length bytes.now }
    ensures within { IfSome result (λ n. (0 < n) × (n ≤ length bytes.now)) }
    ensures token { MatchOption result ((text next : List ℕ) → bytes.now ≡ text ++ next → IsSymbol text → ⊥)
        (λ n. IsSymbol (take n bytes.now) × Ends TokenKind.Symbol (take n bytes.now) (drop n bytes.now)) }
{
    if bytes.len() > 1 && is_two(bytes[0], bytes[1]) {
        return Some(2);
    }
    if is_one(bytes[0]) { Some(1) } else { None }
}

fn begins_as(sign: bool, bytes: &[u8]) -> Start
    requires { 0 < length bytes.now }
    ensures { result ≡ opens_as sign (slice_index bytes.now 0) (slice_index bytes.now 1) }
{
    opens_as(sign, bytes[0], second(bytes))
}

/// The token at the front, and its length. `sign` tells whether a `-` there may be a sign.
pub fn scan(bytes: &[u8], sign: bool) -> Option<(TokenKind, usize)>
    requires { 0 < length bytes.now }
    ensures within { IfSome result (λ x. (0 < x.1) × (x.1 ≤ length bytes.now)) }
    ensures token { MatchOption result (NoToken sign bytes.now)
        (λ x. IsToken sign x.0 (take x.1 bytes.now) (drop x.1 bytes.now)) }
{
    match begins_as(sign, bytes) {
        Start::Words => Some((TokenKind::Word, word(bytes))),
        Start::Tags => {
            let Some(n) = tag(bytes) else {
                return None;
            };
            Some((TokenKind::Tag, n))
        }
        Start::Numbers => {
            let Some((z, n)) = number(bytes) else {
                return None;
            };
            Some((TokenKind::Number(z), n))
        }
        Start::Literals => {
            let Some(n) = literal_len(bytes) else {
                return None;
            };
            Some((TokenKind::Literal, n))
        }
        Start::Symbols => {
            let Some(n) = symbol(bytes) else {
                return None;
            };
            Some((TokenKind::Symbol, n))
        }
    }
}

// Cuts a line into tokens.
ghost use Rattle.std.specs.Prelude.{◌≡◌, ◌+◌, ◌-◌, ◌<◌, ◌≤◌, ◌↔◌, ℕ, List, true, false, length, take, drop, IfOk, IfErr, IsErrOf, slice_index};
ghost use Rattle.std.specs.List.{list_all};
ghost use Rattle.sig_base.specs.Words.{is_blank};
ghost use Rattle.std.specs.Str.{IsUtf8};
ghost use Rattle.sig_words.specs.Tokens.{may_sign, AreTokens, IsBad, Refuses};
ghost use Rattle.sig_words.specs.declared.line.LineFault.TheVariants as fault;

use crate::scan::scan;
use crate::token::Token;
use sig_base::{MOST_LINE, NoMemory, is_blank};
use std::alloc::{AllocError, AllocFailed, Global};
use std::str;
use thiserror::Error;

/// Why a line has no tokens.
#[derive(Clone, Copy, Debug, PartialEq, Eq, Error)]
pub enum LineFault {
    #[error("no token begins at byte {0}")]
    Bad(usize),
    #[error("a line is too long")]
    TooLong,
    #[error(transparent)]
    NoMemory(NoMemory),
}

impl From<AllocFailed<Token>> for LineFault {
    ghost from_gives = { λ _ e. e ≡ fault.NoMemory (record {}) };

    fn from(_: AllocFailed<Token>) -> Self {
        LineFault::NoMemory(NoMemory)
    }
}

impl From<AllocError> for LineFault {
    ghost from_gives = { λ _ e. e ≡ fault.NoMemory (record {}) };

    fn from(_: AllocError) -> Self {
        LineFault::NoMemory(NoMemory)
    }
}

// There is room at once for a token in so many bytes, and for two more: few lines have more.
const COMMON_LENGTH: usize = 3;

fn may_sign(line: &[u8], at: usize) -> bool
    requires { at ≤ length line.now }
    ensures { result ≡ may_sign line.now at }
{
    if at == 0 {
        return true;
    }
    let b = line[at - 1];
    is_blank(b) || b == b'(' || b == b','
}

// Past the blanks from a place on.
fn past_blanks(line: &[u8], from: usize) -> usize
    requires { from ≤ length line.now }
    ensures after { from ≤ result }
    ensures within { result ≤ length line.now }
    ensures blanks { list_all is_blank (take (result - from) (drop from line.now)) ≡ true }
    ensures ends { result < length line.now → is_blank (slice_index line.now result) ≡ false }
{
    let mut at = from;
    while at < line.len() && is_blank(line[at]) {
        at += 1;
    }
    at
}

// The tokens of a line of UTF-8.
fn cut(alloc: Global, line: &[u8]) -> Result<Vec<Token>, LineFault>
    requires { IsUtf8 line.now }
    ensures ok { IfOk result (λ ts. AreTokens line.now ts.items) }
    ensures refused { IfErr result (λ e. Refuses line.now e) }
    ensures never_long { IsErrOf result LineFault.TooLong → ⊥ }
{
    let mut out = Vec::with_capacity(alloc, line.len() / COMMON_LENGTH + 2)?;
    let mut at = 0;
    while at < line.len() {
        let start = past_blanks(line, at);
        if start == line.len() {
            return Ok(out);
        }
        let (_, rest) = line.split_at(start);
        let Some((kind, len)) = scan(rest, may_sign(line, start)) else {
            return Err(LineFault::Bad(start));
        };
        let end = start + len;
        out.push(Token { kind, start, end })?;
        at = end;
    }
    Ok(out)
}

/// The tokens of a line, which are separated by spaces and tabs where they don't touch.
///
/// Refused are a line of more than `MOST_LINE` bytes, with `TooLong`, and one that has no tokens, with `Bad` and the place
/// where no token begins; in a line that isn't UTF-8 that place is the end of its longest front of UTF-8.
pub fn tokens(alloc: Global, line: &[u8]) -> Result<Vec<Token>, LineFault>
    ensures ok { IfOk result (λ ts. AreTokens line.now ts.items) }
    ensures refused { IfErr result (λ e. Refuses line.now e) }
    ensures long { IsErrOf result LineFault.TooLong ↔ (MOST_LINE < length line.now) }
{
    if line.len() > MOST_LINE {
        return Err(LineFault::TooLong);
    }
    if let Err(e) = str::from_utf8(line) {
        return Err(LineFault::Bad(e.valid_up_to()));
    }
    cut(alloc, line)
}

/// A line is cut into tokens in one way; one that is refused as `Bad` in none, and it is refused at one place.
pub fn one_cutting()
    ensures one { (line : List ℕ) (ts us : List Token) → AreTokens line ts → AreTokens line us → ts ≡ us }
    ensures none { (line : List ℕ) (at : ℕ) (ts : List Token) → IsBad line at → AreTokens line ts → ⊥ }
    ensures one_place { (line : List ℕ) (at to : ℕ) → IsBad line at → IsBad line to → at ≡ to }
{}

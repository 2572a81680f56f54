// Reads what scripts say most where its names are known, at once and as far as the LF, without looking for its piece.
ghost use Rattle.std.specs.Prelude.{◌≡◌, ◌+◌, ◌-◌, ◌^◌, ◌<◌, ◌≤◌, ◌++◌, codes, length, IfOk, IfSome};
ghost use Rattle.script_items.specs.Items.{Begins};
ghost use Rattle.script_items.specs.Briefs.{brief_item, IsFront};

use crate::common::{behind, behind_front, behind_word, parted};
use crate::known::KnownNames;
use crate::short::short;
use sig_base::{MOST_LINE, Name, NoMemory, Scalar};

/// What scripts say most.
#[derive(Drop)]
pub enum Brief {
    /// `get N`
    Get(Name),
    /// `set N LIT`
    Set(Name, Scalar),
    /// `flush`
    Flush,
}

// `get N`, behind the word and a blank, and how many bytes stand behind its LF.
fn get(known: &KnownNames, text: &[u8]) -> Result<Option<(Brief, usize)>, NoMemory>
    ensures { IfOk result (λ found. IfSome found (λ x. IsFront (codes "get " ++ text.now) x.0 x.1)) }
{
    let Some((name, rest)) = parted(text, b'\n') else {
        return Ok(None);
    };
    let Some(name) = known.known(name)? else {
        return Ok(None);
    };
    Ok(Some((Brief::Get(name), rest.len())))
}

// `set N LIT` with a whole number or a truth, behind the word and a blank, and how many bytes stand behind its LF.
fn set(known: &KnownNames, line: &[u8]) -> Result<Option<(Brief, usize)>, NoMemory>
    ensures { IfOk result (λ found. IfSome found (λ x. IsFront (codes "set " ++ line.now) x.0 x.1)) }
{
    let Some((name, others)) = parted(line, b' ') else {
        return Ok(None);
    };
    let Some((text, rest)) = parted(others, b'\n') else {
        return Ok(None);
    };
    let Some(value) = short(text) else {
        return Ok(None);
    };
    let Some(name) = known.known(name)? else {
        return Ok(None);
    };
    Ok(Some((Brief::Set(name, value), rest.len())))
}

// `flush`, behind its first letter, and how many bytes stand behind its LF.
fn flush(text: &[u8]) -> Option<(Brief, usize)>
    ensures { IfSome result (λ x. IsFront (codes "f" ++ text.now) x.0 x.1) }
{
    let Some(rest) = behind_front(text, b"lush\n") else {
        return None;
    };
    let brief = Brief::Flush;
    Some((brief, rest.len()))
}

// What the first of lines is, if it is one of these, and how many bytes stand behind its LF.
fn first(known: &KnownNames, bytes: &[u8]) -> Result<Option<(Brief, usize)>, NoMemory>
    ensures { IfOk result (λ found. IfSome found (λ x. IsFront bytes.now x.0 x.1)) }
{
    if let Some(text) = behind_word(bytes, b'g', b'e', b't') {
        return get(known, text);
    }
    if let Some(text) = behind_word(bytes, b's', b'e', b't') {
        return set(known, text);
    }
    if let Some(text) = behind(bytes, b'f') {
        return Ok(flush(text));
    }
    Ok(None)
}

/// The item that `next_item` tells of a byte on, where it is one of those that scripts say most, each part of it stands behind one blank, an LF ends it and
/// its name is known. Nothing of any other, even where it says something.
///
/// # Errors
///
/// `NoMemory` where it finds no room.
pub fn next_brief(
    known: &KnownNames,
    script: &[u8],
    at: usize,
    line: u32,
) -> Result<Option<(Brief, usize, u32)>, NoMemory>
    requires at { at ≤ length script.now }
    requires count { line < 2 ^ 31 }
    ensures within { IfOk result (λ found. IfSome found (λ x. (at < x.1) × (x.1 ≤ length script.now))) }
    ensures count { IfOk result (λ found. IfSome found (λ x. x.2 ≤ line + (x.1 - at))) }
    ensures item { IfOk result (λ found. IfSome found (λ x. Begins script.now at line (brief_item x.0) x.1 x.2)) }
{
    let (_, bytes) = script.split_at(at);
    let Some((brief, left)) = first(known, bytes)? else {
        return Ok(None);
    };
    let next = script.len() - left;
    if MOST_LINE < next - at {
        return Ok(None);
    }
    Ok(Some((brief, next, line + 1)))
}

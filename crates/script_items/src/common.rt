// Reads the commonest lines, of which each part stands behind one blank, without cutting them into tokens.
ghost use Rattle.std.specs.Prelude.{◌≡◌, ◌∷◌, ◌++◌, ℕ, codes, IfOk, IfSome};
ghost use Rattle.script_items.specs.Views.{IsPlain};

use crate::chain::chained;
use crate::known::KnownNames;
use crate::operation;
use crate::short::short;
use line_forms::Unread;
use live_cmd::{Bare, Command, Item, Verb};
use std::alloc::Global;

// `get N`, behind the word and a blank.
fn get(alloc: Global, known: &mut KnownNames, text: &[u8]) -> Result<Item, Unread>
    ensures { (k : ℕ) → IfOk result (λ i. IsPlain (k, codes "get " ++ text.now) i) }
{
    let name = known.name(alloc, text)?;
    let verb = Verb::Get;
    Ok(Item::Do(Command::Named { verb, name }))
}

/// What stands before the first of these bytes, and what behind it.
pub(crate) fn parted(text: &[u8], byte: u8) -> Option<(&[u8], &[u8])>
    ensures { IfSome result (λ p. text.now ≡ p.0.now ++ byte ∷ p.1.now) }
{
    let at = text.iter().position(|b| *b == byte)?;
    let (front, rest) = text.split_at(at);
    let (first, behind) = rest.split_first()?;
    if *first != byte {
        return None;
    }
    Some((front, behind))
}

// `set N LIT` with a whole number or a truth, behind the word and a blank.
fn set(alloc: Global, known: &mut KnownNames, text: &[u8]) -> Result<Item, Unread>
    ensures { (k : ℕ) → IfOk result (λ i. IsPlain (k, codes "set " ++ text.now) i) }
{
    let Some((name, value)) = parted(text, b' ') else {
        return Err(Unread::NotThere);
    };
    let Some(value) = short(value) else {
        return Err(Unread::NotThere);
    };
    let name = known.name(alloc, name)?;
    Ok(Item::Do(Command::Set { name, value }))
}

// `cell N = LIT` with a whole number or a truth, behind the word and a blank.
fn cell(alloc: Global, known: &mut KnownNames, text: &[u8]) -> Result<Item, Unread>
    ensures { (k : ℕ) → IfOk result (λ i. IsPlain (k, codes "cell " ++ text.now) i) }
{
    let Some((name, rest)) = parted(text, b' ') else {
        return Err(Unread::NotThere);
    };
    let Some(value) = behind_front(rest, b"= ") else {
        return Err(Unread::NotThere);
    };
    let Some(value) = short(value) else {
        return Err(Unread::NotThere);
    };
    let name = known.name(alloc, name)?;
    let (equals, inside) = (None, None);
    Ok(Item::Do(Command::Cell {
        name,
        value,
        equals,
        inside,
    }))
}

// `computed N = A o B ..`, behind the word and a blank. One of one operator is looked for before all others.
fn computed(alloc: Global, known: &mut KnownNames, text: &[u8]) -> Result<Item, Unread>
    ensures { (k : ℕ) → IfOk result (λ i. IsPlain (k, codes "computed " ++ text.now) i) }
{
    match operation::computed(alloc, known, text) {
        Err(Unread::NotThere) => chained(alloc, known, text),
        told => told,
    }
}

// `flush`.
fn flush() -> Result<Item, Unread>
    ensures { (k : ℕ) → IfOk result (λ i. IsPlain (k, codes "flush") i) }
{
    let bare = Bare::Flush;
    Ok(Item::Do(Command::Bare(bare)))
}

// What the commonest word alone is.
fn word_alone(line: &[u8]) -> Result<Item, Unread>
    ensures { (k : ℕ) → IfOk result (λ i. IsPlain (k, line.now) i) }
{
    if line == b"flush".as_slice() {
        return flush();
    }
    Err(Unread::NotThere)
}

/// What stands behind a byte with which bytes begin.
pub(crate) fn behind(line: &[u8], byte: u8) -> Option<&[u8]>
    ensures { IfSome result (λ rest. line.now ≡ byte ∷ rest.now) }
{
    let (first, rest) = line.split_first()?;
    if *first == byte { Some(rest) } else { None }
}

/// What stands behind a word of three bytes and a blank.
pub(crate) fn behind_word(line: &[u8], first: u8, second: u8, third: u8) -> Option<&[u8]>
    ensures { IfSome result (λ rest. line.now ≡ first ∷ second ∷ third ∷ 32 ∷ rest.now) }
{
    let rest = behind(line, first)?;
    let rest = behind(rest, second)?;
    let rest = behind(rest, third)?;
    let rest = behind(rest, b' ')?;
    Some(rest)
}

/// What stands behind bytes with which others begin.
pub(crate) fn behind_front<'a>(line: &'a [u8], front: &[u8]) -> Option<&'a [u8]>
    ensures { IfSome result (λ rest. line.now ≡ front.now ++ rest.now) }
{
    if line.len() < front.len() {
        return None;
    }
    let (first, rest) = line.split_at(front.len());
    if first == front { Some(rest) } else { None }
}

/// What one of the commonest lines is; nothing of another, even where it says something.
pub fn common_item(alloc: Global, known: &mut KnownNames, line: &[u8]) -> Result<Item, Unread>
    ensures { (k : ℕ) → IfOk result (λ i. IsPlain (k, line.now) i) }
{
    if let Some(text) = behind_word(line, b'g', b'e', b't') {
        return get(alloc, known, text);
    }
    if let Some(text) = behind_word(line, b's', b'e', b't') {
        return set(alloc, known, text);
    }
    if let Some(text) = behind_front(line, b"computed ") {
        return computed(alloc, known, text);
    }
    if let Some(text) = behind_front(line, b"cell ") {
        return cell(alloc, known, text);
    }
    word_alone(line)
}

// The parts of an operation's text. Each is read as if it stood there, and gives something that can be written whatever stands
// there: that it is what stands there is seen when it is written again.
ghost use Rattle.std.specs.Prelude.{◌≡◌, ◌++◌, ◌≤◌, ℕ, List, IfOk, true, false, drop, length, slice_index};
ghost use Rattle.std.specs.List.{prefix_len};
ghost use Rattle.std.specs.Fmt.{decimal};
ghost use Rattle.sig_base.specs.Printer.{quoted};
ghost use Rattle.sig_base.specs.Words.{in_tag};
ghost use Rattle.sig_words.specs.Literals.{meaning};
ghost use Rattle.html_out.specs.Html.{good_name};
ghost use Rattle.page_model.specs.Texts.{IsNumber, IsText};
ghost use Rattle.page_ops.specs.Parser.{behind_front, behind_quote, front, unquoted};

use html_out::good_name;
use sig_base::{NoMemory, Text, TextFault, in_tag};
use std::alloc::Global;
use std::str;

/// What stands behind so many bytes.
pub fn behind(bytes: &[u8], count: usize) -> &[u8]
    ensures { result.now ≡ drop count bytes.now }
{
    if count > bytes.len() {
        return &[];
    }
    bytes.split_at(count).1
}

/// The byte at a place, or 0 past the end.
pub fn byte_at(bytes: &[u8], place: usize) -> u8
    ensures { result ≡ slice_index bytes.now place }
{
    if place < bytes.len() { bytes[place] } else { 0 }
}

fn front_length(bytes: &[u8]) -> usize
    ensures length { result ≡ prefix_len in_tag bytes.now }
    ensures within { result ≤ length bytes.now }
{
    let mut count = 0;
    for byte in bytes {
        if !in_tag(*byte) {
            return count;
        }
        count += 1;
    }
    count
}

/// The word at the front, of lower-case letters, digits and hyphens, and what stands behind it.
pub fn word(bytes: &[u8]) -> (&[u8], &[u8])
    ensures front { result.0.now ≡ front bytes.now }
    ensures behind { result.1.now ≡ behind_front bytes.now }
{
    bytes.split_at(front_length(bytes))
}

/// The number that a word writes in decimal.
pub fn number(word: &[u8]) -> u64
    ensures { (n : ℕ) → IsNumber n → word.now ≡ decimal n → result ≡ n }
{
    let Ok(digits) = str::from_utf8(word) else {
        return 0;
    };
    digits.parse::<u64>().unwrap_or(0)
}

// The text of these characters, or an empty one where they are too many.
fn text(alloc: Global, characters: &str) -> Result<Text, NoMemory>
    ensures text { IfOk result IsText }
    ensures same { IfOk result (λ t. IsText characters.now → t ≡ characters.now) }
{
    match Text::new(alloc, characters) {
        Ok(text) => Ok(text),
        Err(TextFault::Long) => Text::new(alloc, "").map_err(|_: TextFault| NoMemory),
        Err(TextFault::NoMemory(e)) => Err(e),
    }
}

/// The name that a word is, or another one where it is none.
pub fn name(alloc: Global, word: &[u8]) -> Result<Text, NoMemory>
    ensures name { IfOk result (λ t. good_name t ≡ true) }
    ensures same { IfOk result (λ t. good_name word.now ≡ true → t ≡ word.now) }
{
    let Ok(name) = str::from_utf8(word) else {
        return text(alloc, "a");
    };
    if !good_name(name) {
        return text(alloc, "a");
    }
    text(alloc, name)
}

// What a byte behind a backslash stands for.
fn meaning(byte: u8) -> u8
    ensures { result ≡ meaning byte }
{
    match byte {
        b'n' => b'\n',
        b'r' => b'\r',
        b't' => b'\t',
        _ => byte,
    }
}

// What the bytes up to a quote stand for.
fn unquoted(alloc: Global, bytes: &[u8]) -> Result<Vec<u8>, NoMemory>
    ensures { IfOk result (λ v. v.items ≡ unquoted false bytes.now) }
{
    let mut out = Vec::new(alloc);
    let mut escaped = false;
    for byte in bytes {
        if escaped {
            out.push(meaning(*byte))?;
            escaped = false;
        } else if *byte == b'"' {
            return Ok(out);
        } else if *byte == b'\\' {
            escaped = true;
        } else {
            out.push(*byte)?;
        }
    }
    Ok(out)
}

/// The text that stands at the front in double quotes, as it is printed.
pub fn literal(alloc: Global, bytes: &[u8]) -> Result<Text, NoMemory>
    ensures text { IfOk result IsText }
    ensures same { IfOk result (λ t. (u rest : List ℕ) → IsText u → bytes.now ≡ quoted u ++ rest → t ≡ u) }
{
    let content = unquoted(alloc, behind(bytes, 1))?;
    let Ok(characters) = str::from_utf8(&content) else {
        return text(alloc, "");
    };
    text(alloc, characters)
}

/// What stands behind the text at the front.
pub fn behind_literal(bytes: &[u8]) -> &[u8]
    ensures { result.now ≡ behind_quote false (drop 1 bytes.now) }
{
    let mut left = behind(bytes, 1);
    let mut escaped = false;
    while let Some((byte, after)) = left.split_first() {
        if !escaped && *byte == b'"' {
            return after;
        }
        escaped = !escaped && *byte == b'\\';
        left = after;
    }
    left
}

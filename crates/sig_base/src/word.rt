// Which bytes make words, names and tags.
ghost use Rattle.std.specs.Prelude.{◌≡◌};
ghost use Rattle.std.specs.List.{list_all};
ghost use Rattle.sig_base.specs.Words.{begins_word, in_tag, in_word, is_blank, is_name, is_reserved, is_tag};

use crate::MOST_NAME;
use crate::same::same_bytes;

/// Whether a byte may stand between the words of a line: a space or a tab.
pub fn is_blank(b: u8) -> bool
    ensures { result ≡ is_blank b }
{
    b == b' ' || b == b'\t'
}

/// Whether a word may begin with a byte: an ASCII letter or `_`.
pub fn begins_word(b: u8) -> bool
    ensures { result ≡ begins_word b }
{
    b.is_ascii_alphabetic() || b == b'_'
}

/// Whether a byte may stand in a word: an ASCII letter, a digit or `_`.
pub fn in_word(b: u8) -> bool
    ensures { result ≡ in_word b }
{
    b.is_ascii_alphanumeric() || b == b'_'
}

fn are_in_word(bytes: &[u8]) -> bool
    ensures { result ≡ list_all in_word bytes.now }
{
    bytes.iter().all(|b| in_word(*b))
}

#[tactic(auto, using(crate::proofs::Lengths::unlike), unfolding(crate::specs::Words::is_reserved))]
fn is_reserved(word: &[u8]) -> bool
    ensures { result ≡ is_reserved word.now }
{
    match word.len() {
        2 => same_bytes(word, b"or")
            || same_bytes(word, b"if")
            || same_bytes(word, b"it")
            || same_bytes(word, b"in"),
        3 => same_bytes(word, b"and") || same_bytes(word, b"not") || same_bytes(word, b"sum"),
        4 => {
            same_bytes(word, b"then")
                || same_bytes(word, b"else")
                || same_bytes(word, b"true")
                || same_bytes(word, b"keep")
                || same_bytes(word, b"host")
        }
        5 => same_bytes(word, b"false") || same_bytes(word, b"count"),
        6 => same_bytes(word, b"equals"),
        7 => same_bytes(word, b"untrack"),
        _ => false,
    }
}

/// Whether bytes are a name: a word of at most `MOST_NAME` bytes that isn't reserved.
#[tactic(auto, unfolding(crate::specs::Words::is_name))]
pub fn is_name(word: &[u8]) -> bool
    ensures { result ≡ is_name word.now }
{
    !word.is_empty()
        && begins_word(word[0])
        && are_in_word(word)
        && word.len() <= MOST_NAME
        && !is_reserved(word)
}

/// What the name of a tag has behind its first letter: a lower-case letter, a digit or `-`.
pub fn in_tag(b: u8) -> bool
    ensures { result ≡ in_tag b }
{
    b.is_ascii_lowercase() || b.is_ascii_digit() || b == b'-'
}

fn are_in_tag(bytes: &[u8]) -> bool
    ensures { result ≡ list_all in_tag bytes.now }
{
    bytes.iter().all(|b| in_tag(*b))
}

/// Whether bytes are the name of a tag: a lower-case letter, then lower-case letters, digits and `-`.
pub fn is_tag(name: &[u8]) -> bool
    ensures { result ≡ is_tag name.now }
{
    match name {
        [first, others @ ..] => first.is_ascii_lowercase() && are_in_tag(others),
        [] => false,
    }
}

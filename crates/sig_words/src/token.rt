// The tokens that a line is cut into.
ghost use Rattle.std.specs.Prelude.{◌≡◌};
ghost use Rattle.sig_words.specs.Lexemes.{text_at};

/// What a token is.
#[derive(Clone, Copy, PartialEq, Eq)]
pub enum TokenKind {
    /// An ASCII letter or `_`, then letters, digits and `_`.
    Word,
    /// `@`, a lower-case letter, then lower-case letters, digits and `-`; at most `MOST_TAG` bytes behind the `@`.
    Tag,
    /// A whole number in decimal with no zero to spare, and no letter or `_` right behind it. A `-` right before a digit is its
    /// sign where a space, a tab, `(`, `,` or nothing stands before the `-`, and a symbol elsewhere.
    Number(i64),
    /// A text between quotes, in which a backslash stands before `\`, `"`, `n`, `r` or `t` and nothing else.
    Literal,
    /// The longest that fits of `( ) , . = == != < <= > >= + - * / % ++`.
    Symbol,
}

/// A token of a line: the bytes from `start` up to `end`.
#[derive(Clone, Copy, PartialEq, Eq)]
pub struct Token {
    pub kind: TokenKind,
    pub start: usize,
    pub end: usize,
}

/// The bytes of a token of this line; of a token of another line those that the line has there.
pub fn token_bytes<'a>(line: &'a [u8], token: &Token) -> &'a [u8]
    ensures { result.now ≡ text_at line.now token.now }
{
    let (_, rest) = line.split_at(token.start.min(line.len()));
    let len = token.end.saturating_sub(token.start);
    let (text, _) = rest.split_at(len.min(rest.len()));
    text
}

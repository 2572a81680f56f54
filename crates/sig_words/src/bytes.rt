// Which bytes stand where in a token.
ghost use Rattle.std.specs.Prelude.{◌≡◌};
ghost use Rattle.sig_words.specs.Tokens.{is_escape, is_one, is_two};

/// What may stand behind a backslash.
pub fn is_escape(b: u8) -> bool
    ensures { result ≡ is_escape b }
{
    b == b'\\' || b == b'"' || b == b'n' || b == b'r' || b == b't'
}

/// A symbol of one byte.
pub fn is_one(b: u8) -> bool
    ensures { result ≡ is_one b }
{
    matches!(
        b,
        b'(' | b')' | b',' | b'.' | b'=' | b'<' | b'>' | b'+' | b'-' | b'*' | b'/' | b'%'
    )
}

/// A symbol of two bytes.
pub fn is_two(b: u8, c: u8) -> bool
    ensures { result ≡ is_two b c }
{
    (c == b'=' && (b == b'=' || b == b'!' || b == b'<' || b == b'>')) || (b == b'+' && c == b'+')
}

// Numbers in decimal.
ghost use Rattle.std.specs.Prelude.{◌≡◌, ℤ, MatchOption};
ghost use Rattle.std.specs.Fmt.{signed_decimal};
ghost use Rattle.std.specs.Int.{w64};
ghost use Rattle.std.specs.Int.RustNames.{FitsSigned};
ghost use Rattle.sig_words.specs.Scanner.{is_plain};

use std::str;

/// The number whose decimal text this is.
pub fn integer(text: &[u8]) -> Option<i64>
    ensures { MatchOption result
        ((z : ℤ) → FitsSigned w64 z → text.now ≡ signed_decimal z → ⊥)
        (λ z. text.now ≡ signed_decimal z) }
{
    if !is_plain(text) {
        return None;
    }
    let Ok(digits) = str::from_utf8(text) else {
        return None;
    };
    let Ok(n) = digits.parse::<i64>() else {
        return None;
    };
    Some(n)
}

// Whether the text, behind a `-` where one stands first, begins as a number does that has no zero to spare.
fn is_plain(text: &[u8]) -> bool
    ensures { result ≡ is_plain text.now }
{
    match text {
        [b'0'] => true,
        [b'-', b, ..] => *b >= b'1' && *b <= b'9',
        [b, ..] => *b >= b'1' && *b <= b'9',
        [] => false,
    }
}

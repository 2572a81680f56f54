// The number of rounds, as a word writes it.
ghost use Rattle.std.specs.Prelude.{◌≡◌};
ghost use Rattle.live_words.specs.Rounds.{begins_plainly, rounds_of};

use crate::MOST_ROUNDS;

// Whether the bytes begin with a digit other than 0.
fn begins_plainly(bytes: &[u8]) -> bool
    ensures { result ≡ begins_plainly bytes.now }
{
    match bytes {
        [b, ..] => *b >= b'1' && *b <= b'9',
        [] => false,
    }
}

/// The number from 1 to `MOST_ROUNDS` of which this is the decimal text. `None` exactly where there is none: for a sign, a leading
/// zero, a number outside of these, and what is no number.
pub fn read_rounds(text: &str) -> Option<u32>
    ensures { result ≡ rounds_of text.now }
{
    if !begins_plainly(text.as_bytes()) {
        return None;
    }
    let Ok(rounds) = text.parse::<u32>() else {
        return None;
    };
    if rounds > MOST_ROUNDS {
        return None;
    }
    Some(rounds)
}

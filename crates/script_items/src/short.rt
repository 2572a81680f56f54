// Whole numbers and truths, as they are printed.
ghost use Rattle.std.specs.Prelude.{◌≡◌, ◌^◌, ◌<◌, IfSome};
ghost use Rattle.std.specs.Fmt.{decimal, signed_decimal};
ghost use Rattle.std.specs.Int.{w64};
ghost use Rattle.std.specs.Int.RustNames.{FitsSigned};
ghost use Rattle.script_items.specs.Briefs.{IsShort};

use sig_base::Scalar;
use sig_words::integer;

// The whole number that a text is.
fn whole(text: &[u8]) -> Option<i64>
    ensures { IfSome result (λ z. FitsSigned w64 z × (text.now ≡ signed_decimal z)) }
{
    let Some(value) = integer(text) else {
        return None;
    };
    Some(value)
}

// From this number on, no digit is put behind another.
const LONG: u64 = 100_000_000_000_000_000;

// The number that a text of digits is which isn't long and has no zero to spare.
fn natural(text: &[u8]) -> Option<u64>
    ensures { IfSome result (λ n. (n < 2 ^ 63) × (text.now ≡ decimal n)) }
{
    let Some((first, digits)) = text.split_first() else {
        return None;
    };
    if *first < b'1' || b'9' < *first {
        return None;
    }
    let mut number = u64::from(*first - b'0');
    for digit in digits {
        if LONG <= number || *digit < b'0' || b'9' < *digit {
            return None;
        }
        number = number * 10 + u64::from(*digit - b'0');
    }
    Some(number)
}

/// The whole number or the truth that a text is, as it is printed.
pub(crate) fn short(text: &[u8]) -> Option<Scalar>
    ensures { IfSome result (λ v. IsShort v text.now) }
{
    if let Some(number) = natural(text) {
        return Some(Scalar::Int(number as i64));
    }
    if let Some(number) = whole(text) {
        return Some(Scalar::Int(number));
    }
    if text == b"true".as_slice() {
        return Some(Scalar::Bool(true));
    }
    if text == b"false".as_slice() {
        return Some(Scalar::Bool(false));
    }
    None
}

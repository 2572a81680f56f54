// Characters, which stand in place where they are few, and are shared otherwise.
ghost use Rattle.std.specs.Prelude.{◌≡◌, ◌≤◌, true, false, length, IfOk};
ghost use Rattle.std.specs.Int.{to_le_bytes, w64};
ghost use Rattle.std.specs.Rc.{rc_str_bytes};
ghost use Rattle.std.specs.Str.{bytes_eq};
ghost use Rattle.sig_base.specs.Characters.{bytes_of, few_in_place};
ghost use Rattle.sig_base.specs.Placed.{padded};
ghost use Rattle.sig_base.specs.declared.chars.TheConstants.{FEW};

use crate::same::same_bytes;
use std::alloc::{AllocError, Global};
use std::marker::Model;
use std::rc::RcStr;
use std::str;

// How many bytes stand in place at most. With the one that counts them they are a word.
const FEW: usize = 7;

// At most `FEW` bytes of UTF-8. The last byte of the array is how many they are, and those between are 0. `room` takes none: it lays the
// array out as a word, so that it is moved at once.
pub(crate) struct Few {
    room: [u64; 0],
    bytes: [u8; FEW + 1],
}

impl Drop for Few {
    #[inline(always)]
    fn drop(self) {
        let Few { room: _, bytes: _ } = self;
    }
}

impl Model for Few {
    ghost use Rattle.std.specs.Prelude.{List, ℕ};
    ghost use Rattle.sig_base.specs.Placed.{IsPlaced, placed};
    ghost use Rattle.sig_base.specs.declared.chars.TheConstants.{FEW};

    ghost Value = { List ℕ };

    ghost view = { λ f. placed FEW f.bytes };

    ghost invariant = { λ f. IsPlaced FEW f.bytes };
}

// An array as a number.
#[inline(always)]
fn word(array: &[u8; FEW + 1]) -> u64
    ensures { to_le_bytes w64 result ≡ array.now }
{
    u64::from_le_bytes(*array)
}

// Whether two arrays are the same.
#[inline(always)]
fn same_arrays(one: &[u8; FEW + 1], other: &[u8; FEW + 1]) -> bool
    ensures same { result ≡ true → one.now ≡ other.now }
    ensures differ { result ≡ false → one.now ≡ other.now → ⊥ }
{
    word(one) == word(other)
}

// The array in which bytes stand.
#[inline(always)]
fn padded(text: &[u8]) -> [u8; FEW + 1]
    requires { length text.now ≤ FEW }
    ensures { result ≡ padded FEW text.now }
{
    let mut array = [0; FEW + 1];
    for (at, byte) in text.iter().enumerate() {
        array[at] = *byte;
    }
    array[FEW] = text.len() as u8;
    array
}

impl Few {
    // These characters in place.
    #[inline(always)]
    fn of(text: &str) -> Few
        requires { length text.now ≤ FEW }
        ensures { result ≡ text.now }
    {
        Few {
            room: [],
            bytes: padded(text.as_bytes()),
        }
    }

    // The characters.
    #[inline(always)]
    fn as_str(&self) -> &str
        ensures { result.now ≡ self.now }
    {
        let count = self.bytes[FEW] as usize;
        unsafe { str::from_utf8_unchecked(&self.bytes[..count]) }
    }

    // The same characters.
    #[inline(always)]
    fn copy(&self) -> Few
        ensures { result ≡ self.now }
    {
        Few {
            room: [],
            bytes: self.bytes,
        }
    }

    // Whether the characters are the same.
    #[inline(always)]
    fn same(&self, other: &Few) -> bool
        ensures { result ≡ bytes_eq self.now other.now }
    {
        same_arrays(&self.bytes, &other.bytes)
    }
}

// Characters: in place where they have at most `FEW` bytes, otherwise in memory that their copies share.
pub(crate) enum Chars {
    Few(Few),
    Shared(RcStr),
}

// Lets go of shared characters. It is a call, so that what drops few characters is no more than a test.
#[inline(never)]
fn let_go(_: RcStr) {}

impl Drop for Chars {
    #[inline(always)]
    fn drop(self) {
        match self {
            Chars::Few(_) => {}
            Chars::Shared(shared) => let_go(shared),
        }
    }
}

// Whether shared characters are the same. It is a call, so that what compares few characters is short.
#[inline(never)]
fn same_shared(one: &RcStr, other: &RcStr) -> bool
    ensures { result ≡ bytes_eq (rc_str_bytes one.now) (rc_str_bytes other.now) }
{
    same_bytes(one.as_str().as_bytes(), other.as_str().as_bytes())
}

impl Chars {
    // These characters.
    pub(crate) fn of(alloc: Global, text: &str) -> Result<Chars, AllocError>
        ensures bytes { IfOk result (λ c. bytes_of c ≡ text.now) }
        ensures place { IfOk result (λ c. few_in_place c ≡ true) }
    {
        if text.len() <= FEW {
            return Ok(Chars::Few(Few::of(text)));
        }
        Ok(Chars::Shared(RcStr::from_str(alloc, text)?))
    }

    // The characters as a text.
    #[inline(always)]
    pub(crate) fn as_str(&self) -> &str
        ensures { result.now ≡ bytes_of self.now }
    {
        match self {
            Chars::Few(few) => few.as_str(),
            Chars::Shared(shared) => shared.as_str(),
        }
    }

    // The same characters.
    #[inline(always)]
    pub(crate) fn copy(&self) -> Result<Chars, AllocError>
        ensures bytes { IfOk result (λ c. bytes_of c ≡ bytes_of self.now) }
        ensures place { IfOk result (λ c. few_in_place c ≡ few_in_place self.now) }
    {
        match self {
            Chars::Few(few) => Ok(Chars::Few(few.copy())),
            Chars::Shared(shared) => Ok(Chars::Shared(shared.clone()?)),
        }
    }

    // Whether the characters are the same. Those in place are told from those that are shared by where they stand.
    #[inline(always)]
    #[tactic(auto, using(crate::proofs::Placing::few_other, crate::proofs::Placing::other_few))]
    pub(crate) fn same(&self, other: &Chars) -> bool
        requires self_in_place { few_in_place self.now ≡ true }
        requires other_in_place { few_in_place other.now ≡ true }
        ensures { result ≡ bytes_eq (bytes_of self.now) (bytes_of other.now) }
    {
        match self {
            Chars::Few(one) => match other {
                Chars::Few(two) => one.same(two),
                Chars::Shared(_) => false,
            },
            Chars::Shared(one) => match other {
                Chars::Few(_) => false,
                Chars::Shared(two) => same_shared(one, two),
            },
        }
    }
}

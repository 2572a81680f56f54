// A text that shares its bytes.
ghost use Rattle.std.specs.Hash as fed;
ghost use Rattle.std.specs.Prelude.{◌≡◌, ◌<◌, ◌≤◌, ◌↔◌, length, IfOk, IsErrOf};
ghost use Rattle.std.specs.Str.{bytes_eq};
ghost use Rattle.std.specs.Cmp.Rules.{comparing, hashing};
ghost use Rattle.std.proofs.Common.{rules};
ghost use Rattle.sig_base.specs.declared.text.TextFault.TheVariants as fault;

use crate::chars::Chars;
use crate::{MOST_TEXT, NoMemory};
use std::alloc::{AllocError, Global};
use std::hash::{Hash, Hasher};
use std::marker::Model;
use thiserror::Error;

/// Why there is no such text.
#[derive(Clone, Copy, Debug, Error)]
pub enum TextFault {
    #[error("a text is too long")]
    Long,
    #[error(transparent)]
    NoMemory(NoMemory),
}

impl From<AllocError> for TextFault {
    ghost from_gives = { λ _ e. e ≡ fault.NoMemory (record {}) };

    fn from(_: AllocError) -> Self {
        TextFault::NoMemory(NoMemory)
    }
}

/// A text of at most `MOST_TEXT` bytes of UTF-8. A few stand in place; the copies of a longer one share its bytes.
pub struct Text {
    chars: Chars,
}

impl Drop for Text {
    #[inline(always)]
    fn drop(self) {
        let Text { chars: _ } = self;
    }
}

impl Model for Text {
    ghost use Rattle.std.specs.Prelude.{◌≡◌, List, ℕ, ◌≤◌, length, true};
    ghost use Rattle.sig_base.specs.Characters.{bytes_of, few_in_place};
    ghost use Rattle.sig_base.specs.declared.limits.TheConstants.{MOST_TEXT};

    ghost Value = { List ℕ };

    ghost view = { λ t. bytes_of t.chars };

    ghost invariant = { λ t. (length (bytes_of t.chars) ≤ MOST_TEXT) × (few_in_place t.chars ≡ true) };
}

impl Text {
    /// The text of these characters; `Long` exactly where they have more than `MOST_TEXT` bytes.
    pub fn new(alloc: Global, text: &str) -> Result<Text, TextFault>
        ensures ok { IfOk result (λ t. t ≡ text.now) }
        ensures short { IfOk result (λ t. length text.now ≤ MOST_TEXT) }
        ensures long { IsErrOf result TextFault.Long → MOST_TEXT < length text.now }
    {
        if text.len() > MOST_TEXT {
            return Err(TextFault::Long);
        }
        Ok(Text {
            chars: Chars::of(alloc, text)?,
        })
    }

    /// How many bytes it has.
    #[inline(always)]
    pub fn len(&self) -> usize
        ensures count { result ≡ length self.now }
        ensures short { length self.now ≤ MOST_TEXT }
    {
        self.chars.as_str().len()
    }

    /// Its characters.
    #[inline(always)]
    pub fn as_str(&self) -> &str
        ensures { result.now ≡ self.now }
    {
        self.chars.as_str()
    }

    /// The same text, which shares the bytes of a long one.
    #[inline(always)]
    pub fn copy(&self) -> Result<Text, NoMemory>
        ensures { IfOk result (λ t. t ≡ self.now) }
    {
        Ok(Text {
            chars: self.chars.copy()?,
        })
    }
}

impl PartialEq for Text {
    ghost eq = { λ a b. bytes_eq a b };

    ghost laws = { Prim.search (comparing, rules) };

    #[inline(always)]
    fn eq(&self, other: &Text) -> bool {
        self.chars.same(&other.chars)
    }
}

impl Eq for Text {
    ghost laws = { Prim.search (comparing, rules) };
}

impl Hash for Text {
    ghost hash_input = { λ a. fed.str a };

    ghost respects_eq = { Prim.search (hashing, rules) };

    fn hash<H: Hasher>(&self, state: &mut H) {
        self.as_str().hash(state);
    }
}

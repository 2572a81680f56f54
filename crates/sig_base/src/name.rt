// The names of a script.
ghost use Rattle.std.specs.Hash as fed;
ghost use Rattle.std.specs.Prelude.{◌≡◌, length, IfOk, IsErrOf, true, false};
ghost use Rattle.std.specs.Str.{bytes_eq};
ghost use Rattle.std.specs.Cmp.Rules.{comparing, hashing};
ghost use Rattle.std.proofs.Common.{rules};
ghost use Rattle.sig_base.specs.declared.name.NameFault.TheVariants as fault;
ghost use Rattle.sig_base.specs.Words.{is_name};

use crate::chars::Chars;
use crate::{NoMemory, is_name};
use std::alloc::{AllocError, Global};
use std::hash::{Hash, Hasher};
use std::marker::Model;
use thiserror::Error;

/// Why there is no such name.
#[derive(Clone, Copy, Debug, Error)]
pub enum NameFault {
    #[error("the text is no name")]
    Bad,
    #[error(transparent)]
    NoMemory(NoMemory),
}

impl From<AllocError> for NameFault {
    ghost from_gives = { λ _ e. e ≡ fault.NoMemory (record {}) };

    fn from(_: AllocError) -> Self {
        NameFault::NoMemory(NoMemory)
    }
}

/// A name of a script. A short one stands in place; the copies of a longer one share its bytes.
pub struct Name {
    chars: Chars,
}

impl Drop for Name {
    #[inline(always)]
    fn drop(self) {
        let Name { chars: _ } = self;
    }
}

impl Model for Name {
    ghost use Rattle.std.specs.Prelude.{◌≡◌, List, ℕ, true};
    ghost use Rattle.sig_base.specs.Characters.{bytes_of, few_in_place};
    ghost use Rattle.sig_base.specs.Words.{is_name};

    ghost Value = { List ℕ };

    ghost view = { λ n. bytes_of n.chars };

    ghost invariant = { λ n. (is_name (bytes_of n.chars) ≡ true) × (few_in_place n.chars ≡ true) };
}

impl Name {
    /// The name of these characters: a word of at most `MOST_NAME` bytes that isn't reserved; otherwise `Bad`.
    pub fn new(alloc: Global, text: &str) -> Result<Name, NameFault>
        ensures ok { IfOk result (λ n. n ≡ text.now) }
        ensures good { IfOk result (λ n. is_name text.now ≡ true) }
        ensures bad { IsErrOf result NameFault.Bad → is_name text.now ≡ false }
    {
        if !is_name(text.as_bytes()) {
            return Err(NameFault::Bad);
        }
        match Name::of_judged(alloc, text) {
            Ok(name) => Ok(name),
            Err(e) => Err(NameFault::NoMemory(e)),
        }
    }

    /// The name of these characters, which are known to be one.
    pub fn of_judged(alloc: Global, text: &str) -> Result<Name, NoMemory>
        requires { is_name text.now ≡ true }
        ensures { IfOk result (λ n. n ≡ text.now) }
    {
        Ok(Name {
            chars: Chars::of(alloc, text)?,
        })
    }

    /// How many bytes it has.
    #[inline(always)]
    pub fn len(&self) -> usize
        ensures count { result ≡ length self.now }
        ensures good { is_name self.now ≡ true }
    {
        self.chars.as_str().len()
    }

    /// Its characters.
    #[inline(always)]
    pub fn as_str(&self) -> &str
        ensures { result.now ≡ self.now }
    {
        self.chars.as_str()
    }

    /// The same name, which shares the bytes of a long one.
    #[inline(always)]
    pub fn copy(&self) -> Result<Name, NoMemory>
        ensures { IfOk result (λ n. n ≡ self.now) }
    {
        Ok(Name {
            chars: self.chars.copy()?,
        })
    }
}

impl PartialEq for Name {
    ghost eq = { λ a b. bytes_eq a b };

    ghost laws = { Prim.search (comparing, rules) };

    #[inline(always)]
    fn eq(&self, other: &Name) -> bool {
        self.chars.same(&other.chars)
    }
}

impl Eq for Name {
    ghost laws = { Prim.search (comparing, rules) };
}

impl Hash for Name {
    ghost hash_input = { λ a. fed.str a };

    ghost respects_eq = { Prim.search (hashing, rules) };

    fn hash<H: Hasher>(&self, state: &mut H) {
        self.as_str().hash(state);
    }
}

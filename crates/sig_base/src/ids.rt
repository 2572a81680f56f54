// The numbers under which stores give out their things.
ghost use Rattle.std.specs.Prelude.{◌≡◌, ◌+◌, ◌^◌, IfOk, IsErr};

use crate::errors::NoMemory;
use std::marker::Model;

/// How many numbers were given once one more is, after so many. Numbers never come again, so there is none behind the last one: that is
/// answered as want of memory, which comes long before.
pub fn one_given(given: u64) -> Result<u64, NoMemory>
    ensures ok { IfOk result (λ n. n ≡ given + 1) }
    ensures last { IsErr result → given + 1 ≡ 2 ^ 64 }
{
    if given == u64::MAX {
        return Err(NoMemory);
    }
    Ok(given + 1)
}

/// The number of a signal.
#[derive(Clone, Copy, PartialEq, Eq, Hash)]
pub struct NodeId {
    number: u64,
}

impl Model for NodeId {
    ghost use Rattle.std.specs.Prelude.{ℕ};

    ghost Value = { ℕ };

    ghost view = { λ id. id.number };

    ghost inverse = { λ n. record { number = n } };
}

impl NodeId {
    /// The id of this number, for the store that gives it.
    pub fn of(number: u64) -> NodeId
        ensures { result ≡ number }
    {
        NodeId { number }
    }

    /// Its number.
    pub fn number(&self) -> u64
        ensures { result ≡ self.now }
    {
        self.number
    }
}

/// The number of an owner.
#[derive(Clone, Copy, PartialEq, Eq, Hash)]
pub struct OwnerId {
    number: u64,
}

impl Model for OwnerId {
    ghost use Rattle.std.specs.Prelude.{ℕ};

    ghost Value = { ℕ };

    ghost view = { λ id. id.number };

    ghost inverse = { λ n. record { number = n } };
}

impl OwnerId {
    /// The id of this number, for the store that gives it.
    pub fn of(number: u64) -> OwnerId
        ensures { result ≡ number }
    {
        OwnerId { number }
    }

    /// Its number.
    pub fn number(&self) -> u64
        ensures { result ≡ self.now }
    {
        self.number
    }
}

/// The number of a watcher.
#[derive(Clone, Copy, PartialEq, Eq)]
pub struct WatcherId {
    number: u64,
}

impl Model for WatcherId {
    ghost use Rattle.std.specs.Prelude.{ℕ};

    ghost Value = { ℕ };

    ghost view = { λ id. id.number };

    ghost inverse = { λ n. record { number = n } };
}

impl WatcherId {
    /// The id of this number, for the store that gives it.
    pub fn of(number: u64) -> WatcherId
        ensures { result ≡ number }
    {
        WatcherId { number }
    }

    /// Its number.
    pub fn number(&self) -> u64
        ensures { result ≡ self.now }
    {
        self.number
    }
}

/// The number of an effect.
#[derive(Clone, Copy, PartialEq, Eq, Hash)]
pub struct EffectId {
    number: u64,
}

impl Model for EffectId {
    ghost use Rattle.std.specs.Prelude.{ℕ};

    ghost Value = { ℕ };

    ghost view = { λ id. id.number };

    ghost inverse = { λ n. record { number = n } };
}

impl EffectId {
    /// The id of this number, for the store that gives it.
    pub fn of(number: u64) -> EffectId
        ensures { result ≡ number }
    {
        EffectId { number }
    }

    /// Its number.
    pub fn number(&self) -> u64
        ensures { result ≡ self.now }
    {
        self.number
    }
}

/// The number of a page.
#[derive(Clone, Copy, PartialEq, Eq, Hash)]
pub struct PageId {
    number: u64,
}

impl Model for PageId {
    ghost use Rattle.std.specs.Prelude.{ℕ};

    ghost Value = { ℕ };

    ghost view = { λ id. id.number };

    ghost inverse = { λ n. record { number = n } };
}

impl PageId {
    /// The id of this number, for the store that gives it.
    pub fn of(number: u64) -> PageId
        ensures { result ≡ number }
    {
        PageId { number }
    }

    /// Its number.
    pub fn number(&self) -> u64
        ensures { result ≡ self.now }
    {
        self.number
    }
}

/// The number of a template's place.
#[derive(Clone, Copy)]
pub struct PlaceId {
    number: u64,
}

impl Model for PlaceId {
    ghost use Rattle.std.specs.Prelude.{ℕ};

    ghost Value = { ℕ };

    ghost view = { λ id. id.number };

    ghost inverse = { λ n. record { number = n } };
}

impl PlaceId {
    /// The id of this number, for the store that gives it.
    pub fn of(number: u64) -> PlaceId
        ensures { result ≡ number }
    {
        PlaceId { number }
    }

    /// Its number.
    pub fn number(&self) -> u64
        ensures { result ≡ self.now }
    {
        self.number
    }
}

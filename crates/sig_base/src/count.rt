// A count of changes.
ghost use Rattle.std.specs.Prelude.{◌≡◌, ◌+◌, ◌<◌, ◌^◌, nat_eq};

use std::marker::Model;

// How many counts one word tells apart.
const WORDS: u128 = 1 << 64;

/// A count of 128 bits. It stands in two words, so that what holds it is laid out by words.
#[derive(Clone, Copy)]
pub struct Count {
    low: u64,
    high: u64,
}

impl Model for Count {
    ghost use Rattle.std.specs.Prelude.{◌<◌, ◌+◌, ◌*◌, ◌^◌, ◌/◌, ◌%◌, ℕ};

    ghost Value = { ℕ };

    ghost view = { λ c. c.high * 2 ^ 64 + c.low };

    ghost invariant = { λ c. c.low < 2 ^ 64 };

    ghost inverse = { λ n. record { low = n % 2 ^ 64; high = n / 2 ^ 64 } };
}

impl Count {
    /// Nothing was counted.
    pub fn new() -> Count
        ensures { result ≡ 0 }
    {
        Count { low: 0, high: 0 }
    }

    /// The count of this number.
    #[inline(always)]
    pub fn of(number: u128) -> Count
        ensures { result ≡ number }
    {
        Count {
            low: (number % WORDS) as u64,
            high: (number / WORDS) as u64,
        }
    }

    /// Whether two counts are the same.
    #[inline(always)]
    pub fn is(&self, other: &Count) -> bool
        ensures { result ≡ nat_eq self.now other.now }
    {
        self.low == other.low && self.high == other.high
    }

    /// One more.
    #[inline(always)]
    pub fn raise(&mut self)
        requires { self.old + 1 < 2 ^ 128 }
        ensures { self.new ≡ self.old + 1 }
    {
        if self.low < u64::MAX {
            self.low += 1;
            return;
        }
        self.low = 0;
        self.high += 1;
    }
}

// What rows are known by.
ghost use Rattle.std.specs.Prelude.{◌≡◌, Decides, IfOk};
ghost use Rattle.std.proofs.lemmas.Slice.Eq.{bytes_eq-Decides};
ghost use Rattle.keyed_each.specs.Keys.{numbers_decide};

use sig_base::{NoMemory, Text};
use std::hash::Hash;

/// A key of a row. Two keys are equal exactly where they are the same.
pub trait RowKey: Eq + Hash + Drop {
    /// The same key.
    ///
    /// # Errors
    ///
    /// `NoMemory` alone.
    fn copied(&self) -> Result<Self, NoMemory>
        ensures { IfOk result (λ k. k ≡ self.now) };

    ghost decides: { (x y : Self) → Decides (Self.eq x y) (x ≡ y) };
}

impl RowKey for Text {
    ghost decides = { bytes_eq-Decides };

    fn copied(&self) -> Result<Text, NoMemory> {
        self.copy()
    }
}

impl RowKey for u64 {
    ghost decides = { numbers_decide };

    fn copied(&self) -> Result<u64, NoMemory> {
        Ok(*self)
    }
}

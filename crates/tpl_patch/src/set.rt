// Sets of numbers.
ghost use Rattle.std.specs.Prelude.{◌≡◌, ℕ, IfOk};
ghost use Rattle.page_model.specs.Edits.{listed};
ghost use Rattle.tpl_patch.specs.Sets.{tells};

use indexmap::IndexSet;
use sig_base::NoMemory;
use std::alloc::Global;

/// A set of numbers.
pub(crate) struct NumberSet {
    numbers: IndexSet<u64>,
}

impl Drop for NumberSet {
    fn drop(self) {
        let NumberSet { numbers: _ } = self;
    }
}

impl NumberSet {
    /// The set of these numbers.
    ///
    /// # Errors
    ///
    /// `NoMemory` alone.
    pub(crate) fn of(alloc: Global, numbers: &[u64]) -> Result<NumberSet, NoMemory>
        ensures { IfOk result (λ s. (n : ℕ) → tells s n ≡ listed n numbers.now) }
    {
        let mut held = IndexSet::new(alloc);
        for number in numbers {
            held.insert(*number)?;
        }
        Ok(NumberSet { numbers: held })
    }

    /// Whether it has a number.
    pub(crate) fn has(&self, number: u64) -> bool
        ensures { result ≡ tells self.now number }
    {
        self.numbers.contains(&number)
    }
}

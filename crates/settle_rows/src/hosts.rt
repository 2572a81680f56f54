// Host formulas that tests hand in.
ghost use Rattle.std.specs.Prelude.{◌≡◌};
ghost use Rattle.sig_base.specs.declared.value.Step.TheVariants.{Read};
ghost use Rattle.settle_rows.specs.Loans.{first_lends, first_step};

use sig_base::{Known, NoMemory, Step};
use sig_host::HostFormula;
use std::alloc::Global;

/// Reads slot 0, and gives its value.
#[derive(Drop)]
pub(crate) struct First {
    asks: u128,
}

impl First {
    /// One that was never asked.
    pub(crate) fn new() -> First
        ensures { result.asks ≡ 0 }
    {
        First { asks: 0 }
    }
}

impl HostFormula for First {
    ghost step_of = { λ _ known. first_step known };

    ghost asks = { λ f. f.asks };

    fn step(&mut self, _alloc: Global, known: &[Known]) -> Result<Step, NoMemory> {
        let step = match known.first() {
            Some(first) => Step::Done(first.value.copy()?),
            None => Step::Read(0),
        };
        self.asks += 1;
        Ok(step)
    }

    ghost lends_rows = { λ _. first_lends };
}

/// Reads one slot, whatever is known.
#[derive(Drop)]
pub(crate) struct Again {
    slot: u32,
    asks: u128,
}

impl Again {
    /// One that reads this slot, and was never asked.
    pub(crate) fn new(slot: u32) -> Again
        ensures { result.asks ≡ 0 }
    {
        Again { slot, asks: 0 }
    }
}

impl HostFormula for Again {
    ghost step_of = { λ f _. Read f.slot };

    ghost asks = { λ f. f.asks };

    fn step(&mut self, _alloc: Global, _known: &[Known]) -> Result<Step, NoMemory> {
        self.asks += 1;
        Ok(Step::Read(self.slot))
    }

    ghost lends_rows = { λ _. record { gives = λ _ _. tt } };
}

// The first of three slots that isn't `false`.
ghost use Rattle.std.specs.Prelude.{◌≡◌, IfOk};
ghost use Rattle.sig_base.specs.declared.value.Step.TheVariants.{Done};
ghost use Rattle.host_samples.specs.Loans.{cascade_lends};
ghost use Rattle.host_samples.specs.Samples.{cascade_step, reading, unless_false};

use crate::known::{given, value_at};
use sig_base::{Known, NoMemory, Step, Value};
use sig_host::HostFormula;
use std::alloc::Global;

/// Goes through three slots. It reads them from slot 0 on and gives the first value that isn't `false`; after slot 2 it gives
/// what that one has.
#[derive(Drop)]
pub struct Cascade {
    asks: u128,
}

impl Cascade {
    /// A formula that was never asked. It takes no memory.
    pub fn new() -> Cascade
        ensures { result.asks ≡ 0 }
    {
        Cascade { asks: 0 }
    }
}

// What it answers from slot 1 on.
fn answer_later(known: &[Known]) -> Result<Step, NoMemory>
    ensures { IfOk result (λ s. s ≡ reading known.now 1 (unless_false (reading known.now 2 (λ v. Done v)))) }
{
    match value_at(known, 1)? {
        Some(Value::Bool(false)) => given(known, 2),
        Some(value) => Ok(Step::Done(value)),
        None => Ok(Step::Read(1)),
    }
}

// What it answers to what is known.
fn answer(known: &[Known]) -> Result<Step, NoMemory>
    ensures { IfOk result (λ s. s ≡ cascade_step known.now) }
{
    match value_at(known, 0)? {
        Some(Value::Bool(false)) => answer_later(known),
        Some(value) => Ok(Step::Done(value)),
        None => Ok(Step::Read(0)),
    }
}

impl HostFormula for Cascade {
    ghost step_of = { λ _ known. cascade_step known };

    ghost asks = { λ f. f.asks };

    fn step(&mut self, _alloc: Global, known: &[Known]) -> Result<Step, NoMemory> {
        let step = answer(known)?;
        self.asks += 1;
        Ok(step)
    }

    ghost lends_rows = { λ _. cascade_lends };
}

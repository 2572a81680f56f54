// One of two slots, as a first one says.
ghost use Rattle.std.specs.Prelude.{◌≡◌, IfOk};
ghost use Rattle.host_samples.specs.Loans.{pick_lends};
ghost use Rattle.host_samples.specs.Samples.{pick_step};

use crate::known::{given, value_at};
use sig_base::{Fault, Known, NoMemory, Step, Value};
use sig_host::HostFormula;
use std::alloc::Global;

/// Chooses between two slots. It reads slot 0; for true it reads slot 1 and gives it, for false slot 2. What is no truth is
/// the fault `kind`.
#[derive(Drop)]
pub struct Pick {
    asks: u128,
}

impl Pick {
    /// A formula that was never asked. It takes no memory.
    pub fn new() -> Pick
        ensures { result.asks ≡ 0 }
    {
        Pick { asks: 0 }
    }
}

// What it answers to what is known.
fn answer(known: &[Known]) -> Result<Step, NoMemory>
    ensures { IfOk result (λ s. s ≡ pick_step known.now) }
{
    match value_at(known, 0)? {
        Some(Value::Bool(true)) => given(known, 1),
        Some(Value::Bool(false)) => given(known, 2),
        Some(_) => Ok(Step::Fail(Fault::Kind)),
        None => Ok(Step::Read(0)),
    }
}

impl HostFormula for Pick {
    ghost step_of = { λ _ known. pick_step known };

    ghost asks = { λ f. f.asks };

    fn step(&mut self, _alloc: Global, known: &[Known]) -> Result<Step, NoMemory> {
        let step = answer(known)?;
        self.asks += 1;
        Ok(step)
    }

    ghost lends_rows = { λ _. pick_lends };
}

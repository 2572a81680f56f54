// A number within two bounds.
ghost use Rattle.std.specs.Prelude.{◌≡◌, IfOk};
ghost use Rattle.host_samples.specs.Loans.{clamp_lends};
ghost use Rattle.host_samples.specs.Samples.{clamp_step, clamped, nearest};

use crate::known::value_at;
use sig_base::{Fault, Known, NoMemory, Step, Value};
use sig_host::HostFormula;
use std::alloc::Global;

/// Keeps a number within bounds. It reads slots 0, 1 and 2: the number, the least and the greatest. Where one of them is no
/// whole number it is the fault `kind`, after all three were read. Where the least is above the greatest it is the fault
/// `host 2`. Otherwise it gives the number from the least to the greatest that is nearest to slot 0.
#[derive(Drop)]
pub struct Clamp {
    asks: u128,
}

impl Clamp {
    /// A formula that was never asked. It takes no memory.
    pub fn new() -> Clamp
        ensures { result.asks ≡ 0 }
    {
        Clamp { asks: 0 }
    }
}

// The fault where the least is above the greatest.
const NO_RANGE: Fault = Fault::Host(2);

// The nearest number that is within the bounds.
fn nearest(number: i64, least: i64, greatest: i64) -> Step
    ensures { result ≡ nearest number least greatest }
{
    if greatest < least {
        return Step::Fail(NO_RANGE);
    }
    Step::Done(Value::Int(number.max(least).min(greatest)))
}

// What three values come to.
fn clamped(number: &Value, least: &Value, greatest: &Value) -> Step
    ensures { result ≡ clamped number.now least.now greatest.now }
{
    match (number, least, greatest) {
        (Value::Int(number), Value::Int(least), Value::Int(greatest)) => {
            nearest(*number, *least, *greatest)
        }
        _ => Step::Fail(Fault::Kind),
    }
}

// What it answers to what is known.
fn answer(known: &[Known]) -> Result<Step, NoMemory>
    ensures { IfOk result (λ s. s ≡ clamp_step known.now) }
{
    let Some(number) = value_at(known, 0)? else {
        return Ok(Step::Read(0));
    };
    let Some(least) = value_at(known, 1)? else {
        return Ok(Step::Read(1));
    };
    let Some(greatest) = value_at(known, 2)? else {
        return Ok(Step::Read(2));
    };
    Ok(clamped(&number, &least, &greatest))
}

impl HostFormula for Clamp {
    ghost step_of = { λ _ known. clamp_step known };

    ghost asks = { λ f. f.asks };

    fn step(&mut self, _alloc: Global, known: &[Known]) -> Result<Step, NoMemory> {
        let step = answer(known)?;
        self.asks += 1;
        Ok(step)
    }

    ghost lends_rows = { λ _. clamp_lends };
}

// What is known of the slots.
ghost use Rattle.std.specs.Prelude.{◌≡◌, IfOk};
ghost use Rattle.sig_base.specs.declared.value.Step.TheVariants.{Done};
ghost use Rattle.sig_formula.specs.Evaluation.{known_at};
ghost use Rattle.host_samples.specs.Samples.{reading};

use sig_base::{Known, NoMemory, Step, Value};

/// The value of a slot, where it is known.
pub(crate) fn value_at(known: &[Known], slot: u32) -> Result<Option<Value>, NoMemory>
    ensures { IfOk result (λ v. v ≡ known_at slot known.now) }
{
    for entry in known {
        if entry.slot == slot {
            return Ok(Some(entry.value.copy()?));
        }
    }
    Ok(None)
}

/// Gives the value of a slot.
pub(crate) fn given(known: &[Known], slot: u32) -> Result<Step, NoMemory>
    ensures { IfOk result (λ s. s ≡ reading known.now slot (λ v. Done v)) }
{
    match value_at(known, slot)? {
        Some(value) => Ok(Step::Done(value)),
        None => Ok(Step::Read(slot)),
    }
}

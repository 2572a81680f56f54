// The slots of a formula.
ghost use Rattle.std.specs.Prelude.{◌≡◌, ◌++◌, IfOk, OnOk};
ghost use Rattle.sig_formula.specs.Trees.{tree};
ghost use Rattle.live_model.specs.Uses.{slots_in};

use sig_base::NoMemory;
use sig_formula::Formula;
use std::alloc::Global;

fn put_slots(slots: &mut Vec<u32>, formula: &Formula) -> Result<(), NoMemory>
    ensures { OnOk result (slots.new.items ≡ slots.old.items ++ slots_in (tree formula.now)) }
{
    match formula {
        Formula::Lit(_) => Ok(()),
        Formula::Slot(slot) => {
            slots.push(*slot)?;
            Ok(())
        }
        Formula::It(_) => Ok(()),
        Formula::ItKey => Ok(()),
        Formula::Not(inner) => put_slots(slots, inner),
        Formula::Bin(_, left, right) => {
            put_slots(slots, left)?;
            put_slots(slots, right)
        }
        Formula::If(test, held, other) => {
            put_slots(slots, test)?;
            put_slots(slots, held)?;
            put_slots(slots, other)
        }
        Formula::Count(rows) => put_slots(slots, rows),
        Formula::Sum(rows, part) => {
            put_slots(slots, rows)?;
            put_slots(slots, part)
        }
        Formula::Keep(rows, test) => {
            put_slots(slots, rows)?;
            put_slots(slots, test)
        }
        Formula::Untrack(inner) => put_slots(slots, inner),
    }
}

/// The slots of a formula in the order of the text.
pub(crate) fn slots_in(alloc: Global, formula: &Formula) -> Result<Vec<u32>, NoMemory>
    ensures { IfOk result (λ slots. slots.items ≡ slots_in (tree formula.now)) }
{
    let mut slots = Vec::new(alloc);
    put_slots(&mut slots, formula)?;
    Ok(slots)
}

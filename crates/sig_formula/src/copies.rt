// Copies of formulas.
ghost use Rattle.std.specs.Prelude.{◌≡◌, IfOk};
ghost use Rattle.sig_formula.specs.Trees.{tree};

use crate::formula::Formula;
use sig_base::NoMemory;
use std::alloc::Global;

// A formula like another, in a box.
#[cycle(copying)]
fn boxed_copy(alloc: Global, formula: &Formula) -> Result<Box<Formula>, NoMemory>
    ensures { IfOk result (λ b. tree b.value ≡ tree formula.now) }
{
    let copy = copy_formula(alloc, formula)?;
    let boxed = Box::new(alloc, copy)?;
    Ok(boxed)
}

/// A formula like another.
///
/// # Errors
///
/// `NoMemory` alone.
#[cycle(copying)]
pub fn copy_formula(alloc: Global, formula: &Formula) -> Result<Formula, NoMemory>
    ensures { IfOk result (λ f. tree f ≡ tree formula.now) }
{
    match formula {
        Formula::Lit(scalar) => Ok(Formula::Lit(scalar.copy()?)),
        Formula::Slot(slot) => Ok(Formula::Slot(*slot)),
        Formula::It(name) => Ok(Formula::It(name.copy()?)),
        Formula::ItKey => Ok(Formula::ItKey),
        Formula::Not(inner) => Ok(Formula::Not(boxed_copy(alloc, inner)?)),
        Formula::Bin(op, left, right) => {
            let left = boxed_copy(alloc, left)?;
            let right = boxed_copy(alloc, right)?;
            Ok(Formula::Bin(*op, left, right))
        }
        Formula::If(test, one, other) => {
            let test = boxed_copy(alloc, test)?;
            let one = boxed_copy(alloc, one)?;
            let other = boxed_copy(alloc, other)?;
            Ok(Formula::If(test, one, other))
        }
        Formula::Count(rows) => Ok(Formula::Count(boxed_copy(alloc, rows)?)),
        Formula::Sum(rows, part) => {
            let rows = boxed_copy(alloc, rows)?;
            let part = boxed_copy(alloc, part)?;
            Ok(Formula::Sum(rows, part))
        }
        Formula::Keep(rows, test) => {
            let rows = boxed_copy(alloc, rows)?;
            let test = boxed_copy(alloc, test)?;
            Ok(Formula::Keep(rows, test))
        }
        Formula::Untrack(inner) => Ok(Formula::Untrack(boxed_copy(alloc, inner)?)),
    }
}

// Places of numbered rows, where new rows have the numbers from one on.
ghost use Rattle.std.specs.Prelude.{◌≡◌, ◌+◌, ◌∷◌, ℕ, List, IfOk, length, nat_eq};
ghost use Rattle.std.specs.List.{IsDistinct};
ghost use Rattle.keyed_each.specs.Standing.{behind, below, stand_among, stand_from};
ghost use Rattle.keyed_each.specs.Steps.{steps_between};

use crate::places::{RowStep, place};
use sig_base::NoMemory;
use std::alloc::Global;

// The numbers below the first new one.
fn staying(alloc: Global, numbers: &[u64], next: u64) -> Result<Vec<u64>, NoMemory>
    ensures { IfOk result (λ v. v.items ≡ below next numbers.now) }
{
    let mut staying = Vec::with_capacity(alloc, numbers.len())?;
    for number in numbers {
        if *number < next {
            staying.push(*number)?;
        }
    }
    Ok(staying)
}

// What waits behind a number, where it comes first.
fn behind(number: u64, waiting: &[u64]) -> &[u64]
    ensures { result.now ≡ behind number waiting.now }
{
    let Some((first, rest)) = waiting.split_first() else {
        return waiting;
    };
    if *first == number {
        return rest;
    }
    waiting
}

// Whether numbers stand in their order among others, all of which are below the first new one.
fn stand_among(numbers: &[u64], others: &[u64], next: u64) -> bool
    ensures { result ≡ stand_among next numbers.now others.now }
{
    let mut waiting = numbers;
    for other in others {
        if *other < next {
            waiting = behind(*other, waiting);
        } else {
            return false;
        }
    }
    waiting.is_empty()
}

// The step for a number at a place, where those below the first new one stand.
fn step_for(number: u64, place: usize, next: u64) -> RowStep
    ensures { (ms : List ℕ) → stand_from next place (number ∷ ms) ≡ result ∷ stand_from next (place + 1) ms }
{
    if number < next {
        RowStep::Keep
    } else {
        RowStep::Insert(place)
    }
}

// The steps for numbers, where those below the first new one stand.
fn standing(alloc: Global, numbers: &[u64], next: u64) -> Result<Vec<RowStep>, NoMemory>
    ensures { IfOk result (λ v. v.items ≡ stand_from next 0 numbers.now) }
{
    let mut steps = Vec::with_capacity(alloc, numbers.len())?;
    for (place, number) in numbers.iter().enumerate() {
        steps.push(step_for(*number, place, next))?;
    }
    Ok(steps)
}

/// The steps between old and new rows that are known by numbers, as `place` tells them. Where those of the new ones that are below a number stand among
/// the old ones in their order, and all old ones are below it, none moves, and no table is made.
///
/// # Errors
///
/// `NoMemory` alone.
pub fn place_numbers(
    alloc: Global,
    old: &[u64],
    new: &[u64],
    next: u64,
) -> Result<Vec<RowStep>, NoMemory>
    ensures count { IfOk result (λ v. length v.items ≡ length new.now) }
    ensures steps { IsDistinct nat_eq old.now → IsDistinct nat_eq new.now → IfOk result (λ v. v.items ≡ steps_between nat_eq old.now new.now) }
{
    let kept = staying(alloc, new, next)?;
    if stand_among(&kept, old, next) {
        let stood = standing(alloc, new, next)?;
        return Ok(stood);
    }
    let steps = place(alloc, old, new)?;
    Ok(steps)
}

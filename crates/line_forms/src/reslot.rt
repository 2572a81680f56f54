// Names one after the other, and formulas over other names.
ghost use Rattle.std.specs.Prelude.{◌≡◌, ◌<◌, ◌^◌, length, map, position, IfOk, IfSome, OnOk};
ghost use Rattle.std.specs.List.{list_any};
ghost use Rattle.std.specs.Str.{bytes_eq};
ghost use Rattle.sig_formula.specs.Trees.{tree};
ghost use Rattle.formula_text.specs.Refusals.{slot_of, with_name};
ghost use Rattle.line_forms.specs.Slots.{among_names, reslotted, slot_in, with_each};

use formula_text::Wired;
use sig_base::{Name, NoMemory, same_bytes};
use sig_formula::Formula;
use std::alloc::Global;

// Whether a name is among others.
fn is_among(names: &[Name], name: &Name) -> bool
    ensures { result ≡ list_any (λ m. bytes_eq m name.now) names.now }
{
    names.iter().any(|other| same_bytes(other.as_str().as_bytes(), name.as_str().as_bytes()))
}

/// Appends a name that isn't there.
pub fn put_new_name(names: &mut Vec<Name>, name: &Name) -> Result<(), NoMemory>
    ensures { OnOk result (names.new.items ≡ with_name names.old.items name.now) }
{
    if !is_among(names, name) {
        names.push(name.copy()?)?;
    }
    Ok(())
}

/// Appends those that aren't there, in their order.
pub fn put_new_names(names: &mut Vec<Name>, others: &[Name]) -> Result<(), NoMemory>
    ensures { OnOk result (names.new.items ≡ with_each names.old.items others.now) }
{
    for name in others {
        put_new_name(names, name)?;
    }
    Ok(())
}

// The place of a name.
fn place_of(names: &[Name], name: &Name) -> Option<usize>
    ensures place { result ≡ position (λ m. bytes_eq m name.now) names.now }
    ensures within { IfSome result (λ i. i < length names.now) }
{
    names.iter().position(|other| same_bytes(other.as_str().as_bytes(), name.as_str().as_bytes()))
}

/// The slot of a name among few.
pub fn slot_of(names: &[Name], name: &Name) -> u32
    ensures { length names.now < 2 ^ 32 → result ≡ slot_of names.now name.now }
{
    let place = place_of(names, name).unwrap_or(0);
    u32::try_from(place).unwrap_or(u32::MAX)
}

// The slots of names among few.
fn slots_of(alloc: Global, names: &[Name], own: &[Name]) -> Result<Vec<u32>, NoMemory>
    ensures { length names.now < 2 ^ 32 → IfOk result (λ v. v.items ≡ map (slot_of names.now) own.now) }
{
    let mut slots = Vec::new(alloc);
    for name in own {
        slots.push(slot_of(names, name))?;
    }
    Ok(slots)
}

// The slot for which another stands.
fn slot_in(slots: &[u32], slot: u32) -> u32
    ensures { result ≡ slot_in slots.now slot }
{
    slots.get(slot as usize).copied().unwrap_or(0)
}

// A formula with other slots in the places of its own, in a box.
#[cycle(reslotting)]
fn boxed(alloc: Global, formula: &Formula, slots: &[u32]) -> Result<Box<Formula>, NoMemory>
    ensures { IfOk result (λ b. tree b.value ≡ reslotted slots.now (tree formula.now)) }
{
    let formula = reslotted(alloc, formula, slots)?;
    let boxed = Box::new(alloc, formula)?;
    Ok(boxed)
}

// A formula with other slots in the places of its own.
#[cycle(reslotting)]
fn reslotted(alloc: Global, formula: &Formula, slots: &[u32]) -> Result<Formula, NoMemory>
    ensures { IfOk result (λ f. tree f ≡ reslotted slots.now (tree formula.now)) }
{
    match formula {
        Formula::Lit(scalar) => Ok(Formula::Lit(scalar.copy()?)),
        Formula::Slot(slot) => Ok(Formula::Slot(slot_in(slots, *slot))),
        Formula::Not(inner) => Ok(Formula::Not(boxed(alloc, inner, slots)?)),
        Formula::Bin(o, left, right) => {
            let left = boxed(alloc, left, slots)?;
            let right = boxed(alloc, right, slots)?;
            Ok(Formula::Bin(*o, left, right))
        }
        Formula::If(test, held, other) => {
            let test = boxed(alloc, test, slots)?;
            let held = boxed(alloc, held, slots)?;
            let other = boxed(alloc, other, slots)?;
            Ok(Formula::If(test, held, other))
        }
        Formula::Untrack(inner) => Ok(Formula::Untrack(boxed(alloc, inner, slots)?)),
        Formula::It(field) => Ok(Formula::It(field.copy()?)),
        Formula::ItKey => Ok(Formula::ItKey),
        Formula::Count(inner) => Ok(Formula::Count(boxed(alloc, inner, slots)?)),
        Formula::Sum(rows, part) => {
            let rows = boxed(alloc, rows, slots)?;
            let part = boxed(alloc, part, slots)?;
            Ok(Formula::Sum(rows, part))
        }
        Formula::Keep(rows, test) => {
            let rows = boxed(alloc, rows, slots)?;
            let test = boxed(alloc, test, slots)?;
            Ok(Formula::Keep(rows, test))
        }
    }
}

/// A wired formula with its places among few names as slots.
pub fn formula_among(alloc: Global, names: &[Name], wired: &Wired) -> Result<Formula, NoMemory>
    ensures { length names.now < 2 ^ 32 → IfOk result (λ f. tree f ≡ among_names names.now wired.now) }
{
    let slots = slots_of(alloc, names, &wired.names)?;
    reslotted(alloc, &wired.formula, &slots)
}

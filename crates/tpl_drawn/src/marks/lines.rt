// The lines from which a page's nodes come, by the nodes' numbers.
ghost use Rattle.std.specs.Prelude.{◌≡◌, ◌≤◌, ◌<◌, ◌+◌, ◌==◌, ◌^◌, ℕ, None, Some, if◌then◌else◌, length, IfOk, OnOk};
ghost use Rattle.tpl_drawn.specs.Lines.{line_in, lined, lined_from};

use indexmap::IndexMap;
use sig_base::NoMemory;
use std::alloc::Global;
use tpl_model::Address;

// Notes the line of a number.
fn note_line(lines: &mut IndexMap<u64, usize>, number: u64, line: usize) -> Result<(), NoMemory>
    ensures { OnOk result ((k : ℕ) → line_in lines.new k ≡ (if number == k then Some line else line_in lines.old k)) }
{
    lines.insert(number, line)?;
    Ok(())
}

/// Notes the lines of these addresses under the numbers from this one on, one after the other.
///
/// # Errors
///
/// `NoMemory` alone; some may then be noted.
pub(crate) fn note_lines(
    lines: &mut IndexMap<u64, usize>,
    addresses: &[Address],
    from: u64,
) -> Result<(), NoMemory>
    requires { from + length addresses.now < 2 ^ 64 }
    ensures { OnOk result ((k : ℕ) → line_in lines.new k ≡ lined_from addresses.now from (line_in lines.old) k) }
{
    let mut number = from;
    for address in addresses {
        note_line(lines, number, address.line)?;
        number += 1;
    }
    Ok(())
}

// Notes the lines of these addresses, each under the number of its place.
fn note_under(
    lines: &mut IndexMap<u64, usize>,
    addresses: &[Address],
    numbers: &[u64],
) -> Result<(), NoMemory>
    requires { length addresses.now ≤ length numbers.now }
    ensures { OnOk result ((k : ℕ) → line_in lines.new k ≡ lined addresses.now numbers.now (line_in lines.old) k) }
{
    let mut at = 0;
    for address in addresses {
        note_line(lines, numbers[at], address.line)?;
        at += 1;
    }
    Ok(())
}

/// The lines of these addresses, each under the number of its place.
///
/// # Errors
///
/// `NoMemory` alone.
pub(crate) fn lines_under(
    alloc: Global,
    addresses: &[Address],
    numbers: &[u64],
) -> Result<IndexMap<u64, usize>, NoMemory>
    requires { length addresses.now ≤ length numbers.now }
    ensures { IfOk result (λ m. (k : ℕ) → line_in m k ≡ lined addresses.now numbers.now (λ j. None) k) }
{
    let mut lines = IndexMap::with_capacity(alloc, addresses.len())?;
    note_under(&mut lines, addresses, numbers)?;
    Ok(lines)
}

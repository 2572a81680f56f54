// Counting items and entries as they come.
ghost use Rattle.std.specs.Prelude.{◌≡◌, ◌≤◌, ◌+◌, ◌<◌, ◌^◌, [], ◌∷◌, OnOk, if◌then◌else◌};
ghost use Rattle.std.specs.List.{count_by};
ghost use Rattle.live_cmd.specs.declared.command.Command.{Command};
ghost use Rattle.live_cmd.specs.declared.command.Item.TheVariants as item;
ghost use Rattle.live_report.specs.Counts.{added, counts_of, is_command, is_op, is_run, page_after, page_with};

use bench_workload::Counts;
use live_cmd::Item;
use live_entries::{Entry, PageBytes};
use sig_base::NoMemory;

/// Whether an item is a command. A block is one.
pub fn is_command(item: &Item) -> bool
    ensures { result ≡ is_command item.now }
{
    matches!(item, Item::Do(_))
}

// 1 for a run of a computed, and 0 for every other entry.
fn run_count(entry: &Entry) -> u64
    ensures { result ≡ (if is_run entry.now then 1 else 0) }
{
    match entry {
        Entry::Run(..) => 1,
        _ => 0,
    }
}

// 1 for an operation on a page, and 0 for every other entry.
fn op_count(entry: &Entry) -> u64
    ensures { result ≡ (if is_op entry.now then 1 else 0) }
{
    match entry {
        Entry::Op(..) => 1,
        _ => 0,
    }
}

// How many runs and how many operations there are among entries, in one pass. Each of the two has a clause for its count and one for its bound.
fn told_in(entries: &[Entry]) -> (u64, u64)
    ensures runs { result.0 ≡ count_by is_run entries.now }
    ensures ops { result.1 ≡ count_by is_op entries.now }
    ensures few_runs { result.0 < 2 ^ 63 }
    ensures few_ops { result.1 < 2 ^ 63 }
{
    let mut runs = 0;
    let mut ops = 0;
    for entry in entries {
        runs += run_count(entry);
        ops += op_count(entry);
    }
    (runs, ops)
}

/// Nothing is counted.
pub fn no_counts() -> Counts
    ensures many { result ≡ counts_of [] [] }
    ensures few { result.commands + (result.runs + result.ops) ≡ 0 }
{
    Counts {
        commands: 0,
        runs: 0,
        ops: 0,
    }
}

/// One more command is counted, whichever it is.
pub fn with_command(counts: Counts) -> Counts
    requires { counts.commands < 2 ^ 127 }
    ensures many { (c : Command) → result ≡ added counts (counts_of (item.Do c ∷ []) []) }
    ensures few { result.commands + (result.runs + result.ops) ≤ counts.commands + (counts.runs + counts.ops) + 1 }
{
    Counts {
        commands: counts.commands + 1,
        runs: counts.runs,
        ops: counts.ops,
    }
}

/// What an item told is counted too.
pub fn with_entries(counts: Counts, entries: &[Entry]) -> Counts
    requires runs { counts.runs < 2 ^ 127 }
    requires ops { counts.ops < 2 ^ 127 }
    ensures many { result ≡ added counts (counts_of [] entries.now) }
    ensures few { result.commands + (result.runs + result.ops) ≤ counts.commands + (counts.runs + counts.ops) + 2 ^ 64 }
{
    let (runs, ops) = told_in(entries);
    Counts {
        commands: counts.commands,
        runs: counts.runs + runs as u128,
        ops: counts.ops + ops as u128,
    }
}

// Takes the page as an entry tells it, if it does.
fn turn_to(page: &mut PageBytes, entry: &Entry) -> Result<(), NoMemory>
    ensures { OnOk result (page.new ≡ page_with page.old entry.now) }
{
    match entry {
        Entry::Page(_, told) => {
            *page = told.copy()?;
            Ok(())
        }
        _ => Ok(()),
    }
}

/// Takes the page that is told last, if one is.
pub fn turn_page(page: &mut PageBytes, entries: &[Entry]) -> Result<(), NoMemory>
    ensures { OnOk result (page.new ≡ page_after page.old entries.now) }
{
    for entry in entries {
        turn_to(page, entry)?;
    }
    Ok(())
}

// The numbers and the depth of a subtree that comes.
ghost use Rattle.std.specs.Prelude.{◌≡◌, ◌++◌, ◌||◌, ℕ, Some, IfOk, OnOk, cond, nat_eq};
ghost use Rattle.indexmap.specs.IndexMap.{get};
ghost use Rattle.page_model.specs.Forest.{keys, on};
ghost use Rattle.page_model.specs.Replay as replay;
ghost use Rattle.page_tree.specs.Subs.{sub_tree};
ghost use Rattle.page_ops.specs.Numbers.{first_of, is_again, mark, met_again, often};

use indexmap::IndexMap;
use page_tree::{Sub, Tree};
use sig_base::NoMemory;
use std::alloc::Global;

// Appends the numbers of a subtree, each before those below it.
fn put_numbers(out: &mut Vec<u64>, sub: &Sub) -> Result<(), NoMemory>
    ensures { OnOk result (out.new.items ≡ out.old.items ++ keys (sub_tree sub.now)) }
{
    match sub {
        Sub::Text(number, _) => {
            out.push(*number)?;
            Ok(())
        }
        Sub::Element(number, _, _, subs) => {
            out.push(*number)?;
            for sub in subs {
                put_numbers(out, sub)?;
            }
            Ok(())
        }
    }
}

// Notes a number, and whether it was met before.
fn note(seen: &mut IndexMap<u64, bool>, number: u64) -> Result<(), NoMemory>
    ensures { OnOk result ((q : ℕ) → get nat_eq seen.new q ≡
        cond (nat_eq number q) (Some (met_again (get nat_eq seen.old number))) (get nat_eq seen.old q)) }
{
    let again = seen.get(&number).is_some();
    seen.insert(number, again)?;
    Ok(())
}

// Each of these numbers, and whether it stands there more than once.
fn noted(alloc: Global, numbers: &[u64]) -> Result<IndexMap<u64, bool>, NoMemory>
    ensures { IfOk result (λ seen. (q : ℕ) → get nat_eq seen q ≡ mark (often q numbers.now)) }
{
    let mut seen = IndexMap::new(alloc);
    for number in numbers {
        note(&mut seen, *number)?;
    }
    Ok(seen)
}

fn is_used(tree: &Tree, seen: &IndexMap<u64, bool>, number: u64) -> bool
    ensures { result ≡ (on number tree.now || is_again (get nat_eq seen.now number)) }
{
    if tree.kind(number).is_some() {
        return true;
    }
    match seen.get(&number) {
        None => false,
        Some(again) => *again,
    }
}

fn first_number(tree: &Tree, seen: &IndexMap<u64, bool>, numbers: &[u64]) -> Option<u64>
    ensures { result ≡ first_of (λ n. on n tree.now || is_again (get nat_eq seen.now n)) numbers.now }
{
    for number in numbers {
        if is_used(tree, seen, *number) {
            return Some(*number);
        }
    }
    None
}

/// The first number of a subtree that is on the tree or stands twice in the subtree.
pub fn first_used(alloc: Global, tree: &Tree, sub: &Sub) -> Result<Option<u64>, NoMemory>
    ensures { IfOk result (λ n. n ≡ replay.first_used (sub_tree sub.now) (sub_tree sub.now) tree.now) }
{
    let mut numbers = Vec::new(alloc);
    put_numbers(&mut numbers, sub)?;
    let seen = noted(alloc, &numbers)?;
    Ok(first_number(tree, &seen, &numbers))
}

/// The first number of a node more than 32 steps below the root, where the subtree stands so many steps below it.
pub fn first_deep(sub: &Sub, steps: u64) -> Option<u64>
    ensures { result ≡ replay.first_deep steps (sub_tree sub.now) }
{
    if steps > 32 {
        return Some(sub.number());
    }
    match sub {
        Sub::Text(_, _) => None,
        Sub::Element(_, _, _, subs) => {
            for sub in subs {
                if let Some(number) = first_deep(sub, steps + 1) {
                    return Some(number);
                }
            }
            None
        }
    }
}

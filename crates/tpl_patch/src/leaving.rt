// The children of nodes, by what is on the next page too.
ghost use Rattle.std.specs.Prelude.{◌≡◌, ◌++◌, true, map, not, IfOk, OnOk};
ghost use Rattle.std.specs.List.{flat_map};
ghost use Rattle.page_model.specs.Edits.{ascending, listed};
ghost use Rattle.page_model.specs.Pages.{those};
ghost use Rattle.page_model.specs.Replay.{OpRemove};
ghost use Rattle.page_ops.specs.Ops.{op_of};
ghost use Rattle.tpl_model.specs.NextPage.Lookups.{gone_numbers};
ghost use Rattle.tpl_patch.specs.Sets.{left_out, tells};

use crate::set::NumberSet;
use page_ops::Op;
use page_tree::Tree;
use sig_base::NoMemory;
use std::alloc::Global;

// The most numbers that are looked for in a list one by one.
const FEW: usize = 8;

// Whether a number stands at a place of some numbers.
fn stands_at(numbers: &[u64], place: usize, number: u64) -> bool
    ensures { result ≡ true → listed number numbers.now ≡ true }
{
    match numbers.get(place) {
        Some(held) => *held == number,
        None => false,
    }
}

// Whether a number is one of these.
fn is_listed(number: u64, numbers: &[u64]) -> bool
    ensures { result ≡ listed number numbers.now }
{
    for other in numbers {
        if *other == number {
            return true;
        }
    }
    false
}

// Appends those of some numbers that may not be among the kept ones. They mostly stand in the order of these, so each is looked for at a place of them
// alone; what is told is the place where a next one is looked for.
fn put_strays(
    kept: &[u64],
    numbers: &[u64],
    near: usize,
    out: &mut Vec<u64>,
) -> Result<usize, NoMemory>
    ensures { OnOk result (left_out kept.now out.new.items ≡ left_out kept.now out.old.items ++ left_out kept.now numbers.now) }
{
    let mut place = near;
    for number in numbers {
        if stands_at(kept, place, *number) {
            place = place.wrapping_add(1);
        } else {
            out.push(*number)?;
        }
    }
    Ok(place)
}

// Those children of nodes that may not be among the kept ones, those of one node after those of another.
fn strays(alloc: Global, tree: &Tree, kept: &[u64], numbers: &[u64]) -> Result<Vec<u64>, NoMemory>
    ensures { IfOk result (λ v. left_out kept.now v.items ≡ flat_map (gone_numbers (λ n. listed n kept.now) tree.now) numbers.now) }
{
    let mut strays = Vec::new(alloc);
    let mut near = 0;
    for number in numbers {
        near = put_strays(kept, tree.children(*number), near, &mut strays)?;
    }
    Ok(strays)
}

// Those of some numbers that aren't among the kept ones, each looked for alone.
fn few_left_out(alloc: Global, kept: &[u64], numbers: &[u64]) -> Result<Vec<u64>, NoMemory>
    ensures { IfOk result (λ v. v.items ≡ left_out kept.now numbers.now) }
{
    let mut left = Vec::new(alloc);
    for number in numbers {
        if !is_listed(*number, kept) {
            left.push(*number)?;
        }
    }
    Ok(left)
}

// Those of some numbers that aren't in a set.
fn outside(alloc: Global, set: &NumberSet, numbers: &[u64]) -> Result<Vec<u64>, NoMemory>
    ensures { IfOk result (λ v. v.items ≡ those (λ n. not (tells set.now n)) numbers.now) }
{
    let mut left = Vec::new(alloc);
    for number in numbers {
        if !set.has(*number) {
            left.push(*number)?;
        }
    }
    Ok(left)
}

// Those of some numbers that aren't among the kept ones, of which a set is made.
fn many_left_out(alloc: Global, kept: &[u64], numbers: &[u64]) -> Result<Vec<u64>, NoMemory>
    ensures { IfOk result (λ v. v.items ≡ left_out kept.now numbers.now) }
{
    let set = NumberSet::of(alloc, kept)?;
    let left = outside(alloc, &set, numbers)?;
    Ok(left)
}

// Those of some numbers that aren't among the kept ones.
fn left_out(alloc: Global, kept: &[u64], numbers: &[u64]) -> Result<Vec<u64>, NoMemory>
    ensures { IfOk result (λ v. v.items ≡ left_out kept.now numbers.now) }
{
    if numbers.len() <= FEW {
        let left = few_left_out(alloc, kept, numbers)?;
        return Ok(left);
    }
    let left = many_left_out(alloc, kept, numbers)?;
    Ok(left)
}

fn put_in_order(numbers: &mut [u64])
    ensures { numbers.new ≡ ascending numbers.old }
{
    numbers.sort_unstable();
}

// Brings numbers into ascending order.
fn put_ascending(numbers: &mut Vec<u64>)
    ensures { numbers.new.items ≡ ascending numbers.old.items }
{
    put_in_order(numbers);
}

fn removals_of(alloc: Global, numbers: &[u64]) -> Result<Vec<Op>, NoMemory>
    ensures { IfOk result (λ ops. map op_of ops.items ≡ map OpRemove numbers.now) }
{
    let mut ops = Vec::new(alloc);
    for number in numbers {
        ops.push(Op::Remove(*number))?;
    }
    Ok(ops)
}

/// The removals of those children of these nodes that aren't among the kept numbers, by ascending number.
///
/// # Errors
///
/// `NoMemory` alone.
pub fn removals(
    alloc: Global,
    tree: &Tree,
    kept: &[u64],
    numbers: &[u64],
) -> Result<Vec<Op>, NoMemory>
    ensures { IfOk result (λ ops. map op_of ops.items ≡ map OpRemove (ascending (flat_map (gone_numbers (λ n. listed n kept.now) tree.now) numbers.now))) }
{
    let strays = strays(alloc, tree, kept, numbers)?;
    let mut gone = left_out(alloc, kept, &strays)?;
    put_ascending(&mut gone);
    let ops = removals_of(alloc, &gone)?;
    Ok(ops)
}

// Places of keyed rows.
ghost use Rattle.std.specs.Prelude.{◌≡◌, ◌+◌, ◌∷◌, ◌≤◌, List, length, map, IfOk, OnOk, MatchOption, false};
ghost use Rattle.std.specs.List.{IsDistinct};
ghost use Rattle.indexmap.specs.IndexSet.{insert_key};
ghost use Rattle.keyed_each.specs.Steps.{after_steps, kept, listed, steps_between};
ghost use Rattle.keyed_each.specs.Queue.{first_waiting, judged, left, IsPlaceOf};

use crate::key::RowKey;
use indexmap::IndexSet;
use sig_base::NoMemory;
use std::alloc::Global;

/// What is done for one new row.
#[derive(Clone, Copy, PartialEq, Eq)]
pub enum RowStep {
    /// It stands at its place.
    Keep,
    /// The new row at this place is put in.
    Insert(usize),
    /// The old row of this place is moved.
    Move(usize),
}

// A key behind the others, where it isn't there.
fn add<K: RowKey>(keys: &mut IndexSet<K>, key: &K) -> Result<(), NoMemory>
    ensures keys { OnOk result (keys.new.keys ≡ insert_key K.eq keys.old.keys key.now) }
    ensures distinct { OnOk result (IsDistinct K.eq keys.new.keys) }
{
    keys.insert(key.copied()?)?;
    Ok(())
}

// A table of keys, in which each of distinct ones has its place.
fn table<K: RowKey>(alloc: Global, list: &[K]) -> Result<IndexSet<K>, NoMemory>
    ensures keys { IsDistinct K.eq list.now → IfOk result (λ t. t.keys ≡ list.now) }
    ensures distinct { IfOk result (λ t. IsDistinct K.eq t.keys) }
{
    let mut keys = IndexSet::with_capacity(alloc, list.len())?;
    for key in list {
        add(&mut keys, key)?;
    }
    Ok(keys)
}

// The place of a key in a table.
fn place_of<K: RowKey>(keys: &IndexSet<K>, key: &K) -> Option<usize>
    ensures { MatchOption result (listed K.eq key.now keys.now.keys ≡ false) (IsPlaceOf key.now keys.now.keys) }
{
    let found = keys.get_index_of(key);
    found
}

// Whether a key is in a table.
fn is_there<K: RowKey>(keys: &IndexSet<K>, key: &K) -> bool
    ensures { result ≡ listed K.eq key.now keys.now.keys }
{
    keys.contains(key)
}

// Of each of these keys, whether it is in a table.
fn marks<K: RowKey>(alloc: Global, list: &[K], keys: &IndexSet<K>) -> Result<Vec<bool>, NoMemory>
    ensures { IfOk result (λ v. v.items ≡ map (λ k. listed K.eq k keys.now.keys) list.now) }
{
    let mut marks = Vec::with_capacity(alloc, list.len())?;
    for key in list {
        marks.push(is_there(keys, key))?;
    }
    Ok(marks)
}

// The first place from `at` on that waits.
#[tactic(auto, using(crate::proofs::Keys::past, crate::proofs::Keys::here, crate::proofs::Keys::first_within))]
fn next_waiting(waiting: &[bool], mut at: usize) -> usize
    requires { at ≤ first_waiting waiting.now }
    ensures { result ≡ first_waiting waiting.now }
{
    while at < waiting.len() && !waiting[at] {
        at += 1;
    }
    at
}

// The step for the new row at place `i`, whose old row waits no longer then. `head` is a place before which none waits.
fn judge<K: RowKey>(
    old: &IndexSet<K>,
    waiting: &mut [bool],
    head: &mut usize,
    i: usize,
    key: &K,
) -> RowStep
    requires distinct { IsDistinct K.eq old.now.keys }
    requires marks { length waiting.old ≡ length old.now.keys }
    requires before { head.old ≤ first_waiting waiting.old }
    ensures before { head.new ≤ first_waiting waiting.new }
    ensures step { (ks : List K) → judged K.eq old.now.keys i (left waiting.old old.now.keys) (key.now ∷ ks)
        ≡ result ∷ judged K.eq old.now.keys (i + 1) (left waiting.new old.now.keys) ks }
{
    let Some(p) = place_of(old, key) else {
        return RowStep::Insert(i);
    };
    if !waiting[p] {
        return RowStep::Insert(i);
    }
    *head = next_waiting(waiting, *head);
    waiting[p] = false;
    if p == *head {
        RowStep::Keep
    } else {
        RowStep::Move(p)
    }
}

// The same on a list of marks.
fn next_step<K: RowKey>(
    old: &IndexSet<K>,
    waiting: &mut Vec<bool>,
    head: &mut usize,
    i: usize,
    key: &K,
) -> RowStep
    requires distinct { IsDistinct K.eq old.now.keys }
    requires marks { length waiting.old.items ≡ length old.now.keys }
    requires before { head.old ≤ first_waiting waiting.old.items }
    ensures marks { length waiting.new.items ≡ length old.now.keys }
    ensures before { head.new ≤ first_waiting waiting.new.items }
    ensures step { (ks : List K) → judged K.eq old.now.keys i (left waiting.old.items old.now.keys) (key.now ∷ ks)
        ≡ result ∷ judged K.eq old.now.keys (i + 1) (left waiting.new.items old.now.keys) ks }
{
    judge(old, waiting, head, i, key)
}

// Of each old key, whether it waits for its turn: whether it is among the new ones.
fn waiting_for<K: RowKey>(
    alloc: Global,
    old: &IndexSet<K>,
    new: &[K],
) -> Result<Vec<bool>, NoMemory>
    ensures count { IfOk result (λ v. length v.items ≡ length old.now.keys) }
    ensures marks { IsDistinct K.eq new.now → IfOk result (λ v. v.items ≡ map (λ k. listed K.eq k new.now) old.now.keys) }
{
    let news = table(alloc, new)?;
    let waiting = marks(alloc, old.as_slice(), &news)?;
    Ok(waiting)
}

// The steps for the new rows, where these old keys wait.
fn steps_by<K: RowKey>(
    alloc: Global,
    old: &IndexSet<K>,
    waiting: &mut Vec<bool>,
    new: &[K],
) -> Result<Vec<RowStep>, NoMemory>
    requires distinct { IsDistinct K.eq old.now.keys }
    requires marks { length waiting.old.items ≡ length old.now.keys }
    ensures { IfOk result (λ v. v.items ≡ judged K.eq old.now.keys 0 (left waiting.old.items old.now.keys) new.now) }
{
    let mut steps = Vec::with_capacity(alloc, new.len())?;
    let mut head = 0;
    for (i, key) in new.iter().enumerate() {
        steps.push(next_step(old, waiting, &mut head, i, key))?;
    }
    Ok(steps)
}

/// The steps that lead from the old rows to the new ones, one for each new row from left to right, where the keys of each are distinct. Old
/// rows that aren't among the new ones count as taken out first. It takes time for each key once.
///
/// # Errors
///
/// `NoMemory` alone.
pub fn place<K: RowKey>(alloc: Global, old: &[K], new: &[K]) -> Result<Vec<RowStep>, NoMemory>
    ensures count { IfOk result (λ v. length v.items ≡ length new.now) }
    ensures steps { IsDistinct K.eq old.now → IsDistinct K.eq new.now → IfOk result (λ v. v.items ≡ steps_between K.eq old.now new.now) }
{
    let olds = table(alloc, old)?;
    let mut waiting = waiting_for(alloc, &olds, new)?;
    let steps = steps_by(alloc, &olds, &mut waiting, new)?;
    Ok(steps)
}

/// The steps, done from left to right on the old keys that remain, give the new keys.
pub fn steps_lead<K: RowKey>()
    ensures { (old new : List K) → IsDistinct K.eq old → IsDistinct K.eq new
        → after_steps K.eq old new 0 (steps_between K.eq old new) (kept K.eq new old) ≡ new }
{}

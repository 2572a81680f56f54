// What searches have found, by the id of the signal.
ghost use Rattle.std.specs.Prelude.{◌≡◌, ◌≢◌, ℕ, ◌<◌, ◌≤◌, ◌/◌, ◌%◌, ◌^◌, ◌==◌, ◌⊎◌, true, false, length, slice_index_or, vec_capacity, IfOk};
ghost use Rattle.sig_seats.specs.Found.{count_for, count_of, found_at, held_at, place_of};

use sig_base::{MOST_NODES, NoMemory, NodeId};
use std::alloc::Global;
use std::marker::Model;

// How many counts one word tells apart.
const WORDS: u128 = 1 << 64;

/// A note that a search found at a count of changes that a signal, or something below it, must run: the lower word of that count, of 64 bits.
#[derive(Clone, Copy)]
pub struct Found {
    id: NodeId,
    low: u64,
}

/// The count of changes at which a search last found that a signal, or something below it, must run. It says something only where it is
/// the present count: each change makes all of it old. Signals share places: a note forgets what was noted of another signal there, which
/// is only searched for anew.
#[derive(Drop)]
pub struct Finds {
    at: Vec<Found>,
    // The upper words of the counts, by place. They are 0 past the end, so there is none until the changes are more than a word counts.
    highs: Vec<u64>,
}

impl Model for Finds {
    ghost use Rattle.std.specs.Prelude.{◌≤◌, vec_capacity};
    ghost use Rattle.sig_base.specs.declared.limits.TheConstants.{MOST_NODES};
    ghost use Rattle.sig_seats.specs.Found.{Noted};

    ghost Value = { Noted };

    ghost view = { λ f. record { at = f.at.items; highs = f.highs.items } };

    ghost invariant = { λ f. (MOST_NODES ≤ vec_capacity f.at) × (MOST_NODES ≤ vec_capacity f.highs) };
}

// The place of a signal. As there is a power of two of them, it takes no division.
#[inline(always)]
fn place_of(id: NodeId) -> usize
    ensures place { result ≡ place_of id }
    ensures inside { result < MOST_NODES }
{
    (id.number() % MOST_NODES as u64) as usize
}

// The upper word of a count of changes.
#[inline(always)]
fn high_of(worn: u128) -> u64
    ensures { result ≡ worn / 2 ^ 64 }
{
    (worn / WORDS) as u64
}

// The note of a signal at a count of changes.
#[inline(always)]
fn found_of(id: NodeId, worn: u128) -> Found
    ensures { result ≡ record { id = id; low = worn % 2 ^ 64 } }
{
    Found {
        id,
        low: (worn % WORDS) as u64,
    }
}

// Whether two words are those of a count of changes.
#[tactic(auto, unfolding(crate::specs::Found::count_of))]
#[inline(always)]
fn is_count(high: u64, low: u64, worn: u128) -> bool
    ensures { result ≡ (count_of high low == worn) }
{
    high as u128 * WORDS + low as u128 == worn
}

// A note at a place that is of no signal there: its signal has another place.
#[tactic(auto, using(crate::proofs::NotedFinds::first_apart, crate::proofs::NotedFinds::later_apart))]
fn nowhere(place: usize) -> Found
    ensures { place_of result.id ≢ place }
{
    if place == 0 {
        return Found {
            id: NodeId::of(1),
            low: 0,
        };
    }
    Found {
        id: NodeId::of(0),
        low: 0,
    }
}

// Makes a place, and each one before it, where it isn't there yet.
fn lengthen(at: &mut Vec<Found>, place: usize)
    requires inside { place < MOST_NODES }
    requires room { MOST_NODES ≤ vec_capacity at.old }
    ensures held { (n high : ℕ) → held_at at.new.items (place_of n) high n ≡ held_at at.old.items (place_of n) high n }
    ensures place { place < length at.new.items }
    ensures room { vec_capacity at.old ≤ vec_capacity at.new }
{
    while at.len() <= place {
        at.push_reserved(nowhere(at.len()));
    }
}

// Notes what is found at a place that isn't there yet. It stands apart, since most notes find their place there.
#[inline(never)]
fn note_later(at: &mut Vec<Found>, place: usize, found: Found)
    requires inside { place < MOST_NODES }
    requires room { MOST_NODES ≤ vec_capacity at.old }
    ensures here { (n high : ℕ) → held_at at.new.items place high n ≡ count_for high found n }
    ensures others { (n high : ℕ) → place_of n ≢ place → held_at at.new.items (place_of n) high n ≡ held_at at.old.items (place_of n) high n }
    ensures room { vec_capacity at.old ≤ vec_capacity at.new }
{
    lengthen(at, place);
    at[place] = found;
}

// Notes the upper word of a count at a place, which may not be there yet.
#[inline(never)]
fn note_high(highs: &mut Vec<u64>, place: usize, high: u64)
    requires inside { place < MOST_NODES }
    requires room { MOST_NODES ≤ vec_capacity highs.old }
    ensures here { slice_index_or highs.new.items place 0 ≡ high }
    ensures others { (s : ℕ) → s ≢ place → slice_index_or highs.new.items s 0 ≡ slice_index_or highs.old.items s 0 }
    ensures room { vec_capacity highs.old ≤ vec_capacity highs.new }
{
    while highs.len() <= place {
        highs.push_reserved(0);
    }
    highs[place] = high;
}

// Notes the upper word of a count at a place. While all are 0 there is none to note.
#[inline(always)]
fn keep_high(highs: &mut Vec<u64>, place: usize, high: u64)
    requires inside { place < MOST_NODES }
    requires room { MOST_NODES ≤ vec_capacity highs.old }
    ensures here { slice_index_or highs.new.items place 0 ≡ high }
    ensures others { (s : ℕ) → s ≢ place → slice_index_or highs.new.items s 0 ≡ slice_index_or highs.old.items s 0 }
    ensures room { vec_capacity highs.old ≤ vec_capacity highs.new }
{
    if high > 0 || place < highs.len() {
        note_high(highs, place, high);
    }
}

impl Finds {
    /// Nothing is found. There is memory for each place.
    pub fn new(alloc: Global) -> Result<Finds, NoMemory>
        ensures { IfOk result (λ f. (n : ℕ) → found_at f n ≡ 0) }
    {
        let at = Vec::with_capacity(alloc, MOST_NODES)?;
        let highs = Vec::with_capacity(alloc, MOST_NODES)?;
        Ok(Finds { at, highs })
    }

    // The upper word of the count at a place.
    #[inline(always)]
    fn high_at(&self, place: usize) -> u64
        ensures { result ≡ slice_index_or self.now.highs place 0 }
    {
        if place < self.highs.len() {
            return self.highs[place];
        }
        0
    }

    /// Whether a search has found it of a signal at this count of changes, which isn't 0.
    #[inline(always)]
    pub fn is_found(&self, worn: u128, id: NodeId) -> bool
        ensures found { result ≡ true → found_at self.now id ≡ worn }
        ensures none { result ≡ false → 0 < worn → found_at self.now id ≢ worn }
    {
        let place = place_of(id);
        if place >= self.at.len() {
            return false;
        }
        let found = self.at[place];
        found.id == id && is_count(self.high_at(place), found.low, worn)
    }

    /// A search has found it of a signal. What was noted of one that shares its place is forgotten.
    #[inline(always)]
    pub fn note(&mut self, worn: u128, id: NodeId)
        ensures here { found_at self.new id ≡ worn }
        ensures others { (n : ℕ) → (found_at self.new n ≡ found_at self.old n) ⊎ (((n ≡ id) × (found_at self.new n ≡ worn))
            ⊎ ((place_of n ≡ place_of id) × (found_at self.new n ≡ 0))) }
    {
        let place = place_of(id);
        keep_high(&mut self.highs, place, high_of(worn));
        let found = found_of(id, worn);
        if place < self.at.len() {
            self.at[place] = found;
        } else {
            note_later(&mut self.at, place, found);
        }
    }
}

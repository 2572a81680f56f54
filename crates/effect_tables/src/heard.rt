// Effects that need no look, and the cells that wake them.
ghost use Rattle.std.specs.Prelude.{◌≡◌, ◌==◌, ◌<◌, ◌≤◌, ℕ, None, Some, true, false, nat_eq, if◌then◌else◌, map, OnOk};
ghost use Rattle.std.specs.List.{AllByRecursion};
ghost use Rattle.indexmap.specs.IndexMap.{get};
ghost use Rattle.effect_tables.specs.Consistency.{AreRising};
ghost use Rattle.effect_tables.specs.Heard.{has_place, is_marked, reads_at, IsAdded, IsHeard, IsMissed, IsWoken};
ghost use Rattle.effect_tables.specs.Placed.{effect_of};

use crate::effect::Effect;
use crate::lookup::effect_place;
use crate::quiet_places::QuietPlaces;
use indexmap::IndexMap;
use sig_base::{EffectId, NoMemory, NodeId};
use sig_untrack::Read;
use std::alloc::Global;

/// Effects that need no look, by their places, and for each cell the places of those that it wakes. A cell may wake more than need be.
pub struct Heard {
    pub quiet: QuietPlaces,
    pub readers: IndexMap<NodeId, Vec<usize>>,
}

impl Drop for Heard {
    fn drop(self) {
        let Heard {
            quiet: _,
            readers: _,
        } = self;
    }
}

// The effects at these places need a look.
fn rouse_each(quiet: &mut QuietPlaces, places: &[usize])
    ensures less { (p : ℕ) → is_marked p quiet.new ≡ true → is_marked p quiet.old ≡ true }
    ensures off { (p : ℕ) → has_place p places.now ≡ true → is_marked p quiet.new ≡ false }
{
    for place in places {
        quiet.rouse(*place);
    }
}

// Whether a place is among these.
fn has(places: &[usize], place: usize) -> bool
    ensures { result ≡ has_place place places.now }
{
    places.iter().any(|other| place == *other)
}

// Whether a cell wakes the effect at a place.
fn is_noted(readers: &IndexMap<NodeId, Vec<usize>>, id: NodeId, place: usize) -> bool
    ensures { result ≡ reads_at readers.now id place }
{
    match readers.get(&id) {
        Some(places) => has(places, place),
        None => false,
    }
}

// The places that a cell wakes are taken out.
fn taken(readers: &mut IndexMap<NodeId, Vec<usize>>, alloc: Global, id: NodeId) -> Vec<usize>
    ensures places { (p : ℕ) → has_place p result.items ≡ reads_at readers.old id p }
    ensures others { (n : ℕ) → get nat_eq readers.new n ≡ (if id == n then None else get nat_eq readers.old n) }
{
    match readers.swap_remove(&id) {
        Some(places) => places,
        None => Vec::new(alloc),
    }
}

// A cell wakes these.
fn put(
    readers: &mut IndexMap<NodeId, Vec<usize>>,
    id: NodeId,
    places: Vec<usize>,
) -> Result<(), NoMemory>
    ensures { OnOk result ((n : ℕ) → get nat_eq readers.new n ≡ (if id == n then Some places else get nat_eq readers.old n)) }
{
    readers.insert(id, places)?;
    Ok(())
}

// A cell wakes the effect at a place.
fn note(
    readers: &mut IndexMap<NodeId, Vec<usize>>,
    alloc: Global,
    id: NodeId,
    place: usize,
) -> Result<(), NoMemory>
    ensures here { OnOk result (reads_at readers.new id place ≡ true) }
    ensures more { OnOk result ((n p : ℕ) → reads_at readers.old n p ≡ true → reads_at readers.new n p ≡ true) }
{
    if is_noted(readers, id, place) {
        return Ok(());
    }
    let mut places = taken(readers, alloc, id);
    places.push(place)?;
    put(readers, id, places)?;
    Ok(())
}

// A cell for each of these reads wakes the effect at a place.
fn note_each(
    readers: &mut IndexMap<NodeId, Vec<usize>>,
    alloc: Global,
    place: usize,
    reads: &[Read],
) -> Result<(), NoMemory>
    ensures each { OnOk result (AllByRecursion (λ s. reads_at readers.new s.name place ≡ true) reads.now) }
    ensures more { OnOk result ((n p : ℕ) → reads_at readers.old n p ≡ true → reads_at readers.new n p ≡ true) }
{
    for read in reads {
        note(readers, alloc, read.id, place)?;
    }
    Ok(())
}

impl Heard {
    /// Of no effect anything is known.
    pub fn new(alloc: Global) -> Heard
        ensures { (p : ℕ) → is_marked p result.quiet ≡ false }
    {
        Heard {
            quiet: QuietPlaces::new(alloc),
            readers: IndexMap::new(alloc),
        }
    }

    /// Nothing is known any more, as after an end. It takes no memory.
    pub fn forget(&mut self)
        ensures { (p : ℕ) → is_marked p self.new.quiet ≡ false }
    {
        self.quiet.clear();
        self.readers.clear();
    }

    /// The next place from one on whose effect may need a look.
    pub fn next_loud(&self, from: usize) -> usize
        ensures on { from ≤ result }
        ensures passed { (p : ℕ) → from ≤ p → p < result → is_marked p self.now.quiet ≡ true }
    {
        self.quiet.next_loud(from)
    }

    /// A cell has another value: the effects that it wakes need a look. It takes no memory.
    pub fn wake(&mut self, id: NodeId)
        ensures { IsWoken id self.old self.new }
    {
        let Some(places) = self.readers.get(&id) else {
            return;
        };
        rouse_each(&mut self.quiet, places);
    }

    /// The effect of a number runs again, and needs a look. It takes no memory.
    pub fn miss(&mut self, effects: &[Effect], id: EffectId)
        requires { AreRising 0 effects.now }
        ensures { IsMissed id (map effect_of effects.now) self.old self.new }
    {
        let Some(place) = effect_place(effects, id) else {
            return;
        };
        self.quiet.rouse(place);
    }

    /// An effect is made at this place, behind all others: it needs a look. It takes no memory.
    pub fn add(&mut self, place: usize)
        ensures { IsAdded place self.old self.new }
    {
        self.quiet.rouse(place);
    }

    /// The effect at a place, which read these, needs no look until one of them wakes it.
    ///
    /// # Errors
    ///
    /// After `NoMemory` this may only be dropped.
    pub fn hear(&mut self, alloc: Global, place: usize, reads: &[Read]) -> Result<(), NoMemory>
        ensures { OnOk result (IsHeard place reads.now self.old self.new) }
    {
        note_each(&mut self.readers, alloc, place, reads)?;
        self.quiet.mark(place)?;
        Ok(())
    }
}

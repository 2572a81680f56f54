// Values by number.
ghost use Rattle.std.specs.Prelude.{◌≡◌, ◌+◌, ◌<◌, ◌≤◌, ◌++◌, ◌∷◌, [], length, false, IsSome, IfSome, IfNone, IfOk, Some, None, OnOk, if◌then◌else◌, is_some, nat_eq, option_copied, slice_set};
ghost use Rattle.std.specs.Borrow.{sem};
ghost use Rattle.indexmap.specs.IndexMap.{get, spare, Updates};
ghost use Rattle.slab.specs.Slab.{get as held_at};
ghost use Rattle.sig_store.specs.Stored.{entry};
ghost use Rattle.sig_store.specs.Places.{holds_number, number_there, place_by, value_there, AreOwn, IsLeft, IsNoted, IsValueOf};

use indexmap::IndexMap;
use sig_base::NoMemory;
use slab::Slab;
use std::alloc::Global;
use std::marker::Model;
use std::mem;

// How many hints there may be: the place that was given last to a number with a remainder by this is told without the index.
const HINTS: usize = 32_768;

// How many of them are made at once, since few numbers ask for few.
const HINTS_AT_ONCE: usize = 1024;

// A value and its number.
#[derive(Drop)]
struct Held<T> {
    number: u64,
    value: T,
}

/// Values, each under the count of those that were put in before it. A number never comes again; the place of a value that was taken out
/// does, so that only the values that stand take memory.
#[derive(Drop)]
pub struct Store<T> {
    // the place of each number that stands elsewhere than at itself, as none does before a value is taken out
    places: IndexMap<u64, usize>,
    // the place that was given last to such a number with each remainder, be its value there still or not
    hints: Vec<usize>,
    held: Slab<Held<T>>,
    made: u64,
}

impl<T> Model for Store<T> {
    ghost use Rattle.std.specs.Prelude.{nat_eq};
    ghost use Rattle.sig_store.specs.Stored.{Stored, stored_code};

    ghost Value = { Stored T };

    ghost coded = { stored_code T.code };

    ghost use Rattle.indexmap.specs.IndexMap.{get};
    ghost use Rattle.slab.specs.Slab.{get as held_at};
    ghost use Rattle.sig_store.specs.Places.{entries_by, place_by, room_of, IsPlaced};

    ghost view = { λ s. record {
      entries = entries_by (place_by (get nat_eq s.places) (held_at s.held)) (held_at s.held) s.made;
      room = room_of s.places s.held s.made;
    } };

    ghost invariant = { λ s. IsPlaced (get nat_eq s.places) (held_at s.held) s.made };
}

// The hint that is a number's.
fn hint_of(number: u64) -> usize
    ensures { result < HINTS }
{
    (number % HINTS as u64) as usize
}

// Makes the hint of a number, and those before it, where there is none yet.
fn fill_hints(hints: &mut Vec<usize>, number: u64) -> Result<(), NoMemory> {
    let hint = hint_of(number);
    if hint >= hints.len() {
        hints.resize((hint / HINTS_AT_ONCE + 1) * HINTS_AT_ONCE, 0)?;
    }
    Ok(())
}

// Makes a place the hint of a number, if it has one.
fn note_hint(hints: &mut [usize], number: u64, place: usize) {
    if let Some(hint) = hints.get_mut(hint_of(number)) {
        *hint = place;
    }
}

// The value that a place holds, where it is that of a number.
#[inline(always)]
fn checked_value<T>(held: &Slab<Held<T>>, place: usize, number: u64) -> Option<&T>
    ensures number { IfSome result (λ v. number_there (held_at held.now) place ≡ Some number) }
    ensures value { IfSome result (λ v. value_there (held_at held.now) (Some place) ≡ Some v.now) }
    ensures none { IfNone result (holds_number (held_at held.now place) number ≡ false) }
{
    let one = held.get(place)?;
    if one.number == number {
        Some(&one.value)
    } else {
        None
    }
}

// A place, where it holds the value of a number.
#[inline(always)]
fn checked_place<T>(held: &Slab<Held<T>>, place: usize, number: u64) -> Option<usize>
    ensures some { IfSome result (λ p. number_there (held_at held.now) p ≡ Some number) }
    ensures place { IfSome result (λ p. p ≡ place) }
    ensures none { IfNone result (holds_number (held_at held.now place) number ≡ false) }
{
    let _value = checked_value(held, place, number)?;
    Some(place)
}

// The place that is a number itself.
#[inline(always)]
fn home_of(number: u64) -> usize
    ensures { result ≡ number }
{
    number as usize
}

// The value of a number that is its own place, as each is where nothing was taken out before.
#[inline(always)]
fn first_value<T>(held: &Slab<Held<T>>, number: u64) -> Option<&T>
    ensures some { IfSome result (λ v. IsValueOf (held_at held.now) number v.now) }
    ensures none { IfNone result (holds_number (held_at held.now number) number ≡ false) }
{
    match checked_value(held, home_of(number), number) {
        Some(value) => Some(value),
        None => {
            let _most = held.capacity();
            None
        }
    }
}

// The place of such a number.
#[inline(always)]
fn home_place<T>(held: &Slab<Held<T>>, number: u64) -> Option<usize>
    ensures some { IfSome result (λ p. number_there (held_at held.now) p ≡ Some number) }
    ensures none { IfNone result (holds_number (held_at held.now number) number ≡ false) }
{
    match checked_place(held, home_of(number), number) {
        Some(place) => Some(place),
        None => {
            let _most = held.capacity();
            None
        }
    }
}

// The same, which is the number itself.
fn first_place<T>(held: &Slab<Held<T>>, number: u64) -> Option<usize>
    ensures some { IfSome result (λ p. number_there (held_at held.now) p ≡ Some number) }
    ensures place { IfSome result (λ p. p ≡ number) }
    ensures none { IfNone result (holds_number (held_at held.now number) number ≡ false) }
{
    checked_place(held, home_of(number), number)
}

// The value of a number, where its hint leads to it.
fn hinted_value<'a, T>(hints: &[usize], held: &'a Slab<Held<T>>, number: u64) -> Option<&'a T>
    ensures { IfSome result (λ v. IsValueOf (held_at held.now) number v.now) }
{
    let place = *hints.get(hint_of(number))?;
    checked_value(held, place, number)
}

// The place that is a number's hint, where it holds the value of that number.
fn hinted_place<T>(hints: &[usize], held: &Slab<Held<T>>, number: u64) -> Option<usize>
    ensures { IfSome result (λ p. number_there (held_at held.now) p ≡ Some number) }
{
    let place = *hints.get(hint_of(number))?;
    checked_place(held, place, number)
}

// Where the value of a number stands, by the index. It is seldom asked, so what looks elsewhere first stays short.
#[cold]
#[inline(never)]
fn indexed_place(places: &IndexMap<u64, usize>, number: u64) -> Option<usize>
    ensures { result ≡ get nat_eq places.now number }
{
    places.get(&number).copied()
}

// The value that a place holds.
fn value_in<T>(held: &Slab<Held<T>>, place: usize) -> Option<&T>
    ensures { option_copied result ≡ value_there (held_at held.now) (Some place) }
{
    match held.get(place) {
        Some(one) => Some(&one.value),
        None => None,
    }
}

// The value of a number, by the index.
fn indexed_value<'a, T>(
    places: &IndexMap<u64, usize>,
    held: &'a Slab<Held<T>>,
    number: u64,
) -> Option<&'a T>
    ensures { option_copied result ≡ value_there (held_at held.now) (get nat_eq places.now number) }
{
    match indexed_place(places, number) {
        Some(place) => value_in(held, place),
        None => None,
    }
}

// The value of a number that isn't its own place. It stands apart, so that the look before it is short enough to stand where it is asked.
#[inline(never)]
fn later_value<'a, T>(
    places: &IndexMap<u64, usize>,
    hints: &[usize],
    held: &'a Slab<Held<T>>,
    number: u64,
) -> Option<&'a T>
    requires own { AreOwn (place_by (get nat_eq places.now) (held_at held.now)) (held_at held.now) }
    requires away { holds_number (held_at held.now number) number ≡ false }
    ensures { option_copied result ≡ value_there (held_at held.now) (place_by (get nat_eq places.now) (held_at held.now) number) }
{
    match hinted_value(hints, held, number) {
        Some(value) => Some(value),
        None => indexed_value(places, held, number),
    }
}

// The place of such a number, apart for the same reason.
#[inline(never)]
fn later_place<T>(
    places: &IndexMap<u64, usize>,
    hints: &[usize],
    held: &Slab<Held<T>>,
    number: u64,
) -> Option<usize>
    requires own { AreOwn (place_by (get nat_eq places.now) (held_at held.now)) (held_at held.now) }
    requires away { holds_number (held_at held.now number) number ≡ false }
    ensures { result ≡ place_by (get nat_eq places.now) (held_at held.now) number }
{
    match hinted_place(hints, held, number) {
        Some(place) => Some(place),
        None => indexed_place(places, number),
    }
}

// Where the value of a number stands.
#[inline(always)]
fn place_of<T>(
    places: &IndexMap<u64, usize>,
    hints: &[usize],
    held: &Slab<Held<T>>,
    number: u64,
) -> Option<usize>
    requires { AreOwn (place_by (get nat_eq places.now) (held_at held.now)) (held_at held.now) }
    ensures { result ≡ place_by (get nat_eq places.now) (held_at held.now) number }
{
    match home_place(held, number) {
        Some(place) => Some(place),
        None => later_place(places, hints, held, number),
    }
}

// Where the value of a number that stands does.
#[inline(always)]
fn standing_place<T>(
    places: &IndexMap<u64, usize>,
    hints: &[usize],
    held: &Slab<Held<T>>,
    number: u64,
) -> usize
    requires own { AreOwn (place_by (get nat_eq places.now) (held_at held.now)) (held_at held.now) }
    requires stands { IsSome (place_by (get nat_eq places.now) (held_at held.now) number) }
    ensures { place_by (get nat_eq places.now) (held_at held.now) number ≡ Some result }
{
    match place_of(places, hints, held, number) {
        Some(place) => place,
        None => unreachable!(),
    }
}

// Notes the place of a number, in room that is there.
fn note_place(places: &mut IndexMap<u64, usize>, number: u64, place: usize)
    requires { 0 < spare places.old }
    ensures noted { Updates nat_eq places.old places.new number (Some place) }
    ensures left { spare places.old ≤ spare places.new + 1 }
{
    match places.insert(number, place) {
        Ok(_) => {}
        Err(_) => unreachable!(),
    }
}

// Notes the place of a number that is put in, unless it is the number itself.
#[inline(always)]
fn note(places: &mut IndexMap<u64, usize>, hints: &mut [usize], number: u64, place: usize)
    requires { 0 < spare places.old }
    ensures noted { IsNoted (get nat_eq places.old) (get nat_eq places.new) number place }
    ensures left { spare places.old ≤ spare places.new + 1 }
{
    if place as u64 != number {
        note_place(places, number, place);
        note_hint(hints, number, place);
    }
}

// Forgets the place of a number, and tells it.
fn forget_place(places: &mut IndexMap<u64, usize>, number: u64) -> usize
    requires { IsSome (get nat_eq places.old number) }
    ensures place { get nat_eq places.old number ≡ Some result }
    ensures forgotten { Updates nat_eq places.old places.new number None }
    ensures left { spare places.old ≤ spare places.new }
{
    match places.swap_remove(&number) {
        Some(place) => place,
        None => unreachable!(),
    }
}

// Forgets where the value of a number that stands does, and tells it.
#[inline(always)]
fn leave_place<T>(places: &mut IndexMap<u64, usize>, held: &Slab<Held<T>>, number: u64) -> usize
    requires { IsSome (place_by (get nat_eq places.old) (held_at held.now) number) }
    ensures place { place_by (get nat_eq places.old) (held_at held.now) number ≡ Some result }
    ensures left { IsLeft (get nat_eq places.old) (get nat_eq places.new) number result }
    ensures room { spare places.old ≤ spare places.new }
{
    match first_place(held, number) {
        Some(place) => place,
        None => forget_place(places, number),
    }
}

impl<T> Store<T> {
    ghost use Rattle.sig_store.specs.Lends.{lends_value};

    /// Nothing stands, and no number was given.
    pub fn new(alloc: Global) -> Store<T>
        ensures { result.entries ≡ [] }
    {
        Store {
            places: IndexMap::new(alloc),
            hints: Vec::new(alloc),
            held: Slab::new(alloc),
            made: 0,
        }
    }

    /// The same, with memory for so many values. What their numbers take besides is made by `reserve`.
    pub fn with_capacity(alloc: Global, count: usize) -> Result<Store<T>, NoMemory>
        ensures { IfOk result (λ s. s.entries ≡ []) }
    {
        let held = Slab::with_capacity(alloc, count)?;
        Ok(Store {
            places: IndexMap::new(alloc),
            hints: Vec::new(alloc),
            held,
            made: 0,
        })
    }

    // Makes the hint of the next number, where its value doesn't come to the place that is the number.
    fn ready_hints(&mut self) -> Result<(), NoMemory>
        ensures { self.new ≡ self.old }
    {
        if self.held.vacant_key() as u64 != self.made {
            fill_hints(&mut self.hints, self.made)?;
        }
        Ok(())
    }

    /// Makes room for so many values more, which `push` then takes without memory. There is none where so many numbers aren't left.
    pub fn reserve(&mut self, more: usize) -> Result<(), NoMemory>
        ensures room { OnOk result (more ≤ self.new.room) }
        ensures entries { self.new.entries ≡ self.old.entries }
    {
        if u64::MAX - self.made < more as u64 {
            return Err(NoMemory);
        }
        self.places.reserve(more)?;
        self.held.reserve(more)?;
        self.ready_hints()?;
        Ok(())
    }

    /// How many numbers were given.
    pub fn made(&self) -> u64
        ensures { result ≡ length self.now.entries }
    {
        self.made
    }

    /// The value of a number, none where it was taken out or wasn't given.
    #[inline(always)]
    pub fn get(&self, number: u64) -> Option<&T>
        ensures { option_copied result ≡ entry self.now.entries number }
    {
        match first_value(&self.held, number) {
            Some(value) => Some(value),
            None => later_value(&self.places, &self.hints, &self.held, number),
        }
    }

    /// The value of a number that stands, for writing.
    #[inline(always)]
    pub fn value_mut(&mut self, number: u64) -> &mut T
        requires { IsSome (entry self.old.entries number) }
        ensures* writes_back { sem 𝓛 (lends_value T.row self.entry number result) }
        ensures value { entry self.old.entries number ≡ Some result.now }
    {
        let place = standing_place(&self.places, &self.hints, &self.held, number);
        let held = &mut self.held[place];
        &mut held.value
    }

    /// Puts a value in, in room that is there, and gives its number.
    pub fn push(&mut self, value: T) -> u64
        requires { 0 < self.old.room }
        ensures number { result ≡ length self.old.entries }
        ensures entries { self.new.entries ≡ self.old.entries ++ Some value ∷ [] }
        ensures left { self.old.room ≤ self.new.room + 1 }
    {
        let number = self.made;
        let place = self.held.insert_reserved(Held { number, value });
        note(&mut self.places, &mut self.hints, number, place);
        self.made += 1;
        number
    }

    /// Takes the value of a number out.
    pub fn remove(&mut self, number: u64) -> T
        requires { IsSome (entry self.old.entries number) }
        ensures value { entry self.old.entries number ≡ Some result }
        ensures entries { self.new.entries ≡ slice_set self.old.entries number None }
        ensures left { self.old.room ≤ self.new.room }
    {
        let place = leave_place(&mut self.places, &self.held, number);
        let Held { number: _, value } = self.held.remove(place);
        value
    }
}

impl<T: Drop> Store<T> {
    /// Puts another value under a number where one stands, and gives that one back.
    #[inline(always)]
    pub fn replace(&mut self, number: u64, value: T) -> Option<T>
        ensures before { result ≡ entry self.old.entries number }
        ensures entries { self.new.entries ≡
            (if is_some (entry self.old.entries number) then slice_set self.old.entries number (Some value) else self.old.entries) }
        ensures left { self.new.room ≡ self.old.room }
    {
        match place_of(&self.places, &self.hints, &self.held, number) {
            Some(place) => Some(mem::replace(&mut self.held[place].value, value)),
            None => None,
        }
    }
}

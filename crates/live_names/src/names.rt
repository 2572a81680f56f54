// The names that were made.
ghost use Rattle.std.specs.Prelude.{◌≡◌, ◌<◌, ◌++◌, ◌∷◌, [], None, Some, IfSome, OnOk};
ghost use Rattle.std.specs.Option.{option_map_or};
ghost use Rattle.live_model.specs.Names.{meaning_of, number_of};

use indexmap::IndexMap;
use live_model::{Kind, Meaning};
use sig_base::{Name, NoMemory};
use std::alloc::Global;
use std::array;
use std::cell::Cell;
use std::marker::Model;

// So many places of names that were found are kept.
const KEPT: usize = 16;

/// The names that were made and what they stand for, in order of making, and the places of some that were found last: a command looks its name up to
/// be judged and again to be done, and scripts say few names again and again, which aren't searched for each time. Neither are names that are said in
/// order of making, as the place behind the one that was found last is kept too.
pub struct Names {
    meanings: IndexMap<Name, Meaning>,
    found: [Cell<usize>; KEPT],
    next: Cell<usize>,
}

impl Drop for Names {
    fn drop(self) {
        let Names {
            meanings: _,
            found: _,
            next: _,
        } = self;
    }
}

impl Model for Names {
    ghost use Rattle.live_model.specs.Names as plain;

    ghost Value = { plain.Names };

    ghost view = { λ n. n.meanings.entries };
}

/// The number of what a name stands for, 0 where it stands for nothing.
pub fn number_meant(meaning: Option<Meaning>) -> u64
    ensures { result ≡ option_map_or (λ m. m.number) meaning 0 }
{
    match meaning {
        Some(meaning) => meaning.number,
        None => 0,
    }
}

// Where the place of a name is kept: it is shared by those that end alike.
#[inline(always)]
fn kept_for(name: &Name) -> usize
    ensures { result < KEPT }
{
    match name.as_str().as_bytes().last() {
        Some(last) => *last as usize % KEPT,
        None => 0,
    }
}

impl Names {
    /// No names.
    pub fn new(alloc: Global) -> Names
        ensures { result ≡ [] }
    {
        Names {
            meanings: IndexMap::new(alloc),
            found: array::from_fn(|_| Cell::new(0)),
            next: Cell::new(0),
        }
    }

    // What a name stands for, if it was made at a place.
    fn meant_at(&self, place: usize, name: &Name) -> Option<Meaning>
        ensures { IfSome result (λ m. meaning_of self.now name.now ≡ Some m) }
    {
        let (known, meaning) = self.meanings.get_index(place)?;
        if known == name {
            return Some(*meaning);
        }
        None
    }

    // What a name stands for, if it is the one that was found last of those that end as it does.
    fn meant_last(&self, name: &Name) -> Option<Meaning>
        ensures { IfSome result (λ m. meaning_of self.now name.now ≡ Some m) }
    {
        self.meant_at(self.found[kept_for(name)].get(), name)
    }

    // What a name stands for, if it was made next after the one that was found last.
    fn meant_next(&self, name: &Name) -> Option<Meaning>
        ensures { IfSome result (λ m. meaning_of self.now name.now ≡ Some m) }
    {
        let place = self.next.get();
        let meaning = self.meant_at(place, name)?;
        self.next.set(place.wrapping_add(1));
        Some(meaning)
    }

    // What a name stands for, if it was made. It is looked for, and its place is kept.
    #[inline(never)]
    fn sought(&self, name: &Name) -> Option<Meaning>
        ensures { result ≡ meaning_of self.now name.now }
    {
        let (place, _, meaning) = self.meanings.get_full(name)?;
        self.found[kept_for(name)].set(place);
        self.next.set(place.wrapping_add(1));
        Some(*meaning)
    }

    /// What a name stands for, if it was made.
    #[inline(always)]
    pub fn meaning_of(&self, name: &Name) -> Option<Meaning>
        ensures { result ≡ meaning_of self.now name.now }
    {
        if let Some(meaning) = self.meant_last(name) {
            return Some(meaning);
        }
        if let Some(meaning) = self.meant_next(name) {
            return Some(meaning);
        }
        self.sought(name)
    }

    /// The number of what a name stands for, 0 for a name that wasn't made.
    pub fn number_of(&self, name: &Name) -> u64
        ensures { result ≡ number_of self.now name.now }
    {
        number_meant(self.meaning_of(name))
    }

    /// Makes a new name, last, for that of this number among those of its kind.
    pub fn make(&mut self, name: Name, kind: Kind, number: u64) -> Result<(), NoMemory>
        requires { meaning_of self.old name ≡ None }
        ensures { OnOk result (self.new ≡ self.old ++ (name, record { kind = kind; number = number }) ∷ []) }
    {
        self.meanings.insert(name, Meaning { kind, number })?;
        Ok(())
    }
}

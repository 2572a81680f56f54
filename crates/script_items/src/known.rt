// Names that were read lately.
ghost use Rattle.std.specs.Prelude.{◌≡◌, ◌++◌, None, Some, IfOk, IfSome, OnOk, replicate};
ghost use Rattle.line_forms.specs.Reader.{name_of};
ghost use Rattle.script_items.specs.Known.{KnowsNone};
ghost use Rattle.sig_words.specs.Lexemes.{word};

use line_forms::{Unread, as_name};
use sig_base::{Name, NoMemory};
use std::alloc::Global;

/// So many names may be known at first, and at most.
const FEWEST: usize = 64;

const MOST: usize = 16_384;

/// What a place is multiplied by for each further byte. It is little more than ten, so that names which end in numbers of up to four digits have places
/// of their own.
const SPREAD: usize = 11;

/// Names that were read lately, each at the place that its bytes give it, where the next one with that place takes it. One that comes again is
/// neither judged nor put into memory again: it shares the bytes of the one that is known. There are twice as many places after an eighth as
/// many names weren't known as there are places.
#[derive(Drop)]
pub struct KnownNames {
    names: Vec<Option<Name>>,
    missed: usize,
}

// The place of a text among so many, which are a power of two.
fn place_of(text: &[u8], count: usize) -> usize {
    let mut place: usize = 0;
    for byte in text {
        place = place.wrapping_mul(SPREAD).wrapping_add(*byte as usize);
    }
    place & count.wrapping_sub(1)
}

// The name at a place, where a text is this name.
fn known_at<'a>(names: &'a [Option<Name>], place: usize, text: &[u8]) -> Option<&'a Name>
    ensures { IfSome result (λ n. Some n.now ≡ name_of (word text.now)) }
{
    let name = names.get(place)?.as_ref()?;
    let _count = name.len();
    if name.as_str().as_bytes() == text {
        Some(name)
    } else {
        None
    }
}

// Keeps a name at a place.
fn keep(names: &mut [Option<Name>], place: usize, name: &Name) -> Result<(), NoMemory> {
    let Some(known) = names.get_mut(place) else {
        return Ok(());
    };
    *known = Some(name.copy()?);
    Ok(())
}

// So many more places, at which nothing is known.
fn widen(names: &mut Vec<Option<Name>>, count: usize) -> Result<(), NoMemory>
    ensures { OnOk result (names.new.items ≡ names.old.items ++ replicate count None) }
{
    for _ in 0..count {
        names.push(None)?;
    }
    Ok(())
}

impl KnownNames {
    /// A table in which no name is known.
    ///
    /// # Errors
    ///
    /// `NoMemory` where it finds no room.
    pub fn new(alloc: Global) -> Result<KnownNames, NoMemory>
        ensures { IfOk result KnowsNone }
    {
        let mut names = Vec::new(alloc);
        widen(&mut names, FEWEST)?;
        Ok(KnownNames { names, missed: 0 })
    }

    // Notes that a name wasn't known.
    fn miss(&mut self) -> Result<(), NoMemory> {
        let count = self.names.len();
        if self.missed < count / 8 {
            self.missed += 1;
            return Ok(());
        }
        if count < MOST {
            widen(&mut self.names, count)?;
        }
        self.missed = 0;
        Ok(())
    }

    /// The name that a text is, where it is known.
    pub(crate) fn known(&self, text: &[u8]) -> Result<Option<Name>, NoMemory>
        ensures { IfOk result (λ found. IfSome found (λ n. Some n ≡ name_of (word text.now))) }
    {
        let place = place_of(text, self.names.len());
        let Some(name) = known_at(&self.names, place, text) else {
            return Ok(None);
        };
        Ok(Some(name.copy()?))
    }

    /// The name that a text is, which is known from then on.
    pub(crate) fn name(&mut self, alloc: Global, text: &[u8]) -> Result<Name, Unread>
        ensures { IfOk result (λ n. Some n ≡ name_of (word text.now)) }
    {
        let place = place_of(text, self.names.len());
        if let Some(name) = known_at(&self.names, place, text) {
            let name = name.copy()?;
            return Ok(name);
        }
        let name = as_name(alloc, text)?;
        keep(&mut self.names, place, &name)?;
        self.miss()?;
        Ok(name)
    }
}

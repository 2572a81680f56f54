// Which places are marked, one by one and in blocks.
ghost use Rattle.std.specs.Prelude.{◌≡◌, ◌⊎◌, ◌≤◌, ◌<◌, ℕ, false, true, OnOk};
ghost use Rattle.std.specs.Prelude.{◌+◌, IsTrue, length};
ghost use Rattle.effect_tables.specs.declared.quiet_places.TheConstants.{BLOCK};
ghost use Rattle.effect_tables.specs.Heard.{is_marked, is_set, AreSet};

use sig_base::NoMemory;
use std::alloc::Global;

/// How many places a block has.
pub const BLOCK: usize = 32;

/// Places that are marked: each by itself, or all of its block at once, which are passed by one look. A block is marked once each of its places
/// is, and isn't any more once one of them isn't.
pub struct QuietPlaces {
    pub full: Vec<bool>,
    pub ones: Vec<bool>,
}

impl Drop for QuietPlaces {
    fn drop(self) {
        let QuietPlaces { full: _, ones: _ } = self;
    }
}

// A mark is taken.
fn unset(marks: &mut Vec<bool>, place: usize)
    ensures less { (p : ℕ) → is_set p marks.new.items ≡ true → is_set p marks.old.items ≡ true }
    ensures off { is_set place marks.new.items ≡ false }
{
    if place < marks.len() {
        marks[place] = false;
    }
}

// There are so many marks at least, and none more is set.
fn fill(marks: &mut Vec<bool>, count: usize) -> Result<(), NoMemory>
    ensures { OnOk result ((p : ℕ) → is_set p marks.new.items ≡ true → is_set p marks.old.items ≡ true) }
{
    for _ in marks.len()..count {
        marks.push(false)?;
    }
    Ok(())
}

// A mark is set.
fn set(marks: &mut Vec<bool>, place: usize) -> Result<(), NoMemory>
    ensures { OnOk result ((p : ℕ) → is_set p marks.new.items ≡ true → (is_set p marks.old.items ≡ true) ⊎ (p ≡ place)) }
{
    fill(marks, place.saturating_add(1))?;
    if place < marks.len() {
        marks[place] = true;
        return Ok(());
    }
    Ok(())
}

// Whether two marks are set, from a place on.
fn are_two(marks: &[bool], place: usize) -> bool
    requires { place + 2 ≤ length marks.now }
    ensures { IsTrue result → AreSet place 2 marks.now }
{
    let one = marks[place];
    let other = marks[place + 1];
    one & other
}

// Whether four are.
fn are_four(marks: &[bool], place: usize) -> bool
    requires { place + 4 ≤ length marks.now }
    ensures { IsTrue result → AreSet place 4 marks.now }
{
    let front = are_two(marks, place);
    let rest = are_two(marks, place + 2);
    front & rest
}

// Whether eight are. No test stands between them.
fn are_eight(marks: &[bool], place: usize) -> bool
    requires { place + 8 ≤ length marks.now }
    ensures { IsTrue result → AreSet place 8 marks.now }
{
    let front = are_four(marks, place);
    let rest = are_four(marks, place + 4);
    front & rest
}

// A place behind this one and marks that are set, eight at a time.
fn past_eights(marks: &[bool], from: usize) -> usize
    ensures on { from ≤ result }
    ensures passed { (p : ℕ) → from ≤ p → p < result → is_set p marks.now ≡ true }
{
    let mut place = from;
    'passing: while marks.len().saturating_sub(place) >= 8 {
        if !are_eight(marks, place) {
            return place;
        }
        place += 8;
    }
    place
}

// The first place from this one on whose mark isn't set, one at a time.
fn past_ones(marks: &[bool], from: usize) -> usize
    ensures on { from ≤ result }
    ensures passed { (p : ℕ) → from ≤ p → p < result → is_set p marks.now ≡ true }
{
    let mut place = from;
    while place < marks.len() && marks[place] {
        place += 1;
    }
    place
}

// The first place from this one on whose mark isn't set.
fn first_unset(marks: &[bool], from: usize) -> usize
    ensures on { from ≤ result }
    ensures passed { (p : ℕ) → from ≤ p → p < result → is_set p marks.now ≡ true }
{
    let near = past_eights(marks, from);
    past_ones(marks, near)
}

// It, or the end of so many marks.
fn first_unset_in(marks: &[bool], from: usize, end: usize) -> usize
    ensures on { from ≤ result }
    ensures passed { (p : ℕ) → from ≤ p → p < result → is_set p marks.now ≡ true }
{
    first_unset(&marks[..end.min(marks.len())], from)
}

// Whether each place of the block that begins at one is set.
fn is_filled(marks: &[bool], start: usize) -> bool
    ensures { IsTrue result → AreSet start BLOCK marks.now }
{
    let next = first_unset_in(marks, start, start.saturating_add(BLOCK));
    next - start >= BLOCK
}

impl QuietPlaces {
    /// None is marked.
    pub fn new(alloc: Global) -> QuietPlaces
        ensures { (p : ℕ) → is_marked p result ≡ false }
    {
        QuietPlaces {
            full: Vec::new(alloc),
            ones: Vec::new(alloc),
        }
    }

    /// None is marked any more. It takes no memory.
    pub fn clear(&mut self)
        ensures { (p : ℕ) → is_marked p self.new ≡ false }
    {
        self.full.clear();
        self.ones.clear();
    }

    /// A place isn't marked any more, nor is its block. It takes no memory.
    pub fn rouse(&mut self, place: usize)
        ensures less { (p : ℕ) → is_marked p self.new ≡ true → is_marked p self.old ≡ true }
        ensures off { is_marked place self.new ≡ false }
    {
        unset(&mut self.full, place / BLOCK);
        unset(&mut self.ones, place);
    }

    /// A place is marked, and its block with it where each of its places is.
    ///
    /// # Errors
    ///
    /// After `NoMemory` this may only be dropped.
    pub fn mark(&mut self, place: usize) -> Result<(), NoMemory>
        ensures { OnOk result ((p : ℕ) → is_marked p self.new ≡ true → (is_marked p self.old ≡ true) ⊎ (p ≡ place)) }
    {
        set(&mut self.ones, place)?;
        let block = place / BLOCK;
        if is_filled(&self.ones, block * BLOCK) {
            set(&mut self.full, block)?;
            return Ok(());
        }
        Ok(())
    }

    /// The first place from one on that isn't marked: in its block, or else in the first block behind it that isn't marked as a whole.
    pub fn next_loud(&self, from: usize) -> usize
        ensures on { from ≤ result }
        ensures passed { (p : ℕ) → from ≤ p → p < result → is_marked p self.now ≡ true }
    {
        let next = (from / BLOCK).saturating_add(1);
        let stop = next.saturating_mul(BLOCK);
        let near = first_unset_in(&self.ones, from, stop);
        if near < stop {
            return near;
        }
        let block = first_unset(&self.full, next);
        first_unset(&self.ones, near.max(block.saturating_mul(BLOCK)))
    }
}

// What is heard of names while a page is brought up to date, beside what was heard of them before.
ghost use Rattle.std.specs.Prelude.{◌≡◌, ◌≤◌, ◌++◌, ◌∷◌, [], false, length, slice_get, take, true, None, Some, IfNone, IfOk, IfSome, OnOk};
ghost use Rattle.std.specs.Map.{keys_of};
ghost use Rattle.signal_laws.specs.ReadLaws.{with_name};
ghost use Rattle.tpl_hearing.specs.Heard.{heard_of, scene, CanSettle, Hears, Outcomes as Heard};
ghost use Rattle.tpl_hearing.specs.HeardAgain.{AllCompared, AreCompared, AreSame, IsAsBefore, IsCompared, StandsNext};

use crate::outcomes::{Outcomes, pair_at, settle_compared};
use crate::still::stands_as;
use sig_base::{NoMemory, NodeId, Outcome};
use sig_computed::RunNote;
use sig_graph::Graph;
use sig_host::{Lent, Shelf};
use std::alloc::Global;
use std::marker::Model;

// Puts a name behind others, and whether it is the same.
#[inline(always)]
fn put_note(noted: &mut Vec<(NodeId, bool)>, id: NodeId, same: bool) -> Result<(), NoMemory>
    ensures { OnOk result (noted.new.items ≡ noted.old.items ++ (id, same) ∷ []) }
{
    if noted.len() < noted.capacity() {
        noted.push_reserved((id, same));
        return Ok(());
    }
    noted.push((id, same))?;
    Ok(())
}

// It is noted that this is known of a name.
#[inline(always)]
fn note(noted: &mut Vec<(NodeId, bool)>, id: NodeId, same: bool) -> Result<(), NoMemory>
    ensures { (before heard : Heard) → AllCompared before heard noted.old.items → IsCompared before heard id same → OnOk result (AllCompared before heard noted.new.items) }
{
    put_note(noted, id, same)?;
    Ok(())
}

// It is noted up to a place that this is known of a name: it holds wherever it stands.
#[inline(never)]
fn fill(
    noted: &mut Vec<(NodeId, bool)>,
    count: usize,
    id: NodeId,
    same: bool,
) -> Result<(), NoMemory>
    ensures { (before heard : Heard) → AllCompared before heard noted.old.items → IsCompared before heard id same → OnOk result (AllCompared before heard noted.new.items) }
{
    for _ in noted.len()..count {
        note(noted, id, same)?;
    }
    Ok(())
}

/// Of which names it is known whether they have the outcomes of before: of the name that was heard at a place it is noted there, if anywhere.
pub struct Comparisons {
    noted: Vec<(NodeId, bool)>,
}

impl Drop for Comparisons {
    fn drop(self) {
        let Comparisons { noted: _ } = self;
    }
}

impl Model for Comparisons {
    ghost use Rattle.tpl_hearing.specs.Heard as names;

    ghost Value = { names.Comparisons };

    ghost view = { λ c. c.noted.items };
}

impl Comparisons {
    // Of no name.
    fn new(alloc: Global) -> Comparisons
        ensures { result ≡ [] }
    {
        Comparisons {
            noted: Vec::new(alloc),
        }
    }

    // Of the first names that were heard before, so many of them, where these were heard again: they have the outcomes of before. There is room for
    // the others.
    fn front(alloc: Global, before: &Outcomes, count: usize) -> Result<Comparisons, NoMemory>
        requires { count ≤ length before.now }
        ensures { IfOk result (λ c. AllCompared before.now (take count before.now) c) }
    {
        let all = before.count();
        let (ids, outcomes) = before.lists();
        let mut noted = Vec::with_capacity(alloc, all)?;
        for place in 0..count {
            let (id, _) = pair_at(ids, outcomes, place);
            put_note(&mut noted, id, true)?;
        }
        Ok(Comparisons { noted })
    }

    // Whether a name that was heard at a place has the outcome of before, where that is known.
    fn known(&self, place: usize, id: NodeId) -> Option<bool>
        ensures { IfSome result (λ same. slice_get self.now place ≡ Some (id, same)) }
    {
        if place >= self.noted.len() {
            return None;
        }
        let (name, same) = self.noted[place];
        if name == id {
            return Some(same);
        }
        None
    }

    // It is known of the name that was heard at a place.
    #[inline(always)]
    fn put(&mut self, place: usize, id: NodeId, same: bool) -> Result<(), NoMemory>
        ensures { (before heard : Heard) → AllCompared before heard self.old → IsCompared before heard id same → OnOk result (AllCompared before heard self.new) }
    {
        if place == self.noted.len() {
            note(&mut self.noted, id, same)?;
            return Ok(());
        }
        fill(&mut self.noted, place.saturating_add(1), id, same)?;
        Ok(())
    }
}

/// What is heard of names now, and of which it is known whether they have the outcomes of before, so that the outcomes of a name are compared once.
#[derive(Drop)]
pub struct Rehearing {
    /// The names that were heard, and their outcomes.
    pub heard: Outcomes,
    /// What is known of names that were heard.
    pub compared: Comparisons,
}

impl Rehearing {
    /// Nothing was heard yet.
    pub fn new(alloc: Global) -> Rehearing
        ensures heard { result.heard ≡ [] }
        ensures compared { result.compared ≡ [] }
    {
        Rehearing {
            heard: Outcomes::new(alloc),
            compared: Comparisons::new(alloc),
        }
    }

    /// The first names that were heard before, so many of them, were heard again with the outcomes of before, and those behind them are expected.
    ///
    /// # Errors
    ///
    /// `NoMemory` alone.
    pub(crate) fn front(
        alloc: Global,
        before: &Outcomes,
        count: usize,
    ) -> Result<Rehearing, NoMemory>
        requires { count ≤ length before.now }
        ensures front { IfOk result (λ h. h.heard ≡ take count before.now) }
        ensures compared { IfOk result (λ h. AreCompared before.now h) }
    {
        let heard = before.front(alloc, count)?;
        let compared = Comparisons::front(alloc, before, count)?;
        Ok(Rehearing { heard, compared })
    }

    /// Whether a name that was heard has the outcome of before; nothing where it wasn't heard.
    pub fn known(&self, before: &Outcomes, id: NodeId) -> Option<bool>
        requires { AreCompared before.now self.now }
        ensures same { IfSome result (λ same. IsCompared before.now self.now.heard id same) }
        ensures none { IfNone result (heard_of self.now.heard id ≡ None) }
    {
        let Some((place, outcome)) = self.heard.find(id) else {
            return None;
        };
        match self.compared.known(place, id) {
            Some(same) => Some(same),
            None => Some(before.had(id, outcome)),
        }
    }

    // Whether a name was heard and has the outcome of before. It is noted at a place mostly.
    fn is_same(&self, before: &Outcomes, place: usize, id: NodeId) -> bool
        requires { AreCompared before.now self.now }
        ensures { result ≡ true → IsAsBefore before.now self.now.heard id }
    {
        if let Some(same) = self.compared.known(place, id) {
            return same;
        }
        match self.known(before, id) {
            Some(same) => same,
            None => false,
        }
    }

    /// Whether each of these names was heard before this call and has the outcome of before. Nothing is heard. They are looked for from a place on,
    /// one after the other; a no promises nothing, as the page is then drawn as if they had changed.
    pub fn are_same(&self, before: &Outcomes, from: usize, ids: &[NodeId]) -> bool
        requires { AreCompared before.now self.now }
        ensures { result ≡ true → AreSame before.now ids.now self.now.heard self.now.heard }
    {
        let mut place = from;
        for id in ids {
            if !self.is_same(before, place, *id) {
                return false;
            }
            place = place.wrapping_add(1);
        }
        true
    }

    /// Puts a name behind the others with a copy of its outcome of before, where it is the next one that is expected; whether it is.
    ///
    /// # Errors
    ///
    /// `NoMemory` alone.
    #[inline(always)]
    pub(crate) fn put_next(&mut self, id: NodeId, was: &Outcome) -> Result<bool, NoMemory>
        ensures new { IfOk result (λ next. next ≡ true → heard_of self.old.heard id ≡ None) }
        ensures heard { IfOk result (λ next. next ≡ true → self.new.heard ≡ self.old.heard ++ (id, was.now) ∷ []) }
        ensures other { IfOk result (λ next. next ≡ false → self.new ≡ self.old) }
        ensures compared { (before : Heard) → AreCompared before self.old → heard_of before id ≡ Some was.now → OnOk result (AreCompared before self.new) }
    {
        let place = self.heard.count();
        if !self.heard.put_next(id, was)? {
            return Ok(false);
        }
        self.compared.put(place, id, true)?;
        Ok(true)
    }

    /// Puts a name behind the others, of which it is known whether it has the outcome of before.
    ///
    /// # Errors
    ///
    /// `NoMemory` alone.
    #[inline(always)]
    pub(crate) fn put(&mut self, id: NodeId, outcome: Outcome, same: bool) -> Result<(), NoMemory>
        requires { heard_of self.old.heard id ≡ None }
        ensures heard { OnOk result (self.new.heard ≡ self.old.heard ++ (id, outcome) ∷ []) }
        ensures compared { (before : Heard) → AreCompared before self.old → (same ≡ true → heard_of before id ≡ Some outcome) → OnOk result (AreCompared before self.new) }
    {
        let place = self.heard.count();
        self.heard.put(id, outcome)?;
        self.compared.put(place, id, same)?;
        Ok(())
    }
}

// Hears the name that is expected next, where it shows the outcome of before as it stands; whether it is so. Else nothing is heard.
#[inline(always)]
fn hear_expected(
    graph: &mut Graph,
    before: &Outcomes,
    hearing: &mut Rehearing,
    id: NodeId,
) -> Result<bool, NoMemory>
    ensures graph { graph.new ≡ graph.old }
    ensures stands { IfOk result (λ s. s ≡ true → StandsNext before.now graph.old.state.signals graph.old.state.memos id hearing.old.heard hearing.new.heard) }
    ensures other { IfOk result (λ s. s ≡ false → hearing.new.heard ≡ hearing.old.heard) }
    ensures compared { AreCompared before.now hearing.old → OnOk result (AreCompared before.now hearing.new) }
{
    let Some(was) = before.here(hearing.heard.count(), id) else {
        return Ok(false);
    };
    if !stands_as(graph, id, was) {
        return Ok(false);
    }
    let next = hearing.put_next(id, was)?;
    Ok(next)
}

// Hears a name, whatever is known of it. Its clauses are those of hearing a name.
#[inline(never)]
fn hear_any(
    graph: &mut Graph,
    shelf: &mut Shelf,
    before: &Outcomes,
    hearing: &mut Rehearing,
    id: NodeId,
    notes: &mut Vec<RunNote>,
) -> Result<bool, NoMemory>
    requires can { CanSettle (scene graph.old (⟦<Shelf as Lent>⟧.asked shelf.old) notes.old.items) }
    requires counted { ⟦<Shelf as Lent>⟧.counted shelf.old }
    requires compared { AreCompared before.now hearing.old }
    ensures same { IfOk result (λ same. IsCompared before.now hearing.new.heard id same) }
    ensures names { OnOk result (keys_of hearing.new.heard ≡ with_name (keys_of hearing.old.heard) id) }
    ensures after { OnOk result (Hears
        (scene graph.old (⟦<Shelf as Lent>⟧.asked shelf.old) notes.old.items) (scene graph.new (⟦<Shelf as Lent>⟧.asked shelf.new) notes.new.items)
        (λ hosts. ⟦<Shelf as Lent>⟧.answers hosts shelf.old) (λ hosts. ⟦<Shelf as Lent>⟧.answers hosts shelf.new) hearing.old.heard hearing.new.heard) }
    ensures can { OnOk result (CanSettle (scene graph.new (⟦<Shelf as Lent>⟧.asked shelf.new) notes.new.items)) }
    ensures counted { OnOk result (⟦<Shelf as Lent>⟧.counted shelf.new) }
    ensures compared { OnOk result (AreCompared before.now hearing.new) }
{
    if let Some(same) = hearing.known(before, id) {
        return Ok(same);
    }
    let place = hearing.heard.count();
    let (outcome, same) = settle_compared(graph, shelf, before, place, id, notes)?;
    hearing.put(id, outcome, same)?;
    Ok(same)
}

/// Hears a name; whether it has the outcome of before, which is compared the first time alone. What it asks of graph, shelf and comparisons it
/// gives back clause by clause, so that names may be heard one after another; the answer, the name that was added, and what hearing did are told
/// apart.
///
/// # Errors
///
/// `NoMemory` alone; names may then have been settled.
#[inline(always)]
pub(crate) fn hear_compared(
    graph: &mut Graph,
    shelf: &mut Shelf,
    before: &Outcomes,
    hearing: &mut Rehearing,
    id: NodeId,
    notes: &mut Vec<RunNote>,
) -> Result<bool, NoMemory>
    requires can { CanSettle (scene graph.old (⟦<Shelf as Lent>⟧.asked shelf.old) notes.old.items) }
    requires counted { ⟦<Shelf as Lent>⟧.counted shelf.old }
    requires compared { AreCompared before.now hearing.old }
    ensures same { IfOk result (λ same. IsCompared before.now hearing.new.heard id same) }
    ensures names { OnOk result (keys_of hearing.new.heard ≡ with_name (keys_of hearing.old.heard) id) }
    ensures after { OnOk result (Hears
        (scene graph.old (⟦<Shelf as Lent>⟧.asked shelf.old) notes.old.items) (scene graph.new (⟦<Shelf as Lent>⟧.asked shelf.new) notes.new.items)
        (λ hosts. ⟦<Shelf as Lent>⟧.answers hosts shelf.old) (λ hosts. ⟦<Shelf as Lent>⟧.answers hosts shelf.new) hearing.old.heard hearing.new.heard) }
    ensures can { OnOk result (CanSettle (scene graph.new (⟦<Shelf as Lent>⟧.asked shelf.new) notes.new.items)) }
    ensures counted { OnOk result (⟦<Shelf as Lent>⟧.counted shelf.new) }
    ensures compared { OnOk result (AreCompared before.now hearing.new) }
{
    if hear_expected(graph, before, hearing, id)? {
        return Ok(true);
    }
    let same = hear_any(graph, shelf, before, hearing, id, notes)?;
    Ok(same)
}

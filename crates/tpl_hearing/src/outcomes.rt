// What is heard of names while a page is brought up to date: each of them is settled once.
ghost use Rattle.std.specs.Prelude.{◌≡◌, ◌<◌, ◌≤◌, ◌++◌, ◌∷◌, [], List, false, length, nat_eq, slice_get, take, true, None, Some, IfNone, IfOk, IfSome, OnErr, OnOk, unwrap_or};
ghost use Rattle.std.specs.List.{list_any, zip, AllByRecursion, IsDistinct};
ghost use Rattle.std.specs.Map.{keys_of};
ghost use Rattle.std.specs.Option.{option_copied};
ghost use Rattle.sig_base.specs.declared.value.Outcome.{Outcome as AnOutcome};
ghost use Rattle.sig_base.specs.declared.value.Outcome.TheVariants.{Good};
ghost use Rattle.signal_laws.specs.ReadLaws.{with_name};
ghost use Rattle.tpl_hearing.specs.Heard.{heard_of, scene, CanSettle, HasRows, HaveRows, Hears, Outcomes as Heard};

use crate::name_list::NameList;
use crate::still::stands_as;
use sig_base::{NoMemory, NodeId, Outcome, Value};
use sig_computed::{RunNote, settle};
use sig_graph::Graph;
use sig_host::{Lent, Shelf};
use std::alloc::Global;
use std::marker::Model;

// Where a value is rows, these are rows.
fn value_rows(value: &Value)
    ensures { HasRows (Good value.now) }
{
    match value {
        Value::Bool(_) => {}
        Value::Int(_) => {}
        Value::Text(_) => {}
        Value::Rows(rows) => {
            let _rows = rows.rows();
        }
    }
}

// So it is for an outcome.
fn find_rows(outcome: &Outcome)
    ensures { HasRows outcome.now }
{
    match outcome {
        Outcome::Good(value) => value_rows(value),
        Outcome::Bad(_) => {}
    }
}

// So it is for each of some outcomes.
fn find_all(outcomes: &[Outcome])
    ensures { AllByRecursion HasRows outcomes.now }
{
    for outcome in outcomes {
        find_rows(outcome);
    }
}

// The outcome at a place.
fn outcome_at(outcomes: &[Outcome], place: usize) -> Option<&Outcome>
    ensures { option_copied result ≡ slice_get outcomes.now place }
{
    outcomes.get(place)
}

// Puts a copy of an outcome behind others. It stands apart, as mostly it is a number and there is room.
#[inline(never)]
fn push_any(outcomes: &mut Vec<Outcome>, outcome: &Outcome) -> Result<(), NoMemory>
    ensures put { OnOk result (outcomes.new.items ≡ outcomes.old.items ++ outcome.now ∷ []) }
    ensures other { OnErr result (outcomes.new.items ≡ outcomes.old.items) }
{
    let copy = outcome.copy()?;
    outcomes.reserve(1)?;
    outcomes.push_reserved(copy);
    Ok(())
}

// Puts a copy of an outcome behind others: a number at once, where there is room for it.
#[inline(always)]
fn push_copy(outcomes: &mut Vec<Outcome>, outcome: &Outcome) -> Result<(), NoMemory>
    ensures put { OnOk result (outcomes.new.items ≡ outcomes.old.items ++ outcome.now ∷ []) }
    ensures other { OnErr result (outcomes.new.items ≡ outcomes.old.items) }
{
    let Outcome::Good(Value::Int(number)) = outcome else {
        push_any(outcomes, outcome)?;
        return Ok(());
    };
    if outcomes.len() < outcomes.capacity() {
        outcomes.push_reserved(Outcome::Good(Value::Int(*number)));
        return Ok(());
    }
    push_any(outcomes, outcome)?;
    Ok(())
}

/// The name and the outcome at a place.
#[inline(always)]
pub(crate) fn pair_at<'a>(
    ids: &[NodeId],
    outcomes: &'a [Outcome],
    place: usize,
) -> (NodeId, &'a Outcome)
    requires within { length outcomes.now ≤ length ids.now }
    requires place { place < length outcomes.now }
    ensures { slice_get (zip ids.now outcomes.now) place ≡ Some (result.0, result.1.now) }
{
    (ids[place], &outcomes[place])
}

// Copies of the first outcomes, so many of them, and room for the others.
fn copy_front(alloc: Global, outcomes: &[Outcome], count: usize) -> Result<Vec<Outcome>, NoMemory>
    requires { count ≤ length outcomes.now }
    ensures { IfOk result (λ os. os.items ≡ take count outcomes.now) }
{
    let mut own = Vec::with_capacity(alloc, outcomes.len())?;
    for place in 0..count {
        push_copy(&mut own, &outcomes[place])?;
    }
    Ok(own)
}

// A name is the next one behind so many.
#[inline(always)]
fn expect(alloc: Global, names: &mut NameList, count: usize, id: NodeId) -> Result<(), NoMemory>
    requires within { count ≤ length names.old }
    requires new { list_any (nat_eq id) (take count names.old) ≡ false }
    ensures within { count ≤ length names.new }
    ensures more { OnOk result (count < length names.new) }
    ensures pairs { OnOk result ((os : List AnOutcome) (o : AnOutcome) → length os ≡ count → zip names.new (os ++ o ∷ []) ≡ zip names.old os ++ (id, o) ∷ []) }
{
    if names.is_at(count, id) {
        return Ok(());
    }
    names.put(alloc, count, id)?;
    Ok(())
}

/// The names that were heard, in this order, and their outcomes.
pub struct Outcomes {
    // the names that were heard, and behind them those that are expected next
    names: NameList,
    outcomes: Vec<Outcome>,
}

impl Drop for Outcomes {
    fn drop(self) {
        let Outcomes {
            names: _,
            outcomes: _,
        } = self;
    }
}

impl Model for Outcomes {
    ghost use Rattle.std.specs.Prelude.{◌≤◌, length};
    ghost use Rattle.std.specs.List.{zip};
    ghost use Rattle.tpl_hearing.specs.Heard as hearing;

    ghost Value = { hearing.Outcomes };

    ghost view = { λ h. zip h.names h.outcomes.items };

    ghost invariant = { λ h. length h.outcomes.items ≤ length h.names };
}

impl Outcomes {
    /// Nothing was heard.
    pub fn new(alloc: Global) -> Outcomes
        ensures { result ≡ [] }
    {
        Outcomes {
            names: NameList::new(),
            outcomes: Vec::new(alloc),
        }
    }

    /// The first names that were heard, so many of them; those behind them are expected, for each of which there is room.
    ///
    /// # Errors
    ///
    /// `NoMemory` alone.
    pub(crate) fn front(&self, alloc: Global, count: usize) -> Result<Outcomes, NoMemory>
        requires { count ≤ length self.now }
        ensures { IfOk result (λ h. h ≡ take count self.now) }
    {
        let names = self.names.copy()?;
        let outcomes = copy_front(alloc, &self.outcomes, count)?;
        Ok(Outcomes { names, outcomes })
    }

    // The outcome that was heard of a name.
    fn outcome(&self, id: NodeId) -> Result<Option<Outcome>, NoMemory>
        ensures { IfOk result (λ o. o ≡ heard_of self.now id) }
    {
        match self.find(id) {
            Some((_, outcome)) => Ok(Some(outcome.copy()?)),
            None => Ok(None),
        }
    }

    /// Where outcomes are rows, these are rows: a call that changes nothing.
    pub fn good(&self)
        ensures { HaveRows self.now }
    {
        find_all(&self.outcomes);
    }

    /// Whether a name is the next one that is expected, and so wasn't heard.
    #[inline(always)]
    pub(crate) fn is_next(&self, id: NodeId) -> bool
        ensures { result ≡ true → heard_of self.now id ≡ None }
    {
        let _count = self.names.count();
        self.names.is_at(self.outcomes.len(), id)
    }

    // Where a name was heard that isn't the next one, and the outcome that was heard of it.
    fn find_listed(&self, id: NodeId) -> Option<(usize, &Outcome)>
        ensures some { IfSome result (λ p. heard_of self.now id ≡ Some p.1.now) }
        ensures none { IfNone result (heard_of self.now id ≡ None) }
    {
        let _count = self.names.count();
        let Some(place) = self.names.place(id) else {
            return None;
        };
        match outcome_at(&self.outcomes, place) {
            Some(outcome) => Some((place, outcome)),
            None => None,
        }
    }

    /// Where a name was heard, and the outcome that was heard of it. One that is read again and again was heard last mostly.
    pub(crate) fn find(&self, id: NodeId) -> Option<(usize, &Outcome)>
        ensures some { IfSome result (λ p. heard_of self.now id ≡ Some p.1.now) }
        ensures none { IfNone result (heard_of self.now id ≡ None) }
    {
        if self.is_next(id) {
            return None;
        }
        let last = self.outcomes.len().wrapping_sub(1);
        match self.here(last, id) {
            Some(outcome) => Some((last, outcome)),
            None => self.find_listed(id),
        }
    }

    /// Whether a name was heard.
    pub(crate) fn has(&self, id: NodeId) -> bool
        ensures { result ≡ false → heard_of self.now id ≡ None }
    {
        match self.find(id) {
            Some(_) => true,
            None => false,
        }
    }

    /// The outcome that was heard at a place, where it is that of this name.
    #[inline(always)]
    pub(crate) fn here(&self, place: usize, id: NodeId) -> Option<&Outcome>
        ensures { IfSome result (λ o. heard_of self.now id ≡ Some o.now) }
    {
        let _count = self.names.count();
        if !self.names.is_at(place, id) {
            return None;
        }
        outcome_at(&self.outcomes, place)
    }

    /// The outcome that was heard of a name, which is looked for at a place first.
    pub(crate) fn near(&self, place: usize, id: NodeId) -> Option<&Outcome>
        ensures { option_copied result ≡ heard_of self.now id }
    {
        if let Some(outcome) = self.here(place, id) {
            return Some(outcome);
        }
        match self.find(id) {
            Some((_, outcome)) => Some(outcome),
            None => None,
        }
    }

    /// Whether this outcome was heard of a name.
    pub(crate) fn had(&self, id: NodeId, outcome: &Outcome) -> bool
        ensures { result ≡ true → heard_of self.now id ≡ Some outcome.now }
    {
        match self.find(id) {
            Some((_, heard)) => heard.same(outcome),
            None => false,
        }
    }

    /// How many names were heard, each of them once.
    pub(crate) fn count(&self) -> usize
        ensures count { result ≡ length self.now }
        ensures once { IsDistinct nat_eq (keys_of self.now) }
    {
        let _count = self.names.count();
        self.outcomes.len()
    }

    /// The names that were heard, and perhaps others behind them, and the outcomes that were heard.
    #[inline(always)]
    pub(crate) fn lists(&self) -> (&[NodeId], &[Outcome])
        ensures pairs { zip result.0.now result.1.now ≡ self.now }
        ensures within { length result.1.now ≤ length result.0.now }
    {
        (self.names.as_slice(), self.outcomes.as_slice())
    }

    /// The name that was heard at a place, and its outcome.
    pub(crate) fn at(&self, place: usize) -> (NodeId, &Outcome)
        requires { place < length self.now }
        ensures at { slice_get self.now place ≡ Some (result.0, result.1.now) }
        ensures heard { heard_of self.now result.0 ≡ Some result.1.now }
    {
        let _count = self.names.count();
        let Some(id) = self.names.at(place) else {
            unreachable!();
        };
        let Some(outcome) = outcome_at(&self.outcomes, place) else {
            unreachable!();
        };
        (id, outcome)
    }

    /// Puts a name behind the others with a copy of this outcome, where it is the next one that is expected; whether it is.
    ///
    /// # Errors
    ///
    /// `NoMemory` alone.
    #[inline(always)]
    pub(crate) fn put_next(&mut self, id: NodeId, outcome: &Outcome) -> Result<bool, NoMemory>
        ensures new { IfOk result (λ next. next ≡ true → heard_of self.old id ≡ None) }
        ensures put { IfOk result (λ next. next ≡ true → self.new ≡ self.old ++ (id, outcome.now) ∷ []) }
        ensures other { IfOk result (λ next. next ≡ false → self.new ≡ self.old) }
    {
        let _count = self.names.count();
        if !self.names.is_at(self.outcomes.len(), id) {
            return Ok(false);
        }
        push_copy(&mut self.outcomes, outcome)?;
        Ok(true)
    }

    /// Puts a name behind the others.
    ///
    /// # Errors
    ///
    /// `NoMemory` alone.
    #[inline(always)]
    pub(crate) fn put(&mut self, id: NodeId, outcome: Outcome) -> Result<(), NoMemory>
        requires { heard_of self.old id ≡ None }
        ensures { OnOk result (self.new ≡ self.old ++ (id, outcome) ∷ []) }
    {
        let alloc = *self.outcomes.allocator();
        expect(alloc, &mut self.names, self.outcomes.len(), id)?;
        self.outcomes.reserve(1)?;
        self.outcomes.push_reserved(outcome);
        Ok(())
    }
}

/// Settles a name, which may then be put behind those that were heard.
///
/// # Errors
///
/// `NoMemory` alone; it may then have been settled.
pub(crate) fn settle_name(
    graph: &mut Graph,
    shelf: &mut Shelf,
    id: NodeId,
    notes: &mut Vec<RunNote>,
) -> Result<Outcome, NoMemory>
    requires can { CanSettle (scene graph.old (⟦<Shelf as Lent>⟧.asked shelf.old) notes.old.items) }
    requires counted { ⟦<Shelf as Lent>⟧.counted shelf.old }
    ensures after { IfOk result (λ o. (heard now : Heard) → now ≡ heard ++ (id, o) ∷ [] → Hears
        (scene graph.old (⟦<Shelf as Lent>⟧.asked shelf.old) notes.old.items) (scene graph.new (⟦<Shelf as Lent>⟧.asked shelf.new) notes.new.items)
        (λ hosts. ⟦<Shelf as Lent>⟧.answers hosts shelf.old) (λ hosts. ⟦<Shelf as Lent>⟧.answers hosts shelf.new) heard now) }
    ensures can { OnOk result (CanSettle (scene graph.new (⟦<Shelf as Lent>⟧.asked shelf.new) notes.new.items)) }
    ensures counted { OnOk result (⟦<Shelf as Lent>⟧.counted shelf.new) }
{
    let _count = notes.len();
    let outcome = settle(graph, shelf, id, notes)?;
    Ok(outcome)
}

/// Settles a name, where it doesn't show the outcome of before as it stands: the outcome that it shows then, or nothing where it is that of before.
///
/// # Errors
///
/// `NoMemory` alone; it may then have been settled.
#[inline(always)]
pub(crate) fn settle_again(
    graph: &mut Graph,
    shelf: &mut Shelf,
    id: NodeId,
    was: &Outcome,
    notes: &mut Vec<RunNote>,
) -> Result<Option<Outcome>, NoMemory>
    requires can { CanSettle (scene graph.old (⟦<Shelf as Lent>⟧.asked shelf.old) notes.old.items) }
    requires counted { ⟦<Shelf as Lent>⟧.counted shelf.old }
    ensures after { IfOk result (λ o. (heard now : Heard) → now ≡ heard ++ (id, unwrap_or o was.now) ∷ [] → Hears
        (scene graph.old (⟦<Shelf as Lent>⟧.asked shelf.old) notes.old.items) (scene graph.new (⟦<Shelf as Lent>⟧.asked shelf.new) notes.new.items)
        (λ hosts. ⟦<Shelf as Lent>⟧.answers hosts shelf.old) (λ hosts. ⟦<Shelf as Lent>⟧.answers hosts shelf.new) heard now) }
    ensures can { OnOk result (CanSettle (scene graph.new (⟦<Shelf as Lent>⟧.asked shelf.new) notes.new.items)) }
    ensures counted { OnOk result (⟦<Shelf as Lent>⟧.counted shelf.new) }
{
    let _count = notes.len();
    if stands_as(graph, id, was) {
        return Ok(None);
    }
    let outcome = settle_name(graph, shelf, id, notes)?;
    if outcome.same(was) {
        return Ok(None);
    }
    Ok(Some(outcome))
}

/// Settles a name; the outcome that it shows then, and whether it is that of before, where the name is looked for at a place first.
///
/// # Errors
///
/// `NoMemory` alone; it may then have been settled.
pub(crate) fn settle_compared(
    graph: &mut Graph,
    shelf: &mut Shelf,
    before: &Outcomes,
    place: usize,
    id: NodeId,
    notes: &mut Vec<RunNote>,
) -> Result<(Outcome, bool), NoMemory>
    requires can { CanSettle (scene graph.old (⟦<Shelf as Lent>⟧.asked shelf.old) notes.old.items) }
    requires counted { ⟦<Shelf as Lent>⟧.counted shelf.old }
    ensures same { IfOk result (λ r. r.1 ≡ true → heard_of before.now id ≡ Some r.0) }
    ensures after { IfOk result (λ r. (heard now : Heard) → now ≡ heard ++ (id, r.0) ∷ [] → Hears
        (scene graph.old (⟦<Shelf as Lent>⟧.asked shelf.old) notes.old.items) (scene graph.new (⟦<Shelf as Lent>⟧.asked shelf.new) notes.new.items)
        (λ hosts. ⟦<Shelf as Lent>⟧.answers hosts shelf.old) (λ hosts. ⟦<Shelf as Lent>⟧.answers hosts shelf.new) heard now) }
    ensures can { OnOk result (CanSettle (scene graph.new (⟦<Shelf as Lent>⟧.asked shelf.new) notes.new.items)) }
    ensures counted { OnOk result (⟦<Shelf as Lent>⟧.counted shelf.new) }
{
    let Some(was) = before.near(place, id) else {
        let outcome = settle_name(graph, shelf, id, notes)?;
        return Ok((outcome, false));
    };
    match settle_again(graph, shelf, id, was, notes)? {
        Some(outcome) => Ok((outcome, false)),
        None => {
            let outcome = was.copy()?;
            Ok((outcome, true))
        }
    }
}

/// Hears a name: the first time it is settled.
///
/// # Errors
///
/// `NoMemory` alone; names may then have been settled.
pub fn hear(
    graph: &mut Graph,
    shelf: &mut Shelf,
    heard: &mut Outcomes,
    id: NodeId,
    notes: &mut Vec<RunNote>,
) -> Result<Outcome, NoMemory>
    requires can { CanSettle (scene graph.old (⟦<Shelf as Lent>⟧.asked shelf.old) notes.old.items) }
    requires counted { ⟦<Shelf as Lent>⟧.counted shelf.old }
    ensures outcome { IfOk result (λ o. heard_of heard.new id ≡ Some o) }
    ensures names { OnOk result (keys_of heard.new ≡ with_name (keys_of heard.old) id) }
    ensures after { OnOk result (Hears
        (scene graph.old (⟦<Shelf as Lent>⟧.asked shelf.old) notes.old.items) (scene graph.new (⟦<Shelf as Lent>⟧.asked shelf.new) notes.new.items)
        (λ hosts. ⟦<Shelf as Lent>⟧.answers hosts shelf.old) (λ hosts. ⟦<Shelf as Lent>⟧.answers hosts shelf.new) heard.old heard.new) }
    ensures can { OnOk result (CanSettle (scene graph.new (⟦<Shelf as Lent>⟧.asked shelf.new) notes.new.items)) }
    ensures counted { OnOk result (⟦<Shelf as Lent>⟧.counted shelf.new) }
{
    if let Some(outcome) = heard.outcome(id)? {
        return Ok(outcome);
    }
    let outcome = settle_name(graph, shelf, id, notes)?;
    heard.put(id, outcome.copy()?)?;
    Ok(outcome)
}

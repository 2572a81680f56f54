// Names that were heard at another time, heard again.
ghost use Rattle.std.specs.Prelude.{◌≡◌, ◌+◌, ◌<◌, ◌≤◌, [], length, take, true, Some, IfNone, IfOk, IfSome, OnOk};
ghost use Rattle.std.specs.List.{zip};
ghost use Rattle.std.specs.Map.{keys_of};
ghost use Rattle.signal_laws.specs.ReadLaws.{with_name};
ghost use Rattle.tpl_hearing.specs.Heard.{scene, CanSettle, Hears};
ghost use Rattle.tpl_hearing.specs.HeardAgain.{heard_by, AreCompared, AreHeardAgain, IsAsBefore, IsCompared, IsFront};
ghost use Rattle.tpl_hearing.specs.Standing.{StandBetween};
ghost use Rattle.tpl_hearing.specs.Unseen.{AreCellsBetween};

use crate::comparisons::{Rehearing, hear_compared};
use crate::outcomes::{Outcomes, pair_at, settle_name};
use crate::still::{is_number_as, shows_as_cell, stands_as};
use sig_base::{NoMemory, NodeId, Outcome};
use sig_computed::RunNote;
use sig_graph::Graph;
use sig_host::{Lent, Shelf};

// Whether this is the name.
fn is_it(last: Option<NodeId>, id: NodeId) -> bool
    ensures { result ≡ true → last ≡ Some id }
{
    match last {
        Some(name) => name == id,
        None => false,
    }
}

// The name, where it has the outcome of before.
fn if_same(same: bool, id: NodeId) -> Option<NodeId>
    ensures { IfSome result (λ name. (name ≡ id) × (same ≡ true)) }
{
    if same {
        return Some(id);
    }
    None
}

// Hears the next name; whether it has the outcome of before. One that was the last before it as well, and had that, is passed over at a look. Its
// clauses are those of hearing a name, and what is known of the last one.
fn hear_next(
    graph: &mut Graph,
    shelf: &mut Shelf,
    before: &Outcomes,
    hearing: &mut Rehearing,
    last: &mut Option<NodeId>,
    id: NodeId,
    notes: &mut Vec<RunNote>,
) -> Result<bool, NoMemory>
    requires can { CanSettle (scene graph.old (⟦<Shelf as Lent>⟧.asked shelf.old) notes.old.items) }
    requires counted { ⟦<Shelf as Lent>⟧.counted shelf.old }
    requires compared { AreCompared before.now hearing.old }
    requires last { IfSome last.old (IsAsBefore before.now hearing.old.heard) }
    ensures same { IfOk result (λ same. IsCompared before.now hearing.new.heard id same) }
    ensures names { OnOk result (keys_of hearing.new.heard ≡ with_name (keys_of hearing.old.heard) id) }
    ensures after { OnOk result (Hears
        (scene graph.old (⟦<Shelf as Lent>⟧.asked shelf.old) notes.old.items) (scene graph.new (⟦<Shelf as Lent>⟧.asked shelf.new) notes.new.items)
        (λ hosts. ⟦<Shelf as Lent>⟧.answers hosts shelf.old) (λ hosts. ⟦<Shelf as Lent>⟧.answers hosts shelf.new) hearing.old.heard hearing.new.heard) }
    ensures can { OnOk result (CanSettle (scene graph.new (⟦<Shelf as Lent>⟧.asked shelf.new) notes.new.items)) }
    ensures counted { OnOk result (⟦<Shelf as Lent>⟧.counted shelf.new) }
    ensures compared { OnOk result (AreCompared before.now hearing.new) }
    ensures last { OnOk result (IfSome last.new (IsAsBefore before.now hearing.new.heard)) }
{
    if is_it(*last, id) {
        return Ok(true);
    }
    let same = hear_compared(graph, shelf, before, hearing, id, notes)?;
    *last = if_same(same, id);
    Ok(same)
}

/// Hears names in order, up to the first that hasn't the outcome that was heard of it before; whether there is none.
///
/// # Errors
///
/// `NoMemory` alone; names may then have been settled.
#[inline(always)]
pub fn hear_again(
    graph: &mut Graph,
    shelf: &mut Shelf,
    before: &Outcomes,
    hearing: &mut Rehearing,
    ids: &[NodeId],
    notes: &mut Vec<RunNote>,
) -> Result<bool, NoMemory>
    requires can { CanSettle (scene graph.old (⟦<Shelf as Lent>⟧.asked shelf.old) notes.old.items) }
    requires counted { ⟦<Shelf as Lent>⟧.counted shelf.old }
    requires compared { AreCompared before.now hearing.old }
    ensures again { IfOk result (λ same. AreHeardAgain same before.now ids.now hearing.old.heard hearing.new.heard) }
    ensures after { OnOk result (Hears
        (scene graph.old (⟦<Shelf as Lent>⟧.asked shelf.old) notes.old.items) (scene graph.new (⟦<Shelf as Lent>⟧.asked shelf.new) notes.new.items)
        (λ hosts. ⟦<Shelf as Lent>⟧.answers hosts shelf.old) (λ hosts. ⟦<Shelf as Lent>⟧.answers hosts shelf.new) hearing.old.heard hearing.new.heard) }
    ensures can { OnOk result (CanSettle (scene graph.new (⟦<Shelf as Lent>⟧.asked shelf.new) notes.new.items)) }
    ensures counted { OnOk result (⟦<Shelf as Lent>⟧.counted shelf.new) }
    ensures compared { OnOk result (AreCompared before.now hearing.new) }
{
    let mut last = None;
    for id in ids {
        if !hear_next(graph, shelf, before, hearing, &mut last, *id, notes)? {
            return Ok(false);
        }
    }
    Ok(true)
}

// The first place from this one on where a name isn't a cell that shows the number of before, or the end.
#[inline(always)]
fn numbers_up_to(graph: &Graph, ids: &[NodeId], outcomes: &[Outcome], from: usize) -> usize
    requires within { length outcomes.now ≤ length ids.now }
    requires from { from ≤ length outcomes.now }
    ensures { AreCellsBetween graph.now.state.signals (zip ids.now outcomes.now) from result }
{
    let count = outcomes.len();
    for place in from..count {
        let (id, was) = pair_at(ids, outcomes, place);
        if !is_number_as(graph, id, was) {
            return place;
        }
    }
    count
}

// The first place from this one on where a name isn't a cell that shows the outcome of before, or the end. Cells that show numbers are passed over
// in a loop of their own.
#[inline(never)]
fn cells_up_to(graph: &Graph, ids: &[NodeId], outcomes: &[Outcome], from: usize) -> usize
    requires within { length outcomes.now ≤ length ids.now }
    requires from { from ≤ length outcomes.now }
    ensures { AreCellsBetween graph.now.state.signals (zip ids.now outcomes.now) from result }
{
    let mut place = numbers_up_to(graph, ids, outcomes, from);
    while place < outcomes.len() {
        let (id, was) = pair_at(ids, outcomes, place);
        if !shows_as_cell(graph, id, was) {
            return place;
        }
        let next = numbers_up_to(graph, ids, outcomes, place + 1);
        place = next;
    }
    place
}

/// The first place where a name isn't that of a cell which shows what was heard of it, if there is one.
pub fn first_other(graph: &Graph, heard: &Outcomes) -> Option<usize>
    ensures some { IfSome result (AreCellsBetween graph.now.state.signals heard.now 0) }
    ensures none { IfNone result (AreCellsBetween graph.now.state.signals heard.now 0 (length heard.now)) }
{
    let count = heard.count();
    let (ids, outcomes) = heard.lists();
    let place = cells_up_to(graph, ids, outcomes, 0);
    if place < count {
        return Some(place);
    }
    None
}

// The first place from this one on where a name doesn't show the outcome of before as it stands, or the end.
fn standing_up_to(graph: &mut Graph, ids: &[NodeId], outcomes: &[Outcome], from: usize) -> usize
    requires within { length outcomes.now ≤ length ids.now }
    requires from { from ≤ length outcomes.now }
    ensures same { graph.new ≡ graph.old }
    ensures stand { StandBetween graph.old.state.signals graph.old.state.memos (zip ids.now outcomes.now) from result }
{
    let mut place = cells_up_to(graph, ids, outcomes, from);
    while place < outcomes.len() {
        let (id, was) = pair_at(ids, outcomes, place);
        if !stands_as(graph, id, was) {
            return place;
        }
        let next = cells_up_to(graph, ids, outcomes, place + 1);
        place = next;
    }
    place
}

// Settles the name at a place, before which each name has the outcome of before: what was heard then, or nothing where it has that outcome too.
#[inline(never)]
fn hear_at(
    graph: &mut Graph,
    shelf: &mut Shelf,
    before: &Outcomes,
    place: usize,
    notes: &mut Vec<RunNote>,
) -> Result<Option<Rehearing>, NoMemory>
    requires place { place < length before.now }
    requires can { CanSettle (scene graph.old (⟦<Shelf as Lent>⟧.asked shelf.old) notes.old.items) }
    requires counted { ⟦<Shelf as Lent>⟧.counted shelf.old }
    ensures front { IfOk result (λ r. IfSome r (λ h. IsFront before.now h.heard)) }
    ensures compared { IfOk result (λ r. IfSome r (λ h. AreCompared before.now h)) }
    ensures after { IfOk result (λ r. Hears
        (scene graph.old (⟦<Shelf as Lent>⟧.asked shelf.old) notes.old.items) (scene graph.new (⟦<Shelf as Lent>⟧.asked shelf.new) notes.new.items)
        (λ hosts. ⟦<Shelf as Lent>⟧.answers hosts shelf.old) (λ hosts. ⟦<Shelf as Lent>⟧.answers hosts shelf.new)
        (take place before.now) (heard_by r (take (place + 1) before.now))) }
    ensures can { OnOk result (CanSettle (scene graph.new (⟦<Shelf as Lent>⟧.asked shelf.new) notes.new.items)) }
    ensures counted { OnOk result (⟦<Shelf as Lent>⟧.counted shelf.new) }
{
    let _count = before.count();
    let (id, was) = before.at(place);
    let outcome = settle_name(graph, shelf, id, notes)?;
    if outcome.same(was) {
        return Ok(None);
    }
    let mut hearing = Rehearing::front(*notes.allocator(), before, place)?;
    hearing.put(id, outcome, false)?;
    Ok(Some(hearing))
}

/// Hears all names that were heard before again, in their order, up to the first that has another outcome: what was heard then, or nothing where
/// each has the outcome of before. Those before a place are known to be cells that show it.
///
/// # Errors
///
/// `NoMemory` alone; names may then have been settled.
pub fn hear_all_again(
    graph: &mut Graph,
    shelf: &mut Shelf,
    before: &Outcomes,
    from: usize,
    notes: &mut Vec<RunNote>,
) -> Result<Option<Rehearing>, NoMemory>
    requires can { CanSettle (scene graph.old (⟦<Shelf as Lent>⟧.asked shelf.old) notes.old.items) }
    requires counted { ⟦<Shelf as Lent>⟧.counted shelf.old }
    requires cells { AreCellsBetween graph.old.state.signals before.now 0 from }
    ensures front { IfOk result (λ r. IfSome r (λ h. IsFront before.now h.heard)) }
    ensures compared { IfOk result (λ r. IfSome r (λ h. AreCompared before.now h)) }
    ensures after { IfOk result (λ r. Hears
        (scene graph.old (⟦<Shelf as Lent>⟧.asked shelf.old) notes.old.items) (scene graph.new (⟦<Shelf as Lent>⟧.asked shelf.new) notes.new.items)
        (λ hosts. ⟦<Shelf as Lent>⟧.answers hosts shelf.old) (λ hosts. ⟦<Shelf as Lent>⟧.answers hosts shelf.new) [] (heard_by r before.now)) }
    ensures can { OnOk result (CanSettle (scene graph.new (⟦<Shelf as Lent>⟧.asked shelf.new) notes.new.items)) }
    ensures counted { OnOk result (⟦<Shelf as Lent>⟧.counted shelf.new) }
{
    let count = before.count();
    let (ids, outcomes) = before.lists();
    let mut place = standing_up_to(graph, ids, outcomes, from);
    while place < count {
        if let Some(hearing) = hear_at(graph, shelf, before, place, notes)? {
            return Ok(Some(hearing));
        }
        let next = standing_up_to(graph, ids, outcomes, place + 1);
        place = next;
    }
    Ok(None)
}

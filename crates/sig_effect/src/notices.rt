// What changes tell.
ghost use Rattle.std.specs.Prelude.{◌≡◌, ◌+◌, ◌++◌, ◌∷◌, [], ℕ, Some, IfOk, IsTrue, OnOk, map};
ghost use Rattle.signal_model.specs.Recipes.{Hosts};
ghost use Rattle.sig_host.specs.Hosts.{is_there};
ghost use Rattle.sig_effect.specs.declared.events.Event.TheVariants as event;
ghost use Rattle.sig_effect.specs.Results.{drop_events, dropped_if, ids_refused, ids_told, values_told, AreNotices};

use crate::events::Event;
use effect_model::How;
use sig_base::{NoMemory, NodeId, WatcherId};
use sig_computed::RunNote;
use sig_host::{Lent, Shelf};
use sig_watcher::Told;
use std::alloc::Global;

/// Tells of runs, in order.
pub fn tell_runs(events: &mut Vec<Event>, notes: Vec<RunNote>) -> Result<(), NoMemory>
    ensures { OnOk result (events.new.items ≡ events.old.items ++ map event.Run notes.items) }
{
    for note in notes {
        events.push(Event::Run(note))?;
    }
    Ok(())
}

/// Tells that a signal was changed. It asks for room first, so that the event is put there at once.
#[inline(always)]
pub fn tell_change(events: &mut Vec<Event>, id: NodeId, how: How) -> Result<(), NoMemory>
    ensures { OnOk result (events.new.items ≡ events.old.items ++ event.Change id how ∷ []) }
{
    events.reserve(1)?;
    events.push_reserved(Event::Change(id, how));
    Ok(())
}

/// Tells that these cells have another value, in order.
pub fn tell_values(events: &mut Vec<Event>, cells: &[NodeId]) -> Result<(), NoMemory>
    ensures { OnOk result (events.new.items ≡ events.old.items ++ values_told cells.now) }
{
    for id in cells {
        events.push(Event::Change(*id, How::Set))?;
    }
    Ok(())
}

/// Drops the host formula of a place that was left, where one was, and tells of it.
pub fn drop_left(
    shelf: &mut Shelf,
    left: Option<usize>,
    events: &mut Vec<Event>,
) -> Result<(), NoMemory>
    requires counted { ⟦<Shelf as Lent>⟧.counted shelf.old }
    requires there { (place : ℕ) → left ≡ Some place → IsTrue (is_there (⟦<Shelf as Lent>⟧.asked shelf.old) place) }
    ensures events { OnOk result (events.new.items ≡ events.old.items ++ drop_events left (⟦<Shelf as Lent>⟧.asked shelf.old)) }
    ensures asked { OnOk result (⟦<Shelf as Lent>⟧.asked shelf.new ≡ dropped_if left (⟦<Shelf as Lent>⟧.asked shelf.old)) }
    ensures answers { (hosts : Hosts) → ⟦<Shelf as Lent>⟧.answers hosts shelf.old → OnOk result (⟦<Shelf as Lent>⟧.answers hosts shelf.new) }
    ensures counted { OnOk result (⟦<Shelf as Lent>⟧.counted shelf.new) }
{
    let Some(place) = left else {
        return Ok(());
    };
    let asks = shelf.drop_host(place);
    events.push(Event::Dropped(place, asks))?;
    Ok(())
}

// Tells of each watcher that was notified.
fn tell_each(events: &mut Vec<Event>, told: &[Told]) -> Result<(), NoMemory>
    ensures { OnOk result (events.new.items ≡ events.old.items ++ map event.Notify (ids_told told.now)) }
{
    for one in told {
        events.push(Event::Notify(one.watcher))?;
    }
    Ok(())
}

// Puts a watcher behind the others where its try was refused.
fn push_refused(refused: &mut Vec<WatcherId>, one: &Told) -> Result<(), NoMemory>
    ensures { OnOk result (refused.new.items ≡ refused.old.items ++ ids_refused (one.now ∷ [])) }
{
    if one.refused {
        refused.push(one.watcher)?;
        return Ok(());
    }
    Ok(())
}

// The watchers among these whose try was refused.
fn refused_of(alloc: Global, told: &[Told]) -> Result<Vec<WatcherId>, NoMemory>
    ensures { IfOk result (λ v. v.items ≡ ids_refused told.now) }
{
    let mut refused = Vec::new(alloc);
    for one in told {
        push_refused(&mut refused, one)?;
    }
    Ok(refused)
}

// Tells of the watchers that were notified, in order, and then of those among them whose try was refused, as `tell_notified` does.
#[inline(never)]
fn tell_some(events: &mut Vec<Event>, told: &[Told]) -> Result<(), NoMemory>
    ensures { OnOk result (AreNotices told.now events.old.items events.new.items) }
{
    tell_each(events, told)?;
    let refused = refused_of(*events.allocator(), told)?;
    if refused.is_empty() {
        return Ok(());
    }
    events.push(Event::Frozen(refused))?;
    Ok(())
}

/// Tells of the watchers that were notified, in order, and then of those among them whose try was refused. Mostly there is none.
#[inline(always)]
pub fn tell_notified(events: &mut Vec<Event>, told: &[Told]) -> Result<(), NoMemory>
    ensures { OnOk result (AreNotices told.now events.old.items events.new.items) }
{
    match told {
        [] => Ok(()),
        _ => {
            tell_some(events, told)?;
            Ok(())
        }
    }
}

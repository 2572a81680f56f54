// What is told of events, each by the labels of its moment.
ghost use Rattle.std.specs.Prelude.{◌≡◌, ◌≤◌, ◌+◌, ◌++◌, ◌∷◌, [], List, length, IfOk, OnOk, map, option_map, option_to_list};
ghost use Rattle.effect_model.specs.Worlds as plain;
ghost use Rattle.effect_tables.specs.Bodies.{thing_of};
ghost use Rattle.sig_computed.specs.Notes.{note_of};
ghost use Rattle.sig_effect.specs.Events.{AreTold};
ghost use Rattle.live_entries.specs.declared.entry.Entry.TheVariants as entry;
ghost use Rattle.live_entries.specs.declared.refusal.Refusal.TheVariants as refusal;
ghost use Rattle.why_model.specs.Facts.{has_run};
ghost use Rattle.why_model.specs.Records.{with_facts};
ghost use Rattle.live_why.specs.Views as noted;
ghost use Rattle.live_model.specs.Journals.{noting};
ghost use Rattle.live_model.specs.Labels.{label_at, label_of, labels_after, name_at, relabelled};
ghost use Rattle.live_model.specs.Machine.{entries_of};
ghost use Rattle.live_labels.specs.Entries.{entries_for, entries_told, is_wanted, note_entry, renamed, told_for};
ghost use Rattle.live_labels.specs.Views.{labels_of, KeepsNames};

use crate::labels::Labels;
use crate::names::{
    label_at, label_of, name_at, name_child, names_of_signals, names_of_watchers, unname_child,
};
use crate::notes::{note_all, note_runs};
use effect_tables::Thing;
use live_entries::{Entry, Refusal};
use live_why::Recorder;
use sig_base::{EffectId, Fault, Name, NoMemory, NodeId, WatcherId};
use sig_computed::RunNote;
use sig_effect::Event;
use std::alloc::Global;

/// Puts entries behind others. Behind none they stay where they are.
pub fn append(told: &mut Vec<Entry>, more: Vec<Entry>) -> Result<(), NoMemory>
    ensures { OnOk result (told.new.items ≡ told.old.items ++ more.items) }
{
    if told.is_empty() {
        *told = more;
        return Ok(());
    }
    for entry in more {
        put_entry(told, entry)?;
    }
    Ok(())
}

/// Puts an entry behind others. It asks for room first, so that the entry is put there at once.
///
/// # Errors
///
/// `NoMemory` where memory ran out.
#[inline(always)]
pub fn put_entry(told: &mut Vec<Entry>, entry: Entry) -> Result<(), NoMemory>
    ensures { OnOk result (told.new.items ≡ told.old.items ++ entry ∷ []) }
{
    told.reserve(1)?;
    told.push_reserved(entry);
    Ok(())
}

// What is told of a run.
#[inline(always)]
fn run_entry(alloc: Global, names: &[Name], note: &RunNote) -> Result<Entry, NoMemory>
    ensures { IfOk result (λ e. e ≡ note_entry names.now (note_of note.now)) }
{
    let name = name_at(alloc, names, note.id.number())?;
    let reads = names_of_signals(alloc, names, note.reads.as_slice())?;
    let outcome = note.outcome.copy()?;
    Ok(Entry::Run(name, reads, outcome))
}

// Puts what is told of a run behind what was told.
fn put_run(told: &mut Vec<Entry>, names: &[Name], note: &RunNote) -> Result<(), NoMemory>
    ensures { OnOk result (told.new.items ≡ told.old.items ++ note_entry names.now (note_of note.now) ∷ []) }
{
    let entry = run_entry(*told.allocator(), names, note)?;
    put_entry(told, entry)?;
    Ok(())
}

// Room for what is told of runs, and for two entries behind it; none where there is no run.
fn room_behind(notes: &[RunNote]) -> usize
    ensures { result ≤ length notes.now + 2 }
{
    match notes {
        [] => 0,
        _ => notes.len() + 2,
    }
}

// Puts what is told of runs behind what was told.
fn put_runs(told: &mut Vec<Entry>, names: &[Name], notes: &[RunNote]) -> Result<(), NoMemory>
    ensures { OnOk result (told.new.items ≡ told.old.items ++ map (note_entry names.now) (map note_of notes.now)) }
{
    told.reserve(room_behind(notes))?;
    for note in notes {
        put_run(told, names, note)?;
    }
    Ok(())
}

/// Tells of runs, and notes them.
///
/// # Errors
///
/// `NoMemory` where memory ran out.
pub fn tell_runs(
    told: &mut Vec<Entry>,
    names: &[Name],
    journal: &mut Option<Recorder>,
    notes: &[RunNote],
) -> Result<(), NoMemory>
    ensures told { OnOk result (told.new.items ≡ told.old.items ++ map (note_entry names.now) (map note_of notes.now)) }
    ensures noted { OnOk result (journal.new ≡ option_map (with_facts (map has_run (map noted.note_of notes.now))) journal.old) }
{
    note_runs(journal, notes)?;
    put_runs(told, names, notes)?;
    Ok(())
}

// What is told of those whose notification tried a command.
fn frozen_entry(alloc: Global, names: &[Name], watchers: &[WatcherId]) -> Result<Entry, NoMemory>
    ensures { IfOk result (λ e. e ≡ entry.Error (refusal.Frozen (map (name_at names.now) watchers.now))) }
{
    let names = names_of_watchers(alloc, names, watchers)?;
    Ok(Entry::Error(Refusal::Frozen(names)))
}

// What is told of the end of a thing.
fn gone_entry(alloc: Global, labels: &Labels, thing: &Thing) -> Result<Entry, NoMemory>
    ensures { IfOk result (λ e. e ≡ entry.Gone (label_of (labels_of labels.now) (thing_of thing.now))) }
{
    let label = label_of(alloc, labels, thing)?;
    Ok(Entry::Gone(label))
}

// What is told of an evaluated body.
#[inline(always)]
fn effect_entry(
    alloc: Global,
    labels: &Labels,
    id: EffectId,
    reads: &[NodeId],
) -> Result<Entry, NoMemory>
    ensures { IfOk result (λ e. e ≡ entry.Effect (label_at (labels_of labels.now).effects id)
        (map (name_at (labels_of labels.now).signals) reads.now)) }
{
    let label = label_at(alloc, &labels.effects, id)?;
    let names = names_of_signals(alloc, &labels.signals, reads)?;
    Ok(Entry::Effect(label, names))
}

// What is told of a body that failed.
fn fail_entry(alloc: Global, labels: &Labels, id: EffectId, fault: Fault) -> Result<Entry, NoMemory>
    ensures { IfOk result (λ e. e ≡ entry.Fail (label_at (labels_of labels.now).effects id) fault) }
{
    let label = label_at(alloc, &labels.effects, id)?;
    Ok(Entry::Fail(label, fault))
}

// What is told of a cleanup.
fn cleanup_entry(alloc: Global, labels: &Labels, id: EffectId) -> Result<Entry, NoMemory>
    ensures { IfOk result (λ e. e ≡ entry.Cleanup (label_at (labels_of labels.now).effects id)) }
{
    let label = label_at(alloc, &labels.effects, id)?;
    Ok(Entry::Cleanup(label))
}

// What is told of an act that names a thing which is gone.
fn refusal_entry(alloc: Global, labels: &Labels, thing: &Thing) -> Result<Entry, NoMemory>
    ensures { IfOk result (λ e. e ≡ entry.Error (refusal.Gone (label_of (labels_of labels.now) (thing_of thing.now)).name)) }
{
    let label = label_of(alloc, labels, thing)?;
    let name = label.name.copy()?;
    Ok(Entry::Error(Refusal::Gone(name)))
}

// What is told of an event, if anything is.
fn entry_of(alloc: Global, labels: &Labels, event: &Event) -> Result<Option<Entry>, NoMemory>
    ensures { IfOk result (λ o. option_to_list o ≡ entries_told (labels_of labels.now) event.now) }
{
    match event {
        Event::Run(note) => {
            let entry = run_entry(alloc, &labels.signals, note)?;
            Ok(Some(entry))
        }
        Event::Change(_, _) => Ok(None),
        Event::Notify(watcher) => {
            let name = name_at(alloc, &labels.watchers, watcher.number())?;
            Ok(Some(Entry::Notify(name)))
        }
        Event::Frozen(watchers) => {
            let entry = frozen_entry(alloc, &labels.watchers, watchers)?;
            Ok(Some(entry))
        }
        Event::Dropped(place, asks) => Ok(Some(Entry::Drop(*place as u64, *asks))),
        Event::Log(value) => {
            let value = value.copy()?;
            Ok(Some(Entry::Log(value)))
        }
        Event::Body(id, reads) => {
            let entry = effect_entry(alloc, labels, *id, reads)?;
            Ok(Some(entry))
        }
        Event::Fail(id, fault) => {
            let entry = fail_entry(alloc, labels, *id, *fault)?;
            Ok(Some(entry))
        }
        Event::Cleanup(id) => {
            let entry = cleanup_entry(alloc, labels, *id)?;
            Ok(Some(entry))
        }
        Event::Gone(thing) => {
            let entry = gone_entry(alloc, labels, thing)?;
            Ok(Some(entry))
        }
        Event::RefusedGone(thing) => {
            let entry = refusal_entry(alloc, labels, thing)?;
            Ok(Some(entry))
        }
        Event::RefusedHost(place) => Ok(Some(Entry::Error(Refusal::HostTaken(*place as u64)))),
        Event::Made { .. } => Ok(None),
        Event::Noted(_) => Ok(None),
    }
}

// A child that ends is no longer called anything.
fn rename_gone(labels: &mut Labels, thing: &Thing)
    ensures effects { labels_of labels.new ≡ relabelled (plain.gone (thing_of thing.now)) (labels_of labels.old) }
    ensures names { KeepsNames labels.old labels.new }
{
    match thing {
        Thing::Effect(id) => unname_child(&mut labels.effects, *id),
        Thing::Signal(_) => {}
        Thing::Owner(_) => {}
        Thing::Page(_) => {}
        Thing::Watcher(_) => {}
    }
}

// Labels are given, and go out, by an event.
fn rename(alloc: Global, labels: &mut Labels, event: &Event) -> Result<(), NoMemory>
    ensures effects { OnOk result (labels_of labels.new ≡ renamed event.now (labels_of labels.old)) }
    ensures names { KeepsNames labels.old labels.new }
{
    match event {
        Event::Made {
            child,
            parent,
            label,
        } => {
            name_child(
                alloc,
                &mut labels.effects,
                *child,
                *parent,
                u64::from(*label),
            )?;
            Ok(())
        }
        Event::Gone(thing) => {
            rename_gone(labels, thing);
            Ok(())
        }
        _ => Ok(()),
    }
}

// Puts an entry behind others, if there is one.
fn put_some(told: &mut Vec<Entry>, entry: Option<Entry>) -> Result<(), NoMemory>
    ensures { OnOk result (told.new.items ≡ told.old.items ++ option_to_list entry) }
{
    match entry {
        Some(entry) => {
            put_entry(told, entry)?;
            Ok(())
        }
        None => Ok(()),
    }
}

// Tells of an event, and what is called otherwise from then on, whatever event it is.
#[inline(never)]
fn tell_any(told: &mut Vec<Entry>, labels: &mut Labels, event: &Event) -> Result<(), NoMemory>
    ensures entries { OnOk result (told.new.items ≡ told.old.items ++ entries_told (labels_of labels.old) event.now) }
    ensures labels { OnOk result (labels_of labels.new ≡ renamed event.now (labels_of labels.old)) }
    ensures names { KeepsNames labels.old labels.new }
{
    let alloc = *told.allocator();
    let entry = entry_of(alloc, labels, event)?;
    put_some(told, entry)?;
    rename(alloc, labels, event)?;
    Ok(())
}

// Tells of an event, and what is called otherwise from then on. Most events are runs, changes, evaluated bodies and values that are logged, of
// which nothing is called otherwise.
fn tell_one(told: &mut Vec<Entry>, labels: &mut Labels, event: &Event) -> Result<(), NoMemory>
    ensures entries { OnOk result (told.new.items ≡ told.old.items ++ entries_told (labels_of labels.old) event.now) }
    ensures labels { OnOk result (labels_of labels.new ≡ renamed event.now (labels_of labels.old)) }
    ensures names { KeepsNames labels.old labels.new }
{
    match event {
        Event::Run(note) => {
            put_run(told, &labels.signals, note)?;
            Ok(())
        }
        Event::Change(_, _) => Ok(()),
        Event::Body(id, reads) => {
            let entry = effect_entry(*told.allocator(), labels, *id, reads)?;
            put_entry(told, entry)?;
            Ok(())
        }
        Event::Log(value) => {
            put_entry(told, Entry::Log(value.copy()?))?;
            Ok(())
        }
        _ => {
            tell_any(told, labels, event)?;
            Ok(())
        }
    }
}

// Whether an event is to be told, where a trace is asked for or not.
fn is_wanted(event: &Event, traced: bool) -> bool
    ensures { result ≡ is_wanted traced event.now }
{
    match event {
        Event::Run(_) => traced,
        Event::Body(_, _) => traced,
        _ => true,
    }
}

// Tells of an event, if it is to be told, and what is called otherwise from then on.
fn tell_wanted(
    told: &mut Vec<Entry>,
    labels: &mut Labels,
    event: &Event,
    traced: bool,
) -> Result<(), NoMemory>
    ensures entries { OnOk result (told.new.items ≡ told.old.items ++ entries_for traced (labels_of labels.old) event.now) }
    ensures labels { OnOk result (labels_of labels.new ≡ renamed event.now (labels_of labels.old)) }
    ensures names { KeepsNames labels.old labels.new }
{
    if !is_wanted(event, traced) {
        return Ok(());
    }
    tell_one(told, labels, event)?;
    Ok(())
}

// Tells of events, one by one, each by the labels of its moment. There is room for two entries behind what is told of them.
#[inline(never)]
fn tell_each(
    alloc: Global,
    labels: &mut Labels,
    events: &[Event],
    traced: bool,
) -> Result<Vec<Entry>, NoMemory>
    ensures entries { IfOk result (λ es. es.items ≡ told_for traced (labels_of labels.old) events.now) }
    ensures labels { (ts : List plain.Event) → AreTold events.now ts → OnOk result (labels_of labels.new ≡ labels_after ts (labels_of labels.old)) }
    ensures names { OnOk result (KeepsNames labels.old labels.new) }
{
    let mut told = Vec::with_capacity(alloc, events.len() + 2)?;
    for event in events {
        tell_wanted(&mut told, labels, event, traced)?;
    }
    Ok(told)
}

/// Tells of events as `tell_all` does; but where no trace is asked for, nothing is told of runs and of evaluated bodies. They are noted all the same.
///
/// # Errors
///
/// `NoMemory` where memory ran out.
#[inline(always)]
pub fn tell_for(
    alloc: Global,
    labels: &mut Labels,
    journal: &mut Option<Recorder>,
    events: &[Event],
    traced: bool,
) -> Result<Vec<Entry>, NoMemory>
    ensures entries { IfOk result (λ es. es.items ≡ told_for traced (labels_of labels.old) events.now) }
    ensures labels { (ts : List plain.Event) → AreTold events.now ts → OnOk result (labels_of labels.new ≡ labels_after ts (labels_of labels.old)) }
    ensures noted { (ts : List plain.Event) → AreTold events.now ts → OnOk result (journal.new ≡ noting ts journal.old) }
    ensures names { OnOk result (KeepsNames labels.old labels.new) }
{
    note_all(journal, events)?;
    match events {
        [] => Ok(Vec::new(alloc)),
        [Event::Change(..)] => Ok(Vec::new(alloc)),
        _ => {
            let told = tell_each(alloc, labels, events, traced)?;
            Ok(told)
        }
    }
}

/// Tells of events, one by one, each by the labels of its moment, and notes them, if a journal was begun. Mostly there is none, or one change,
/// of which nothing is told.
///
/// # Errors
///
/// `NoMemory` where memory ran out.
pub fn tell_all(
    alloc: Global,
    labels: &mut Labels,
    journal: &mut Option<Recorder>,
    events: &[Event],
) -> Result<Vec<Entry>, NoMemory>
    ensures entries { (ts : List plain.Event) → AreTold events.now ts → IfOk result (λ es. es.items ≡ entries_of (labels_of labels.old) ts) }
    ensures labels { (ts : List plain.Event) → AreTold events.now ts → OnOk result (labels_of labels.new ≡ labels_after ts (labels_of labels.old)) }
    ensures noted { (ts : List plain.Event) → AreTold events.now ts → OnOk result (journal.new ≡ noting ts journal.old) }
    ensures names { OnOk result (KeepsNames labels.old labels.new) }
{
    let told = tell_for(alloc, labels, journal, events, true)?;
    Ok(told)
}

// What a thing is called. What was never made is called so too.
ghost use Rattle.std.specs.Prelude.{◌≡◌, ◌-◌, ◌^◌, min, IfOk, OnOk, Some, length, map, nat_eq};
ghost use Rattle.std.specs.List.{filter};
ghost use Rattle.indexmap.specs.IndexMap.{get};
ghost use Rattle.effect_tables.specs.Bodies.{thing_of};
ghost use Rattle.effect_tables.specs.Placed.{effect_of};
ghost use Rattle.live_model.specs.Labels.{child_label, is_named, label_at, label_of, lasting, name_at, named_at, nobody, unmade, with_label};
ghost use Rattle.live_labels.specs.Views.{labels_of};

use crate::labels::Labels;
use effect_tables::{Effect, Thing};
use indexmap::IndexMap;
use live_cmd::NameList;
use live_entries::{ChildPath, Label};
use sig_base::{EffectId, Name, NameFault, NoMemory, NodeId, WatcherId};
use std::alloc::Global;

// A number as a place in a list, or the last place of all.
fn place_of(number: u64) -> usize
    ensures { result ≡ min number (2 ^ 64 - 1) }
{
    usize::try_from(number).unwrap_or(usize::MAX)
}

// What nothing that was made is called.
fn nobody(alloc: Global) -> Result<Name, NoMemory>
    ensures { IfOk result (λ n. n ≡ nobody) }
{
    match Name::new(alloc, "unnamed") {
        Ok(name) => Ok(name),
        Err(NameFault::NoMemory(fault)) => Err(fault),
        Err(NameFault::Bad) => unreachable!(),
    }
}

/// The name of what has a number.
pub(crate) fn name_at(alloc: Global, names: &[Name], number: u64) -> Result<Name, NoMemory>
    ensures { IfOk result (λ n. n ≡ name_at names.now number) }
{
    match names.get(place_of(number)) {
        Some(name) => {
            let name = name.copy()?;
            Ok(name)
        }
        None => {
            let name = nobody(alloc)?;
            Ok(name)
        }
    }
}

/// The names of signals.
pub fn names_of_signals(alloc: Global, names: &[Name], ids: &[NodeId]) -> Result<NameList, NoMemory>
    ensures { IfOk result (λ l. l ≡ map (name_at names.now) ids.now) }
{
    let mut found = Vec::with_capacity(alloc, ids.len())?;
    for id in ids {
        found.push(name_at(alloc, names, id.number())?)?;
    }
    Ok(NameList::of(found))
}

/// The names of watchers.
pub(crate) fn names_of_watchers(
    alloc: Global,
    names: &[Name],
    watchers: &[WatcherId],
) -> Result<NameList, NoMemory>
    ensures { IfOk result (λ l. l ≡ map (name_at names.now) watchers.now) }
{
    let mut found = Vec::new(alloc);
    for watcher in watchers {
        found.push(name_at(alloc, names, watcher.number())?)?;
    }
    Ok(NameList::of(found))
}

// The label of what was never made: that of no command, and of no child, since the first has the number 1.
fn unmade(alloc: Global) -> Result<Label, NoMemory>
    ensures { IfOk result (λ l. l ≡ unmade) }
{
    let name = nobody(alloc)?;
    let mut numbers = Vec::new(alloc);
    numbers.push(0)?;
    Ok(Label {
        name,
        path: ChildPath::of(numbers),
    })
}

// The label of what a command made.
fn named_at(alloc: Global, names: &[Name], number: u64) -> Result<Label, NoMemory>
    ensures { IfOk result (λ l. l ≡ named_at names.now number) }
{
    match names.get(place_of(number)) {
        Some(name) => {
            let name = name.copy()?;
            Ok(Label::named(alloc, name))
        }
        None => {
            let label = unmade(alloc)?;
            Ok(label)
        }
    }
}

/// The label of an effect.
pub(crate) fn label_at(
    alloc: Global,
    labels: &IndexMap<u64, Label>,
    id: EffectId,
) -> Result<Label, NoMemory>
    ensures { IfOk result (λ l. l ≡ label_at (get nat_eq labels.now) id) }
{
    match labels.get(&id.number()) {
        Some(label) => {
            let label = label.copy()?;
            Ok(label)
        }
        None => {
            let label = unmade(alloc)?;
            Ok(label)
        }
    }
}

/// The label of a thing.
pub(crate) fn label_of(alloc: Global, labels: &Labels, thing: &Thing) -> Result<Label, NoMemory>
    ensures { IfOk result (λ l. l ≡ label_of (labels_of labels.now) (thing_of thing.now)) }
{
    match thing {
        Thing::Signal(id) => {
            let label = named_at(alloc, &labels.signals, id.number())?;
            Ok(label)
        }
        Thing::Owner(id) => {
            let label = named_at(alloc, &labels.owners, id.number())?;
            Ok(label)
        }
        Thing::Effect(id) => {
            let label = label_at(alloc, &labels.effects, *id)?;
            Ok(label)
        }
        Thing::Page(id) => {
            let label = named_at(alloc, &labels.pages, id.number())?;
            Ok(label)
        }
        Thing::Watcher(id) => {
            let label = named_at(alloc, &labels.watchers, id.number())?;
            Ok(label)
        }
    }
}

// The label of the child of a number.
fn child_label(alloc: Global, parent: &Label, number: u64) -> Result<Label, NoMemory>
    ensures { IfOk result (λ l. l ≡ child_label parent.now number) }
{
    let name = parent.name.copy()?;
    let mut numbers = Vec::from_slice(alloc, parent.path.as_slice())?;
    numbers.push(number)?;
    Ok(Label {
        name,
        path: ChildPath::of(numbers),
    })
}

/// An effect gets a label.
///
/// # Errors
///
/// `NoMemory` where memory ran out.
pub fn label_effect(
    labels: &mut IndexMap<u64, Label>,
    id: EffectId,
    label: Label,
) -> Result<(), NoMemory>
    ensures { OnOk result (get nat_eq labels.new ≡ with_label id (Some label) (get nat_eq labels.old)) }
{
    labels.insert(id.number(), label)?;
    Ok(())
}

/// A child gets its label, by that of its parent.
pub(crate) fn name_child(
    alloc: Global,
    labels: &mut IndexMap<u64, Label>,
    child: EffectId,
    parent: EffectId,
    number: u64,
) -> Result<(), NoMemory>
    ensures { OnOk result (get nat_eq labels.new
        ≡ with_label child (Some (child_label (label_at (get nat_eq labels.old) parent) number)) (get nat_eq labels.old)) }
{
    let parent = label_at(alloc, labels, parent)?;
    let label = child_label(alloc, &parent, number)?;
    label_effect(labels, child, label)?;
    Ok(())
}

// Whether a command made what has this label.
fn is_named(label: &Label) -> bool
    ensures { result ≡ is_named label.now }
{
    label.path.as_slice().len() == 0
}

// Whether a command made the effect of a number.
fn is_made_by_name(labels: &IndexMap<u64, Label>, id: EffectId) -> bool
    ensures { result ≡ is_named (label_at (get nat_eq labels.now) id) }
{
    match labels.get(&id.number()) {
        Some(label) => is_named(label),
        None => false,
    }
}

/// The label of an effect goes out, unless a command made it.
pub(crate) fn unname_child(labels: &mut IndexMap<u64, Label>, id: EffectId)
    ensures { get nat_eq labels.new ≡ with_label id (lasting (get nat_eq labels.old id)) (get nat_eq labels.old) }
{
    if is_made_by_name(labels, id) {
        return;
    }
    labels.swap_remove(&id.number());
}

/// How many of these effects a command made.
pub fn named_count(labels: &IndexMap<u64, Label>, effects: &[Effect]) -> usize
    ensures { result ≡ length (filter (λ x. is_named (label_at (get nat_eq labels.now) x.number)) (map effect_of effects.now)) }
{
    let mut count = 0;
    for effect in effects {
        if is_made_by_name(labels, effect.id) {
            count += 1;
        }
    }
    count
}

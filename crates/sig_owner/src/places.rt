// Where things stand: nodes and pages by the owner that has them, effects by the owner that was made for them.
ghost use Rattle.std.specs.Prelude.{◌≡◌, Some, None, if◌then◌else◌, OnOk, OnErr};
ghost use Rattle.sig_owner.specs.declared.thing.Thing.{Thing as AThing};
ghost use Rattle.sig_owner.specs.Keys.{are_gone_in, hinted, is_gone_in, placed, same_key};

use crate::thing::{Thing, Undoing};
use indexmap::IndexMap;
use sig_base::{NoMemory, OwnerId};

// The place that is noted for a thing.
fn place_of(places: &IndexMap<Thing, OwnerId>, thing: &Thing) -> Option<OwnerId>
    ensures { result ≡ placed places.now thing.now }
{
    places.get(thing).copied()
}

/// Where a thing's row is, or the row under which it stands.
pub(crate) fn hint_of(places: &IndexMap<Thing, OwnerId>, thing: &Thing) -> Option<OwnerId>
    ensures { result ≡ hinted (placed places.now) thing.now }
{
    match thing {
        Thing::Owner(id) => Some(*id),
        _ => place_of(places, thing),
    }
}

/// Notes the place of a thing; without memory all is as before.
pub(crate) fn note_place(
    places: &mut IndexMap<Thing, OwnerId>,
    thing: &Thing,
    id: OwnerId,
) -> Result<(), NoMemory>
    ensures ok { OnOk result ((t : AThing) → placed places.new t ≡ (if same_key thing.now t then Some id else placed places.old t)) }
    ensures err { OnErr result ((t : AThing) → placed places.new t ≡ placed places.old t) }
{
    places.insert(*thing, id)?;
    Ok(())
}

/// Forgets the place of a thing.
pub(crate) fn forget(places: &mut IndexMap<Thing, OwnerId>, thing: &Thing)
    ensures { (t : AThing) → placed places.new t ≡ (if same_key thing.now t then None else placed places.old t) }
{
    let _place = places.swap_remove(thing);
}

// Forgets the place of the thing that is gone in a step.
fn forget_one(places: &mut IndexMap<Thing, OwnerId>, undoing: &Undoing)
    ensures { (t : AThing) → placed places.new t ≡ (if is_gone_in undoing.now t then None else placed places.old t) }
{
    match undoing {
        Undoing::Gone(thing) => forget(places, thing),
        Undoing::Cleanup(_, _) => {}
    }
}

/// Forgets the places of the things that are gone in these steps.
pub(crate) fn forget_each(places: &mut IndexMap<Thing, OwnerId>, undoings: &[Undoing])
    ensures { (t : AThing) → placed places.new t ≡ (if are_gone_in undoings.now t then None else placed places.old t) }
{
    for undoing in undoings {
        forget_one(places, undoing);
    }
}

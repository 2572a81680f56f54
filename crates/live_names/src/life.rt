// Whether things live.
ghost use Rattle.std.specs.Prelude.{◌≡◌, List, map, option_map};
ghost use Rattle.signal_model.specs.Signals.{is_in};
ghost use Rattle.effect_model.specs.Worlds.{effect_numbers, lives};
ghost use Rattle.effect_tables.specs.Bodies.{thing_of};
ghost use Rattle.effect_tables.specs.Placed.{effect_of};
ghost use Rattle.sig_host.specs.Hosts.{HostPlace};
ghost use Rattle.effect_world.specs.Wholes.{whole_of};
ghost use Rattle.live_model.specs.Names as plain;

use effect_tables::{Effect, Thing};
use effect_world::World;
use live_model::Kind;
use sig_base::{EffectId, NodeId, OwnerId, PageId, WatcherId};

// Whether an effect is among these.
fn is_effect_among(effects: &[Effect], id: EffectId) -> bool
    ensures { result ≡ is_in id (effect_numbers (map effect_of effects.now)) }
{
    for effect in effects {
        if id == effect.id {
            return true;
        }
    }
    false
}

/// Whether a page is among these.
pub fn is_page_among(pages: &[PageId], id: PageId) -> bool
    ensures { result ≡ is_in id pages.now }
{
    for page in pages {
        if id == *page {
            return true;
        }
    }
    false
}

/// Whether a thing lives.
#[inline(always)]
pub fn lives(world: &World, thing: &Thing) -> bool
    ensures { (asked : List HostPlace) → result ≡ lives (thing_of thing.now) (whole_of asked world.now) }
{
    match thing {
        Thing::Signal(id) => world.is_signal(*id),
        Thing::Owner(id) => world.tables.is_open(Some(*id)),
        Thing::Effect(id) => is_effect_among(&world.tables.effects, *id),
        Thing::Page(id) => is_page_among(&world.tables.pages, *id),
        Thing::Watcher(id) => world.watchers.is_alive(*id),
    }
}

/// What of a kind can be disposed, by its number.
#[inline(always)]
pub(crate) fn thing_of(kind: Kind, number: u64) -> Option<Thing>
    ensures { option_map thing_of result ≡ plain.thing_of kind number }
{
    match kind {
        Kind::Cell | Kind::List | Kind::Computed => Some(Thing::Signal(NodeId::of(number))),
        Kind::Owner => Some(Thing::Owner(OwnerId::of(number))),
        Kind::Effect => Some(Thing::Effect(EffectId::of(number))),
        Kind::Watcher => Some(Thing::Watcher(WatcherId::of(number))),
        Kind::Template => None,
        Kind::Page => Some(Thing::Page(PageId::of(number))),
    }
}

// Whether a thing was disposed; what can't be was not.
#[inline(always)]
fn has_ended(world: &World, thing: Option<Thing>) -> bool
    ensures { (asked : List HostPlace) → result ≡ plain.has_ended (whole_of asked world.now) (option_map thing_of thing) }
{
    match thing {
        None => false,
        Some(thing) => !lives(world, &thing),
    }
}

/// Whether what was made is gone.
#[inline(always)]
pub(crate) fn is_gone(world: &World, kind: Kind, number: u64) -> bool
    ensures { (asked : List HostPlace) → result ≡ plain.is_gone (whole_of asked world.now) kind number }
{
    let thing = thing_of(kind, number);
    has_ended(world, thing)
}

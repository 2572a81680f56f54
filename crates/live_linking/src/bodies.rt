// What the places in the body of an effect stand for.
ghost use Rattle.std.specs.Prelude.{◌≡◌, IfOk, map, if◌then◌else◌};
ghost use Rattle.sig_untrack.specs.Stated.{before, rewiring, Bodies};
ghost use Rattle.effect_tables.specs.declared.links.Target.TheVariants as target;
ghost use Rattle.effect_tables.specs.Bodies.{links_before};
ghost use Rattle.live_model.specs.Links.{links_of, target_named, thing_meant, thing_or_none};
ghost use Rattle.live_model.specs.Names.{number_of};

use crate::sources::signals_of;
use effect_tables::{Links, Slots, Target, Thing};
use live_model::{Kind, Meaning};
use live_names::Names;
use sig_base::{EffectId, Name, NoMemory, NodeId, OwnerId, PageId, WatcherId};
use sig_untrack::{Body, Rewire};
use std::alloc::Global;

// The thing of a kind and a number.
fn thing_meant(kind: Kind, number: u64) -> Thing
    ensures { result ≡ thing_meant kind number }
{
    match kind {
        Kind::Cell | Kind::List | Kind::Computed => Thing::Signal(NodeId::of(number)),
        Kind::Owner => Thing::Owner(OwnerId::of(number)),
        Kind::Effect => Thing::Effect(EffectId::of(number)),
        Kind::Watcher => Thing::Watcher(WatcherId::of(number)),
        Kind::Page => Thing::Page(PageId::of(number)),
        Kind::Template => Thing::Signal(NodeId::of(0)),
    }
}

// The thing that a name stands for.
fn thing_or_none(meaning: Option<Meaning>) -> Thing
    ensures { result ≡ thing_or_none meaning }
{
    match meaning {
        None => Thing::Signal(NodeId::of(0)),
        Some(meaning) => thing_meant(meaning.kind, meaning.number),
    }
}

// What a statement acts on, where it names this thing, or the effect itself by its own name.
fn target_of(is_own: bool, thing: Thing) -> Target
    ensures { result ≡ (if is_own then target.This else target.Thing thing) }
{
    if is_own {
        Target::This
    } else {
        Target::Thing(thing)
    }
}

// What statements act on, in a body of the effect that has its own name, or of none.
fn targets_of(
    alloc: Global,
    names: &Names,
    own: &str,
    targets: &[Name],
) -> Result<Vec<Target>, NoMemory>
    ensures { IfOk result (λ ts. ts.items ≡ map (target_named names.now own.now) targets.now) }
{
    let mut found = Vec::new(alloc);
    for name in targets {
        let thing = thing_or_none(names.meaning_of(name));
        found.push(target_of(own == name.as_str(), thing))?;
    }
    Ok(found)
}

// The signals of the names of rewirings.
fn rewires_of(alloc: Global, names: &Names, rewires: &[Rewire]) -> Result<Vec<Slots>, NoMemory>
    ensures { IfOk result (λ ss. map (λ s. s.ids.items) ss.items ≡ map (λ r. map (number_of names.now) r.names) (map rewiring rewires.now)) }
{
    let mut found = Vec::new(alloc);
    for rewire in rewires {
        let ids = signals_of(alloc, names, &rewire.names)?;
        found.push(Slots { ids })?;
    }
    Ok(found)
}

/// What the places of a body stand for, those of its nested effects too, by the names that stand there. The own name of the effect
/// stands for the effect itself; the body of a handler belongs to no effect, and has the empty name.
pub fn links_of(alloc: Global, names: &Names, own: &str, body: &Body) -> Result<Links, NoMemory>
    ensures { IfOk result (λ l. (others : Bodies) → links_before l (links_of names.now own.now others) ≡ links_of names.now own.now (before body.now others)) }
{
    let mut inner = Vec::new(alloc);
    for nested in &body.effects {
        inner.push(links_of(alloc, names, own, nested)?)?;
    }
    let signals = signals_of(alloc, names, &body.names)?;
    let targets = targets_of(alloc, names, own, &body.targets)?;
    let rewires = rewires_of(alloc, names, &body.rewires)?;
    Ok(Links {
        names: signals,
        targets,
        inner,
        rewires,
    })
}

// Owners, effects and pages are made; want of memory is the only fault.
ghost use Rattle.std.specs.Prelude.{◌≡◌, ◌<◌, true, [], List, IfOk, IfErr, OnOk, length};
ghost use Rattle.signal_model.specs.Recipes.{Hosts};
ghost use Rattle.effect_model.specs.Commands.{with_new_effect, with_new_owner, with_new_page};
ghost use Rattle.effect_tables.specs.Scripts.{IsFitting};
ghost use Rattle.effect_tables.specs.Bodies.{body_of};
ghost use Rattle.effect_tables.specs.Owners.{living};
ghost use Rattle.effect_tables.specs.Placed.{is_open};
ghost use Rattle.sig_base.specs.declared.limits.TheConstants.{MOST_PAGES};
ghost use Rattle.effect_model.specs.declared.limits.TheConstants.{MOST_OWNERS};
ghost use Rattle.sig_host.specs.Hosts.{HostPlace};
ghost use Rattle.sig_effect.specs.declared.errors.EffectFault.TheVariants as fault;
ghost use Rattle.effect_world.specs.Stores.{Agrees, AreOwned, Does, IsSound};
ghost use Rattle.effect_world.specs.Wholes.{stores_of};

use effect_tables::Script;
use effect_world::World;
use sig_base::{EffectId, OwnerId, PageId};
use sig_effect::EffectFault;
use sig_owner::OwnFault;
use std::alloc::Global;

/// Makes an owner inside one that lives, or at the top, where there is room for one.
pub(crate) fn make_owner(world: &mut World, inside: Option<OwnerId>) -> Result<OwnerId, EffectFault>
    requires owned { AreOwned world.old }
    requires open { is_open (living 0 world.old.tables.owners.items) inside ≡ true }
    requires room { length (living 0 world.old.tables.owners.items) < MOST_OWNERS }
    ensures id { IfOk result (λ id. id ≡ length world.old.tables.owners.items) }
    ensures does { (hosts : Hosts) (asked : List HostPlace) → IsSound hosts asked world.old →
        OnOk result (Does hosts asked asked world.old world.new [] [] (with_new_owner inside)) }
    ensures agrees { (asked : List HostPlace) → Agrees asked world.old → OnOk result (Agrees asked world.new) }
    ensures signals { stores_of world.new ≡ stores_of world.old }
    ensures memory { IfErr result (λ e. e ≡ fault.NoMemory) }
{
    match world.make_owner(inside) {
        Ok(id) => Ok(id),
        Err(OwnFault::NoMemory) => Err(EffectFault::NoMemory),
        Err(OwnFault::Gone) => unreachable!(),
        Err(OwnFault::Limit) => unreachable!(),
    }
}

/// Makes an effect of a script inside an owner that lives, or at the top. Its clauses are those of the making of an effect in the world;
/// that the owner lives is asked for besides, so that what refuses it there is gone, and only memory may be wanting.
pub(crate) fn make_effect(
    alloc: Global,
    world: &mut World,
    script: Script,
    inside: Option<OwnerId>,
) -> Result<EffectId, EffectFault>
    requires owned { AreOwned world.old }
    requires open { is_open (living 0 world.old.tables.owners.items) inside ≡ true }
    requires fitting { IsFitting script }
    ensures id { IfOk result (λ id. id ≡ world.old.tables.effects_made) }
    ensures does { (hosts : Hosts) (asked : List HostPlace) → IsSound hosts asked world.old → OnOk result
        (Does hosts asked asked world.old world.new [] [] (with_new_effect (body_of world.old.tables.effects_made script []) inside)) }
    ensures agrees { (asked : List HostPlace) → Agrees asked world.old → OnOk result (Agrees asked world.new) }
    ensures signals { stores_of world.new ≡ stores_of world.old }
    ensures memory { IfErr result (λ e. e ≡ fault.NoMemory) }
{
    match world.make_effect(alloc, script, inside) {
        Ok(id) => Ok(id),
        Err(OwnFault::NoMemory) => Err(EffectFault::NoMemory),
        Err(OwnFault::Gone) => unreachable!(),
        Err(OwnFault::Limit) => unreachable!(),
    }
}

/// Makes a page inside an owner that lives, or at the top, where there is room for one. Its clauses are those of the making of a page in
/// the world; what would refuse it there, an owner that is gone or too many pages, is asked for in two clauses, so that only memory may
/// be wanting.
pub(crate) fn make_page(world: &mut World, inside: Option<OwnerId>) -> Result<PageId, EffectFault>
    requires owned { AreOwned world.old }
    requires open { is_open (living 0 world.old.tables.owners.items) inside ≡ true }
    requires room { length world.old.tables.pages.items < MOST_PAGES }
    ensures id { IfOk result (λ id. id ≡ world.old.tables.pages_made) }
    ensures does { (hosts : Hosts) (asked : List HostPlace) → IsSound hosts asked world.old →
        OnOk result (Does hosts asked asked world.old world.new [] [] (with_new_page inside)) }
    ensures agrees { (asked : List HostPlace) → Agrees asked world.old → OnOk result (Agrees asked world.new) }
    ensures signals { stores_of world.new ≡ stores_of world.old }
    ensures memory { IfErr result (λ e. e ≡ fault.NoMemory) }
{
    match world.make_page(inside) {
        Ok(id) => Ok(id),
        Err(OwnFault::NoMemory) => Err(EffectFault::NoMemory),
        Err(OwnFault::Gone) => unreachable!(),
        Err(OwnFault::Limit) => unreachable!(),
    }
}

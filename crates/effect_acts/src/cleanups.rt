// An effect notes cleanups.
ghost use Rattle.std.specs.Prelude.{◌≡◌, ◌⊎◌, [], ℕ, true, false, List, IfErr, OnOk, IsErrOf};
ghost use Rattle.effect_model.specs.Owners as owning;
ghost use Rattle.effect_model.specs.Owners.{put_under, the_effect};
ghost use Rattle.effect_model.specs.Worlds.{noted, tell};
ghost use Rattle.sig_host.specs.Hosts.{HostPlace};
ghost use Rattle.sig_owner.specs.Tables.{cleanup_of, live_at, thing_at};
ghost use Rattle.sig_owner.specs.Trees.{owned_of};
ghost use Rattle.sig_effect.specs.declared.errors.EffectFault.TheVariants as fault;
ghost use Rattle.effect_teardown.specs.Rows.{is_tabled};
ghost use Rattle.effect_teardown.specs.Teardowns.{EndsIn};
ghost use Rattle.effect_world.specs.Signals.{any_hosts, scene};
ghost use Rattle.effect_world.specs.Stores.{Agrees, AreOwned};
ghost use Rattle.effect_world.specs.Answers.{Acted};

use effect_teardown::effect_row;
use effect_world::World;
use sig_base::{EffectId, NoMemory, OwnerId};
use sig_effect::{EffectFault, Event};
use sig_owner::{CleanupAct, Owners};

// Notes a cleanup in the store, under a row that lives.
fn note_in(store: &mut Owners, row: OwnerId, cleanup: CleanupAct) -> Result<(), NoMemory>
    requires { live_at store.old row ≡ true }
    ensures { OnOk result (EndsIn store.old store.new []
        (put_under (thing_at store.old row) (owning.cleanup (cleanup_of cleanup) owning.nothing) (owned_of store.old))) }
{
    match store.note_cleanup(row, cleanup) {
        Ok(()) => Ok(()),
        Err(_) => Err(NoMemory),
    }
}

/// Notes a cleanup, last under an effect.
///
/// # Errors
///
/// `Gone` where the effect is gone; then all is as before. After `NoMemory` the world may only be dropped.
pub fn note(
    world: &mut World,
    id: EffectId,
    cleanup: CleanupAct,
    events: &mut Vec<Event>,
) -> Result<(), EffectFault>
    requires { AreOwned world.old }
    ensures done { (asked : List HostPlace) (slacks : List ℕ) → Agrees asked world.old → OnOk result (Acted slacks
        (scene world.old asked events.old.items) (scene world.new asked events.new.items) any_hosts any_hosts 0
        (λ env w. tell (noted (the_effect id) (cleanup_of cleanup))
        (record w { owned = put_under (the_effect id) (owning.cleanup (cleanup_of cleanup) owning.nothing) w.owned }))) }
    ensures gone { IsErrOf result fault.Gone → is_tabled (the_effect id) world.old.tables ≡ false }
    ensures fault { IfErr result (λ e. (e ≡ fault.Gone) ⊎ (e ≡ fault.NoMemory)) }
    ensures err { IsErrOf result fault.Gone → world.new ≡ world.old }
{
    let Some(row) = effect_row(&world.tables, id) else {
        return Err(EffectFault::Gone);
    };
    note_in(&mut world.tables.store, row, cleanup)?;
    events.push(Event::Noted(id))?;
    Ok(())
}

// An effect makes a child.
ghost use Rattle.std.specs.Prelude.{◌≡◌, ◌⊎◌, ℕ, false, List, IfErr, OnOk, IsErrOf};
ghost use Rattle.std.specs.Rc.{rc_value};
ghost use Rattle.effect_model.specs.Owners.{the_effect};
ghost use Rattle.effect_model.specs.Runs.{make_child};
ghost use Rattle.effect_tables.specs.Scripts.{IsFitting};
ghost use Rattle.effect_teardown.specs.Sites.{parts_of};
ghost use Rattle.effect_teardown.specs.Rows.{is_tabled};
ghost use Rattle.sig_host.specs.Hosts.{HostPlace};
ghost use Rattle.sig_effect.specs.declared.errors.EffectFault.TheVariants as fault;
ghost use Rattle.effect_world.specs.Signals.{any_hosts, scene};
ghost use Rattle.effect_world.specs.Stores.{Agrees, AreOwned};
ghost use Rattle.effect_world.specs.Answers.{Acted};

use effect_tables::Site;
use effect_teardown::effect_row;
use effect_world::World;
use sig_base::EffectId;
use sig_effect::{EffectFault, Event};

/// Makes the nested effect at a place of an effect's body, which stands last under that effect. It has this number in its label.
///
/// # Errors
///
/// `Gone` where the effect is gone; then all is as before. After `NoMemory` the world may only be dropped.
pub fn make_child(
    world: &mut World,
    id: EffectId,
    site: &Site,
    place: u32,
    label: u64,
    events: &mut Vec<Event>,
) -> Result<(), EffectFault>
    requires owned { AreOwned world.old }
    requires fits { IsFitting (rc_value site.now.script) }
    ensures done { (asked : List HostPlace) (slacks : List ℕ) → Agrees asked world.old → OnOk result (Acted slacks
        (scene world.old asked events.old.items) (scene world.new asked events.new.items) any_hosts any_hosts 0
        (λ env. make_child id label ((parts_of site.now.origin (rc_value site.now.script) site.now.path.items).bodies place))) }
    ensures gone { IsErrOf result fault.Gone → is_tabled (the_effect id) world.old.tables ≡ false }
    ensures fault { IfErr result (λ e. (e ≡ fault.Gone) ⊎ (e ≡ fault.NoMemory)) }
    ensures err { IsErrOf result fault.Gone → world.new ≡ world.old }
{
    let Some(row) = effect_row(&world.tables, id) else {
        return Err(EffectFault::Gone);
    };
    let alloc = *events.allocator();
    let last = world.tables.effects.len();
    let child = world
        .tables
        .make_child(alloc, id, row, site, place as usize)?;
    world.heard.add(last);
    events.push(Event::Made {
        child,
        parent: id,
        label,
    })?;
    Ok(())
}

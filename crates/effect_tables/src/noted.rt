// Which thing each row is.
ghost use Rattle.std.specs.Prelude.{◌≡◌, ◌==◌, ℕ, None, Some, if◌then◌else◌, OnOk};
ghost use Rattle.effect_tables.specs.Things.{noted};

use crate::thing::Thing;
use indexmap::IndexMap;
use sig_base::{NoMemory, OwnerId};

/// Notes which thing a row is.
pub(crate) fn note_thing(
    things: &mut IndexMap<OwnerId, Thing>,
    row: OwnerId,
    thing: Thing,
) -> Result<(), NoMemory>
    ensures { OnOk result ((k : ℕ) → noted things.new k ≡ (if row == k then Some thing else noted things.old k)) }
{
    things.insert(row, thing)?;
    Ok(())
}

/// Which thing a row is, where it lives.
pub fn noted_thing(things: &IndexMap<OwnerId, Thing>, row: OwnerId) -> Option<Thing>
    ensures { result ≡ noted things.now row }
{
    things.get(&row).copied()
}

/// Forgets a row, which is gone.
pub fn forget_row(things: &mut IndexMap<OwnerId, Thing>, row: OwnerId)
    ensures { (k : ℕ) → noted things.new k ≡ (if row == k then None else noted things.old k) }
{
    let _thing = things.swap_remove(&row);
}

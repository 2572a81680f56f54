// What an effect has read is kept.
ghost use Rattle.std.specs.Prelude.{◌≡◌, ◌∷◌, [], Some, OnOk, option_map};
ghost use Rattle.signal_model.specs.Values.{Seen};
ghost use Rattle.std.proofs.Common.{Vec, Global};
ghost use Rattle.effect_model.specs.Worlds.{World};
ghost use Rattle.effect_tables.specs.Consistency.{TablesAgree};
ghost use Rattle.effect_tables.specs.Runs.{with_kept, IsKept};
ghost use Rattle.effect_tables.specs.Placed.{placed};

use crate::effect::Effect;
use crate::lookup::effect_place;
use crate::tables::Tables;
use sig_base::{EffectId, NoMemory};
use sig_untrack::Read;
use std::alloc::Global;

// An effect keeps the reads.
fn keep_in(effect: &mut Effect, reads: Vec<Read>)
    ensures { IsKept reads.items effect.old effect.new }
{
    effect.kept = Some(reads);
}

// One read is kept, in the list that was kept before, if any.
fn put_alone(alloc: Global, kept: &mut Option<Vec<Read>>, read: Read) -> Result<(), NoMemory>
    ensures { OnOk result (option_map (λ (v : Vec Seen Global). v.items) kept.new ≡ Some (read ∷ [])) }
{
    match kept {
        Some(reads) => {
            reads.clear();
            reads.push(read)?;
            Ok(())
        }
        None => {
            let mut reads = Vec::with_capacity(alloc, 1)?;
            reads.push(read)?;
            *kept = Some(reads);
            Ok(())
        }
    }
}

// An effect keeps one read.
fn keep_one_in(alloc: Global, effect: &mut Effect, read: Read) -> Result<(), NoMemory>
    ensures { OnOk result (IsKept (read ∷ []) effect.old effect.new) }
{
    put_alone(alloc, &mut effect.kept, read)?;
    Ok(())
}

impl Tables {
    /// The effect of a number keeps what it has read, where it lives. It takes no memory.
    pub fn keep(&mut self, id: EffectId, reads: Vec<Read>)
        requires { TablesAgree self.old }
        ensures does { (w : World) → placed self.new w ≡ with_kept id reads.items (placed self.old w) }
        ensures holds { TablesAgree self.new }
        ensures store { self.new.store ≡ self.old.store }
        ensures owners { self.new.owners ≡ self.old.owners }
        ensures made { self.new.effects_made ≡ self.old.effects_made }
    {
        let Some(place) = effect_place(&self.effects, id) else {
            return;
        };
        keep_in(&mut self.effects[place], reads);
    }

    /// The effect of a number keeps one read and no other, where it lives.
    ///
    /// # Errors
    ///
    /// After `NoMemory` the tables may only be dropped.
    pub fn keep_one(&mut self, alloc: Global, id: EffectId, read: Read) -> Result<(), NoMemory>
        requires { TablesAgree self.old }
        ensures does { OnOk result ((w : World) → placed self.new w ≡ with_kept id (read ∷ []) (placed self.old w)) }
        ensures holds { OnOk result (TablesAgree self.new) }
        ensures store { OnOk result (self.new.store ≡ self.old.store) }
        ensures owners { OnOk result (self.new.owners ≡ self.old.owners) }
        ensures made { OnOk result (self.new.effects_made ≡ self.old.effects_made) }
    {
        let Some(place) = effect_place(&self.effects, id) else {
            return Ok(());
        };
        keep_one_in(alloc, &mut self.effects[place], read)?;
        Ok(())
    }
}

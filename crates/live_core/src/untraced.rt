// A get of which no trace is asked for.
ghost use Rattle.std.specs.Prelude.{◌≡◌, ◌<◌, ◌^◌, ◌∷◌, ℕ, [], List, false, IfOk, IfErr, OnOk, map};
ghost use Rattle.signal_model.specs.Recipes.{Hosts};
ghost use Rattle.signal_model.specs.Values.{value_of};
ghost use Rattle.sig_host.specs.Hosts.{most_asked};
ghost use Rattle.sig_computed.specs.Notes.{HasRoom};
ghost use Rattle.sig_effect.specs.declared.errors.EffectFault.TheVariants as fault;
ghost use Rattle.sig_effect.specs.declared.events.Event.TheVariants as event;
ghost use Rattle.sig_effect.specs.Stores.{environment};
ghost use Rattle.effect_world.specs.Answers.{Settled};
ghost use Rattle.effect_world.specs.Signals.{scene};
ghost use Rattle.effect_world.specs.Stores.{Agrees, IsSound};
ghost use Rattle.live_cmd.specs.declared.command.Command.TheVariants as command;
ghost use Rattle.live_cmd.specs.declared.command.Verb.TheVariants as verb;
ghost use Rattle.live_model.specs.Machine.{done};
ghost use Rattle.live_model.specs.Names.{number_of};
ghost use Rattle.live_core.specs.Doing.{CanAsk, DidFor};
ghost use Rattle.live_core.specs.Views.{plain_of};

use crate::machine::Machine;
use effect_world::World;
use live_entries::Entry;
use live_labels::note_runs;
use sig_base::{Name, NoMemory, NodeId, Outcome};
use sig_computed::{RunNote, settle};
use sig_effect::EffectFault;
use sig_host::{Lent, Shelf};

// Settles a signal, gone ones too, and gives its outcome, as `World::ask` does, whose clauses it has; but the runs on the way are noted alone, and no
// event is made of them. Nothing may be noted before.
fn settled(
    world: &mut World,
    shelf: &mut Shelf,
    id: NodeId,
    notes: &mut Vec<RunNote>,
) -> Result<Outcome, NoMemory>
    requires none { notes.old.items ≡ [] }
    requires agrees { Agrees (⟦<Shelf as Lent>⟧.asked shelf.old) world.old }
    requires worn { HasRoom world.old.graph.state }
    requires counted { ⟦<Shelf as Lent>⟧.counted shelf.old }
    requires room { most_asked (⟦<Shelf as Lent>⟧.asked shelf.old) < 2 ^ 127 }
    ensures value { (hosts : Hosts) → ⟦<Shelf as Lent>⟧.answers hosts shelf.old → IsSound hosts (⟦<Shelf as Lent>⟧.asked shelf.old) world.old →
        IfOk result (λ o. o ≡ value_of hosts world.old.graph.state.signals id []) }
    ensures settled { OnOk result (Settled
        (scene world.old (⟦<Shelf as Lent>⟧.asked shelf.old) []) (scene world.new (⟦<Shelf as Lent>⟧.asked shelf.new) (map event.Run notes.new.items))
        (λ hosts. ⟦<Shelf as Lent>⟧.answers hosts shelf.old) (λ hosts. ⟦<Shelf as Lent>⟧.answers hosts shelf.new) id) }
    ensures counted { OnOk result (⟦<Shelf as Lent>⟧.counted shelf.new) }
    ensures tables { world.new.tables ≡ world.old.tables }
{
    let outcome = settle(&mut world.graph, shelf, id, notes)?;
    Ok(outcome)
}

impl Machine {
    /// Tells what a name of this number comes to, and not the runs on the way, which are noted. So it tells what `perform` tells of a `get`, but for entries
    /// that only a trace prints.
    ///
    /// # Errors
    ///
    /// `NoMemory` alone.
    pub fn get_untraced(
        &mut self,
        shelf: &mut Shelf,
        name: Name,
        number: u64,
    ) -> Result<Entry, EffectFault>
        requires can { CanAsk (⟦<Shelf as Lent>⟧.asked shelf.old) self.old (⟦<Shelf as Lent>⟧.counted shelf.old) (2 ^ 125) }
        requires known { number ≡ number_of self.old.names name }
        ensures did { (slacks : List ℕ) (count : ℕ) → IfOk result (λ e. DidFor false (⟦<Shelf as Lent>⟧.asked shelf.old) (⟦<Shelf as Lent>⟧.asked shelf.new) count
            self.old self.new (λ hosts. ⟦<Shelf as Lent>⟧.answers hosts shelf.old) (λ hosts. ⟦<Shelf as Lent>⟧.answers hosts shelf.new)
            (⟦<Shelf as Lent>⟧.counted shelf.new) (2 ^ 80)
            (e ∷ []) (λ hosts. done (environment hosts slacks) (plain_of (⟦<Shelf as Lent>⟧.asked shelf.old) self.old) (command.Named verb.Get name))) }
        ensures memory { IfErr result (λ e. e ≡ fault.NoMemory) }
    {
        let signal = NodeId::of(number);
        self.notes.clear();
        let outcome = settled(&mut self.world, shelf, signal, &mut self.notes)?;
        note_runs(&mut self.journal, &self.notes)?;
        self.notes.clear();
        Ok(Entry::Outcome(name, outcome))
    }
}

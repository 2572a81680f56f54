// Signals are asked for.
ghost use Rattle.std.specs.Prelude.{◌≡◌, ◌<◌, ◌^◌, [], IfOk, OnOk};
ghost use Rattle.signal_model.specs.Recipes.{Hosts};
ghost use Rattle.signal_model.specs.Values.{value_of};
ghost use Rattle.sig_host.specs.Hosts.{most_asked};
ghost use Rattle.sig_computed.specs.Notes.{HasRoom};
ghost use Rattle.effect_world.specs.Stores.{Agrees, IsSound};
ghost use Rattle.effect_world.specs.Answers.{Settled};
ghost use Rattle.effect_world.specs.Signals.{scene};

use crate::world::World;
use sig_base::{NoMemory, NodeId, Outcome};
use sig_computed::settle;
use sig_effect::{Event, tell_runs};
use sig_host::{Lent, Shelf};

impl World {
    /// Settles a signal, gone ones too, and gives its outcome, which is its value from scratch. The runs on the way are told in order,
    /// and the host formulas are asked exactly as they ask them.
    ///
    /// # Errors
    ///
    /// After `NoMemory` world and shelf may only be dropped.
    pub fn ask(
        &mut self,
        shelf: &mut Shelf,
        id: NodeId,
        events: &mut Vec<Event>,
    ) -> Result<Outcome, NoMemory>
        requires agrees { Agrees (⟦<Shelf as Lent>⟧.asked shelf.old) self.old }
        requires worn { HasRoom self.old.graph.state }
        requires counted { ⟦<Shelf as Lent>⟧.counted shelf.old }
        requires room { most_asked (⟦<Shelf as Lent>⟧.asked shelf.old) < 2 ^ 127 }
        ensures value { (hosts : Hosts) → ⟦<Shelf as Lent>⟧.answers hosts shelf.old → IsSound hosts (⟦<Shelf as Lent>⟧.asked shelf.old) self.old →
            IfOk result (λ o. o ≡ value_of hosts self.old.graph.state.signals id []) }
        ensures settled { OnOk result (Settled
            (scene self.old (⟦<Shelf as Lent>⟧.asked shelf.old) events.old.items) (scene self.new (⟦<Shelf as Lent>⟧.asked shelf.new) events.new.items)
            (λ hosts. ⟦<Shelf as Lent>⟧.answers hosts shelf.old) (λ hosts. ⟦<Shelf as Lent>⟧.answers hosts shelf.new) id) }
        ensures counted { OnOk result (⟦<Shelf as Lent>⟧.counted shelf.new) }
        ensures tables { self.new.tables ≡ self.old.tables }
    {
        let mut notes = Vec::new(*events.allocator());
        let outcome = settle(&mut self.graph, shelf, id, &mut notes)?;
        tell_runs(events, notes)?;
        Ok(outcome)
    }
}

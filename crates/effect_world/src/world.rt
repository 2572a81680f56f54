// The world.
ghost use Rattle.std.specs.Prelude.{◌≡◌, ℕ, List, IfOk, length, slice_get};
ghost use Rattle.signal_model.specs.Recipes.{Hosts};
ghost use Rattle.effect_model.specs.Acts.{is_free};
ghost use Rattle.effect_model.specs.Commands.{new_world};
ghost use Rattle.sig_host.specs.Hosts.{HostPlace};
ghost use Rattle.sig_effect.specs.Stores.{AreNew, AreRuled};
ghost use Rattle.effect_world.specs.Stores.{Agrees, IsSound};
ghost use Rattle.effect_world.specs.Costs.{weight};
ghost use Rattle.effect_world.specs.Wholes.{whole_of};

use effect_tables::{Heard, Tables};
use sig_base::NoMemory;
use sig_graph::Graph;
use sig_host::{Lent, Shelf};
use sig_watcher::Watchers;
use std::alloc::Global;

/// Signals and who watches them, and owners, effects and pages; and which effects need no look. Host formulas and equality rules stay with
/// the caller, who hands in those that a call needs.
pub struct World {
    pub graph: Graph,
    pub watchers: Watchers,
    pub tables: Tables,
    pub heard: Heard,
}

impl Drop for World {
    fn drop(self) {
        let World {
            graph: _,
            watchers: _,
            tables: _,
            heard: _,
        } = self;
    }
}

impl World {
    /// Nothing was made.
    ///
    /// # Errors
    ///
    /// `NoMemory` where memory ran out.
    pub fn new(alloc: Global) -> Result<World, NoMemory>
        ensures whole { (asked : List HostPlace) → AreNew asked → IfOk result (λ w. whole_of asked w ≡ new_world (length asked)) }
        ensures sound { (hosts : Hosts) (asked : List HostPlace) → AreNew asked → IfOk result (λ w. IsSound hosts asked w) }
        ensures agrees { (asked : List HostPlace) → IfOk result (λ w. Agrees asked w) }
        ensures unworn { IfOk result (λ w. w.graph.state.worn ≡ 0) }
        ensures light { IfOk result (λ w. weight w ≡ 0) }
        ensures ruled { (rules : ℕ) → IfOk result (λ w. AreRuled rules w.graph.state.signals) }
    {
        let graph = Graph::new(alloc)?;
        let watchers = Watchers::new(alloc)?;
        let tables = Tables::new(alloc)?;
        let heard = Heard::new(alloc);
        Ok(World {
            graph,
            watchers,
            tables,
            heard,
        })
    }

    /// Whether a computed can be made from the host formula of a place: it is there, and no computed asks it.
    pub fn is_free(&self, shelf: &Shelf, place: usize) -> bool
        ensures { result ≡ is_free (slice_get (whole_of (⟦<Shelf as Lent>⟧.asked shelf.now) self.now).host_states place) }
    {
        shelf.is_there(place) && !self.graph.uses_host(place)
    }
}

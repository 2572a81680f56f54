// Watchers are made, and watch.
ghost use Rattle.std.specs.Prelude.{◌≡◌, ◌⊎◌, ◌↔◌, ◌&&◌, not, true, false, [], List, length, IfErr, IfOk, IsErrOf, OnErr, OnOk};
ghost use Rattle.signal_model.specs.Recipes.{Hosts};
ghost use Rattle.effect_model.specs.declared.limits.TheConstants.{MOST_WATCHERS};
ghost use Rattle.effect_model.specs.Acts.{forget};
ghost use Rattle.effect_model.specs.Commands.{armed, changed_watcher, with_new_watcher};
ghost use Rattle.effect_model.specs.Watchers.{watches};
ghost use Rattle.sig_host.specs.Hosts.{HostPlace};
ghost use Rattle.sig_graph.specs.States.{are_there};
ghost use Rattle.sig_watcher.specs.declared.errors.WatchFault.TheVariants as refused;
ghost use Rattle.sig_watcher.specs.Tables.{is_alive, with_changed, with_new};
ghost use Rattle.sig_effect.specs.declared.errors.EffectFault.TheVariants as fault;
ghost use Rattle.effect_world.specs.Stores.{Agrees, AreOwned, Does, IsSound};

use crate::world::World;
use sig_base::{NodeId, WatcherId};
use sig_effect::EffectFault;
use sig_watcher::WatchFault;

impl World {
    /// Makes a watcher, which has no signals and is waiting; it may try a command when it is notified. Its id is the number of
    /// watchers that were made before.
    ///
    /// # Errors
    ///
    /// `Limit` where as many watchers live as may be, and `NoMemory` where memory ran out; then all is as before.
    pub fn make_watcher(&mut self, tries: bool) -> Result<WatcherId, EffectFault>
        requires owned { AreOwned self.old }
        ensures made { IfOk result (λ id. (id ≡ self.old.watchers.made) × (self.new.watchers ≡ with_new tries self.old.watchers)) }
        ensures does { (hosts : Hosts) (asked : List HostPlace) → IsSound hosts asked self.old →
            OnOk result (Does hosts asked asked self.old self.new [] [] (with_new_watcher tries)) }
        ensures agrees { (asked : List HostPlace) → Agrees asked self.old → OnOk result (Agrees asked self.new) }
        ensures graph { self.new.graph ≡ self.old.graph }
        ensures limit { IsErrOf result fault.Limit ↔ (length self.old.watchers.watchers ≡ MOST_WATCHERS) }
        ensures err { IfErr result (λ e. ((e ≡ fault.Limit) ⊎ (e ≡ fault.NoMemory)) × (self.new ≡ self.old)) }
    {
        let id = self.watchers.add(tries)?;
        Ok(id)
    }

    /// Lets a watcher watch these signals too, each once, and arms it: it is watching from then on, until it is notified.
    ///
    /// # Errors
    ///
    /// `Gone` where the watcher is gone, and `NoMemory` where memory ran out; then all is as before.
    pub fn watch(&mut self, w: WatcherId, ids: &[NodeId]) -> Result<(), EffectFault>
        requires owned { AreOwned self.old }
        ensures does { (hosts : Hosts) (asked : List HostPlace) → IsSound hosts asked self.old →
            OnOk result (Does hosts asked asked self.old self.new [] [] (changed_watcher w (armed ids.now))) }
        ensures agrees { (asked : List HostPlace) → are_there self.old.graph.state.signals ids.now ≡ true → Agrees asked self.old →
            OnOk result (Agrees asked self.new) }
        ensures graph { self.new.graph ≡ self.old.graph }
        ensures watchers { OnOk result (self.new.watchers ≡ with_changed w (armed ids.now) self.old.watchers) }
        ensures gone { IsErrOf result fault.Gone ↔ (is_alive self.old.watchers.watchers w ≡ false) }
        ensures fault { IfErr result (λ e. (e ≡ fault.Gone) ⊎ (e ≡ fault.NoMemory)) }
        ensures err { OnErr result (self.new ≡ self.old) }
    {
        self.watchers.watch(w, ids)?;
        Ok(())
    }

    /// Lets a watcher no longer watch a signal. It takes no memory.
    ///
    /// # Errors
    ///
    /// `Gone` where the watcher is gone, and `NotWatched` where it doesn't watch the signal; then all is as before.
    pub fn unwatch(&mut self, w: WatcherId, id: NodeId) -> Result<(), WatchFault>
        requires owned { AreOwned self.old }
        ensures does { (hosts : Hosts) (asked : List HostPlace) → IsSound hosts asked self.old →
            OnOk result (Does hosts asked asked self.old self.new [] [] (changed_watcher w (forget id))) }
        ensures agrees { (asked : List HostPlace) → Agrees asked self.old → OnOk result (Agrees asked self.new) }
        ensures graph { self.new.graph ≡ self.old.graph }
        ensures watchers { OnOk result (self.new.watchers ≡ with_changed w (forget id) self.old.watchers) }
        ensures gone { IsErrOf result refused.Gone ↔ (is_alive self.old.watchers.watchers w ≡ false) }
        ensures not_watched { IsErrOf result refused.NotWatched ↔
            ((is_alive self.old.watchers.watchers w && not (watches self.old.watchers.watchers w id)) ≡ true) }
        ensures err { IfErr result (λ e. ((e ≡ refused.Gone) ⊎ (e ≡ refused.NotWatched)) × (self.new ≡ self.old)) }
    {
        self.watchers.unwatch(w, id)?;
        Ok(())
    }
}

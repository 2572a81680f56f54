// Cells are set where nobody watches.
ghost use Rattle.std.specs.Prelude.{◌≡◌, ◌<◌, ◌^◌, ◌↔◌, [], false, IfOk, IfErr, IsErr, length, map};
ghost use Rattle.signal_model.specs.Signals.{is_there, standing};
ghost use Rattle.effect_model.specs.Acts.{set_cell};
ghost use Rattle.sig_state.specs.Equality.{is_alike_here};
ghost use Rattle.sig_effect.specs.Answers.{is_same};
ghost use Rattle.effect_world.specs.Answers.{told_unwatched, CanSet, Changed};

use crate::world::World;
use sig_base::{NodeId, Value};
use sig_host::EqualsRule;
use sig_state::{Gone, SetDone, set};

impl World {
    /// Gives a cell a value, as `change_cell` does, where no watcher lives, so that nobody is notified. What would be told, that the cell was
    /// changed, is put nowhere: it's for those who note it. Its clauses are those of `change_cell`, with what would be told, but that only a cell
    /// that is gone may be a reason to refuse it.
    ///
    /// # Errors
    ///
    /// `Gone` where the cell is gone; then all is as before.
    pub fn change_unwatched(
        &mut self,
        rules: &[EqualsRule],
        id: NodeId,
        value: Value,
    ) -> Result<SetDone, Gone>
        requires can { CanSet (length rules.now) (standing self.old.graph.state.signals id) }
        requires worn { self.old.graph.state.worn < 2 ^ 127 }
        requires none { self.old.watchers.watchers ≡ [] }
        ensures done { IfOk result (λ d. is_same d ≡ is_alike_here (map (λ r. r.slack) rules.now) (standing self.old.graph.state.signals id) value) }
        ensures changed { IfOk result (λ d. Changed (map (λ r. r.slack) rules.now) self.old self.new [] (told_unwatched d id) 1 (λ env. set_cell env id value)) }
        ensures tables { self.new.tables ≡ self.old.tables }
        ensures gone { IsErr result ↔ (is_there (standing self.old.graph.state.signals id) ≡ false) }
        ensures still { IfErr result (λ _. self.new ≡ self.old) }
    {
        let _made = self.graph.made();
        match set(&mut self.graph, rules, id, value) {
            Ok(SetDone::Accepted) => {
                self.heard.wake(id);
                Ok(SetDone::Accepted)
            }
            Ok(SetDone::Same) => Ok(SetDone::Same),
            Err(gone) => Err(gone),
        }
    }
}

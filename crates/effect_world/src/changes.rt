// Signals are changed.
ghost use Rattle.std.specs.Prelude.{◌≡◌, ◌∷◌, ◌<◌, ◌^◌, ℕ, List, IfOk, OnOk, length, map, if◌then◌else◌};
ghost use Rattle.signal_model.specs.Signals.{is_there, standing};
ghost use Rattle.signal_model.specs.Changes.{with_recipe, with_value};
ghost use Rattle.effect_model.specs.Acts.{rewire_signal, set_cell};
ghost use Rattle.sig_nodes.specs.Answers.{expression_of};
ghost use Rattle.sig_nodes.specs.Computations.{recipe_made};
ghost use Rattle.sig_graph.specs.States.{are_there};
ghost use Rattle.sig_state.specs.Equality.{is_alike_here};
ghost use Rattle.sig_effect.specs.Answers.{is_same};
ghost use Rattle.effect_world.specs.Stores.{Agrees};
ghost use Rattle.effect_world.specs.Answers.{Acted, CanRewire, CanSet, Changed, Refuses, Rewires};
ghost use Rattle.effect_world.specs.Signals.{scene};

use crate::world::World;
use effect_model::How;
use sig_base::{NodeId, Value};
use sig_effect::{EffectFault, Event, drop_left, tell_change, tell_notified};
use sig_graph::Recipe;
use sig_host::{EqualsRule, Lent, Shelf};
use sig_state::{Gone, SetDone, set};

impl World {
    /// Gives a cell a value, unless its equality calls it the same as the one that it has. A set that is accepted notifies watchers,
    /// in the order of making; those whose notification tried a command are told behind them, all at once.
    ///
    /// # Errors
    ///
    /// `Gone` where the cell is gone; then all is as before. After `NoMemory` the world may only be dropped.
    pub fn change_cell(
        &mut self,
        rules: &[EqualsRule],
        id: NodeId,
        value: Value,
        events: &mut Vec<Event>,
    ) -> Result<SetDone, EffectFault>
        requires can { CanSet (length rules.now) (standing self.old.graph.state.signals id) }
        requires worn { self.old.graph.state.worn < 2 ^ 127 }
        ensures done { IfOk result (λ d. is_same d ≡ is_alike_here (map (λ r. r.slack) rules.now) (standing self.old.graph.state.signals id) value) }
        ensures changed { OnOk result (Changed (map (λ r. r.slack) rules.now)
            self.old self.new events.old.items events.new.items 1 (λ env. set_cell env id value)) }
        ensures signals { IfOk result (λ d. self.new.graph.state.signals
            ≡ (if is_same d then self.old.graph.state.signals else with_value self.old.graph.state.signals id value)) }
        ensures tables { self.new.tables ≡ self.old.tables }
        ensures refuses { Refuses result (is_there (standing self.old.graph.state.signals id)) ((self.new ≡ self.old) × (events.new ≡ events.old)) }
    {
        let _made = self.graph.made();
        let mut told = Vec::with_capacity(*events.allocator(), self.watchers.live())?;
        match set(&mut self.graph, rules, id, value) {
            Ok(SetDone::Accepted) => {
                self.heard.wake(id);
                self.watchers.tell(&self.graph, id, &mut told);
                tell_change(events, id, How::Set)?;
                tell_notified(events, &told)?;
                Ok(SetDone::Accepted)
            }
            Ok(SetDone::Same) => Ok(SetDone::Same),
            Err(Gone) => Err(EffectFault::Gone),
        }
    }

    /// Gives a computed another recipe. A host formula that it asks has to be free; the one that it asked before is dropped, and told
    /// with the number of its asks.
    ///
    /// # Errors
    ///
    /// `Gone` where the computed, or a signal that a slot would stand for, is gone; then all is as before. After `NoMemory` world and
    /// shelf may only be dropped.
    pub fn rewire(
        &mut self,
        shelf: &mut Shelf,
        id: NodeId,
        recipe: Recipe,
        slots: Vec<NodeId>,
        events: &mut Vec<Event>,
    ) -> Result<(), EffectFault>
        requires can { CanRewire (⟦<Shelf as Lent>⟧.asked shelf.old) self.old id (expression_of recipe) slots.items }
        requires agrees { Agrees (⟦<Shelf as Lent>⟧.asked shelf.old) self.old }
        requires counted { ⟦<Shelf as Lent>⟧.counted shelf.old }
        ensures done { (slacks : List ℕ) → OnOk result (Acted slacks
            (scene self.old (⟦<Shelf as Lent>⟧.asked shelf.old) events.old.items) (scene self.new (⟦<Shelf as Lent>⟧.asked shelf.new) events.new.items)
            (λ hosts. ⟦<Shelf as Lent>⟧.answers hosts shelf.old) (λ hosts. ⟦<Shelf as Lent>⟧.answers hosts shelf.new) 1
            (λ env. rewire_signal id (recipe_made (expression_of recipe) slots.items))) }
        ensures counted { OnOk result (⟦<Shelf as Lent>⟧.counted shelf.new) }
        ensures rewired { OnOk result (Rewires self.old self.new events.old.items events.new.items
            (with_recipe self.old.graph.state.signals id (recipe_made (expression_of recipe) slots.items))) }
        ensures tables { self.new.tables ≡ self.old.tables }
        ensures refuses { Refuses result (are_there self.old.graph.state.signals (id ∷ slots.items))
            ((self.new ≡ self.old) × (shelf.new ≡ shelf.old) × (events.new ≡ events.old)) }
    {
        let _made = self.graph.made();
        let left = self.graph.rewire(id, recipe, slots)?;
        tell_change(events, id, How::Rewire)?;
        drop_left(shelf, left, events)?;
        Ok(())
    }
}

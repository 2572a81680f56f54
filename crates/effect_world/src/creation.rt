// Signals, owners, effects and pages are made.
ghost use Rattle.std.specs.Prelude.{◌≡◌, ◌<◌, ◌≤◌, ℕ, [], List, None, Some, IfOk, OnOk, length};
ghost use Rattle.sig_base.specs.declared.limits.TheConstants.{MOST_NODES, MOST_PAGES};
ghost use Rattle.signal_model.specs.Recipes.{Hosts};
ghost use Rattle.signal_model.specs.Changes.{live_count};
ghost use Rattle.effect_model.specs.Acts.{host_of, host_refused, with_use};
ghost use Rattle.effect_model.specs.Commands.{with_new_cell, with_new_computed, with_new_effect, with_new_owner, with_new_page};
ghost use Rattle.effect_tables.specs.Scripts.{IsFitting};
ghost use Rattle.effect_tables.specs.Bodies.{body_of};
ghost use Rattle.effect_tables.specs.Owners.{living};
ghost use Rattle.effect_tables.specs.Placed.{is_open};
ghost use Rattle.sig_host.specs.Hosts.{HostPlace};
ghost use Rattle.sig_nodes.specs.Answers.{expression_of};
ghost use Rattle.sig_nodes.specs.Computations.{recipe_made};
ghost use Rattle.sig_graph.specs.States.{CanWear};
ghost use Rattle.sig_effect.specs.Stores.{AreRuled};
ghost use Rattle.effect_model.specs.declared.limits.TheConstants.{MOST_OWNERS};
ghost use Rattle.effect_world.specs.Stores.{Agrees, AreOwned, Does, IsSound};
ghost use Rattle.effect_world.specs.Wholes.{stores_of, whole_of};
ghost use Rattle.effect_world.specs.Answers.{CanLink, MakesSignal, RefusesSignal, RefusesThing};

use crate::world::World;
use effect_tables::{Script, Tables};
use sig_base::{EffectId, NodeId, OwnerId, PageId, Value};
use sig_effect::EffectFault;
use sig_graph::Recipe;
use sig_owner::OwnFault;
use std::alloc::Global;

// Whether something can be made there.
fn is_open(tables: &Tables, inside: &Option<OwnerId>) -> bool
    ensures { result ≡ is_open (living 0 tables.now.owners.items) inside.now }
{
    tables.is_open(*inside)
}

impl World {
    /// Makes a cell of a value and the place of an equality rule, which stands last inside the owner that is given, else at the top. Its
    /// id is the number of signals that were made before.
    ///
    /// # Errors
    ///
    /// `Gone` exactly where the owner is gone, and else `Limit` exactly where as many signals live as may be; then all is as before. After
    /// `NoMemory` the world may only be dropped.
    pub fn make_cell(
        &mut self,
        value: Value,
        rule: Option<usize>,
        inside: Option<OwnerId>,
    ) -> Result<NodeId, EffectFault>
        requires worn { CanWear self.old.graph.state }
        requires owned { AreOwned self.old }
        ensures made { IfOk result (λ id. MakesSignal self.old self.new id) }
        ensures does { (hosts : Hosts) (asked : List HostPlace) → IsSound hosts asked self.old →
            OnOk result (Does hosts asked asked self.old self.new [] [] (with_new_cell value rule inside)) }
        ensures agrees { (asked : List HostPlace) → Agrees asked self.old → OnOk result (Agrees asked self.new) }
        ensures ruled { (rules : ℕ) → ((r : ℕ) → rule ≡ Some r → r < rules) → AreRuled rules self.old.graph.state.signals →
            OnOk result (AreRuled rules self.new.graph.state.signals) }
        ensures refuses { RefusesSignal result (is_open (living 0 self.old.tables.owners.items) inside)
            (live_count self.old.graph.state.signals ≡ MOST_NODES) (self.new ≡ self.old) }
    {
        if !is_open(&self.tables, &inside) {
            return Err(EffectFault::Gone);
        }
        let id = self.graph.add_cell(value, rule)?;
        match self.tables.adopt_signal(id, inside) {
            Ok(()) => Ok(id),
            Err(_) => Err(EffectFault::NoMemory),
        }
    }

    /// Makes a computed of what it asks and of the signals that its slots stand for, which stands last inside the owner that is given,
    /// else at the top. A host formula that it asks has to be free. Its id is the number of signals that were made before. That
    /// the host formula is free is asked for only where the act or the order of the stores is told, as the shelf isn't at hand.
    ///
    /// # Errors
    ///
    /// `Gone` exactly where the owner is gone, and else `Limit` exactly where as many signals live as may be; then all is as before. After
    /// `NoMemory` the world may only be dropped.
    pub fn make_computed(
        &mut self,
        recipe: Recipe,
        slots: Vec<NodeId>,
        inside: Option<OwnerId>,
    ) -> Result<NodeId, EffectFault>
        requires links { CanLink self.old.graph (expression_of recipe) slots.items }
        requires worn { CanWear self.old.graph.state }
        requires owned { AreOwned self.old }
        ensures made { IfOk result (λ id. MakesSignal self.old self.new id) }
        ensures does { (hosts : Hosts) (asked : List HostPlace) → Agrees asked self.old →
            host_refused (host_of (expression_of recipe)) (whole_of asked self.old) ≡ None → IsSound hosts asked self.old →
            OnOk result (Does hosts asked asked self.old self.new [] []
            (λ w. with_use (host_of (expression_of recipe)) (with_new_computed (recipe_made (expression_of recipe) slots.items) inside w))) }
        ensures agrees { (asked : List HostPlace) → Agrees asked self.old →
            host_refused (host_of (expression_of recipe)) (whole_of asked self.old) ≡ None → OnOk result (Agrees asked self.new) }
        ensures ruled { (rules : ℕ) → AreRuled rules self.old.graph.state.signals → OnOk result (AreRuled rules self.new.graph.state.signals) }
        ensures refuses { RefusesSignal result (is_open (living 0 self.old.tables.owners.items) inside)
            (live_count self.old.graph.state.signals ≡ MOST_NODES) (self.new ≡ self.old) }
    {
        if !is_open(&self.tables, &inside) {
            return Err(EffectFault::Gone);
        }
        let id = self.graph.add_computed(recipe, slots)?;
        match self.tables.adopt_signal(id, inside) {
            Ok(()) => Ok(id),
            Err(_) => Err(EffectFault::NoMemory),
        }
    }

    /// Makes an owner, which stands last inside the one that is given, else at the top. Its id is the number of owners that were made
    /// before.
    ///
    /// # Errors
    ///
    /// `Gone` where the owner that is given is gone, and else `Limit` where as many owners live as may be; then all is as before. After
    /// `NoMemory` the world may only be dropped.
    pub fn make_owner(&mut self, inside: Option<OwnerId>) -> Result<OwnerId, OwnFault>
        requires owned { AreOwned self.old }
        ensures id { IfOk result (λ id. id ≡ length self.old.tables.owners.items) }
        ensures does { (hosts : Hosts) (asked : List HostPlace) → IsSound hosts asked self.old →
            OnOk result (Does hosts asked asked self.old self.new [] [] (with_new_owner inside)) }
        ensures agrees { (asked : List HostPlace) → Agrees asked self.old → OnOk result (Agrees asked self.new) }
        ensures signals { stores_of self.new ≡ stores_of self.old }
        ensures refuses { RefusesThing result (is_open (living 0 self.old.tables.owners.items) inside)
            (length (living 0 self.old.tables.owners.items) < MOST_OWNERS) (MOST_OWNERS ≤ length (living 0 self.old.tables.owners.items)) (self.new ≡ self.old) }
    {
        let id = self.tables.make_owner(inside)?;
        Ok(id)
    }

    /// Makes an effect of a body and its links, which stands last inside the owner that is given, else at the top. It has not run. Its id
    /// is the number of effects that were made before.
    ///
    /// # Errors
    ///
    /// `Gone` where the owner is gone; then all is as before. It is never `Limit`: how many effects live isn't bounded here, and neither is
    /// how many statements a script has in all, nested ones counted; each body has at most `MOST_STATEMENTS` of its own. After `NoMemory`
    /// the world may only be dropped.
    pub fn make_effect(
        &mut self,
        alloc: Global,
        script: Script,
        inside: Option<OwnerId>,
    ) -> Result<EffectId, OwnFault>
        requires owned { AreOwned self.old }
        requires fits { IsFitting script }
        ensures id { IfOk result (λ id. id ≡ self.old.tables.effects_made) }
        ensures does { (hosts : Hosts) (asked : List HostPlace) → IsSound hosts asked self.old →
            OnOk result (Does hosts asked asked self.old self.new [] [] (with_new_effect (body_of self.old.tables.effects_made script []) inside)) }
        ensures agrees { (asked : List HostPlace) → Agrees asked self.old → OnOk result (Agrees asked self.new) }
        ensures signals { stores_of self.new ≡ stores_of self.old }
        ensures refuses { RefusesThing result (is_open (living 0 self.old.tables.owners.items) inside) (Unit {0}) ⊥ (self.new ≡ self.old) }
    {
        let place = self.tables.effects.len();
        let id = self.tables.make_effect(alloc, script, inside)?;
        self.heard.add(place);
        Ok(id)
    }

    /// Makes a page, which stands last inside the owner that is given, else at the top. Its id is the number of pages that were made
    /// before.
    ///
    /// # Errors
    ///
    /// `Gone` where the owner is gone, and else `Limit` where as many pages live as may be; then all is as before. After `NoMemory` the
    /// world may only be dropped.
    pub fn make_page(&mut self, inside: Option<OwnerId>) -> Result<PageId, OwnFault>
        requires owned { AreOwned self.old }
        ensures id { IfOk result (λ id. id ≡ self.old.tables.pages_made) }
        ensures does { (hosts : Hosts) (asked : List HostPlace) → IsSound hosts asked self.old →
            OnOk result (Does hosts asked asked self.old self.new [] [] (with_new_page inside)) }
        ensures agrees { (asked : List HostPlace) → Agrees asked self.old → OnOk result (Agrees asked self.new) }
        ensures signals { stores_of self.new ≡ stores_of self.old }
        ensures refuses { RefusesThing result (is_open (living 0 self.old.tables.owners.items) inside)
            (length self.old.tables.pages.items < MOST_PAGES) (MOST_PAGES ≤ length self.old.tables.pages.items) (self.new ≡ self.old) }
    {
        let id = self.tables.make_page(inside)?;
        Ok(id)
    }
}

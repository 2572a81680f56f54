// Owners, effects and pages are made.
ghost use Rattle.std.specs.Prelude.{◌≡◌, ◌+◌, ◌<◌, ◌≤◌, ◌⊎◌, ◌++◌, ◌∷◌, true, false, [], length, None, Some, IfOk, IfErr, IsErrOf, OnErr, OnOk};
ghost use Rattle.std.specs.Rc.{rc_value};
ghost use Rattle.effect_model.specs.Commands.{with_new_effect, with_new_owner, with_new_page};
ghost use Rattle.effect_model.specs.Worlds.{at_rest};
ghost use Rattle.sig_base.specs.declared.limits.TheConstants.{MOST_PAGES};
ghost use Rattle.sig_owner.specs.Tables as rows;
ghost use Rattle.sig_owner.specs.Tables.{live_at};
ghost use Rattle.sig_owner.specs.Trees.{has_thing, owned_of};
ghost use Rattle.sig_owner.specs.declared.errors.OwnFault.TheVariants as fault;
ghost use Rattle.effect_model.specs.declared.limits.TheConstants.{MOST_OWNERS};
ghost use Rattle.effect_tables.specs.Children.{adopted, with_child, Adopts, IsRowOf, MakesEffect, MakesOwner};
ghost use Rattle.effect_tables.specs.Scripts.{IsFitting};
ghost use Rattle.effect_tables.specs.Consistency.{TablesAgree};
ghost use Rattle.effect_tables.specs.Makings.{Makes};
ghost use Rattle.effect_tables.specs.Bodies.{body_of};
ghost use Rattle.effect_model.specs.Owners.{is_holder, the_effect, the_signal};
ghost use Rattle.effect_tables.specs.Owners.{living};
ghost use Rattle.effect_tables.specs.Placed.{is_open};

use crate::effect::{Effect, Script, Site};
use crate::looks::{is_open, row_inside};
use crate::noted::note_thing;
use crate::tables::Tables;
use crate::thing::Thing;
use sig_base::{EffectId, MOST_PAGES, NoMemory, NodeId, OwnerId, PageId, one_given};
use sig_owner::{OwnFault, Owners, Thing as Stored};
use std::alloc::Global;

// Makes an owner in the store, in a row that lives.
fn make_in(store: &mut Owners, outer: Option<OwnerId>) -> Result<OwnerId, OwnFault>
    requires { rows.is_open store.old outer ≡ true }
    ensures made { IfOk result (λ row. MakesOwner store.old store.new outer row) }
    ensures room { OnOk result (rows.owner_count store.old < MOST_OWNERS) }
    ensures limit { IsErrOf result fault.Limit → MOST_OWNERS ≤ rows.owner_count store.old }
    ensures gone { IsErrOf result fault.Gone → ⊥ }
    ensures err { OnErr result (store.new ≡ store.old) }
{
    let row = store.make(outer)?;
    Ok(row)
}

// Makes an owner for an effect in the store, in a row that lives.
fn make_for_in(
    store: &mut Owners,
    effect: EffectId,
    outer: Option<OwnerId>,
) -> Result<OwnerId, OwnFault>
    requires open { rows.is_open store.old outer ≡ true }
    requires lone { has_thing (the_effect effect) (owned_of store.old) ≡ false }
    ensures made { IfOk result (λ row. MakesEffect store.old store.new outer effect row) }
    ensures fault { IfErr result (λ e. e ≡ fault.NoMemory) }
{
    match store.make_for(effect, outer) {
        Ok(row) => Ok(row),
        Err(_) => Err(OwnFault::NoMemory),
    }
}

// Makes an owner for a child in the store, in a row that lives.
fn child_row(store: &mut Owners, effect: EffectId, outer: OwnerId) -> Result<OwnerId, NoMemory>
    requires lives { live_at store.old outer ≡ true }
    requires lone { has_thing (the_effect effect) (owned_of store.old) ≡ false }
    ensures { IfOk result (λ row. MakesEffect store.old store.new (Some outer) effect row) }
{
    match store.make_for(effect, Some(outer)) {
        Ok(row) => Ok(row),
        Err(_) => Err(NoMemory),
    }
}

// Puts a signal or a page last under the row that is given, if any, which lives.
fn adopt_in(store: &mut Owners, outer: Option<OwnerId>, thing: Stored) -> Result<(), OwnFault>
    requires kind { is_holder (rows.thing_of thing) ≡ false }
    requires lone { has_thing (rows.thing_of thing) (owned_of store.old) ≡ false }
    ensures adopts { OnOk result (Adopts store.old store.new outer (rows.thing_of thing)) }
    ensures fault { IfErr result (λ e. e ≡ fault.NoMemory) }
{
    let Some(row) = outer else {
        return Ok(());
    };
    match store.adopt(row, thing) {
        Ok(()) => Ok(()),
        Err(_) => Err(OwnFault::NoMemory),
    }
}

impl Tables {
    /// Whether something can be made there: at the top, or inside an owner that lives.
    pub fn is_open(&self, inside: Option<OwnerId>) -> bool
        ensures { result ≡ is_open (living 0 self.now.owners.items) inside }
    {
        is_open(&self.owners, inside)
    }

    /// Makes an owner, which stands last inside the one that is given, else at the top. Its id is the number of owners that were made
    /// before.
    ///
    /// # Errors
    ///
    /// `Gone` where the owner that is given is gone, and else `Limit` where as many owners live as may be; then all is as before.
    /// After `NoMemory` the tables may only be dropped.
    pub fn make_owner(&mut self, inside: Option<OwnerId>) -> Result<OwnerId, OwnFault>
        requires { TablesAgree self.old }
        ensures id { IfOk result (λ id. id ≡ length self.old.owners.items) }
        ensures makes { OnOk result (Makes (λ w. w) None self.old self.new (with_new_owner inside)) }
        ensures open { OnOk result (is_open (living 0 self.old.owners.items) inside ≡ true) }
        ensures gone { IsErrOf result fault.Gone → is_open (living 0 self.old.owners.items) inside ≡ false }
        ensures room { OnOk result (length (living 0 self.old.owners.items) < MOST_OWNERS) }
        ensures limit { IsErrOf result fault.Limit →
            (is_open (living 0 self.old.owners.items) inside ≡ true) × (MOST_OWNERS ≤ length (living 0 self.old.owners.items)) }
        ensures err { IfErr result (λ e. (e ≡ fault.NoMemory) ⊎ (self.new ≡ self.old)) }
    {
        let outer = row_inside(&self.owners, inside)?;
        let row = make_in(&mut self.store, outer)?;
        let id = OwnerId::of(self.owners.made());
        note_thing(&mut self.things, row, Thing::Owner(id))?;
        self.owners.add(row)?;
        Ok(id)
    }

    /// Makes an effect of a body and its links, which stands last inside the owner that is given, else at the top. It has not run. Its id
    /// is the number of effects that were made before. Beside what every making here says, it asks that ids are left and that the body of
    /// the script fits its links, and says that no limit refuses it, which the type of its faults doesn't show.
    ///
    /// # Errors
    ///
    /// `Gone` where the owner is gone; then all is as before. After `NoMemory` the tables may only be dropped.
    pub fn make_effect(
        &mut self,
        alloc: Global,
        script: Script,
        inside: Option<OwnerId>,
    ) -> Result<EffectId, OwnFault>
        requires holds { TablesAgree self.old }
        requires fits { IsFitting script }
        ensures id { IfOk result (λ id. id ≡ self.old.effects_made) }
        ensures makes { OnOk result (Makes (λ w. w) None self.old self.new (with_new_effect (body_of self.old.effects_made script []) inside)) }
        ensures open { OnOk result (is_open (living 0 self.old.owners.items) inside ≡ true) }
        ensures gone { IsErrOf result fault.Gone → is_open (living 0 self.old.owners.items) inside ≡ false }
        ensures limit { IsErrOf result fault.Limit → ⊥ }
        ensures err { IfErr result (λ e. (e ≡ fault.NoMemory) ⊎ (self.new ≡ self.old)) }
    {
        let outer = row_inside(&self.owners, inside)?;
        let made = one_given(self.effects_made)?;
        let id = EffectId::of(self.effects_made);
        let row = make_for_in(&mut self.store, id, outer)?;
        let effect = Effect::named(alloc, id, row, script)?;
        note_thing(&mut self.things, row, Thing::Effect(id))?;
        self.effects.push(effect)?;
        self.effects_made = made;
        Ok(id)
    }

    /// Makes a child of an effect that lives in this row and whose body stands there: the nested effect at a place of that body. It stands
    /// last under its parent, and has not run. Its id is the number of effects that were made before.
    ///
    /// # Errors
    ///
    /// After `NoMemory` the tables may only be dropped.
    pub fn make_child(
        &mut self,
        alloc: Global,
        parent: EffectId,
        row: OwnerId,
        site: &Site,
        place: usize,
    ) -> Result<EffectId, NoMemory>
        requires holds { TablesAgree self.old }
        requires stands { IsRowOf self.old.store parent row }
        requires fits { IsFitting (rc_value site.now.script) }
        ensures id { IfOk result (λ id. id ≡ self.old.effects_made) }
        ensures makes { OnOk result (Makes (λ w. w) None self.old self.new
            (with_child parent (body_of site.now.origin (rc_value site.now.script) (site.now.path.items ++ place ∷ [])))) }
        ensures made { OnOk result (self.new.effects_made ≡ self.old.effects_made + 1) }
    {
        let made = one_given(self.effects_made)?;
        let id = EffectId::of(self.effects_made);
        let own_row = child_row(&mut self.store, id, row)?;
        let effect = Effect::child(alloc, id, own_row, site, place)?;
        note_thing(&mut self.things, own_row, Thing::Effect(id))?;
        self.effects.push(effect)?;
        self.effects_made = made;
        Ok(id)
    }

    /// Makes a page, which stands last inside the owner that is given, else at the top. Its id is the number of pages that were made
    /// before. Each refusal has two clauses: what was so where it refused, and that it wasn't so where the page was made.
    ///
    /// # Errors
    ///
    /// `Gone` where the owner is gone, and else `Limit` where as many pages live as may be; then all is as before. After `NoMemory` the
    /// tables may only be dropped.
    pub fn make_page(&mut self, inside: Option<OwnerId>) -> Result<PageId, OwnFault>
        requires holds { TablesAgree self.old }
        ensures id { IfOk result (λ id. id ≡ self.old.pages_made) }
        ensures makes { OnOk result (Makes at_rest None self.old self.new (with_new_page inside)) }
        ensures open { OnOk result (is_open (living 0 self.old.owners.items) inside ≡ true) }
        ensures gone { IsErrOf result fault.Gone → is_open (living 0 self.old.owners.items) inside ≡ false }
        ensures room { OnOk result (length self.old.pages.items < MOST_PAGES) }
        ensures limit { IsErrOf result fault.Limit →
            (is_open (living 0 self.old.owners.items) inside ≡ true) × (MOST_PAGES ≤ length self.old.pages.items) }
        ensures err { IfErr result (λ e. (e ≡ fault.NoMemory) ⊎ (self.new ≡ self.old)) }
    {
        let outer = row_inside(&self.owners, inside)?;
        if self.pages.len() >= MOST_PAGES {
            return Err(OwnFault::Limit);
        }
        let made = one_given(self.pages_made)?;
        let id = PageId::of(self.pages_made);
        adopt_in(&mut self.store, outer, Stored::Page(id))?;
        self.pages.push(id)?;
        self.pages_made = made;
        Ok(id)
    }

    /// Puts a signal that was just made last inside the owner that is given, where one is.
    ///
    /// # Errors
    ///
    /// `Gone` where the owner is gone; then all is as before. After `NoMemory` the tables may only be dropped.
    pub fn adopt_signal(&mut self, id: NodeId, inside: Option<OwnerId>) -> Result<(), OwnFault>
        requires holds { TablesAgree self.old }
        requires lone { has_thing (the_signal id) (owned_of self.old.store) ≡ false }
        ensures makes { OnOk result (Makes at_rest (Some id) self.old self.new (adopted id inside)) }
        ensures open { OnOk result (is_open (living 0 self.old.owners.items) inside ≡ true) }
        ensures limit { IsErrOf result fault.Limit → ⊥ }
        ensures gone { IsErrOf result fault.Gone → is_open (living 0 self.old.owners.items) inside ≡ false }
        ensures err { IfErr result (λ e. (e ≡ fault.NoMemory) ⊎ (self.new ≡ self.old)) }
    {
        let outer = row_inside(&self.owners, inside)?;
        adopt_in(&mut self.store, outer, Stored::Node(id))?;
        Ok(())
    }
}

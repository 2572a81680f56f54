// Tables in which what is made stays as it can be taken back.
ghost use Rattle.std.specs.Prelude.{IfOk, OnOk};
ghost use Rattle.effect_rows.specs.Trees.{IsReady};

use crate::scripts::idle;
use effect_tables::{Tables, Thing, Undoing};
use effect_teardown::{take_back, take_out};
use sig_base::{EffectId, NoMemory, NodeId, OwnerId, PageId};
use std::alloc::Global;
use std::test::Fail;

/// Tables, and how many signals were made.
#[derive(Drop)]
pub(crate) struct Tree {
    alloc: Global,
    tables: Tables,
    signals: u64,
}

impl Tree {
    /// Nothing was made.
    pub(crate) fn new(alloc: Global) -> Result<Tree, Fail>
        ensures { IfOk result (λ t. IsReady t.signals t.tables) }
    {
        let tables = Tables::new(alloc)?;
        Ok(Tree {
            alloc,
            tables,
            signals: 0,
        })
    }

    /// Makes an owner.
    pub(crate) fn owner(&mut self, inside: Option<OwnerId>) -> Result<OwnerId, Fail>
        requires { IsReady self.old.signals self.old.tables }
        ensures { OnOk result (IsReady self.new.signals self.new.tables) }
    {
        let id = self.tables.make_owner(inside)?;
        Ok(id)
    }

    /// Makes an effect that does nothing.
    pub(crate) fn effect(&mut self, inside: Option<OwnerId>) -> Result<EffectId, Fail>
        requires { IsReady self.old.signals self.old.tables }
        ensures { OnOk result (IsReady self.new.signals self.new.tables) }
    {
        if self.tables.effects_made > 1000 {
            return Err(NoMemory)?;
        }
        let script = idle(self.alloc, Vec::new(self.alloc));
        let id = self.tables.make_effect(self.alloc, script, inside)?;
        Ok(id)
    }

    /// Makes a page.
    pub(crate) fn page(&mut self, inside: Option<OwnerId>) -> Result<PageId, Fail>
        requires { IsReady self.old.signals self.old.tables }
        ensures { OnOk result (IsReady self.new.signals self.new.tables) }
    {
        if self.tables.pages_made > 1000 {
            return Err(NoMemory)?;
        }
        let id = self.tables.make_page(inside)?;
        Ok(id)
    }

    /// Makes a signal.
    pub(crate) fn signal(&mut self, inside: Option<OwnerId>) -> Result<NodeId, Fail>
        requires { IsReady self.old.signals self.old.tables }
        ensures { OnOk result (IsReady self.new.signals self.new.tables) }
    {
        if self.signals > 1000 {
            return Err(NoMemory)?;
        }
        let id = NodeId::of(self.signals);
        self.tables.adopt_signal(id, inside)?;
        self.signals += 1;
        Ok(id)
    }

    /// Takes a thing out.
    pub(crate) fn out(&mut self, thing: Thing) -> Result<Vec<Undoing>, Fail>
        requires { IsReady self.old.signals self.old.tables }
        ensures { OnOk result (IsReady self.new.signals self.new.tables) }
    {
        let steps = take_out(&mut self.tables, thing)?;
        Ok(steps)
    }

    /// Takes back what stands under an effect.
    pub(crate) fn back(&mut self, effect: EffectId) -> Result<Vec<Undoing>, Fail>
        requires { IsReady self.old.signals self.old.tables }
        ensures { OnOk result (IsReady self.new.signals self.new.tables) }
    {
        let steps = take_back(&mut self.tables, effect)?;
        Ok(steps)
    }

    /// How many owners were made, and how many effects and pages live.
    pub(crate) fn counts(&self) -> (u64, usize, usize) {
        (
            self.tables.owners.made(),
            self.tables.effects.len(),
            self.tables.pages.len(),
        )
    }
}

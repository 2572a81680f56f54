// Effects that live.
ghost use Rattle.std.specs.Prelude.{◌≡◌, ◌++◌, ◌∷◌, [], None, IfOk};
ghost use Rattle.std.specs.Rc.{rc_value};
ghost use Rattle.effect_tables.specs.Bodies.{body_of};
ghost use Rattle.effect_tables.specs.Placed.{effect_of};

use crate::links::Links;
use sig_base::{EffectId, NoMemory, OwnerId};
use sig_untrack::{Body, Read};
use std::alloc::Global;
use std::rc::Rc;

/// The most statements of a body, those of its nested effects aside.
pub const MOST_STATEMENTS: usize = 64;

/// A body, and what its places stand for.
pub struct Script {
    pub body: Body,
    pub links: Links,
}

impl Drop for Script {
    fn drop(self) {
        let Script { body: _, links: _ } = self;
    }
}

/// An effect: the row of the store that has what stands under it; the named effect with which its body was made, and that body; the
/// places of nested effects that lead from there to its own; and the tracked reads of its last run, where it has run.
pub struct Effect {
    pub id: EffectId,
    pub row: OwnerId,
    pub origin: EffectId,
    pub script: Rc<Script>,
    pub path: Vec<usize>,
    pub kept: Option<Vec<Read>>,
}

impl Drop for Effect {
    fn drop(self) {
        let Effect {
            id: _,
            row: _,
            origin: _,
            script: _,
            path: _,
            kept: _,
        } = self;
    }
}

/// Where a body stands: the named effect with which it was made, the script of that effect, and the places of nested effects that lead
/// from there to the body.
pub struct Site {
    pub origin: EffectId,
    pub script: Rc<Script>,
    pub path: Vec<usize>,
}

impl Drop for Site {
    fn drop(self) {
        let Site {
            origin: _,
            script: _,
            path: _,
        } = self;
    }
}

// A script that is to be shared.
fn shared(alloc: Global, script: Script) -> Result<Rc<Script>, NoMemory>
    ensures { IfOk result (λ r. rc_value r ≡ script) }
{
    let shared = Rc::new(alloc, script)?;
    Ok(shared)
}

// The same script, which is shared.
fn same_script(script: &Rc<Script>) -> Result<Rc<Script>, NoMemory>
    ensures { IfOk result (λ r. rc_value r ≡ rc_value script.now) }
{
    let same = script.clone()?;
    Ok(same)
}

// The same places.
fn same_path(alloc: Global, path: &[usize]) -> Result<Vec<usize>, NoMemory>
    ensures { IfOk result (λ v. v.items ≡ path.now) }
{
    let mut same = Vec::new(alloc);
    same.extend_from_slice(path)?;
    Ok(same)
}

// Places, and one more behind them.
fn longer_path(alloc: Global, path: &[usize], place: usize) -> Result<Vec<usize>, NoMemory>
    ensures { IfOk result (λ v. v.items ≡ path.now ++ place ∷ []) }
{
    let mut longer = same_path(alloc, path)?;
    longer.push(place)?;
    Ok(longer)
}

impl Effect {
    /// Where its body stands.
    ///
    /// # Errors
    ///
    /// `NoMemory` where memory ran out.
    pub fn site(&self, alloc: Global) -> Result<Site, NoMemory>
        ensures origin { IfOk result (λ s. s.origin ≡ self.now.origin) }
        ensures script { IfOk result (λ s. rc_value s.script ≡ rc_value self.now.script) }
        ensures path { IfOk result (λ s. s.path.items ≡ self.now.path.items) }
    {
        let script = same_script(&self.script)?;
        let path = same_path(alloc, &self.path)?;
        Ok(Site {
            origin: self.origin,
            script,
            path,
        })
    }

    /// A child of an effect whose body stands there: the nested effect at a place of that body, with its row of the store. It has not run.
    pub(crate) fn child(
        alloc: Global,
        id: EffectId,
        row: OwnerId,
        site: &Site,
        place: usize,
    ) -> Result<Effect, NoMemory>
        ensures seen { IfOk result (λ x. effect_of x
            ≡ record { number = id; body = body_of site.now.origin (rc_value site.now.script) (site.now.path.items ++ place ∷ []); kept = None }) }
        ensures number { IfOk result (λ x. x.id ≡ id) }
        ensures place { IfOk result (λ x. x.row ≡ row) }
        ensures script { IfOk result (λ x. rc_value x.script ≡ rc_value site.now.script) }
    {
        let script = same_script(&site.script)?;
        let path = longer_path(alloc, &site.path, place)?;
        Ok(Effect {
            id,
            row,
            origin: site.origin,
            script,
            path,
            kept: None,
        })
    }

    /// A named effect of a script, with its row of the store. It has not run.
    pub(crate) fn named(
        alloc: Global,
        id: EffectId,
        row: OwnerId,
        script: Script,
    ) -> Result<Effect, NoMemory>
        ensures seen { IfOk result (λ x. effect_of x ≡ record { number = id; body = body_of id script []; kept = None }) }
        ensures number { IfOk result (λ x. x.id ≡ id) }
        ensures place { IfOk result (λ x. x.row ≡ row) }
        ensures script { IfOk result (λ x. rc_value x.script ≡ script) }
    {
        let script = shared(alloc, script)?;
        let path = Vec::new(alloc);
        Ok(Effect {
            id,
            row,
            origin: id,
            script,
            path,
            kept: None,
        })
    }
}

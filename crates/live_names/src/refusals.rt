// Why a name is refused at its place.
ghost use Rattle.std.specs.Prelude.{◌≡◌, ℕ, List, None, IfOk, IsTrue, map, option_map};
ghost use Rattle.effect_tables.specs.Bodies.{thing_of};
ghost use Rattle.sig_host.specs.Hosts.{HostPlace};
ghost use Rattle.effect_world.specs.Wholes.{whole_of};
ghost use Rattle.live_model.specs.Names.{first_refusal, first_within, is_signal, meaning_of, meets, misuse, refusal_at, refusal_within, thing_named};
ghost use Rattle.live_uses.specs.Views.{use_of};
ghost use Rattle.live_names.specs.Own.{own_refused};

use crate::life::{is_gone, thing_of};
use crate::names::Names;
use effect_tables::Thing;
use effect_world::World;
use live_entries::Refusal;
use live_model::{Kind, Meaning, Need};
use live_uses::Use;
use sig_base::{Name, NoMemory};

// Whether it stands for a signal.
fn is_signal(kind: Kind) -> bool
    ensures { result ≡ is_signal kind }
{
    matches!(kind, Kind::Cell | Kind::List | Kind::Computed)
}

// Whether what was made is what a place needs.
fn meets(need: Need, kind: Kind) -> bool
    ensures { result ≡ meets need kind }
{
    match need {
        Need::New => false,
        Need::Of(needed) => needed == kind,
        Need::Signal => is_signal(kind),
        Need::Thing => Kind::Template != kind,
    }
}

// Why a name that was made is refused at its place, if it is.
fn misuse(world: &World, used: &Use, meaning: Meaning) -> Result<Option<Refusal>, NoMemory>
    ensures { (asked : List HostPlace) → IfOk result (λ r. r ≡ misuse (whole_of asked world.now) (use_of used.now) meaning) }
{
    if is_gone(world, meaning.kind, meaning.number) {
        return Ok(Some(Refusal::Gone(used.name.copy()?)));
    }
    if meets(used.need, meaning.kind) {
        return Ok(None);
    }
    Ok(Some(Refusal::Kind(used.name.copy()?)))
}

// Whether a name stands for something that isn't gone and is what its place needs. Then it isn't refused.
#[inline(always)]
fn is_met(world: &World, need: Need, meaning: Option<Meaning>) -> bool
    ensures { IsTrue result → (asked : List HostPlace) (n : List ℕ) → refusal_at (whole_of asked world.now) (n, need) meaning ≡ None }
{
    let Some(known) = meaning else {
        return false;
    };
    if meets(need, known.kind) {
        return !is_gone(world, known.kind, known.number);
    }
    false
}

// Why a name is refused at its place, if it is, by what it stands for: one cause after the other is looked for.
#[inline(never)]
fn sought_refusal(
    world: &World,
    used: &Use,
    meaning: Option<Meaning>,
) -> Result<Option<Refusal>, NoMemory>
    ensures { (asked : List HostPlace) → IfOk result (λ r. r ≡ refusal_at (whole_of asked world.now) (use_of used.now) meaning) }
{
    match (used.need, meaning) {
        (Need::New, None) => Ok(None),
        (Need::New, Some(_)) => Ok(Some(Refusal::Taken(used.name.copy()?))),
        (_, None) => Ok(Some(Refusal::Unknown(used.name.copy()?))),
        (_, Some(meaning)) => {
            let refusal = misuse(world, used, meaning)?;
            Ok(refusal)
        }
    }
}

/// Why a name is refused at its place, if it is, by what it stands for. Mostly it isn't, which is seen first.
///
/// # Errors
///
/// `NoMemory` where memory ran out.
#[inline(always)]
pub fn refusal_at(
    world: &World,
    used: &Use,
    meaning: Option<Meaning>,
) -> Result<Option<Refusal>, NoMemory>
    ensures { (asked : List HostPlace) → IfOk result (λ r. r ≡ refusal_at (whole_of asked world.now) (use_of used.now) meaning) }
{
    if is_met(world, used.need, meaning) {
        return Ok(None);
    }
    let refusal = sought_refusal(world, used, meaning)?;
    Ok(refusal)
}

// Why the own name of an effect is refused in its body, if it is.
fn own_refusal(used: &Use) -> Result<Option<Refusal>, NoMemory>
    ensures { IfOk result (λ r. r ≡ own_refused (use_of used.now)) }
{
    if meets(used.need, Kind::Effect) {
        return Ok(None);
    }
    Ok(Some(Refusal::Kind(used.name.copy()?)))
}

impl Names {
    /// Why a name is refused at its place, if it is.
    pub fn refusal_of(&self, world: &World, used: &Use) -> Result<Option<Refusal>, NoMemory>
        ensures { (asked : List HostPlace) → IfOk result (λ r. r ≡ refusal_at (whole_of asked world.now) (use_of used.now) (meaning_of self.now (use_of used.now).0)) }
    {
        let refusal = refusal_at(world, used, self.meaning_of(used.name))?;
        Ok(refusal)
    }

    // Why a name is refused in the body of an effect, if it is.
    fn refusal_within(
        &self,
        world: &World,
        own: &Name,
        used: &Use,
    ) -> Result<Option<Refusal>, NoMemory>
        ensures { (asked : List HostPlace) → IfOk result (λ r. r ≡ refusal_within (whole_of asked world.now) self.now own.now (use_of used.now)) }
    {
        if own == used.name {
            let refusal = own_refusal(used)?;
            return Ok(refusal);
        }
        let refusal = self.refusal_of(world, used)?;
        Ok(refusal)
    }

    /// The refusal of the first name that has one.
    pub fn first_refusal(&self, world: &World, uses: &[Use]) -> Result<Option<Refusal>, NoMemory>
        ensures { (asked : List HostPlace) → IfOk result (λ r. r ≡ first_refusal (whole_of asked world.now) self.now (map use_of uses.now)) }
    {
        for used in uses {
            if let Some(refusal) = self.refusal_of(world, used)? {
                return Ok(Some(refusal));
            }
        }
        Ok(None)
    }

    /// The refusal of the first name in the body of an effect that has one. Its own name counts as made.
    pub fn first_within(
        &self,
        world: &World,
        own: &Name,
        uses: &[Use],
    ) -> Result<Option<Refusal>, NoMemory>
        ensures { (asked : List HostPlace) → IfOk result (λ r. r ≡ first_within (whole_of asked world.now) self.now own.now (map use_of uses.now)) }
    {
        for used in uses {
            if let Some(refusal) = self.refusal_within(world, own, used)? {
                return Ok(Some(refusal));
            }
        }
        Ok(None)
    }

    /// The thing that has a name, if it is one that can be disposed.
    pub fn thing_named(&self, name: &Name) -> Option<Thing>
        ensures { option_map thing_of result ≡ thing_named (meaning_of self.now name.now) }
    {
        match self.meaning_of(name) {
            None => None,
            Some(meaning) => thing_of(meaning.kind, meaning.number),
        }
    }
}

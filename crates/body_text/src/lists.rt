// The lists of a body that is built.
ghost use Rattle.std.specs.Prelude.{◌≡◌, ◌+◌, ◌≤◌, ◌<◌, ◌^◌, ◌++◌, ◌∷◌, [], length, map, option_map, IfOk, OnOk};
ghost use Rattle.sig_formula.specs.Trees.{tree};
ghost use Rattle.formula_text.specs.Refusals.{slot_of, slotted, with_name, with_names};
ghost use Rattle.sig_untrack.specs.Stated.{before, bodies_before, body, held_line, no_bodies, rewiring, stated, no_more, Bodies};
ghost use Rattle.effect_model.specs.Lines.{formula_of, target_of};
ghost use Rattle.body_text.specs.Parts.{most_more, size, IsBuilt, IsPut};
ghost use Rattle.body_text.specs.Statements as written;
ghost use Rattle.body_text.specs.Statements.{placed_line, rewiring_of, with_formula, with_target};

use crate::line::{PlainLine, Source};
use crate::named::NamedFormula;
use crate::stmt::{line, rewire};
use effect_model::Plain;
use line_forms::{put_new_name, slot_of};
use sig_base::{MOST_SOURCES, Name, NoMemory};
use sig_formula::Formula;
use sig_untrack::{Body, Recipe2, Rewire, Stmt};
use std::alloc::Global;

/// What the statements of a body so far act on and read, and their nested effects and rewirings.
#[derive(Drop)]
pub struct Lists {
    pub targets: Vec<Name>,
    pub names: Vec<Name>,
    pub effects: Vec<Body>,
    pub rewires: Vec<Rewire>,
}

// What a statement acts on.
fn target_of(plain: &PlainLine) -> Option<&Name>
    ensures { option_map (λ n. n.now) result ≡ target_of plain.now }
{
    match plain {
        Plain::Set(name, _) | Plain::CleanupSet(name, _) | Plain::Dispose(name) => Some(name),
        Plain::Log(_) | Plain::CleanupLog(_) => None,
    }
}

// The formula of a statement.
fn formula_of(plain: &PlainLine) -> Option<&NamedFormula>
    ensures { option_map (λ x. x.now) result ≡ formula_of plain.now }
{
    match plain {
        Plain::Set(_, formula) | Plain::CleanupSet(_, formula) => Some(formula),
        Plain::Log(formula) | Plain::CleanupLog(formula) => Some(formula),
        Plain::Dispose(_) => None,
    }
}

// The place of a target among few, where it is put if it isn't there.
fn put_target(targets: &mut Vec<Name>, name: &Name) -> Result<u32, NoMemory>
    requires { length targets.old.items + 1 < 2 ^ 32 }
    ensures put { IfOk result (λ t. (targets.new.items ≡ with_name targets.old.items name.now) × (t ≡ slot_of targets.new.items name.now)) }
    ensures few { IfOk result (λ _. length targets.new.items ≤ length targets.old.items + 1) }
{
    put_new_name(targets, name)?;
    Ok(slot_of(targets, name))
}

// Appends a target, if there is one and it isn't there.
fn put_perhaps(targets: &mut Vec<Name>, target: Option<&Name>) -> Result<(), NoMemory>
    ensures put { OnOk result (targets.new.items ≡ with_target targets.old.items (option_map (λ n. n.now) target.entry)) }
    ensures few { OnOk result (length targets.new.items ≤ length targets.old.items + 1) }
{
    match target {
        Some(target) => {
            put_new_name(targets, target)?;
            Ok(())
        }
        None => Ok(()),
    }
}

// Appends the names of a formula that aren't there, if there is one.
fn put_names(names: &mut Vec<Name>, formula: Option<&NamedFormula>) -> Result<(), NoMemory>
    ensures put { OnOk result (names.new.items ≡ with_formula names.old.items (option_map (λ x. x.now) formula.entry)) }
    ensures few { OnOk result (length names.new.items ≤ length names.old.items + MOST_SOURCES) }
{
    match formula {
        Some(formula) => {
            formula.put_names(names)?;
            Ok(())
        }
        None => Ok(()),
    }
}

// The line with places among few targets and names.
fn placed(
    alloc: Global,
    targets: &[Name],
    names: &[Name],
    plain: &PlainLine,
) -> Result<Plain<u32, u32, Formula>, NoMemory>
    requires targets { length targets.now < 2 ^ 32 }
    requires names { length names.now < 2 ^ 32 }
    ensures { IfOk result (λ b. held_line b ≡ placed_line targets.now names.now plain.now) }
{
    match plain {
        Plain::Set(name, formula) => {
            let formula = formula.among(alloc, names)?;
            Ok(Plain::Set(slot_of(targets, name), Box::into_inner(formula)))
        }
        Plain::Log(formula) => {
            let formula = formula.among(alloc, names)?;
            Ok(Plain::Log(Box::into_inner(formula)))
        }
        Plain::CleanupSet(name, formula) => {
            let formula = formula.among(alloc, names)?;
            Ok(Plain::CleanupSet(slot_of(targets, name), Box::into_inner(formula)))
        }
        Plain::CleanupLog(formula) => {
            let formula = formula.among(alloc, names)?;
            Ok(Plain::CleanupLog(Box::into_inner(formula)))
        }
        Plain::Dispose(name) => Ok(Plain::Dispose(slot_of(targets, name))),
    }
}

/// The formula over few names, where its names are put that aren't there.
pub fn put_formula(
    alloc: Global,
    names: &mut Vec<Name>,
    formula: &NamedFormula,
) -> Result<Box<Formula>, NoMemory>
    requires { length names.old.items + MOST_SOURCES < 2 ^ 32 }
    ensures put { IfOk result (λ f. (names.new.items ≡ with_names names.old.items formula.now) × (tree f.value ≡ slotted names.new.items formula.now)) }
    ensures few { IfOk result (λ _. length names.new.items ≤ length names.old.items + MOST_SOURCES) }
{
    formula.put_names(names)?;
    formula.among(alloc, names)
}

// Copies of names.
fn copied(alloc: Global, names: &[Name]) -> Result<Vec<Name>, NoMemory>
    ensures { IfOk result (λ v. v.items ≡ names.now) }
{
    let mut out = Vec::new(alloc);
    for name in names {
        out.push(name.copy()?)?;
    }
    Ok(out)
}

// A target and its source.
fn rewiring(alloc: Global, target: u32, source: Source) -> Result<Rewire, NoMemory>
    ensures { IfOk result (λ r. rewiring r ≡ rewiring_of target source) }
{
    match source {
        Source::Formula(formula) => {
            let wired = formula.into_wired();
            Ok(Rewire {
                target,
                recipe: Recipe2::Formula(wired.formula),
                names: wired.names,
            })
        }
        Source::Host(place, names) => Ok(Rewire {
            target,
            recipe: Recipe2::Host(place),
            names: copied(alloc, names.as_slice())?,
        }),
    }
}

// Appends a rewiring to few, and gives its place.
fn put_rewiring(rewires: &mut Vec<Rewire>, rewire: Rewire) -> Result<u32, NoMemory>
    requires { length rewires.old.items < 2 ^ 32 }
    ensures { IfOk result (λ n. (rewires.new.items ≡ rewires.old.items ++ rewire ∷ []) × (n ≡ length rewires.old.items)) }
{
    let place = u32::try_from(rewires.len()).unwrap_or(u32::MAX);
    rewires.push(rewire)?;
    Ok(place)
}

/// Appends the body of a nested effect to few, and gives its place.
pub fn put_effect(effects: &mut Vec<Body>, body: Body) -> Result<u32, NoMemory>
    requires { length effects.old.items < 2 ^ 32 }
    ensures { IfOk result (λ n. (effects.new.items ≡ effects.old.items ++ body ∷ []) × (n ≡ length effects.old.items)) }
{
    let place = u32::try_from(effects.len()).unwrap_or(u32::MAX);
    effects.push(body)?;
    Ok(place)
}

impl Lists {
    /// Nothing so far.
    pub fn new(alloc: Global) -> Lists
        ensures { (result.targets.items ≡ []) × (result.names.items ≡ []) × (result.effects.items ≡ []) × (result.rewires.items ≡ []) }
    {
        Lists {
            targets: Vec::new(alloc),
            names: Vec::new(alloc),
            effects: Vec::new(alloc),
            rewires: Vec::new(alloc),
        }
    }

    /// Puts what a statement of one line brings, and gives the statement.
    pub fn put(&mut self, alloc: Global, plain: &PlainLine) -> Result<Stmt, NoMemory>
        requires { size self.old + most_more < 2 ^ 32 }
        ensures { IfOk result (λ s. IsPut plain.now self.old self.new s) }
    {
        put_perhaps(&mut self.targets, target_of(plain))?;
        put_names(&mut self.names, formula_of(plain))?;
        let placed = placed(alloc, &self.targets, &self.names, plain)?;
        Ok(line(placed))
    }

    /// Puts what a rewiring brings, and gives its statement.
    pub fn put_rewire(
        &mut self,
        alloc: Global,
        name: &Name,
        source: Source,
    ) -> Result<Stmt, NoMemory>
        requires { size self.old + most_more < 2 ^ 32 }
        ensures built { IfOk result (λ s. IsBuilt (written.rewire name.now source written.done) self.old self.new (s ∷ [])) }
        ensures few { IfOk result (λ s. size self.new ≤ size self.old + most_more) }
    {
        let target = put_target(&mut self.targets, name)?;
        let rewiring = rewiring(alloc, target, source)?;
        let place = put_rewiring(&mut self.rewires, rewiring)?;
        Ok(rewire(place))
    }

    /// The body with these lists and statements.
    pub fn body(self, statements: Vec<Stmt>) -> Body
        ensures { (others : Bodies) → before result others
            ≡ body (stated statements.items no_more) self.targets.items self.names.items (bodies_before self.effects.items no_bodies)
            (map rewiring self.rewires.items) others }
    {
        Body {
            statements,
            targets: self.targets,
            names: self.names,
            effects: self.effects,
            rewires: self.rewires,
        }
    }
}

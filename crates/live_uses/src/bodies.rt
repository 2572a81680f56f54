// The names in the body of an effect.
ghost use Rattle.std.specs.Prelude.{◌≡◌, ◌++◌, IfOk, OnOk, flat_map, map};
ghost use Rattle.sig_formula.specs.Trees.{tree};
ghost use Rattle.sig_untrack.specs.Stated as stated;
ghost use Rattle.sig_untrack.specs.Stated.{before, held_line, no_bodies, put, rewiring, Stated};
ghost use Rattle.live_model.specs.Uses.{at_place, slots_in, uses_at, uses_in, uses_of_body, uses_of_plain, uses_of_rewiring, uses_of_statements};
ghost use Rattle.live_model.specs.declared.names.Kind.TheVariants as kind;
ghost use Rattle.live_model.specs.declared.names.Need.TheVariants as need;
ghost use Rattle.live_uses.specs.Views.{named_by, use_of};

use crate::slots::slots_in;
use crate::uses::{Use, put_signals, put_use};
use effect_model::Plain;
use live_model::{Kind, Need};
use sig_base::{Name, NoMemory};
use sig_formula::Formula;
use sig_untrack::{Body, Rewire, Stmt};
use std::alloc::Global;

/// What the places of a body name: its targets and names, what its nested effects use, and its rewirings.
#[derive(Clone, Copy)]
pub struct Named<'a, 'b> {
    pub targets: &'a [Name],
    pub names: &'a [Name],
    pub effects: &'b [Vec<Use<'a>>],
    pub rewires: &'a [Rewire],
}

// Puts the name at a place behind others, if there is one.
fn put_there<'a>(
    uses: &mut Vec<Use<'a>>,
    names: &'a [Name],
    place: u32,
    need: Need,
) -> Result<(), NoMemory>
    ensures { OnOk result (map use_of uses.new.items ≡ map use_of uses.old.items ++ uses_at names.now place need) }
{
    match names.get(place as usize) {
        Some(name) => {
            put_use(uses, name, need)?;
            Ok(())
        }
        None => Ok(()),
    }
}

// Puts the names of slots behind others.
fn put_slot_names<'a>(
    uses: &mut Vec<Use<'a>>,
    names: &'a [Name],
    slots: &[u32],
) -> Result<(), NoMemory>
    ensures { OnOk result (map use_of uses.new.items ≡ map use_of uses.old.items ++ flat_map (λ s. uses_at names.now s need.Signal) slots.now) }
{
    for slot in slots {
        put_there(uses, names, *slot, Need::Signal)?;
    }
    Ok(())
}

// Puts the names in a formula behind others. One that is a name, as most in effects are, takes no list.
fn put_formula<'a>(
    alloc: Global,
    uses: &mut Vec<Use<'a>>,
    names: &'a [Name],
    formula: &Formula,
) -> Result<(), NoMemory>
    ensures { OnOk result (map use_of uses.new.items
        ≡ map use_of uses.old.items ++ flat_map (λ s. uses_at names.now s need.Signal) (slots_in (tree formula.now))) }
{
    if let Formula::Slot(slot) = formula {
        return put_slot_names(uses, names, &[*slot]);
    }
    let slots = slots_in(alloc, formula)?;
    put_slot_names(uses, names, &slots)
}

// Puts a target that is to be a cell, and the names in a formula.
fn put_set<'a, 'b>(
    alloc: Global,
    uses: &mut Vec<Use<'a>>,
    named: &Named<'a, 'b>,
    target: u32,
    formula: &Formula,
) -> Result<(), NoMemory>
    ensures { OnOk result (map use_of uses.new.items ≡ map use_of uses.old.items
        ++ (uses_at named.now.targets.now target (need.Of kind.Cell) ++ uses_in (named_by named.now) (tree formula.now))) }
{
    put_there(uses, named.targets, target, Need::Of(Kind::Cell))?;
    put_formula(alloc, uses, named.names, formula)
}

/// Puts uses behind others.
pub(crate) fn put_all<'a>(uses: &mut Vec<Use<'a>>, more: &[Use<'a>]) -> Result<(), NoMemory>
    ensures { OnOk result (map use_of uses.new.items ≡ map use_of uses.old.items ++ map use_of more.now) }
{
    for used in more {
        uses.push(*used)?;
    }
    Ok(())
}

// Puts what the nested effect at a place uses, if there is one.
fn put_effect<'a>(
    uses: &mut Vec<Use<'a>>,
    effects: &[Vec<Use<'a>>],
    place: u32,
) -> Result<(), NoMemory>
    ensures { OnOk result (map use_of uses.new.items ≡ map use_of uses.old.items
        ++ at_place (map (λ v. map use_of v.items) effects.now) place) }
{
    match effects.get(place as usize) {
        Some(more) => {
            put_all(uses, more)?;
            Ok(())
        }
        None => Ok(()),
    }
}

// Puts the names in a rewiring.
fn put_rewiring<'a>(
    uses: &mut Vec<Use<'a>>,
    targets: &'a [Name],
    rewire: &'a Rewire,
) -> Result<(), NoMemory>
    ensures { OnOk result (map use_of uses.new.items ≡ map use_of uses.old.items ++ uses_of_rewiring targets.now (rewiring rewire.now)) }
{
    put_there(uses, targets, rewire.target, Need::Of(Kind::Computed))?;
    put_signals(uses, &rewire.names)?;
    Ok(())
}

// Puts the names in the rewiring at a place, if there is one.
fn put_rewired<'a, 'b>(
    uses: &mut Vec<Use<'a>>,
    named: &Named<'a, 'b>,
    place: u32,
) -> Result<(), NoMemory>
    ensures { OnOk result (map use_of uses.new.items ≡ map use_of uses.old.items
        ++ at_place (map (uses_of_rewiring named.now.targets.now) (map rewiring named.now.rewires.now)) place) }
{
    match named.rewires.get(place as usize) {
        Some(rewire) => {
            put_rewiring(uses, named.targets, rewire)?;
            Ok(())
        }
        None => Ok(()),
    }
}

// Puts the names in a statement of one line.
fn put_line<'a, 'b>(
    alloc: Global,
    uses: &mut Vec<Use<'a>>,
    named: &Named<'a, 'b>,
    line: &Plain<u32, u32, Formula>,
) -> Result<(), NoMemory>
    ensures { OnOk result (map use_of uses.new.items ≡ map use_of uses.old.items ++ uses_of_plain (named_by named.now) (held_line line.now)) }
{
    match line {
        Plain::Set(target, formula) | Plain::CleanupSet(target, formula) => {
            put_set(alloc, uses, named, *target, formula)?;
            Ok(())
        }
        Plain::Log(formula) | Plain::CleanupLog(formula) => {
            put_formula(alloc, uses, named.names, formula)?;
            Ok(())
        }
        Plain::Dispose(target) => {
            put_there(uses, named.targets, *target, Need::Thing)?;
            Ok(())
        }
    }
}

// Puts the names in a statement.
#[cycle(naming)]
fn put_statement<'a, 'b>(
    alloc: Global,
    uses: &mut Vec<Use<'a>>,
    named: &Named<'a, 'b>,
    statement: &Stmt,
) -> Result<(), NoMemory>
    ensures { OnOk result ((rest : Stated) → map use_of uses.new.items ++ uses_of_statements (named_by named.now) rest
        ≡ map use_of uses.old.items ++ uses_of_statements (named_by named.now) (put statement.now rest)) }
{
    match statement {
        Stmt::Plain(line) => {
            put_line(alloc, uses, named, line)?;
            Ok(())
        }
        Stmt::When(formula, inner) => {
            put_formula(alloc, uses, named.names, formula)?;
            put_statements(alloc, uses, named, inner)?;
            Ok(())
        }
        Stmt::Effect(place) => {
            put_effect(uses, named.effects, *place)?;
            Ok(())
        }
        Stmt::Rewire(place) => {
            put_rewired(uses, named, *place)?;
            Ok(())
        }
    }
}

// Puts the names in statements.
#[cycle(naming)]
fn put_statements<'a, 'b>(
    alloc: Global,
    uses: &mut Vec<Use<'a>>,
    named: &Named<'a, 'b>,
    statements: &[Stmt],
) -> Result<(), NoMemory>
    ensures { OnOk result ((rest : Stated) → map use_of uses.new.items ++ uses_of_statements (named_by named.now) rest
        ≡ map use_of uses.old.items ++ uses_of_statements (named_by named.now) (stated.stated statements.now rest)) }
{
    for statement in statements {
        put_statement(alloc, uses, named, statement)?;
    }
    Ok(())
}

/// The names in a body in the order of the text, those in its nested effects too.
pub fn uses_of_body<'a>(alloc: Global, body: &'a Body) -> Result<Vec<Use<'a>>, NoMemory>
    ensures { IfOk result (λ uses. map use_of uses.items ≡ uses_of_body (before body.now no_bodies)) }
{
    let mut effects = Vec::new(alloc);
    for inner in &body.effects {
        effects.push(uses_of_body(alloc, inner)?)?;
    }
    let named = Named {
        targets: &body.targets,
        names: &body.names,
        effects: &effects,
        rewires: &body.rewires,
    };
    let mut uses = Vec::new(alloc);
    put_statements(alloc, &mut uses, &named, &body.statements)?;
    Ok(uses)
}

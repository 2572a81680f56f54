// What a body answers to the values known so far.
ghost use Rattle.std.specs.Prelude.{◌≡◌, ◌∷◌, [], IfOk, None, true};
ghost use Rattle.sig_base.specs.Values.{scalar_value};
ghost use Rattle.sig_formula.specs.Evaluation.{formula_step};
ghost use Rattle.sig_formula.specs.Trees.{tree};
ghost use Rattle.effect_model.specs.declared.plain.Plain.TheVariants as plain;
ghost use Rattle.effect_model.specs.Bodies.{and_then, body_step, followed_by, guarded, if_scalar, one_first, plain_step, to_note, to_set, with_answer};
ghost use Rattle.effect_model.specs.Bodies as model;
ghost use Rattle.effect_model.specs.Owners.{sets};
ghost use Rattle.sig_untrack.specs.Stated.{Stated, before, held_line, no_bodies, put, stated, statements_of};
ghost use Rattle.sig_untrack.specs.Links.{Parts, act_of, acts_of, linked, linked_line, step_of};
ghost use Rattle.sig_untrack.specs.Stops.{answered, guarded_by, stopped};

use crate::{Act, Body, BodyStep, Stmt};
use effect_model::Plain;
use sig_base::{Fault, Known, NoMemory, Outcome, Value};
use sig_formula::{Formula, FormulaStep, formula_step};
use std::alloc::Global;

/// Why the statements were left.
#[derive(Drop)]
pub enum Stop {
    Read(u32, bool),
    Fail(Fault),
}

// The value of a formula, or why the body ends at it.
fn value_of(
    alloc: Global,
    formula: &Formula,
    tracked: &[Known],
    untracked: &[Known],
) -> Result<Result<Value, Stop>, NoMemory>
    ensures { IfOk result (λ r. answered r ≡ formula_step true (tree formula.now) None tracked.now untracked.now) }
{
    match formula_step(alloc, true, formula, None, tracked, untracked)? {
        FormulaStep::Ask(slot, tracked) => Ok(Err(Stop::Read(slot, tracked))),
        FormulaStep::End(Outcome::Good(value)) => Ok(Ok(value)),
        FormulaStep::End(Outcome::Bad(fault)) => Ok(Err(Stop::Fail(fault))),
    }
}

// Whether a guard is true, or why the body ends at it.
fn truth_of(
    alloc: Global,
    guard: &Formula,
    tracked: &[Known],
    untracked: &[Known],
) -> Result<Result<bool, Stop>, NoMemory>
    ensures { IfOk result (λ r. (inner rest : model.BodyStep) →
        with_answer (formula_step true (tree guard.now) None tracked.now untracked.now) (λ v. guarded v inner rest) ≡ guarded_by r inner rest) }
{
    match value_of(alloc, guard, tracked, untracked)? {
        Ok(Value::Bool(truth)) => Ok(Ok(truth)),
        Ok(_) => Ok(Err(Stop::Fail(Fault::Kind))),
        Err(stop) => Ok(Err(stop)),
    }
}

// An act is wanted, behind the others.
fn want(acts: &mut Vec<Act>, act: Act) -> Result<Option<Stop>, NoMemory>
    ensures { IfOk result (λ r. (p : Parts) (rest : model.BodyStep) → stopped r (acts_of p acts.new.items) rest
        ≡ followed_by (acts_of p acts.old.items) (one_first (act_of p act) rest)) }
{
    acts.push(act)?;
    Ok(None)
}

// A cell is to be set; rows are no scalar.
fn set_act(acts: &mut Vec<Act>, target: u32, value: Value) -> Result<Option<Stop>, NoMemory>
    ensures { IfOk result (λ r. (p : Parts) (rest : model.BodyStep) → stopped r (acts_of p acts.new.items) rest
        ≡ followed_by (acts_of p acts.old.items) (and_then (if_scalar value (model.acts (to_set (p.cells target) value ∷ []))) rest)) }
{
    let Some(scalar) = value.into_scalar() else {
        return Ok(Some(Stop::Fail(Fault::Kind)));
    };
    acts.push(Act::Set(target, scalar))?;
    Ok(None)
}

// A cleanup that sets a cell is to be noted; rows are no scalar.
fn cleanup_act(acts: &mut Vec<Act>, target: u32, value: Value) -> Result<Option<Stop>, NoMemory>
    ensures { IfOk result (λ r. (p : Parts) (rest : model.BodyStep) → stopped r (acts_of p acts.new.items) rest
        ≡ followed_by (acts_of p acts.old.items) (and_then (if_scalar value (model.acts (to_note (sets (p.cells target) value) ∷ []))) rest)) }
{
    let Some(scalar) = value.into_scalar() else {
        return Ok(Some(Stop::Fail(Fault::Kind)));
    };
    acts.push(Act::CleanupSet(target, scalar))?;
    Ok(None)
}

// A cell is to be set to the value of a formula.
fn set_step(
    alloc: Global,
    target: u32,
    formula: &Formula,
    tracked: &[Known],
    untracked: &[Known],
    acts: &mut Vec<Act>,
) -> Result<Option<Stop>, NoMemory>
    ensures { IfOk result (λ r. (p : Parts) (rest : model.BodyStep) → stopped r (acts_of p acts.new.items) rest
        ≡ followed_by (acts_of p acts.old.items) (and_then (plain_step (plain.Set (p.cells target) (tree formula.now)) tracked.now untracked.now) rest)) }
{
    match value_of(alloc, formula, tracked, untracked)? {
        Ok(value) => set_act(acts, target, value),
        Err(stop) => Ok(Some(stop)),
    }
}

// The value of a formula is to be logged.
fn log_step(
    alloc: Global,
    formula: &Formula,
    tracked: &[Known],
    untracked: &[Known],
    acts: &mut Vec<Act>,
) -> Result<Option<Stop>, NoMemory>
    ensures { IfOk result (λ r. (p : Parts) (rest : model.BodyStep) → stopped r (acts_of p acts.new.items) rest
        ≡ followed_by (acts_of p acts.old.items) (and_then (plain_step (plain.Log (tree formula.now)) tracked.now untracked.now) rest)) }
{
    match value_of(alloc, formula, tracked, untracked)? {
        Ok(value) => {
            let stop = want(acts, Act::Log(value))?;
            Ok(stop)
        }
        Err(stop) => Ok(Some(stop)),
    }
}

// A cleanup that sets a cell to the value of a formula is to be noted.
fn cleanup_set_step(
    alloc: Global,
    target: u32,
    formula: &Formula,
    tracked: &[Known],
    untracked: &[Known],
    acts: &mut Vec<Act>,
) -> Result<Option<Stop>, NoMemory>
    ensures { IfOk result (λ r. (p : Parts) (rest : model.BodyStep) → stopped r (acts_of p acts.new.items) rest
        ≡ followed_by (acts_of p acts.old.items) (and_then (plain_step (plain.CleanupSet (p.cells target) (tree formula.now)) tracked.now untracked.now) rest)) }
{
    match value_of(alloc, formula, tracked, untracked)? {
        Ok(value) => cleanup_act(acts, target, value),
        Err(stop) => Ok(Some(stop)),
    }
}

// A cleanup that logs the value of a formula is to be noted.
fn cleanup_log_step(
    alloc: Global,
    formula: &Formula,
    tracked: &[Known],
    untracked: &[Known],
    acts: &mut Vec<Act>,
) -> Result<Option<Stop>, NoMemory>
    ensures { IfOk result (λ r. (p : Parts) (rest : model.BodyStep) → stopped r (acts_of p acts.new.items) rest
        ≡ followed_by (acts_of p acts.old.items) (and_then (plain_step (plain.CleanupLog (tree formula.now)) tracked.now untracked.now) rest)) }
{
    match value_of(alloc, formula, tracked, untracked)? {
        Ok(value) => {
            let stop = want(acts, Act::CleanupLog(value))?;
            Ok(stop)
        }
        Err(stop) => Ok(Some(stop)),
    }
}

// One line: what it wants done stands behind the other acts.
fn line_step(
    alloc: Global,
    line: &Plain<u32, u32, Formula>,
    tracked: &[Known],
    untracked: &[Known],
    acts: &mut Vec<Act>,
) -> Result<Option<Stop>, NoMemory>
    ensures { IfOk result (λ r. (p : Parts) (rest : model.BodyStep) → stopped r (acts_of p acts.new.items) rest
        ≡ followed_by (acts_of p acts.old.items) (and_then (plain_step (linked_line p (held_line line.now)) tracked.now untracked.now) rest)) }
{
    match line {
        Plain::Set(target, formula) => {
            let stop = set_step(alloc, *target, formula, tracked, untracked, acts)?;
            Ok(stop)
        }
        Plain::Log(formula) => {
            let stop = log_step(alloc, formula, tracked, untracked, acts)?;
            Ok(stop)
        }
        Plain::CleanupSet(target, formula) => {
            let stop = cleanup_set_step(alloc, *target, formula, tracked, untracked, acts)?;
            Ok(stop)
        }
        Plain::CleanupLog(formula) => {
            let stop = cleanup_log_step(alloc, formula, tracked, untracked, acts)?;
            Ok(stop)
        }
        Plain::Dispose(target) => {
            let stop = want(acts, Act::Dispose(*target))?;
            Ok(stop)
        }
    }
}

// One statement: what it wants done stands behind the other acts.
#[cycle(steps)]
fn statement_step(
    alloc: Global,
    statement: &Stmt,
    tracked: &[Known],
    untracked: &[Known],
    acts: &mut Vec<Act>,
) -> Result<Option<Stop>, NoMemory>
    ensures { IfOk result (λ r. (p : Parts) (rest : Stated) → stopped r (acts_of p acts.new.items) (body_step (linked p rest) tracked.now untracked.now)
        ≡ followed_by (acts_of p acts.old.items) (body_step (linked p (put statement.now rest)) tracked.now untracked.now)) }
{
    match statement {
        Stmt::Plain(line) => {
            let stop = line_step(alloc, line, tracked, untracked, acts)?;
            Ok(stop)
        }
        Stmt::When(guard, inner) => match truth_of(alloc, guard, tracked, untracked)? {
            Ok(true) => {
                let stop = statements_step(alloc, inner, tracked, untracked, acts)?;
                Ok(stop)
            }
            Ok(false) => Ok(None),
            Err(stop) => Ok(Some(stop)),
        },
        Stmt::Effect(place) => {
            let stop = want(acts, Act::Effect(*place))?;
            Ok(stop)
        }
        Stmt::Rewire(place) => {
            let stop = want(acts, Act::Rewire(*place))?;
            Ok(stop)
        }
    }
}

// The statements in order, up to the first that ends the body.
#[cycle(steps)]
fn statements_step(
    alloc: Global,
    statements: &[Stmt],
    tracked: &[Known],
    untracked: &[Known],
    acts: &mut Vec<Act>,
) -> Result<Option<Stop>, NoMemory>
    ensures { IfOk result (λ r. (p : Parts) (rest : Stated) → stopped r (acts_of p acts.new.items) (body_step (linked p rest) tracked.now untracked.now)
        ≡ followed_by (acts_of p acts.old.items) (body_step (linked p (stated statements.now rest)) tracked.now untracked.now)) }
{
    for statement in statements {
        if let Some(stop) = statement_step(alloc, statement, tracked, untracked, acts)? {
            return Ok(Some(stop));
        }
    }
    Ok(None)
}

/// What a body answers to what was read so far, tracked and untracked. Its statements are evaluated in order: the answer is the first
/// slot that they need and don't know, where a tracked read is served by tracked values alone and an untracked one by either; all the
/// acts; or the first fault. What a false guard guards isn't evaluated, nor is a nested effect. A guard must be a truth, and what is set a
/// scalar, else the body fails with `kind`. `NoMemory` where the answer finds no room.
pub fn body_step(
    alloc: Global,
    body: &Body,
    tracked: &[Known],
    untracked: &[Known],
) -> Result<BodyStep, NoMemory>
    ensures { IfOk result (λ r. (p : Parts) → step_of p r
        ≡ body_step (linked p (statements_of (before body.now no_bodies))) tracked.now untracked.now) }
{
    let mut acts = Vec::new(alloc);
    let stop = statements_step(alloc, &body.statements, tracked, untracked, &mut acts)?;
    match stop {
        None => Ok(BodyStep::Acts(acts)),
        Some(Stop::Read(slot, tracked)) => Ok(BodyStep::Read { slot, tracked }),
        Some(Stop::Fail(fault)) => Ok(BodyStep::Fail(fault)),
    }
}

// What a body reads and wants done, and when an effect is due.
ghost use Rattle.std.specs.Prelude.{◌≡◌, ℕ, ◌∷◌, [], IfOk, OnOk};
ghost use Rattle.sig_base.specs.declared.scalar.Scalar.TheVariants as scalar;
ghost use Rattle.sig_formula.specs.Trees.{tree, binary, literal, slot};
ghost use Rattle.sig_formula.specs.declared.formula.BinOp.TheVariants as operator;
ghost use Rattle.effect_model.specs.declared.plain.Plain.TheVariants as plain;
ghost use Rattle.sig_untrack.specs.Stated as stated;
ghost use Rattle.sig_untrack.specs.Stated.{Stated, before, no_bodies, put, statements_of};
ghost use Rattle.sig_computed.specs.Scenes.{scene, CanSettle};
ghost use Rattle.effect_runs.specs.Evaluations.{HasNames};

use crate::scene::Scene;
use effect_model::Plain;
use effect_runs::{BodyEnd, BodyRun, evaluate_body, look};
use sig_base::{NodeId, Outcome, Scalar, Value};
use sig_formula::{BinOp, Formula};
use sig_host::{Lent, Shelf};
use sig_untrack::{Act, Body, Read, Stmt};
use std::alloc::Global;
use std::test::Fail;

// The formula that adds a number to the first slot.
fn plus(alloc: Global, number: i64) -> Result<Formula, Fail>
    ensures { IfOk result (λ f. tree f ≡ binary operator.Add (slot 0) (literal (scalar.Int number))) }
{
    let left = Box::new(alloc, Formula::Slot(0))?;
    let right = Box::new(alloc, Formula::Lit(Scalar::Int(number)))?;
    Ok(Formula::Bin(BinOp::Add, left, right))
}

// A statement that sets the first target.
fn sets(formula: Formula) -> Stmt
    ensures { (rest : Stated) → put result rest ≡ stated.plain (plain.Set 0 (tree formula)) rest }
{
    Stmt::Plain(Plain::Set(0, formula))
}

// A body of these statements, with no lists.
fn body_of(alloc: Global, statements: Vec<Stmt>) -> Body
    ensures { statements_of (before result no_bodies) ≡ stated.stated statements.items stated.no_more }
{
    Body {
        statements,
        targets: Vec::new(alloc),
        names: Vec::new(alloc),
        effects: Vec::new(alloc),
        rewires: Vec::new(alloc),
    }
}

// The body `set TARGET NAME + 1`.
fn next(alloc: Global) -> Result<Body, Fail>
    ensures { (n : ℕ) → IfOk result (λ b. HasNames b (n ∷ [])) }
{
    let formula = plus(alloc, 1)?;
    let statement = sets(formula);
    let mut statements = Vec::new(alloc);
    statements.push(statement)?;
    let body = body_of(alloc, statements);
    Ok(body)
}

// Two cells of these values.
fn cells(alloc: Global, first: i64, second: i64) -> Result<Box<Scene>, Fail>
    ensures can { IfOk result (λ s. CanSettle (scene s.value.graph (⟦<Shelf as Lent>⟧.asked s.value.shelf) s.value.notes.items)) }
    ensures counted { IfOk result (λ s. ⟦<Shelf as Lent>⟧.counted s.value.shelf) }
{
    let scene = Scene::new(alloc, first, second)?;
    Ok(Box::new(alloc, scene)?)
}

// Whether a run wants the first target set to this, and nothing else.
fn sets_to(run: &BodyRun, number: i64) -> bool {
    match &run.end {
        BodyEnd::Acts(acts) => match acts.as_slice() {
            [Act::Set(0, Scalar::Int(own))] => *own == number,
            _ => false,
        },
        BodyEnd::Fail(_) => false,
    }
}

// Whether a run read this cell alone, with this value.
fn read_alone(run: &BodyRun, cell: NodeId, number: i64) -> bool {
    match run.tracked.as_slice() {
        [read] => read.id == cell && is_good(&read.outcome, number),
        _ => false,
    }
}

// Whether an outcome is this number.
fn is_good(outcome: &Outcome, number: i64) -> bool {
    match outcome {
        Outcome::Good(Value::Int(own)) => *own == number,
        _ => false,
    }
}

// What comes of the body on the first cell.
fn run_of(alloc: Global, s: &mut Scene) -> Result<BodyRun, Fail>
    requires can { CanSettle (scene s.old.graph (⟦<Shelf as Lent>⟧.asked s.old.shelf) s.old.notes.items) }
    requires counted { ⟦<Shelf as Lent>⟧.counted s.old.shelf }
    ensures can { OnOk result (CanSettle (scene s.new.graph (⟦<Shelf as Lent>⟧.asked s.new.shelf) s.new.notes.items)) }
    ensures counted { OnOk result (⟦<Shelf as Lent>⟧.counted s.new.shelf) }
{
    let body = next(alloc)?;
    let names = [s.first];
    let run = evaluate_body(&mut s.graph, &mut s.shelf, &body, &names, &mut s.notes)?;
    Ok(run)
}

// Whether an effect is due that keeps these reads, or has never run.
fn is_due(s: &mut Scene, kept: Option<&[Read]>) -> Result<bool, Fail>
    requires can { CanSettle (scene s.old.graph (⟦<Shelf as Lent>⟧.asked s.old.shelf) s.old.notes.items) }
    requires counted { ⟦<Shelf as Lent>⟧.counted s.old.shelf }
    ensures can { OnOk result (CanSettle (scene s.new.graph (⟦<Shelf as Lent>⟧.asked s.new.shelf) s.new.notes.items)) }
    ensures counted { OnOk result (⟦<Shelf as Lent>⟧.counted s.new.shelf) }
{
    let due = look(&mut s.graph, &mut s.shelf, kept, &mut s.notes)?;
    Ok(due)
}

// Whether an effect is due before it has run, and not afterwards.
fn is_due_at_first(s: &mut Scene, kept: &[Read]) -> Result<bool, Fail>
    requires can { CanSettle (scene s.old.graph (⟦<Shelf as Lent>⟧.asked s.old.shelf) s.old.notes.items) }
    requires counted { ⟦<Shelf as Lent>⟧.counted s.old.shelf }
{
    let before = is_due(s, None)?;
    let afterwards = is_due(s, Some(kept))?;
    Ok(before && !afterwards)
}

// Whether an effect is due where the first cell has this value.
fn is_due_at(alloc: Global, number: i64, kept: &[Read]) -> Result<bool, Fail> {
    let mut s = cells(alloc, number, 5)?;
    is_due(&mut s, Some(kept))
}

// Whether a run where the first cell is 1 says and keeps what it is to.
fn runs_once(alloc: Global, s: &mut Scene) -> Result<bool, Fail>
    requires can { CanSettle (scene s.old.graph (⟦<Shelf as Lent>⟧.asked s.old.shelf) s.old.notes.items) }
    requires counted { ⟦<Shelf as Lent>⟧.counted s.old.shelf }
{
    let run = run_of(alloc, s)?;
    let said = sets_to(&run, 2) && read_alone(&run, s.first, 1);
    let first = is_due_at_first(s, &run.tracked)?;
    let elsewhere = is_due_at(alloc, 3, &run.tracked)?;
    Ok(said && first && elsewhere)
}

#[test]
fn an_effect_is_due_once_what_it_read_has_another_value(rt: HostRuntime) -> Result<(), Fail> {
    let alloc = rt.alloc();
    let mut s = cells(alloc, 1, 5)?;
    assert!(rt; runs_once(alloc, &mut s)?);
    Ok(())
}

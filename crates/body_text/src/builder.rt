// Builds the body of lines that nothing is wrong with.
ghost use Rattle.std.specs.Prelude.{◌≡◌, ◌+◌, ◌*◌, ◌≤◌, ◌<◌, ◌^◌, ◌++◌, ◌∷◌, [], length, option_map, List, IfOk, OnOk};
ghost use Rattle.sig_untrack.specs.Stated.{before, no_bodies};
ghost use Rattle.body_text.specs.declared.line.Line as given;
ghost use Rattle.body_text.specs.declared.line.Line.TheVariants.{End};
ghost use Rattle.body_text.specs.Parts.{most_more, size, BeginsSo, IsBuilt};
ghost use Rattle.body_text.specs.Statements as written;
ghost use Rattle.body_text.specs.Statements.{lines_of, Statements};
ghost use Rattle.body_text.specs.Views.{sound_lines, with_line};

use crate::judge::{MOST_BODY_LINES, ReadLine};
use crate::line::Line;
use crate::lists::{Lists, put_effect, put_formula};
use crate::named::NamedFormula;
use crate::stmt::{effect, when};
use sig_base::NoMemory;
use sig_untrack::{Body, Stmt};
use std::alloc::Global;
use std::collections::VecDeque;

// Appends a line that nothing is wrong with.
fn keep(out: &mut VecDeque<Line>, read: ReadLine) -> Result<(), NoMemory>
    ensures { OnOk result (out.new.items ≡ out.old.items ++ with_line read.line []) }
{
    if let Ok(line) = read.line {
        out.push_back(line)?;
    }
    Ok(())
}

/// The lines that nothing is wrong with.
#[tactic(auto, using(crate::proofs::Soundness::sound_more))]
pub fn sound_lines(alloc: Global, lines: Vec<ReadLine>) -> Result<VecDeque<Line>, NoMemory>
    ensures { IfOk result (λ v. v.items ≡ sound_lines lines.items) }
{
    let mut out = VecDeque::new(alloc);
    for read in lines {
        keep(&mut out, read)?;
    }
    Ok(out)
}

// A statement in a box.
fn boxed(alloc: Global, statement: Stmt) -> Result<Box<Stmt>, NoMemory>
    ensures { IfOk result (λ b. b.value ≡ statement) }
{
    let held = Box::new(alloc, statement)?;
    Ok(held)
}

// What a guard stands before, up to its `end`, which is taken too.
#[cycle(building)]
fn guarded(
    alloc: Global,
    lines: &mut VecDeque<Line>,
    lists: &mut Lists,
    formula: NamedFormula,
) -> Result<Stmt, NoMemory>
    requires { size lists.old + most_more * (1 + length lines.old.items) < 2 ^ 32 }
    ensures shorter { IfOk result (λ _. length lines.new.items ≤ length lines.old.items) }
    ensures few { IfOk result (λ _. size lists.new + most_more * length lines.new.items ≤ size lists.old + most_more * (1 + length lines.old.items)) }
    ensures built { (s : Statements) (r : List given.Line) → lines.old.items ≡ lines_of s ++ (End ∷ r)
        → IfOk result (λ w. (lines.new.items ≡ r) × IsBuilt (written.when formula s written.done) lists.old lists.new (w ∷ [])) }
{
    let formula = put_formula(alloc, &mut lists.names, &formula)?;
    let inner = block(alloc, lines, lists)?;
    Ok(when(formula, inner))
}

// A nested effect, up to its `end`, which is taken too.
#[cycle(building)]
fn nested(alloc: Global, lines: &mut VecDeque<Line>, lists: &mut Lists) -> Result<Stmt, NoMemory>
    requires { size lists.old + most_more * (1 + length lines.old.items) < 2 ^ 32 }
    ensures shorter { IfOk result (λ _. length lines.new.items ≤ length lines.old.items) }
    ensures few { IfOk result (λ _. size lists.new + most_more * length lines.new.items ≤ size lists.old + most_more * (1 + length lines.old.items)) }
    ensures built { (s : Statements) (r : List given.Line) → lines.old.items ≡ lines_of s ++ (End ∷ r)
        → IfOk result (λ w. (lines.new.items ≡ r) × IsBuilt (written.effect s written.done) lists.old lists.new (w ∷ [])) }
{
    let mut own = Lists::new(alloc);
    let statements = block(alloc, lines, &mut own)?;
    let place = put_effect(&mut lists.effects, own.body(statements))?;
    Ok(effect(place))
}

// The statement that a line begins, up to its `end` where it has one, which is taken too; `None` where it is an `end` itself.
#[cycle(building)]
fn statement(
    alloc: Global,
    lines: &mut VecDeque<Line>,
    lists: &mut Lists,
    line: Line,
) -> Result<Option<Box<Stmt>>, NoMemory>
    requires { size lists.old + most_more * (1 + length lines.old.items) < 2 ^ 32 }
    ensures shorter { IfOk result (λ _. length lines.new.items ≤ length lines.old.items) }
    ensures few { IfOk result (λ _. size lists.new + most_more * length lines.new.items ≤ size lists.old + most_more * (1 + length lines.old.items)) }
    ensures built { (s : Statements) (r : List given.Line) → line ∷ lines.old.items ≡ lines_of s ++ (End ∷ r)
        → IfOk result (λ found. BeginsSo s r lists.old lists.new lines.new.items (option_map (λ b. b.value) found)) }
{
    match line {
        Line::End => Ok(None),
        Line::Plain(plain) => {
            let statement = lists.put(alloc, &plain)?;
            Ok(Some(boxed(alloc, statement)?))
        }
        Line::Rewire(name, source) => {
            let statement = lists.put_rewire(alloc, &name, source)?;
            Ok(Some(boxed(alloc, statement)?))
        }
        Line::When(formula) => {
            let statement = guarded(alloc, lines, lists, formula)?;
            Ok(Some(boxed(alloc, statement)?))
        }
        Line::Effect => {
            let statement = nested(alloc, lines, lists)?;
            Ok(Some(boxed(alloc, statement)?))
        }
    }
}

// The statements up to the `end` that closes them, which is taken too.
#[cycle(building)]
fn block(
    alloc: Global,
    lines: &mut VecDeque<Line>,
    lists: &mut Lists,
) -> Result<Vec<Stmt>, NoMemory>
    requires { size lists.old + most_more * length lines.old.items < 2 ^ 32 }
    ensures shorter { IfOk result (λ _. length lines.new.items ≤ length lines.old.items) }
    ensures few { IfOk result (λ _. size lists.new + most_more * length lines.new.items ≤ size lists.old + most_more * length lines.old.items) }
    ensures built { (s : Statements) (r : List given.Line) → lines.old.items ≡ lines_of s ++ (End ∷ r)
        → IfOk result (λ w. (lines.new.items ≡ r) × IsBuilt s lists.old lists.new w.items) }
{
    let mut out = Vec::new(alloc);
    while let Some(line) = lines.pop_front() {
        let Some(statement) = statement(alloc, lines, lists, line)? else {
            return Ok(out);
        };
        out.push(Box::into_inner(statement))?;
    }
    Ok(out)
}

/// The body that few lines spell.
pub fn body_of(alloc: Global, lines: VecDeque<Line>) -> Result<Body, NoMemory>
    requires { length lines.items ≤ MOST_BODY_LINES }
    ensures { (s : Statements) → lines.items ≡ lines_of s → IfOk result (λ b. before b no_bodies ≡ written.body_of s) }
{
    let mut lines = lines;
    lines.push_back(Line::End)?;
    let mut lists = Lists::new(alloc);
    let statements = block(alloc, &mut lines, &mut lists)?;
    Ok(lists.body(statements))
}

// Bodies that log what one name shows, and do nothing else.
ghost use Rattle.std.specs.Prelude.{◌≡◌, IfSome};
ghost use Rattle.sig_formula.specs.Trees.{slot};
ghost use Rattle.effect_model.specs.declared.plain.Plain.TheVariants as lines;
ghost use Rattle.sig_untrack.specs.Stated.{Stated, before, held_line, no_bodies, no_more, plain, put, statements_of};

use crate::{Body, Stmt};
use effect_model::Plain;
use sig_formula::Formula;

// The slot that a line logs.
fn slot_of_line(line: &Plain<u32, u32, Formula>) -> Option<u32>
    ensures { IfSome result (λ s. held_line line.now ≡ lines.Log (slot s)) }
{
    match line {
        Plain::Log(Formula::Slot(slot)) => Some(*slot),
        _ => None,
    }
}

// The slot that a statement logs.
fn slot_of_statement(statement: &Stmt) -> Option<u32>
    ensures { IfSome result (λ s. (rest : Stated) → put statement.now rest ≡ plain (lines.Log (slot s)) rest) }
{
    match statement {
        Stmt::Plain(line) => slot_of_line(line),
        _ => None,
    }
}

/// The slot that a body logs, where that is all that it does.
pub fn logged_slot(body: &Body) -> Option<u32>
    ensures { IfSome result (λ s. statements_of (before body.now no_bodies) ≡ plain (lines.Log (slot s)) no_more) }
{
    match body.statements.as_slice() {
        [statement] => slot_of_statement(statement),
        _ => None,
    }
}

// The canonical text of a formula.
ghost use Rattle.std.specs.Prelude.{◌≡◌, ◌++◌, codes, OnOk};
ghost use Rattle.sig_formula.specs.Trees.{tree};
ghost use Rattle.formula_text.specs.Canonical.{canonical_text, minimal, named, opened, operator_text, shut, unslotted, written};
ghost use Rattle.formula_text.specs.Grammar.{it_dot};
ghost use Rattle.formula_text.specs.RoundTrips.{text_of_wiring};

use crate::operators::operator_bytes;
use crate::reader::{CHOICE, NEGATION, before, level};
use crate::wired::Wired;
use sig_base::{Name, NoMemory, put_scalar};
use sig_formula::{BinOp, Formula};

/// Appends the canonical text of a formula whose slots have names: one space on each side of an operator and behind `not`,
/// `if`, `then`, `else` and a comma, and parentheses exactly where the grammar needs them. A slot without a name is written as nothing.
pub fn put_formula(out: &mut Vec<u8>, wired: &Wired) -> Result<(), NoMemory>
    ensures { OnOk result (out.new.items ≡ out.old.items ++ text_of_wiring wired.now) }
{
    put_at(out, &wired.names, &wired.formula, CHOICE)
}

/// The same of a formula whose slots have these names.
pub fn put_formula_of(out: &mut Vec<u8>, names: &[Name], formula: &Formula) -> Result<(), NoMemory>
    ensures { OnOk result (out.new.items ≡ out.old.items ++ canonical_text (unslotted names.now (tree formula.now))) }
{
    put_at(out, names, formula, CHOICE)
}

fn put_operator(out: &mut Vec<u8>, operator: BinOp) -> Result<(), NoMemory>
    ensures { OnOk result (out.new.items ≡ out.old.items ++ operator_text operator) }
{
    out.extend_from_slice(operator_bytes(operator))?;
    Ok(())
}

fn put_slot(out: &mut Vec<u8>, names: &[Name], slot: u32) -> Result<(), NoMemory>
    ensures { OnOk result (out.new.items ≡ out.old.items ++ named names.now slot) }
{
    let place = slot as usize;
    if place < names.len() {
        out.extend_from_slice(names[place].as_str().as_bytes())?;
    }
    Ok(())
}

fn open_if(out: &mut Vec<u8>, grouped: bool) -> Result<(), NoMemory>
    ensures { OnOk result (out.new.items ≡ out.old.items ++ opened grouped) }
{
    if grouped {
        out.push(b'(')?;
    }
    Ok(())
}

fn close_if(out: &mut Vec<u8>, grouped: bool) -> Result<(), NoMemory>
    ensures { OnOk result (out.new.items ≡ out.old.items ++ shut grouped) }
{
    if grouped {
        out.push(b')')?;
    }
    Ok(())
}

// Appends a part of a row.
fn put_row_part(out: &mut Vec<u8>, name: &[u8]) -> Result<(), NoMemory>
    ensures { OnOk result (out.new.items ≡ out.old.items ++ written (it_dot name.now)) }
{
    out.extend_from_slice(b"it.")?;
    out.extend_from_slice(name)?;
    Ok(())
}

// Appends an operator between its operands.
fn put_between(out: &mut Vec<u8>, operator: BinOp) -> Result<(), NoMemory>
    ensures { OnOk result (out.new.items ≡ out.old.items ++ (codes " " ++ (operator_text operator ++ codes " "))) }
{
    out.extend_from_slice(b" ")?;
    put_operator(out, operator)?;
    out.extend_from_slice(b" ")?;
    Ok(())
}

// Appends what stands before a formula, and the formula at a place that asks for a rule.
#[cycle(writing)]
fn put_behind(
    out: &mut Vec<u8>,
    names: &[Name],
    before: &[u8],
    formula: &Formula,
    asked: u8,
) -> Result<(), NoMemory>
    ensures { OnOk result (out.new.items ≡ out.old.items ++ (before.now ++ written (minimal asked (unslotted names.now (tree formula.now))))) }
{
    out.extend_from_slice(before)?;
    put_at(out, names, formula, asked)
}

// Appends what stands before a formula, the formula, and a closing parenthesis.
#[cycle(writing)]
fn put_closed(
    out: &mut Vec<u8>,
    names: &[Name],
    before: &[u8],
    formula: &Formula,
) -> Result<(), NoMemory>
    ensures { OnOk result (out.new.items ≡ out.old.items ++ (before.now ++ (written (minimal 0 (unslotted names.now (tree formula.now))) ++ codes ")"))) }
{
    put_behind(out, names, before, formula, CHOICE)?;
    out.push(b')')?;
    Ok(())
}

// Appends a formula at a place that asks for a rule.
#[tactic(auto, using(crate::proofs::Minimal::written_grouped))]
#[cycle(writing)]
fn put_at(out: &mut Vec<u8>, names: &[Name], formula: &Formula, asked: u8) -> Result<(), NoMemory>
    ensures { OnOk result (out.new.items ≡ out.old.items ++ written (minimal asked (unslotted names.now (tree formula.now)))) }
{
    match formula {
        Formula::Lit(scalar) => put_scalar(out, scalar),
        Formula::Slot(slot) => put_slot(out, names, *slot),
        Formula::It(field) => put_row_part(out, field.as_str().as_bytes()),
        Formula::ItKey => put_row_part(out, b"key"),
        Formula::Not(inner) => {
            open_if(out, NEGATION < asked)?;
            put_behind(out, names, b"not ", inner, NEGATION)?;
            close_if(out, NEGATION < asked)
        }
        Formula::Bin(o, left, right) => {
            open_if(out, level(*o) < asked)?;
            put_at(out, names, left, before(*o))?;
            put_between(out, *o)?;
            put_at(out, names, right, level(*o) + 1)?;
            close_if(out, level(*o) < asked)
        }
        Formula::If(test, held, other) => {
            open_if(out, CHOICE < asked)?;
            put_behind(out, names, b"if ", test, CHOICE)?;
            put_behind(out, names, b" then ", held, CHOICE)?;
            put_behind(out, names, b" else ", other, CHOICE)?;
            close_if(out, CHOICE < asked)
        }
        Formula::Count(rows) => put_closed(out, names, b"count(", rows),
        Formula::Sum(rows, part) => {
            put_behind(out, names, b"sum(", rows, CHOICE)?;
            put_closed(out, names, b", ", part)
        }
        Formula::Keep(rows, test) => {
            put_behind(out, names, b"keep(", rows, CHOICE)?;
            put_closed(out, names, b", ", test)
        }
        Formula::Untrack(inner) => put_closed(out, names, b"untrack(", inner),
    }
}

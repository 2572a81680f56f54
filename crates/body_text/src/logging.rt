// Reads the commonest body, one line that logs a name, without cutting it into tokens.
ghost use Rattle.std.specs.Prelude.{◌≡◌, ◌∷◌, ◌++◌, [], ℕ, Ok, codes, map, IfOk, IfSome};
ghost use Rattle.effect_model.specs.declared.plain.Plain.TheVariants as statement;
ghost use Rattle.script_lines.specs.Views.{line_of};
ghost use Rattle.sig_formula.specs.Trees as tree;
ghost use Rattle.sig_untrack.specs.Stated as stated;
ghost use Rattle.sig_untrack.specs.Stated.{Stated, before, no_bodies};
ghost use Rattle.body_text.specs.declared.allowance.Allowance.{Allowance};
ghost use Rattle.body_text.specs.Statements as written;
ghost use Rattle.body_text.specs.Statements.{log_of};
ghost use Rattle.body_text.specs.Verdicts.{IsRead};

use crate::lists::Lists;
use crate::stmt::line;
use effect_model::Plain;
use line_forms::{Unread, as_name};
use script_lines::NumberedLine;
use sig_base::{Name, NoMemory};
use sig_formula::Formula;
use sig_untrack::{Body, Stmt};
use std::alloc::Global;

// What stands behind bytes with which others begin.
fn behind_front<'a>(line: &'a [u8], front: &[u8]) -> Option<&'a [u8]>
    ensures { IfSome result (λ rest. line.now ≡ front.now ++ rest.now) }
{
    if line.len() < front.len() {
        return None;
    }
    let (first, rest) = line.split_at(front.len());
    if first == front { Some(rest) } else { None }
}

// The statement that logs the first name of its body.
fn log_first(alloc: Global) -> Result<Vec<Stmt>, NoMemory>
    ensures { IfOk result (λ ws. (rest : Stated) → stated.stated ws.items rest ≡ stated.plain (statement.Log (tree.slot 0)) rest) }
{
    let mut statements = Vec::with_capacity(alloc, 1)?;
    statements.push(line(Plain::Log(Formula::Slot(0))))?;
    Ok(statements)
}

// The body that logs this name.
fn body_of(alloc: Global, name: Name) -> Result<Body, NoMemory>
    ensures { IfOk result (λ b. before b no_bodies ≡ written.body_of (log_of name)) }
{
    let mut lists = Lists::new(alloc);
    lists.names.push(name)?;
    let statements = log_first(alloc)?;
    Ok(lists.body(statements))
}

// The body that this line is.
fn body_at(alloc: Global, line: &[u8]) -> Result<Body, Unread>
    ensures { (allowance : Allowance) (k : ℕ) → IfOk result (λ b. IsRead allowance ((k, line.now) ∷ []) (Ok (before b no_bodies))) }
{
    let Some(text) = behind_front(line, b"  log ") else {
        return Err(Unread::NotThere);
    };
    let name = as_name(alloc, text)?;
    let body = body_of(alloc, name)?;
    Ok(body)
}

/// The body that lines are, where they are one that logs a name, indented by two blanks and each of its parts behind one.
///
/// # Errors
///
/// `NotThere` for all others, even where they are a body; `NoMemory` where it finds no room.
pub(crate) fn logging(alloc: Global, lines: &[NumberedLine]) -> Result<Body, Unread>
    ensures { (allowance : Allowance) → IfOk result (λ b. IsRead allowance (map line_of lines.now) (Ok (before b no_bodies))) }
{
    match lines {
        [line] => body_at(alloc, line.text),
        _ => Err(Unread::NotThere),
    }
}

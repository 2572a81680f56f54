// Makes the template of lines that nothing is wrong with.
ghost use Rattle.std.specs.Prelude.{◌≡◌, ◌<◌, ◌++◌, ◌^◌, [], length, map, IfOk, OnOk};
ghost use Rattle.sig_formula.specs.Trees.{tree};
ghost use Rattle.line_forms.specs.Slots.{among_names};
ghost use Rattle.tpl_syntax.specs.Lines.{formula_of, mapped};
ghost use Rattle.tpl_syntax.specs.Views.{plan_wired, sound_lines, wired_line};
ghost use Rattle.tpl_syntax.specs.Views.{with_all, with_line, with_wired};

use crate::judge::ReadLine;
use crate::reader::Seen;
use crate::{Line, Template, TplLine};
use formula_text::Wired;
use line_forms::{formula_among, put_new_names};
use sig_base::{Name, NoMemory};
use std::alloc::Global;

// A line that nothing is wrong with.
fn wired_line(line: Line<Seen>) -> Option<Line<Wired>>
    ensures { result ≡ wired_line line }
{
    match line {
        Line::Plain(mark) => Some(Line::Plain(mark)),
        Line::Over(purpose, seen) => Some(Line::Over(purpose, seen.told.ok()?)),
    }
}

// Appends a line that nothing is wrong with.
fn keep(out: &mut Vec<Line<Wired>>, read: ReadLine) -> Result<(), NoMemory>
    ensures { OnOk result (out.new.items ≡ out.old.items ++ with_line (wired_line read.line) []) }
{
    if let Some(line) = wired_line(read.line) {
        out.push(line)?;
    }
    Ok(())
}

/// The lines that nothing is wrong with.
#[tactic(auto, using(crate::proofs::Soundness::sound_more))]
pub fn sound_lines(alloc: Global, lines: Vec<ReadLine>) -> Result<Vec<Line<Wired>>, NoMemory>
    ensures { IfOk result (λ v. v.items ≡ sound_lines lines.items) }
{
    let mut out = Vec::new(alloc);
    for read in lines {
        keep(&mut out, read)?;
    }
    Ok(out)
}

// Appends the names of a line that aren't there.
fn put_line_names(names: &mut Vec<Name>, line: &Line<Wired>) -> Result<(), NoMemory>
    ensures { OnOk result (names.new.items ≡ with_wired names.old.items (formula_of line.now)) }
{
    match line {
        Line::Plain(_) => Ok(()),
        Line::Over(_, wired) => put_new_names(names, &wired.names),
    }
}

// The distinct names of lines, in the order of the text. Each is looked for among those before it.
fn names_of(alloc: Global, lines: &[Line<Wired>]) -> Result<Vec<Name>, NoMemory>
    ensures { IfOk result (λ v. v.items ≡ with_all [] lines.now) }
{
    let mut names = Vec::new(alloc);
    for line in lines {
        put_line_names(&mut names, line)?;
    }
    Ok(names)
}

// A line over a template's names.
fn line_among(alloc: Global, names: &[Name], line: Line<Wired>) -> Result<TplLine, NoMemory>
    ensures { length names.now < 2 ^ 32 → IfOk result (λ l. mapped tree l ≡ mapped (among_names names.now) line) }
{
    match line {
        Line::Plain(mark) => Ok(Line::Plain(mark)),
        Line::Over(purpose, wired) => {
            let formula = formula_among(alloc, names, &wired)?;
            Ok(Line::Over(purpose, formula))
        }
    }
}

// Lines over a template's names.
fn lines_among(
    alloc: Global,
    names: &[Name],
    lines: Vec<Line<Wired>>,
) -> Result<Vec<TplLine>, NoMemory>
    ensures { length names.now < 2 ^ 32 → IfOk result (λ v. map (mapped tree) v.items ≡ map (mapped (among_names names.now)) lines.items) }
{
    let mut out = Vec::new(alloc);
    for line in lines {
        out.push(line_among(alloc, names, line)?)?;
    }
    Ok(out)
}

/// The template of wired lines with few names.
pub fn template_of(alloc: Global, lines: Vec<Line<Wired>>) -> Result<Template, NoMemory>
    ensures { length (with_all [] lines.items) < 2 ^ 32 → IfOk result (λ t. t ≡ plan_wired lines.items) }
{
    let names = names_of(alloc, &lines)?;
    let lines = lines_among(alloc, &names, lines)?;
    Ok(Template { names, lines })
}

// Writes templates.
ghost use Rattle.std.specs.Prelude.{◌≡◌, ◌∷◌, ◌++◌, [], OnOk};
ghost use Rattle.sig_formula.specs.Trees.{tree};
ghost use Rattle.formula_text.specs.Canonical.{unslotted};
ghost use Rattle.line_forms.specs.Forms as forms;
ghost use Rattle.line_forms.specs.Printed.{form_text, part_text};
ghost use Rattle.tpl_syntax.specs.declared.line.Line.TheVariants as line;
ghost use Rattle.tpl_syntax.specs.Grammar as rows;
ghost use Rattle.tpl_syntax.specs.Lines.{mapped};
ghost use Rattle.tpl_syntax.specs.Printer.{bytes_of, ended_line, plan_text, said_in, said_of};

use crate::{Line, Mark, Purpose, Template, TplLine};
use formula_text::put_formula_of;
use line_forms::put_tag;
use sig_base::{Name, NoMemory, Text};
use sig_formula::Formula;

// Appends a formula behind a blank.
fn put_formula(out: &mut Vec<u8>, names: &[Name], formula: &Formula) -> Result<(), NoMemory>
    ensures { OnOk result (out.new.items ≡ out.old.items ++ part_text forms.formula (unslotted names.now (tree formula.now))) }
{
    out.push(b' ')?;
    put_formula_of(out, names, formula)
}

// Appends a word and a formula.
fn put_alone(
    out: &mut Vec<u8>,
    word: &[u8],
    names: &[Name],
    formula: &Formula,
) -> Result<(), NoMemory>
    ensures { OnOk result (out.new.items ≡ out.old.items
        ++ (word.now ++ form_text (forms.part forms.formula ∷ []) (unslotted names.now (tree formula.now), tt))) }
{
    out.extend_from_slice(word)?;
    put_formula(out, names, formula)?;
    Ok(())
}

// Appends the line of an element.
fn put_element(out: &mut Vec<u8>, name: &Text) -> Result<(), NoMemory>
    ensures { OnOk result (out.new.items ≡ out.old.items ++ bytes_of (rows.tag, (name.now, tt))) }
{
    out.extend_from_slice(b"tag")?;
    put_tag(out, name)?;
    Ok(())
}

// Appends the line of an attribute.
fn put_attribute(
    out: &mut Vec<u8>,
    name: &Text,
    names: &[Name],
    formula: &Formula,
) -> Result<(), NoMemory>
    ensures { OnOk result (out.new.items ≡ out.old.items ++ bytes_of (rows.attr, (name.now, (unslotted names.now (tree formula.now), tt)))) }
{
    out.extend_from_slice(b"attr")?;
    put_tag(out, name)?;
    put_formula(out, names, formula)?;
    Ok(())
}

// Appends a word.
fn put_word(out: &mut Vec<u8>, word: &[u8]) -> Result<(), NoMemory>
    ensures { OnOk result (out.new.items ≡ out.old.items ++ (word.now ++ [])) }
{
    out.extend_from_slice(word)?;
    Ok(())
}

// Appends a line without a formula.
fn put_mark(out: &mut Vec<u8>, mark: &Mark) -> Result<(), NoMemory>
    ensures { OnOk result (out.new.items ≡ out.old.items ++ bytes_of (said_of (line.Plain mark.now))) }
{
    match mark {
        Mark::Tag(name) => put_element(out, name),
        Mark::Try => put_word(out, b"try"),
        Mark::Else => put_word(out, b"else"),
        Mark::End => put_word(out, b"end"),
    }
}

// Appends a line with a formula.
fn put_over(
    out: &mut Vec<u8>,
    purpose: &Purpose,
    names: &[Name],
    formula: &Formula,
) -> Result<(), NoMemory>
    ensures { OnOk result (out.new.items ≡ out.old.items ++ bytes_of (said_of (line.Over purpose.now (unslotted names.now (tree formula.now))))) }
{
    match purpose {
        Purpose::Text => put_alone(out, b"text", names, formula),
        Purpose::Attr(name) => put_attribute(out, name, names, formula),
        Purpose::If => put_alone(out, b"if", names, formula),
        Purpose::Each => put_alone(out, b"each", names, formula),
    }
}

// Appends a line.
fn put_line(out: &mut Vec<u8>, names: &[Name], line: &TplLine) -> Result<(), NoMemory>
    ensures { OnOk result (out.new.items ≡ out.old.items ++ bytes_of (said_in names.now (mapped tree line.now))) }
{
    match line {
        Line::Plain(mark) => put_mark(out, mark),
        Line::Over(purpose, formula) => put_over(out, purpose, names, formula),
    }
}

// Appends a line and its end.
fn put_ended(out: &mut Vec<u8>, names: &[Name], line: &TplLine) -> Result<(), NoMemory>
    ensures { OnOk result (out.new.items ≡ out.old.items ++ ended_line (said_in names.now (mapped tree line.now))) }
{
    put_line(out, names, line)?;
    out.push(b'\n')?;
    Ok(())
}

/// Appends the lines of a template, each ended by LF: one blank before each token behind the first, and formulas in their canonical text.
/// They are read as the same template, where none has more than `MOST_LINE` bytes.
pub fn put_template(out: &mut Vec<u8>, template: &Template) -> Result<(), NoMemory>
    ensures { OnOk result (out.new.items ≡ out.old.items ++ plan_text template.now) }
{
    let names = template.names();
    let lines = template.lines();
    for line in lines {
        put_ended(out, names, line)?;
    }
    Ok(())
}

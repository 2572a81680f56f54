// Writes the lines of computeds.
ghost use Rattle.std.specs.Prelude.{◌≡◌, ◌++◌, OnOk};
ghost use Rattle.live_cmd.specs.declared.command.SourceText.TheVariants as source;
ghost use Rattle.live_cmd.specs.Grammar as rows;
ghost use Rattle.live_writing.specs.Printer.{computed_line, ended_line, rewire_line};

use crate::inside::put_inside;
use formula_text::Wired;
use line_forms::{put_arguments, put_count, put_fixed, put_name, put_wired};
use live_cmd::{NameList, SourceText};
use sig_base::{Name, NoMemory};

fn put_computed_formula(
    out: &mut Vec<u8>,
    name: &Name,
    formula: &Wired,
    inside: &Option<Name>,
) -> Result<(), NoMemory>
    ensures { OnOk result (out.new.items ≡ out.old.items ++ ended_line (computed_line name.now (source.Formula formula.now) inside.now)) }
{
    out.extend_from_slice(b"computed")?;
    put_name(out, name)?;
    put_fixed(out, b"=")?;
    put_wired(out, formula)?;
    put_inside(out, inside)?;
    out.push(b'\n')?;
    Ok(())
}

fn put_computed_host(
    out: &mut Vec<u8>,
    name: &Name,
    place: u64,
    arguments: &NameList,
    inside: &Option<Name>,
) -> Result<(), NoMemory>
    ensures { OnOk result (out.new.items ≡ out.old.items ++ ended_line (rows.computed_host, (name.now, (place, (arguments.now, (inside.now, tt)))))) }
{
    out.extend_from_slice(b"computed")?;
    put_name(out, name)?;
    put_fixed(out, b"=")?;
    put_fixed(out, b"host")?;
    put_count(out, place)?;
    put_arguments(out, arguments.as_slice())?;
    put_inside(out, inside)?;
    out.push(b'\n')?;
    Ok(())
}

/// `computed N = SOURCE [in O]`
pub fn put_computed(
    out: &mut Vec<u8>,
    name: &Name,
    source: &SourceText,
    inside: &Option<Name>,
) -> Result<(), NoMemory>
    ensures { OnOk result (out.new.items ≡ out.old.items ++ ended_line (computed_line name.now source.now inside.now)) }
{
    match source {
        SourceText::Formula(formula) => put_computed_formula(out, name, formula, inside),
        SourceText::Host(place, arguments) => {
            put_computed_host(out, name, *place, arguments, inside)
        }
    }
}

fn put_rewire_formula(out: &mut Vec<u8>, name: &Name, formula: &Wired) -> Result<(), NoMemory>
    ensures { OnOk result (out.new.items ≡ out.old.items ++ ended_line (rewire_line name.now (source.Formula formula.now))) }
{
    out.extend_from_slice(b"rewire")?;
    put_name(out, name)?;
    put_fixed(out, b"=")?;
    put_wired(out, formula)?;
    out.push(b'\n')?;
    Ok(())
}

fn put_rewire_host(
    out: &mut Vec<u8>,
    name: &Name,
    place: u64,
    arguments: &NameList,
) -> Result<(), NoMemory>
    ensures { OnOk result (out.new.items ≡ out.old.items ++ ended_line (rows.rewire_host, (name.now, (place, (arguments.now, tt))))) }
{
    out.extend_from_slice(b"rewire")?;
    put_name(out, name)?;
    put_fixed(out, b"=")?;
    put_fixed(out, b"host")?;
    put_count(out, place)?;
    put_arguments(out, arguments.as_slice())?;
    out.push(b'\n')?;
    Ok(())
}

/// `rewire N = SOURCE`
pub fn put_rewire(out: &mut Vec<u8>, name: &Name, source: &SourceText) -> Result<(), NoMemory>
    ensures { OnOk result (out.new.items ≡ out.old.items ++ ended_line (rewire_line name.now source.now)) }
{
    match source {
        SourceText::Formula(formula) => put_rewire_formula(out, name, formula),
        SourceText::Host(place, arguments) => put_rewire_host(out, name, *place, arguments),
    }
}

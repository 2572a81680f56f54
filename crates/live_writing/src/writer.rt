// Writes commands.
ghost use Rattle.std.specs.Prelude.{◌≡◌, ◌++◌, OnOk};
ghost use Rattle.live_cmd.specs.declared.command.Command.TheVariants as command;
ghost use Rattle.live_cmd.specs.Grammar as rows;
ghost use Rattle.live_writing.specs.Printer.{command_text, ended_line};
ghost use Rattle.body_text.specs.Printer.{body_text};
ghost use Rattle.tpl_syntax.specs.Printer.{plan_text};

use crate::inside::put_inside;
use crate::rows::{put_edit, put_list};
use crate::sources::{put_computed, put_rewire};
use crate::watchers::{put_unwatch, put_watch, put_watcher};
use body_text::put_body;
use line_forms::{put_count, put_count_behind, put_fixed, put_name, put_tag, put_value};
use live_cmd::{Bare, Command, EffectBody, Verb};
use sig_base::{Name, NoMemory, Scalar, Text};
use tpl_syntax::Template;

fn put_named(out: &mut Vec<u8>, verb: Verb, name: &Name) -> Result<(), NoMemory>
    ensures { OnOk result (out.new.items ≡ out.old.items ++ ended_line (rows.verb verb, (name.now, tt))) }
{
    out.extend_from_slice(verb.word().as_bytes())?;
    put_name(out, name)?;
    out.push(b'\n')?;
    Ok(())
}

fn put_bare(out: &mut Vec<u8>, bare: Bare) -> Result<(), NoMemory>
    ensures { OnOk result (out.new.items ≡ out.old.items ++ ended_line (rows.bare bare, tt)) }
{
    out.extend_from_slice(bare.word().as_bytes())?;
    out.push(b'\n')?;
    Ok(())
}

fn put_cell(
    out: &mut Vec<u8>,
    name: &Name,
    value: &Scalar,
    equals: Option<u64>,
    inside: &Option<Name>,
) -> Result<(), NoMemory>
    ensures { OnOk result (out.new.items ≡ out.old.items ++ ended_line (rows.cell, (name.now, (value.now, (equals, (inside.now, tt)))))) }
{
    out.extend_from_slice(b"cell")?;
    put_name(out, name)?;
    put_fixed(out, b"=")?;
    put_value(out, value)?;
    put_count_behind(out, b"equals", equals)?;
    put_inside(out, inside)?;
    out.push(b'\n')?;
    Ok(())
}

fn put_set(out: &mut Vec<u8>, name: &Name, value: &Scalar) -> Result<(), NoMemory>
    ensures { OnOk result (out.new.items ≡ out.old.items ++ ended_line (rows.set, (name.now, (value.now, tt)))) }
{
    out.extend_from_slice(b"set")?;
    put_name(out, name)?;
    put_value(out, value)?;
    out.push(b'\n')?;
    Ok(())
}

fn put_owner(out: &mut Vec<u8>, name: &Name, inside: &Option<Name>) -> Result<(), NoMemory>
    ensures { OnOk result (out.new.items ≡ out.old.items ++ ended_line (rows.owner, (name.now, (inside.now, tt)))) }
{
    out.extend_from_slice(b"owner")?;
    put_name(out, name)?;
    put_inside(out, inside)?;
    out.push(b'\n')?;
    Ok(())
}

fn put_mount(
    out: &mut Vec<u8>,
    name: &Name,
    template: &Name,
    inside: &Option<Name>,
) -> Result<(), NoMemory>
    ensures { OnOk result (out.new.items ≡ out.old.items ++ ended_line (rows.mount, (name.now, (template.now, (inside.now, tt))))) }
{
    out.extend_from_slice(b"mount")?;
    put_name(out, name)?;
    put_name(out, template)?;
    put_inside(out, inside)?;
    out.push(b'\n')?;
    Ok(())
}

fn put_title(out: &mut Vec<u8>, name: &Name) -> Result<(), NoMemory>
    ensures { OnOk result (out.new.items ≡ out.old.items ++ ended_line (rows.template, (name.now, tt))) }
{
    out.extend_from_slice(b"template")?;
    put_name(out, name)?;
    out.push(b'\n')?;
    Ok(())
}

fn put_end(out: &mut Vec<u8>) -> Result<(), NoMemory>
    ensures { OnOk result (out.new.items ≡ out.old.items ++ ended_line (rows.close, tt)) }
{
    out.extend_from_slice(b"end\n")?;
    Ok(())
}

// The lines of a template.
fn put_inner(out: &mut Vec<u8>, template: &Template) -> Result<(), NoMemory>
    ensures { OnOk result (out.new.items ≡ out.old.items ++ plan_text template.now) }
{
    tpl_syntax::put_template(out, template)?;
    Ok(())
}

fn put_template(out: &mut Vec<u8>, name: &Name, template: &Template) -> Result<(), NoMemory>
    ensures { OnOk result (out.new.items ≡ out.old.items ++ command_text (command.Template name.now template.now)) }
{
    put_title(out, name)?;
    put_inner(out, template)?;
    put_end(out)?;
    Ok(())
}

fn put_effect_title(out: &mut Vec<u8>, name: &Name, inside: &Option<Name>) -> Result<(), NoMemory>
    ensures { OnOk result (out.new.items ≡ out.old.items ++ ended_line (rows.effect, (name.now, (inside.now, tt)))) }
{
    out.extend_from_slice(b"effect")?;
    put_name(out, name)?;
    put_inside(out, inside)?;
    out.push(b'\n')?;
    Ok(())
}

// The lines of a body.
fn put_lines(out: &mut Vec<u8>, body: &EffectBody) -> Result<(), NoMemory>
    ensures { OnOk result (out.new.items ≡ out.old.items ++ body_text body.now) }
{
    put_body(out, body.as_body())?;
    Ok(())
}

fn put_effect(
    out: &mut Vec<u8>,
    name: &Name,
    body: &EffectBody,
    inside: &Option<Name>,
) -> Result<(), NoMemory>
    ensures { OnOk result (out.new.items ≡ out.old.items ++ command_text (command.Effect name.now body.now inside.now)) }
{
    put_effect_title(out, name, inside)?;
    put_lines(out, body)?;
    put_end(out)?;
    Ok(())
}

fn put_handler_title(
    out: &mut Vec<u8>,
    template: &Name,
    place: u64,
    event: &Text,
) -> Result<(), NoMemory>
    ensures { OnOk result (out.new.items ≡ out.old.items ++ ended_line (rows.on, (template.now, (place, (event.now, tt))))) }
{
    out.extend_from_slice(b"on")?;
    put_name(out, template)?;
    put_count(out, place)?;
    put_tag(out, event)?;
    out.push(b'\n')?;
    Ok(())
}

fn put_handler(
    out: &mut Vec<u8>,
    template: &Name,
    place: u64,
    event: &Text,
    body: &EffectBody,
) -> Result<(), NoMemory>
    ensures { OnOk result (out.new.items ≡ out.old.items ++ command_text (command.On template.now place event.now body.now)) }
{
    put_handler_title(out, template, place, event)?;
    put_lines(out, body)?;
    put_end(out)?;
    Ok(())
}

fn put_fire(out: &mut Vec<u8>, page: &Name, node: u64, event: &Text) -> Result<(), NoMemory>
    ensures { OnOk result (out.new.items ≡ out.old.items ++ ended_line (rows.fire, (page.now, (node, (event.now, tt))))) }
{
    out.extend_from_slice(b"fire")?;
    put_name(out, page)?;
    put_count(out, node)?;
    put_tag(out, event)?;
    out.push(b'\n')?;
    Ok(())
}

/// Appends the lines of a command, each ended by LF: one blank before each token behind the first, and formulas in their
/// canonical text. They are read as the same command, where none has more than `MOST_LINE` bytes.
pub fn command_line(out: &mut Vec<u8>, command: &Command) -> Result<(), NoMemory>
    ensures { OnOk result (out.new.items ≡ out.old.items ++ command_text command.now) }
{
    match command {
        Command::Named { verb, name } => put_named(out, *verb, name),
        Command::Cell {
            name,
            value,
            equals,
            inside,
        } => put_cell(out, name, value, *equals, inside),
        Command::List {
            name,
            fields,
            inside,
        } => put_list(out, name, fields, inside),
        Command::Edit { name, edit } => put_edit(out, name, edit),
        Command::Set { name, value } => put_set(out, name, value),
        Command::Computed {
            name,
            source,
            inside,
        } => put_computed(out, name, source, inside),
        Command::Rewire { name, source } => put_rewire(out, name, source),
        Command::Owner { name, inside } => put_owner(out, name, inside),
        Command::Watcher { name, tries } => put_watcher(out, name, tries),
        Command::Watch { name, signals } => put_watch(out, name, signals),
        Command::Unwatch { name, signal } => put_unwatch(out, name, signal),
        Command::Effect { name, body, inside } => put_effect(out, name, body, inside),
        Command::Mount {
            name,
            template,
            inside,
        } => put_mount(out, name, template, inside),
        Command::On {
            template,
            place,
            event,
            body,
        } => put_handler(out, template, *place, event, body),
        Command::Fire { page, node, event } => put_fire(out, page, *node, event),
        Command::Template { name, template } => put_template(out, name, template),
        Command::Bare(bare) => put_bare(out, *bare),
    }
}

// Which names each command uses, in the order of its text.
ghost use Rattle.std.specs.Prelude.{◌≡◌, ◌++◌, ◌∷◌, IfOk, OnOk, map};
ghost use Rattle.live_model.specs.declared.names.Kind.TheVariants as kind;
ghost use Rattle.live_model.specs.declared.names.Need.TheVariants as need;
ghost use Rattle.live_model.specs.Uses.{need_of, uses_of, uses_of_body, uses_of_formula, uses_of_inside, uses_of_source};
ghost use Rattle.live_uses.specs.Views.{use_of};

use crate::bodies::{put_all, uses_of_body};
use crate::uses::{Use, put_signals, put_use};
use formula_text::Wired;
use live_cmd::{Command, EffectBody, SourceText, Verb};
use live_model::{Kind, Need};
use sig_base::{Name, NoMemory};
use std::alloc::Global;

fn put_formula<'a>(uses: &mut Vec<Use<'a>>, formula: &'a Wired) -> Result<(), NoMemory>
    ensures { OnOk result (map use_of uses.new.items ≡ map use_of uses.old.items ++ uses_of_formula formula.now) }
{
    put_signals(uses, &formula.names)?;
    Ok(())
}

fn put_source<'a>(uses: &mut Vec<Use<'a>>, source: &'a SourceText) -> Result<(), NoMemory>
    ensures { OnOk result (map use_of uses.new.items ≡ map use_of uses.old.items ++ uses_of_source source.now) }
{
    match source {
        SourceText::Formula(formula) => put_formula(uses, formula),
        SourceText::Host(_, arguments) => put_signals(uses, arguments.as_slice()),
    }
}

// Puts the owner inside which something is made, if one is named.
fn put_inside<'a>(uses: &mut Vec<Use<'a>>, inside: &'a Option<Name>) -> Result<(), NoMemory>
    ensures { OnOk result (map use_of uses.new.items ≡ map use_of uses.old.items ++ uses_of_inside inside.now) }
{
    match inside {
        None => Ok(()),
        Some(owner) => put_use(uses, owner, Need::Of(Kind::Owner)),
    }
}

/// What the name of a verb has to be.
pub fn need_of(verb: Verb) -> Need
    ensures { result ≡ need_of verb }
{
    match verb {
        Verb::Get => Need::Signal,
        Verb::Dispose => Need::Thing,
        Verb::State | Verb::Sources | Verb::Why => Need::Of(Kind::Computed),
        Verb::Pending => Need::Of(Kind::Watcher),
        Verb::Show | Verb::Scratch => Need::Of(Kind::Page),
    }
}

// Puts the names of a command that makes something.
fn put_making<'a>(
    uses: &mut Vec<Use<'a>>,
    name: &'a Name,
    inside: &'a Option<Name>,
) -> Result<(), NoMemory>
    ensures { OnOk result (map use_of uses.new.items ≡ map use_of uses.old.items ++ (name.now, need.New) ∷ uses_of_inside inside.now) }
{
    put_use(uses, name, Need::New)?;
    put_inside(uses, inside)
}

// Puts the names of a computed that is made.
fn put_computed<'a>(
    uses: &mut Vec<Use<'a>>,
    name: &'a Name,
    source: &'a SourceText,
    inside: &'a Option<Name>,
) -> Result<(), NoMemory>
    ensures { OnOk result (map use_of uses.new.items ≡ map use_of uses.old.items ++ (name.now, need.New) ∷ uses_of_source source.now ++ uses_of_inside inside.now) }
{
    put_use(uses, name, Need::New)?;
    put_source(uses, source)?;
    put_inside(uses, inside)
}

// Puts the names of a page that is mounted.
fn put_mount<'a>(
    uses: &mut Vec<Use<'a>>,
    name: &'a Name,
    template: &'a Name,
    inside: &'a Option<Name>,
) -> Result<(), NoMemory>
    ensures { OnOk result (map use_of uses.new.items ≡ map use_of uses.old.items ++ (name.now, need.New) ∷ (template.now, need.Of kind.Template) ∷ uses_of_inside inside.now) }
{
    put_use(uses, name, Need::New)?;
    put_use(uses, template, Need::Of(Kind::Template))?;
    put_inside(uses, inside)
}

// Puts the names of a handler that is made: that of its template, and those in its body.
fn put_handler<'a>(
    uses: &mut Vec<Use<'a>>,
    template: &'a Name,
    body: &'a EffectBody,
) -> Result<(), NoMemory>
    ensures { OnOk result (map use_of uses.new.items ≡ map use_of uses.old.items ++ (template.now, need.Of kind.Template) ∷ uses_of_body body.now) }
{
    put_use(uses, template, Need::Of(Kind::Template))?;
    let inside = uses_of_body(*uses.allocator(), body.as_body())?;
    put_all(uses, &inside)?;
    Ok(())
}

fn put_uses<'a>(uses: &mut Vec<Use<'a>>, command: &'a Command) -> Result<(), NoMemory>
    ensures { OnOk result (map use_of uses.new.items ≡ map use_of uses.old.items ++ uses_of command.now) }
{
    match command {
        Command::Cell { name, inside, .. } => put_making(uses, name, inside),
        Command::List { name, inside, .. } => put_making(uses, name, inside),
        Command::Edit { name, .. } => put_use(uses, name, Need::Of(Kind::List)),
        Command::Set { name, .. } => put_use(uses, name, Need::Of(Kind::Cell)),
        Command::Computed {
            name,
            source,
            inside,
        } => put_computed(uses, name, source, inside),
        Command::Rewire { name, source } => {
            put_use(uses, name, Need::Of(Kind::Computed))?;
            put_source(uses, source)
        }
        Command::Owner { name, inside } => put_making(uses, name, inside),
        Command::Watcher { name, .. } => put_use(uses, name, Need::New),
        Command::Watch { name, signals } => {
            put_use(uses, name, Need::Of(Kind::Watcher))?;
            put_signals(uses, signals.as_slice())
        }
        Command::Unwatch { name, signal } => {
            put_use(uses, name, Need::Of(Kind::Watcher))?;
            put_use(uses, signal, Need::Signal)
        }
        Command::Effect { name, inside, .. } => put_making(uses, name, inside),
        Command::On { template, body, .. } => put_handler(uses, template, body),
        Command::Fire { page, .. } => put_use(uses, page, Need::Of(Kind::Page)),
        Command::Template { name, template } => {
            put_use(uses, name, Need::New)?;
            put_signals(uses, template.names())
        }
        Command::Mount {
            name,
            template,
            inside,
        } => put_mount(uses, name, template, inside),
        Command::Named { verb, name } => put_use(uses, name, need_of(*verb)),
        Command::Bare(_) => Ok(()),
    }
}

/// The names that a command uses, in the order of its text, those in the body of an effect aside.
pub fn uses_of<'a>(alloc: Global, command: &'a Command) -> Result<Vec<Use<'a>>, NoMemory>
    ensures { IfOk result (λ uses. map use_of uses.items ≡ uses_of command.now) }
{
    let mut uses = Vec::new(alloc);
    put_uses(&mut uses, command)?;
    Ok(uses)
}

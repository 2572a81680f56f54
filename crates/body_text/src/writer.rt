// Writes bodies.
ghost use Rattle.std.specs.Prelude.{◌≡◌, ◌∷◌, ◌++◌, [], codes, map, slice_get, OnOk};
ghost use Rattle.sig_formula.specs.Trees.{tree};
ghost use Rattle.sig_words.specs.Lexemes.{word};
ghost use Rattle.formula_text.specs.Canonical.{named, unslotted};
ghost use Rattle.line_forms.specs.Forms as forms;
ghost use Rattle.line_forms.specs.Printed.{form_text, part_text};
ghost use Rattle.sig_untrack.specs.Stated as stated;
ghost use Rattle.sig_untrack.specs.Stated.{before, held_line, no_bodies, put, rewiring, Stated};
ghost use Rattle.body_text.specs.Texts.{end_line, held_parts, parts_text, plain_text, rewire_text, text_at};
ghost use Rattle.body_text.specs.Grammar.{said_of};
ghost use Rattle.body_text.specs.Printer.{body_text, ended_line, named_line, rewire_line};

use effect_model::Plain;
use formula_text::put_formula_of;
use line_forms::{put_arguments, put_count, put_fixed, put_name};
use sig_base::{Name, NoMemory};
use sig_formula::Formula;
use sig_untrack::{Body, Recipe2, Rewire, Stmt};

/// What the places of a body stand for: its targets and names, the texts of its nested effects, and its rewirings.
#[derive(Clone, Copy)]
pub struct HeldParts<'a> {
    pub targets: &'a [Name],
    pub names: &'a [Name],
    pub texts: &'a [Vec<u8>],
    pub rewires: &'a [Rewire],
}

// Appends a target, or nothing where none has the place, behind a blank.
fn put_target(out: &mut Vec<u8>, targets: &[Name], target: u32) -> Result<(), NoMemory>
    ensures { OnOk result (out.new.items ≡ out.old.items ++ part_text (forms.one forms.name) (named targets.now target)) }
{
    match targets.get(target as usize) {
        Some(name) => put_name(out, name),
        None => put_fixed(out, b""),
    }
}

// Appends a formula behind a blank, and the end of the line.
fn put_formula(out: &mut Vec<u8>, names: &[Name], formula: &Formula) -> Result<(), NoMemory>
    ensures { OnOk result (out.new.items ≡ out.old.items
        ++ (form_text (forms.part forms.formula ∷ []) (unslotted names.now (tree formula.now), tt) ++ 10 ∷ [])) }
{
    out.push(b' ')?;
    put_formula_of(out, names, formula)?;
    out.push(b'\n')?;
    Ok(())
}

// Appends words, a target and a formula, and the end of the line.
fn put_targeted(
    out: &mut Vec<u8>,
    words: &[u8],
    parts: &HeldParts,
    target: u32,
    formula: &Formula,
) -> Result<(), NoMemory>
    ensures { OnOk result (out.new.items ≡ out.old.items ++ ((words.now
        ++ form_text (forms.part (forms.one forms.name) ∷ forms.part forms.formula ∷ [])
        (named parts.now.targets.now target, (unslotted parts.now.names.now (tree formula.now), tt))) ++ 10 ∷ [])) }
{
    out.extend_from_slice(words)?;
    put_target(out, parts.targets, target)?;
    put_formula(out, parts.names, formula)
}

// Appends words and a formula, and the end of the line.
fn put_alone(
    out: &mut Vec<u8>,
    words: &[u8],
    parts: &HeldParts,
    formula: &Formula,
) -> Result<(), NoMemory>
    ensures { OnOk result (out.new.items ≡ out.old.items ++ ((words.now
        ++ form_text (forms.part forms.formula ∷ []) (unslotted parts.now.names.now (tree formula.now), tt)) ++ 10 ∷ [])) }
{
    out.extend_from_slice(words)?;
    put_formula(out, parts.names, formula)
}

// Appends words and a target, and the end of the line.
fn put_acted(
    out: &mut Vec<u8>,
    words: &[u8],
    parts: &HeldParts,
    target: u32,
) -> Result<(), NoMemory>
    ensures { OnOk result (out.new.items ≡ out.old.items ++ ((words.now
        ++ form_text (forms.part (forms.one forms.name) ∷ []) (named parts.now.targets.now target, tt)) ++ 10 ∷ [])) }
{
    out.extend_from_slice(words)?;
    put_target(out, parts.targets, target)?;
    out.push(b'\n')?;
    Ok(())
}

// Appends a host formula with its arguments, and the end of the line.
fn put_host(out: &mut Vec<u8>, place: u64, names: &[Name]) -> Result<(), NoMemory>
    ensures { OnOk result (out.new.items ≡ out.old.items
        ++ (form_text (forms.fixed (word (codes "host")) ∷ forms.part (forms.one forms.count) ∷ forms.part forms.arguments ∷ [])
        (place, (names.now, tt)) ++ 10 ∷ [])) }
{
    put_fixed(out, b"host")?;
    put_count(out, place)?;
    put_arguments(out, names)?;
    out.push(b'\n')?;
    Ok(())
}

// Appends the line of a rewiring.
fn put_rewiring(out: &mut Vec<u8>, targets: &[Name], rewire: &Rewire) -> Result<(), NoMemory>
    ensures { OnOk result (out.new.items ≡ out.old.items ++ ended_line (said_of (rewire_line targets.now (rewiring rewire.now)))) }
{
    let names = rewire.names.as_slice();
    out.extend_from_slice(b"rewire")?;
    put_target(out, targets, rewire.target)?;
    put_fixed(out, b"=")?;
    match &rewire.recipe {
        Recipe2::Formula(formula) => {
            put_formula(out, names, formula)?;
            Ok(())
        }
        Recipe2::Host(place) => {
            put_host(out, *place, names)?;
            Ok(())
        }
    }
}

// Appends the line of the rewiring at a place, if there is one.
#[tactic(auto, using(crate::proofs::Texts::there, crate::proofs::Texts::not_there))]
fn put_rewired(
    out: &mut Vec<u8>,
    targets: &[Name],
    rewires: &[Rewire],
    place: u32,
) -> Result<(), NoMemory>
    ensures { OnOk result (out.new.items ≡ out.old.items ++ rewire_text targets.now (slice_get (map rewiring rewires.now) place)) }
{
    match rewires.get(place as usize) {
        Some(rewire) => {
            put_rewiring(out, targets, rewire)?;
            Ok(())
        }
        None => Ok(()),
    }
}

// Appends the line that ends a block.
fn put_end(out: &mut Vec<u8>) -> Result<(), NoMemory>
    ensures { OnOk result (out.new.items ≡ out.old.items ++ end_line) }
{
    out.extend_from_slice(b"end\n")?;
    Ok(())
}

// Appends the text at a place, if there is one.
#[tactic(auto, using(crate::proofs::Texts::there, crate::proofs::Texts::not_there))]
fn put_text(out: &mut Vec<u8>, texts: &[Vec<u8>], place: u32) -> Result<(), NoMemory>
    ensures { OnOk result (out.new.items ≡ out.old.items ++ text_at (map (λ v. v.items) texts.now) place) }
{
    match texts.get(place as usize) {
        Some(text) => {
            out.extend_from_slice(text)?;
            Ok(())
        }
        None => Ok(()),
    }
}

// Appends the lines of the nested effect at a place.
fn put_effect(out: &mut Vec<u8>, parts: &HeldParts, place: u32) -> Result<(), NoMemory>
    ensures { OnOk result ((rest : Stated) → out.new.items ++ parts_text (held_parts parts.now) rest
        ≡ out.old.items ++ parts_text (held_parts parts.now) (stated.effect place rest)) }
{
    out.extend_from_slice(b"effect\n")?;
    put_text(out, parts.texts, place)?;
    put_end(out)?;
    Ok(())
}

// Appends a statement of one line.
fn put_line(
    out: &mut Vec<u8>,
    parts: &HeldParts,
    line: &Plain<u32, u32, Formula>,
) -> Result<(), NoMemory>
    ensures { OnOk result (out.new.items ≡ out.old.items
        ++ plain_text (named_line parts.now.targets.now parts.now.names.now (held_line line.now))) }
{
    match line {
        Plain::Set(target, formula) => {
            put_targeted(out, b"set", parts, *target, formula)?;
            Ok(())
        }
        Plain::Log(formula) => {
            put_alone(out, b"log", parts, formula)?;
            Ok(())
        }
        Plain::CleanupSet(target, formula) => {
            put_targeted(out, b"cleanup set", parts, *target, formula)?;
            Ok(())
        }
        Plain::CleanupLog(formula) => {
            put_alone(out, b"cleanup log", parts, formula)?;
            Ok(())
        }
        Plain::Dispose(target) => {
            put_acted(out, b"dispose", parts, *target)?;
            Ok(())
        }
    }
}

// Appends a statement.
#[cycle(writing)]
fn put_statement(out: &mut Vec<u8>, parts: &HeldParts, statement: &Stmt) -> Result<(), NoMemory>
    ensures { OnOk result ((rest : Stated) → out.new.items ++ parts_text (held_parts parts.now) rest
        ≡ out.old.items ++ parts_text (held_parts parts.now) (put statement.now rest)) }
{
    match statement {
        Stmt::Plain(line) => {
            put_line(out, parts, line)?;
            Ok(())
        }
        Stmt::When(formula, inner) => {
            put_alone(out, b"when", parts, formula)?;
            put_statements(out, parts, inner)?;
            put_end(out)?;
            Ok(())
        }
        Stmt::Effect(place) => {
            put_effect(out, parts, *place)?;
            Ok(())
        }
        Stmt::Rewire(place) => {
            put_rewired(out, parts.targets, parts.rewires, *place)?;
            Ok(())
        }
    }
}

// Appends statements.
#[cycle(writing)]
fn put_statements(out: &mut Vec<u8>, parts: &HeldParts, statements: &[Stmt]) -> Result<(), NoMemory>
    ensures { OnOk result ((rest : Stated) → out.new.items ++ parts_text (held_parts parts.now) rest
        ≡ out.old.items ++ parts_text (held_parts parts.now) (stated.stated statements.now rest)) }
{
    for statement in statements {
        put_statement(out, parts, statement)?;
    }
    Ok(())
}

/// Appends the lines of a body, each ended by LF: one blank before each token behind the first, and formulas in their canonical text. They
/// are read as the same body, where none has more than `MOST_LINE` bytes.
pub fn put_body(out: &mut Vec<u8>, body: &Body) -> Result<(), NoMemory>
    ensures { OnOk result (out.new.items ≡ out.old.items ++ body_text (before body.now no_bodies)) }
{
    let mut texts = Vec::new(*out.allocator());
    for inner in &body.effects {
        let mut text = Vec::new(*out.allocator());
        put_body(&mut text, inner)?;
        texts.push(text)?;
    }
    let parts = HeldParts {
        targets: &body.targets,
        names: &body.names,
        texts: &texts,
        rewires: &body.rewires,
    };
    put_statements(out, &parts, &body.statements)?;
    Ok(())
}

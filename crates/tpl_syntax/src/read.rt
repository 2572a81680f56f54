// Reads the lines of a template.
ghost use Rattle.std.specs.Prelude.{◌≡◌, ◌+◌, ◌-◌, ◌<◌, ◌≤◌, ◌^◌, [], None, length, All, IfErr, IfOk, IsTrue, MatchOption, Ok, map};
ghost use Rattle.script_lines.specs.Lines.{kept_lines};
ghost use Rattle.script_lines.specs.Views.{line_of};
ghost use Rattle.tpl_syntax.specs.Grammar as rows;
ghost use Rattle.tpl_syntax.specs.Grammar.{Said, Writes};
ghost use Rattle.tpl_syntax.specs.Refusals.{allowed, refusal_of};
ghost use Rattle.tpl_syntax.specs.Places.{fits};
ghost use Rattle.tpl_syntax.specs.Templates.{IsRead, Refuses};
ghost use Rattle.tpl_syntax.specs.Views.{answer_read, found_of, judged_read, place_of, read_at, sound_lines, with_all, IsReading};

use crate::builder::{sound_lines, template_of};
use crate::judge::{ReadLine, read_at, refusal_of};
use crate::place::Place;
use crate::reader::{Seen, read_line};
use crate::{Line, Template, TemplateFault, TemplateWhy};
use formula_text::Allow;
use script_lines::{NumberedLine, last_number, lines_of};
use sig_base::{MOST_LINE, NoMemory};
use std::alloc::Global;

/// What lines say, or the number of the first that says nothing which may stand there, or that something isn't ended.
#[derive(Drop)]
pub enum Reading {
    Faulty(u32),
    Unended,
    Said(Vec<ReadLine>),
}

// What a line says, if it may stand there.
fn found_at(alloc: Global, place: &Place, line: &[u8]) -> Result<Option<Box<Line<Seen>>>, NoMemory>
    requires { length line.now ≤ MOST_LINE }
    ensures { IfOk result (λ found. MatchOption found
        ((x : Said) → Writes x line.now → IsTrue (fits (place_of place.now) (rows.said_line x)) → ⊥)
        (λ l. (x : Said) × Writes x line.now × IsTrue (fits (place_of place.now) (rows.said_line x))
        × (l.value ≡ found_of (allowed (place_of place.now)) x))) }
{
    let allow = Allow {
        row: place.in_loop(),
        untrack: false,
    };
    let Some(found) = read_line(alloc, line, allow)? else {
        return Ok(None);
    };
    if !place.fits(&found) {
        return Ok(None);
    }
    Ok(Some(found))
}

// A line that was read at a place, behind a pointer.
fn read_held(
    alloc: Global,
    place: &Place,
    number: u32,
    line: Box<Line<Seen>>,
) -> Result<Box<ReadLine>, NoMemory>
    ensures { IfOk result (λ r. r.value ≡ read_at (place_of place.now) number line.value) }
{
    let read = read_at(place, number, Box::into_inner(line));
    let held = Box::new(alloc, read)?;
    Ok(held)
}

// What the lines of a template say.
fn read_lines(alloc: Global, lines: &[NumberedLine]) -> Result<Reading, NoMemory>
    requires { All (λ l. length l.text.now ≤ MOST_LINE) lines.now }
    ensures { IfOk result (λ r. IsReading (map line_of lines.now) r) }
{
    let mut place = Place::first(alloc);
    let mut said = Vec::new(alloc);
    for numbered in lines {
        let Some(line) = found_at(alloc, &place, numbered.text)? else {
            return Ok(Reading::Faulty(numbered.number));
        };
        let read = read_held(alloc, &place, numbered.number, line)?;
        place.step(&read.line)?;
        said.push(Box::into_inner(read))?;
    }
    if place.is_closed() {
        Ok(Reading::Said(said))
    } else {
        Ok(Reading::Unended)
    }
}

// What lines are that were read.
fn judged(alloc: Global, lines: Vec<ReadLine>) -> Result<Result<Template, TemplateFault>, NoMemory>
    ensures { (refusal_of (map judged_read lines.items) ≡ None → length (with_all [] (sound_lines lines.items)) < 2 ^ 32)
        → IfOk result (λ r. r ≡ answer_read lines.items) }
{
    if let Some(fault) = refusal_of(&lines) {
        return Ok(Err(fault));
    }
    let lines = sound_lines(alloc, lines)?;
    let template = template_of(alloc, lines)?;
    Ok(Ok(template))
}

// A line that isn't in the grammar, or may not stand there.
fn syntax(number: u32) -> TemplateFault
    ensures { result ≡ record { at = number; why = TemplateWhy.Syntax } }
{
    TemplateFault {
        at: number as usize,
        why: TemplateWhy::Syntax,
    }
}

// What lines are.
fn answer(
    alloc: Global,
    lines: &[NumberedLine],
) -> Result<Result<Template, TemplateFault>, NoMemory>
    requires { All (λ l. length l.text.now ≤ MOST_LINE) lines.now }
    ensures { IfOk result (λ r. IsRead (map line_of lines.now) r) }
{
    match read_lines(alloc, lines)? {
        Reading::Faulty(number) => Ok(Err(syntax(number))),
        Reading::Unended => Ok(Err(syntax(last_number(lines)))),
        Reading::Said(said) => judged(alloc, said),
    }
}

/// The template that numbered lines are, none of them passed over and none longer than `MOST_LINE` bytes; `at` of a fault is a line's
/// number.
///
/// Lines are refused for the first of these causes: one that isn't in the grammar or may not stand there, or the last where something
/// isn't ended, as `Syntax`; the first line with an `untrack`, an `it` without a row, a child of an element without end tag, anything
/// but literals without `</` in an element of unescaped text, more than `MOST_DEPTH` levels, an `each` in an `each` or a formula that is
/// higher than `MOST_HEIGHT`, on one line the first of these; the first line with a text of more than `MOST_TEXT` bytes or a formula of
/// more than `MOST_SOURCES` names; more than `MOST_TEMPLATE_LINES` lines. `NoMemory` where the template finds no room.
pub fn read_numbered(alloc: Global, lines: &[NumberedLine]) -> Result<Template, TemplateFault>
    requires { All (λ l. length l.text.now ≤ MOST_LINE) lines.now }
    ensures ok { IfOk result (λ t. IsRead (map line_of lines.now) (Ok t)) }
    ensures refused { IfErr result (λ f. Refuses (map line_of lines.now) f.at f.why) }
{
    match answer(alloc, lines)? {
        Ok(template) => Ok(template),
        Err(fault) => Err(fault),
    }
}

/// The template of a block of lines, refused as by `read_numbered`, its lines numbered from 0. None of them but those that are passed
/// over is longer than `MOST_LINE` bytes.
pub fn read_template(alloc: Global, block: &[u8]) -> Result<Template, TemplateFault>
    requires short { length block.now < 2 ^ 32 }
    requires lines { All (λ l. length l.1 ≤ MOST_LINE) (kept_lines 0 block.now) }
    ensures ok { IfOk result (λ t. IsRead (kept_lines 0 block.now) (Ok t)) }
    ensures refused { IfErr result (λ f. Refuses (kept_lines 0 block.now) f.at f.why) }
{
    let lines = lines_of(alloc, block)?;
    read_numbered(alloc, &lines)
}

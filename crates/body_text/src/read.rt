// Reads the lines of a body.
ghost use Rattle.std.specs.Prelude.{◌≡◌, ◌+◌, ◌-◌, ◌<◌, ◌≤◌, ◌^◌, None, Ok, All, IfErr, IfOk, IsTrue, MatchOption, length, map};
ghost use Rattle.script_lines.specs.Lines.{kept_lines};
ghost use Rattle.script_lines.specs.Views.{line_of};
ghost use Rattle.sig_untrack.specs.Stated.{before, no_bodies};
ghost use Rattle.body_text.specs.Grammar as rows;
ghost use Rattle.body_text.specs.Grammar.{Said, Writes};
ghost use Rattle.body_text.specs.Refusals.{refusal_of};
ghost use Rattle.body_text.specs.Places.{fits, kind_of};
ghost use Rattle.body_text.specs.Verdicts.{unless_refused, IsRead, Refuses};
ghost use Rattle.body_text.specs.Statements as written;
ghost use Rattle.body_text.specs.Statements.{lines_of, Statements};
ghost use Rattle.body_text.specs.Views.{answer_held, found_of, judged_read, sound_lines, IsReading};

use crate::builder::{body_of, sound_lines};
use crate::judge::{ReadLine, fits, moved, read_at, refusal_of};
use crate::line::Found;
use crate::logging::logging;
use crate::reader::read_line;
use crate::{Allowance, BodyFault, BodyWhy};
use line_forms::Unread;
use script_lines::{NumberedLine, last_number, lines_of};
use sig_base::{MOST_LINE, NoMemory};
use sig_untrack::Body;
use std::alloc::Global;

/// What lines say, or the number of the first that says nothing which may stand there, or that something isn't ended.
#[derive(Drop)]
pub enum Reading {
    Faulty(u32),
    Unended,
    Said(Vec<ReadLine>),
}

// What a line says, if it may stand where so many are begun.
fn found_at(
    alloc: Global,
    depth: usize,
    line: &[u8],
    allowance: Allowance,
) -> Result<Option<Found>, NoMemory>
    requires { length line.now ≤ MOST_LINE }
    ensures { IfOk result (λ found. MatchOption found
        ((x : Said) → Writes x line.now → IsTrue (fits allowance depth (kind_of (rows.said_line x))) → ⊥)
        (λ f. (x : Said) × Writes x line.now × IsTrue (fits allowance depth (kind_of (rows.said_line x))) × (f ≡ found_of allowance.formulas x))) }
{
    let Some(found) = read_line(alloc, line, allowance.formulas)? else {
        return Ok(None);
    };
    if !fits(allowance, depth, found.kind) {
        return Ok(None);
    }
    Ok(Some(found))
}

// What the lines of a body say.
fn read_lines(
    alloc: Global,
    lines: &[NumberedLine],
    allowance: Allowance,
) -> Result<Reading, NoMemory>
    requires { All (λ l. length l.text.now ≤ MOST_LINE) lines.now }
    ensures { IfOk result (λ r. IsReading allowance (map line_of lines.now) r) }
{
    let mut depth = 0;
    let mut said = Vec::new(alloc);
    for numbered in lines {
        let Some(found) = found_at(alloc, depth, numbered.text, allowance)? else {
            return Ok(Reading::Faulty(numbered.number));
        };
        let next = moved(depth, found.kind);
        said.push(read_at(depth, numbered.number, found))?;
        depth = next;
    }
    if depth == 0 {
        Ok(Reading::Said(said))
    } else {
        Ok(Reading::Unended)
    }
}

// What lines are that were read and spell something.
fn judged(alloc: Global, lines: Vec<ReadLine>) -> Result<Result<Body, BodyFault>, NoMemory>
    ensures { (s : Statements) → (refusal_of (map judged_read lines.items) ≡ None → sound_lines lines.items ≡ lines_of s)
        → IfOk result (λ r. answer_held r ≡ unless_refused (refusal_of (map judged_read lines.items)) (written.body_of s)) }
{
    if let Some(fault) = refusal_of(&lines) {
        return Ok(Err(fault));
    }
    let lines = sound_lines(alloc, lines)?;
    let body = body_of(alloc, lines)?;
    Ok(Ok(body))
}

// A line that isn't in the grammar, or may not stand there.
fn syntax(number: u32) -> BodyFault
    ensures { result ≡ record { at = number; why = BodyWhy.Syntax } }
{
    BodyFault {
        at: number as usize,
        why: BodyWhy::Syntax,
    }
}

// What lines are.
fn answer(
    alloc: Global,
    lines: &[NumberedLine],
    allowance: Allowance,
) -> Result<Result<Body, BodyFault>, NoMemory>
    requires { All (λ l. length l.text.now ≤ MOST_LINE) lines.now }
    ensures { IfOk result (λ r. IsRead allowance (map line_of lines.now) (answer_held r)) }
{
    match read_lines(alloc, lines, allowance)? {
        Reading::Faulty(number) => Ok(Err(syntax(number))),
        Reading::Unended => Ok(Err(syntax(last_number(lines)))),
        Reading::Said(said) => judged(alloc, said),
    }
}

// The body that lines are, or why they are none.
fn read_all(alloc: Global, lines: &[NumberedLine], allowance: Allowance) -> Result<Body, BodyFault>
    requires { All (λ l. length l.text.now ≤ MOST_LINE) lines.now }
    ensures ok { IfOk result (λ b. IsRead allowance (map line_of lines.now) (Ok (before b no_bodies))) }
    ensures refused { IfErr result (λ f. Refuses allowance (map line_of lines.now) f.at f.why) }
{
    match answer(alloc, lines, allowance)? {
        Ok(body) => Ok(body),
        Err(fault) => Err(fault),
    }
}

/// The body that numbered lines are where this is allowed, none of them passed over and none longer than `MOST_LINE` bytes; `at` of a
/// fault is a line's number.
///
/// Its names and targets are distinct, in the order of the text; its nested effects and rewirings stand in the order of the text, and
/// what stands in a nested effect stands in the body of that effect alone.
///
/// # Errors
///
/// Lines are refused for the first of these causes: one that isn't in the grammar or may not stand there, as a statement that isn't
/// allowed, or the last where something isn't ended, as `Syntax`; the first line with an `untrack` or an `it` that isn't allowed, with
/// more than `MOST_LEVELS` levels or with a formula that is higher than `MOST_HEIGHT`; the first line with a text of more than `MOST_TEXT`
/// bytes, or with a formula or a host formula of more than `MOST_SOURCES` names; more than `MOST_BODY_LINES` lines. `NoMemory` where the
/// body finds no room.
pub fn read_numbered(
    alloc: Global,
    lines: &[NumberedLine],
    allowance: Allowance,
) -> Result<Body, BodyFault>
    requires { All (λ l. length l.text.now ≤ MOST_LINE) lines.now }
    ensures ok { IfOk result (λ b. IsRead allowance (map line_of lines.now) (Ok (before b no_bodies))) }
    ensures refused { IfErr result (λ f. Refuses allowance (map line_of lines.now) f.at f.why) }
{
    match logging(alloc, lines) {
        Ok(read) => Ok(read),
        Err(Unread::NotThere) => read_all(alloc, lines, allowance),
        Err(Unread::NoMemory(e)) => Err(BodyFault::from(e)),
    }
}

/// The body of a block of lines where this is allowed, refused as by `read_numbered`, its lines numbered from 0. None of them but those
/// that are passed over is longer than `MOST_LINE` bytes.
///
/// # Errors
///
/// Those of `read_numbered`.
pub fn read_body(alloc: Global, block: &[u8], allowance: Allowance) -> Result<Body, BodyFault>
    requires short { length block.now < 2 ^ 32 }
    requires lines { All (λ l. length l.1 ≤ MOST_LINE) (kept_lines 0 block.now) }
    ensures ok { IfOk result (λ b. IsRead allowance (kept_lines 0 block.now) (Ok (before b no_bodies))) }
    ensures refused { IfErr result (λ f. Refuses allowance (kept_lines 0 block.now) f.at f.why) }
{
    let lines = lines_of(alloc, block)?;
    read_numbered(alloc, &lines, allowance)
}

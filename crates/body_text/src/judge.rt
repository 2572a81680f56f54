// What the lines of a body are refused for.
ghost use Rattle.std.specs.Prelude.{◌≡◌, ◌∷◌, ◌+◌, ◌<◌, ◌^◌, [], map, MatchOption};
ghost use Rattle.body_text.specs.Refusals.{excess, first_excess, first_misplaced, high, is_nested, many_lines, misplacing, missing, refusal_of};
ghost use Rattle.body_text.specs.Places.{fits, moved};
ghost use Rattle.body_text.specs.Views.{fault_told, judged_read, read_at};

use crate::line::{Found, LineKind, ToldLine};
use crate::{Allowance, BodyFault, BodyWhy};
use formula_text::FormulaFault;

/// How many levels may stand in each other, of which a body is the first.
pub const MOST_LEVELS: usize = 32;

/// The most lines of a body, those of its nested effects too, without its first and its `end`.
pub const MOST_BODY_LINES: usize = 64;

/// A line that was read, and what is wrong with it.
#[derive(Drop)]
pub struct ReadLine {
    pub number: u32,
    /// What may not stand where it does.
    pub misplaced: Option<BodyWhy>,
    /// What there is too much of.
    pub excess: Option<BodyWhy>,
    pub line: ToldLine,
}

/// Whether a line may stand where so many are begun.
pub fn fits(allowance: Allowance, depth: usize, kind: LineKind) -> bool
    ensures { result ≡ fits allowance depth kind }
{
    match kind {
        LineKind::Plain(set) | LineKind::Opens(set) => allowance.statements.has(set),
        LineKind::End => depth != 0,
    }
}

/// How many are begun behind a line.
pub fn moved(depth: usize, kind: LineKind) -> usize
    requires { depth + 1 < 2 ^ 64 }
    ensures { result ≡ moved depth kind }
{
    match kind {
        LineKind::Plain(_) => depth,
        LineKind::Opens(_) => depth + 1,
        LineKind::End => depth.saturating_sub(1),
    }
}

// What is wrong with a line.
fn fault_of(line: &ToldLine) -> Option<FormulaFault>
    ensures { result ≡ fault_told line.now }
{
    match line {
        Ok(_) => None,
        Err(fault) => Some(*fault),
    }
}

// A formula that speaks of what isn't there.
fn missing(fault: Option<FormulaFault>) -> Option<BodyWhy>
    ensures { result ≡ missing fault }
{
    match fault {
        Some(FormulaFault::UntrackHere) => Some(BodyWhy::UntrackHere),
        Some(FormulaFault::ItHere) => Some(BodyWhy::ItHere),
        _ => None,
    }
}

// Too many levels.
fn is_nested(depth: usize, kind: LineKind) -> bool
    requires { depth + 2 < 2 ^ 64 }
    ensures { result ≡ is_nested depth kind }
{
    match kind {
        LineKind::Opens(_) => MOST_LEVELS < depth + 2,
        LineKind::Plain(_) | LineKind::End => false,
    }
}

// A formula that is too high.
fn high(fault: Option<FormulaFault>) -> Option<BodyWhy>
    ensures { result ≡ high fault }
{
    match fault {
        Some(FormulaFault::Nest) => Some(BodyWhy::Nest),
        _ => None,
    }
}

// What has too much of something.
fn excess(fault: Option<FormulaFault>) -> Option<BodyWhy>
    ensures { result ≡ excess fault }
{
    match fault {
        Some(FormulaFault::TextLong) => Some(BodyWhy::Text),
        Some(FormulaFault::Sources) => Some(BodyWhy::Sources),
        _ => None,
    }
}

// What may not stand there of a line.
fn misplacing(depth: usize, kind: LineKind, fault: Option<FormulaFault>) -> Option<BodyWhy>
    requires { depth + 2 < 2 ^ 64 }
    ensures { result ≡ misplacing depth kind fault }
{
    if let Some(why) = missing(fault) {
        return Some(why);
    }
    if is_nested(depth, kind) {
        return Some(BodyWhy::Nest);
    }
    high(fault)
}

/// A line that was read where so many are begun.
pub fn read_at(depth: usize, number: u32, found: Found) -> ReadLine
    requires { depth + 2 < 2 ^ 64 }
    ensures { result ≡ read_at depth number found }
{
    let fault = fault_of(&found.line);
    ReadLine {
        number,
        misplaced: misplacing(depth, found.kind, fault),
        excess: excess(fault),
        line: found.line,
    }
}

// The first line, and the others.
fn first(lines: &[ReadLine]) -> Option<(&ReadLine, &[ReadLine])>
    ensures { MatchOption result (lines.now ≡ []) (λ x. lines.now ≡ x.0.now ∷ x.1.now) }
{
    if lines.is_empty() {
        None
    } else {
        Some((&lines[0], &lines[1..]))
    }
}

fn first_misplaced(lines: &[ReadLine]) -> Option<BodyFault>
    ensures { result ≡ first_misplaced (map judged_read lines.now) }
{
    let mut rest = lines;
    while let Some((line, more)) = first(rest) {
        if let Some(why) = line.misplaced {
            let at = line.number as usize;
            return Some(BodyFault { at, why });
        }
        rest = more;
    }
    None
}

fn first_excess(lines: &[ReadLine]) -> Option<BodyFault>
    ensures { result ≡ first_excess (map judged_read lines.now) }
{
    let mut rest = lines;
    while let Some((line, more)) = first(rest) {
        if let Some(why) = line.excess {
            let at = line.number as usize;
            return Some(BodyFault { at, why });
        }
        rest = more;
    }
    None
}

fn many_lines(lines: &[ReadLine]) -> Option<BodyFault>
    ensures { result ≡ many_lines (map judged_read lines.now) }
{
    if MOST_BODY_LINES < lines.len() {
        Some(BodyFault {
            at: lines.len(),
            why: BodyWhy::Lines,
        })
    } else {
        None
    }
}

/// What lines are refused for: what may not stand where it does, at the first such line, then too much of something, at the first such
/// line, then too many lines.
pub fn refusal_of(lines: &[ReadLine]) -> Option<BodyFault>
    ensures { result ≡ refusal_of (map judged_read lines.now) }
{
    if let Some(fault) = first_misplaced(lines) {
        return Some(fault);
    }
    if let Some(fault) = first_excess(lines) {
        return Some(fault);
    }
    many_lines(lines)
}

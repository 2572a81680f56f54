// What the lines of a template are refused for.
ghost use Rattle.std.specs.Prelude.{◌≡◌, ◌∷◌, [], map, option_map, MatchOption};
ghost use Rattle.tpl_syntax.specs.Refusals.{excess, first_excess, first_misplaced, high, in_element, is_nested};
ghost use Rattle.tpl_syntax.specs.Refusals.{many_lines, misplacing, missing, refusal_of};
ghost use Rattle.tpl_syntax.specs.Lines.{formula_of};
ghost use Rattle.tpl_syntax.specs.Places.{role_of};
ghost use Rattle.tpl_syntax.specs.Views.{bare_seen, fault_seen, judged_read, place_of, read_at, role_seen};

use crate::place::{Content, Place, Role, is_child, is_each, is_opening, role_of};
use crate::reader::Seen;
use crate::{Line, Purpose, TemplateFault, TemplateWhy};
use formula_text::FormulaFault;
use sig_base::MOST_TEMPLATE_LINES;

/// How many levels may stand in each other, of which a template is the first.
pub const MOST_DEPTH: usize = 32;

/// A line that was read, and what is wrong with it.
#[derive(Drop)]
pub struct ReadLine {
    pub number: u32,
    /// What may not stand where it does.
    pub misplaced: Option<TemplateWhy>,
    /// What there is too much of.
    pub excess: Option<TemplateWhy>,
    pub line: Line<Seen>,
}

// The formula of a line.
fn formula_of(line: &Line<Seen>) -> Option<&Seen>
    ensures { option_map (λ s. s.now) result ≡ formula_of line.now }
{
    match line {
        Line::Plain(_) => None,
        Line::Over(_, seen) => Some(seen),
    }
}

// What is wrong with the formula of a line.
fn fault_of(line: &Line<Seen>) -> Option<FormulaFault>
    ensures { result ≡ fault_seen line.now }
{
    match formula_of(line) {
        Some(seen) => match &seen.told {
            Ok(_) => None,
            Err(fault) => Some(*fault),
        },
        None => None,
    }
}

fn is_bare(line: &Line<Seen>) -> bool
    ensures { result ≡ bare_seen line.now }
{
    match line {
        Line::Over(Purpose::Text, seen) => seen.bare,
        _ => false,
    }
}

// A formula that speaks of what isn't there.
fn missing(fault: Option<FormulaFault>) -> Option<TemplateWhy>
    ensures { result ≡ missing fault }
{
    match fault {
        Some(FormulaFault::UntrackHere) => Some(TemplateWhy::UntrackHere),
        Some(FormulaFault::ItHere) => Some(TemplateWhy::ItHere),
        _ => None,
    }
}

// A child that may not stand in the element around it.
fn in_element(content: Content, bare: bool, role: &Role<'_>) -> Option<TemplateWhy>
    ensures { result ≡ in_element content bare (role_seen role.now) }
{
    match content {
        Content::Nothing if is_child(role) => Some(TemplateWhy::VoidChild),
        Content::Bare if is_child(role) && !bare => Some(TemplateWhy::RawText),
        _ => None,
    }
}

// An `each` in an `each`, or too many levels.
fn is_nested(place: &Place, role: &Role<'_>) -> bool
    ensures { result ≡ is_nested (place_of place.now) (role_seen role.now) }
{
    let again = is_each(role) && place.in_loop();
    let deep = is_opening(role) && MOST_DEPTH < place.depth() + 2;
    again || deep
}

// A formula that is too high.
fn high(fault: Option<FormulaFault>) -> Option<TemplateWhy>
    ensures { result ≡ high fault }
{
    match fault {
        Some(FormulaFault::Nest) => Some(TemplateWhy::Nest),
        _ => None,
    }
}

// A formula that has too much of something.
fn excess(fault: Option<FormulaFault>) -> Option<TemplateWhy>
    ensures { result ≡ excess fault }
{
    match fault {
        Some(FormulaFault::TextLong) => Some(TemplateWhy::Text),
        Some(FormulaFault::Sources) => Some(TemplateWhy::Sources),
        _ => None,
    }
}

// What may not stand there of a line.
fn misplacing(place: &Place, line: &Line<Seen>) -> Option<TemplateWhy>
    ensures { result ≡ misplacing (place_of place.now) (fault_seen line.now) (bare_seen line.now) (role_of line.now) }
{
    let fault = fault_of(line);
    let role = role_of(line);
    if let Some(why) = missing(fault) {
        return Some(why);
    }
    if let Some(why) = in_element(place.content(), is_bare(line), &role) {
        return Some(why);
    }
    if is_nested(place, &role) {
        return Some(TemplateWhy::Nest);
    }
    high(fault)
}

/// A line that was read at a place.
pub fn read_at(place: &Place, number: u32, line: Line<Seen>) -> ReadLine
    ensures { result ≡ read_at (place_of place.now) number line }
{
    ReadLine {
        number,
        misplaced: misplacing(place, &line),
        excess: excess(fault_of(&line)),
        line,
    }
}

// The first line, and the others.
fn first(lines: &[ReadLine]) -> Option<(&ReadLine, &[ReadLine])>
    ensures { MatchOption result (lines.now ≡ []) (λ x. lines.now ≡ x.0.now ∷ x.1.now) }
{
    if lines.is_empty() {
        None
    } else {
        Some((&lines[0], &lines[1..]))
    }
}

fn first_misplaced(lines: &[ReadLine]) -> Option<TemplateFault>
    ensures { result ≡ first_misplaced (map judged_read lines.now) }
{
    let mut rest = lines;
    while let Some((line, more)) = first(rest) {
        if let Some(why) = line.misplaced {
            let at = line.number as usize;
            return Some(TemplateFault { at, why });
        }
        rest = more;
    }
    None
}

fn first_excess(lines: &[ReadLine]) -> Option<TemplateFault>
    ensures { result ≡ first_excess (map judged_read lines.now) }
{
    let mut rest = lines;
    while let Some((line, more)) = first(rest) {
        if let Some(why) = line.excess {
            let at = line.number as usize;
            return Some(TemplateFault { at, why });
        }
        rest = more;
    }
    None
}

fn many_lines(lines: &[ReadLine]) -> Option<TemplateFault>
    ensures { result ≡ many_lines (map judged_read lines.now) }
{
    if MOST_TEMPLATE_LINES < lines.len() {
        Some(TemplateFault {
            at: lines.len(),
            why: TemplateWhy::Lines,
        })
    } else {
        None
    }
}

/// What lines are refused for: what may not stand where it does, at the first such line, then too much of something, at the first such
/// line, then too many lines.
pub fn refusal_of(lines: &[ReadLine]) -> Option<TemplateFault>
    ensures { result ≡ refusal_of (map judged_read lines.now) }
{
    if let Some(fault) = first_misplaced(lines) {
        return Some(fault);
    }
    if let Some(fault) = first_excess(lines) {
        return Some(fault);
    }
    many_lines(lines)
}

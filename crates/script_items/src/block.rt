// Reads the blocks whose lines have a grammar of their own.
ghost use Rattle.std.specs.Prelude.{◌≡◌, ◌∷◌, ◌++◌, ◌<◌, ◌≤◌, ℕ, [], true, false, All, IfOk, MatchOption, Some, length, map};
ghost use Rattle.script_lines.specs.Views.{line_of};
ghost use Rattle.live_entries.specs.declared.refusal.Refusal.TheVariants as refusal;
ghost use Rattle.live_cmd.specs.declared.command.Item.TheVariants as item;
ghost use Rattle.script_items.specs.declared.contents.Content.{Content};
ghost use Rattle.script_items.specs.declared.contents.Head.TheVariants as heads;
ghost use Rattle.script_items.specs.Blocks.{block_item, said_head, Block, Ends, IsContent, IsNoHead};
ghost use Rattle.live_cmd.specs.Grammar.{Writes};
ghost use Rattle.script_items.specs.Views.{end_told, head_told};

use crate::common::behind_front;
use crate::contents::{Content, Head, content_of};
use formula_text::FormulaFault;
use line_forms::{Unread, as_name};
use live_cmd::{Item, Line, read_line};
use live_entries::Refusal;
use script_lines::NumberedLine;
use sig_base::{MOST_LINE, Name, NoMemory, Text};
use std::alloc::Global;

// An owner, or none, as it is.
fn copied(inside: &Option<Name>) -> Result<Option<Name>, NoMemory>
    ensures { IfOk result (λ o. o ≡ inside.now) }
{
    match inside {
        Some(name) => Ok(Some(name.copy()?)),
        None => Ok(None),
    }
}

// The first line of an effect.
fn effect_head(name: &Name, inside: &Option<Name>) -> Result<Option<Head>, NoMemory>
    ensures { IfOk result (λ h. h ≡ Some (heads.Effect name.now inside.now)) }
{
    let inside = copied(inside)?;
    let name = name.copy()?;
    Ok(Some(Head::Effect(name, inside)))
}

// The first line of a handler.
fn handler_head(template: &Name, place: u64, event: &Text) -> Result<Option<Head>, NoMemory>
    ensures { IfOk result (λ h. h ≡ Some (heads.On template.now place event.now)) }
{
    let template = template.copy()?;
    let event = event.copy()?;
    Ok(Some(Head::On(template, place, event)))
}

// The first line of a template.
fn template_head(name: &Name) -> Result<Option<Head>, NoMemory>
    ensures { IfOk result (λ h. h ≡ Some (heads.Template name.now)) }
{
    let name = name.copy()?;
    Ok(Some(Head::Template(name)))
}

// The first line of a block, where a line is one.
fn head_told(line: &Result<Line, FormulaFault>) -> Result<Option<Head>, NoMemory>
    ensures { IfOk result (λ h. h ≡ head_told line.now) }
{
    match line {
        Ok(Line::Effect(name, inside)) => effect_head(name, inside),
        Ok(Line::On(template, place, event)) => handler_head(template, *place, event),
        Ok(Line::Template(name)) => template_head(name),
        _ => Ok(None),
    }
}

// Whether a line is an `end`.
fn end_told(line: &Result<Line, FormulaFault>) -> bool
    ensures { result ≡ end_told line.now }
{
    matches!(line, Ok(Line::End))
}

// The first line of an effect without an owner, where each part of it stands behind one blank: it isn't cut into tokens.
fn plain_head(alloc: Global, line: &[u8]) -> Result<Head, Unread>
    ensures { IfOk result (λ h. Writes (said_head h) line.now) }
{
    let Some(text) = behind_front(line, b"effect ") else {
        return Err(Unread::NotThere);
    };
    let name = as_name(alloc, text)?;
    let inside = None;
    Ok(Head::Effect(name, inside))
}

// The first line of a block, where the tokens of bytes say one.
fn head_by_tokens(alloc: Global, line: &[u8]) -> Result<Option<Head>, NoMemory>
    requires { length line.now ≤ MOST_LINE }
    ensures { IfOk result (λ found. MatchOption found (IsNoHead line.now) (λ h. Writes (said_head h) line.now)) }
{
    let Some(found) = read_line(alloc, line)? else {
        return Ok(None);
    };
    let head = head_told(&found.line)?;
    Ok(head)
}

// The first line of a block, where bytes say one.
fn head_at(alloc: Global, line: &[u8]) -> Result<Option<Head>, NoMemory>
    requires { length line.now ≤ MOST_LINE }
    ensures { IfOk result (λ found. MatchOption found (IsNoHead line.now) (λ h. Writes (said_head h) line.now)) }
{
    match plain_head(alloc, line) {
        Ok(head) => Ok(Some(head)),
        Err(Unread::NotThere) => head_by_tokens(alloc, line),
        Err(Unread::NoMemory(e)) => Err(e),
    }
}

// Whether bytes write an `end`. Where they are the word alone it isn't cut into tokens.
fn is_end(alloc: Global, line: &[u8]) -> Result<bool, NoMemory>
    requires { length line.now ≤ MOST_LINE }
    ensures { IfOk result (λ b. Ends b line.now) }
{
    if line == b"end".as_slice() {
        return Ok(true);
    }
    let Some(found) = read_line(alloc, line)? else {
        return Ok(false);
    };
    let ends = end_told(&found.line);
    Ok(ends)
}

// What a block is whose last line is an `end`.
fn ended_item(content: Content) -> Item
    ensures { (n : ℕ) → result ≡ block_item true n content }
{
    match content {
        Content::Faulty(line) => Item::Refused(Refusal::Syntax(line)),
        Content::Refused(refusal) => Item::Refused(refusal),
        Content::Makes(command) => Item::Do(command),
    }
}

// The number of the line at which a block is refused whose last line has this number and isn't an `end`.
fn faulty_number(number: u32, content: &Content) -> u32
    ensures { item.Refused (refusal.Syntax result) ≡ block_item false number content.now }
{
    match content {
        Content::Faulty(line) => *line,
        Content::Refused(_) | Content::Makes(_) => number,
    }
}

// What a block is whose last line has this number and is an `end`, or isn't.
fn block_item(ends: bool, number: u32, content: Box<Content>) -> Item
    ensures { result ≡ block_item ends number content.value }
{
    if ends {
        ended_item(Box::into_inner(content))
    } else {
        Item::Refused(Refusal::Syntax(faulty_number(number, &content)))
    }
}

// What stands in a block, behind a pointer.
fn content_held(alloc: Global, head: Head, lines: &[NumberedLine]) -> Result<Box<Content>, NoMemory>
    requires { All (λ l. length l.text.now ≤ MOST_LINE) lines.now }
    ensures { IfOk result (λ c. IsContent (said_head head) (map line_of lines.now) c.value) }
{
    let content = content_of(alloc, head, lines)?;
    let held = Box::new(alloc, content)?;
    Ok(held)
}

// The lines before the last, and the last.
fn parted<'a, 'b>(
    lines: &'b [NumberedLine<'a>],
) -> Option<(&'b [NumberedLine<'a>], NumberedLine<'a>)>
    ensures { MatchOption result (length lines.now < 1) (λ x. lines.now ≡ x.0.now ++ (x.1 ∷ [])) }
{
    let Some((last, inner)) = lines.split_last() else {
        return None;
    };
    Some((inner, *last))
}

/// What lines are whose first says what begins a block with a grammar of its own; `None` exactly where it doesn't, or no line stands behind
/// it.
pub fn block_of(
    alloc: Global,
    first: NumberedLine,
    others: &[NumberedLine],
) -> Result<Option<Item>, NoMemory>
    requires first { length first.text.now ≤ MOST_LINE }
    requires others { All (λ l. length l.text.now ≤ MOST_LINE) others.now }
    ensures { IfOk result (λ found. MatchOption found (Block (line_of first.entry ∷ map line_of others.now) → ⊥)
        (λ i. (b : Block (line_of first.entry ∷ map line_of others.now)) × (c : Content) × IsContent b.head b.inner c × (i ≡ block_item b.ends b.last.0 c))) }
{
    let Some((inner, last)) = parted(others) else {
        return Ok(None);
    };
    let ends = is_end(alloc, last.text)?;
    let Some(head) = head_at(alloc, first.text)? else {
        return Ok(None);
    };
    let content = content_held(alloc, head, inner)?;
    Ok(Some(block_item(ends, last.number, content)))
}

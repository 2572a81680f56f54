// Reads the items of a script.
ghost use Rattle.std.specs.Prelude.{◌≡◌, ◌+◌, ◌-◌, ◌^◌, ◌<◌, ◌≤◌, [], false, length, drop, None, Ok, IfOk, IfSome, MatchOption, IsTrue, nat_lt};
ghost use Rattle.std.specs.List.{list_any};
ghost use Rattle.script_lines.specs.Pieces.{pieces_of};
ghost use Rattle.script_lines.specs.Views.{line_of, piece_of};
ghost use Rattle.live_cmd.specs.Grammar.{Said, Writes, is_alone};
ghost use Rattle.script_items.specs.Items.{any_long, command_of, item_or, Begins, IsItem, IsNoCommand};
ghost use Rattle.live_cmd.specs.Views.{found_of};
ghost use Rattle.script_items.specs.Views.{item_read, many_told, IsPlain};

use crate::block::block_of;
use crate::common::common_item;
use crate::known::KnownNames;
use crate::many_fields::has_many_fields;
use formula_text::FormulaFault;
use line_forms::Unread;
use live_cmd::{Found, Item, Line, read_line, refused_for};
use live_entries::{LimitWord, Refusal};
use script_lines::{NumberedLine, Piece, next_piece};
use sig_base::{MOST_LINE, NoMemory};
use std::alloc::Global;

// What a line says that is a command by itself.
fn read_command(alloc: Global, line: &[u8]) -> Result<Option<Box<Found>>, NoMemory>
    requires { length line.now ≤ MOST_LINE }
    ensures { IfOk result (λ found. MatchOption found (IsNoCommand line.now)
        (λ f. (x : Said) × Writes x line.now × IsTrue (is_alone x) × (f.value ≡ found_of x))) }
{
    let Some(found) = read_line(alloc, line)? else {
        return Ok(None);
    };
    if !found.alone {
        return Ok(None);
    }
    Ok(Some(found))
}

// Whether a line that was read makes a list of too many fields.
fn many_told(line: &Result<Line, FormulaFault>) -> bool
    ensures { result ≡ many_told line.now }
{
    match line {
        Ok(Line::Alone(command)) => has_many_fields(command),
        _ => false,
    }
}

// What a line of this number gives, which makes no list of too many fields.
fn line_item(number: u32, line: Line) -> Item
    requires { many_told (Ok line) ≡ false }
    ensures { result ≡ item_or number (command_of line) }
{
    match line {
        Line::Alone(command) => Item::Do(command),
        Line::Effect(..) | Line::On(..) | Line::Template(_) | Line::End => {
            Item::Refused(Refusal::Syntax(number))
        }
    }
}

// So it is with a line that was read.
fn told_item(number: u32, found: Found) -> Item
    requires { many_told found.line ≡ false }
    ensures { result ≡ item_read number found.line }
{
    match found.line {
        Ok(line) => line_item(number, line),
        Err(fault) => Item::Refused(refused_for(number, fault)),
    }
}

// What the line of this number is in which this was found.
fn found_item(number: u32, found: Box<Found>) -> Item
    ensures { result ≡ item_read number found.value.line }
{
    if many_told(&found.line) {
        return Item::Refused(Refusal::Limit(LimitWord::Fields));
    }
    told_item(number, Box::into_inner(found))
}

// What a line is by its tokens, if it begins no block.
fn told_by_tokens(alloc: Global, line: NumberedLine) -> Result<Item, NoMemory>
    requires { length line.text.now ≤ MOST_LINE }
    ensures { IfOk result (λ i. IsPlain (line_of line.entry) i) }
{
    let Some(found) = read_command(alloc, line.text)? else {
        return Ok(Item::Refused(Refusal::Syntax(line.number)));
    };
    Ok(found_item(line.number, found))
}

// What a line is that begins no block. The commonest lines are looked at before all others.
fn plain_item(alloc: Global, known: &mut KnownNames, line: NumberedLine) -> Result<Item, NoMemory>
    requires { length line.text.now ≤ MOST_LINE }
    ensures { IfOk result (λ i. IsPlain (line_of line.entry) i) }
{
    match common_item(alloc, known, line.text) {
        Ok(item) => Ok(item),
        Err(Unread::NotThere) => told_by_tokens(alloc, line),
        Err(Unread::NoMemory(e)) => Err(e),
    }
}

// Whether one of lines has more than `MOST_LINE` bytes.
fn any_long(lines: &[NumberedLine]) -> bool
    ensures { result ≡ list_any (λ l. nat_lt MOST_LINE (length l.text.now)) lines.now }
{
    lines.iter().any(|line| MOST_LINE < line.text.len())
}

// Whether a line of a piece has.
fn has_long(piece: &Piece) -> bool
    ensures { result ≡ any_long (piece_of piece.now).lines }
{
    if MOST_LINE < piece.first.text.len() {
        return true;
    }
    any_long(&piece.others)
}

// What a piece of a script is.
fn item_of(alloc: Global, known: &mut KnownNames, piece: &Piece) -> Result<Item, NoMemory>
    ensures { IfOk result (λ i. IsItem (piece_of piece.now) i) }
{
    if has_long(piece) {
        return Ok(Item::Refused(Refusal::Limit(LimitWord::Line)));
    }
    if !piece.ended {
        return Ok(Item::Refused(Refusal::Syntax(piece.first.number)));
    }
    if let Some(item) = block_of(alloc, piece.first, &piece.others)? {
        return Ok(item);
    }
    let item = plain_item(alloc, known, piece.first)?;
    Ok(item)
}

/// The first item from a byte on, the place after it, and the number of the line there. The byte begins a line of this
/// number; `None` exactly where nothing is left but empty lines and comments.
///
/// An item is a line or, from an `effect`, an `on` or a `template` line to the `end` that closes it, a block. It is refused for the first of
/// these causes: a line of more than `MOST_LINE` bytes; an end that is missing, as `Syntax` with the number of its first line; a line
/// that isn't in the grammar or may not stand there, as `Syntax` with the number of the first such line; the first line with an
/// `untrack` outside of an effect, an `it` where there is no row, a child that its element can't hold, a formula that is higher than
/// `MOST_HEIGHT`, or what is nested more than its grammar allows; the first line with a text of more than `MOST_TEXT` bytes, a list of more
/// than `MOST_FIELDS` fields, a formula of more than `MOST_SOURCES` names or a host formula of more arguments; the body of an effect or of a
/// handler of more than `MOST_BODY_LINES` lines, a template of more than `MOST_TEMPLATE_LINES`.
/// Names that are known need no room; those of the commonest lines are known from then on. `NoMemory` where the item finds no room.
pub fn next_item(
    alloc: Global,
    known: &mut KnownNames,
    script: &[u8],
    at: usize,
    line: u32,
) -> Result<Option<(Item, usize, u32)>, NoMemory>
    requires at { at ≤ length script.now }
    requires short { length script.now < 2 ^ 31 }
    requires count { line < 2 ^ 31 }
    ensures within { IfOk result (λ found. IfSome found (λ x. (at < x.1) × (x.1 ≤ length script.now))) }
    ensures count { IfOk result (λ found. IfSome found (λ x. x.2 ≤ line + (x.1 - at))) }
    ensures known { IfOk result (λ found. found ≡ None → known.new ≡ known.old) }
    ensures item { IfOk result (λ found. MatchOption found (pieces_of line (drop at script.now) ≡ []) (λ x. Begins script.now at line x.0 x.1 x.2)) }
{
    let Some((piece, next, after)) = next_piece(alloc, script, at, line)? else {
        return Ok(None);
    };
    let found = item_of(alloc, known, &piece)?;
    Ok(Some((found, next, after)))
}

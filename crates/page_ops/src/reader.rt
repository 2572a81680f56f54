// Operations read from their text. What is read is written again: only where that gives the same bytes it stands there.
ghost use Rattle.std.specs.Prelude.{◌≡◌, ◌≤◌, List, ℕ, IfErr, IfOk, length, take};
ghost use Rattle.page_model.specs.Replay as replay;
ghost use Rattle.page_model.specs.Texts.{op_text};
ghost use Rattle.page_ops.specs.Ops.{HasText, Refuses, op_of};
ghost use Rattle.page_ops.specs.Parser.{IsSaid, word_of};

use crate::nodes::{number_at, sub};
use crate::op::{Op, OpFault};
use crate::parts::{behind, literal, name, word};
use crate::writer::op_line;
use sig_base::NoMemory;
use std::alloc::Global;

// How many levels stand below a node that comes, at most.
const MOST_BELOW: u64 = 31;

/// What an operation does.
#[derive(Clone, Copy)]
pub enum Verb {
    Remove,
    Insert,
    Move,
    Text,
    Attr,
    Unattr,
}

// The verb of a word.
fn meant_by(word: &[u8]) -> Verb
    ensures { (v : Verb) → word.now ≡ word_of v → result ≡ v }
{
    match word {
        b"remove" => Verb::Remove,
        b"insert" => Verb::Insert,
        b"move" => Verb::Move,
        b"text" => Verb::Text,
        b"attr" => Verb::Attr,
        _ => Verb::Unattr,
    }
}

// The insertion whose place stands at the front, and then its node.
fn insertion(alloc: Global, parent: u64, bytes: &[u8]) -> Result<Op, NoMemory>
    ensures writable { IfOk result (λ r. HasText (op_of r)) }
    ensures same { IfOk result (λ r. (o : replay.Op) → IsSaid Verb.Insert parent bytes.now o → op_of r ≡ o) }
{
    let (place, left) = number_at(bytes);
    let (sub, _) = sub(alloc, behind(left, 2), MOST_BELOW)?;
    // a subtree is one node, whatever stands below it
    let _ = sub.number();
    Ok(Op::Insert(parent, place, sub))
}

// The new attribute whose place stands at the front, and then its name and its value.
fn attribute(alloc: Global, number: u64, bytes: &[u8]) -> Result<Op, NoMemory>
    ensures writable { IfOk result (λ r. HasText (op_of r)) }
    ensures same { IfOk result (λ r. (o : replay.Op) → IsSaid Verb.Attr number bytes.now o → op_of r ≡ o) }
{
    let (place, left) = number_at(bytes);
    let (word, left) = word(behind(left, 1));
    let name = name(alloc, word)?;
    let value = literal(alloc, behind(left, 1))?;
    Ok(Op::Attr(number, place, name, value))
}

// The operation whose text goes on so behind its word, a number and a space.
fn said(alloc: Global, does: Verb, number: u64, bytes: &[u8]) -> Result<Op, NoMemory>
    ensures writable { IfOk result (λ r. HasText (op_of r)) }
    ensures same { IfOk result (λ r. (o : replay.Op) → IsSaid does number bytes.now o → op_of r ≡ o) }
{
    match does {
        Verb::Remove => Ok(Op::Remove(number)),
        Verb::Insert => {
            let op = insertion(alloc, number, bytes)?;
            Ok(op)
        }
        Verb::Move => Ok(Op::Move(number, number_at(bytes).0)),
        Verb::Text => Ok(Op::Text(number, literal(alloc, bytes)?)),
        Verb::Attr => {
            let op = attribute(alloc, number, bytes)?;
            Ok(op)
        }
        Verb::Unattr => Ok(Op::Unattr(number, name(alloc, word(bytes).0)?)),
    }
}

// The operation of these bytes, or another one where they are no operation's text.
fn likely(alloc: Global, bytes: &[u8]) -> Result<Op, NoMemory>
    ensures writable { IfOk result (λ r. HasText (op_of r)) }
    ensures same { IfOk result (λ r. (o : replay.Op) → HasText o → bytes.now ≡ op_text o → op_of r ≡ o) }
{
    let (word, left) = word(bytes);
    let (number, left) = number_at(behind(left, 1));
    let op = said(alloc, meant_by(word), number, behind(left, 1))?;
    Ok(op)
}

// How many bytes at the front are the same.
fn common_length(line: &[u8], bytes: &[u8]) -> usize
    ensures within { result ≤ length bytes.now }
    ensures same { take result line.now ≡ take result bytes.now }
{
    let mut count = 0;
    while count < line.len() && count < bytes.len() && line[count] == bytes[count] {
        count += 1;
    }
    count
}

/// Reads the operation of which these bytes are the text, as `op_line` appends it. `Bad` where they are no operation's text: an
/// operation has one where its numbers are below 2^64, its texts are texts, its names are names of HTML, those of one element's
/// attributes are distinct, no child stands below a text, and what it brings has at most 32 levels.
pub fn read_op(alloc: Global, bytes: &[u8]) -> Result<Op, OpFault>
    ensures text { IfOk result (λ o. op_text (op_of o) ≡ bytes.now) }
    ensures writable { IfOk result (λ o. HasText (op_of o)) }
    ensures refused { IfErr result (λ e. Refuses bytes.now e) }
{
    let op = likely(alloc, bytes)?;
    let mut line = Vec::new(alloc);
    op_line(&mut line, &op)?;
    if line.as_slice() != bytes {
        return Err(OpFault::Bad(common_length(&line, bytes)));
    }
    Ok(op)
}

/// A text is that of one operation: two operations that have the same text are the same. So what `op_line` appends of an
/// operation that has a text is read as that operation.
pub fn one_reading()
    ensures { (o p : replay.Op) → HasText o → HasText p → op_text o ≡ op_text p → o ≡ p }
{}

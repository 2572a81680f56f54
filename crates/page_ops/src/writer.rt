// Operations as text.
ghost use Rattle.std.specs.Prelude.{◌≡◌, ◌++◌, ◌∷◌, [], OnOk};
ghost use Rattle.std.specs.Fmt.{decimal};
ghost use Rattle.sig_base.specs.Printer.{quoted};
ghost use Rattle.page_model.specs.Texts.{AreSized, HaveTexts, IsNumber, IsSized, IsText, op_text, written_attributes, written_nodes};
ghost use Rattle.page_tree.specs.Subs.{insertion, sub_tree};
ghost use Rattle.page_ops.specs.Ops.{op_of, opened};

use crate::op::Op;
use html_out::put_bytes;
use page_tree::Sub;
use sig_base::{NoMemory, Text, put_decimal, put_quoted};

// A word, and a number behind it.
fn put_number(out: &mut Vec<u8>, before: &[u8], number: u64) -> Result<(), NoMemory>
    ensures text { OnOk result (out.new.items ≡ out.old.items ++ (before.now ++ decimal number)) }
    ensures sized { IsNumber number }
{
    put_bytes(out, before)?;
    put_decimal(out, number)?;
    Ok(())
}

// A text in double quotes.
fn put_text(out: &mut Vec<u8>, text: &Text) -> Result<(), NoMemory>
    ensures text { OnOk result (out.new.items ≡ out.old.items ++ quoted text.now) }
    ensures sized { IsText text.now }
{
    // a text has few bytes
    let _ = text.len();
    put_quoted(out, text.as_str())
}

// A space, and a text in double quotes.
fn put_literal(out: &mut Vec<u8>, text: &Text) -> Result<(), NoMemory>
    ensures text { OnOk result (out.new.items ≡ out.old.items ++ 32 ∷ quoted text.now) }
    ensures sized { OnOk result (IsText text.now) }
{
    put_bytes(out, b" ")?;
    put_text(out, text)?;
    Ok(())
}

// A space, and a name.
fn put_name(out: &mut Vec<u8>, name: &Text) -> Result<(), NoMemory>
    ensures { OnOk result (out.new.items ≡ out.old.items ++ 32 ∷ name.now) }
{
    put_bytes(out, b" ")?;
    put_bytes(out, name.as_str().as_bytes())?;
    Ok(())
}

fn put_attribute(out: &mut Vec<u8>, name: &Text, value: &Text) -> Result<(), NoMemory>
    ensures text { OnOk result (out.new.items ≡ out.old.items ++ 32 ∷ (name.now ++ 61 ∷ quoted value.now)) }
    ensures sized { OnOk result (IsText value.now) }
{
    put_name(out, name)?;
    put_bytes(out, b"=")?;
    put_text(out, value)?;
    Ok(())
}

fn put_attributes(out: &mut Vec<u8>, attributes: &[(Text, Text)]) -> Result<(), NoMemory>
    ensures text { OnOk result (out.new.items ≡ out.old.items ++ written_attributes attributes.now) }
    ensures sized { OnOk result (HaveTexts attributes.now) }
{
    for attribute in attributes {
        put_attribute(out, &attribute.0, &attribute.1)?;
    }
    Ok(())
}

// The beginning of an element's node.
fn put_opening(
    out: &mut Vec<u8>,
    number: u64,
    name: &Text,
    attributes: &[(Text, Text)],
) -> Result<(), NoMemory>
    ensures text { OnOk result (out.new.items ≡ out.old.items ++ opened number name.now attributes.now) }
    ensures sized { OnOk result (IsNumber number × HaveTexts attributes.now) }
{
    put_number(out, b" (", number)?;
    put_name(out, name)?;
    put_attributes(out, attributes)?;
    Ok(())
}

// A subtree in parentheses, with a space before it.
fn put_sub(out: &mut Vec<u8>, sub: &Sub) -> Result<(), NoMemory>
    ensures text { OnOk result (out.new.items ≡ out.old.items ++ written_nodes (sub_tree sub.now)) }
    ensures sized { OnOk result (AreSized (sub_tree sub.now)) }
{
    match sub {
        Sub::Text(number, text) => {
            put_number(out, b" (", *number)?;
            put_literal(out, text)?;
            put_bytes(out, b")")?;
            Ok(())
        }
        Sub::Element(number, name, attributes, subs) => {
            put_opening(out, *number, name, attributes)?;
            for sub in subs {
                put_sub(out, sub)?;
            }
            put_bytes(out, b")")?;
            Ok(())
        }
    }
}

fn put_insert(out: &mut Vec<u8>, parent: u64, place: u64, sub: &Sub) -> Result<(), NoMemory>
    ensures text { OnOk result (out.new.items ≡ out.old.items ++ op_text (insertion parent place (sub_tree sub.now))) }
    ensures sized { OnOk result (IsSized (insertion parent place (sub_tree sub.now))) }
{
    // a subtree is one node, whatever stands below it
    let _ = sub.number();
    put_number(out, b"insert ", parent)?;
    put_number(out, b" ", place)?;
    put_sub(out, sub)?;
    Ok(())
}

/// Appends an operation's text: its word and its parts, with single spaces. `sized` says what each operation of these types is:
/// its numbers are numbers, and its texts are texts.
pub fn op_line(out: &mut Vec<u8>, op: &Op) -> Result<(), NoMemory>
    ensures text { OnOk result (out.new.items ≡ out.old.items ++ op_text (op_of op.now)) }
    ensures sized { OnOk result (IsSized (op_of op.now)) }
{
    match op {
        Op::Remove(id) => {
            put_number(out, b"remove ", *id)?;
            Ok(())
        }
        Op::Insert(parent, place, sub) => {
            put_insert(out, *parent, *place, sub)?;
            Ok(())
        }
        Op::Move(id, place) => {
            put_number(out, b"move ", *id)?;
            put_number(out, b" ", *place)?;
            Ok(())
        }
        Op::Text(id, text) => {
            put_number(out, b"text ", *id)?;
            put_literal(out, text)?;
            Ok(())
        }
        Op::Attr(id, place, name, value) => {
            put_number(out, b"attr ", *id)?;
            put_number(out, b" ", *place)?;
            put_name(out, name)?;
            put_literal(out, value)?;
            Ok(())
        }
        Op::Unattr(id, name) => {
            put_number(out, b"unattr ", *id)?;
            put_name(out, name)?;
            Ok(())
        }
    }
}

// What nodes say otherwise than the tree has it.
ghost use Rattle.std.specs.Prelude.{◌≡◌, ◌≤◌, ◌<◌, ◌+◌, ◌^◌, ◌++◌, ℕ, List, map, option_copied, IfOk, OnOk};
ghost use Rattle.std.specs.List.{flat_map};
ghost use Rattle.std.specs.Str.{bytes_eq};
ghost use Rattle.page_model.specs.Edits.{line_edits, same_value};
ghost use Rattle.page_model.specs.Forest.{label_in};
ghost use Rattle.page_model.specs.Labels as label;
ghost use Rattle.page_model.specs.Labels.{Root};
ghost use Rattle.page_model.specs.Replay as replay;
ghost use Rattle.page_ops.specs.Ops.{op_of};
ghost use Rattle.page_tree.specs.Queries.{attribute_value};
ghost use Rattle.tpl_model.specs.NextPage.KeptNodes.{told_on};
ghost use Rattle.tpl_patch.specs.Attributes.{mark_told, set_edits, unset_edits};
ghost use Rattle.tpl_model.specs.ShownNodes.Shapes.{look_of, mark_of};

use page_ops::Op;
use page_tree::Tree;
use sig_base::{NoMemory, Text};
use tpl_model::{Look, Mark};

fn same(one: &Text, other: &Text) -> bool
    ensures { result ≡ bytes_eq one.now other.now }
{
    *one == *other
}

// Whether an attribute is present with this value.
fn is_value(old: Option<&Text>, value: &Text) -> bool
    ensures { result ≡ same_value (option_copied old.entry) value.now }
{
    match old {
        None => false,
        Some(old) => same(old, value),
    }
}

// An absent attribute: it is taken out where the tree has it.
fn put_unset(tree: &Tree, number: u64, name: &Text, ops: &mut Vec<Op>) -> Result<(), NoMemory>
    ensures { OnOk result (map op_of ops.new.items ≡
        map op_of ops.old.items ++ unset_edits number name.now (attribute_value name.now (label_in Root number tree.now))) }
{
    let Some(_) = tree.attr_value(number, name) else {
        return Ok(());
    };
    let name = name.copy()?;
    ops.push(Op::Unattr(number, name))?;
    Ok(())
}

// A present attribute: it is put at its place where the tree has another value or none.
fn put_set(
    tree: &Tree,
    number: u64,
    place: u64,
    name: &Text,
    value: &Text,
    ops: &mut Vec<Op>,
) -> Result<(), NoMemory>
    ensures { OnOk result (map op_of ops.new.items ≡
        map op_of ops.old.items ++ set_edits number place name.now (attribute_value name.now (label_in Root number tree.now)) value.now) }
{
    if is_value(tree.attr_value(number, name), value) {
        return Ok(());
    }
    let name = name.copy()?;
    let value = value.copy()?;
    ops.push(Op::Attr(number, place, name, value))?;
    Ok(())
}

// One attribute; the answer is the place of the next one among those that are present.
fn put_line(
    tree: &Tree,
    number: u64,
    place: u64,
    line: &(Text, Option<Text>),
    ops: &mut Vec<Op>,
) -> Result<u64, NoMemory>
    requires { place < 2 ^ 63 }
    ensures within { IfOk result (λ after. after ≤ place + 1) }
    ensures is { (later : ℕ → List replay.Op) → IfOk result (λ after. map op_of ops.new.items ++ later after ≡
        map op_of ops.old.items ++ line_edits number place line.now.0 (attribute_value line.now.0 (label_in Root number tree.now)) line.now.1 later) }
{
    match &line.1 {
        None => {
            put_unset(tree, number, &line.0, ops)?;
            Ok(place)
        }
        Some(value) => {
            put_set(tree, number, place, &line.0, value, ops)?;
            Ok(place + 1)
        }
    }
}

// The attributes of an element, line by line.
fn put_attributes(
    tree: &Tree,
    number: u64,
    attributes: &[(Text, Option<Text>)],
    ops: &mut Vec<Op>,
) -> Result<(), NoMemory>
    ensures { (name : List ℕ) → OnOk result (map op_of ops.new.items ≡
        map op_of ops.old.items ++ told_on number (label_in Root number tree.now) (label.Element name attributes.now)) }
{
    let Some(_) = tree.attr_count(number) else {
        return Ok(());
    };
    let mut place = 0;
    for line in attributes {
        place = put_line(tree, number, place, line, ops)?;
    }
    Ok(())
}

fn put_text(tree: &Tree, number: u64, text: &Text, ops: &mut Vec<Op>) -> Result<(), NoMemory>
    ensures { OnOk result (map op_of ops.new.items ≡ map op_of ops.old.items ++ told_on number (label_in Root number tree.now) (label.Text text.now)) }
{
    let Some(now) = tree.text_at(number) else {
        return Ok(());
    };
    if same(now, text) {
        return Ok(());
    }
    let text = text.copy()?;
    ops.reserve(1)?;
    ops.push_reserved(Op::Text(number, text));
    Ok(())
}

/// Appends the operations that give a node below the root this look, where the tree has it otherwise: another text, or attributes line by line.
///
/// # Errors
///
/// `NoMemory` alone.
pub(crate) fn put_look(
    tree: &Tree,
    number: u64,
    look: &Look,
    ops: &mut Vec<Op>,
) -> Result<(), NoMemory>
    ensures { OnOk result (map op_of ops.new.items ≡ map op_of ops.old.items ++ told_on number (label_in Root number tree.now) (look_of look.now)) }
{
    match look {
        Look::Text(text) => {
            put_text(tree, number, text, ops)?;
            Ok(())
        }
        Look::Element(_, attributes) => {
            put_attributes(tree, number, attributes, ops)?;
            Ok(())
        }
    }
}

// The operations that give a marked node its look.
fn put_marked(tree: &Tree, mark: &Mark, ops: &mut Vec<Op>) -> Result<(), NoMemory>
    ensures { OnOk result (map op_of ops.new.items ≡ map op_of ops.old.items ++ mark_told tree.now (mark_of mark.now)) }
{
    match &mark.look {
        None => Ok(()),
        Some(look) => {
            put_look(tree, mark.number, look, ops)?;
            Ok(())
        }
    }
}

/// Appends the operations that give marked nodes their looks, one node after the other; the root says nothing.
///
/// # Errors
///
/// `NoMemory` alone.
pub fn put_looks(tree: &Tree, marks: &[Mark], ops: &mut Vec<Op>) -> Result<(), NoMemory>
    ensures { OnOk result (map op_of ops.new.items ≡ map op_of ops.old.items ++ flat_map (mark_told tree.now) (map mark_of marks.now)) }
{
    for mark in marks {
        put_marked(tree, mark, ops)?;
    }
    Ok(())
}

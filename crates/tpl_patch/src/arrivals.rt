// Nodes that come, as numbered subtrees.
ghost use Rattle.std.specs.Prelude.{◌≡◌, ◌++◌, ◌∷◌, ℕ, [], map, OnOk, IfOk};
ghost use Rattle.page_model.specs.Forest.{node, none};
ghost use Rattle.page_model.specs.Labels as label;
ghost use Rattle.page_model.specs.Labels.{Sound, present};
ghost use Rattle.tpl_patch.specs.Moves.{AreSound, arrivals, next_numbers};
ghost use Rattle.tpl_scratch.specs.Pages.{nodes_of, with_nodes};
ghost use Rattle.tpl_model.specs.ShownNodes.Shapes.{all_shown, child_of, shown_tree};

use sig_base::{NoMemory, Text};
use std::alloc::Global;
use tpl_model::{Child, Look, Shown};
use tpl_scratch::{Nodes, put_attribute, put_named};

// The same value, or none.
fn copied(value: &Option<Text>) -> Result<Option<Text>, NoMemory>
    ensures { IfOk result (λ copy. copy ≡ value.now) }
{
    match value {
        None => Ok(None),
        Some(value) => Ok(Some(value.copy()?)),
    }
}

// The attributes that are present.
fn put_attributes(
    attributes: &[(Text, Option<Text>)],
    out: &mut Vec<(Text, Text)>,
) -> Result<(), NoMemory>
    ensures { OnOk result (out.new.items ≡ out.old.items ++ present attributes.now) }
{
    for attribute in attributes {
        let value = copied(&attribute.1)?;
        put_attribute(out, &attribute.0, value)?;
    }
    Ok(())
}

// An element with all below it.
#[cycle(coming)]
fn put_element(
    alloc: Global,
    name: &Text,
    attributes: &[(Text, Option<Text>)],
    children: &[Shown],
    out: &mut Nodes,
) -> Result<(), NoMemory>
    ensures { (a : ℕ) → Sound (all_shown children.now) → OnOk result (nodes_of out.new ≡
        with_nodes (nodes_of out.old) (node a (label.Element name.now attributes.now) (all_shown children.now) none)) }
{
    let mut values = Vec::new(alloc);
    put_attributes(attributes, &mut values)?;
    let mut below = out.children(alloc)?;
    put_nodes(alloc, children, &mut below)?;
    put_named(out, name, values, below)?;
    Ok(())
}

// A node with all below it.
#[cycle(coming)]
fn put_node(alloc: Global, node: &Shown, out: &mut Nodes) -> Result<(), NoMemory>
    ensures { Sound (shown_tree node.now) → OnOk result (nodes_of out.new ≡ with_nodes (nodes_of out.old) (shown_tree node.now)) }
{
    match &node.look {
        Look::Text(text) => {
            let text = text.copy()?;
            out.put_text(text)?;
            Ok(())
        }
        Look::Element(name, attributes) => {
            put_element(alloc, name, attributes, &node.children, out)?;
            Ok(())
        }
    }
}

/// Appends nodes with all below them, in document order and under the next numbers.
///
/// # Errors
///
/// `NoMemory` alone.
#[cycle(coming)]
pub fn put_nodes(alloc: Global, nodes: &[Shown], out: &mut Nodes) -> Result<(), NoMemory>
    ensures { Sound (all_shown nodes.now) → OnOk result (nodes_of out.new ≡ with_nodes (nodes_of out.old) (all_shown nodes.now)) }
{
    for node in nodes {
        put_node(alloc, node, out)?;
    }
    Ok(())
}

// One child: its number, and what comes.
fn put_child(
    alloc: Global,
    child: &Child,
    numbers: &mut Vec<u64>,
    coming: &mut Nodes,
) -> Result<(), NoMemory>
    requires { AreSound (child_of child.now ∷ []) }
    ensures numbers { OnOk result (numbers.new.items ≡ numbers.old.items ++ next_numbers coming.old.next (child_of child.now ∷ [])) }
    ensures coming { OnOk result (nodes_of coming.new ≡ with_nodes (nodes_of coming.old) (arrivals (child_of child.now ∷ []))) }
{
    match child {
        Child::Kept(number) => {
            numbers.push(*number)?;
            Ok(())
        }
        Child::New(node) => {
            numbers.push(coming.next)?;
            put_node(alloc, node, coming)?;
            Ok(())
        }
    }
}

/// The next children of a node: the numbers of all of them, and those that come, as subtrees, with the next number after these.
#[derive(Drop)]
pub struct Row {
    pub numbers: Vec<u64>,
    pub coming: Nodes,
}

/// The next children of a node, where what comes has the numbers from `next` on.
pub fn row_of(alloc: Global, next: u64, children: &[Child]) -> Result<Row, NoMemory>
    requires { AreSound (map child_of children.now) }
    ensures numbers { IfOk result (λ r. r.numbers.items ≡ next_numbers next (map child_of children.now)) }
    ensures coming { IfOk result (λ r. nodes_of r.coming ≡ with_nodes (record { nodes = none; next = next }) (arrivals (map child_of children.now))) }
{
    let mut numbers = Vec::with_capacity(alloc, children.len())?;
    let subs = Vec::new(alloc);
    let mut coming = Nodes { subs, next };
    for child in children {
        put_child(alloc, child, &mut numbers, &mut coming)?;
    }
    Ok(Row { numbers, coming })
}

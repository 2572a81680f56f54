// Numbered subtrees, and the rows that they bring to a table.
ghost use Rattle.std.specs.Prelude.{◌≡◌, ◌++◌, ◌∷◌, [], IfOk, OnOk, map};
ghost use Rattle.page_model.specs.Edits.{siblings};
ghost use Rattle.page_model.specs.Labels as label;
ghost use Rattle.page_tree.specs.Rows.{label_of, numbered_row, row_with};
ghost use Rattle.page_tree.specs.Subs.{rows_of, side_by_side, sub_tree, tree_number};

use crate::behind::Behind;
use crate::element_name::ElementName;
use crate::table::{Label, Node};
use crate::text_node::TextNode;
use sig_base::{NoMemory, Text};
use std::alloc::Global;

/// A numbered text, or a numbered element with its name, its attributes and its children.
#[derive(Drop)]
pub enum Sub {
    Text(u64, Text),
    Element(u64, Text, Vec<(Text, Text)>, Vec<Sub>),
}

impl Sub {
    /// Its number.
    pub fn number(&self) -> u64
        ensures number { result ≡ tree_number (sub_tree self.now) }
        ensures alone { siblings (sub_tree self.now) ≡ result ∷ [] }
    {
        match self {
            Sub::Text(number, _) => *number,
            Sub::Element(number, _, _, _) => *number,
        }
    }
}

fn put_row(
    rows: &mut Vec<(u64, Node)>,
    number: u64,
    label: Label,
    parent: u64,
    children: Vec<u64>,
) -> Result<(), NoMemory>
    ensures { OnOk result (map numbered_row rows.new.items ≡ map numbered_row rows.old.items ++ (number, row_with label parent children.items) ∷ []) }
{
    rows.push((
        number,
        Node {
            label,
            parent,
            children,
            behind: Behind::new(),
        },
    ))?;
    Ok(())
}

fn copy_attributes(
    alloc: Global,
    attributes: &[(Text, Text)],
) -> Result<Vec<(Text, Text)>, NoMemory>
    ensures { IfOk result (λ xs. xs.items ≡ attributes.now) }
{
    let mut copies = Vec::new(alloc);
    for attribute in attributes {
        copies.push((attribute.0.copy()?, attribute.1.copy()?))?;
    }
    Ok(copies)
}

// What an element is, under the same name and with the same attributes.
fn element(alloc: Global, name: &Text, attributes: &[(Text, Text)]) -> Result<Label, NoMemory>
    ensures { IfOk result (λ l. label_of l ≡ label.Element name.now attributes.now) }
{
    let name = name.copy()?;
    let attributes = copy_attributes(alloc, attributes)?;
    Ok(Label::Element(ElementName::new(name), attributes))
}

// The numbers of subtrees.
fn numbers_of(alloc: Global, subs: &[Sub]) -> Result<Vec<u64>, NoMemory>
    ensures { IfOk result (λ ns. ns.items ≡ siblings (side_by_side (map sub_tree subs.now))) }
{
    let mut numbers = Vec::with_capacity(alloc, subs.len())?;
    for sub in subs {
        numbers.push(sub.number())?;
    }
    Ok(numbers)
}

/// Appends the rows of a subtree below a parent, each node before those below it; their texts share the subtree's bytes.
pub fn put_rows(
    alloc: Global,
    rows: &mut Vec<(u64, Node)>,
    parent: u64,
    sub: &Sub,
) -> Result<(), NoMemory>
    ensures { OnOk result (map numbered_row rows.new.items ≡ map numbered_row rows.old.items ++ rows_of parent (sub_tree sub.now)) }
{
    match sub {
        Sub::Text(number, text) => {
            let label = Label::Text(TextNode::new(text.copy()?));
            put_row(rows, *number, label, parent, Vec::new(alloc))?;
            Ok(())
        }
        Sub::Element(number, name, attributes, subs) => {
            let label = element(alloc, name, attributes)?;
            let children = numbers_of(alloc, subs)?;
            put_row(rows, *number, label, parent, children)?;
            for sub in subs {
                put_rows(alloc, rows, *number, sub)?;
            }
            Ok(())
        }
    }
}

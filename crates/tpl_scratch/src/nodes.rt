// Numbered nodes that are made one after the other.
ghost use Rattle.std.specs.Prelude.{◌≡◌, ◌+◌, map, IfOk, OnOk};
ghost use Rattle.page_model.specs.Forest.{after, node, none};
ghost use Rattle.page_model.specs.Labels as label;
ghost use Rattle.page_tree.specs.Subs.{side_by_side, sub_tree};
ghost use Rattle.tpl_scratch.specs.Pages.{beside, nodes_of, with_all, with_nodes};

use page_tree::Sub;
use sig_base::{NoMemory, Text};
use std::alloc::Global;

/// Numbered nodes in document order, and the next number.
#[derive(Drop)]
pub struct Nodes {
    pub subs: Vec<Sub>,
    pub next: u64,
}

// The number after a number; there is no memory for as many nodes as there are numbers.
fn following(number: u64) -> Result<u64, NoMemory>
    ensures { IfOk result (λ n. n ≡ number + 1) }
{
    match number.checked_add(1) {
        Some(next) => Ok(next),
        None => Err(NoMemory),
    }
}

impl Nodes {
    /// No nodes; the next number is 1.
    pub fn new(alloc: Global) -> Nodes
        ensures { nodes_of result ≡ record { nodes = none; next = 1 } }
    {
        Nodes {
            subs: Vec::new(alloc),
            next: 1,
        }
    }

    // Appends a node with all below it.
    fn push(&mut self, sub: Sub) -> Result<(), NoMemory>
        ensures { OnOk result (nodes_of self.new ≡ record { nodes = after (nodes_of self.old).nodes (sub_tree sub); next = self.old.next }) }
    {
        self.subs.push(sub)?;
        Ok(())
    }

    /// Appends a text.
    pub fn put_text(&mut self, text: Text) -> Result<(), NoMemory>
        ensures { OnOk result (nodes_of self.new ≡ with_nodes (nodes_of self.old) (node 0 (label.Text text) none none)) }
    {
        let number = self.next;
        let next = following(number)?;
        self.next = next;
        self.push(Sub::Text(number, text))?;
        Ok(())
    }

    /// No nodes so far, under the next numbers, of which it isn't known yet whether they are shown.
    pub(crate) fn beside(&self, alloc: Global) -> Nodes
        ensures { nodes_of result ≡ beside (nodes_of self.now) }
    {
        Nodes {
            subs: Vec::new(alloc),
            next: self.next,
        }
    }

    /// Appends nodes that were made beside these.
    pub(crate) fn put_all(&mut self, more: Nodes) -> Result<(), NoMemory>
        ensures { OnOk result (nodes_of self.new ≡ with_all (nodes_of self.old) (nodes_of more)) }
    {
        let Nodes { subs, next } = more;
        let mut subs = subs;
        self.subs.append(&mut subs)?;
        self.next = next;
        Ok(())
    }

    /// The children, none so far, of the element that is appended next.
    pub fn children(&self, alloc: Global) -> Result<Nodes, NoMemory>
        ensures { IfOk result (λ n. nodes_of n ≡ record { nodes = none; next = self.now.next + 1 }) }
    {
        let next = following(self.next)?;
        Ok(Nodes {
            subs: Vec::new(alloc),
            next,
        })
    }

    /// Appends an element whose children have the next numbers.
    pub fn put_element(
        &mut self,
        name: Text,
        attributes: Vec<(Text, Text)>,
        children: Nodes,
    ) -> Result<(), NoMemory>
        ensures { OnOk result (nodes_of self.new ≡ record {
          nodes = after (nodes_of self.old).nodes (node self.old.next (label.Element name attributes.items) (nodes_of children).nodes none);
          next = children.next;
        }) }
    {
        let number = self.next;
        self.next = children.next;
        self.push(Sub::Element(number, name, attributes, children.subs))?;
        Ok(())
    }
}

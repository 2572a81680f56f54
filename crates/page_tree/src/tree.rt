// A numbered tree, and what stands in it.
ghost use Rattle.std.specs.Prelude.{◌≡◌, ◌++◌, [], ℕ, IfOk, MatchResult, OnOk, None, Some, true, ◌≤◌, IfSome, if◌then◌else◌, is_some, option_copied};
ghost use Rattle.std.specs.List.{slice_get};
ghost use Rattle.page_model.specs.Edits.{siblings};
ghost use Rattle.page_model.specs.Forest.{keys, kids, label_in, node, none, on, parent};
ghost use Rattle.page_model.specs.Html.{html_of};
ghost use Rattle.page_model.specs.Labels.{Root};
ghost use Rattle.page_model.specs.Replay as replay;
ghost use Rattle.page_model.specs.Trees.{Brings, IsTree};
ghost use Rattle.page_tree.specs.Queries as reading;
ghost use Rattle.page_tree.specs.Queries.{IsDone};
ghost use Rattle.page_tree.specs.Rows.{label_of, label_or_root, look, written};
ghost use Rattle.page_tree.specs.Subs.{insertion, sub_tree};

use crate::ancestors::climb;
use crate::behind::Behind;
use crate::html::write_nodes;
use crate::moves::{insert_rows, move_node, remove_node};
use crate::numbers::put_number;
use crate::sub::{Sub, put_rows};
use crate::table::{
    Label, Node, add_row, find_at, place_in, place_named, set_attribute, set_label, spot_behind,
    unset_attribute, value_named,
};
use crate::text_node::TextNode;
use indexmap::IndexMap;
use sig_base::{NoMemory, Text};
use std::alloc::Global;
use std::marker::Model;

/// What a node is; `Void` is an element without an end tag, which can't hold children.
#[derive(Clone, Copy)]
pub enum NodeKind {
    Root,
    Text,
    Element,
    Void,
}

/// A numbered tree below a root, whose number is 0.
pub struct Tree {
    nodes: IndexMap<u64, Node>,
}

impl Drop for Tree {
    fn drop(self) {
        let Tree { nodes: _ } = self;
    }
}

impl Model for Tree {
    ghost use Rattle.page_model.specs.Forest.{Forest};
    ghost use Rattle.page_model.specs.Labels.{Kind};
    ghost use Rattle.page_model.specs.Codes.{tree_code};

    ghost Value = { Forest Kind };

    ghost coded = { tree_code };

    ghost use Rattle.page_tree.specs.Rows.{IsKept, look, tree_in};

    ghost view = { λ t. tree_in (look t.nodes) };

    ghost invariant = { λ t. IsKept (look t.nodes) };
}

// The table of the root alone.
fn root_alone(alloc: Global) -> Result<IndexMap<u64, Node>, NoMemory>
    ensures { IfOk result (λ m. (q : ℕ) → look m q ≡ written 0 (record { label = Root; parent = 0; children = [] }) q None) }
{
    let mut nodes = IndexMap::new(alloc);
    nodes.reserve(1)?;
    let root = Node {
        label: Label::Root,
        parent: 0,
        children: Vec::new(alloc),
        behind: Behind::new(),
    };
    add_row(&mut nodes, 0, root);
    Ok(nodes)
}

// What a label's node is.
fn kind_of(label: &Label) -> NodeKind
    ensures { result ≡ reading.kind_of (label_of label.now) }
{
    match label {
        Label::Root => NodeKind::Root,
        Label::Text(_) => NodeKind::Text,
        Label::Element(name, _) => {
            if name.is_void() {
                NodeKind::Void
            } else {
                NodeKind::Element
            }
        }
    }
}

fn attribute_count(label: &Label) -> Option<usize>
    ensures { result ≡ reading.attribute_count (label_of label.now) }
{
    match label {
        Label::Element(_, attributes) => Some(attributes.len()),
        _ => None,
    }
}

fn attribute_place(label: &Label, name: &Text) -> Option<usize>
    ensures { result ≡ reading.attribute_place name.now (label_of label.now) }
{
    match label {
        Label::Element(_, attributes) => place_named(attributes, name),
        _ => None,
    }
}

fn text_in(label: &Label) -> Option<&Text>
    ensures { option_copied result ≡ reading.text_in (label_of label.now) }
{
    match label {
        Label::Text(node) => Some(node.text()),
        _ => None,
    }
}

fn attribute_value<'a>(label: &'a Label, name: &Text) -> Option<&'a Text>
    ensures { option_copied result ≡ reading.attribute_value name.now (label_of label.now) }
{
    match label {
        Label::Element(_, attributes) => value_named(attributes, name),
        _ => None,
    }
}

fn nth(children: &[u64], place: usize) -> Option<u64>
    ensures { result ≡ slice_get children.now place }
{
    children.get(place).copied()
}

impl Tree {
    /// The tree of the root alone.
    pub fn new(alloc: Global) -> Result<Tree, NoMemory>
        ensures { IfOk result (λ t. t ≡ node 0 Root none none) }
    {
        Ok(Tree {
            nodes: root_alone(alloc)?,
        })
    }

    /// Appends the page's bytes: the children of its root one after the other (WHATWG HTML, serialising fragments).
    pub fn write_html(&self, out: &mut Vec<u8>) -> Result<(), NoMemory>
        ensures { OnOk result (out.new.items ≡ out.old.items ++ html_of self.now) }
    {
        let Some((place, root)) = find_at(&self.nodes, 0, 0) else {
            return Ok(());
        };
        let first = spot_behind(place, root);
        let _ = write_nodes(out, &self.nodes, &root.children, false, 32, first)?;
        Ok(())
    }

    /// Appends the numbers of all nodes in document order, that of the root first.
    ///
    /// # Errors
    ///
    /// `NoMemory` alone.
    pub fn put_numbers(&self, out: &mut Vec<u64>) -> Result<(), NoMemory>
        ensures { OnOk result (out.new.items ≡ out.old.items ++ keys self.now) }
    {
        put_number(out, &self.nodes, 0, 33)?;
        Ok(())
    }

    /// How many children a node has; None exactly where there is no such node.
    pub fn child_count(&self, id: u64) -> Option<usize>
        ensures { result ≡ reading.child_count id self.now }
    {
        let Some(node) = self.nodes.get(&id) else {
            return None;
        };
        Some(node.children.len())
    }

    /// A place of the table at which a node stands, which is looked for at a place first; None exactly where there is no such node.
    pub fn place(&self, id: u64, likely: usize) -> Option<usize>
        ensures { is_some result ≡ on id self.now }
    {
        let Some((place, _)) = find_at(&self.nodes, likely, id) else {
            return None;
        };
        Some(place)
    }

    /// The number of a node's child at a place; None exactly where there is none.
    pub fn child(&self, id: u64, place: usize) -> Option<u64>
        ensures { result ≡ slice_get (siblings (kids id self.now)) place }
    {
        let Some(node) = self.nodes.get(&id) else {
            return None;
        };
        nth(&node.children, place)
    }

    /// The numbers of a node's children; none where there is no such node.
    pub fn children(&self, id: u64) -> &[u64]
        ensures { result.now ≡ siblings (kids id self.now) }
    {
        let Some((_, node)) = find_at(&self.nodes, id as usize, id) else {
            return &[];
        };
        &node.children
    }

    /// What a node is; None exactly where there is no such node.
    pub fn kind(&self, id: u64) -> Option<NodeKind>
        ensures kind { result ≡ reading.kind_at id self.now }
        ensures tree { IsTree self.now }
    {
        let Some(node) = self.nodes.get(&id) else {
            return None;
        };
        Some(kind_of(&node.label))
    }

    /// How many steps a node stands below the root; None exactly where there is no such node.
    pub fn depth(&self, id: u64) -> Option<u64>
        ensures steps { result ≡ reading.depth_at id self.now }
        ensures low { IfSome result (λ steps. steps ≤ 32) }
    {
        let Some(_) = self.nodes.get(&id) else {
            return None;
        };
        Some(climb(&self.nodes, id, 33))
    }

    /// The parent of a node; None exactly for the root and where there is no such node.
    pub fn parent_of(&self, id: u64) -> Option<u64>
        ensures { result ≡ (if replay.below_root id self.now then Some (parent id self.now) else None) }
    {
        if id == 0 {
            return None;
        }
        let Some(node) = self.nodes.get(&id) else {
            return None;
        };
        Some(node.parent)
    }

    /// The parent of a node and its place there; None exactly for the root and where there is no such node.
    pub fn place_of(&self, id: u64) -> Option<(u64, usize)>
        ensures { result ≡ reading.place_at id self.now }
    {
        if id == 0 {
            return None;
        }
        let Some(node) = self.nodes.get(&id) else {
            return None;
        };
        let Some(above) = self.nodes.get(&node.parent) else {
            return None;
        };
        Some((node.parent, place_in(&above.children, id)))
    }

    // What a node is. Where none left, a node stands at the place that is its number, so it is looked for there first.
    fn label_at(&self, id: u64) -> Option<&Label>
        ensures { label_or_root (option_copied result) ≡ label_in Root id self.now }
    {
        let Some((_, node)) = find_at(&self.nodes, id as usize, id) else {
            return None;
        };
        Some(&node.label)
    }

    /// How many attributes an element has; None exactly where there is no such element.
    pub fn attr_count(&self, id: u64) -> Option<usize>
        ensures { result ≡ reading.attribute_count (label_in Root id self.now) }
    {
        attribute_count(self.label_at(id)?)
    }

    /// The place of an element's attribute of a name; None exactly where there is no such element or attribute.
    pub fn attr_place(&self, id: u64, name: &Text) -> Option<usize>
        ensures { result ≡ reading.attribute_place name.now (label_in Root id self.now) }
    {
        attribute_place(self.label_at(id)?, name)
    }

    /// What a text says; None exactly where there is no such text.
    pub fn text_at(&self, id: u64) -> Option<&Text>
        ensures { option_copied result ≡ reading.text_in (label_in Root id self.now) }
    {
        text_in(self.label_at(id)?)
    }

    /// The value of an element's attribute of a name; None exactly where there is no such element or attribute.
    pub fn attr_value<'a>(&'a self, id: u64, name: &Text) -> Option<&'a Text>
        ensures { option_copied result ≡ reading.attribute_value name.now (label_in Root id self.now) }
    {
        attribute_value(self.label_at(id)?, name)
    }

    /// Takes out a node with all below it.
    pub fn remove(&mut self, id: u64)
        requires { replay.below_root id self.old ≡ true }
        ensures { replay.do_op (replay.OpRemove id) self.old ≡ replay.Done self.new }
    {
        remove_node(&mut self.nodes, id);
    }

    /// Moves a node to a place among the other children of its parent.
    pub fn move_to(&mut self, id: u64, place: usize)
        requires { IsDone (replay.do_op (replay.OpMove id place) self.old) }
        ensures { replay.do_op (replay.OpMove id place) self.old ≡ replay.Done self.new }
    {
        move_node(&mut self.nodes, id, place);
    }

    /// Another text at a text.
    pub fn set_text(&mut self, id: u64, text: Text)
        requires { IsDone (replay.do_op (replay.OpText id text) self.old) }
        ensures { replay.do_op (replay.OpText id text) self.old ≡ replay.Done self.new }
    {
        set_label(&mut self.nodes, id, Label::Text(TextNode::new(text)));
    }

    /// Puts an attribute at a place among the other attributes of an element; after NoMemory the tree is as before.
    pub fn set_attr(
        &mut self,
        id: u64,
        place: usize,
        name: &Text,
        value: &Text,
    ) -> Result<(), NoMemory>
        requires { IsDone (replay.do_op (replay.OpAttr id place name.now value.now) self.old) }
        ensures { MatchResult result
            (λ u. replay.do_op (replay.OpAttr id place name.now value.now) self.old ≡ replay.Done self.new)
            (λ e. self.new ≡ self.old) }
    {
        let name = name.copy()?;
        let value = value.copy()?;
        set_attribute(&mut self.nodes, id, place, name, value)?;
        Ok(())
    }

    /// Takes an attribute out of an element; one that isn't there changes nothing.
    pub fn unset_attr(&mut self, id: u64, name: &Text)
        requires { IsDone (replay.do_op (replay.OpUnattr id name.now) self.old) }
        ensures { replay.do_op (replay.OpUnattr id name.now) self.old ≡ replay.Done self.new }
    {
        unset_attribute(&mut self.nodes, id, name);
    }

    /// Puts a copy of a subtree, whose texts share their bytes with it, at a place among the children of a node; after NoMemory the tree is as before.
    pub fn insert(
        &mut self,
        alloc: Global,
        parent: u64,
        place: usize,
        sub: &Sub,
    ) -> Result<(), NoMemory>
        requires nodes { Brings (insertion parent place (sub_tree sub.now)) }
        requires fits { IsDone (replay.do_op (insertion parent place (sub_tree sub.now)) self.old) }
        ensures { MatchResult result
            (λ u. replay.do_op (insertion parent place (sub_tree sub.now)) self.old ≡ replay.Done self.new)
            (λ e. self.new ≡ self.old) }
    {
        let number = sub.number();
        let mut rows = Vec::new(alloc);
        put_rows(alloc, &mut rows, parent, sub)?;
        insert_rows(&mut self.nodes, parent, place, number, rows)?;
        Ok(())
    }
}

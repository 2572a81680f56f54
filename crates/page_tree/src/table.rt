// The nodes of a tree by number, and edits of one of them.
ghost use Rattle.std.specs.Prelude.{◌≡◌, ◌≤◌, ◌<◌, ℕ, Some, true, length, vec_len, vec_capacity, ◌+◌, IfSome, MatchResult, nat_eq, option_copied, option_map};
ghost use Rattle.indexmap.specs.IndexMap.{get, spare};
ghost use Rattle.page_model.specs.Edits.{listed, put_at, taken};
ghost use Rattle.page_model.specs.Pages as pages;
ghost use Rattle.page_model.specs.Replay.{others, put_in};
ghost use Rattle.page_tree.specs.Queries as reading;
ghost use Rattle.page_tree.specs.Rows.{Row, attributes_of, edited, label_of, look, row_of, with_attributes, with_children, with_label, written};

use crate::behind::{Behind, Spot};
use crate::element_name::ElementName;
use crate::text_node::TextNode;
use indexmap::IndexMap;
use sig_base::{NoMemory, Text};

/// What a node is: the root, a text, or an element with its name and its attributes in order.
pub enum Label {
    Root,
    Text(TextNode),
    Element(ElementName, Vec<(Text, Text)>),
}

impl Drop for Label {
    fn drop(self) {
        match self {
            Label::Root => {}
            Label::Text(_) => {}
            Label::Element(_, _) => {}
        }
    }
}

/// What a node is and where it stands: under which parent, above which children; and where the node is likely that is looked for behind it.
pub struct Node {
    pub label: Label,
    pub parent: u64,
    pub children: Vec<u64>,
    pub behind: Behind,
}

impl Drop for Node {
    fn drop(self) {
        let Node {
            label: _,
            parent: _,
            children: _,
            behind: _,
        } = self;
    }
}

// ---- lists of children and of attributes

/// The place of a number among others, and how many they are where it isn't one of them.
pub fn place_in(children: &[u64], id: u64) -> usize
    ensures { result ≡ pages.place_in id children.now }
{
    for (place, child) in children.iter().enumerate() {
        if *child == id {
            return place;
        }
    }
    children.len()
}

fn take_child(children: &mut Vec<u64>, id: u64)
    ensures items { children.new.items ≡ taken id children.old.items }
    ensures room { listed id children.old.items ≡ true → vec_len children.new < vec_capacity children.new }
{
    let place = place_in(children, id);
    if place < children.len() {
        children.remove(place);
    }
}

fn put_child(children: &mut Vec<u64>, place: usize, id: u64)
    requires room { vec_len children.old < vec_capacity children.old }
    requires within { place ≤ vec_len children.old }
    ensures { children.new.items ≡ put_at place id children.old.items }
{
    match children.insert(place, id) {
        Ok(()) => (),
        Err(_) => unreachable!(),
    }
}

/// The place of the first attribute of a name.
pub fn place_named(attributes: &[(Text, Text)], name: &Text) -> Option<usize>
    ensures { result ≡ reading.place_named name.now attributes.now }
{
    for (place, attribute) in attributes.iter().enumerate() {
        if attribute.0 == *name {
            return Some(place);
        }
    }
    None
}

/// The value of the first attribute of a name.
pub fn value_named<'a>(attributes: &'a [(Text, Text)], name: &Text) -> Option<&'a Text>
    ensures { option_copied result ≡ reading.value_named name.now attributes.now }
{
    for attribute in attributes {
        if attribute.0 == *name {
            return Some(&attribute.1);
        }
    }
    None
}

fn take_attribute(attributes: &mut Vec<(Text, Text)>, name: &Text)
    ensures items { attributes.new.items ≡ others name.now attributes.old.items }
    ensures room { vec_len attributes.old < vec_capacity attributes.old → vec_len attributes.new < vec_capacity attributes.new }
{
    if let Some(place) = place_named(attributes, name) {
        attributes.remove(place);
    }
}

fn put_attribute(attributes: &mut Vec<(Text, Text)>, place: usize, name: Text, value: Text)
    requires room { vec_len attributes.old < vec_capacity attributes.old }
    requires within { place ≤ vec_len attributes.old }
    ensures { attributes.new.items ≡ put_in place (name, value) attributes.old.items }
{
    match attributes.insert(place, (name, value)) {
        Ok(()) => (),
        Err(_) => unreachable!(),
    }
}

// ---- look-ups

// The node at a place of the table, if it has a number.
fn node_at(nodes: &IndexMap<u64, Node>, place: usize, id: u64) -> Option<&Node>
    ensures { IfSome result (λ n. get nat_eq nodes.now id ≡ Some n.now) }
{
    let Some((number, node)) = nodes.get_index(place) else {
        return None;
    };
    if *number == id {
        return Some(node);
    }
    None
}

/// A node by its number, and its place in the table; it is looked for at a place first.
pub fn find_at(nodes: &IndexMap<u64, Node>, place: usize, id: u64) -> Option<(usize, &Node)>
    ensures { option_map (λ p. p.1.now) result ≡ get nat_eq nodes.now id }
{
    if let Some(node) = node_at(nodes, place, id) {
        return Some((place, node));
    }
    let Some((place, _, node)) = nodes.get_full(&id) else {
        return None;
    };
    Some((place, node))
}

/// Where a node is looked for behind this one, which stands at a place.
#[inline]
pub fn spot_behind(place: usize, node: &Node) -> Spot {
    Spot {
        near: place,
        likely: node.behind.likely(place),
    }
}

// Notes where the node was found that was looked for behind the one at a place. It stands apart, as most stand where they are likely.
#[inline(never)]
fn note_behind(nodes: &IndexMap<u64, Node>, near: usize, place: usize) {
    if let Some((_, node)) = nodes.get_index(near) {
        node.behind.note(near, place);
    }
}

/// A node by its number, and its place in the table; it is looked for first where it is likely, and where it is found is noted.
pub fn find_near(nodes: &IndexMap<u64, Node>, spot: Spot, id: u64) -> Option<(usize, &Node)>
    ensures { option_map (λ p. p.1.now) result ≡ get nat_eq nodes.now id }
{
    let Some((place, node)) = find_at(nodes, spot.likely, id) else {
        return None;
    };
    if place != spot.likely {
        note_behind(nodes, spot.near, place);
    }
    Some((place, node))
}

// ---- edits of one node

/// Gives a node another label.
pub fn set_label(nodes: &mut IndexMap<u64, Node>, id: u64, label: Label)
    ensures { (q : ℕ) → look nodes.new q ≡ edited id (with_label (label_of label)) q (look nodes.old q) }
{
    let Some(node) = nodes.get_mut(&id) else {
        return;
    };
    node.label = label;
}

/// Takes an attribute out of an element.
pub fn unset_attribute(nodes: &mut IndexMap<u64, Node>, id: u64, name: &Text)
    ensures { (q : ℕ) → look nodes.new q ≡ edited id (with_attributes (others name.now)) q (look nodes.old q) }
{
    let Some(node) = nodes.get_mut(&id) else {
        return;
    };
    let Label::Element(_, attributes) = &mut node.label else {
        return;
    };
    take_attribute(attributes, name);
}

/// Puts an attribute at a place of an element, after it was taken out where it was there.
pub fn set_attribute(
    nodes: &mut IndexMap<u64, Node>,
    id: u64,
    place: usize,
    name: Text,
    value: Text,
) -> Result<(), NoMemory>
    requires { (r : Row) → look nodes.old id ≡ Some r → place ≤ length (others name (attributes_of r.label)) }
    ensures { MatchResult result
        (λ u. (q : ℕ) → look nodes.new q ≡ edited id (with_attributes (λ xs. put_in place (name, value) (others name xs))) q (look nodes.old q))
        (λ e. (q : ℕ) → look nodes.new q ≡ look nodes.old q) }
{
    let Some(node) = nodes.get_mut(&id) else {
        return Ok(());
    };
    let Label::Element(_, attributes) = &mut node.label else {
        return Ok(());
    };
    attributes.reserve(1)?;
    take_attribute(attributes, &name);
    put_attribute(attributes, place, name, value);
    Ok(())
}

/// Moves a child of a node to a place among the others.
pub fn move_child(nodes: &mut IndexMap<u64, Node>, parent: u64, id: u64, place: usize)
    requires { (r : Row) → look nodes.old parent ≡ Some r → (listed id r.children ≡ true) × (place < length r.children) }
    ensures { (q : ℕ) → look nodes.new q ≡ edited parent (with_children (λ ns. put_at place id (taken id ns))) q (look nodes.old q) }
{
    let Some(node) = nodes.get_mut(&parent) else {
        return;
    };
    take_child(&mut node.children, id);
    put_child(&mut node.children, place, id);
}

/// Takes a child out of a node.
pub fn drop_child(nodes: &mut IndexMap<u64, Node>, parent: u64, id: u64)
    ensures { (q : ℕ) → look nodes.new q ≡ edited parent (with_children (taken id)) q (look nodes.old q) }
{
    let Some(node) = nodes.get_mut(&parent) else {
        return;
    };
    take_child(&mut node.children, id);
}

/// Puts a child at a place of a node.
pub fn add_child(
    nodes: &mut IndexMap<u64, Node>,
    parent: u64,
    place: usize,
    id: u64,
) -> Result<(), NoMemory>
    requires { (r : Row) → look nodes.old parent ≡ Some r → place ≤ length r.children }
    ensures rows { MatchResult result
        (λ u. (q : ℕ) → look nodes.new q ≡ edited parent (with_children (put_at place id)) q (look nodes.old q))
        (λ e. (q : ℕ) → look nodes.new q ≡ look nodes.old q) }
    ensures room { spare nodes.old ≤ spare nodes.new }
{
    let Some(node) = nodes.get_mut(&parent) else {
        return Ok(());
    };
    let children = &mut node.children;
    children.reserve(1)?;
    put_child(children, place, id);
    Ok(())
}

/// Puts a node under its number.
pub fn add_row(nodes: &mut IndexMap<u64, Node>, id: u64, node: Node)
    requires { 0 < spare nodes.old }
    ensures rows { (q : ℕ) → look nodes.new q ≡ written id (row_of node) q (look nodes.old q) }
    ensures room { spare nodes.old ≤ spare nodes.new + 1 }
{
    match nodes.insert(id, node) {
        Ok(_) => (),
        Err(_) => unreachable!(),
    }
}

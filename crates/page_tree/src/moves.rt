// Edits of a table that touch more than one of its rows.
ghost use Rattle.std.specs.Prelude.{◌≡◌, ◌≤◌, ◌<◌, ℕ, Some, true, length, map, MatchResult};
ghost use Rattle.indexmap.specs.IndexMap.{spare};
ghost use Rattle.page_model.specs.Edits.{listed, put_at};
ghost use Rattle.page_tree.specs.Rows.{Row, edited, look, moved, numbered_row, removed, with_children};
ghost use Rattle.page_tree.specs.Subs.{after_rows};

use crate::removal::remove_one;
use crate::table::{Node, add_child, add_row, drop_child, move_child};
use indexmap::IndexMap;
use sig_base::NoMemory;

/// Moves a node to a place among the other children of its parent.
pub fn move_node(nodes: &mut IndexMap<u64, Node>, id: u64, place: usize)
    requires { (r s : Row) → look nodes.old id ≡ Some r → look nodes.old r.parent ≡ Some s →
        (listed id s.children ≡ true) × (place < length s.children) }
    ensures { (q : ℕ) → look nodes.new q ≡ moved id place (look nodes.old) q }
{
    let Some(node) = nodes.get(&id) else {
        return;
    };
    let parent = node.parent;
    move_child(nodes, parent, id, place);
}

/// Takes a node and all below it out of a table.
pub fn remove_node(nodes: &mut IndexMap<u64, Node>, id: u64)
    ensures { (q : ℕ) → look nodes.new q ≡ removed id (look nodes.old) q }
{
    let Some(node) = nodes.get(&id) else {
        return;
    };
    let parent = node.parent;
    drop_child(nodes, parent, id);
    remove_one(nodes, id, 32);
}

fn add_rows(nodes: &mut IndexMap<u64, Node>, rows: Vec<(u64, Node)>)
    requires { length rows.items ≤ spare nodes.old }
    ensures { (q : ℕ) → look nodes.new q ≡ after_rows q (map numbered_row rows.items) (look nodes.old q) }
{
    for (id, node) in rows {
        add_row(nodes, id, node);
    }
}

/// Puts a child at a place of a node, and writes rows; after NoMemory no row is another one.
pub fn insert_rows(
    nodes: &mut IndexMap<u64, Node>,
    parent: u64,
    place: usize,
    id: u64,
    rows: Vec<(u64, Node)>,
) -> Result<(), NoMemory>
    requires { (r : Row) → look nodes.old parent ≡ Some r → place ≤ length r.children }
    ensures { MatchResult result
        (λ u. (q : ℕ) → look nodes.new q ≡
        after_rows q (map numbered_row rows.items) (edited parent (with_children (put_at place id)) q (look nodes.old q)))
        (λ e. (q : ℕ) → look nodes.new q ≡ look nodes.old q) }
{
    nodes.reserve(rows.len())?;
    add_child(nodes, parent, place, id)?;
    add_rows(nodes, rows);
    Ok(())
}

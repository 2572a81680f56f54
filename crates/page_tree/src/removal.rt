// Nodes taken out of a table with all below them.
ghost use Rattle.std.specs.Prelude.{◌≡◌, ◌<◌, ◌-◌, ℕ};
ghost use Rattle.page_tree.specs.Rows.{children_of, cut, gone, look};

use crate::table::Node;
use indexmap::IndexMap;

/// Takes a node out, and what stands below it on so many levels.
#[cycle(removing)]
#[tactic(auto, using(crate::proofs::Cuts::cut_cons, crate::proofs::Cuts::cut_nil))]
pub fn remove_one(nodes: &mut IndexMap<u64, Node>, id: u64, levels: u64)
    ensures { (q : ℕ) → look nodes.new q ≡ cut levels (children_of (look nodes.old id)) (gone id (look nodes.old)) q }
{
    let Some(node) = nodes.swap_remove(&id) else {
        return;
    };
    remove_all(nodes, &node.children, levels);
}

#[cycle(removing)]
#[tactic(auto, using(crate::proofs::Cuts::cut_cons, crate::proofs::Cuts::cut_nil))]
fn remove_all(nodes: &mut IndexMap<u64, Node>, ids: &[u64], levels: u64)
    ensures { (q : ℕ) → look nodes.new q ≡ cut levels ids.now (look nodes.old) q }
{
    if levels == 0 {
        return;
    }
    for id in ids {
        remove_one(nodes, *id, levels - 1);
    }
}

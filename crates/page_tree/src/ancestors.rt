// The way up from a node to the root.
ghost use Rattle.std.specs.Prelude.{◌≡◌, ◌≤◌};
ghost use Rattle.page_tree.specs.Rows.{climbed, look};

use crate::table::Node;
use indexmap::IndexMap;

/// How many steps lead up from a node to the root, at most so many.
#[tactic(auto, using(crate::proofs::Upward::climb_step))]
pub fn climb(nodes: &IndexMap<u64, Node>, id: u64, levels: u64) -> u64
    ensures steps { result ≡ climbed levels (look nodes.now) id }
    ensures few { result ≤ levels }
{
    if levels == 0 || id == 0 {
        return 0;
    }
    let Some(node) = nodes.get(&id) else {
        return 0;
    };
    climb(nodes, node.parent, levels - 1) + 1
}

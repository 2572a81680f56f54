// The numbers of a tree's nodes.
ghost use Rattle.std.specs.Prelude.{◌≡◌, ◌<◌, ◌∷◌, ◌++◌, [], OnOk};
ghost use Rattle.page_model.specs.Forest.{keys};
ghost use Rattle.page_tree.specs.Rows.{build, look};

use crate::table::Node;
use indexmap::IndexMap;
use sig_base::NoMemory;

/// Appends the number of a node and the numbers of what stands below it on so many levels, in document order.
#[cycle(numbers)]
pub fn put_number(
    out: &mut Vec<u64>,
    nodes: &IndexMap<u64, Node>,
    id: u64,
    levels: u64,
) -> Result<(), NoMemory>
    requires { 0 < levels }
    ensures { OnOk result (out.new.items ≡ out.old.items ++ keys (build levels (look nodes.now) (id ∷ []))) }
{
    let Some(node) = nodes.get(&id) else {
        return Ok(());
    };
    out.push(id)?;
    put_numbers(out, nodes, &node.children, levels - 1)?;
    Ok(())
}

#[cycle(numbers)]
#[tactic(auto, using(crate::proofs::Document::keys_no_nodes))]
fn put_numbers(
    out: &mut Vec<u64>,
    nodes: &IndexMap<u64, Node>,
    ids: &[u64],
    levels: u64,
) -> Result<(), NoMemory>
    ensures { OnOk result (out.new.items ≡ out.old.items ++ keys (build levels (look nodes.now) ids.now)) }
{
    if levels == 0 {
        return Ok(());
    }
    for id in ids {
        put_number(out, nodes, *id, levels)?;
    }
    Ok(())
}

// What must run.
ghost use Rattle.std.specs.Prelude.{◌≡◌, ◌&&◌, [], slice_get};
ghost use Rattle.signal_model.specs.Memos.{must_run_by, some_moved, sources_in};
ghost use Rattle.sig_nodes.specs.Nodes.{has_differed, is_computed_body, memo_body};
ghost use Rattle.sig_graph.specs.Parts.{memos_of};
ghost use Rattle.sig_graph.specs.Search.{is_due_at};

use sig_base::NodeId;
use sig_nodes::{Body, Computation, Node, Nodes, differs};

// Whether one of the sources that a computed keeps has another number than the one that was read.
fn some_moved(nodes: &Nodes, computation: &Computation) -> bool
    ensures { result ≡ some_moved (memos_of 0 nodes.now.items) [] (sources_in computation.now.memo) }
{
    for place in 0..computation.sources().len() {
        if has_moved(nodes, computation, place) {
            return true;
        }
    }
    false
}

fn has_moved(nodes: &Nodes, computation: &Computation, place: usize) -> bool
    ensures { result ≡ has_differed nodes.now.items (slice_get (sources_in computation.now.memo) place) }
{
    match computation.source(place) {
        Some(source) => differs(nodes, source),
        None => false,
    }
}

/// Whether a computed must run, while nothing is evaluated.
pub(crate) fn must_run(nodes: &Nodes, generation: u128, computation: &Computation) -> bool
    ensures { result ≡ must_run_by (memos_of generation nodes.now.items) computation.now.memo [] }
{
    if computation.is_stale(generation) {
        return true;
    }
    !computation.holds_cycle() && some_moved(nodes, computation)
}

/// Whether a computed lives in a node that must run.
pub(crate) fn is_node_due(nodes: &Nodes, generation: u128, node: &Node) -> bool
    ensures { result ≡ (is_computed_body node.now.body && must_run_by (memos_of generation nodes.now.items) (memo_body node.now.body) []) }
{
    match &node.body {
        Body::Computed(computation) => must_run(nodes, generation, computation),
        _ => false,
    }
}

/// Whether a computed stands there that must run.
pub(crate) fn is_due(nodes: &Nodes, generation: u128, id: NodeId) -> bool
    ensures { result ≡ is_due_at nodes.now.items generation id }
{
    match nodes.at(id) {
        Some(node) => is_node_due(nodes, generation, node),
        None => false,
    }
}

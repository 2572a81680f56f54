// Computeds among the dependants of what they read.
ghost use Rattle.std.specs.Prelude.{◌≡◌, ◌<◌, length, true, IfOk, OnErr, OnOk};
ghost use Rattle.std.specs.List.{All};
ghost use Rattle.signal_model.specs.Memos.{source_names, sources_in};
ghost use Rattle.sig_nodes.specs.Nodes.{body_at, memo_body};
ghost use Rattle.sig_graph.specs.Places.{AreLinked, KeepsStanding, LinksAnew};

use sig_base::{NoMemory, NodeId};
use sig_marks::Marks;
use sig_nodes::{Nodes, sources_at};
use std::alloc::Global;

// Whether these are the same ids in one order.
fn are_same(ids: &[NodeId], others: &[NodeId]) -> bool
    ensures { result ≡ true → ids.now ≡ others.now }
{
    ids == others
}

/// These, in a list of their own.
pub(crate) fn copied(alloc: Global, ids: &[NodeId]) -> Result<Vec<NodeId>, NoMemory>
    ensures { IfOk result (λ v. v.items ≡ ids.now) }
{
    let mut all = Vec::with_capacity(alloc, ids.len())?;
    all.extend_from_slice(ids)?;
    Ok(all)
}

/// Gives a computed what it read in place of the sources that it keeps; where they are the same there is nothing to do. Without memory
/// all is as before. What is asked is that all of these have a place among the marks, and that what lives notes the computed so far
/// exactly where it is kept; what becomes of each part of the marks is told apart.
pub(crate) fn relink(
    nodes: &Nodes,
    marks: &mut Marks,
    id: NodeId,
    reads: &[NodeId],
) -> Result<(), NoMemory>
    requires sources { All (λ n. n < length marks.old.marked) (source_names (sources_in (memo_body (body_at nodes.now.items id)))) }
    requires reads { All (λ n. n < length marks.old.marked) reads.now }
    requires reader { id < length marks.old.marked }
    requires standing { KeepsStanding nodes.now.items marks.old.stands }
    requires linked { AreLinked nodes.now.items marks.old.dependants id }
    ensures after { OnOk result (LinksAnew nodes.now.items marks.old.dependants marks.new.dependants id reads.now) }
    ensures marks { marks.new.marked ≡ marks.old.marked }
    ensures stands { marks.new.stands ≡ marks.old.stands }
    ensures err { OnErr result (marks.new ≡ marks.old) }
{
    let sources = sources_at(nodes, id);
    if are_same(sources, reads) {
        return Ok(());
    }
    marks.relink(sources, reads, id)?;
    Ok(())
}

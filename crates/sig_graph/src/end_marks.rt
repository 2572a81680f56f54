// Which marks go at the end of an evaluation.
ghost use Rattle.std.specs.Prelude.{◌≡◌, ℕ, ◌+◌, ◌<◌, ◌&&◌, ◌||◌, ◌++◌, ◌∷◌, not, [], length, map, true, false, vec_capacity, vec_len, IfOk, OnOk};
ghost use Rattle.signal_model.specs.Memos.{is_cycle};
ghost use Rattle.mark_laws.specs.Marked.{ended};
ghost use Rattle.sig_marks.specs.Tables.{marked_at, stands_at};
ghost use Rattle.sig_nodes.specs.Nodes.{body_at, is_computed_body, memo_body, number_at};
ghost use Rattle.sig_graph.specs.Search.{some_marked_at, stop_unmarks_by};

use crate::marks::must_run;
use sig_base::{Count, NoMemory, NodeId, Outcome};
use sig_marks::Marks;
use sig_nodes::{Computation, Nodes, computation_at, is_cycle, read_at};

// Whether a marked computed stands at a place.
fn is_marked_at(nodes: &Nodes, marks: &Marks, id: NodeId) -> bool
    ensures { result ≡ (is_computed_body (body_at nodes.now.items id) && marked_at marks.now.marked id) }
{
    if !marks.is_marked(id) {
        return false;
    }
    match computation_at(nodes, id) {
        Some(_) => true,
        None => false,
    }
}

// Whether one stands at one of these.
fn some_marked(nodes: &Nodes, marks: &Marks, ids: &[NodeId]) -> bool
    ensures { result ≡ some_marked_at nodes.now.items marks.now.marked ids.now }
{
    for id in ids {
        if is_marked_at(nodes, marks, *id) {
            return true;
        }
    }
    false
}

// Puts the change number of a signal behind others, in room that is there, none where it is gone, and tells whether a marked computed stands
// there.
#[inline(always)]
fn look_at(numbers: &mut Vec<Option<Count>>, nodes: &Nodes, marks: &Marks, id: NodeId) -> bool
    requires { vec_len numbers.old < vec_capacity numbers.old }
    ensures number { numbers.new.items ≡ numbers.old.items ++ number_at nodes.now.items id ∷ [] }
    ensures len { vec_len numbers.new ≡ vec_len numbers.old + 1 }
    ensures capacity { vec_capacity numbers.new ≡ vec_capacity numbers.old }
    ensures marked { result ≡ (is_computed_body (body_at nodes.now.items id) && marked_at marks.now.marked id) }
{
    let (number, computed) = read_at(nodes, id);
    numbers.push_reserved(number);
    computed && marks.is_marked(id)
}

// Whether one of two holds. Both are known, so that it takes no branch.
fn either(one: bool, other: bool) -> bool
    ensures { result ≡ (one || other) }
{
    one || other
}

/// Puts the present change numbers of these in place of what stood in a list, and tells whether a marked computed stands at one of them.
#[inline(always)]
pub(crate) fn look_over(
    numbers: &mut Vec<Option<Count>>,
    nodes: &Nodes,
    marks: &Marks,
    ids: &[NodeId],
) -> Result<bool, NoMemory>
    ensures numbers { OnOk result (numbers.new.items ≡ map (number_at nodes.now.items) ids.now) }
    ensures marked { IfOk result (λ m. m ≡ some_marked_at nodes.now.items marks.now.marked ids.now) }
{
    numbers.clear();
    numbers.reserve_exact(ids.len())?;
    let mut marked = false;
    for id in ids {
        let here = look_at(numbers, nodes, marks, *id);
        marked = either(marked, here);
    }
    Ok(marked)
}

/// Whether a run takes the mark of its computed: it came to an outcome other than `cycle`, and read no marked computed.
pub(crate) fn run_unmarks(outcome: &Outcome, marked: bool) -> bool
    ensures { result ≡ (not (is_cycle outcome.now) && not marked) }
{
    !is_cycle(outcome) && !marked
}

// Whether an end without a run takes the mark of a computed.
fn unmarks(nodes: &Nodes, generation: u128, marks: &Marks, computation: &Computation) -> bool
    ensures { result ≡ stop_unmarks_by nodes.now.items generation marks.now.marked computation.now.memo }
{
    !must_run(nodes, generation, computation)
        && !computation.holds_cycle()
        && !some_marked(nodes, marks, computation.sources())
}

/// Whether an evaluation that ends without a run takes the mark of its computed: it needn't run, doesn't hold `cycle`, and keeps no
/// marked computed.
pub(crate) fn stop_unmarks(nodes: &Nodes, generation: u128, marks: &Marks, id: NodeId) -> bool
    requires { is_computed_body (body_at nodes.now.items id) ≡ true }
    ensures { result ≡ stop_unmarks_by nodes.now.items generation marks.now.marked (memo_body (body_at nodes.now.items id)) }
{
    match computation_at(nodes, id) {
        Some(computation) => unmarks(nodes, generation, marks, computation),
        None => unreachable!(),
    }
}

/// Takes the mark of a signal, or leaves it.
pub(crate) fn end_mark(marks: &mut Marks, id: NodeId, unmarks: bool)
    requires place { id < length marks.old.marked }
    requires stands { stands_at marks.old.stands id ≡ true }
    ensures marks { (m : ℕ) → marked_at marks.new.marked m ≡ ended (marked_at marks.old.marked) id unmarks m }
    ensures size { length marks.new.marked ≡ length marks.old.marked }
    ensures dependants { marks.new.dependants ≡ marks.old.dependants }
    ensures stands { marks.new.stands ≡ marks.old.stands }
{
    if !unmarks {
        return;
    }
    marks.unmark(id);
}

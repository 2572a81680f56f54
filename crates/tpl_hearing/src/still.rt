// Signals that show the outcomes of before as they stand, so that they needn't be settled.
ghost use Rattle.std.specs.Prelude.{◌≡◌, true, Some};
ghost use Rattle.sig_base.specs.declared.value.Outcome.TheVariants.{Good};
ghost use Rattle.signal_model.specs.Signals.{is_computed, standing};
ghost use Rattle.signal_model.specs.Memos.{memo_of};
ghost use Rattle.signal_model.specs.Sound.{kept_outcome};
ghost use Rattle.tpl_hearing.specs.HeardAgain.{StandsAs};
ghost use Rattle.tpl_hearing.specs.Unseen.{IsCellAs};

use sig_base::{NodeId, Outcome, Value};
use sig_graph::{Graph, Mark, Standing};

// Whether two values are one: numbers are compared where they stand.
#[inline(always)]
fn is_one(one: &Value, other: &Value) -> bool
    ensures { result ≡ true → one.now ≡ other.now }
{
    match (one, other) {
        (Value::Int(m), Value::Int(n)) => *m == *n,
        _ => one.same(other),
    }
}

// Whether an outcome is this value.
#[inline(always)]
fn is_value(outcome: &Outcome, value: &Value) -> bool
    ensures { result ≡ true → outcome.now ≡ Good value.now }
{
    match outcome {
        Outcome::Good(good) => is_one(good, value),
        Outcome::Bad(_) => false,
    }
}

// Whether an outcome is this value, where both are numbers.
#[inline(always)]
fn is_number(outcome: &Outcome, value: &Value) -> bool
    ensures { result ≡ true → outcome.now ≡ Good value.now }
{
    match (outcome, value) {
        (Outcome::Good(Value::Int(m)), Value::Int(n)) => *m == *n,
        _ => false,
    }
}

/// Whether a signal is a cell that shows the number of an outcome as it stands. It calls nothing, so that it may be asked of many names in a loop.
#[inline(always)]
pub(crate) fn is_number_as(graph: &Graph, id: NodeId, was: &Outcome) -> bool
    ensures { result ≡ true → IsCellAs graph.now.state.signals id was.now }
{
    match graph.cell_value(id) {
        Some(value) => is_number(was, value),
        None => false,
    }
}

// Whether a cell shows an outcome, where a cell stands.
#[inline(always)]
fn is_cell_as(graph: &Graph, id: NodeId, was: &Outcome) -> Option<bool>
    ensures { result ≡ Some true → IsCellAs graph.now.state.signals id was.now }
{
    match graph.cell_value(id) {
        Some(value) => Some(is_value(was, value)),
        None => None,
    }
}

/// Whether a signal is a cell that shows an outcome as it stands.
#[inline(always)]
pub(crate) fn shows_as_cell(graph: &Graph, id: NodeId, was: &Outcome) -> bool
    ensures { result ≡ true → IsCellAs graph.now.state.signals id was.now }
{
    match is_cell_as(graph, id, was) {
        Some(same) => same,
        None => false,
    }
}

// Whether a computed keeps an outcome.
fn keeps(graph: &Graph, id: NodeId, was: &Outcome) -> bool
    ensures { result ≡ true → kept_outcome (memo_of graph.now.state.memos id) ≡ Some was.now }
{
    match graph.kept(id) {
        Some(kept) => kept.same(was),
        None => false,
    }
}

// Whether a computed is clean and keeps an outcome.
fn keeps_clean(graph: &mut Graph, id: NodeId, was: &Outcome) -> bool
    requires { is_computed (standing graph.old.state.signals id) ≡ true }
    ensures same { graph.new ≡ graph.old }
    ensures stands { result ≡ true → StandsAs graph.old.state.signals graph.old.state.memos id was.now }
{
    match graph.mark_of(id) {
        Mark::Clean => keeps(graph, id, was),
        _ => false,
    }
}

// Whether a computed stands that is clean and keeps an outcome.
fn is_computed_as(graph: &mut Graph, id: NodeId, was: &Outcome) -> bool
    ensures same { graph.new ≡ graph.old }
    ensures stands { result ≡ true → StandsAs graph.old.state.signals graph.old.state.memos id was.now }
{
    match graph.standing(id) {
        Standing::Computed => keeps_clean(graph, id, was),
        _ => false,
    }
}

/// Whether a signal shows an outcome as it stands: a cell that has this value, or a computed that is clean and keeps it. It is no counted step, and
/// takes no memory; of what is gone it isn't told.
#[inline(always)]
pub(crate) fn stands_as(graph: &mut Graph, id: NodeId, was: &Outcome) -> bool
    ensures same { graph.new ≡ graph.old }
    ensures stands { result ≡ true → StandsAs graph.old.state.signals graph.old.state.memos id was.now }
{
    match is_cell_as(graph, id, was) {
        Some(same) => same,
        None => is_computed_as(graph, id, was),
    }
}

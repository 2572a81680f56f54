// Sets of cells.
ghost use Rattle.std.specs.Prelude.{◌≡◌, ◌<◌, ◌^◌, ◌↔◌, ℕ, true, false, None, Some, Ok, IsErr, length, map};
ghost use Rattle.sig_base.specs.Values.{same_value};
ghost use Rattle.signal_model.specs.Signals.{is_computed, is_there, standing};
ghost use Rattle.effect_model.specs.Acts.{are_alike};
ghost use Rattle.sig_nodes.specs.Answers.{value_here};
ghost use Rattle.sig_graph.specs.States.{with_set, Becomes};
ghost use Rattle.sig_state.specs.Equality.{is_alike_here, IsRuled};
ghost use Rattle.sig_state.specs.declared.sets.SetDone.TheVariants as done;

use crate::errors::Gone;
use sig_base::{NodeId, Value};
use sig_graph::Graph;
use sig_host::EqualsRule;

/// What a set did.
#[derive(Clone, Copy)]
pub enum SetDone {
    /// The cell has the value, and what reads it will be evaluated anew.
    Accepted,
    /// The cell's equality calls the value the same as the one that it has, and nothing changed.
    Same,
}

// Whether two values are the same. Most are whole numbers, which are compared at once.
#[inline(always)]
fn is_same(a: &Value, b: &Value) -> bool
    ensures { result ≡ same_value a.now b.now }
{
    match (a, b) {
        (Value::Int(m), Value::Int(n)) => m == n,
        _ => a.same(b),
    }
}

// Whether two values count as equal by a rule; with no rule they do where they are the same.
#[inline(always)]
pub(crate) fn are_alike(rules: &[EqualsRule], rule: Option<usize>, a: &Value, b: &Value) -> bool
    requires { (r : ℕ) → rule ≡ Some r → r < length rules.now }
    ensures { result ≡ are_alike (map (λ r. r.slack) rules.now) rule a.now b.now }
{
    match rule {
        None => is_same(a, b),
        Some(place) => rules[place].holds(a, b),
    }
}

// Gives a cell a value, and gives back the one before; none where the cell's equality calls the two the same, and then nothing changes.
#[inline(always)]
pub(crate) fn exchange(
    graph: &mut Graph,
    rules: &[EqualsRule],
    id: NodeId,
    value: Value,
) -> Result<Option<Value>, Gone>
    requires kind { is_computed (standing graph.old.state.signals id) ≡ false }
    requires ruled { IsRuled (length rules.now) (standing graph.old.state.signals id) }
    requires worn { graph.old.state.worn < 2 ^ 127 }
    ensures gone { IsErr result ↔ (is_there (standing graph.old.state.signals id) ≡ false) }
    ensures same { (result ≡ Ok None) ↔
        (is_alike_here (map (λ r. r.slack) rules.now) (standing graph.old.state.signals id) value ≡ true) }
    ensures accepted { (before : Value) → result ≡ Ok (Some before) → Becomes graph.old graph.new (with_set graph.old.state id value) }
    ensures before { (before : Value) → result ≡ Ok (Some before) → value_here (standing graph.old.state.signals id) ≡ Some before }
    ensures kept { ((before : Value) → result ≡ Ok (Some before) → ⊥) → graph.new ≡ graph.old }
{
    let Some(held) = graph.cell_value(id) else {
        return Err(Gone);
    };
    if are_alike(rules, graph.rule_of(id), held, &value) {
        return Ok(None);
    }
    Ok(Some(graph.replace(id, value)))
}

/// Gives a cell a value. It is refused where the cell is gone; where its equality calls the value the same as the one that it has,
/// nothing changes: that of its rule, which is one of these, or sameness where it has none. It takes no memory.
#[inline(always)]
pub fn set(
    graph: &mut Graph,
    rules: &[EqualsRule],
    id: NodeId,
    value: Value,
) -> Result<SetDone, Gone>
    requires kind { is_computed (standing graph.old.state.signals id) ≡ false }
    requires ruled { IsRuled (length rules.now) (standing graph.old.state.signals id) }
    requires worn { graph.old.state.worn < 2 ^ 127 }
    ensures gone { IsErr result ↔ (is_there (standing graph.old.state.signals id) ≡ false) }
    ensures same { (result ≡ Ok done.Same) ↔
        (is_alike_here (map (λ r. r.slack) rules.now) (standing graph.old.state.signals id) value ≡ true) }
    ensures accepted { result ≡ Ok done.Accepted → Becomes graph.old graph.new (with_set graph.old.state id value) }
    ensures kept { (result ≡ Ok done.Accepted → ⊥) → graph.new ≡ graph.old }
{
    match exchange(graph, rules, id, value)? {
        Some(_before) => Ok(SetDone::Accepted),
        None => Ok(SetDone::Same),
    }
}

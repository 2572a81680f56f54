// Changes that are collected while a batch is open.
ghost use Rattle.std.specs.Prelude.{◌≡◌, ◌≤◌, ◌<◌, ◌+◌, ◌^◌, ◌↔◌, ◌++◌, ◌∷◌, [], true, false, None, Some, Ok, IsErr, IfOk, length, map, option_copied, option_map, slice_get, vec_len, vec_capacity};
ghost use Rattle.std.specs.Map.{keys_of};
ghost use Rattle.sig_base.specs.declared.value.Value.{Value};
ghost use Rattle.signal_model.specs.Changes.{live_count};
ghost use Rattle.signal_model.specs.Signals.{is_computed, is_in, is_there, standing};
ghost use Rattle.effect_model.specs.Batches.{is_unlike, net_of};
ghost use Rattle.sig_graph.specs.States.{with_set, Becomes};
ghost use Rattle.sig_state.specs.Batches.{all_given_back, given_back, with_joined, with_joining, with_return, with_returns, AreRuled, HasRoom};
ghost use Rattle.sig_state.specs.Equality.{is_alike_here, IsRuled};
ghost use Rattle.sig_state.specs.declared.sets.SetDone.TheVariants as done;

use crate::errors::Gone;
use crate::sets::{SetDone, are_alike, exchange};
use indexmap::IndexMap;
use sig_base::{NoMemory, NodeId, Value};
use sig_graph::Graph;
use sig_host::EqualsRule;
use std::alloc::Global;
use std::marker::Model;

/// The cells that were changed since a batch began, in the order of first change, each with its value as the batch began.
pub struct Batch {
    changed: IndexMap<NodeId, Value>,
    // for how many cells more there is room
    room: usize,
}

impl Drop for Batch {
    fn drop(self) {
        let Batch {
            changed: _,
            room: _,
        } = self;
    }
}

impl Model for Batch {
    ghost use Rattle.sig_state.specs.Batches.{Collected};

    ghost Value = { Collected };

    ghost use Rattle.std.specs.Prelude.{◌≤◌};
    ghost use Rattle.indexmap.specs.IndexMap.{spare};

    ghost view = { λ b. record { changed = b.changed.entries; spare = b.room } };

    ghost invariant = { λ b. b.room ≤ spare b.changed };
}

impl Batch {
    /// No cell was changed yet, and there is room for all signals that live. Nothing else that is done with a batch takes memory.
    ///
    /// # Errors
    ///
    /// `NoMemory` where memory ran out.
    pub fn begin(alloc: Global, graph: &Graph) -> Result<Batch, NoMemory>
        ensures changed { IfOk result (λ b. b.changed ≡ []) }
        ensures room { IfOk result (λ b. live_count graph.now.state.signals ≤ b.spare) }
    {
        let room = graph.live();
        let changed = IndexMap::with_capacity(alloc, room)?;
        Ok(Batch { changed, room })
    }

    /// How many cells were changed.
    pub fn len(&self) -> usize
        ensures { result ≡ length self.now.changed }
    {
        self.changed.len()
    }

    // Whether a cell is there.
    fn has(&self, id: NodeId) -> bool
        ensures { result ≡ is_in id (keys_of self.now.changed) }
    {
        self.changed.contains_key(&id)
    }

    // A cell that isn't there joins, in room for it.
    fn push(&mut self, id: NodeId, before: Value)
        requires new { is_in id (keys_of self.old.changed) ≡ false }
        requires room { 0 < self.old.spare }
        ensures { self.new ≡ with_joined id before self.old }
    {
        match self.changed.insert(id, before) {
            Ok(_) => {}
            Err(_) => unreachable!(),
        }
        self.room -= 1;
    }

    // A cell that was changed joins with its value before the change, unless it is there.
    fn join(&mut self, id: NodeId, before: Value)
        requires { HasRoom id self.old }
        ensures { self.new ≡ with_joined id before self.old }
    {
        if self.has(id) {
            return;
        }
        self.push(id, before);
    }

    /// Appends the cells that a commit tells: those whose value as the batch began and present value are unlike by their equality, in the
    /// order of first change. The list has room for all cells of the batch.
    pub fn net(&self, graph: &Graph, rules: &[EqualsRule], out: &mut Vec<NodeId>)
        requires ruled { AreRuled (length rules.now) graph.now.state.signals self.now.changed }
        requires room { vec_len out.old + length self.now.changed ≤ vec_capacity out.old }
        ensures { out.new.items ≡ out.old.items ++ net_of (map (λ r. r.slack) rules.now) graph.now.state.signals self.now.changed }
    {
        for place in 0..self.changed.len() {
            let Some((id, before)) = self.changed.get_index(place) else {
                unreachable!();
            };
            push_unlike(graph, rules, *id, before, out);
        }
    }

    /// Gives each cell that has another value the one back that it had as the batch began, in the order of first change, which changes the
    /// graph as an accepted set does. Those cells are appended in that order. The list has room for all cells of the batch.
    pub fn abort(self, graph: &mut Graph, out: &mut Vec<NodeId>)
        requires worn { graph.old.state.worn < 2 ^ 127 }
        requires room { vec_len out.old + length self.changed ≤ vec_capacity out.old }
        ensures graph { Becomes graph.old graph.new (with_returns self.changed graph.old.state) }
        ensures items { out.new.items ≡ out.old.items ++ all_given_back self.changed graph.old.state }
    {
        let Batch { changed, room: _ } = self;
        for (id, before) in changed {
            give_back(graph, id, before, out);
        }
    }

    /// The cell at a place, none where there are no more than so many.
    pub fn cell_at(&self, place: usize) -> Option<NodeId>
        ensures { result ≡ slice_get (keys_of self.now.changed) place }
    {
        let (id, _) = self.changed.get_index(place)?;
        Some(*id)
    }

    /// The value of that cell as the batch began.
    pub fn old_at(&self, place: usize) -> Option<&Value>
        ensures { option_copied result ≡ option_map (λ p. p.1) (slice_get self.now.changed place) }
    {
        let (_, before) = self.changed.get_index(place)?;
        Some(before)
    }
}

// Whether a cell stands there whose equality calls its value another than this earlier one.
fn is_unlike(graph: &Graph, rules: &[EqualsRule], id: NodeId, before: &Value) -> bool
    requires { IsRuled (length rules.now) (standing graph.now.state.signals id) }
    ensures { result ≡ is_unlike (map (λ r. r.slack) rules.now) before.now (standing graph.now.state.signals id) }
{
    let Some(now) = graph.cell_value(id) else {
        return false;
    };
    !are_alike(rules, graph.rule_of(id), before, now)
}

// Appends a cell where its value is unlike an earlier one.
fn push_unlike(
    graph: &Graph,
    rules: &[EqualsRule],
    id: NodeId,
    before: &Value,
    out: &mut Vec<NodeId>,
)
    requires ruled { IsRuled (length rules.now) (standing graph.now.state.signals id) }
    requires room { vec_len out.old < vec_capacity out.old }
    ensures items { out.new.items ≡ out.old.items ++ net_of (map (λ r. r.slack) rules.now) graph.now.state.signals ((id, before.now) ∷ []) }
    ensures len { vec_len out.new ≤ vec_len out.old + 1 }
    ensures capacity { vec_capacity out.old ≤ vec_capacity out.new }
{
    if !is_unlike(graph, rules, id, before) {
        return;
    }
    match out.push(id) {
        Ok(_) => {}
        Err(_) => unreachable!(),
    }
}

// Gives a cell an earlier value back and appends it, where it has another one.
fn give_back(graph: &mut Graph, id: NodeId, before: Value, out: &mut Vec<NodeId>)
    requires worn { graph.old.state.worn + 1 < 2 ^ 128 }
    requires room { vec_len out.old < vec_capacity out.old }
    ensures graph { Becomes graph.old graph.new (with_return id before graph.old.state) }
    ensures items { out.new.items ≡ out.old.items ++ given_back id before graph.old.state }
    ensures len { vec_len out.new ≤ vec_len out.old + 1 }
    ensures capacity { vec_capacity out.old ≤ vec_capacity out.new }
{
    let Some(now) = graph.cell_value(id) else {
        return;
    };
    if now.same(&before) {
        return;
    }
    let _now = graph.replace(id, before);
    match out.push(id) {
        Ok(_) => {}
        Err(_) => unreachable!(),
    }
}

/// Gives a cell a value as `set` does, and where that is accepted the cell joins the batch with its value before, unless it is there. It
/// takes no memory. A cell, its rule, and room in counters and batch are asked for apart; when it is refused and when the value is the
/// same have a clause each, graph and batch one each where it is accepted, and both together one where it isn't.
///
/// # Errors
///
/// `Gone` where the cell is gone.
pub fn set_in(
    batch: &mut Batch,
    graph: &mut Graph,
    rules: &[EqualsRule],
    id: NodeId,
    value: Value,
) -> Result<SetDone, Gone>
    requires kind { is_computed (standing graph.old.state.signals id) ≡ false }
    requires ruled { IsRuled (length rules.now) (standing graph.old.state.signals id) }
    requires worn { graph.old.state.worn < 2 ^ 127 }
    requires room { HasRoom id batch.old }
    ensures gone { IsErr result ↔ (is_there (standing graph.old.state.signals id) ≡ false) }
    ensures same { (result ≡ Ok done.Same) ↔
        (is_alike_here (map (λ r. r.slack) rules.now) (standing graph.old.state.signals id) value ≡ true) }
    ensures accepted { result ≡ Ok done.Accepted → Becomes graph.old graph.new (with_set graph.old.state id value) }
    ensures joined { result ≡ Ok done.Accepted → batch.new ≡ with_joining id (standing graph.old.state.signals id) batch.old }
    ensures kept { (result ≡ Ok done.Accepted → ⊥) → (graph.new ≡ graph.old) × (batch.new ≡ batch.old) }
{
    match exchange(graph, rules, id, value)? {
        Some(before) => {
            batch.join(id, before);
            Ok(SetDone::Accepted)
        }
        None => Ok(SetDone::Same),
    }
}

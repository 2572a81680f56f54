// What the nodes of a graph answer about the signal at one place. Past the last place nothing lives.
ghost use Rattle.std.specs.Prelude.{◌≡◌, ◌<◌, ◌∷◌, ◌||◌, ◌&&◌, not, is_some, true, false, None, Some, IfOk, IfSome, IfNone, slice_get};
ghost use Rattle.std.specs.Option.{option_copied};
ghost use Rattle.signal_model.specs.Signals.{is_computed};
ghost use Rattle.signal_model.specs.Memos.{memo_is_cycle, same_number, source_names, sources_in};
ghost use Rattle.signal_model.specs.Sound.{kept_outcome};
ghost use Rattle.sig_nodes.specs.declared.node.Body.TheVariants as body;
ghost use Rattle.sig_nodes.specs.Answers.{host_here, kind_here, rule_here, shown_computed, slots_here, value_here};
ghost use Rattle.sig_nodes.specs.Nodes.{are_live_bodies, asks_host_body, body_at, change_at, has_moved_body, is_computed_body, is_live_body, known_body, memo_body, number_at, number_body, seat_at, shown_body, slots_body, stands_of};

use crate::answers::Standing;
use crate::node::{Body, Computation, Node, Source};
use crate::nodes::Nodes;
use sig_base::{Count, Fault, NoMemory, NodeId, Outcome, Value};

/// What lives at a place, none past the last place.
#[inline(always)]
pub fn body_at(nodes: &Nodes, id: NodeId) -> Option<&Body>
    ensures some { IfSome result (λ b. b.now ≡ body_at nodes.now.items id) }
    ensures none { IfNone result (body_at nodes.now.items id ≡ body.Gone) }
{
    match nodes.at(id) {
        Some(node) => Some(&node.body),
        None => None,
    }
}

/// The computed that lives there.
#[inline(always)]
pub fn computation_at(nodes: &Nodes, id: NodeId) -> Option<&Computation>
    ensures some { IfSome result (λ c. body_at nodes.now.items id ≡ body.Computed c.now) }
    ensures none { IfNone result (is_computed_body (body_at nodes.now.items id) ≡ false) }
{
    match body_at(nodes, id) {
        Some(Body::Computed(computation)) => Some(computation),
        _ => None,
    }
}

/// Whether a computed lives in a body.
pub fn is_computed(body: &Body) -> bool
    ensures { result ≡ is_computed_body body.now }
{
    match body {
        Body::Computed(_) => true,
        _ => false,
    }
}

/// The seat of a live signal.
pub fn seat_at(nodes: &Nodes, id: NodeId) -> usize
    ensures { result ≡ seat_at nodes.now.items id }
{
    match nodes.at(id) {
        Some(node) => node.seat,
        None => 0,
    }
}

/// Whether a signal lives there.
pub fn is_live_at(nodes: &Nodes, id: NodeId) -> bool
    ensures { result ≡ is_live_body (body_at nodes.now.items id) }
{
    match body_at(nodes, id) {
        Some(Body::Cell(_, _)) => true,
        Some(Body::Computed(_)) => true,
        _ => false,
    }
}

// Whether all of these live.
fn are_live_at(nodes: &Nodes, ids: &[NodeId]) -> bool
    ensures { result ≡ are_live_bodies nodes.now.items ids.now }
{
    for id in ids {
        if !is_live_at(nodes, *id) {
            return false;
        }
    }
    true
}

/// Whether a signal lives there, and all that its slots would stand for.
pub fn is_linkable_at(nodes: &Nodes, id: NodeId, slots: &[NodeId]) -> bool
    ensures { result ≡ are_live_bodies nodes.now.items (id ∷ slots.now) }
{
    is_live_at(nodes, id) && are_live_at(nodes, slots)
}

/// What stands there.
pub fn standing_at(nodes: &Nodes, id: NodeId) -> Standing
    ensures { result ≡ kind_here (stands_of id (body_at nodes.now.items id)) (is_some (known_body (body_at nodes.now.items id))) }
{
    match body_at(nodes, id) {
        Some(Body::Cell(_, _)) => Standing::Cell,
        Some(Body::Computed(computation)) => {
            if computation.is_computing() {
                Standing::Computing
            } else {
                Standing::Computed
            }
        }
        _ => Standing::Gone,
    }
}

// Whether a computed lives in a body that is computing.
fn is_computing(body: &Body) -> bool
    ensures { result ≡ is_some (known_body body.now) }
{
    match body {
        Body::Computed(computation) => computation.is_computing(),
        _ => false,
    }
}

/// A cell's value.
pub fn value_at(nodes: &Nodes, id: NodeId) -> Option<&Value>
    ensures { option_copied result ≡ value_here (stands_of id (body_at nodes.now.items id)) }
{
    match body_at(nodes, id) {
        Some(Body::Cell(value, _)) => Some(value),
        _ => None,
    }
}

/// The place of a cell's equality rule.
pub fn rule_at(nodes: &Nodes, id: NodeId) -> Option<usize>
    ensures { result ≡ rule_here (stands_of id (body_at nodes.now.items id)) }
{
    match body_at(nodes, id) {
        Some(Body::Cell(_, rule)) => *rule,
        _ => None,
    }
}

/// The place of the host formula that a computed asks.
pub fn host_at(nodes: &Nodes, id: NodeId) -> Option<usize>
    ensures { result ≡ host_here (stands_of id (body_at nodes.now.items id)) }
{
    match body_at(nodes, id) {
        Some(Body::Computed(computation)) => computation.host(),
        _ => None,
    }
}

/// Whether a computed asks the host formula at a place.
pub fn asks_host_at(nodes: &Nodes, id: NodeId, place: usize) -> bool
    ensures { result ≡ asks_host_body place (body_at nodes.now.items id) }
{
    match body_at(nodes, id) {
        Some(Body::Computed(computation)) => computation.asks(place),
        _ => false,
    }
}

/// The signals that a computed's slots stand for.
pub fn slots_at(nodes: &Nodes, id: NodeId) -> &[NodeId]
    ensures { result.now ≡ slots_body (body_at nodes.now.items id) }
{
    match body_at(nodes, id) {
        Some(Body::Computed(computation)) => computation.slots(),
        _ => &[],
    }
}

/// The signal that a computed's slot stands for.
pub fn slot_at(nodes: &Nodes, id: NodeId, slot: u32) -> Option<NodeId>
    ensures { result ≡ slice_get (slots_body (body_at nodes.now.items id)) slot }
{
    match body_at(nodes, id) {
        Some(Body::Computed(computation)) => computation.slot(slot),
        _ => None,
    }
}

/// The outcome that a computed keeps.
pub fn kept_at(nodes: &Nodes, id: NodeId) -> Option<&Outcome>
    ensures { option_copied result ≡ kept_outcome (memo_body (body_at nodes.now.items id)) }
{
    match body_at(nodes, id) {
        Some(Body::Computed(computation)) => computation.kept(),
        _ => None,
    }
}

// What a computed that isn't being evaluated is read as.
fn kept_or_cycle(computation: &Computation) -> Result<Outcome, NoMemory>
    ensures { IfOk result (λ o. o ≡ shown_computed false (kept_outcome computation.now.memo)) }
{
    match computation.kept() {
        Some(outcome) => outcome.copy(),
        None => Ok(Outcome::Bad(Fault::Cycle)),
    }
}

// What a computed is read as.
fn shown_computed(computation: &Computation) -> Result<Outcome, NoMemory>
    ensures { IfOk result (λ o. o ≡ shown_computed (is_some computation.now.known) (kept_outcome computation.now.memo)) }
{
    if computation.is_computing() {
        return Ok(Outcome::Bad(Fault::Cycle));
    }
    kept_or_cycle(computation)
}

// What a body is read as.
fn shown(body: &Body) -> Result<Outcome, NoMemory>
    ensures { IfOk result (λ o. o ≡ shown_body body.now) }
{
    match body {
        Body::Gone => Ok(Outcome::Bad(Fault::Gone)),
        Body::Cell(value, _) => {
            let same = value.copy()?;
            Ok(Outcome::Good(same))
        }
        Body::Computed(computation) => shown_computed(computation),
    }
}

/// What a signal is read as.
pub fn shown_at(nodes: &Nodes, id: NodeId) -> Result<Outcome, NoMemory>
    ensures { IfOk result (λ o. o ≡ shown_body (body_at nodes.now.items id)) }
{
    match body_at(nodes, id) {
        Some(body) => shown(body),
        None => Ok(Outcome::Bad(Fault::Gone)),
    }
}

/// The sources that a computed keeps.
pub fn sources_at(nodes: &Nodes, id: NodeId) -> &[NodeId]
    ensures { result.now ≡ source_names (sources_in (memo_body (body_at nodes.now.items id))) }
{
    match body_at(nodes, id) {
        Some(Body::Computed(computation)) => computation.sources(),
        _ => &[],
    }
}

// The change number of a signal, none where it is gone.
#[inline(always)]
fn number_at(nodes: &Nodes, id: NodeId) -> Option<Count>
    ensures { result ≡ number_at nodes.now.items id }
{
    match nodes.at(id) {
        Some(node) => number_of(node),
        None => None,
    }
}

#[inline(always)]
fn number_of(node: &Node) -> Option<Count>
    ensures { result ≡ number_body node.now.number node.now.body }
{
    match node.body {
        Body::Gone => None,
        _ => Some(node.number),
    }
}

/// The change number of a signal, none where it is gone, and whether it is a computed.
#[inline(always)]
pub fn read_at(nodes: &Nodes, id: NodeId) -> (Option<Count>, bool)
    ensures number { result.0 ≡ number_at nodes.now.items id }
    ensures computed { result.1 ≡ is_computed_body (body_at nodes.now.items id) }
{
    match nodes.at(id) {
        Some(node) => (number_of(node), is_computed(&node.body)),
        None => (None, false),
    }
}

/// Whether two change numbers, none of what is gone, are the same.
#[inline(always)]
pub(crate) fn same_number(a: Option<Count>, b: Option<Count>) -> bool
    ensures { result ≡ same_number a b }
{
    match (a, b) {
        (None, None) => true,
        (Some(m), Some(n)) => m.is(&n),
        _ => false,
    }
}

/// Whether a source has another number than the one that was read.
#[inline(always)]
pub fn differs(nodes: &Nodes, source: Source) -> bool
    ensures { result ≡ not (same_number (number_at nodes.now.items source.name) source.number) }
{
    !same_number(number_at(nodes, source.name), source.number)
}

/// Whether a node has another number than the one that was read of it, or is computing.
#[inline(always)]
pub(crate) fn node_moved(node: &Node, number: Option<Count>) -> bool
    ensures { result ≡ (not (same_number (number_body node.now.number node.now.body) number) || is_some (known_body node.now.body)) }
{
    !same_number(number_of(node), number) || is_computing(&node.body)
}

// Whether a source has another number than the one that was read, or is computing.
fn source_moved(nodes: &Nodes, name: NodeId, number: Option<Count>) -> bool
    ensures { result ≡ has_moved_body nodes.now.items (Some (record { name = name; number = number })) }
{
    match nodes.at(name) {
        Some(node) => node_moved(node, number),
        None => !same_number(None, number),
    }
}

// Whether a computed's kept source at a place has moved, none where it holds `cycle`.
fn compared(nodes: &Nodes, computation: &Computation, place: usize) -> Option<bool>
    ensures calm { IfSome result (λ m. memo_is_cycle computation.now.memo ≡ false) }
    ensures moved { IfSome result (λ m. m ≡ has_moved_body nodes.now.items (slice_get (sources_in computation.now.memo) place)) }
    ensures cycle { IfNone result (memo_is_cycle computation.now.memo ≡ true) }
{
    if computation.holds_cycle() {
        return None;
    }
    match computation.source(place) {
        Some(source) => Some(source_moved(nodes, source.name, source.number)),
        None => Some(false),
    }
}

/// Whether the source that a computed keeps at a place has moved, none where it holds `cycle`.
pub fn compared_at(nodes: &Nodes, id: NodeId, place: usize) -> Option<bool>
    ensures calm { IfSome result (λ m. memo_is_cycle (memo_body (body_at nodes.now.items id)) ≡ false) }
    ensures moved { IfSome result (λ m. m ≡ has_moved_body nodes.now.items (slice_get (sources_in (memo_body (body_at nodes.now.items id))) place)) }
    ensures cycle { IfNone result (memo_is_cycle (memo_body (body_at nodes.now.items id)) ≡ true) }
{
    match computation_at(nodes, id) {
        Some(computation) => compared(nodes, computation, place),
        None => Some(false),
    }
}

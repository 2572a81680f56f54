// Which live signals have one of some signals in the closure of their kept sources: from those along dependants, by seats, each of which
// is reached once. The list of reached seats is the queue too: those from a place on wait for the dependants of who has them.
ghost use Rattle.std.specs.Prelude.{◌≡◌, ℕ, ◌==◌, true, false, Some};
ghost use Rattle.signal_model.specs.Signals.{is_in, is_there, standing};
ghost use Rattle.signal_model.specs.Memos.{keeps};
ghost use Rattle.effect_model.specs.Acts.{some_name};
ghost use Rattle.sig_graph.specs.Search.{of_holder};
ghost use Rattle.sig_seats.specs.Seats.{holder};
ghost use Rattle.sig_watcher.specs.Reach.{Adds, AreReaching, HasSeat, IsFound, IsUnfound, NoneFound, SomeFound};

use crate::watcher::is_among;
use sig_base::{MOST_NODES, NodeId};
use sig_graph::{Graph, Standing};
use sig_seats::Reached;

fn is_live(graph: &Graph, name: NodeId) -> bool
    ensures { result ≡ is_there (standing graph.now.state.signals name) }
{
    match graph.standing(name) {
        Standing::Gone => false,
        Standing::Cell => true,
        Standing::Computed => true,
        Standing::Computing => true,
    }
}

// Whether a signal is one of those that are looked for, or its seat was reached.
fn is_found(graph: &Graph, ids: &[NodeId], reached: &Reached, name: NodeId) -> bool
    ensures found { result ≡ true → IsFound graph.now ids.now reached.now name }
    ensures clear { result ≡ false → IsUnfound graph.now ids.now reached.now name }
{
    if is_among(ids, name) {
        return true;
    }
    if !is_live(graph, name) {
        return false;
    }
    reached.has(graph.seat(name))
}

/// Whether one of these is a signal that is looked for, or has a seat that was reached.
pub(crate) fn is_some_found(
    graph: &Graph,
    ids: &[NodeId],
    reached: &Reached,
    names: &[NodeId],
) -> bool
    ensures found { result ≡ true → SomeFound graph.now ids.now reached.now names.now }
    ensures clear { result ≡ false → NoneFound graph.now ids.now reached.now names.now }
{
    for name in names {
        if is_found(graph, ids, reached, *name) {
            return true;
        }
    }
    false
}

// Reaches the seat of a live signal, unless it was reached.
fn add(graph: &Graph, name: NodeId, reached: &mut Reached)
    requires { is_there (standing graph.now.state.signals name) ≡ true }
    ensures adds { Adds graph.now (λ m. m == name) reached.old reached.new }
    ensures there { HasSeat graph.now reached.new name }
{
    let seat = graph.seat(name);
    if reached.has(seat) {
        return;
    }
    reached.add(seat);
}

// Reaches the seats of those that keep a live signal, which are its dependants.
fn add_dependants(graph: &Graph, id: NodeId, reached: &mut Reached)
    requires { is_there (standing graph.now.state.signals id) ≡ true }
    ensures adds { Adds graph.now (λ m. keeps graph.now.state.memos m id) reached.old reached.new }
    ensures there { (m : ℕ) → keeps graph.now.state.memos m id ≡ true → HasSeat graph.now reached.new m }
{
    let mut place: usize = 0;
    while let Some(name) = graph.dependant(id, place) {
        add(graph, name, reached);
        place += 1;
    }
}

// Reaches a seat if its signal keeps another one.
fn add_keeper(graph: &Graph, id: NodeId, seat: usize, reached: &mut Reached)
    ensures adds { Adds graph.now (λ m. keeps graph.now.state.memos m id) reached.old reached.new }
    ensures there { (m : ℕ) → holder graph.now.seats seat ≡ Some m → keeps graph.now.state.memos m id ≡ true → HasSeat graph.now reached.new m }
{
    let Some(name) = graph.at_seat(seat) else {
        return;
    };
    if !is_among(graph.sources(name), id) {
        return;
    }
    add(graph, name, reached);
}

// Reaches the seats of those that keep a signal that is gone: it goes over all seats, since of such a signal no dependants are known.
fn add_keepers(graph: &Graph, id: NodeId, reached: &mut Reached)
    ensures adds { Adds graph.now (λ m. keeps graph.now.state.memos m id) reached.old reached.new }
    ensures there { (m : ℕ) → keeps graph.now.state.memos m id ≡ true → HasSeat graph.now reached.new m }
{
    let _made = graph.made();
    for seat in 0..MOST_NODES {
        add_keeper(graph, id, seat, reached);
    }
}

// Reaches the seats of those that keep a signal.
fn add_readers(graph: &Graph, id: NodeId, reached: &mut Reached)
    ensures adds { Adds graph.now (λ m. keeps graph.now.state.memos m id) reached.old reached.new }
    ensures there { (m : ℕ) → keeps graph.now.state.memos m id ≡ true → HasSeat graph.now reached.new m }
{
    if !is_live(graph, id) {
        add_keepers(graph, id, reached);
        return;
    }
    add_dependants(graph, id, reached);
}

// Reaches the seats of those that keep one of these signals.
fn add_all_readers(graph: &Graph, ids: &[NodeId], reached: &mut Reached)
    ensures adds { Adds graph.now (λ m. some_name (keeps graph.now.state.memos m) ids.now) reached.old reached.new }
    ensures there { (m n : ℕ) → is_in n ids.now ≡ true → keeps graph.now.state.memos m n ≡ true → HasSeat graph.now reached.new m }
{
    for id in ids {
        add_readers(graph, *id, reached);
    }
}

// Reaches the seats of those that keep who has a seat.
fn add_from(graph: &Graph, seat: usize, reached: &mut Reached)
    ensures adds { Adds graph.now (λ m. of_holder (keeps graph.now.state.memos m) (holder graph.now.seats seat)) reached.old reached.new }
    ensures there { (m p : ℕ) → holder graph.now.seats seat ≡ Some p → keeps graph.now.state.memos m p ≡ true → HasSeat graph.now reached.new m }
{
    let Some(name) = graph.at_seat(seat) else {
        return;
    };
    add_dependants(graph, name, reached);
}

/// Reaches the seats of those that have one of these signals in the closure of their kept sources, and no others. It takes no memory.
pub(crate) fn reach(graph: &Graph, ids: &[NodeId], reached: &mut Reached)
    ensures { AreReaching graph.now ids.now reached.new }
{
    reached.clear();
    add_all_readers(graph, ids, reached);
    let mut place: usize = 0;
    while let Some(seat) = reached.at(place) {
        add_from(graph, seat, reached);
        place += 1;
    }
}

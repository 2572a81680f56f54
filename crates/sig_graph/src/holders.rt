// What those who have seats ask.
ghost use Rattle.std.specs.Prelude.{◌≡◌, true, false, None, Some};
ghost use Rattle.sig_nodes.specs.Nodes.{asks_host_here};
ghost use Rattle.sig_graph.specs.Search.{of_holder, some_holder};

use sig_base::NodeId;
use sig_nodes::{Nodes, asks_host_at};
use sig_seats::Seats;

// Whether who has a seat does; of a free seat nobody.
fn holder_asks(nodes: &Nodes, holder: Option<NodeId>, place: usize) -> bool
    ensures { result ≡ of_holder (asks_host_here place nodes.now.items) holder }
{
    match holder {
        Some(id) => asks_host_at(nodes, id, place),
        None => false,
    }
}

// Whether one of those who have these seats does.
fn some_asks(nodes: &Nodes, holders: &[Option<NodeId>], place: usize) -> bool
    ensures { result ≡ some_holder (asks_host_here place nodes.now.items) holders.now }
{
    for holder in holders {
        if holder_asks(nodes, *holder, place) {
            return true;
        }
    }
    false
}

/// Whether one of those who have seats asks the host formula at a place.
pub(crate) fn uses_host(nodes: &Nodes, seats: &Seats, place: usize) -> bool
    ensures { result ≡ some_holder (asks_host_here place nodes.now.items) seats.now.holders }
{
    some_asks(nodes, seats.holders(), place)
}

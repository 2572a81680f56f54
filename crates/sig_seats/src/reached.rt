// The seats that a search has reached.
ghost use Rattle.std.specs.Prelude.{◌≡◌, ℕ, ◌<◌, ◌≤◌, ◌&&◌, ◌++◌, ◌∷◌, not, [], length, true, false, slice_get, IfOk, IfSome};
ghost use Rattle.signal_model.specs.Signals.{is_in};
ghost use Rattle.sig_seats.specs.Flags.{is_up};

use sig_base::{MOST_NODES, NoMemory};
use std::alloc::Global;
use std::marker::Model;

/// Seats in the order in which a search came to them, with a flag for each seat. Both tables are made once, and of the flags only
/// those of the listed seats are ever cleared.
#[derive(Drop)]
pub struct Reached {
    flags: Vec<bool>,
    seats: Vec<usize>,
}

impl Model for Reached {
    ghost use Rattle.std.specs.Prelude.{ℕ, List, vec_capacity};
    ghost use Rattle.sig_seats.specs.Flags.{AreReached};

    ghost Value = { List ℕ };

    ghost view = { λ r. r.seats.items };

    ghost invariant = { λ r. AreReached r.flags.items r.seats.items (vec_capacity r.seats) };
}

// Takes the flags of these seats down.
fn lower(flags: &mut Vec<bool>, seats: &[usize])
    requires { (s : ℕ) → is_in s seats.now ≡ true → s < length flags.old.items }
    ensures flags { (s : ℕ) → is_up flags.new.items s ≡ (is_up flags.old.items s && not (is_in s seats.now)) }
    ensures size { length flags.new.items ≡ length flags.old.items }
{
    for seat in seats {
        flags[*seat] = false;
    }
}

impl Reached {
    /// No seats.
    pub fn new(alloc: Global) -> Result<Reached, NoMemory>
        ensures { IfOk result (λ r. r ≡ []) }
    {
        let flags = vec![in alloc; false; MOST_NODES]?;
        let seats = Vec::with_capacity(alloc, MOST_NODES)?;
        Ok(Reached { flags, seats })
    }

    /// The seats, in order.
    pub fn seats(&self) -> &[usize]
        ensures { result.now ≡ self.now }
    {
        &self.seats
    }

    /// The seat at a place, none past the last one. It takes no memory.
    pub fn at(&self, place: usize) -> Option<usize>
        ensures at { result ≡ slice_get self.now place }
        ensures room { IfSome result (λ s. place < MOST_NODES) }
    {
        let count = self.seats.len();
        if place < count {
            Some(self.seats[place])
        } else {
            None
        }
    }

    /// Whether a seat is among them.
    pub fn has(&self, seat: usize) -> bool
        ensures { result ≡ is_in seat self.now }
    {
        if seat < self.flags.len() {
            self.flags[seat]
        } else {
            false
        }
    }

    /// One seat more. It takes no memory.
    pub fn add(&mut self, seat: usize)
        requires inside { seat < MOST_NODES }
        requires fresh { is_in seat self.old ≡ false }
        ensures seats { self.new ≡ self.old ++ seat ∷ [] }
        ensures room { length self.new ≤ MOST_NODES }
    {
        let _count = self.flags.len();
        self.flags[seat] = true;
        self.seats.push_reserved(seat);
    }

    /// No seats any more. It goes over those that there were, and over no others.
    pub fn clear(&mut self)
        ensures { self.new ≡ [] }
    {
        lower(&mut self.flags, &self.seats);
        self.seats.clear();
    }
}

// The seats of live signals: numbers below the limit of signals.
ghost use Rattle.std.specs.Prelude.{◌≡◌, ℕ, ◌<◌, None, Some, length, IfOk};
ghost use Rattle.sig_seats.specs.Seats.{all_seats, holder, with_left, with_taken};

use sig_base::{MOST_NODES, NoMemory, NodeId};
use std::alloc::Global;
use std::marker::Model;

/// Who has each seat, and the free seats. A seat has a place in the table once it was taken: until then it is free.
#[derive(Drop)]
pub struct Seats {
    taken: Vec<Option<NodeId>>,
    // those in the table that nobody has now
    free: Vec<usize>,
}

impl Model for Seats {
    ghost use Rattle.std.specs.Prelude.{length, vec_capacity, ◌+◌, ◌-◌};
    ghost use Rattle.sig_base.specs.declared.limits.TheConstants.{MOST_NODES};
    ghost use Rattle.sig_seats.specs.Seats.{all_seats, AreSeats, Seating};

    ghost Value = { Seating };

    ghost view = { λ s. record {
      holders = all_seats s.taken.items;
      free = MOST_NODES - length s.taken.items + length s.free.items;
    } };

    ghost invariant = { λ s. AreSeats s.taken.items s.free.items (vec_capacity s.taken) (vec_capacity s.free) };
}

impl Seats {
    /// All seats are free.
    pub fn new(alloc: Global) -> Result<Seats, NoMemory>
        ensures size { IfOk result (λ s. length s.holders ≡ MOST_NODES) }
        ensures free { IfOk result (λ s. s.free ≡ MOST_NODES) }
        ensures empty { IfOk result (λ s. (k : ℕ) → holder s.holders k ≡ None) }
    {
        let taken = Vec::with_capacity(alloc, MOST_NODES)?;
        let free = Vec::with_capacity(alloc, MOST_NODES)?;
        Ok(Seats { taken, free })
    }

    /// How many are free.
    pub fn free(&self) -> usize
        ensures { result ≡ self.now.free }
    {
        MOST_NODES - self.taken.len() + self.free.len()
    }

    /// Who has each seat that was taken before. Nobody has the others.
    pub fn holders(&self) -> &[Option<NodeId>]
        ensures { all_seats result.now ≡ self.now.holders }
    {
        &self.taken
    }

    /// Who has a seat.
    pub fn holder(&self, seat: usize) -> Option<NodeId>
        ensures { result ≡ holder self.now.holders seat }
    {
        if seat < self.taken.len() {
            self.taken[seat]
        } else {
            None
        }
    }

    /// Takes a free seat.
    pub fn take(&mut self, id: NodeId) -> usize
        requires { 0 < self.old.free }
        ensures seats { self.new ≡ with_taken self.old result id }
        ensures free { holder self.old.holders result ≡ None }
        ensures inside { result < length self.old.holders }
    {
        match self.free.pop() {
            Some(seat) => {
                self.taken[seat] = Some(id);
                seat
            }
            None => {
                let seat = self.taken.len();
                self.taken.push_reserved(Some(id));
                seat
            }
        }
    }

    /// Leaves a seat.
    pub fn leave(&mut self, id: NodeId, seat: usize)
        requires taken { holder self.old.holders seat ≡ Some id }
        requires room { self.old.free < MOST_NODES }
        ensures { self.new ≡ with_left self.old seat }
    {
        let _count = self.taken.len();
        self.taken[seat] = None;
        self.free.push_reserved(seat);
    }
}

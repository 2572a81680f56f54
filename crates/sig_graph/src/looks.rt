// What a graph answers without changing.
ghost use Rattle.std.specs.Prelude.{ℕ, ◌≡◌, ◌+◌, ◌<◌, ◌^◌, true, false, Some, IfOk, IfSome, slice_get};
ghost use Rattle.std.specs.Option.{option_copied};
ghost use Rattle.signal_model.specs.Signals.{is_computed, is_in, is_there, standing};
ghost use Rattle.signal_model.specs.Memos.{keeps, memo_of, source_names, sources_of};
ghost use Rattle.signal_model.specs.Kept.{AreGiven, OnlyComputedsKeep};
ghost use Rattle.signal_model.specs.Sound.{kept_outcome};
ghost use Rattle.signal_model.specs.Changes.{live_count};
ghost use Rattle.signal_model.specs.Laws.{AreDistinct};
ghost use Rattle.sig_marks.specs.Tables.{dependants_at};
ghost use Rattle.sig_nodes.specs.Answers.{kind_here, rule_here, shown_here, slots_here, value_here};
ghost use Rattle.sig_graph.specs.HostUse.{uses_host, HaveFewSlots};
ghost use Rattle.sig_seats.specs.Seats.{holder, AreAllSeated};
ghost use Rattle.sig_graph.specs.States.{is_computing, is_given};

use crate::graph::Graph;
use crate::holders::uses_host;
use sig_base::{MOST_NODES, NoMemory, NodeId, Outcome, Value};
use sig_nodes::{
    Standing, kept_at, rule_at, seat_at, shown_at, slot_at, slots_at, sources_at, standing_at,
    value_at,
};

impl Graph {
    /// How many signals live.
    pub fn live(&self) -> usize
        ensures { result ≡ live_count self.now.state.signals }
    {
        MOST_NODES - self.seats.free()
    }

    /// How many signals were made so far, gone ones too. Each id that is in use is one of theirs, only computeds keep a run, each
    /// host formula that is asked has few arguments, and each live signal has a seat.
    pub fn made(&self) -> u64
        ensures count { result ≡ self.now.given }
        ensures used { AreGiven (is_given self.now) self.now.state.signals self.now.state.memos }
        ensures keepers { OnlyComputedsKeep self.now.state.signals self.now.state.memos }
        ensures few { HaveFewSlots self.now.state.signals }
        ensures seats { AreAllSeated self.now.state.signals self.now.seats }
    {
        self.nodes.made()
    }

    /// The seat of a live signal, which no other live signal has.
    pub fn seat(&self, id: NodeId) -> usize
        requires { is_there (standing self.now.state.signals id) ≡ true }
        ensures below { result < MOST_NODES }
        ensures own { holder self.now.seats result ≡ Some id }
        ensures only { (s : ℕ) → holder self.now.seats s ≡ Some id → s ≡ result }
    {
        let _count = self.nodes.made();
        seat_at(&self.nodes, id)
    }

    /// The live signal that has a seat.
    pub fn at_seat(&self, seat: usize) -> Option<NodeId>
        ensures at { result ≡ holder self.now.seats seat }
        ensures live { IfSome result (λ id. is_there (standing self.now.state.signals id) ≡ true) }
    {
        self.seats.holder(seat)
    }

    /// The number of counted steps so far, which stands still at its last value.
    pub fn looked(&self) -> u128
        ensures { result ≡ self.now.state.looked }
    {
        self.looked
    }

    /// What stands under an id.
    pub fn standing(&self, id: NodeId) -> Standing
        ensures { result ≡ kind_here (standing self.now.state.signals id) (is_computing self.now.state id) }
    {
        standing_at(&self.nodes, id)
    }

    /// A cell's value, none where no cell stands.
    pub fn cell_value(&self, id: NodeId) -> Option<&Value>
        ensures { option_copied result ≡ value_here (standing self.now.state.signals id) }
    {
        value_at(&self.nodes, id)
    }

    /// The place of a cell's equality rule, if it has one.
    pub fn rule_of(&self, id: NodeId) -> Option<usize>
        ensures { result ≡ rule_here (standing self.now.state.signals id) }
    {
        rule_at(&self.nodes, id)
    }

    /// Whether a live computed asks the host formula at a place. It goes over all signals that live, and takes no memory.
    pub fn uses_host(&self, place: usize) -> bool
        ensures { result ≡ uses_host self.now.state.signals place }
    {
        uses_host(&self.nodes, &self.seats, place)
    }

    /// The signals that a computed's slots stand for, none where no computed stands.
    pub fn slots(&self, id: NodeId) -> &[NodeId]
        ensures { result.now ≡ slots_here (standing self.now.state.signals id) }
    {
        slots_at(&self.nodes, id)
    }

    /// The signal that a computed's slot stands for, none where it has no such slot.
    pub fn slot(&self, id: NodeId, slot: u32) -> Option<NodeId>
        ensures at { result ≡ slice_get (slots_here (standing self.now.state.signals id)) slot }
        ensures given { IfSome result (λ m. is_given self.now m ≡ true) }
    {
        slot_at(&self.nodes, id, slot)
    }

    /// The outcome that a computed keeps, none where it has never run.
    pub fn kept(&self, id: NodeId) -> Option<&Outcome>
        ensures { option_copied result ≡ kept_outcome (memo_of self.now.state.memos id) }
    {
        kept_at(&self.nodes, id)
    }

    /// What a signal is read as: a cell's value, what a computed keeps, or `gone`; of a computed that is being evaluated, or has never run,
    /// `cycle`.
    pub fn shown(&self, id: NodeId) -> Result<Outcome, NoMemory>
        ensures { IfOk result (λ o. o ≡ shown_here (standing self.now.state.signals id) (is_computing self.now.state id) (kept_outcome (memo_of self.now.state.memos id))) }
    {
        shown_at(&self.nodes, id)
    }

    /// The sources that a computed keeps, in order of first reading.
    pub fn sources(&self, id: NodeId) -> &[NodeId]
        ensures { result.now ≡ source_names (sources_of self.now.state.memos id) }
    {
        sources_at(&self.nodes, id)
    }

    /// The dependant of a live signal at a place: the computeds that keep it as a source have one place each, and past the last of
    /// them there is none. Where there is one, the next place is a number too. It takes no memory.
    pub fn dependant(&self, id: NodeId, place: usize) -> Option<NodeId>
        ensures at { result ≡ slice_get (dependants_at self.now.order id) place }
        ensures known { is_there (standing self.now.state.signals id) ≡ true →
            (d : ℕ) → is_in d (dependants_at self.now.order id) ≡ keeps self.now.state.memos d id }
        ensures once { AreDistinct (dependants_at self.now.order id) }
        ensures computed { is_there (standing self.now.state.signals id) ≡ true →
            IfSome result (λ d. is_computed (standing self.now.state.signals d) ≡ true) }
        ensures next { IfSome result (λ d. place + 1 < 2 ^ 64) }
    {
        let _count = self.nodes.made();
        self.marks.dependant(id, place)
    }
}

// A formula of the host program.
ghost use Rattle.std.specs.Prelude.{◌≡◌, ◌+◌, ◌<◌, List, ℕ, IfOk, OnOk, OnErr, map};
ghost use Rattle.sig_base.specs.declared.value.Known.{Known};
ghost use Rattle.sig_base.specs.declared.value.Step.{Step};
ghost use Rattle.sig_host.specs.Hosts.{hosts_of, last_ask};
ghost use Rattle.sig_host.specs.Loans.{IsLending, LendsRows};

use sig_base::{Known, NoMemory, Step};
use std::alloc::Global;

/// A formula that the host program writes itself.
///
/// A computed that is made from one asks it with the values that it knows, first with none. It answers
/// that it needs the value of a slot, or it ends with a value or a fault. After a slot has been read it
/// is asked again, with that value behind the others; where the slot's signal has a fault, the computed
/// ends with that fault and asks no more. A slot outside the computed's arguments is the fault `Slot`,
/// and one whose value is known already is `Twice`.
///
/// What it answers may rest on the known values and on nothing else: to the same values it gives the
/// same answer at every ask, for as long as it lives.
pub trait HostFormula: Drop {
    /// What it answers to the values known so far. No call changes it.
    ghost step_of: { Self → List Known → Step };

    /// How often it has answered, a number of 128 bits. No call lowers it.
    ghost asks: { Self → ℕ };

    /// Answers to the values known so far, in the order in which they were read. An answer raises
    /// `asks` by one, so who asks has to know that `asks` isn't at its last value.
    ///
    /// # Errors
    ///
    /// `NoMemory` where memory ran out: then `asks` is as before, and the formula may be asked again.
    fn step(&mut self, alloc: Global, known: &[Known]) -> Result<Step, NoMemory>
        requires { asks self.old < last_ask }
        ensures answer { IfOk result (λ s. s ≡ step_of self.old known.now) }
        ensures same { step_of self.new ≡ step_of self.old }
        ensures counted { OnOk result (asks self.new ≡ asks self.old + 1) }
        ensures uncounted { OnErr result (asks self.new ≡ asks self.old) };

    /// It makes rows of no others: where all rows that it knows have distinct keys and are at most `MOST_ROWS`, so have those that it
    /// gives. No other rows are of the type `Rows`, so each formula can say so of its meaning.
    ghost lends_rows: { (f : Self) → IsLending (step_of f) };
}

/// Formulas that are handed in as a list make rows of no others, whatever they are.
pub fn lends_rows(hosts: &[Box<dyn HostFormula>])
    ensures { LendsRows (hosts_of (map (λ h. step_of h) hosts.now)) }
{}

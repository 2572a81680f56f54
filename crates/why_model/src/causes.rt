// Why a computed ran.
ghost use Rattle.std.specs.Prelude.{◌≡◌};
ghost use Rattle.signal_model.specs.Memos.{is_cycle};
ghost use Rattle.why_model.specs.Chains.{moved_by};
ghost use Rattle.why_model.specs.Facts.{is_rewire};

use effect_model::How;
use sig_base::{Fault, NodeId, Outcome};

/// Why a computed ran. The numbers are those of facts, from 1.
#[derive(Clone, Copy, PartialEq, Eq)]
pub enum Cause {
    /// It had never run.
    First,
    /// It held `cycle`.
    Cycle,
    /// It was rewired by that fact.
    Rewired(u64),
    /// A source that its last run had read was moved by that fact.
    Changed(NodeId, u64),
    /// None of these: a source of its last run was being evaluated.
    Evaluating,
}

impl Cause {
    /// The number of the fact that moved a source; 0 for any other cause.
    pub fn moved_by(&self) -> u64
        ensures { result ≡ moved_by self.now }
    {
        match self {
            Cause::Changed(_, number) => *number,
            Cause::First => 0,
            Cause::Cycle => 0,
            Cause::Rewired(_) => 0,
            Cause::Evaluating => 0,
        }
    }
}

/// A run, by its number among the facts, and why it was.
#[derive(Clone, Copy, PartialEq, Eq)]
pub struct Link {
    pub run: u64,
    pub cause: Cause,
}

/// Whether a run ended with the fault `cycle`.
pub fn is_cycle(outcome: &Outcome) -> bool
    ensures { result ≡ is_cycle outcome.now }
{
    match outcome {
        Outcome::Bad(Fault::Cycle) => true,
        _ => false,
    }
}

/// Whether a change is a rewiring.
pub fn is_rewire(how: How) -> bool
    ensures { result ≡ is_rewire how }
{
    match how {
        How::Rewire => true,
        How::Set => false,
        How::Gone => false,
    }
}

// What an effect keeps of its last run: the signals that its body has read, tracked.
ghost use Rattle.std.specs.Prelude.{◌≡◌, IfOk};
ghost use Rattle.signal_model.specs.Sound.{names_of};

use sig_base::{NoMemory, NodeId, Outcome};
use std::alloc::Global;
use std::marker::Model;

/// A signal that a body has read, and its outcome then.
#[derive(Drop)]
pub struct Read {
    pub id: NodeId,
    pub outcome: Outcome,
}

impl Model for Read {
    ghost use Rattle.signal_model.specs.Values.{Seen};

    ghost Value = { Seen };

    ghost view = { λ r. record { name = r.id; outcome = r.outcome } };
}

/// The signals that were read, in order.
///
/// # Errors
///
/// `NoMemory` where memory ran out.
pub fn names(alloc: Global, reads: &[Read]) -> Result<Vec<NodeId>, NoMemory>
    ensures { IfOk result (λ ids. ids.items ≡ names_of reads.now) }
{
    let mut ids = Vec::new(alloc);
    for read in reads {
        ids.push(read.id)?;
    }
    Ok(ids)
}

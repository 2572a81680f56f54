// Why a graph refuses a call.
ghost use Rattle.std.specs.Prelude.{◌≡◌};
ghost use Rattle.sig_graph.specs.declared.errors.NodeFault.TheVariants as fault;

use sig_base::NoMemory;
use std::alloc::{AllocError, AllocFailed};
use thiserror::Error;

/// Why a graph refuses a call.
#[derive(Clone, Copy, Debug, Error)]
pub enum NodeFault {
    /// As many signals are live as there may be.
    #[error("no more signals fit")]
    Limit,
    /// The signal, or one that a slot would stand for, is gone.
    #[error("the signal is gone")]
    Gone,
    /// Memory ran out.
    #[error("out of memory")]
    NoMemory,
}

impl From<NoMemory> for NodeFault {
    ghost from_gives = { λ _ f. f ≡ fault.NoMemory };

    fn from(_: NoMemory) -> Self {
        NodeFault::NoMemory
    }
}

impl From<AllocError> for NodeFault {
    ghost from_gives = { λ _ f. f ≡ fault.NoMemory };

    fn from(_: AllocError) -> Self {
        NodeFault::NoMemory
    }
}

impl<T: Drop> From<AllocFailed<T>> for NodeFault {
    ghost from_gives = { λ _ f. f ≡ fault.NoMemory };

    fn from(_: AllocFailed<T>) -> Self {
        NodeFault::NoMemory
    }
}

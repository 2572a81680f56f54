// Why a call of the world is refused.
ghost use Rattle.std.specs.Prelude.{◌≡◌};
ghost use Rattle.sig_effect.specs.declared.errors.EffectFault.TheVariants as fault;
ghost use Rattle.sig_effect.specs.Answers.{of_node_fault, of_watch_fault};

use sig_base::NoMemory;
use sig_graph::NodeFault;
use sig_watcher::WatchFault;
use std::alloc::{AllocError, AllocFailed};
use thiserror::Error;

/// Why a call of the world is refused.
#[derive(Clone, Copy, Debug, Error)]
pub enum EffectFault {
    /// As many of the kind live as there may be.
    #[error("no more of them fit")]
    Limit,
    /// A thing that is named is gone.
    #[error("it is gone")]
    Gone,
    /// Memory ran out.
    #[error("out of memory")]
    NoMemory,
}

impl From<NoMemory> for EffectFault {
    ghost from_gives = { λ _ f. f ≡ fault.NoMemory };

    fn from(_: NoMemory) -> Self {
        EffectFault::NoMemory
    }
}

impl From<AllocError> for EffectFault {
    ghost from_gives = { λ _ f. f ≡ fault.NoMemory };

    fn from(_: AllocError) -> Self {
        EffectFault::NoMemory
    }
}

impl<T: Drop> From<AllocFailed<T>> for EffectFault {
    ghost from_gives = { λ _ f. f ≡ fault.NoMemory };

    fn from(_: AllocFailed<T>) -> Self {
        EffectFault::NoMemory
    }
}

impl From<NodeFault> for EffectFault {
    ghost from_gives = { λ e f. f ≡ of_node_fault e };

    fn from(e: NodeFault) -> Self {
        match e {
            NodeFault::Limit => EffectFault::Limit,
            NodeFault::Gone => EffectFault::Gone,
            NodeFault::NoMemory => EffectFault::NoMemory,
        }
    }
}

impl From<WatchFault> for EffectFault {
    ghost from_gives = { λ e f. f ≡ of_watch_fault e };

    fn from(e: WatchFault) -> Self {
        match e {
            WatchFault::Limit => EffectFault::Limit,
            WatchFault::Gone => EffectFault::Gone,
            WatchFault::NotWatched => EffectFault::Gone,
            WatchFault::NoMemory => EffectFault::NoMemory,
        }
    }
}

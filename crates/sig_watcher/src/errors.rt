// Why a call of watchers is refused.
ghost use Rattle.std.specs.Prelude.{◌≡◌};
ghost use Rattle.sig_watcher.specs.declared.errors.WatchFault.TheVariants as fault;

use sig_base::NoMemory;
use std::alloc::{AllocError, AllocFailed};
use thiserror::Error;

/// Why a call of watchers is refused.
#[derive(Clone, Copy, Debug, Error)]
pub enum WatchFault {
    /// As many watchers live as there may be.
    #[error("no more watchers fit")]
    Limit,
    /// The watcher was removed.
    #[error("the watcher is gone")]
    Gone,
    /// The signal isn't among those that the watcher watches.
    #[error("the signal isn't watched")]
    NotWatched,
    /// Memory ran out.
    #[error("out of memory")]
    NoMemory,
}

impl From<NoMemory> for WatchFault {
    ghost from_gives = { λ _ f. f ≡ fault.NoMemory };

    fn from(_: NoMemory) -> Self {
        WatchFault::NoMemory
    }
}

impl From<AllocError> for WatchFault {
    ghost from_gives = { λ _ f. f ≡ fault.NoMemory };

    fn from(_: AllocError) -> Self {
        WatchFault::NoMemory
    }
}

impl<T: Drop> From<AllocFailed<T>> for WatchFault {
    ghost from_gives = { λ _ f. f ≡ fault.NoMemory };

    fn from(_: AllocFailed<T>) -> Self {
        WatchFault::NoMemory
    }
}

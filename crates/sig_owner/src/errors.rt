// Why a store of owners refuses a call.
ghost use Rattle.std.specs.Prelude.{◌≡◌};
ghost use Rattle.sig_owner.specs.declared.errors.OwnFault.TheVariants as fault;

use sig_base::NoMemory;
use std::alloc::{AllocError, AllocFailed};
use thiserror::Error;

/// Why a store of owners refuses a call.
#[derive(Clone, Copy, Debug, PartialEq, Eq, Error)]
pub enum OwnFault {
    /// As many owners are live as there may be.
    #[error("no more owners fit")]
    Limit,
    /// The owner is gone.
    #[error("the owner is gone")]
    Gone,
    /// Memory ran out.
    #[error("out of memory")]
    NoMemory,
}

impl From<NoMemory> for OwnFault {
    ghost from_gives = { λ _ f. f ≡ fault.NoMemory };

    fn from(_: NoMemory) -> Self {
        OwnFault::NoMemory
    }
}

impl From<AllocError> for OwnFault {
    ghost from_gives = { λ _ f. f ≡ fault.NoMemory };

    fn from(_: AllocError) -> Self {
        OwnFault::NoMemory
    }
}

impl<T: Drop> From<AllocFailed<T>> for OwnFault {
    ghost from_gives = { λ _ f. f ≡ fault.NoMemory };

    fn from(_: AllocFailed<T>) -> Self {
        OwnFault::NoMemory
    }
}

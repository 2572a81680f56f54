// Why handlers refuse something.
ghost use Rattle.std.specs.Prelude.{◌≡◌};
ghost use Rattle.page_events.specs.declared.fault.FireFault.TheVariants as fire;
ghost use Rattle.page_events.specs.declared.fault.HandlerFault.TheVariants as handler;

use sig_base::NoMemory;
use std::alloc::{AllocError, AllocFailed};
use thiserror::Error;

/// Why a handler isn't added.
#[derive(Clone, Copy, Debug, PartialEq, Eq, Error)]
pub enum HandlerFault {
    /// There are as many as there may be.
    #[error("no more handlers fit")]
    Limit,
    #[error("out of memory")]
    NoMemory,
}

impl From<NoMemory> for HandlerFault {
    ghost from_gives = { λ _ e. e ≡ handler.NoMemory };

    fn from(_: NoMemory) -> Self {
        HandlerFault::NoMemory
    }
}

impl<T: Drop> From<AllocFailed<T>> for HandlerFault {
    ghost from_gives = { λ _ e. e ≡ handler.NoMemory };

    fn from(_: AllocFailed<T>) -> Self {
        HandlerFault::NoMemory
    }
}

/// Why an event isn't fired.
#[derive(Clone, Copy, Debug, PartialEq, Eq, Error)]
pub enum FireFault {
    /// The page has no node of this number, or it is the root.
    #[error("the page has no node {0}")]
    NoNode(u64),
    #[error("out of memory")]
    NoMemory,
}

impl From<NoMemory> for FireFault {
    ghost from_gives = { λ _ e. e ≡ fire.NoMemory };

    fn from(_: NoMemory) -> Self {
        FireFault::NoMemory
    }
}

// What stops the making of a page.
ghost use Rattle.std.specs.Prelude.{◌≡◌};
ghost use Rattle.tpl_scratch.specs.declared.stop.Stop.TheVariants as stop;

use sig_base::NoMemory;
use std::alloc::{AllocError, AllocFailed};

/// Why a part of a page isn't made.
#[derive(Drop)]
pub(crate) enum Stop {
    /// The outcome of this name is needed and isn't known.
    Ask(u32),
    /// Memory ran out.
    NoMemory,
}

impl From<NoMemory> for Stop {
    ghost from_gives = { λ e s. s ≡ stop.NoMemory };

    fn from(_: NoMemory) -> Self {
        Stop::NoMemory
    }
}

impl From<AllocError> for Stop {
    ghost from_gives = { λ e s. s ≡ stop.NoMemory };

    fn from(_: AllocError) -> Self {
        Stop::NoMemory
    }
}

impl<T: Drop> From<AllocFailed<T>> for Stop {
    ghost from_gives = { λ e s. s ≡ stop.NoMemory };

    fn from(_: AllocFailed<T>) -> Self {
        Stop::NoMemory
    }
}

// Why rows aren't edited.
ghost use Rattle.std.specs.Prelude.{◌≡◌};
ghost use Rattle.sig_rows.specs.declared.fault.RowFault.TheVariants as fault;

use sig_base::NoMemory;
use std::alloc::AllocFailed;
use thiserror::Error;

/// Why rows aren't edited. They are as before then.
#[derive(Clone, Copy, Debug, PartialEq, Eq, Error)]
pub enum RowFault {
    #[error("a row has this key")]
    KeyTaken,
    #[error("no row has this key")]
    KeyMissing,
    #[error("the place is past the end")]
    Place,
    #[error("no such field, or another number of fields")]
    Field,
    #[error("there are too many rows")]
    Limit,
    #[error(transparent)]
    NoMemory(NoMemory),
}

impl From<NoMemory> for RowFault {
    ghost from_gives = { λ e f. f ≡ fault.NoMemory e };

    fn from(e: NoMemory) -> Self {
        RowFault::NoMemory(e)
    }
}

impl<T: Drop> From<AllocFailed<T>> for RowFault {
    ghost from_gives = { λ _ f. f ≡ fault.NoMemory (record {}) };

    fn from(_: AllocFailed<T>) -> Self {
        RowFault::NoMemory(NoMemory)
    }
}

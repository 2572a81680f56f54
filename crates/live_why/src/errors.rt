// Why a fact isn't noted.
ghost use Rattle.std.specs.Prelude.{◌≡◌};
ghost use Rattle.live_why.specs.declared.errors.JournalFault.TheVariants as fault;

use sig_base::NoMemory;
use thiserror::Error;

/// Why a fact isn't noted.
#[derive(Clone, Copy, Debug, PartialEq, Eq, Error)]
pub enum JournalFault {
    /// As many facts are noted as there may be.
    #[error("no more facts fit")]
    Full,
    /// Memory ran out.
    #[error("out of memory")]
    NoMemory,
}

impl From<NoMemory> for JournalFault {
    ghost from_gives = { λ _ f. f ≡ fault.NoMemory };

    fn from(_: NoMemory) -> Self {
        JournalFault::NoMemory
    }
}

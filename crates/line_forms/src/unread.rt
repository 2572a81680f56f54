// Why nothing was read.
ghost use Rattle.std.specs.Prelude.{◌≡◌};
ghost use Rattle.line_forms.specs.declared.unread.Unread.TheVariants as unread;
ghost use Rattle.line_forms.specs.Reads.{optional};

use sig_base::NoMemory;
use std::alloc::AllocFailed;

/// What was asked for doesn't stand there.
#[derive(Clone, Copy)]
pub struct NotThere;

/// Why nothing was read.
#[derive(Clone, Copy)]
pub enum Unread {
    /// What was asked for doesn't stand there.
    NotThere,
    NoMemory(NoMemory),
}

impl From<NotThere> for Unread {
    ghost from_gives = { λ _ e. e ≡ unread.NotThere };

    fn from(_: NotThere) -> Self {
        Unread::NotThere
    }
}

impl From<NoMemory> for Unread {
    ghost from_gives = { λ e f. f ≡ unread.NoMemory e };

    fn from(e: NoMemory) -> Self {
        Unread::NoMemory(e)
    }
}

impl<T: Drop> From<AllocFailed<T>> for Unread {
    ghost from_gives = { λ _ e. e ≡ unread.NoMemory (record {}) };

    fn from(_: AllocFailed<T>) -> Self {
        Unread::NoMemory(NoMemory)
    }
}

/// What was read, or that nothing was.
pub fn optional<T>(read: Result<T, Unread>) -> Result<Option<T>, NoMemory>
    ensures { result ≡ optional read }
{
    match read {
        Ok(read) => Ok(Some(read)),
        Err(Unread::NotThere) => Ok(None),
        Err(Unread::NoMemory(e)) => Err(e),
    }
}

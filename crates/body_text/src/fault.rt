// Why lines are no body.
ghost use Rattle.std.specs.Prelude.{◌≡◌};
ghost use Rattle.body_text.specs.declared.fault.BodyWhy.TheVariants as why;

use sig_base::NoMemory;
use thiserror::Error;

/// Why lines are no body, and where.
#[derive(Clone, Copy, Debug, Error)]
#[error("line {at} of a body: {why}")]
pub struct BodyFault {
    /// The line's number. For `Lines` it is how many lines there are, without those that are passed over; for `NoMemory` it says nothing.
    pub at: usize,
    pub why: BodyWhy,
}

/// Why lines are no body, the first of these.
#[derive(Clone, Copy, Debug, PartialEq, Eq, Error)]
pub enum BodyWhy {
    #[error("it isn't in the grammar, may not stand here, or lacks its end behind it")]
    Syntax,
    #[error("it reads without tracking where that isn't allowed")]
    UntrackHere,
    #[error("it stands where there is no row")]
    ItHere,
    #[error("too much is nested")]
    Nest,
    #[error("a text is too long")]
    Text,
    #[error("a formula has too many names, or a host formula too many arguments")]
    Sources,
    #[error("there are too many lines")]
    Lines,
    #[error(transparent)]
    NoMemory(NoMemory),
}

impl From<NoMemory> for BodyFault {
    ghost from_gives = { λ e f. f ≡ record { at = 0; why = why.NoMemory e } };

    fn from(e: NoMemory) -> Self {
        BodyFault {
            at: 0,
            why: BodyWhy::NoMemory(e),
        }
    }
}

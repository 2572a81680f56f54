// Why lines are no template.
ghost use Rattle.std.specs.Prelude.{◌≡◌};
ghost use Rattle.tpl_syntax.specs.declared.fault.TemplateWhy.TheVariants as why;

use sig_base::NoMemory;
use thiserror::Error;

/// Why lines are no template, and where.
#[derive(Clone, Copy, Debug, Error)]
#[error("line {at} of a template: {why}")]
pub struct TemplateFault {
    /// The line's place among the lines, from 0, those that are passed over counted. For `Lines` it is how many lines there are, without
    /// those that are passed over; for `NoMemory` it says nothing.
    pub at: usize,
    pub why: TemplateWhy,
}

/// Why lines are no template, the first of these.
#[derive(Clone, Copy, Debug, PartialEq, Eq, Error)]
pub enum TemplateWhy {
    #[error("it isn't in the grammar, may not stand here, or lacks its end behind it")]
    Syntax,
    #[error("untrack stands outside an effect")]
    UntrackHere,
    #[error("it stands where there is no row")]
    ItHere,
    #[error("an element without end tag has no children")]
    VoidChild,
    #[error("an element of texts that aren't escaped has no others than literals without `</`")]
    RawText,
    #[error("too much is nested")]
    Nest,
    #[error("a text is too long")]
    Text,
    #[error("a formula has too many names")]
    Sources,
    #[error("there are too many lines")]
    Lines,
    #[error(transparent)]
    NoMemory(NoMemory),
}

impl From<NoMemory> for TemplateFault {
    ghost from_gives = { λ e f. f ≡ record { at = 0; why = why.NoMemory e } };

    fn from(e: NoMemory) -> Self {
        TemplateFault {
            at: 0,
            why: TemplateWhy::NoMemory(e),
        }
    }
}

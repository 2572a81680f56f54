// What a line of a template says.

use sig_base::Text;
use sig_formula::Formula;

/// A line of a template, with a formula of this type where it has one.
#[derive(Drop)]
pub enum Line<F> {
    /// A line without a formula.
    Plain(Mark),
    /// A line with a formula.
    Over(Purpose, F),
}

/// What a line without a formula says.
#[derive(Drop)]
pub enum Mark {
    /// `tag @NAME` begins an element.
    Tag(Text),
    /// `try` begins what is shown unless it meets a fault.
    Try,
    /// `else` begins what is shown where a test is false, or where what is tried meets a fault.
    Else,
    /// `end` ends the innermost of what is begun.
    End,
}

/// What the formula of a line is for.
#[derive(Drop)]
pub enum Purpose {
    /// `text F` shows a text.
    Text,
    /// `attr @NAME F` gives the element before it an attribute.
    Attr(Text),
    /// `if F` begins what is shown where F is true.
    If,
    /// `each F` begins what is shown once for each row.
    Each,
}

/// A line whose formula has places among the template's names as slots.
pub type TplLine = Line<Formula>;

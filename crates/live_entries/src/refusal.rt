// Why an item of a script is refused.

use line_forms::NameList;
use sig_base::{Name, Text};

/// Why an item is refused: a rule and what it was broken at.
pub enum Refusal {
    /// The line of this number isn't in the grammar, or begins a block that doesn't end.
    Syntax(u32),
    /// Nothing of this name was made.
    Unknown(Name),
    /// Something of this name was made already.
    Taken(Name),
    /// The name is of another kind than its place needs.
    Kind(Name),
    /// What has this name was disposed.
    Gone(Name),
    /// There would be too much of something.
    Limit(LimitWord),
    /// No host formula was ever at this place.
    HostPlace(u64),
    /// The host formula at this place is in use, or was dropped.
    HostTaken(u64),
    /// The list has a row with this key.
    KeyTaken(Text),
    /// The list has no row with this key.
    KeyMissing(Text),
    /// The place is past the end.
    Place(u64),
    /// The list has no such field, or another number of fields than there are values.
    Field(FieldDetail),
    /// The watcher doesn't watch the signal of this name.
    NotWatched(Name),
    /// A value was changed, and what these watchers tried while they were notified was refused, in order of making.
    Frozen(NameList),
    /// The line of this number has an `untrack`, and no effect stands around it.
    UntrackHere(u32),
    /// The line of this number speaks of a row where there is none.
    ItHere(u32),
    /// The line of this number is a child of an element without end tag.
    VoidChild(u32),
    /// The line of this number stands in an element whose texts aren't escaped, and isn't a text of one literal without `</`.
    RawText(u32),
    /// The line of this number has an `each` in an `each`, a formula that is higher than `MOST_HEIGHT`, or is nested more than `MOST_LEVELS` deep.
    Nest(u32),
    /// An effect is due after as many turns as a flush makes; what they did stands, and the pages are as before.
    Turns,
    /// No equality rule is at this place.
    RulePlace(u64),
    /// A batch is open, in which this isn't done.
    BatchOpen,
    /// No batch is open that could end.
    NoBatch,
    /// The page has no node of this number, or it is the root.
    NoNode(u64),
    /// The line of this ordinal of the template begins no element.
    NoLine(u64),
    /// A cell, a list or a computed was made already, or a journal was begun.
    Late,
    /// No journal was begun, or the computed of this name has never run.
    NoRun(Name),
}

impl Drop for Refusal {
    fn drop(self) {
        match self {
            Refusal::Syntax(_) => {}
            Refusal::Unknown(_) => {}
            Refusal::Taken(_) => {}
            Refusal::Kind(_) => {}
            Refusal::Gone(_) => {}
            Refusal::Limit(_) => {}
            Refusal::HostPlace(_) => {}
            Refusal::HostTaken(_) => {}
            Refusal::KeyTaken(_) => {}
            Refusal::KeyMissing(_) => {}
            Refusal::Place(_) => {}
            Refusal::Field(_) => {}
            Refusal::NotWatched(_) => {}
            Refusal::Frozen(_) => {}
            Refusal::UntrackHere(_) => {}
            Refusal::ItHere(_) => {}
            Refusal::VoidChild(_) => {}
            Refusal::RawText(_) => {}
            Refusal::Nest(_) => {}
            Refusal::Turns => {}
            Refusal::RulePlace(_) => {}
            Refusal::BatchOpen => {}
            Refusal::NoBatch => {}
            Refusal::NoNode(_) => {}
            Refusal::NoLine(_) => {}
            Refusal::Late => {}
            Refusal::NoRun(_) => {}
        }
    }
}

/// Why a field doesn't serve.
pub enum FieldDetail {
    /// No field has this name.
    Field(Name),
    /// There are so many values, for another number of fields.
    Count(u64),
}

impl Drop for FieldDetail {
    fn drop(self) {
        match self {
            FieldDetail::Field(_) => {}
            FieldDetail::Count(_) => {}
        }
    }
}

/// What there may not be too much of.
#[derive(Clone, Copy)]
pub enum LimitWord {
    /// A line has at most `MOST_LINE` bytes.
    Line,
    /// A text that is written in the script has at most `MOST_TEXT` bytes.
    Text,
    /// A list has at most `MOST_FIELDS` fields.
    Fields,
    /// A formula has at most `MOST_SOURCES` distinct names, and a host formula as many arguments.
    Sources,
    /// The body of an effect or of a handler has at most `MOST_BODY_LINES` lines between its first line and its `end`.
    Body,
    /// A template has at most `MOST_TEMPLATE_LINES` lines between its first line and its `end`.
    Template,
    /// At most `MOST_NODES` cells, lists and computeds live.
    Nodes,
    /// A list has at most `MOST_ROWS` rows.
    Rows,
    /// At most `MOST_EFFECTS` effects live that a command made.
    Effects,
    /// At most `MOST_OWNERS` owners live.
    Owners,
    /// At most `MOST_WATCHERS` watchers live.
    Watchers,
    /// At most `MOST_TEMPLATES` templates are made.
    Templates,
    /// At most `MOST_PAGES` pages live.
    Pages,
    /// At most `MOST_HANDLERS` handlers of events are made.
    Handlers,
    /// A journal has at most `MOST_FACTS` facts.
    Facts,
}

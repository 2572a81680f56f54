// What the commands tell.

use crate::{Label, NameList, PageBytes, PageOp, Refusal};
use sig_base::{Fault, Name, Outcome, Value};

/// How a computed stands while nothing is evaluated.
#[derive(Clone, Copy)]
pub enum Seen {
    /// What is kept of it serves.
    Clean,
    /// It doesn't have to run, but something that it keeps as a source does, perhaps far below.
    Checked,
    /// It has to run.
    Dirty,
}

/// Why a computed ran. The numbers are those of facts of the journal, from 1.
pub enum Reason {
    /// It had never run.
    First,
    /// It held `cycle`.
    Cycle,
    /// It was rewired by that fact.
    Rewired(u64),
    /// What has this name, which its last run had read, was moved by that fact.
    Changed(Name, u64),
    /// None of these: a source of its last run was being evaluated.
    Evaluating,
}

impl Drop for Reason {
    fn drop(self) {
        match self {
            Reason::First => {}
            Reason::Cycle => {}
            Reason::Rewired(_) => {}
            Reason::Changed(_, _) => {}
            Reason::Evaluating => {}
        }
    }
}

/// Something that a command tells.
pub enum Entry {
    /// What a name comes to.
    Outcome(Name, Outcome),
    /// How a computed stands.
    State(Name, Seen),
    /// The sources that a computed keeps, in order of first reading.
    Sources(Name, NameList),
    /// The computeds that a watcher watches and that have to run, or something below them, in order of watching.
    Pending(Name, NameList),
    /// A watcher is notified.
    Notify(Name),
    /// An effect or a cleanup logs a value.
    Log(Value),
    /// The body of an effect failed, and none of its acts is done.
    Fail(Label, Fault),
    /// The host formula at a place is dropped, after so many asks.
    Drop(u64, u128),
    /// An operation that leads from a page as it was told last to the page of now.
    Op(Name, PageOp),
    /// The HTML of a page, behind the operations that lead to it or where it is asked for.
    Page(Name, PageBytes),
    /// The HTML of a page's template, evaluated from scratch.
    Scratch(Name, PageBytes),
    /// A computed ran, which is the fact of this number, and why.
    Why(Name, u64, Reason),
    /// A refused item.
    Error(Refusal),
    /// A computed has run: its sources in order of first reading, and what it came to.
    Run(Name, NameList, Outcome),
    /// The body of an effect was evaluated: its tracked reads in order of first reading.
    Effect(Label, NameList),
    /// A cleanup of an effect is about to be done.
    Cleanup(Label),
    /// What has this label is gone.
    Gone(Label),
    /// A handler of an event runs at the node of a page.
    Fired(Name, u64),
    /// Its body failed there, and none of its acts is done.
    FailAt(Name, u64, Fault),
}

impl Drop for Entry {
    fn drop(self) {
        match self {
            Entry::Outcome(_, _) => {}
            Entry::State(_, _) => {}
            Entry::Sources(_, _) => {}
            Entry::Pending(_, _) => {}
            Entry::Notify(_) => {}
            Entry::Log(_) => {}
            Entry::Fail(_, _) => {}
            Entry::Drop(_, _) => {}
            Entry::Op(_, _) => {}
            Entry::Page(_, _) => {}
            Entry::Scratch(_, _) => {}
            Entry::Why(_, _, _) => {}
            Entry::Error(_) => {}
            Entry::Run(_, _, _) => {}
            Entry::Effect(_, _) => {}
            Entry::Cleanup(_) => {}
            Entry::Gone(_) => {}
            Entry::Fired(_, _) => {}
            Entry::FailAt(_, _, _) => {}
        }
    }
}

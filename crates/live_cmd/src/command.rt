// Commands and the items of a script.
ghost use Rattle.std.specs.Prelude.{◌≡◌, IfOk};
ghost use Rattle.live_cmd.specs.Words.{bare_of, bare_word, verb_of, verb_word};
ghost use Rattle.sig_untrack.specs.Stated.{before, no_bodies};

use formula_text::Wired;
use line_forms::NameList;
use live_entries::Refusal;
use sig_base::{Name, NoMemory, Scalar, Scalars, Text};
use sig_untrack::Body;
use std::alloc::Global;
use std::marker::Model;
use tpl_syntax::Template;

/// The body of an effect or of a handler, with the names that stand in it: its statements, the names that they act on, the names in their
/// formulas, the bodies of its nested effects, and its rewirings.
#[derive(Drop)]
pub struct EffectBody {
    body: Box<Body>,
}

impl Model for EffectBody {
    ghost use Rattle.sig_untrack.specs.Stated.{before, no_bodies, Bodies};
    ghost use Rattle.live_cmd.specs.Codes.{bodies_code};

    ghost Value = { Bodies };

    ghost coded = { bodies_code };

    ghost view = { λ e. before e.body.value no_bodies };
}

impl EffectBody {
    /// This body, behind a pointer, so that other commands don't grow by it.
    ///
    /// # Errors
    ///
    /// `NoMemory` where it finds no room.
    pub fn of(alloc: Global, body: Body) -> Result<EffectBody, NoMemory>
        ensures { IfOk result (λ e. e ≡ before body no_bodies) }
    {
        let body = Box::new(alloc, body)?;
        Ok(EffectBody { body })
    }

    /// The body.
    pub fn as_body(&self) -> &Body
        ensures { before result.now no_bodies ≡ self.now }
    {
        &self.body
    }

    /// The body, given back.
    pub fn into_body(self) -> Body
        ensures { before result no_bodies ≡ self }
    {
        Box::into_inner(self.body)
    }
}

/// The verbs of the commands that are a verb and a name.
#[derive(Clone, Copy)]
pub enum Verb {
    /// `get N` tells the outcome of a cell, a list or a computed.
    Get,
    /// `state N` tells whether a computed has to run, or something below it.
    State,
    /// `sources N` tells the sources that a computed keeps.
    Sources,
    /// `show P` tells the HTML of a page as it was last brought up to date.
    Show,
    /// `scratch P` tells the HTML of a page's template, evaluated from scratch, and leaves the page as it is.
    Scratch,
    /// `dispose N` takes a cell, a list, a computed, a watcher, an owner, an effect or a page away.
    Dispose,
    /// `pending W` tells the watched computeds that have to run, or something below them.
    Pending,
    /// `why N` tells the chain of changes and runs that made a computed run last.
    Why,
}

/// The commands of one word.
#[derive(Clone, Copy)]
pub enum Bare {
    /// `flush` runs the effects that are due, and brings the pages up to date.
    Flush,
    /// `begin` opens a batch: changes are collected, and nobody is told of them.
    Begin,
    /// `commit` ends it, and tells of its changes together.
    Commit,
    /// `abort` ends it, and gives its cells their earlier values back.
    Abort,
    /// `record` begins a journal of changes and runs.
    Record,
}

// The word of each verb, at the place of its number.
const VERBS: [(Verb, &str); 8] = [
    (Verb::Get, "get"),
    (Verb::State, "state"),
    (Verb::Sources, "sources"),
    (Verb::Show, "show"),
    (Verb::Scratch, "scratch"),
    (Verb::Dispose, "dispose"),
    (Verb::Pending, "pending"),
    (Verb::Why, "why"),
];

// So it is for the commands of one word.
const BARES: [(Bare, &str); 5] = [
    (Bare::Flush, "flush"),
    (Bare::Begin, "begin"),
    (Bare::Commit, "commit"),
    (Bare::Abort, "abort"),
    (Bare::Record, "record"),
];

impl Verb {
    /// Its word.
    pub fn word(self) -> &'static str
        ensures { result.now ≡ verb_word self }
    {
        VERBS[self as usize].1
    }

    /// The verb that has this word.
    #[tactic(auto, using(sig_base::proofs::Lengths::unlike))]
    pub fn of(word: &str) -> Option<Verb>
        ensures { result ≡ verb_of word.now }
    {
        match word.len() {
            3 if word == "get" => Some(Verb::Get),
            3 if word == "why" => Some(Verb::Why),
            4 if word == "show" => Some(Verb::Show),
            5 if word == "state" => Some(Verb::State),
            7 if word == "sources" => Some(Verb::Sources),
            7 if word == "scratch" => Some(Verb::Scratch),
            7 if word == "dispose" => Some(Verb::Dispose),
            7 if word == "pending" => Some(Verb::Pending),
            _ => None,
        }
    }
}

impl Bare {
    /// Its word.
    pub fn word(self) -> &'static str
        ensures { result.now ≡ bare_word self }
    {
        BARES[self as usize].1
    }

    /// The command of one word that has this word.
    #[tactic(auto, using(sig_base::proofs::Lengths::unlike))]
    pub fn of(word: &str) -> Option<Bare>
        ensures { result ≡ bare_of word.now }
    {
        match word.len() {
            5 if word == "flush" => Some(Bare::Flush),
            5 if word == "begin" => Some(Bare::Begin),
            5 if word == "abort" => Some(Bare::Abort),
            6 if word == "commit" => Some(Bare::Commit),
            6 if word == "record" => Some(Bare::Record),
            _ => None,
        }
    }
}

/// What a computed is computed by.
#[derive(Drop)]
pub enum SourceText {
    /// A formula with the names of its slots.
    Formula(Wired),
    /// `host K (a, b)`, the host formula at a place and the distinct names of its arguments.
    Host(u64, NameList),
}

/// What a watcher tries to do while it is notified.
pub enum Try {
    /// `get N`
    Get(Name),
    /// `set N LIT`
    Set(Name, Scalar),
    /// `watch W a b ..`
    Watch(Name, NameList),
    /// `unwatch W a`
    Unwatch(Name, Name),
}

impl Drop for Try {
    fn drop(self) {
        match self {
            Try::Get(_) => {}
            Try::Set(_, _) => {}
            Try::Watch(_, _) => {}
            Try::Unwatch(_, _) => {}
        }
    }
}

/// An edit of a list's rows. A place is counted from 0.
pub enum RowEdit {
    /// `insert N PLACE KEY (LIT, LIT)` puts a row so that it stands at a place.
    Insert {
        place: u64,
        key: Text,
        values: Scalars,
    },
    /// `remove N KEY` takes a row out.
    Remove(Text),
    /// `move N KEY PLACE` takes a row out and puts it so that it stands at a place.
    Move(Text, u64),
    /// `put N KEY FIELD LIT` gives a row another value in one field.
    Put {
        key: Text,
        field: Name,
        value: Scalar,
    },
}

impl Drop for RowEdit {
    fn drop(self) {
        match self {
            RowEdit::Insert {
                place: _,
                key: _,
                values: _,
            } => {}
            RowEdit::Remove(_) => {}
            RowEdit::Move(_, _) => {}
            RowEdit::Put {
                key: _,
                field: _,
                value: _,
            } => {}
        }
    }
}

/// A command of a script. What is made `inside` an owner is disposed with it.
#[derive(Drop)]
pub enum Command {
    /// `cell N = LIT [equals K] [in O]` makes a cell of this value, which compares by the equality rule at a place if there is one.
    Cell {
        name: Name,
        value: Scalar,
        equals: Option<u64>,
        inside: Option<Name>,
    },
    /// `list N (FIELD, FIELD) [in O]` makes a list without rows.
    List {
        name: Name,
        fields: NameList,
        inside: Option<Name>,
    },
    /// An edit of the rows of a list.
    Edit {
        name: Name,
        edit: RowEdit,
    },
    /// `set N LIT` gives a cell another value.
    Set {
        name: Name,
        value: Scalar,
    },
    /// `computed N = SOURCE [in O]` makes a computed.
    Computed {
        name: Name,
        source: SourceText,
        inside: Option<Name>,
    },
    /// `rewire N = SOURCE` gives a computed another source.
    Rewire {
        name: Name,
        source: SourceText,
    },
    /// A verb and a name.
    Named {
        verb: Verb,
        name: Name,
    },
    /// `owner O [in P]` makes an owner.
    Owner {
        name: Name,
        inside: Option<Name>,
    },
    /// `watcher W [tries CMD]` makes a watcher, which tries a command at each notification if one is said.
    Watcher {
        name: Name,
        tries: Option<Try>,
    },
    /// `watch W a b ..` lets a watcher watch these signals too, and arms it.
    Watch {
        name: Name,
        signals: NameList,
    },
    /// `unwatch W a` lets a watcher watch a signal no more.
    Unwatch {
        name: Name,
        signal: Name,
    },
    /// `effect E [in O]` to `end` makes an effect of a body, which runs in a flush.
    Effect {
        name: Name,
        body: EffectBody,
        inside: Option<Name>,
    },
    /// `on T PLACE @EVENT` to `end` makes a handler of an event at the nodes of a line of a template. Lines are counted from 1.
    On {
        template: Name,
        place: u64,
        event: Text,
        body: EffectBody,
    },
    /// `fire P ID @EVENT` runs the handlers that wait for an event at a node of a page, and at those around it.
    Fire {
        page: Name,
        node: u64,
        event: Text,
    },
    /// `template T` to `end` makes a template.
    Template {
        name: Name,
        template: Template,
    },
    /// `mount P T [in O]` makes a page from a template.
    Mount {
        name: Name,
        template: Name,
        inside: Option<Name>,
    },
    /// A word alone.
    Bare(Bare),
}

/// What a piece of a script is: a command, or lines that are refused.
#[derive(Drop)]
pub enum Item {
    Do(Command),
    Refused(Refusal),
}

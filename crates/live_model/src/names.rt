// What the names of a script stand for.

/// The kinds of what a name stands for.
#[derive(Clone, Copy)]
pub enum Kind {
    Cell,
    List,
    Computed,
    Owner,
    Effect,
    Watcher,
    Template,
    Page,
}

/// What a name stands for: that of this number among those of its kind. Cells, lists and computeds are numbered together.
#[derive(Clone, Copy)]
pub struct Meaning {
    pub kind: Kind,
    pub number: u64,
}

/// What a name has to be where it is used.
#[derive(Clone, Copy)]
pub enum Need {
    /// Not made yet.
    New,
    /// Of this kind.
    Of(Kind),
    /// A cell, a list or a computed.
    Signal,
    /// Anything but a template, which can't be disposed.
    Thing,
}

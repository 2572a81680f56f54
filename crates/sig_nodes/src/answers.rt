// What is handed in of a computed, and what a graph answers about one.

use sig_formula::Formula;

/// What a computed asks.
pub enum Recipe {
    Formula(Formula),
    /// The host formula at a place.
    Host(usize),
}

impl Drop for Recipe {
    fn drop(self) {
        match self {
            Recipe::Formula(_) => {}
            Recipe::Host(_) => {}
        }
    }
}

/// The answer of a recipe to the values known so far. An outcome stands where the caller has a place for it, so that no value is moved.
#[derive(Clone, Copy)]
pub enum Asked {
    /// A formula needs the value of a slot.
    Slot(u32),
    /// A formula came to an outcome.
    Ended,
    /// The place of the host formula that is to be asked.
    Host(usize),
}

/// What has to be done before a computed's kept outcome may be given again.
#[derive(Clone, Copy)]
pub enum Mark {
    /// Nothing.
    Clean,
    /// It doesn't have to run, but something that it keeps as a source does, perhaps far below.
    Checked,
    /// It has to run.
    Dirty,
}

/// What stands under an id.
#[derive(Clone, Copy)]
pub enum Standing {
    /// Nothing: the signal was disposed.
    Gone,
    Cell,
    /// A computed that isn't being evaluated.
    Computed,
    /// A computed that is being evaluated.
    Computing,
}

// Where a node is likely.

use std::cell::Cell;

/// How far behind another node the one stood that was looked for behind it the last time: at the next place, where none was.
#[derive(Drop)]
pub struct Behind {
    step: Cell<usize>,
}

impl Behind {
    /// None was looked for.
    pub(crate) fn new() -> Behind {
        Behind { step: Cell::new(1) }
    }

    /// Where it is likely, if the one before it stands at a place.
    #[inline]
    pub(crate) fn likely(&self, place: usize) -> usize {
        place.wrapping_add(self.step.get())
    }

    /// The one before it stands at a place, and it was found at another.
    pub(crate) fn note(&self, place: usize, found: usize) {
        self.step.set(found.wrapping_sub(place));
    }
}

/// Where a node is looked for first: the place of the one before it, and the place that is likely behind that.
#[derive(Clone, Copy)]
pub struct Spot {
    pub near: usize,
    pub likely: usize,
}

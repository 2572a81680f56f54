// Where an address is likely to be noted.

use sig_base::NoMemory;
use std::alloc::Global;
use std::cell::Cell;

// No place.
const NOWHERE: usize = usize::MAX;

/// The likely place of the address that is asked for next: what is asked for behind another was mostly asked for behind it before. And the place in
/// the page's tree at which the node of each address stood the last time.
#[derive(Drop)]
pub(crate) struct Guess {
    behind: Vec<Cell<usize>>,
    nodes: Vec<Cell<usize>>,
    last: Cell<usize>,
}

impl Guess {
    /// Of so many places nothing is known.
    ///
    /// # Errors
    ///
    /// `NoMemory` alone.
    pub(crate) fn of(alloc: Global, places: usize) -> Result<Guess, NoMemory> {
        let mut guess = Guess {
            behind: Vec::with_capacity(alloc, places)?,
            nodes: Vec::with_capacity(alloc, places)?,
            last: Cell::new(0),
        };
        guess.grow(places)?;
        Ok(guess)
    }

    /// So many places come to those that there are.
    ///
    /// # Errors
    ///
    /// `NoMemory` alone; some may then have come.
    pub(crate) fn grow(&mut self, places: usize) -> Result<(), NoMemory> {
        for _ in 0..places {
            self.behind.push(Cell::new(NOWHERE))?;
            self.nodes.push(Cell::new(NOWHERE))?;
        }
        Ok(())
    }

    /// The likely place; one that there isn't, where nothing is known.
    pub(crate) fn place(&self) -> usize {
        match self.behind.get(self.last.get()) {
            Some(place) => place.get(),
            None => NOWHERE,
        }
    }

    /// The likely place of the node whose address was asked for last; none that there is, where nothing is known.
    pub(crate) fn node_place(&self) -> usize {
        match self.nodes.get(self.last.get()) {
            Some(place) => place.get(),
            None => NOWHERE,
        }
    }

    /// The node whose address was asked for last stands at this place.
    pub(crate) fn node_stood(&self, place: usize) {
        if let Some(node) = self.nodes.get(self.last.get()) {
            node.set(place);
        }
    }

    /// What was asked for stands at this place, which was the likely one.
    pub(crate) fn stood(&self, place: usize) {
        self.last.set(place);
    }

    /// What was asked for was found at this place.
    pub(crate) fn found(&self, place: usize) {
        if let Some(behind) = self.behind.get(self.last.get()) {
            behind.set(place);
        }
        self.last.set(place);
    }
}

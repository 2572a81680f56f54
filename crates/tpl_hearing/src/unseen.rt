// Cells that may show something else than when pages were brought up to date last.
ghost use Rattle.std.specs.Prelude.{◌≡◌, ◌==◌, ℕ, [], false, true, None, Some, OnOk};
ghost use Rattle.std.specs.List.{AllByRecursion};
ghost use Rattle.tpl_hearing.specs.Heard.{heard_of};
ghost use Rattle.tpl_hearing.specs.Unseen.{may_differ, NoneDiffers};

use crate::outcomes::Outcomes;
use sig_base::{NoMemory, NodeId};
use std::alloc::Global;
use std::marker::Model;

// How many cells are noted at most, as each of them is looked for among the names of each page.
const MOST_NOTED: usize = 32;

/// The cells that may show something else than when pages were brought up to date last, where it is known which.
pub struct Unseen {
    known: bool,
    cells: Vec<NodeId>,
}

impl Drop for Unseen {
    fn drop(self) {
        let Unseen { known: _, cells: _ } = self;
    }
}

impl Model for Unseen {
    ghost use Rattle.std.specs.Prelude.{ℕ, List, Option, None, Some, if◌then◌else◌};

    ghost Value = { Option (List ℕ) };

    ghost view = { λ u. if u.known then Some u.cells.items else None };
}

// Whether none of these names was heard.
fn are_unheard(heard: &Outcomes, ids: &[NodeId]) -> bool
    ensures { result ≡ true → AllByRecursion (λ n. heard_of heard.now n ≡ None) ids.now }
{
    for id in ids {
        if heard.has(*id) {
            return false;
        }
    }
    true
}

impl Unseen {
    /// It isn't known which.
    pub fn unknown(alloc: Global) -> Unseen
        ensures { result ≡ None }
    {
        Unseen {
            known: false,
            cells: Vec::new(alloc),
        }
    }

    /// It isn't known any more which. It takes no memory.
    pub fn forget(&mut self)
        ensures { self.new ≡ None }
    {
        self.known = false;
    }

    /// There is none, as where all pages are up to date. It takes no memory.
    pub fn clear(&mut self)
        ensures { self.new ≡ Some [] }
    {
        self.cells.clear();
        self.known = true;
    }

    /// A cell may show something else. Where there would be too many, it isn't known any more which.
    ///
    /// # Errors
    ///
    /// `NoMemory` where it finds no room for one more.
    pub fn note(&mut self, id: NodeId) -> Result<(), NoMemory>
        ensures { OnOk result ((n : ℕ) → may_differ self.new n ≡ false → (may_differ self.old n ≡ false) × ((n == id) ≡ false)) }
    {
        if self.cells.len() >= MOST_NOTED {
            self.known = false;
            return Ok(());
        }
        self.cells.push(id)?;
        Ok(())
    }

    /// Whether it is known that no name that was heard may show something else.
    pub fn spares(&self, heard: &Outcomes) -> bool
        ensures { result ≡ true → NoneDiffers self.now heard.now }
    {
        let _count = heard.count();
        self.known && are_unheard(heard, &self.cells)
    }
}

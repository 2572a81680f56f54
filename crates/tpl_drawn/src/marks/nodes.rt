// The nodes of a page that stands.
ghost use Rattle.std.specs.Prelude.{◌≡◌, None, if◌then◌else◌, IfOk};
ghost use Rattle.std.specs.Option.{option_copied};
ghost use Rattle.page_model.specs.Replay.{below_root};
ghost use Rattle.tpl_drawn.specs.Addresses.{address_at, if_there, number_on};
ghost use Rattle.tpl_drawn.specs.Lines.{line_at};

use crate::marks::numbers::Numbers;
use page_tree::Tree;
use sig_base::{NoMemory, Text};

/// A page's nodes: their tree, the numbers that were noted of addresses, and the next unused number.
pub struct PageNodes {
    pub tree: Tree,
    pub numbers: Numbers,
    pub next: u64,
}

impl Drop for PageNodes {
    fn drop(self) {
        let PageNodes {
            tree: _,
            numbers: _,
            next: _,
        } = self;
    }
}

impl PageNodes {
    // The number that was noted of an address, where a node of the page has it. The node is looked for first where it stood the last time.
    fn if_there(&self, noted: Option<u64>) -> Option<u64>
        ensures { result ≡ if_there self.now.tree noted }
    {
        let number = noted?;
        let place = self.tree.place(number, self.numbers.node_place())?;
        self.numbers.node_stood(place);
        Some(number)
    }
    /// The number of the node of a line, in the row of that key; none where no node of the page has that address.
    ///
    /// # Errors
    ///
    /// `NoMemory` alone.
    pub(crate) fn number_of(&self, line: usize, key: Option<&Text>) -> Result<Option<u64>, NoMemory>
        ensures { IfOk result (λ n. n ≡ number_on self.now (address_at line (option_copied key.entry))) }
    {
        let noted = self.numbers.number_of(line, key)?;
        Ok(self.if_there(noted))
    }
    /// The line of the template from which a node below the root comes, counted from 1; none where the page has no such node.
    pub fn line(&self, number: u64) -> Option<usize>
        ensures { result ≡ (if below_root number self.now.tree then line_at self.now.numbers number else None) }
    {
        self.tree.parent_of(number)?;
        self.numbers.line(number)
    }
}

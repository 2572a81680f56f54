// Lists that keep their room from one settling to the next.
ghost use Rattle.std.specs.Prelude.{◌≡◌, []};

use sig_base::{Known, NodeId};
use std::alloc::Global;
use std::mem;

/// Three lists for what is learnt meanwhile: values that are known, signals that were read, and signals that were visited.
#[derive(Drop)]
pub(crate) struct Spares {
    known: Vec<Known>,
    reads: Vec<NodeId>,
    visited: Vec<NodeId>,
}

// Takes the last one off a list, if there is one.
#[inline(always)]
fn drop_last<T: Drop>(list: &mut Vec<T>) {
    let _last = list.pop();
}

/// Takes all off a list. Mostly it has two at most, so that no loop is begun.
#[inline(always)]
pub fn clear_few<T: Drop>(list: &mut Vec<T>)
    ensures { list.new.items ≡ [] }
{
    drop_last(list);
    if list.is_empty() {
        return;
    }
    drop_last(list);
    if list.is_empty() {
        return;
    }
    list.clear();
}

// Changes a list for another one, which is empty then.
fn exchange<T: Drop>(spare: &mut Vec<T>, list: &mut Vec<T>)
    ensures { list.new.items ≡ [] }
{
    mem::swap(spare, list);
    clear_few(spare);
    clear_few(list);
}

impl Spares {
    /// Lists without room.
    pub(crate) fn new(alloc: Global) -> Spares {
        Spares {
            known: Vec::new(alloc),
            reads: Vec::new(alloc),
            visited: Vec::new(alloc),
        }
    }

    /// Changes three lists for these, which are empty then.
    pub(crate) fn swap(
        &mut self,
        known: &mut Vec<Known>,
        reads: &mut Vec<NodeId>,
        visited: &mut Vec<NodeId>,
    )
        ensures known { known.new.items ≡ [] }
        ensures reads { reads.new.items ≡ [] }
        ensures visited { visited.new.items ≡ [] }
    {
        exchange(&mut self.known, known);
        exchange(&mut self.reads, reads);
        exchange(&mut self.visited, visited);
    }
}

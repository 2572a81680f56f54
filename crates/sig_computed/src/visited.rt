// Which computeds a call of settling has visited.
ghost use Rattle.std.specs.Prelude.{◌≡◌, ℕ, ◌∷◌, ◌++◌, [], true, IfOk, IfSome, OnOk};
ghost use Rattle.signal_model.specs.Signals.{is_in};
ghost use Rattle.sig_computed.specs.Flags.{flag_of, is_raised, AreFlagged};

use crate::frames::Learnt;
use indexmap::IndexSet;
use sig_base::{NoMemory, NodeId};
use sig_graph::Graph;
use std::alloc::Global;
use std::marker::Model;
use std::mem;

// How many flags there are, where there are any.
const FLAGS: usize = 4_096;

// Up to so many are looked through one by one.
const FEW: usize = 16;

/// The computeds that were visited. It has memory for these alone.
#[derive(Drop)]
pub(crate) struct Visited {
    // those that were visited since one was looked for among the others
    late: Vec<NodeId>,
    // the others, each once
    ids: IndexSet<NodeId>,
    // none while few were visited, and then one for each remainder of a number, up where a computed that was visited has that: so most that
    // weren't visited are told without a hash
    flags: Vec<bool>,
}

impl Model for Visited {
    ghost use Rattle.std.specs.Prelude.{ℕ, List, ◌++◌};
    ghost use Rattle.sig_computed.specs.Flags.{AreFlagged};

    ghost Value = { List ℕ };

    ghost view = { λ v. v.late.items ++ v.ids.keys };

    ghost invariant = { λ v. AreFlagged v.flags.items (v.late.items ++ v.ids.keys) };
}

// The flag of a computed, which it shares with others.
fn flag_of(id: NodeId) -> usize
    ensures { result ≡ flag_of id }
{
    (id.number() % FLAGS as u64) as usize
}

// Whether the flag of a computed is up, as one counts that isn't there.
fn is_flagged(flags: &[bool], id: NodeId) -> bool
    ensures { result ≡ is_raised flags.now (flag_of id) }
{
    let place = flag_of(id);
    if place < flags.len() {
        flags[place]
    } else {
        true
    }
}

// Raises the flag of a computed, where it is there.
fn raise(flags: &mut Vec<bool>, id: NodeId)
    ensures own { is_raised flags.new.items (flag_of id) ≡ true }
    ensures others { (place : ℕ) → is_raised flags.old.items place ≡ true → is_raised flags.new.items place ≡ true }
{
    let place = flag_of(id);
    if place < flags.len() {
        flags[place] = true;
    }
}

// Flags, of which those of some are up.
fn raised(alloc: Global, late: &[NodeId]) -> Result<Vec<bool>, NoMemory>
    ensures { IfOk result (λ fs. AreFlagged fs.items late.now) }
{
    let mut flags = vec![in alloc; false; FLAGS]?;
    for id in late {
        raise(&mut flags, *id);
    }
    Ok(flags)
}

// Puts some more into a set.
fn put_all(ids: &mut IndexSet<NodeId>, late: &[NodeId]) -> Result<(), NoMemory>
    ensures { OnOk result ((m : ℕ) → is_in m ids.new.keys ≡ is_in m (late.now ++ ids.old.keys)) }
{
    for id in late {
        ids.insert(*id)?;
    }
    Ok(())
}

// Whether a computed is among these.
fn is_among(ids: &[NodeId], id: NodeId) -> bool
    ensures { result ≡ is_in id ids.now }
{
    for one in ids {
        if id == *one {
            return true;
        }
    }
    false
}

impl Visited {
    /// None.
    pub(crate) fn new(alloc: Global) -> Visited
        ensures { result ≡ [] }
    {
        Visited {
            late: Vec::new(alloc),
            ids: IndexSet::new(alloc),
            flags: Vec::new(alloc),
        }
    }

    /// The computed that was visited last, where that is known.
    #[inline(always)]
    pub(crate) fn last(&self) -> Option<NodeId>
        ensures { IfSome result (λ id. is_in id self.now ≡ true) }
    {
        match self.late.last() {
            Some(last) => Some(*last),
            None => None,
        }
    }

    // Makes the flags once more than a few were visited, unless they are there, or some are hashed already.
    fn make_flags(&mut self) -> Result<(), NoMemory>
        ensures { OnOk result (self.new ≡ self.old) }
    {
        if self.late.len() > FEW && self.flags.is_empty() && self.ids.is_empty() {
            self.flags = raised(*self.late.allocator(), &self.late)?;
        }
        Ok(())
    }

    // Whether the flag of a computed is up, which it is of each of them.
    fn is_up(&self, id: NodeId) -> bool
        ensures { is_in id self.now ≡ true → result ≡ true }
    {
        is_flagged(&self.flags, id)
    }

    // Whether a computed is among them, by a look at all that were visited since.
    fn holds(&self, id: NodeId) -> bool
        ensures { result ≡ is_in id self.now }
    {
        if is_among(&self.late, id) {
            return true;
        }
        self.ids.contains(&id)
    }

    // Puts all that were visited since into the set, where they are more than a few.
    fn hash_late(&mut self) -> Result<(), NoMemory>
        ensures { OnOk result ((m : ℕ) → is_in m self.new ≡ is_in m self.old) }
    {
        if self.late.len() <= FEW {
            return Ok(());
        }
        let mut ids = mem::replace(&mut self.ids, IndexSet::new(*self.late.allocator()));
        put_all(&mut ids, &self.late)?;
        self.late.clear();
        self.ids = ids;
        Ok(())
    }

    // Whether a computed is among them, where there are some. Only where its flag is up is what was visited since hashed, unless it is little.
    #[inline(never)]
    fn has_some(&mut self, id: NodeId) -> Result<bool, NoMemory>
        ensures has { IfOk result (λ b. b ≡ is_in id self.old) }
        ensures same { OnOk result ((m : ℕ) → is_in m self.new ≡ is_in m self.old) }
    {
        self.make_flags()?;
        if !self.is_up(id) {
            return Ok(false);
        }
        self.hash_late()?;
        Ok(self.holds(id))
    }

    // Whether there are none.
    fn is_none(&self) -> bool
        ensures { result ≡ true → self.now ≡ [] }
    {
        if !self.late.is_empty() {
            return false;
        }
        if !self.ids.is_empty() {
            return false;
        }
        true
    }

    /// Whether a computed is among them, which takes few steps where there are none, or where its flag is down.
    #[inline(always)]
    pub(crate) fn has(&mut self, id: NodeId) -> Result<bool, NoMemory>
        ensures has { IfOk result (λ b. b ≡ is_in id self.old) }
        ensures same { OnOk result ((m : ℕ) → is_in m self.new ≡ is_in m self.old) }
    {
        if self.is_none() {
            return Ok(false);
        }
        if !self.is_up(id) {
            return Ok(false);
        }
        let has = self.has_some(id)?;
        Ok(has)
    }

    /// One more.
    pub(crate) fn add(&mut self, id: NodeId) -> Result<(), NoMemory>
        ensures { OnOk result ((m : ℕ) → is_in m self.new ≡ is_in m (id ∷ self.old)) }
    {
        raise(&mut self.flags, id);
        self.late.push(id)?;
        Ok(())
    }

    /// Exchanges its list, and those of what a run has learnt, for the ones that the graph keeps, which are empty and have room. Of none it
    /// leaves none.
    pub(crate) fn swap_lists(&mut self, graph: &mut Graph, learnt: &mut Learnt)
        ensures graph { graph.new ≡ graph.old }
        ensures none { self.old ≡ [] → self.new ≡ [] }
    {
        learnt.swap_lists(graph, &mut self.late);
    }
}

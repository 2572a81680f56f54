// The dependants and the marks of a store's signals.
ghost use Rattle.std.specs.Prelude.{◌≡◌, ◌+◌, ◌<◌, ◌^◌, [], length, true, false, vec_capacity, slice_get, slice_set, IfSome, OnOk, OnErr};
ghost use Rattle.std.specs.List.{All};
ghost use Rattle.signal_model.specs.Laws.{AreDistinct};
ghost use Rattle.sig_marks.specs.Tables.{dependants_at, marked_at, with_mark, with_place, without_mark, AreFresh, AreListed, Drops, Pushes, Relinks, Spreads};

use crate::links::{drop_links, reader_at, relink};
use crate::propagation::{drop_mark, is_marked_in, mark_one, spread, unmark_one};
use crate::readers::Readers;
use sig_base::{NoMemory, NodeId};
use sig_store::Store;
use std::alloc::Global;
use std::marker::Model;

/// The dependants of each signal that stands, and whether it is marked, by the signals' numbers. A mark is pushed to all that depend on a
/// signal. What is gone takes no memory.
pub struct Marks {
    alloc: Global,
    dependants: Store<Readers>,
    marked: Store<bool>,
    live: usize,
    // what the last marking marked newly, in its order
    fresh: Vec<u64>,
}

impl Drop for Marks {
    fn drop(self) {
        let Marks {
            alloc: _,
            dependants: _,
            marked: _,
            live: _,
            fresh: _,
        } = self;
    }
}

impl Model for Marks {
    ghost use Rattle.std.specs.Prelude.{vec_capacity};
    ghost use Rattle.sig_marks.specs.Tables.{MarkTable};
    ghost use Rattle.sig_marks.specs.Sets.{table_of, IsMarkTable};

    ghost Value = { MarkTable };

    ghost view = { λ m. table_of m.dependants.entries m.marked.entries m.fresh.items };

    ghost invariant = { λ m. IsMarkTable m.dependants.entries m.marked.entries m.live (vec_capacity m.fresh) };
}

impl Marks {
    /// No signals.
    pub fn new(alloc: Global) -> Marks
        ensures { result ≡ record { dependants = []; marked = []; stands = []; fresh = [] } }
    {
        Marks {
            alloc,
            dependants: Store::new(alloc),
            marked: Store::new(alloc),
            live: 0,
            fresh: Vec::new(alloc),
        }
    }

    /// A signal more, marked or not, without dependants. Without memory all is as before.
    pub fn add(&mut self, marked: bool) -> Result<(), NoMemory>
        ensures after { OnOk result (self.new ≡ with_place self.old marked) }
        ensures err { OnErr result (self.new ≡ self.old) }
    {
        self.dependants.reserve(1)?;
        self.marked.reserve(1)?;
        self.fresh.reserve(self.live + 1)?;
        self.dependants.push(Readers::Nobody);
        self.marked.push(marked);
        self.live += 1;
        Ok(())
    }

    /// Whether a signal is marked, as what is gone counts; past the last one none is.
    #[inline(always)]
    pub fn is_marked(&self, id: NodeId) -> bool
        ensures { result ≡ marked_at self.now.marked id }
    {
        is_marked_in(&self.marked, id.number())
    }

    /// The dependant of a signal at a place, none past the last one; each has one place, and where there is one, the next place is a
    /// number too. It takes no memory.
    pub fn dependant(&self, id: NodeId, place: usize) -> Option<NodeId>
        ensures at { result ≡ slice_get (dependants_at self.now.dependants id) place }
        ensures once { AreDistinct (dependants_at self.now.dependants id) }
        ensures next { IfSome result (λ d. place + 1 < 2 ^ 64) }
    {
        match self.dependants.get(id.number()) {
            Some(readers) => reader_at(readers, place),
            None => None,
        }
    }

    // Marks one signal.
    fn mark(&mut self, id: NodeId)
        requires { id < length self.old.marked }
        ensures { self.new ≡ with_mark self.old id true }
    {
        let _before = mark_one(&mut self.marked, id.number());
    }

    /// Takes the mark of a signal that stands.
    pub fn unmark(&mut self, id: NodeId)
        ensures { self.new ≡ without_mark self.old id }
    {
        unmark_one(&mut self.marked, id.number());
    }

    /// Marks the dependants of a signal, theirs, and so on; it stops at what is marked already. What it marks newly is listed until the next
    /// marking. It takes no memory.
    pub fn spread(&mut self, id: NodeId)
        requires { id < length self.old.marked }
        ensures marks { Spreads self.old.dependants self.old.marked self.new.marked id }
        ensures dependants { self.new.dependants ≡ self.old.dependants }
        ensures stands { self.new.stands ≡ self.old.stands }
        ensures fresh { AreFresh self.old.dependants self.old.marked id self.new.fresh }
        ensures listed { AreListed self.old.marked self.new.marked self.new.fresh }
    {
        let _count = self.marked.made();
        spread(
            &self.dependants,
            &mut self.marked,
            &mut self.fresh,
            id.number(),
        );
    }

    /// What the last marking marked newly.
    pub fn fresh(&self) -> &[u64]
        ensures { result.now ≡ self.now.fresh }
    {
        &self.fresh
    }

    // Marks a signal, and then its dependants, theirs, and so on. It stands apart, so that what is marked already is passed over in few steps.
    #[inline(never)]
    fn mark_on(&mut self, id: NodeId)
        requires { id < length self.old.marked }
        ensures marks { Spreads self.old.dependants (slice_set self.old.marked id true) self.new.marked id }
        ensures dependants { self.new.dependants ≡ self.old.dependants }
        ensures stands { self.new.stands ≡ self.old.stands }
    {
        self.mark(id);
        self.spread(id);
    }

    /// Marks a signal, and then its dependants, theirs, and so on; where it is marked already nothing changes. It takes no memory.
    #[inline(always)]
    pub fn push(&mut self, id: NodeId)
        requires { id < length self.old.marked }
        ensures marks { Pushes self.old.dependants self.old.marked self.new.marked id }
        ensures dependants { self.new.dependants ≡ self.old.dependants }
        ensures stands { self.new.stands ≡ self.old.stands }
    {
        if self.is_marked(id) {
            return;
        }
        self.mark_on(id);
    }

    /// Gives a reader these sources in place of the earlier ones; those that are gone don't note it. Without memory all is as before.
    pub fn relink(
        &mut self,
        sources: &[NodeId],
        reads: &[NodeId],
        reader: NodeId,
    ) -> Result<(), NoMemory>
        requires sources { All (λ n. n < length self.old.marked) sources.now }
        requires reads { All (λ n. n < length self.old.marked) reads.now }
        requires reader { reader < length self.old.marked }
        ensures after { OnOk result (Relinks self.old.dependants self.new.dependants self.old.stands sources.now reads.now reader) }
        ensures marks { self.new.marked ≡ self.old.marked }
        ensures stands { self.new.stands ≡ self.old.stands }
        ensures err { OnErr result (self.new ≡ self.old) }
    {
        let _count = self.marked.made();
        relink(
            &mut self.dependants,
            self.alloc,
            sources,
            reads,
            reader.number(),
        )?;
        Ok(())
    }

    /// Takes a signal out of the dependants of its sources, and takes its own dependants and its mark away, so that nothing is left of it.
    /// It takes no memory.
    pub fn take_out(&mut self, id: NodeId, sources: &[NodeId])
        requires place { id < length self.old.marked }
        requires sources { All (λ n. n < length self.old.marked) sources.now }
        ensures after { Drops self.old.dependants self.new.dependants sources.now id }
        ensures marks { self.new.marked ≡ slice_set self.old.marked id true }
        ensures stands { self.new.stands ≡ slice_set self.old.stands id false }
    {
        let _count = self.marked.made();
        drop_links(&mut self.dependants, sources, id.number());
        drop_mark(&mut self.marked, &mut self.live, id.number());
    }
}

// The marks of computeds.
ghost use Rattle.std.specs.Prelude.{◌≡◌, true, false};
ghost use Rattle.signal_model.specs.Signals.{is_computed, standing};
ghost use Rattle.signal_model.specs.Marks.{is_due, mark_of};
ghost use Rattle.sig_nodes.specs.Answers.{mark_meant};
ghost use Rattle.sig_graph.specs.Looks.{is_clean_mark};
ghost use Rattle.sig_graph.specs.States.{with_look, Becomes};

use crate::evaluation::count;
use crate::graph::Graph;
use crate::marks::is_due;
use crate::search::{finds_below, told_clean};
use crate::search_marks::unmark_reached;
use sig_base::NodeId;
use sig_nodes::Mark;

impl Graph {
    // Whether a search finds that a computed that needn't run itself is clean. One that found nothing that must run takes the marks of all
    // that it went through, if it may. It stands apart, so that what is told without it is told in few steps.
    #[inline(never)]
    fn is_searched_clean(&mut self, id: NodeId) -> bool
        requires live { is_computed (standing self.old.state.signals id) ≡ true }
        requires calm { is_due self.old.state.signals self.old.state.memos id ≡ false }
        ensures clean { result ≡ is_clean_mark (mark_of self.old.state.signals self.old.state.memos id) }
        ensures same { self.new ≡ self.old }
    {
        let _count = self.nodes.made();
        if finds_below(
            &self.nodes,
            self.generation,
            self.worn,
            &self.marks,
            id,
            &mut self.reached,
            &mut self.trail,
            &mut self.finds,
        ) {
            return false;
        }
        unmark_reached(
            &self.nodes,
            &self.seats,
            &mut self.marks,
            self.reached.seats(),
        );
        true
    }

    // Whether a computed is clean, by a search where it isn't told without one.
    fn has_clean_mark(&mut self, id: NodeId) -> bool
        requires { is_computed (standing self.old.state.signals id) ≡ true }
        ensures clean { result ≡ is_clean_mark (mark_of self.old.state.signals self.old.state.memos id) }
        ensures same { self.new ≡ self.old }
    {
        let _count = self.nodes.made();
        let told = told_clean(
            &self.nodes,
            self.generation,
            self.worn,
            &self.marks,
            &self.finds,
            id,
        );
        match told {
            Some(clean) => clean,
            None => self.is_searched_clean(id),
        }
    }

    // The mark of a computed that isn't clean.
    fn unclean_mark(&self, id: NodeId) -> Mark
        requires computed { is_computed (standing self.now.state.signals id) ≡ true }
        requires unclean { is_clean_mark (mark_of self.now.state.signals self.now.state.memos id) ≡ false }
        ensures { mark_meant result ≡ mark_of self.now.state.signals self.now.state.memos id }
    {
        if is_due(&self.nodes, self.generation, id) {
            return Mark::Dirty;
        }
        Mark::Checked
    }

    /// The mark of a computed: whether it must run, or else something below it along kept sources. A search that found nothing that must
    /// run takes the marks of all that it went through, if it may. It is no counted step, and takes no memory.
    pub fn mark_of(&mut self, id: NodeId) -> Mark
        requires { is_computed (standing self.old.state.signals id) ≡ true }
        ensures mark { mark_meant result ≡ mark_of self.old.state.signals self.old.state.memos id }
        ensures same { self.new ≡ self.old }
    {
        if self.has_clean_mark(id) {
            return Mark::Clean;
        }
        self.unclean_mark(id)
    }

    /// Looks at a computed that isn't being evaluated: whether it is clean. It is a counted step, and takes no memory.
    pub fn is_clean(&mut self, id: NodeId) -> bool
        requires { is_computed (standing self.old.state.signals id) ≡ true }
        ensures clean { result ≡ is_clean_mark (mark_of self.old.state.signals self.old.state.memos id) }
        ensures after { Becomes self.old self.new (with_look self.old.state) }
        ensures seats { self.new.seats ≡ self.old.seats }
    {
        let clean = self.has_clean_mark(id);
        count(&mut self.looked);
        clean
    }
}

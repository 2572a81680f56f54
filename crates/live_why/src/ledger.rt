// Facts in order, with the cause of each run and the marks of each signal.
ghost use Rattle.std.specs.Prelude.{◌≡◌, ◌+◌, ◌∷◌, ◌++◌, ◌<◌, ◌≤◌, ◌↔◌, ◌==◌, ℕ, [], None, Some, IfOk, IfSome, IsErrOf, MatchOption, OnErr, OnOk, is_ok, length, option_map, if◌then◌else◌};
ghost use Rattle.why_model.specs.Facts.{has_run, is_news, last_run, was_changed};
ghost use Rattle.why_model.specs.Chains.{cause_of, chain, first_moved, links_from, moved_by};
ghost use Rattle.live_why.specs.Views.{facts_of, note_of};
ghost use Rattle.live_why.specs.Marking.{back, marks_at, marks_changed, marks_run, IsRight};
ghost use Rattle.live_why.specs.declared.errors.JournalFault.TheVariants as fault;

use crate::errors::JournalFault;
use crate::facts::{Fact, copied};
use crate::index::{Index, Marks};
use effect_model::How;
use sig_base::{NoMemory, NodeId, Outcome};
use sig_computed::RunNote;
use std::alloc::Global;
use why_model::{Cause, Link, MOST_FACTS, is_cycle, is_rewire};

/// Facts in order, with the cause of each run, and the marks of each signal.
#[derive(Drop)]
pub(crate) struct Ledger {
    pub facts: Vec<Fact>,
    pub causes: Vec<Cause>,
    pub index: Index,
}

// The marks of a signal after a change of it.
fn marks_changed(how: How, number: usize, marks: Marks) -> Marks
    ensures { result ≡ marks_changed how number marks }
{
    Marks {
        run: marks.run,
        rewired: if is_rewire(how) {
            number
        } else {
            marks.rewired
        },
        moved: number,
    }
}

// The marks of a computed after a run.
fn marks_run(news: bool, number: usize, marks: Marks) -> Marks
    ensures { result ≡ marks_run news number marks }
{
    Marks {
        run: number,
        rewired: marks.rewired,
        moved: if news { number } else { marks.moved },
    }
}

impl Ledger {
    /// Nothing is noted.
    pub(crate) fn new(alloc: Global) -> Ledger
        ensures facts { result.facts.items ≡ [] }
        ensures right { IsRight result.facts.items result.causes.items result.index.marks.entries }
    {
        Ledger {
            facts: Vec::new(alloc),
            causes: Vec::new(alloc),
            index: Index::new(alloc),
        }
    }

    // The last run of a computed, with its number.
    fn last_run(&self, id: NodeId) -> Option<(usize, &RunNote)>
        requires { IsRight self.now.facts.items self.now.causes.items self.now.index.marks.entries }
        ensures found { MatchOption result (last_run id (back self.now.facts.items) ≡ None)
            (λ p. last_run id (back self.now.facts.items) ≡ Some (record { number = p.0; note = note_of p.1.now })) }
    {
        let number = self.index.at(id).run;
        if number == 0 {
            return None;
        }
        match &self.facts[number - 1] {
            Fact::Run(note) => Some((number, note)),
            Fact::Change(_, _) => unreachable!(),
        }
    }

    // The first of these reads that was moved since a fact, as a cause.
    fn first_moved(&self, since: usize, reads: &[NodeId]) -> Cause
        requires { IsRight self.now.facts.items self.now.causes.items self.now.index.marks.entries }
        ensures { result ≡ first_moved since reads.now (back self.now.facts.items) }
    {
        for read in reads {
            let moved = self.index.at(*read).moved;
            if moved > since {
                return Cause::Changed(*read, moved as u64);
            }
        }
        Cause::Evaluating
    }

    // Why a computed would run now.
    fn cause_of(&self, id: NodeId) -> Cause
        requires { IsRight self.now.facts.items self.now.causes.items self.now.index.marks.entries }
        ensures { result ≡ cause_of id (back self.now.facts.items) }
    {
        let Some((number, last)) = self.last_run(id) else {
            return Cause::First;
        };
        if is_cycle(&last.outcome) {
            return Cause::Cycle;
        }
        let rewired = self.index.at(id).rewired;
        if rewired > number {
            return Cause::Rewired(rewired as u64);
        }
        self.first_moved(number, last.reads.as_slice())
    }

    // Whether an outcome is news of a computed.
    fn is_news(&self, id: NodeId, outcome: &Outcome) -> bool
        requires { IsRight self.now.facts.items self.now.causes.items self.now.index.marks.entries }
        ensures { result ≡ is_news (last_run id (back self.now.facts.items)) outcome.now }
    {
        match self.last_run(id) {
            None => true,
            Some((_, last)) => !last.outcome.same(outcome),
        }
    }

    // Puts a fact behind the others, with its cause and the new marks of its signal.
    fn put(&mut self, id: NodeId, marks: Marks, fact: Fact, cause: Cause) -> Result<(), NoMemory>
        ensures facts { self.new.facts.items ≡ (if is_ok result then self.old.facts.items ++ fact ∷ [] else self.old.facts.items) }
        ensures causes { self.new.causes.items ≡ (if is_ok result then self.old.causes.items ++ cause ∷ [] else self.old.causes.items) }
        ensures put { OnOk result ((n : ℕ) → marks_at self.new.index.marks.entries n
            ≡ (if n == id then marks else marks_at self.old.index.marks.entries n)) }
        ensures err { OnErr result ((n : ℕ) → marks_at self.new.index.marks.entries n ≡ marks_at self.old.index.marks.entries n) }
    {
        self.facts.reserve(1)?;
        self.causes.reserve(1)?;
        self.index.put(id, marks)?;
        match self.facts.push(fact) {
            Ok(_) => {}
            Err(_) => unreachable!(),
        }
        match self.causes.push(cause) {
            Ok(_) => {}
            Err(_) => unreachable!(),
        }
        Ok(())
    }

    /// Notes that a signal was changed.
    ///
    /// # Errors
    ///
    /// `Full` where there are as many facts as there may be, `NoMemory` where memory ran out; then all is as before.
    pub(crate) fn note_change(&mut self, id: NodeId, how: How) -> Result<(), JournalFault>
        requires { IsRight self.old.facts.items self.old.causes.items self.old.index.marks.entries }
        ensures right { IsRight self.new.facts.items self.new.causes.items self.new.index.marks.entries }
        ensures noted { OnOk result (facts_of self.new.facts.items ≡ facts_of self.old.facts.items ++ was_changed id how ∷ []) }
        ensures err { OnErr result (self.new.facts.items ≡ self.old.facts.items) }
        ensures full { IsErrOf result fault.Full ↔ (MOST_FACTS ≤ length self.old.facts.items) }
    {
        if self.facts.len() >= MOST_FACTS {
            return Err(JournalFault::Full);
        }
        let number = self.facts.len() + 1;
        let marks = marks_changed(how, number, self.index.at(id));
        self.put(id, marks, Fact::Change(id, how), Cause::First)?;
        Ok(())
    }

    // Notes a run, for which there is place.
    fn note(&mut self, run: RunNote) -> Result<(), NoMemory>
        requires { IsRight self.old.facts.items self.old.causes.items self.old.index.marks.entries }
        ensures right { IsRight self.new.facts.items self.new.causes.items self.new.index.marks.entries }
        ensures noted { OnOk result (facts_of self.new.facts.items ≡ facts_of self.old.facts.items ++ has_run (note_of run) ∷ []) }
        ensures err { OnErr result (self.new.facts.items ≡ self.old.facts.items) }
    {
        let number = self.facts.len() + 1;
        let id = run.id;
        let cause = self.cause_of(id);
        let news = self.is_news(id, &run.outcome);
        let marks = marks_run(news, number, self.index.at(id));
        self.put(id, marks, Fact::Run(run), cause)?;
        Ok(())
    }

    /// Notes a run.
    ///
    /// # Errors
    ///
    /// `Full` where there are as many facts as there may be, `NoMemory` where memory ran out; then all is as before.
    pub(crate) fn note_run(&mut self, run: &RunNote) -> Result<(), JournalFault>
        requires { IsRight self.old.facts.items self.old.causes.items self.old.index.marks.entries }
        ensures right { IsRight self.new.facts.items self.new.causes.items self.new.index.marks.entries }
        ensures noted { OnOk result (facts_of self.new.facts.items ≡ facts_of self.old.facts.items ++ has_run (note_of run.now) ∷ []) }
        ensures err { OnErr result (self.new.facts.items ≡ self.old.facts.items) }
        ensures full { IsErrOf result fault.Full ↔ (MOST_FACTS ≤ length self.old.facts.items) }
    {
        if self.facts.len() >= MOST_FACTS {
            return Err(JournalFault::Full);
        }
        let copy = copied(run)?;
        self.note(copy)?;
        Ok(())
    }

    // The first of the links from the fact of a number on; none where there are none.
    fn link_at(&self, number: usize) -> Option<Link>
        requires right { IsRight self.now.facts.items self.now.causes.items self.now.index.marks.entries }
        requires inside { number ≤ length self.now.facts.items }
        ensures link { MatchOption result (links_from (back self.now.facts.items) number ≡ [])
            (λ l. links_from (back self.now.facts.items) number ≡ l ∷ links_from (back self.now.facts.items) (moved_by l.cause)) }
        ensures lower { IfSome result (λ l. moved_by l.cause < number) }
    {
        if number == 0 {
            return None;
        }
        match &self.facts[number - 1] {
            Fact::Change(_, _) => None,
            Fact::Run(_) => Some(Link {
                run: number as u64,
                cause: self.causes[number - 1],
            }),
        }
    }

    // The links from the fact of a number on.
    fn links_from(&self, start: usize) -> Result<Vec<Link>, NoMemory>
        requires right { IsRight self.now.facts.items self.now.causes.items self.now.index.marks.entries }
        requires inside { start ≤ length self.now.facts.items }
        ensures { IfOk result (λ v. v.items ≡ links_from (back self.now.facts.items) start) }
    {
        let mut links = Vec::new(*self.facts.allocator());
        let mut number = start;
        while let Some(link) = self.link_at(number) {
            number = link.cause.moved_by() as usize;
            links.push(link)?;
        }
        Ok(links)
    }

    /// The chain of a computed; none where it never ran.
    ///
    /// # Errors
    ///
    /// `NoMemory` where memory ran out.
    pub(crate) fn chain(&self, id: NodeId) -> Result<Option<Vec<Link>>, NoMemory>
        requires { IsRight self.now.facts.items self.now.causes.items self.now.index.marks.entries }
        ensures { IfOk result (λ o. option_map (λ v. v.items) o ≡ chain (facts_of self.now.facts.items) id) }
    {
        let number = self.index.at(id).run;
        if number == 0 {
            return Ok(None);
        }
        let links = self.links_from(number)?;
        Ok(Some(links))
    }
}

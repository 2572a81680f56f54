// Why a computed ran, and the links that there are.
ghost use Rattle.std.specs.Prelude.{◌≡◌, ◌∷◌, ◌≤◌, ◌↔◌, [], IsTrue, MatchOption, length};
ghost use Rattle.why_model.specs.Chains.{cause_of, first_moved, links_from, moved_by};
ghost use Rattle.live_why.specs.Views.{past};

use crate::looking::{Wanted, last_hit, last_run};
use live_why::Fact;
use sig_base::NodeId;
use why_model::{Cause, Link, is_cycle};

// The first of these reads that was moved since a fact, as a cause.
fn first_moved(facts: &[Fact], before: usize, since: usize, reads: &[NodeId]) -> Cause
    requires { before ≤ length facts.now }
    ensures { result ≡ first_moved since reads.now (past facts.now before) }
{
    for read in reads {
        let moved = last_hit(facts, before, since, Wanted::Move, *read);
        if moved > 0 {
            return Cause::Changed(*read, moved as u64);
        }
    }
    Cause::Evaluating
}

// Why a computed ran after so many facts.
fn cause_of(facts: &[Fact], before: usize, id: NodeId) -> Cause
    requires { before ≤ length facts.now }
    ensures { result ≡ cause_of id (past facts.now before) }
{
    let Some((number, last)) = last_run(facts, before, id) else {
        return Cause::First;
    };
    if is_cycle(&last.outcome) {
        return Cause::Cycle;
    }
    let rewired = last_hit(facts, before, number, Wanted::Rewiring, id);
    if rewired > 0 {
        return Cause::Rewired(rewired as u64);
    }
    first_moved(facts, before, number, last.reads.as_slice())
}

/// The first of the links from the fact of a number on; none where there are none.
pub(crate) fn link_at(facts: &[Fact], number: usize) -> Option<Link>
    ensures { MatchOption result (links_from (past facts.now (length facts.now)) number ≡ [])
        (λ l. links_from (past facts.now (length facts.now)) number ≡ l ∷ links_from (past facts.now (length facts.now)) (moved_by l.cause)) }
{
    if number == 0 {
        return None;
    }
    if number > facts.len() {
        return None;
    }
    match &facts[number - 1] {
        Fact::Change(_, _) => None,
        Fact::Run(note) => Some(Link {
            run: number as u64,
            cause: cause_of(facts, number - 1, note.id),
        }),
    }
}

/// Whether two links are one.
pub(crate) fn is_same(a: &Link, b: &Link) -> bool
    ensures { IsTrue result ↔ (a.now ≡ b.now) }
{
    *a == *b
}

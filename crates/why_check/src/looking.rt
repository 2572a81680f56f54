// Searches among facts, from a place back.
ghost use Rattle.std.specs.Prelude.{◌≡◌, ◌+◌, ◌<◌, ◌≤◌, nat_lt, None, Some, IfSome, MatchOption, length, if◌then◌else◌};
ghost use Rattle.why_model.specs.Facts.{is_news, last_number, last_run};
ghost use Rattle.live_why.specs.Views.{note_of, past};
ghost use Rattle.why_check.specs.Looking.{hits, is_hit_first};

use live_why::Fact;
use sig_base::NodeId;
use sig_computed::RunNote;
use why_model::is_rewire;

/// The last run of a computed among so many facts, with its number.
pub(crate) fn last_run(facts: &[Fact], before: usize, id: NodeId) -> Option<(usize, &RunNote)>
    requires { before ≤ length facts.now }
    ensures found { MatchOption result (last_run id (past facts.now before) ≡ None)
        (λ p. last_run id (past facts.now before) ≡ Some (record { number = p.0; note = note_of p.1.now })) }
    ensures inside { IfSome result (λ p. p.0 ≤ before) }
{
    let mut at = before;
    while at > 0 {
        at -= 1;
        if let Fact::Run(note) = &facts[at] {
            if id == note.id {
                return Some((at + 1, note));
            }
        }
    }
    None
}

// Whether an outcome is news after so many facts.
fn is_news(facts: &[Fact], before: usize, id: NodeId, note: &RunNote) -> bool
    requires { before ≤ length facts.now }
    ensures { result ≡ is_news (last_run id (past facts.now before)) note.now.outcome }
{
    match last_run(facts, before, id) {
        None => true,
        Some((_, last)) => !last.outcome.same(&note.outcome),
    }
}

/// What is looked for.
#[derive(Clone, Copy)]
pub(crate) enum Wanted {
    /// A fact that moves a signal.
    Move,
    /// A rewiring of it.
    Rewiring,
}

// Whether the fact at a place is one that is looked for.
fn is_hit(facts: &[Fact], at: usize, wanted: Wanted, id: NodeId) -> bool
    requires { at < length facts.now }
    ensures { result ≡ is_hit_first (hits wanted id) (past facts.now (at + 1)) }
{
    match &facts[at] {
        Fact::Change(changed, how) => match wanted {
            Wanted::Move => id == *changed,
            Wanted::Rewiring => id == *changed && is_rewire(*how),
        },
        Fact::Run(note) => match wanted {
            Wanted::Move => id == note.id && is_news(facts, at, id, note),
            Wanted::Rewiring => false,
        },
    }
}

/// The number of the last fact that is looked for among so many, where it comes after another fact; 0 where none does.
pub(crate) fn last_hit(
    facts: &[Fact],
    before: usize,
    since: usize,
    wanted: Wanted,
    id: NodeId,
) -> usize
    requires { before ≤ length facts.now }
    ensures hit { result ≡ (if nat_lt since (last_number (hits wanted id) (past facts.now before))
        then last_number (hits wanted id) (past facts.now before) else 0) }
    ensures inside { result ≤ before }
{
    let mut at = before;
    while at > since {
        at -= 1;
        if is_hit(facts, at, wanted, id) {
            return at + 1;
        }
    }
    0
}

// What a journal notes.
ghost use Rattle.std.specs.Prelude.{◌≡◌, IfOk};
ghost use Rattle.live_why.specs.Views.{note_of};

use effect_model::How;
use sig_base::{NoMemory, NodeId};
use sig_computed::RunNote;

/// What a journal notes.
#[derive(Drop)]
pub enum Fact {
    /// A signal was changed.
    Change(NodeId, How),
    /// A computed ran.
    Run(RunNote),
}

/// A copy of the note of a run.
///
/// # Errors
///
/// `NoMemory` where memory ran out.
pub(crate) fn copied(note: &RunNote) -> Result<RunNote, NoMemory>
    ensures { IfOk result (λ n. note_of n ≡ note_of note.now) }
{
    let reads = note.reads.copy()?;
    let outcome = note.outcome.copy()?;
    Ok(RunNote {
        id: note.id,
        reads,
        outcome,
    })
}

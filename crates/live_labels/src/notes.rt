// What is told is noted, once a journal was begun.
ghost use Rattle.std.specs.Prelude.{◌≡◌, List, OnOk, map, option_map};
ghost use Rattle.effect_model.specs.Worlds as plain;
ghost use Rattle.sig_effect.specs.Events.{AreTold};
ghost use Rattle.why_model.specs.Facts.{has_run};
ghost use Rattle.why_model.specs.Records.{with_facts};
ghost use Rattle.why_model.specs.Told.{facts_told};
ghost use Rattle.live_why.specs.Views.{note_of};
ghost use Rattle.live_model.specs.Journals.{noting};
ghost use Rattle.live_labels.specs.Facts.{facts_noted};

use live_why::Recorder;
use sig_base::NoMemory;
use sig_computed::RunNote;
use sig_effect::Event;

// Notes an event, if it is a run or a change of a signal.
fn note_event(recorder: &mut Recorder, event: &Event) -> Result<(), NoMemory>
    ensures { OnOk result (recorder.new ≡ with_facts (facts_noted event.now) recorder.old) }
{
    match event {
        Event::Run(note) => {
            recorder.note_run(note)?;
            Ok(())
        }
        Event::Change(id, how) => {
            recorder.note_change(*id, *how)?;
            Ok(())
        }
        _ => Ok(()),
    }
}

// Notes events, one by one.
#[inline(never)]
fn note_events(recorder: &mut Recorder, events: &[Event]) -> Result<(), NoMemory>
    ensures { (ts : List plain.Event) → AreTold events.now ts → OnOk result (recorder.new ≡ with_facts (facts_told ts) recorder.old) }
{
    for event in events {
        note_event(recorder, event)?;
    }
    Ok(())
}

/// Notes events in the journal, if one was begun.
pub(crate) fn note_all(journal: &mut Option<Recorder>, events: &[Event]) -> Result<(), NoMemory>
    ensures { (ts : List plain.Event) → AreTold events.now ts → OnOk result (journal.new ≡ noting ts journal.old) }
{
    let Some(recorder) = journal else {
        return Ok(());
    };
    note_events(recorder, events)?;
    Ok(())
}

/// Notes runs in the journal, if one was begun.
///
/// # Errors
///
/// `NoMemory` where memory ran out.
pub fn note_runs(journal: &mut Option<Recorder>, notes: &[RunNote]) -> Result<(), NoMemory>
    ensures { OnOk result (journal.new ≡ option_map (with_facts (map has_run (map note_of notes.now))) journal.old) }
{
    let Some(recorder) = journal else {
        return Ok(());
    };
    recorder.note_all(notes)?;
    Ok(())
}

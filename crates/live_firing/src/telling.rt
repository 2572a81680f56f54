// What handlers tell.
ghost use Rattle.std.specs.Prelude.{◌≡◌, ◌≤◌, ◌++◌, ◌∷◌, [], List, OnOk, length};
ghost use Rattle.effect_model.specs.Worlds as plain;
ghost use Rattle.live_entries.specs.declared.entry.Entry.TheVariants as entry;
ghost use Rattle.live_labels.specs.Views.{labels_of, KeepsNames};
ghost use Rattle.live_model.specs.Journals.{noting};
ghost use Rattle.live_model.specs.Labels.{labels_after};
ghost use Rattle.live_model.specs.Machine.{entries_of};
ghost use Rattle.sig_effect.specs.Events.{Tells};

use live_entries::Entry;
use live_labels::{Labels, append, tell_all};
use live_why::Recorder;
use sig_base::{Fault, Name, NoMemory};
use sig_effect::Event;

/// Tells what happened behind the first so many events.
pub(crate) fn tell_behind(
    labels: &mut Labels,
    journal: &mut Option<Recorder>,
    events: &[Event],
    count: usize,
    told: &mut Vec<Entry>,
) -> Result<(), NoMemory>
    requires { count ≤ length events.now }
    ensures told { (before : List Event) (ts : List plain.Event) → length before ≡ count → Tells before events.now ts →
        OnOk result (told.new.items ≡ told.old.items ++ entries_of (labels_of labels.old) ts) }
    ensures labels { (before : List Event) (ts : List plain.Event) → length before ≡ count → Tells before events.now ts →
        OnOk result (labels_of labels.new ≡ labels_after ts (labels_of labels.old)) }
    ensures noted { (before : List Event) (ts : List plain.Event) → length before ≡ count → Tells before events.now ts →
        OnOk result (journal.new ≡ noting ts journal.old) }
    ensures names { OnOk result (KeepsNames labels.old labels.new) }
{
    let (_, more) = events.split_at(count);
    let entries = tell_all(*told.allocator(), labels, journal, more)?;
    append(told, entries)?;
    Ok(())
}

/// Tells that a handler runs at a node of a page.
pub(crate) fn tell_fired(told: &mut Vec<Entry>, page: &Name, node: u64) -> Result<(), NoMemory>
    ensures { OnOk result (told.new.items ≡ told.old.items ++ entry.Fired page.now node ∷ []) }
{
    let page = page.copy()?;
    told.push(Entry::Fired(page, node))?;
    Ok(())
}

/// Tells that its body failed there.
pub(crate) fn tell_fault(
    told: &mut Vec<Entry>,
    page: &Name,
    node: u64,
    fault: Fault,
) -> Result<(), NoMemory>
    ensures { OnOk result (told.new.items ≡ told.old.items ++ entry.FailAt page.now node fault ∷ []) }
{
    let page = page.copy()?;
    told.push(Entry::FailAt(page, node, fault))?;
    Ok(())
}

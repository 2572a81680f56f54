// Pages are brought up to date.
ghost use Rattle.std.specs.Prelude.{◌≡◌, ◌≤◌, ◌^◌, ℕ, List, IfOk, OnOk, length};
ghost use Rattle.signal_model.specs.Recipes.{Hosts};
ghost use Rattle.sig_base.specs.declared.limits.TheConstants.{MOST_PAGES};
ghost use Rattle.sig_effect.specs.Stores.{environment};
ghost use Rattle.effect_world.specs.Stores.{IsSound};
ghost use Rattle.tpl_live.specs.Pages.{IsStanding};
ghost use Rattle.tpl_live.specs.Contents.{standing};
ghost use Rattle.live_model.specs.Machine.{Machine};
ghost use Rattle.live_model.specs.Pages.{Template};
ghost use Rattle.live_labels.specs.Views.{labels_of};
ghost use Rattle.live_pages.specs.Updates.{numbers_of, AreUpdated, AreShown, AreStanding, CanSettle, IsUpdated, IsShown, Settled};

use crate::mounted::Mounted;
use crate::report::tell_news;
use effect_world::World;
use live_entries::Entry;
use live_labels::{Labels, tell_runs};
use live_why::Recorder;
use sig_base::NoMemory;
use sig_computed::RunNote;
use sig_host::{Lent, Shelf};
use std::alloc::Global;

// Brings a page up to date, and tells the runs on the way, which are noted in a list that is kept, and its news.
fn bring_up(
    world: &mut World,
    shelf: &mut Shelf,
    labels: &Labels,
    journal: &mut Option<Recorder>,
    page: &mut Mounted,
    notes: &mut Vec<RunNote>,
    told: &mut Vec<Entry>,
) -> Result<(), NoMemory>
    requires stands { IsStanding (standing page.old.page) }
    requires can { CanSettle (⟦<Shelf as Lent>⟧.asked shelf.old) world.old (⟦<Shelf as Lent>⟧.counted shelf.old) (2 ^ 126) }
    ensures page { (hosts : Hosts) (slacks : List ℕ) (templates : List Template) → ⟦<Shelf as Lent>⟧.answers hosts shelf.old →
        IsSound hosts (⟦<Shelf as Lent>⟧.asked shelf.old) world.old → IsShown templates page.old →
        OnOk result (IsUpdated (environment hosts slacks) (labels_of labels.now)
        templates (⟦<Shelf as Lent>⟧.asked shelf.old) (⟦<Shelf as Lent>⟧.asked shelf.new)
        world.old world.new page.old page.new told.old.items told.new.items journal.old journal.new) }
    ensures shown { (templates : List Template) → IsShown templates page.old → OnOk result (IsShown templates page.new) }
    ensures stands { OnOk result (IsStanding (standing page.new.page)) }
    ensures number { OnOk result (page.new.number ≡ page.old.number) }
    ensures settled { OnOk result (Settled (⟦<Shelf as Lent>⟧.asked shelf.old) (⟦<Shelf as Lent>⟧.asked shelf.new) world.old world.new
        (λ hosts. ⟦<Shelf as Lent>⟧.answers hosts shelf.old) (λ hosts. ⟦<Shelf as Lent>⟧.answers hosts shelf.new) (⟦<Shelf as Lent>⟧.counted shelf.new) (2 ^ 64) (2 ^ 71)) }
{
    notes.clear();
    let ops = page.page.update(&mut world.graph, shelf, notes)?;
    let _count = notes.len();
    tell_runs(told, &labels.signals, journal, notes)?;
    tell_news(told, page, ops)?;
    Ok(())
}

/// Brings all pages up to date, in order of mounting, and tells the runs on the way and their news: the operations on each page that has one,
/// and its HTML behind them. The runs are noted in a list that is kept, so that the next flush finds room for its own.
///
/// # Errors
///
/// After `NoMemory` world, shelf and pages may only be dropped.
pub fn bring_all_up(
    alloc: Global,
    world: &mut World,
    shelf: &mut Shelf,
    labels: &Labels,
    journal: &mut Option<Recorder>,
    pages: &mut Vec<Mounted>,
    notes: &mut Vec<RunNote>,
) -> Result<Vec<Entry>, NoMemory>
    requires stand { AreStanding pages.old.items }
    requires few { length pages.old.items ≤ MOST_PAGES }
    requires can { CanSettle (⟦<Shelf as Lent>⟧.asked shelf.old) world.old (⟦<Shelf as Lent>⟧.counted shelf.old) (2 ^ 125) }
    ensures pages { (hosts : Hosts) (slacks : List ℕ) (m : Machine) → ⟦<Shelf as Lent>⟧.answers hosts shelf.old →
        IsSound hosts (⟦<Shelf as Lent>⟧.asked shelf.old) world.old → AreShown m.templates pages.old.items →
        IfOk result (λ es. AreUpdated (environment hosts slacks) m
        (labels_of labels.now) (⟦<Shelf as Lent>⟧.asked shelf.old) (⟦<Shelf as Lent>⟧.asked shelf.new)
        world.old world.new pages.old.items pages.new.items es.items journal.old journal.new) }
    ensures shown { (templates : List Template) → AreShown templates pages.old.items → OnOk result (AreShown templates pages.new.items) }
    ensures numbers { OnOk result (numbers_of pages.new.items ≡ numbers_of pages.old.items) }
    ensures settled { OnOk result (Settled (⟦<Shelf as Lent>⟧.asked shelf.old) (⟦<Shelf as Lent>⟧.asked shelf.new) world.old world.new
        (λ hosts. ⟦<Shelf as Lent>⟧.answers hosts shelf.old) (λ hosts. ⟦<Shelf as Lent>⟧.answers hosts shelf.new) (⟦<Shelf as Lent>⟧.counted shelf.new) (2 ^ 68) (2 ^ 75)) }
{
    let mut told = Vec::new(alloc);
    for page in pages.iter_mut() {
        bring_up(world, shelf, labels, journal, page, notes, &mut told)?;
    }
    Ok(told)
}

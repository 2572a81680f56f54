// How a job reports what the items of a script come to.
ghost use Rattle.std.specs.Prelude.{◌≡◌, ◌≤◌, ◌<◌, ◌+◌, ◌^◌, ◌++◌, List, [], ◌∷◌, true, IfOk, OnOk, flat_map};
ghost use Rattle.std.specs.List.{AllByRecursion};
ghost use Rattle.live_cmd.specs.declared.command.Command.{Command};
ghost use Rattle.live_cmd.specs.declared.command.Item.{Item as AnItem};
ghost use Rattle.live_cmd.specs.declared.command.Item.TheVariants as item;
ghost use Rattle.live_entries.specs.declared.entry.Entry.{Entry as AnEntry};
ghost use Rattle.live_entries.specs.Printed.{printed, AreLeft, IsSizedEntry};
ghost use Rattle.live_report.specs.Reports.{counted, output_of, still};

use crate::counters::{is_command, no_counts, turn_page, with_command, with_entries};
use bench_workload::{Counts, put_summary};
use live_cmd::Item;
use live_entries::{Entry, PageBytes, entry_line};
use live_words::ScriptJob;
use page_wire::ToldPages;
use sig_base::NoMemory;
use std::alloc::Global;

/// How a job reports what the items of a script come to.
#[derive(Drop)]
pub enum Report {
    /// By the lines of what they tell, as they come, those of a trace too or not.
    Lines {
        trace: bool,
    },
    /// By a summary at the end: the rounds of the workload, what was counted, and the page as it was told last.
    Summary {
        rounds: u32,
        counts: Counts,
        page: PageBytes,
    },
    /// By the frames of what they tell of pages, as they come, behind what was told of pages before.
    Frames {
        told: ToldPages,
    },
}

fn put_entries(out: &mut Vec<u8>, entries: &[Entry], trace: bool) -> Result<(), NoMemory>
    ensures text { OnOk result (out.new.items ≡ out.old.items ++ flat_map (printed trace) entries.now) }
    ensures sized { OnOk result (AllByRecursion IsSizedEntry entries.now) }
{
    for entry in entries {
        entry_line(out, entry, trace)?;
    }
    Ok(())
}

// Makes the lines that a run prints behind the output and lets them go, so that a workload does all that a run does.
fn make_lines(out: &mut Vec<u8>, entries: &[Entry]) -> Result<(), NoMemory>
    ensures same { OnOk result (out.new.items ≡ out.old.items) }
    ensures sized { OnOk result (AllByRecursion IsSizedEntry entries.now) }
{
    let length = out.len();
    put_entries(out, entries, false)?;
    out.truncate(length);
    Ok(())
}

impl Report {
    /// The report of a job, before the first item. With all items and all that they tell it prints what the job prints.
    ///
    /// # Errors
    ///
    /// `NoMemory` where it finds no room.
    #[tactic(auto, unfolding(crate::specs::Reports::still, crate::specs::Reports::counted))]
    pub fn new(alloc: Global, job: ScriptJob) -> Result<Report, NoMemory>
        ensures prints { IfOk result (λ r. (is : List AnItem) (es : List AnEntry) → still r is es ≡ output_of job is es) }
        ensures counted { IfOk result (λ r. counted r ≡ 0) }
    {
        match job {
            ScriptJob::Run => Ok(Report::Lines { trace: false }),
            ScriptJob::Trace => Ok(Report::Lines { trace: true }),
            ScriptJob::Bench(rounds) => Ok(Report::Summary {
                rounds,
                counts: no_counts(),
                page: PageBytes::of(alloc, Vec::new(alloc))?,
            }),
            ScriptJob::Wire => Ok(Report::Frames {
                told: ToldPages::new(alloc),
            }),
        }
    }

    /// Whether it leaves out what is told of a trace, wherever that stands. Then it takes in nothing of an item but what that tells.
    pub fn is_untraced(&self) -> bool
        ensures items { result ≡ true → (i : AnItem) (is : List AnItem) (es : List AnEntry) → still self.now (i ∷ is) es ≡ still self.now is es }
        ensures runs { result ≡ true → (is : List AnItem) (given all : List AnEntry) → AreLeft given all → still self.now is given ≡ still self.now is all }
    {
        match self {
            Report::Lines { trace } => !*trace,
            Report::Summary { .. } => false,
            Report::Frames { .. } => false,
        }
    }

    /// Takes in one more command, before what it tells is known. Nothing is asked of it, for it is only counted.
    #[tactic(auto, unfolding(crate::specs::Reports::still, crate::specs::Reports::counted))]
    pub fn take_command(&mut self)
        requires { counted self.old < 2 ^ 127 }
        ensures prints { (c : Command) (is : List AnItem) (es : List AnEntry) → still self.new is es ≡ still self.old (item.Do c ∷ is) es }
        ensures counted { counted self.new ≤ counted self.old + 1 }
    {
        match self {
            Report::Lines { .. } => {}
            Report::Summary { counts, .. } => *counts = with_command(*counts),
            Report::Frames { .. } => {}
        }
    }

    /// Takes in one more item, before what it tells is known.
    pub fn take_item(&mut self, item: &Item)
        requires { counted self.old < 2 ^ 127 }
        ensures prints { (is : List AnItem) (es : List AnEntry) → still self.new is es ≡ still self.old (item.now ∷ is) es }
        ensures counted { counted self.new ≤ counted self.old + 1 }
    {
        if !is_command(item) {
            return;
        }
        self.take_command();
    }

    // Takes in what an item told, of which lines or frames may be printed.
    #[inline(never)]
    #[tactic(auto, unfolding(crate::specs::Reports::still, crate::specs::Reports::counted))]
    fn take_told(&mut self, out: &mut Vec<u8>, entries: &[Entry]) -> Result<(), NoMemory>
        requires { counted self.old < 2 ^ 127 }
        ensures prints { OnOk result ((is : List AnItem) (es : List AnEntry) → out.new.items ++ still self.new is es ≡ out.old.items ++ still self.old is (entries.now ++ es)) }
        ensures sized { OnOk result (AllByRecursion IsSizedEntry entries.now) }
        ensures counted { OnOk result (counted self.new ≤ counted self.old + 2 ^ 64) }
    {
        match self {
            Report::Lines { trace } => {
                put_entries(out, entries, *trace)?;
                Ok(())
            }
            Report::Summary { counts, page, .. } => {
                make_lines(out, entries)?;
                *counts = with_entries(*counts, entries);
                turn_page(page, entries)?;
                Ok(())
            }
            Report::Frames { told } => {
                told.put_entries(out, entries)?;
                Ok(())
            }
        }
    }

    /// Takes in what an item told. Lines or frames that are printed of it now are appended. What told nothing is taken in at once.
    ///
    /// # Errors
    ///
    /// `NoMemory` where it finds no room; a front of them may be appended, and the report serves no more.
    #[inline(always)]
    #[tactic(auto, unfolding(crate::specs::Reports::still, crate::specs::Reports::counted))]
    pub fn take_entries(&mut self, out: &mut Vec<u8>, entries: &[Entry]) -> Result<(), NoMemory>
        requires { counted self.old < 2 ^ 127 }
        ensures prints { OnOk result ((is : List AnItem) (es : List AnEntry) → out.new.items ++ still self.new is es ≡ out.old.items ++ still self.old is (entries.now ++ es)) }
        ensures sized { OnOk result (AllByRecursion IsSizedEntry entries.now) }
        ensures counted { OnOk result (counted self.new ≤ counted self.old + 2 ^ 64) }
    {
        if entries.is_empty() {
            return Ok(());
        }
        self.take_told(out, entries)?;
        Ok(())
    }

    /// Ends the report: the lines that are printed when no item is left are appended.
    ///
    /// # Errors
    ///
    /// `NoMemory` where it finds no room; a front of the lines may be appended.
    #[tactic(auto, unfolding(crate::specs::Reports::still, crate::specs::Reports::counted))]
    pub fn end(self, out: &mut Vec<u8>) -> Result<(), NoMemory>
        ensures { OnOk result (out.new.items ≡ out.old.items ++ still self [] []) }
    {
        match self {
            Report::Lines { .. } => Ok(()),
            Report::Summary {
                rounds,
                counts,
                page,
            } => {
                put_summary(out, rounds, counts, page.as_slice())?;
                Ok(())
            }
            Report::Frames { .. } => Ok(()),
        }
    }
}

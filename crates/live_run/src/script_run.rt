// A script as it runs: item by item, with what it made, what is reported of it, and the output that isn't handed on yet.
ghost use Rattle.std.specs.Prelude.{◌≡◌, ◌≤◌, ◌<◌, ◌+◌, ◌-◌, ◌^◌, ◌++◌, [], None, false, List, All, map, length, drop};
ghost use Rattle.std.specs.Prelude.{IfOk, IfSome, OnOk};
ghost use Rattle.signal_model.specs.Recipes.{Hosts};
ghost use Rattle.sig_host.specs.Hosts.{hosts_of};
ghost use Rattle.sig_effect.specs.Stores.{environment};
ghost use Rattle.script_lines.specs.Pieces.{pieces_of};
ghost use Rattle.script_items.specs.Briefs.{brief_item};
ghost use Rattle.live_cmd.specs.declared.command.Item.{Item as AnItem};
ghost use Rattle.live_entries.specs.declared.entry.Entry.{Entry as AnEntry};
ghost use Rattle.live_report.specs.Reports.{counted, output_of, still};
ghost use Rattle.live_model.specs.Machine.{empty};
ghost use Rattle.live_core.specs.Consistency.{IsReadItem, SomeHosts};
ghost use Rattle.live_run.specs.Jobs.{DidItem, DidNext};

use live_cmd::{Bare, Command, Item, Verb};
use live_items::{Live, Running};
use live_report::Report;
use live_words::ScriptJob;
use script_items::{Brief, KnownNames, next_brief, next_item};
use sig_base::NoMemory;
use sig_host::{EqualsRule, HostFormula, Lent, Shelf};
use std::alloc::Global;
use std::{mem, slice};

/// The machine, the report of what the items told so far, the names that are known, and the output that isn't handed on yet.
#[derive(Drop)]
pub(crate) struct ScriptRun {
    pub(crate) live: Live,
    pub(crate) report: Report,
    pub(crate) known: KnownNames,
    pub(crate) out: Vec<u8>,
}

impl ScriptRun {
    /// The machine before the first item, of which nothing is told. It stands behind one pointer, so that whoever holds it drops one. It has the
    /// clauses of a new machine, one by one as items ask for them, and one each for the report, its counts and the output, of which nothing is
    /// taken yet.
    pub(crate) fn new(
        alloc: Global,
        job: ScriptJob,
        hosts: Vec<Box<dyn HostFormula>>,
        rules: Vec<EqualsRule>,
    ) -> Result<Box<ScriptRun>, NoMemory>
        requires unasked { All (λ h. asks h ≡ 0) hosts.items }
        ensures answers { IfOk result (λ r. ⟦<Shelf as Lent>⟧.answers (hosts_of (map (λ h. step_of h) hosts.items)) r.value.live.shelf) }
        ensures machine { IfOk result (λ r. ⟦<Live as Running>⟧.machine r.value.live ≡ empty (length hosts.items)) }
        ensures slacks { IfOk result (λ r. ⟦<Live as Running>⟧.slacks r.value.live ≡ map (λ r. r.slack) rules.items) }
        ensures sound { (hosts : Hosts) → IfOk result (λ r. ⟦<Live as Running>⟧.sound hosts r.value.live) }
        ensures kept { IfOk result (λ r. ⟦<Live as Running>⟧.kept r.value.live) }
        ensures counted { IfOk result (λ r. ⟦<Shelf as Lent>⟧.counted r.value.live.shelf) }
        ensures done { IfOk result (λ r. r.value.live.done ≡ 0) }
        ensures prints { IfOk result (λ r. (is : List AnItem) (es : List AnEntry) → still r.value.report is es ≡ output_of job is es) }
        ensures little { IfOk result (λ r. counted r.value.report ≡ 0) }
        ensures nothing { IfOk result (λ r. r.value.out.items ≡ []) }
    {
        let report = Report::new(alloc, job)?;
        let live = Live::new(alloc, hosts, rules)?;
        let known = KnownNames::new(alloc)?;
        let out = Vec::new(alloc);
        let run = Box::new(
            alloc,
            ScriptRun {
                live,
                report,
                known,
                out,
            },
        )?;
        Ok(run)
    }

    // Does an item, and lets the report take it in with what it tells, but for what the report leaves out. What it asks of machine and report it
    // gives back in the clauses that the machine has, so that items may follow one another; what was done is one clause, and each count that
    // rises has one of its own.
    fn do_item(&mut self, item: Item) -> Result<(), NoMemory>
        requires kept { ⟦<Live as Running>⟧.kept self.old.live }
        requires meant { self.old.live.broken ≡ false → SomeHosts (λ hosts. ⟦<Shelf as Lent>⟧.answers hosts self.old.live.shelf × ⟦<Live as Running>⟧.sound hosts self.old.live) }
        requires counted { self.old.live.broken ≡ false → ⟦<Shelf as Lent>⟧.counted self.old.live.shelf }
        requires read { IsReadItem item }
        requires room { self.old.live.done < 2 ^ 23 }
        requires few { counted self.old.report < 2 ^ 126 }
        ensures did { (hosts : Hosts) → ⟦<Shelf as Lent>⟧.answers hosts self.old.live.shelf → ⟦<Live as Running>⟧.sound hosts self.old.live →
            OnOk result (DidItem (environment hosts (⟦<Live as Running>⟧.slacks self.old.live)) (⟦<Live as Running>⟧.machine self.old.live) (⟦<Live as Running>⟧.machine self.new.live)
            item self.old.report self.new.report self.old.out.items self.new.out.items
            × ⟦<Live as Running>⟧.sound hosts self.new.live × ⟦<Shelf as Lent>⟧.answers hosts self.new.live.shelf) }
        ensures kept { OnOk result (⟦<Live as Running>⟧.kept self.new.live) }
        ensures counted { OnOk result (self.new.live.broken ≡ false → ⟦<Shelf as Lent>⟧.counted self.new.live.shelf) }
        ensures slacks { OnOk result (⟦<Live as Running>⟧.slacks self.new.live ≡ ⟦<Live as Running>⟧.slacks self.old.live) }
        ensures done { OnOk result (self.new.live.done ≡ self.old.live.done + 1) }
        ensures little { OnOk result (counted self.new.report ≤ counted self.old.report + (1 + 2 ^ 64)) }
    {
        self.report.take_item(&item);
        let traced = !self.report.is_untraced();
        let told = self.live.do_item(item, traced)?;
        self.report.take_entries(&mut self.out, &told)?;
        Ok(())
    }

    // Does what scripts say most, with the clauses of an item. No item is made of a `set`, which is only counted, nor of a `get` where the report
    // takes in nothing of an item but what it tells, and then no list of its one entry either. A `flush` is an item without parts.
    fn do_brief(&mut self, brief: Brief) -> Result<(), NoMemory>
        requires kept { ⟦<Live as Running>⟧.kept self.old.live }
        requires meant { self.old.live.broken ≡ false → SomeHosts (λ hosts. ⟦<Shelf as Lent>⟧.answers hosts self.old.live.shelf × ⟦<Live as Running>⟧.sound hosts self.old.live) }
        requires counted { self.old.live.broken ≡ false → ⟦<Shelf as Lent>⟧.counted self.old.live.shelf }
        requires room { self.old.live.done < 2 ^ 23 }
        requires few { counted self.old.report < 2 ^ 126 }
        ensures did { (hosts : Hosts) → ⟦<Shelf as Lent>⟧.answers hosts self.old.live.shelf → ⟦<Live as Running>⟧.sound hosts self.old.live →
            OnOk result (DidItem (environment hosts (⟦<Live as Running>⟧.slacks self.old.live)) (⟦<Live as Running>⟧.machine self.old.live) (⟦<Live as Running>⟧.machine self.new.live)
            (brief_item brief) self.old.report self.new.report self.old.out.items self.new.out.items
            × ⟦<Live as Running>⟧.sound hosts self.new.live × ⟦<Shelf as Lent>⟧.answers hosts self.new.live.shelf) }
        ensures kept { OnOk result (⟦<Live as Running>⟧.kept self.new.live) }
        ensures counted { OnOk result (self.new.live.broken ≡ false → ⟦<Shelf as Lent>⟧.counted self.new.live.shelf) }
        ensures slacks { OnOk result (⟦<Live as Running>⟧.slacks self.new.live ≡ ⟦<Live as Running>⟧.slacks self.old.live) }
        ensures done { OnOk result (self.new.live.done ≡ self.old.live.done + 1) }
        ensures little { OnOk result (counted self.new.report ≤ counted self.old.report + (1 + 2 ^ 64)) }
    {
        match brief {
            Brief::Get(name) => {
                if !self.report.is_untraced() {
                    let verb = Verb::Get;
                    return self.do_item(Item::Do(Command::Named { verb, name }));
                }
                let told = self.live.get(name)?;
                self.report
                    .take_entries(&mut self.out, slice::from_ref(&told))?;
                Ok(())
            }
            Brief::Set(name, value) => {
                self.report.take_command();
                let told = self.live.set(name, value)?;
                self.report.take_entries(&mut self.out, &told)?;
                Ok(())
            }
            Brief::Flush => self.do_item(Item::Do(Command::Bare(Bare::Flush))),
        }
    }

    /// Reads the next item of a script, from a byte on that begins a line of this number, and does it. Gives the place after it and the number of
    /// the line there; `None` exactly where nothing is left but empty lines and comments, and then all is as before. What scripts say most is looked for
    /// before all others. Beside the clauses of one item it has those of reading: the place and the number of the line are asked for and told apart, and so
    /// is what it means that nothing is left.
    pub(crate) fn do_next(
        &mut self,
        alloc: Global,
        script: &[u8],
        at: usize,
        line: u32,
    ) -> Result<Option<(usize, u32)>, NoMemory>
        requires at { at ≤ length script.now }
        requires short { length script.now < 2 ^ 31 }
        requires count { line < 2 ^ 31 }
        requires kept { ⟦<Live as Running>⟧.kept self.old.live }
        requires meant { self.old.live.broken ≡ false → SomeHosts (λ hosts. ⟦<Shelf as Lent>⟧.answers hosts self.old.live.shelf × ⟦<Live as Running>⟧.sound hosts self.old.live) }
        requires counted { self.old.live.broken ≡ false → ⟦<Shelf as Lent>⟧.counted self.old.live.shelf }
        requires room { self.old.live.done < 2 ^ 23 }
        requires few { counted self.old.report < 2 ^ 126 }
        ensures within { IfOk result (λ found. IfSome found (λ x. (at < x.0) × (x.0 ≤ length script.now))) }
        ensures count { IfOk result (λ found. IfSome found (λ x. x.1 ≤ line + (x.0 - at))) }
        ensures ended { IfOk result (λ found. found ≡ None → (pieces_of line (drop at script.now) ≡ []) × (self.new ≡ self.old)) }
        ensures did { (hosts : Hosts) → ⟦<Shelf as Lent>⟧.answers hosts self.old.live.shelf → ⟦<Live as Running>⟧.sound hosts self.old.live →
            IfOk result (λ found. IfSome found (λ x. DidNext (environment hosts (⟦<Live as Running>⟧.slacks self.old.live))
            (⟦<Live as Running>⟧.machine self.old.live) (⟦<Live as Running>⟧.machine self.new.live) script.now at line x.0 x.1
            self.old.report self.new.report self.old.out.items self.new.out.items
            × ⟦<Live as Running>⟧.sound hosts self.new.live × ⟦<Shelf as Lent>⟧.answers hosts self.new.live.shelf)) }
        ensures kept { OnOk result (⟦<Live as Running>⟧.kept self.new.live) }
        ensures counted { OnOk result (self.new.live.broken ≡ false → ⟦<Shelf as Lent>⟧.counted self.new.live.shelf) }
        ensures slacks { OnOk result (⟦<Live as Running>⟧.slacks self.new.live ≡ ⟦<Live as Running>⟧.slacks self.old.live) }
        ensures done { OnOk result (self.new.live.done ≤ self.old.live.done + 1) }
        ensures little { OnOk result (counted self.new.report ≤ counted self.old.report + (1 + 2 ^ 64)) }
    {
        if let Some((brief, next, after)) = next_brief(&self.known, script, at, line)? {
            self.do_brief(brief)?;
            return Ok(Some((next, after)));
        }
        let Some((item, next, after)) = next_item(alloc, &mut self.known, script, at, line)? else {
            return Ok(None);
        };
        self.do_item(item)?;
        Ok(Some((next, after)))
    }

    /// Ends the report, behind the last item: the lines that are printed then are appended to the output.
    pub(crate) fn end(&mut self) -> Result<(), NoMemory>
        ensures { OnOk result (self.new.out.items ≡ self.old.out.items ++ still self.old.report [] []) }
    {
        let report = mem::replace(&mut self.report, Report::Lines { trace: false });
        report.end(&mut self.out)?;
        Ok(())
    }
}

// Laws of scripts, for all environments and all items.
ghost use Rattle.live_laws.specs.Batches.{AbortLaw, BatchChangeLaw, CollectsLaw, CommitLaw, GivenBackLaw};
ghost use Rattle.live_laws.specs.Cuts.{EntriesLaw, ItemsLaw, OutputLaw, PartsLaw, WholeLaw};
ghost use Rattle.live_laws.specs.Events.{EndsLaw, ExplainedLaw, HappensLaw, HostsLaw, NotesLaw, WholeJournalLaw};
ghost use Rattle.live_laws.specs.Firing.{FireLaw};
ghost use Rattle.live_laws.specs.Refusals.{ChangeLaw, RefusedFlushLaw, RefusedLaw};
ghost use Rattle.live_words.specs.declared.jobs.ScriptJob.TheVariants as job;

use script_items::{items_cut, one_list};
use why_laws::laws::{beginning_law, journal_law};

/// Each item of a script does commands of the world, one after the other, and its entries tell what happens in them, in order, with
/// answers between; once a journal was begun, that is what it notes.
pub fn happens_law()
    ensures { HappensLaw }
{}

/// In what happens as the items of a script are done, nothing that is gone runs, is evaluated, is notified, is cleaned up or ends again; a
/// cleanup is done once, before its effect runs again or ends.
pub fn ends_law()
    ensures { EndsLaw }
{}

/// In what happens as the items of a script are done, a host formula that is dropped was asked as often as all runs ask it, and no run after
/// its drop asks it.
pub fn hosts_law()
    ensures { HostsLaw }
{}

/// The handlers that run as an event is fired are those that wait for it along the way from its node up to a child of the root, the innermost first;
/// each settles what it reads and does its acts, which is noted once a journal was begun, and all else is as before: pages, owners, effects and
/// what they track, and handlers.
pub fn fire_law()
    ensures { FireLaw }
{}

/// A journal that is begun notes the facts of all that happens as items are done then, as many as there is place for.
pub fn notes_law()
    ensures { NotesLaw }
{}

/// A journal that is begun has the facts of all that happens from the first item on, as many as there is place for: nothing was to be noted before.
pub fn whole_journal_law()
    ensures { WholeJournalLaw }
{
    beginning_law();
}

/// In what happens as the items of a script are done, each run of a computed is explained by the changes and runs before it.
pub fn explained_law()
    ensures { ExplainedLaw }
{
    journal_law();
}

/// An item that is refused before it does anything, for its text or for what it says, tells the one refusal and leaves all as it was.
pub fn refused_law()
    ensures { RefusedLaw }
{}

/// Where no batch is open, a set or an edit of rows by which a cell has another value stands, whoever is told of it: the notified watchers are
/// told and are waiting, those who are frozen are told behind them, and nothing else is changed.
pub fn change_law()
    ensures { ChangeLaw }
{}

/// While a batch is open such a set or edit stands too, nobody is notified, and the cell joins the batch with its value before.
pub fn batch_change_law()
    ensures { BatchChangeLaw }
{}

/// A batch has the cells that were changed since it began, each with its value of then; all else stands as it did, and nobody was notified.
pub fn collects_law()
    ensures { CollectsLaw }
{}

/// A commit ends the batch, and its changes stand. Who is notified of the cells whose values as it began and now are unlike is told once and
/// is waiting, those who are frozen are told behind them, and nothing else is changed.
pub fn commit_law()
    ensures { CommitLaw }
{}

/// An abort ends the batch and gives its cells their earlier values back; nobody is notified.
pub fn abort_law()
    ensures { AbortLaw }
{}

/// A batch that is aborted leaves nothing behind, whatever was done in it: under each name stands what stood there as it began.
pub fn given_back_law()
    ensures { GivenBackLaw }
{}

/// A flush that is refused for its turns leaves all as its turns left it, and the pages that still live as they were before.
pub fn refused_flush_law()
    ensures { RefusedFlushLaw }
{}

/// A script may be cut behind a line, where each block that begins before ends before: its items are those of the first part and then those of
/// the second, whose first line has the next number.
pub fn script_cut()
    ensures items { ItemsLaw }
    ensures parts { PartsLaw }
    ensures whole { WholeLaw }
{
    items_cut();
    one_list();
}

/// What items tell begins with what the first of them tell, and the others go on from the machine that these came to.
pub fn entries_cut()
    ensures { EntriesLaw }
{}

/// What a script prints begins with what it prints if it is cut so, with and without a trace, and whatever host formulas answer and equality
/// rules allow.
pub fn output_cut()
    ensures run { OutputLaw job.Run }
    ensures trace { OutputLaw job.Trace }
{
    items_cut();
    one_list();
}

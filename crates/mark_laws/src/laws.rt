// Laws of dependants and marks, for all signals, memos and names.
ghost use Rattle.mark_laws.specs.MarkLaws.{BeginMarksLaw, CellMarksLaw, ComputedMarksLaw, DisposeMarksLaw, RewireMarksLaw, RunMarksLaw, SetMarksLaw, StopMarksLaw};
ghost use Rattle.mark_laws.specs.MarkLaws.{ExploredLaw, LookLaw, PruneLaw, SearchedLaw, UnmarkedLaw, UnmarkLaw};

/// Each change of signals keeps dependants and marks true, where it marks what depends on the changed signal.
pub fn change_marks_law()
    ensures cell { CellMarksLaw }
    ensures computed { ComputedMarksLaw }
    ensures set { SetMarksLaw }
    ensures rewire { RewireMarksLaw }
    ensures dispose { DisposeMarksLaw }
{}

/// So does each step of an evaluation, whose end may take the mark of its computed.
pub fn evaluation_marks_law()
    ensures begin { BeginMarksLaw }
    ensures run { RunMarksLaw }
    ensures stop { StopMarksLaw }
{}

/// What is unmarked is clean, so a search for what must run passes over it.
pub fn unmarked_law()
    ensures clean { UnmarkedLaw }
    ensures pruned { PruneLaw }
{}

/// Marks may go of computeds that are clean by what they keep, as after a search that found nothing due.
pub fn unmark_law()
    ensures alone { UnmarkLaw }
    ensures searched { SearchedLaw }
{}

/// What is found through marked sources alone is what there is.
pub fn look_law()
    ensures state { LookLaw }
    ensures explored { ExploredLaw }
{}

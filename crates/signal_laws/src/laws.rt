// Laws of the memos, for all hosts, signals and names.
ghost use Rattle.signal_laws.specs.ChangeLaws.{CellLaw, ComputedLaw, DisposeLaw, EmptyLaw, NoMemosLaw, RewireLaw, SetLaw};
ghost use Rattle.signal_laws.specs.ChangeLaws.{GivenCellLaw, GivenComputedLaw, GivenDisposeLaw, GivenEmptyLaw, GivenMoreLaw, GivenNextLaw};
ghost use Rattle.signal_laws.specs.ChangeLaws.{GivenRewireLaw, GivenSetLaw, GivenSettleLaw};
ghost use Rattle.signal_laws.specs.CleanLaws.{CleanLaw, PassLaw};
ghost use Rattle.signal_laws.specs.KeptPathLaws.{EvaluatedSourceLaw, KeptCycleLaw, KeptPathLaw};
ghost use Rattle.signal_laws.specs.OrderLaws.{PlacesLaw};
ghost use Rattle.signal_laws.specs.ReadLaws.{FirstsAppendLaw, FirstsFrontLaw, FirstsHoldLaw, NextReadLaw, NoHostLaw, ReadingLaw, SameReadsLaw};
ghost use Rattle.signal_laws.specs.RunLaws.{CurrencyLaw, PlacedRunsLaw, ScratchRunsLaw};
ghost use Rattle.signal_laws.specs.SettleLaws.{AgainLaw, AskedLaw, AskedMemoLaw, CleanMomentsLaw, KeptMomentsLaw, SettleBothLaw, SettleLaw, SettleMoreLaw};

/// Where nothing has a memo, what is kept is sound, whatever stands.
pub fn no_memos_law()
    ensures { NoMemosLaw }
{}

/// Where nothing stands, nothing is kept.
pub fn empty_law()
    ensures { EmptyLaw }
{}

/// The making of a cell, under a name that wasn't given, keeps the memos sound.
pub fn cell_law()
    ensures { CellLaw }
{}

/// So does the making of a computed.
pub fn computed_law()
    ensures { ComputedLaw }
{}

/// A set of a cell, or an edit of its rows, keeps the memos sound.
pub fn set_law()
    ensures { SetLaw }
{}

/// So does another recipe of a computed.
pub fn rewire_law()
    ensures { RewireLaw }
{}

/// And the disposal of a signal.
pub fn dispose_law()
    ensures { DisposeLaw }
{}

/// The names in use were all given: each change and each settling keeps this, where a new signal and the slots of a new recipe have names
/// that were given. It is one law in parts, for the start, for more names, for each kind of change and for settling, as whoever makes a
/// change needs only the part about it.
pub fn given_law()
    ensures next { GivenNextLaw }
    ensures empty { GivenEmptyLaw }
    ensures more { GivenMoreLaw }
    ensures cell { GivenCellLaw }
    ensures computed { GivenComputedLaw }
    ensures set { GivenSetLaw }
    ensures rewire { GivenRewireLaw }
    ensures dispose { GivenDisposeLaw }
    ensures settle { GivenSettleLaw }
{}

/// Each visited computed stands after the computeds that it reads, but for those that are being evaluated, and each that is asked for or read
/// by one is visited.
pub fn places_law()
    ensures { PlacesLaw }
{}

/// Where a clean computed is asked for, nothing runs, and what is kept of it is that from scratch.
pub fn clean_law()
    ensures { CleanLaw }
{}

/// Inside a settling a clean computed may be passed over: its visit runs nothing, whatever ran before.
pub fn pass_law()
    ensures { PassLaw }
{}

/// Settling keeps the memos sound.
pub fn settle_law()
    ensures { SettleLaw }
{}

/// After settling, each name that was asked for shows its value from scratch.
pub fn asked_law()
    ensures { AskedLaw }
{}

/// And each computed that was asked for has a memo, which is that from scratch.
pub fn asked_memo_law()
    ensures { AskedMemoLaw }
{}

/// Settling the same names again runs nothing.
pub fn again_law()
    ensures { AgainLaw }
{}

/// Two lists of names, settled one after the other, are settled as one list: what is kept is the same, and so are the runs, in order. So names
/// may be settled one by one.
pub fn settle_more_law()
    ensures lists { SettleBothLaw }
    ensures name { SettleMoreLaw }
{}

/// At each moment of a settling what is kept is sound.
pub fn kept_moments_law()
    ensures { KeptMomentsLaw }
{}

/// And what was clean before it is clean.
pub fn clean_moments_law()
    ensures { CleanMomentsLaw }
{}

/// Each recorded run is from scratch, whatever was kept before.
pub fn scratch_runs_law()
    ensures { ScratchRunsLaw }
{}

/// Each recorded run stands at its place in the order of evaluation, where it must run.
pub fn placed_runs_law()
    ensures { PlacedRunsLaw }
{}

/// Where what was kept is sound, each recorded run read only what stood at its moment.
pub fn currency_law()
    ensures { CurrencyLaw }
{}

/// Each cycle of kept sources has a member that must run or holds `cycle`.
pub fn kept_cycle_law()
    ensures { KeptCycleLaw }
{}

/// What is come to along computeds that neither must run nor hold `cycle` isn't among them.
pub fn kept_path_law()
    ensures { KeptPathLaw }
{}

/// Where a kept source is being evaluated, its keeper must run, unless it holds `cycle`.
pub fn evaluated_source_law()
    ensures { EvaluatedSourceLaw }
{}

/// An evaluation is a reading: the outcomes that it read, which are those that the names have, determine what it reads and comes to.
pub fn reading_law()
    ensures { ReadingLaw }
{}

/// Where the names that were read have the outcomes that were read, the evaluation is the same.
pub fn same_reads_law()
    ensures { SameReadsLaw }
{}

/// Where the first so many have, the evaluation reads these names first, and then the next.
pub fn next_read_law()
    ensures { NextReadLaw }
{}

/// A formula asks no host formula, so its evaluation is the same for all hosts.
pub fn no_host_law()
    ensures { NoHostLaw }
{}

/// Names in the order of their first reading are those before and those of the list; of two lists they are those of the one and then of the
/// other; and the first so many of a list, and then the whole list, are the whole list.
pub fn first_names_law()
    ensures hold { FirstsHoldLaw }
    ensures append { FirstsAppendLaw }
    ensures front { FirstsFrontLaw }
{}

// Laws of the journal, for all hosts, signals, memos and facts, and for all lists of commands.
ghost use Rattle.why_laws.specs.Journals.{BeginningLaw, JournalLaw};
ghost use Rattle.why_laws.specs.WhyLaws.{CausesLaw, MeetLaw, RoundLaw, RunsLaw, TiedDisposeLaw, TiedEmptyLaw, TiedMakeLaw, TiedMoreLaw, TiedRewireLaw, TiedSetLaw, TiedSettleLaw};

/// A journal tells of each computed's memo, and of what has moved since: so it is at first, and each change and each settling keeps it.
pub fn tied_law()
    ensures empty { TiedEmptyLaw }
    ensures more { TiedMoreLaw }
    ensures make { TiedMakeLaw }
    ensures set { TiedSetLaw }
    ensures rewire { TiedRewireLaw }
    ensures dispose { TiedDisposeLaw }
    ensures settle { TiedSettleLaw }
{}

/// The cause of each run, by the facts alone, is that for which its computed had to run.
pub fn causes_law()
    ensures { CausesLaw }
{}

/// So each run of a settling is explained by the facts before it.
pub fn runs_law()
    ensures { RunsLaw }
{}

/// Where the cause is none of the first four, a kept source of the computed was being evaluated.
pub fn meet_law()
    ensures { MeetLaw }
{}

/// A run caused so comes to `cycle`.
pub fn round_law()
    ensures { RoundLaw }
{}

/// Whatever commands and acts do, what they tell of changes and runs is a journal that explains each of the runs.
pub fn journal_law()
    ensures { JournalLaw }
{}

/// Where no signal was made nothing is noted, so a journal that begins then has all that is noted.
pub fn beginning_law()
    ensures { BeginningLaw }
{}

// Laws of effects, for all environments and all lists of commands.
ghost use Rattle.effect_laws.specs.Counts.{AllKeepCounts, FlushesKeepCounts};
ghost use Rattle.effect_laws.specs.StillCells.{AllKeepCells};
ghost use Rattle.effect_laws.specs.Frames.{ended_all, signal_part, with_part};
ghost use Rattle.effect_laws.specs.Asks.{BodyLaw};
ghost use Rattle.effect_laws.specs.Ends.{ClosingLaw, EndLaw, SilenceLaw};
ghost use Rattle.effect_laws.specs.HostUse.{HostLaw};
ghost use Rattle.effect_laws.specs.KeptWorlds.{CommandLaw, CommandsLaw, FlushLaw, NewWorldLaw};
ghost use Rattle.effect_laws.specs.Lifetimes.{LifeLaw};
ghost use Rattle.effect_laws.specs.Notified.{NotifiedLaw};
ghost use Rattle.effect_laws.specs.QuietFlush.{QuietFlushLaw};
ghost use Rattle.effect_laws.specs.Refusals.{RestLaw};
ghost use Rattle.effect_model.specs.Acts.{undo_all};
ghost use Rattle.effect_model.specs.Owners.{Undoing};
ghost use Rattle.effect_model.specs.Worlds.{Environment, World};
ghost use Rattle.effect_laws.specs.Events.{AllOnlyTell, FlushesOnlyTell, TurnsOnlyTell};
ghost use Rattle.std.specs.Prelude.{◌≡◌, List};

/// Nothing that has ended runs, is changed, is evaluated, is notified, is cleaned up or ends again; and each cleanup that was noted is done
/// once before its effect runs again or ends.
pub fn end_law()
    ensures { EndLaw }
{}

/// What was made lives or has ended, once; what is owned lives; and each owner and effect that lives stands where a teardown finds it.
pub fn life_law()
    ensures { LifeLaw }
{}

/// After its end nothing is told of a thing.
pub fn silence_law()
    ensures { SilenceLaw }
{}

/// Cleanups are done for a run or an end alone.
pub fn closing_law()
    ensures { ClosingLaw }
{}

/// A body whose slots have names is asked as far as its answers say.
pub fn body_law()
    ensures { BodyLaw }
{}

/// Whatever is made, set, rewired and disposed, also by acts in the middle of a flush: the memos are sound, each name in use was given, and
/// each run that was told read only what was current at its moment.
pub fn kept_world_law()
    ensures new_world { NewWorldLaw }
    ensures command { CommandLaw }
    ensures flush { FlushLaw }
    ensures commands { CommandsLaw }
{}

/// Each host formula is that of one computed at most; its asks are those of all runs that were told, and once it is dropped it isn't
/// asked again.
pub fn host_law()
    ensures { HostLaw }
{}

/// Changes of signals that are told together notify exactly the watchers that are watching and one of whose signals one of them reaches
/// along kept sources.
pub fn notified_law()
    ensures { NotifiedLaw }
{}

/// A flush is refused only after a hundred turns that each ran an effect, where one is still due; one that isn't refused leaves none due.
pub fn rest_law()
    ensures { RestLaw }
{}

/// A flush after one that wasn't refused does nothing at all.
pub fn quiet_flush_law()
    ensures { QuietFlushLaw }
{}

/// A teardown does to signals what it does where nothing else was made, tells as much, and takes what ends out of its table.
pub fn teardown_by_parts()
    ensures { (env : Environment) (us : List Undoing) (w : World) →
        undo_all env us w ≡ with_part (undo_all env us (signal_part w)) (ended_all us w) }
{}

/// Whatever is done, what it tells is put behind what was told before, and what is done is the same whatever was told.
pub fn telling_law()
    ensures acts { AllOnlyTell }
    ensures turns { TurnsOnlyTell }
    ensures flushes { FlushesOnlyTell }
{}

/// Settling, changes, ends and the acts of effects make no signal, owner, page or watcher, and so it is with flushes.
pub fn counting_law()
    ensures acts { AllKeepCounts }
    ensures flushes { FlushesKeepCounts }
{}

/// A cell of which no change is told stands as it did, whatever is set and flushed.
pub fn cells_law()
    ensures { AllKeepCells }
{}

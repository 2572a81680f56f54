// A script from a source or a generated one, done item by item, its output to a sink.
ghost use Rattle.std.specs.Prelude.{◌≡◌, ◌≤◌, ◌++◌, ◌⊎◌, false, List, ℕ, All, map, length};
ghost use Rattle.std.specs.Prelude.{OnOk, IsErrOf, OnErr};
ghost use Rattle.std.specs.Io.KnownBytes.{Appends};
ghost use Rattle.sig_io.specs.Counts.{AppendsFront, HasCause, Rose};
ghost use Rattle.live_words.specs.Jobs.{HasFewRounds};
ghost use Rattle.live_run.specs.Ends.{IsFrontPrinted, IsPrinted, ScriptEnds};
ghost use Rattle.live_run.specs.Jobs.{reads};
ghost use Rattle.live_run.specs.declared.script.RunEnd.TheVariants as run_end;

use crate::script_run::ScriptRun;
use crate::{ReadEnd, Status, script_for};
use follow_laws::follow_law;
use live_words::ScriptJob;
use page_laws::live_law;
use sig_base::{Failed, MOST_SCRIPT, NoMemory};
use sig_host::{EqualsRule, HostFormula, lends_rows};
use sig_io::{Sink, Source, put_all};
use std::alloc::Global;

/// From so many bytes on, output is handed on to the sink.
const LARGE: usize = 65_536;

// Why a run ended early.
#[derive(Clone, Copy)]
enum RunEnd {
    Memory,
    Write,
}

impl From<NoMemory> for RunEnd {
    ghost from_gives = { λ _ e. e ≡ run_end.Memory };

    fn from(_: NoMemory) -> Self {
        RunEnd::Memory
    }
}

impl From<Failed> for RunEnd {
    ghost from_gives = { λ _ e. e ≡ run_end.Write };

    fn from(_: Failed) -> Self {
        RunEnd::Write
    }
}

// Hands the output on where there is much of it.
fn hand_on<K: Sink>(sink: &mut K, out: &mut Vec<u8>) -> Result<(), Failed>
    ensures ok { OnOk result ((written : List ℕ) × Appends (K.held sink.old) (K.held sink.new) written × (out.old.items ≡ written ++ out.new.items)) }
    ensures err { OnErr result (AppendsFront (K.held sink.old) (K.held sink.new) out.old.items) }
    ensures cause { HasCause (K.faults sink.old) (K.faults sink.new) result }
{
    if out.len() < LARGE {
        return Ok(());
    }
    put_all(sink, out)?;
    out.clear();
    Ok(())
}

// Runs a script: reads its items one by one, does them, and prints what the job prints of them.
fn run_script<K: Sink>(
    alloc: Global,
    job: ScriptJob,
    script: &[u8],
    sink: &mut K,
    hosts: Vec<Box<dyn HostFormula>>,
    rules: Vec<EqualsRule>,
) -> Result<(), RunEnd>
    requires short { length script.now ≤ MOST_SCRIPT }
    requires unasked { All (λ h. asks h ≡ 0) hosts.items }
    ensures done { OnOk result (IsPrinted (map (λ h. step_of h) hosts.items) (map (λ r. r.slack) rules.items) job (K.held sink.old) (K.held sink.new) script.now) }
    ensures front { OnErr result (IsFrontPrinted (map (λ h. step_of h) hosts.items) (map (λ r. r.slack) rules.items) job (K.held sink.old) (K.held sink.new) script.now) }
    ensures write { IsErrOf result RunEnd.Write → Rose (K.faults sink.old) (K.faults sink.new) }
    ensures later { K.faults sink.old ≤ K.faults sink.new }
{
    live_law();
    follow_law();
    lends_rows(&hosts);
    let mut run = ScriptRun::new(alloc, job, hosts, rules)?;
    let mut at = 0;
    let mut line: u32 = 1;
    while let Some((next, after)) = run.do_next(alloc, script, at, line)? {
        hand_on(sink, &mut run.out)?;
        at = next;
        line = after;
    }
    run.end()?;
    put_all(sink, &run.out)?;
    Ok(())
}

/// Runs the script of a job, of the source or the generated one, and writes what the job prints to the sink. `ScriptEnds` says of each status in
/// turn what it means.
///
/// It asks of its caller that a workload has at most `MOST_ROUNDS` rounds, and that no host formula was asked before.
pub(crate) fn run_job<S: Source, K: Sink>(
    alloc: Global,
    job: ScriptJob,
    source: &mut S,
    sink: &mut K,
    hosts: Vec<Box<dyn HostFormula>>,
    rules: Vec<EqualsRule>,
) -> Status
    requires rounds { HasFewRounds job }
    requires unasked { All (λ h. asks h ≡ 0) hosts.items }
    ensures ends { ScriptEnds (map (λ h. step_of h) hosts.items) (map (λ r. r.slack) rules.items) job
        (record { left = S.left source.old; given = S.given source.old; faults = S.faults source.old })
        (record { left = S.left source.new; given = S.given source.new; faults = S.faults source.new })
        (record { held = K.held sink.old; faults = K.faults sink.old }) (record { held = K.held sink.new; faults = K.faults sink.new }) result }
    ensures generated { reads job ≡ false → source.new ≡ source.old }
    ensures nothing { (result ≡ Status.ReadFault) ⊎ (result ≡ Status.TooLong) → sink.new ≡ sink.old }
{
    let script = match script_for(alloc, job, source) {
        Ok(script) => script,
        Err(ReadEnd::Fault) => return Status::ReadFault,
        Err(ReadEnd::TooLong) => return Status::TooLong,
        Err(ReadEnd::Memory) => return Status::NoMemory,
    };
    match run_script(alloc, job, &script, sink, hosts, rules) {
        Ok(()) => Status::Done,
        Err(RunEnd::Memory) => Status::NoMemory,
        Err(RunEnd::Write) => Status::WriteFault,
    }
}

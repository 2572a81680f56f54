// All the bytes of a source, up to a limit, and the script of a job.
ghost use Rattle.std.specs.Prelude.{◌≡◌, ◌≤◌, ◌<◌, true, false, length, IfOk, OnErr, OnOk, IsErrOf, IfSome};
ghost use Rattle.std.specs.Io.KnownBytes.{Consumes, IsAtEnd};
ghost use Rattle.sig_io.specs.Counts.{Rose};
ghost use Rattle.live_words.specs.Jobs.{HasFewRounds};
ghost use Rattle.live_run.specs.Jobs.{reads, script_of, ConsumesFront, GaveTooMuch};
ghost use Rattle.live_run.specs.declared.input.ReadEnd.TheVariants.{Memory};

use bench_workload::bench_script;
use live_words::ScriptJob;
use sig_base::{Failed, MOST_SCRIPT, NoMemory};
use sig_io::Source;
use std::alloc::{AllocError, Global};
use thiserror::Error;

/// Why reading stopped before the end.
#[derive(Clone, Copy, Debug, Error)]
pub enum ReadEnd {
    #[error("reading failed")]
    Fault,
    #[error("the script has more than 4,194,304 bytes")]
    TooLong,
    #[error("out of memory")]
    Memory,
}

impl From<AllocError> for ReadEnd {
    ghost from_gives = { λ _ e. e ≡ Memory };

    fn from(_: AllocError) -> Self {
        ReadEnd::Memory
    }
}

impl From<NoMemory> for ReadEnd {
    ghost from_gives = { λ _ e. e ≡ Memory };

    fn from(_: NoMemory) -> Self {
        ReadEnd::Memory
    }
}

/// Reads the source to its end. `Fault` only where the source failed, and `TooLong` only once more
/// than 4,194,304 bytes came; where the source tells its bytes, `TooLong` only where it had more than
/// these. After an error a front of its bytes is gone.
pub fn read_all<S: Source>(alloc: Global, source: &mut S) -> Result<Vec<u8>, ReadEnd>
    ensures bytes { IfOk result (λ bytes. Consumes (S.left source.old) (S.left source.new) bytes.items) }
    ensures end { OnOk result (IsAtEnd (S.left source.new)) }
    ensures short { IfOk result (λ bytes. length bytes.items ≤ MOST_SCRIPT) }
    ensures fault { IsErrOf result ReadEnd.Fault → Rose (S.faults source.old) (S.faults source.new) }
    ensures long { IsErrOf result ReadEnd.TooLong → GaveTooMuch (S.given source.old) (S.given source.new) }
    ensures told { IsErrOf result ReadEnd.TooLong → IfSome (S.left source.old) (λ bytes. MOST_SCRIPT < length bytes) }
    ensures front { OnErr result (ConsumesFront (S.left source.old) (S.left source.new)) }
    ensures later { S.faults source.old ≤ S.faults source.new }
{
    let mut bytes = Vec::new(alloc);
    let mut buf = [0u8; 8_192];
    loop {
        let count = match source.take(&mut buf) {
            Ok(count) => count,
            Err(Failed) => return Err(ReadEnd::Fault),
        };
        if count == 0 {
            return Ok(bytes);
        }
        if count > MOST_SCRIPT - bytes.len() {
            return Err(ReadEnd::TooLong);
        }
        bytes.extend_from_slice(&buf[..count])?;
    }
}

/// The script of a job: the generated workload, for which the source is left as it is and only memory may be wanting, or all that the source
/// has. `Fault` only where the source failed, and `TooLong` only once more than 4,194,304 bytes came; where the source tells its bytes,
/// `TooLong` only where it had more than these.
///
/// It asks of its caller that a workload has at most `MOST_ROUNDS` rounds. Each ending has a clause of its own, and so have what a script
/// may be and what it leaves of the source, since each is shown by something else: what is left, its faults, or the bytes that it gave.
pub fn script_for<S: Source>(
    alloc: Global,
    job: ScriptJob,
    source: &mut S,
) -> Result<Vec<u8>, ReadEnd>
    requires { HasFewRounds job }
    ensures script { IfOk result (λ bytes. IfSome (script_of job (S.left source.old)) (λ script. script ≡ bytes.items)) }
    ensures short { IfOk result (λ bytes. length bytes.items ≤ MOST_SCRIPT) }
    ensures end { OnOk result (reads job ≡ true → IsAtEnd (S.left source.new)) }
    ensures untouched { reads job ≡ false → source.new ≡ source.old }
    ensures memory { reads job ≡ false → OnErr result (IsErrOf result ReadEnd.Memory) }
    ensures fault { IsErrOf result ReadEnd.Fault → Rose (S.faults source.old) (S.faults source.new) }
    ensures long { IsErrOf result ReadEnd.TooLong → GaveTooMuch (S.given source.old) (S.given source.new) }
    ensures told { IsErrOf result ReadEnd.TooLong → IfSome (script_of job (S.left source.old)) (λ script. MOST_SCRIPT < length script) }
{
    match job {
        ScriptJob::Run | ScriptJob::Trace | ScriptJob::Wire => read_all(alloc, source),
        ScriptJob::Bench(rounds) => Ok(bench_script(alloc, rounds)?),
    }
}

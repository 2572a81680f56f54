// The top call: what the words ask for, between a source and a sink.
ghost use Rattle.std.specs.Prelude.{◌≡◌, ◌≤◌, ◌⊎◌, true, false, None, All, map, length, string_bytes};
ghost use Rattle.std.specs.Prelude.{IfSome};
ghost use Rattle.live_words.specs.Jobs.{job_of};
ghost use Rattle.live_run.specs.Ends.{reads_input, writes_late, Ends};

use crate::frames::follow_frames;
use crate::script::run_job;
use live_words::{Job, read_job, rounds_are_few};
use sig_base::NoMemory;
use sig_host::{EqualsRule, HostFormula};
use sig_io::{Sink, Source};
use std::alloc::Global;

/// How a run ended. The number is the program's exit status.
#[derive(Clone, Copy, PartialEq, Eq)]
pub enum Status {
    /// The script or the frames were read to their end, and all output was written.
    Done = 0,
    /// The words ask for nothing that the program does.
    Usage = 2,
    /// The source failed.
    ReadFault = 3,
    /// The sink failed.
    WriteFault = 4,
    /// Memory ran out.
    NoMemory = 5,
    /// The script has more than 4,194,304 bytes, or the frames have more than 67,108,864.
    TooLong = 6,
    /// A frame tells of no page, or what can't be of one, or the last frame is cut.
    BadFrames = 7,
}

/// At most so many host formulas are lent.
pub const MOST_HOSTS: usize = 16;

/// At most so many equality rules are lent.
pub const MOST_RULES: usize = 16;

/// Does what the words ask for, and writes its output to the sink: runs the script of the source, and prints what it tells, with or without a trace, or
/// writes it as frames; runs the generated workload of so many rounds, and prints a summary; or follows the frames of the source, and prints
/// their pages. `words[0]` is the program's name. Scripts name the host formulas and the equality rules by their places in the lists.
///
/// It asks of its caller that there are at most `MOST_HOSTS` host formulas and `MOST_RULES` equality rules, and that no host formula
/// was asked before.
///
/// `Usage` comes exactly where the words ask for nothing, unless memory runs out first; in both cases source and sink are then as before. So is
/// the source at every status where the words ask for the workload. `ReadFault` and `WriteFault` come only where the source or the sink failed in
/// this call (or its count of failures stands at its last value), and `TooLong` only once more bytes came than the job takes, 4,194,304 of a script and
/// 67,108,864 of frames (or their count stands at its last value). `BadFrames` comes only where frames are followed and a byte came. A source that
/// tells its bytes has as many as the job takes at most where the status is Done, and more where it is `TooLong`; frames have no fault at these two, and one
/// at `BadFrames`. So where neither source nor sink fails, the bytes decide which of these three it is, unless memory runs out first.
///
/// With `Usage` the sink is as before, and for a script with `ReadFault` and `TooLong`. With every other status all the output was written (`Done`; of frames
/// all before the fault, `BadFrames`) or a front of it, where the source tells its bytes or the words ask for the workload. `Ends` says this of each
/// status in turn.
pub fn run_live<S: Source, K: Sink>(
    alloc: Global,
    words: &[String],
    source: &mut S,
    sink: &mut K,
    hosts: Vec<Box<dyn HostFormula>>,
    rules: Vec<EqualsRule>,
) -> Status
    requires few_hosts { length hosts.items ≤ MOST_HOSTS }
    requires few_rules { length rules.items ≤ MOST_RULES }
    requires unasked { All (λ h. asks h ≡ 0) hosts.items }
    ensures ends { IfSome (job_of (map string_bytes words.now)) (λ job. Ends (map (λ h. step_of h) hosts.items) (map (λ r. r.slack) rules.items) job
        (record { left = S.left source.old; given = S.given source.old; faults = S.faults source.old })
        (record { left = S.left source.new; given = S.given source.new; faults = S.faults source.new })
        (record { held = K.held sink.old; faults = K.faults sink.old }) (record { held = K.held sink.new; faults = K.faults sink.new }) result) }
    ensures wrong_words { job_of (map string_bytes words.now) ≡ None
        → ((result ≡ Status.Usage) ⊎ (result ≡ Status.NoMemory)) × (source.new ≡ source.old) × (sink.new ≡ sink.old) }
    ensures generated { IfSome (job_of (map string_bytes words.now)) (λ job. reads_input job ≡ false → source.new ≡ source.old) }
    ensures nothing { IfSome (job_of (map string_bytes words.now)) (λ job. writes_late job ≡ true
        → (result ≡ Status.ReadFault) ⊎ (result ≡ Status.TooLong) → sink.new ≡ sink.old) }
{
    rounds_are_few();
    match read_job(alloc, words) {
        Ok(Some(Job::Script(job))) => run_job(alloc, job, source, sink, hosts, rules),
        Ok(Some(Job::Follow)) => follow_frames(alloc, source, sink),
        Ok(None) => Status::Usage,
        Err(NoMemory) => Status::NoMemory,
    }
}

// The command line, as one simple command.
ghost use Rattle.std.specs.Prelude.{◌≡◌, IfOk, map, option_map, string_bytes};
ghost use Rattle.clap.specs.Words.{app_of};
ghost use Rattle.live_words.specs.Jobs.{bare_job as job_of_bare, bench_job as job_of_bench, is_text, job_of, job_of_values, live, run_job as job_of_run};

use crate::rounds::read_rounds;
use crate::{Job, ScriptJob};
use clap::error::ErrorKind;
use clap::{Arg, ArgAction, Command};
use sig_base::NoMemory;
use std::alloc::{AllocError, Global};

// The command: JOB, which is required, ROUNDS, and the flag `--trace`.
fn live_command<'a>(alloc: Global) -> Result<Command<'a>, AllocError>
    ensures { IfOk result (λ c. app_of c ≡ live) }
{
    let job = Arg::new(alloc, "job").required(true).action(ArgAction::Set);
    let rounds = Arg::new(alloc, "rounds").action(ArgAction::Set);
    let trace = Arg::new(alloc, "trace")
        .long("trace")
        .action(ArgAction::SetTrue);
    Command::new(alloc, "live")
        .arg(job)?
        .arg(rounds)?
        .arg(trace)
}

// Whether a value is there, and is this text.
fn is_text(text: &str, value: Option<&str>) -> bool
    ensures { result ≡ is_text text.now (option_map (λ v. v.now) value.entry) }
{
    match value {
        Some(found) => found == text,
        None => false,
    }
}

// The job of running the script, which takes no rounds.
fn run_job(rounds: Option<&str>, traced: bool) -> Option<Job>
    ensures { result ≡ job_of_run (option_map (λ v. v.now) rounds.entry) traced }
{
    match rounds {
        Some(_) => None,
        None if traced => Some(Job::Script(ScriptJob::Trace)),
        None => Some(Job::Script(ScriptJob::Run)),
    }
}

// The job of the generated workload, which needs its rounds and takes no trace.
fn bench_job(rounds: Option<&str>, traced: bool) -> Option<Job>
    ensures { result ≡ job_of_bench (option_map (λ v. v.now) rounds.entry) traced }
{
    if traced {
        return None;
    }
    let Some(text) = rounds else {
        return None;
    };
    let Some(rounds) = read_rounds(text) else {
        return None;
    };
    Some(Job::Script(ScriptJob::Bench(rounds)))
}

// A job that takes neither rounds nor a trace.
fn bare_job(job: Job, rounds: Option<&str>, traced: bool) -> Option<Job>
    ensures { result ≡ job_of_bare job (option_map (λ v. v.now) rounds.entry) traced }
{
    let None = rounds else {
        return None;
    };
    if traced {
        return None;
    }
    Some(job)
}

// The job that the values of JOB, ROUNDS and the flag name.
fn job_from(name: Option<&str>, rounds: Option<&str>, trace: Option<&str>) -> Option<Job>
    ensures { result ≡ job_of_values (option_map (λ v. v.now) name.entry) (option_map (λ v. v.now) rounds.entry) (option_map (λ v. v.now) trace.entry) }
{
    let traced = is_text("true", trace);
    if is_text("run", name) {
        return run_job(rounds, traced);
    }
    if is_text("bench", name) {
        return bench_job(rounds, traced);
    }
    if is_text("wire", name) {
        return bare_job(Job::Script(ScriptJob::Wire), rounds, traced);
    }
    if is_text("follow", name) {
        return bare_job(Job::Follow, rounds, traced);
    }
    None
}

/// The job that the words ask for, of which the first is the program's name: `run`, perhaps with `--trace`, `bench` and a number of
/// rounds from 1 to `MOST_ROUNDS`, `wire` or `follow`. `None` exactly where the command refuses the words, a call for help included, or where what it takes
/// names no job.
pub fn read_job(alloc: Global, words: &[String]) -> Result<Option<Job>, NoMemory>
    ensures { IfOk result (λ job. job ≡ job_of (map string_bytes words.now)) }
{
    let command = live_command(alloc)?;
    match command.try_get_matches_from(words) {
        Ok(matches) => Ok(job_from(
            matches.get_str("job"),
            matches.get_str("rounds"),
            matches.get_str("trace"),
        )),
        Err(error) => match error.kind() {
            ErrorKind::OutOfMemory => Err(NoMemory),
            _ => Ok(None),
        },
    }
}

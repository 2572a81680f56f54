//! Runs a script from standard input, or a generated one, and prints what it tells on standard output, or writes it as frames, or follows frames.
#![tactic(auto)]

use host_samples::{Cascade, Clamp, Pick, lend};
use live_run::{Status, run_live};
use sig_base::{NoMemory, Value, alike};
use sig_host::{EqualsRule, HostFormula};
use sig_io::{StdSink, StdSource};
use std::alloc::Global;
use std::env::args;
use std::io;
use std::process::ExitCode;
use std::rt::Env;

// The words of the command line, or how the program ends where there are none.
fn words_of(rt: &(impl Env + AllocGlobal)) -> Result<Vec<String>, Status> {
    match args(rt) {
        Ok(words) => words.collect(rt.alloc()).map_err(|_| Status::NoMemory),
        Err(error) if error.kind() == io::ErrorKind::OutOfMemory => Err(Status::NoMemory),
        Err(_) => Err(Status::Usage),
    }
}

// Runs what the words ask for, over standard input and standard output, with the host formulas and the equality rules that scripts may name.
fn run_words(
    rt: &(impl Input + Print + AllocGlobal),
    words: &[String],
) -> Result<Status, NoMemory> {
    let alloc = rt.alloc();
    let mut hosts: Vec<Box<dyn HostFormula>> = Vec::new(alloc);
    lend(&mut hosts, Box::new(alloc, Pick::new())?)?;
    lend(&mut hosts, Box::new(alloc, Cascade::new())?)?;
    lend(&mut hosts, Box::new(alloc, Clamp::new())?)?;
    lend(&mut hosts, Box::new(alloc, Pick::new())?)?;
    lend(&mut hosts, Box::new(alloc, Cascade::new())?)?;
    lend(&mut hosts, Box::new(alloc, Clamp::new())?)?;
    let mut rules = Vec::new(alloc);
    rules.push(EqualsRule {
        slack: 0,
        call: Box::new(alloc, |a: &Value, b: &Value| alike(0, a, b))?,
    })?;
    rules.push(EqualsRule {
        slack: 5,
        call: Box::new(alloc, |a: &Value, b: &Value| alike(5, a, b))?,
    })?;
    let mut source = StdSource::new(rt.reader());
    let mut sink = StdSink::new(io::writer(rt));
    Ok(run_live(alloc, words, &mut source, &mut sink, hosts, rules))
}

// Runs the program, and gives how it ended.
fn run(rt: &(impl Env + Input + Print + AllocGlobal)) -> Status {
    match words_of(rt) {
        Ok(words) => run_words(rt, &words).unwrap_or(Status::NoMemory),
        Err(status) => status,
    }
}

fn main(rt: HostRuntime) -> ExitCode {
    let status = run(&rt);
    if status == Status::Usage {
        let _ = eprintln!(rt; "usage: live run [--trace] | live bench N | live wire | live follow");
    }
    ExitCode::from(status as u8)
}

// Runs a script between a source and a sink that never fail.

use crate::pieces::{Piece, text_of};
use live_run::{Status, run_live};
use sig_io::{MemSink, MemSource};
use std::alloc::{AllocError, Global};
use std::process::Abort;
use std::test::Fail;

// The room of the sink, in bytes.
const MOST_HELD: usize = 1_048_576;

/// A run: its status and what the sink holds after it.
#[derive(Drop)]
pub(crate) struct Run {
    pub(crate) status: Status,
    pub(crate) held: Vec<u8>,
}

// The words that ask for a script.
fn run_words(alloc: Global) -> Result<Vec<String>, AllocError> {
    let mut words = Vec::new(alloc);
    for word in ["live", "run"] {
        words.push(String::from_str(alloc, word)?)?;
    }
    Ok(words)
}

/// Runs a script. No host formulas and no rules are lent to it.
pub(crate) fn run_whole(alloc: Global, script: &str) -> Result<Run, Fail> {
    let words = run_words(alloc)?;
    let script = script.as_bytes().to_vec(alloc)?;
    let mut source = MemSource::new(script, 4096, Vec::new(alloc));
    let mut sink = MemSink::new(alloc, MOST_HELD, 4096, Vec::new(alloc))?;
    let status = run_live(
        alloc,
        &words,
        &mut source,
        &mut sink,
        Vec::new(alloc),
        Vec::new(alloc),
    );
    Ok(Run {
        status,
        held: sink.held().to_vec(alloc)?,
    })
}

/// Runs a script, which is to print this.
pub(crate) fn assert_prints(
    rt: &impl Abort,
    alloc: Global,
    script: &str,
    output: &str,
) -> Result<(), Fail> {
    let run = run_whole(alloc, script)?;
    assert!(rt; run.status == Status::Done, "for {output}");
    assert_eq!(rt; run.held.as_slice(), output.as_bytes());
    Ok(())
}

/// Runs the script of these pieces, which is to print this.
pub(crate) fn assert_long(
    rt: &impl Abort,
    alloc: Global,
    script: &[Piece<'_>],
    output: &str,
) -> Result<(), Fail> {
    let script = text_of(alloc, script)?;
    assert_prints(rt, alloc, script.as_str(), output)
}

/// Runs the script of these pieces, which is to print the text of those.
pub(crate) fn assert_both_long(
    rt: &impl Abort,
    alloc: Global,
    script: &[Piece<'_>],
    output: &[Piece<'_>],
) -> Result<(), Fail> {
    let output = text_of(alloc, output)?;
    assert_long(rt, alloc, script, output.as_str())
}

// Reads and writes that fail, each call in turn, and sinks that fill.
ghost use Rattle.std.specs.Prelude.{◌<◌};

use crate::run::{FIRST_OUTPUT, FIRST_PAGE, Run, run_between, run_over};
use live_run::Status;
use sig_io::{MemSink, MemSource};
use std::alloc::{AllocError, Global};
use std::process::Abort;
use std::test::Fail;

// A computed over two others over one cell: a script of 104 bytes.
const DIAMOND: &str =
    "cell a = 1\ncomputed b = a + 1\ncomputed c = a * 2\ncomputed d = b + c\nget d\nset a 2\nstate b\nstate d\nget d\n";

// What it prints: 42 bytes.
const DIAMOND_OUTPUT: &str = "d = 4\nstate b dirty\nstate d checked\nd = 7\n";

// Runs a script in pieces of at most so many bytes, of which these reads and writes fail.
fn run_failing(
    alloc: Global,
    script: &str,
    most: usize,
    takes: &[u64],
    puts: &[u64],
) -> Result<Run, Fail>
    requires { 0 < most }
{
    run_over(
        alloc,
        "live run",
        script.as_bytes(),
        most,
        takes.to_vec(alloc)?,
        puts.to_vec(alloc)?,
    )
}

// The run of which that read fails, and so does a write: nothing is written.
fn assert_read_told(
    rt: &impl Abort,
    alloc: Global,
    script: &str,
    most: usize,
    call: u64,
) -> Result<(), Fail>
    requires { 0 < most }
{
    let run = run_failing(alloc, script, most, &[call], &[1])?;
    assert!(rt; run.status == Status::ReadFault, "at read {call} of {most}");
    assert!(rt; run.held.is_empty(), "at read {call} of {most}");
    Ok(())
}

// The run of which that write fails: what was written before it is a front of the output, whole up to that call.
fn assert_write_told(
    rt: &impl Abort,
    alloc: Global,
    script: &str,
    output: &str,
    most: usize,
    call: u64,
) -> Result<(), Fail>
    requires { 0 < most }
{
    let before = call.saturating_sub(1).saturating_mul(most as u64);
    let run = run_failing(alloc, script, most, &[], &[call])?;
    assert!(rt;
        run.status == Status::WriteFault,
        "at write {call} of {most}"
    );
    assert!(rt;
        output.as_bytes().starts_with(run.held.as_slice()),
        "at write {call} of {most}"
    );
    assert_eq!(rt; run.held.len() as u64, before, "at write {call} of {most}");
    Ok(())
}

// A run of which these reads and writes would fail, and which never comes to them.
fn assert_whole(
    rt: &impl Abort,
    alloc: Global,
    script: &str,
    output: &str,
    most: usize,
    takes: &[u64],
    puts: &[u64],
) -> Result<(), Fail>
    requires { 0 < most }
{
    let run = run_failing(alloc, script, most, takes, puts)?;
    assert!(rt; run.status == Status::Done);
    assert_eq!(rt; run.held.as_slice(), output.as_bytes());
    Ok(())
}

// Each read before the last one that comes, and the one behind it.
fn assert_reads(
    rt: &impl Abort,
    alloc: Global,
    script: &str,
    output: &str,
    most: usize,
    behind: u64,
) -> Result<(), Fail>
    requires { 0 < most }
{
    for call in 1..behind {
        assert_read_told(rt, alloc, script, most, call)?;
    }
    assert_whole(rt, alloc, script, output, most, &[behind], &[])
}

// Each write, and the one behind the last: as many as the output has pieces, and none of no bytes.
fn assert_writes(
    rt: &impl Abort,
    alloc: Global,
    script: &str,
    output: &str,
    most: usize,
    behind: u64,
) -> Result<(), Fail>
    requires { 0 < most }
{
    for call in 1..behind {
        assert_write_told(rt, alloc, script, output, most, call)?;
    }
    assert_whole(rt, alloc, script, output, most, &[], &[behind])
}

#[test]
fn tells_each_failed_read(rt: HostRuntime) -> Result<(), Fail> {
    let alloc = rt.alloc();
    assert_reads(&rt, alloc, FIRST_PAGE, FIRST_OUTPUT, 4, 22)?;
    assert_reads(&rt, alloc, DIAMOND, DIAMOND_OUTPUT, 4, 28)?;
    assert_reads(&rt, alloc, DIAMOND, DIAMOND_OUTPUT, 1, 106)
}

#[test]
fn tells_each_failed_write(rt: HostRuntime) -> Result<(), Fail> {
    let alloc = rt.alloc();
    assert_writes(&rt, alloc, FIRST_PAGE, FIRST_OUTPUT, 4, 26)?;
    assert_writes(&rt, alloc, DIAMOND, DIAMOND_OUTPUT, 4, 12)?;
    assert_writes(&rt, alloc, DIAMOND, DIAMOND_OUTPUT, 1, 43)
}

// The text so often, one after the other.
fn repeated(alloc: Global, text: &str, count: u32) -> Result<String, AllocError> {
    let mut out = String::new(alloc);
    for _ in 0..count {
        out.push_str(text)?;
    }
    Ok(out)
}

// A line of 1,031 bytes.
fn long_line(alloc: Global) -> Result<String, AllocError> {
    let letters = repeated(alloc, "z", 1024)?;
    format!(in alloc; "c = \"{letters}\"\n")
}

// A script that prints so many of them.
fn printing(alloc: Global, count: u32) -> Result<String, AllocError> {
    let line = long_line(alloc)?;
    let gets = repeated(alloc, "get c\n", count)?;
    format!(in alloc; "cell {line}{gets}")
}

// What it prints.
fn printed(alloc: Global, count: u32) -> Result<String, AllocError> {
    let line = long_line(alloc)?;
    repeated(alloc, line.as_str(), count)
}

// Output is handed on once there is much of it: sixty-four of these lines in one piece, and nothing behind it.
#[test]
fn puts_no_empty_piece(rt: HostRuntime) -> Result<(), Fail> {
    let alloc = rt.alloc();
    let script = printing(alloc, 64)?;
    let output = printed(alloc, 64)?;
    let (script, output) = (script.as_str(), output.as_str());
    assert_whole(&rt, alloc, script, output, usize::MAX, &[], &[2])?;
    // a script that prints nothing writes nothing
    assert_whole(&rt, alloc, "", "", 1, &[2], &[1])?;
    assert_whole(&rt, alloc, "cell c = 1\nset c 2\nflush\n", "", 4, &[], &[1])
}

// What was handed on stays where a later piece fails.
#[test]
fn keeps_what_was_handed_on(rt: HostRuntime) -> Result<(), Fail> {
    let alloc = rt.alloc();
    let script = printing(alloc, 65)?;
    let output = printed(alloc, 64)?;
    let run = run_failing(alloc, script.as_str(), usize::MAX, &[], &[2])?;
    assert!(rt; run.status == Status::WriteFault);
    assert_eq!(rt; run.held.as_slice(), output.as_bytes());
    Ok(())
}

// A sink that has room for so many bytes takes just these.
fn assert_fills(rt: &impl Abort, alloc: Global, room: usize, wanted: Status) -> Result<(), Fail> {
    let script = DIAMOND.as_bytes().to_vec(alloc)?;
    let mut source = MemSource::new(script, usize::MAX, Vec::new(alloc));
    let mut sink = MemSink::new(alloc, room, 4, Vec::new(alloc))?;
    let status = run_between(alloc, "live run", &mut source, &mut sink)?;
    let output = DIAMOND_OUTPUT.as_bytes();
    assert!(rt; status == wanted, "room for {room} bytes");
    assert_eq!(rt;
        sink.held(),
        &output[..room.min(output.len())],
        "room for {room} bytes"
    );
    Ok(())
}

#[test]
fn fills_a_sink(rt: HostRuntime) -> Result<(), Fail> {
    for room in 0..42usize {
        assert_fills(&rt, rt.alloc(), room, Status::WriteFault)?;
    }
    assert_fills(&rt, rt.alloc(), 42, Status::Done)
}

// Runs what a line of words asks for over a source that fails at its first read and a sink that fails at its first write.
fn assert_unread(rt: &impl Abort, alloc: Global, line: &str, wanted: Status) -> Result<(), Fail> {
    let one = Vec::from_array(alloc, [1])?;
    let two = Vec::from_array(alloc, [1])?;
    let run = run_over(alloc, line, DIAMOND.as_bytes(), 4, one, two)?;
    assert!(rt; run.status == wanted, "of {line}");
    assert!(rt; run.held.is_empty(), "of {line}");
    Ok(())
}

// Words that ask for nothing touch neither, and the workload reads nothing.
#[test]
fn reads_for_a_run_alone(rt: HostRuntime) -> Result<(), Fail> {
    let alloc = rt.alloc();
    assert_unread(&rt, alloc, "live walk", Status::Usage)?;
    assert_unread(&rt, alloc, "live bench 0", Status::Usage)?;
    assert_unread(&rt, alloc, "live run", Status::ReadFault)?;
    assert_unread(&rt, alloc, "live run --trace", Status::ReadFault)?;
    assert_unread(&rt, alloc, "live bench 4", Status::WriteFault)
}

// The words of a line, and the job that is wanted of them.
use live_words::{Job, ScriptJob, read_job};
use std::alloc::Global;
use std::test::Fail;

fn job_in(alloc: Global, line: &str) -> Result<Option<Job>, Fail> {
    let mut words = Vec::new(alloc);
    words.push(String::from_str(alloc, "live")?)?;
    for word in line.split(' ') {
        if !word.is_empty() {
            words.push(String::from_str(alloc, word)?)?;
        }
    }
    Ok(read_job(alloc, &words)?)
}

#[test]
fn words_name_jobs(rt: HostRuntime) -> Result<(), Fail> {
    for (line, want) in [
        ("run", Job::Script(ScriptJob::Run)),
        ("run --", Job::Script(ScriptJob::Run)),
        ("-- run", Job::Script(ScriptJob::Run)),
        ("run --trace", Job::Script(ScriptJob::Trace)),
        ("--trace run", Job::Script(ScriptJob::Trace)),
        ("bench 1", Job::Script(ScriptJob::Bench(1))),
        ("bench -- 4", Job::Script(ScriptJob::Bench(4))),
        ("-- bench 4", Job::Script(ScriptJob::Bench(4))),
        ("bench 100000", Job::Script(ScriptJob::Bench(100_000))),
        ("wire", Job::Script(ScriptJob::Wire)),
        ("-- wire", Job::Script(ScriptJob::Wire)),
        ("follow", Job::Follow),
        ("follow --", Job::Follow),
    ] {
        assert!(rt; job_in(rt.alloc(), line)? == Some(want), "at {line}");
    }
    Ok(())
}

#[test]
fn other_words_name_none(rt: HostRuntime) -> Result<(), Fail> {
    for line in [
        "",
        "walk",
        "help",
        "--help",
        "run --help",
        "-h",
        "--version",
        "-V",
        "run 4",
        "run -",
        "run --x",
        "run --tra",
        "run --trace=true",
        "run --trace --trace",
        "run -- --trace",
        "bench",
        "bench x",
        "bench 0",
        "bench 01",
        "bench +4",
        "bench -4",
        "bench -- -4",
        "bench 4x",
        "bench 4 5",
        "bench 100001",
        "bench 4294967300",
        "bench 4 --trace",
        "wire 4",
        "wire --trace",
        "follow 4",
        "follow --trace",
        "wire follow",
    ] {
        assert!(rt; job_in(rt.alloc(), line)?.is_none(), "at {line}");
    }
    Ok(())
}

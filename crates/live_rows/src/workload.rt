// The generated workload, and the words that ask for it.

use crate::rows::{assert_all_usage, assert_output};
use std::test::Fail;

#[test]
fn measures_workloads(rt: HostRuntime) -> Result<(), Fail> {
    let script = b"get nothing\n";
    assert_output(
        &rt,
        rt.alloc(),
        "live bench 4",
        script,
        "bench 4\ncommands 14\nruns 5\nops 2\npage <p>49</p>\n",
    )?;
    let twelve = "bench 12\ncommands 27\nruns 11\nops 4\npage <p>133</p>\n";
    assert_output(&rt, rt.alloc(), "live bench 12", script, twelve)?;
    // the same again
    assert_output(&rt, rt.alloc(), "live bench 12", script, twelve)?;
    assert_output(&rt, rt.alloc(), "live bench -- 12", script, twelve)
}

#[test]
fn refuses_other_words(rt: HostRuntime) -> Result<(), Fail> {
    assert_all_usage(
        &rt,
        rt.alloc(),
        &[
            "live",
            "live run --x",
            "live run 4",
            "live bench",
            "live bench 0",
            "live bench 01",
            "live bench 100001",
            "live bench 4 --trace",
            "live wire 4",
            "live follow --trace",
        ],
    )
}

// A deep graph that stays clean, while a cell is set that it doesn't read.

use crate::pieces::Piece::{Often, Once};
use crate::run::assert_both_long;
use std::alloc::{AllocError, Global};
use std::test::Fail;

// The line of a computed: the sum of the signals from one number up to its own.
fn put_sum(lines: &mut String, alloc: Global, first: u32, number: u32) -> Result<(), AllocError> {
    lines.push_str(format!(in alloc; "computed c{number} = c{first}")?.as_str())?;
    for source in first.saturating_add(1)..number {
        lines.push_str(format!(in alloc; " + c{source}")?.as_str())?;
    }
    lines.push_str("\n")
}

// A line for each computed below the count: the sum of all signals before it, of 64 at most.
fn sums(alloc: Global, count: u32) -> Result<String, AllocError> {
    let mut lines = String::new(alloc);
    for number in 1..count {
        put_sum(&mut lines, alloc, number.saturating_sub(64), number)?;
    }
    Ok(lines)
}

#[test]
fn passes_over_what_is_clean(rt: HostRuntime) -> Result<(), Fail> {
    let alloc = rt.alloc();
    let sums = sums(alloc, 511)?;
    assert_both_long(
        &rt,
        alloc,
        &[
            Once("cell u = 0\ncell c0 = 0\n"),
            Once(sums.as_str()),
            Once("get c510\n"),
            Often("set u 1\nget c510\nset u 0\nget c510\n", 512),
        ],
        &[Often("c510 = 0\n", 1025)],
    )
}

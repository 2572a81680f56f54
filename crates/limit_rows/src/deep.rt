// Thousands of signals, one below the other or one after the other.

use crate::pieces::Piece::{Numbered, Often, Once};
use crate::run::{assert_both_long, assert_long, assert_prints};
use std::alloc::{AllocError, Global};
use std::test::Fail;

// A cell, and so many computeds, each one more than the signal before it.
fn chain(alloc: Global, count: u32) -> Result<String, AllocError> {
    let mut lines = String::from_str(alloc, "cell c0 = 0\n")?;
    for before in 0..count {
        let number = before.saturating_add(1);
        let line = format!(in alloc; "computed c{number} = c{before} + 1\n")?;
        lines.push_str(line.as_str())?;
    }
    Ok(lines)
}

#[test]
fn goes_along_a_long_chain(rt: HostRuntime) -> Result<(), Fail> {
    let alloc = rt.alloc();
    let chain = chain(alloc, 10_000)?;
    assert_long(
        &rt,
        alloc,
        &[
            Once(chain.as_str()),
            Once("get c10000\nset c0 5\nget c10000\n"),
        ],
        "c10000 = 10000\nc10000 = 10005\n",
    )?;
    // who is told of a change at its start, and a page and an effect at its end
    assert_long(
        &rt,
        alloc,
        &[
            Once(chain.as_str()),
            Once(
                "template t\ntext c10000\nend\nmount p t\neffect e\nlog c10000\nend\nwatcher w\nwatch w c10000\nset c0 5\nflush\n",
            ),
        ],
        "op p insert 0 0 (1 \"10000\")\npage p 5\n10000\nnotify w\nlog 10005\nop p text 1 \"10005\"\npage p 5\n10005\n",
    )?;
    // its start reads its end, and no more; a computed in its middle ends
    assert_long(
        &rt,
        alloc,
        &[
            Once(chain.as_str()),
            Once(
                "get c10000\nrewire c1 = c10000 + 1\nget c10000\nget c1\nrewire c1 = c0 + 1\nget c10000\ndispose c5000\nget c4999\nget c10000\n",
            ),
        ],
        "c10000 = 10000\nc10000 ! cycle\nc1 ! cycle\nc10000 = 10000\nc4999 = 4999\nc10000 ! gone\n",
    )
}

// What has ended takes no room, however much of it there was.
#[test]
fn counts_what_lives(rt: HostRuntime) -> Result<(), Fail> {
    assert_long(
        &rt,
        rt.alloc(),
        &[
            Numbered(&["cell a", " = 0\ndispose a", "\n"], 20_000),
            Numbered(&["cell b", " = 0\n"], 16_385),
        ],
        "error 5 nodes\n",
    )
}

// The line of a computed: the sum of the signals before it, of 64 at most, the nearest first.
fn put_sum(lines: &mut String, alloc: Global, number: u32) -> Result<(), AllocError> {
    let first = number.saturating_sub(1);
    lines.push_str(format!(in alloc; "computed c{number}=c{first}")?.as_str())?;
    for back in 2..65u32 {
        if back <= number {
            let source = number.saturating_sub(back);
            lines.push_str(format!(in alloc; "+c{source}")?.as_str())?;
        }
    }
    lines.push_str("\n")
}

// A line for each computed up to the count.
fn sums(alloc: Global, count: u32) -> Result<String, AllocError> {
    let mut lines = String::new(alloc);
    for number in 1..count.saturating_add(1) {
        put_sum(&mut lines, alloc, number)?;
    }
    Ok(lines)
}

#[test]
fn asks_a_clean_graph_often(rt: HostRuntime) -> Result<(), Fail> {
    let alloc = rt.alloc();
    let sums = sums(alloc, 5000)?;
    assert_both_long(
        &rt,
        alloc,
        &[
            Once("cell u = 0\ncell c0 = 0\n"),
            Once(sums.as_str()),
            Once("get c5000\n"),
            Often("set u 1\nget c5000\nset u 0\nget c5000\n", 50_000),
        ],
        &[Often("c5000 = 0\n", 100_001)],
    )
}

// Eighty computeds, each the sum of the two before it, are evaluated once each.
#[test]
fn evaluates_each_computed_once(rt: HostRuntime) -> Result<(), Fail> {
    let alloc = rt.alloc();
    let mut script = String::from_str(alloc, "cell c0 = 1\ncell c1 = 1\n")?;
    for number in 2..82u32 {
        let (one, two) = (number - 1, number - 2);
        let line = format!(in alloc; "computed c{number} = c{one} + c{two}\n")?;
        script.push_str(line.as_str())?;
    }
    script.push_str("get c81\nset c1 0\nget c81\n")?;
    assert_prints(
        &rt,
        alloc,
        script.as_str(),
        "c81 = 61305790721611591\nc81 = 23416728348467685\n",
    )
}

// Scripts that end at any byte: each runs to its end, and prints what the lines that are there say.

use crate::run::{TODO, TODO_OUTPUT, run_whole};
use live_run::Status;
use std::alloc::Global;
use std::process::Abort;
use std::test::Fail;

/// A script, and what it prints where nothing is cut off.
struct Whole<'a> {
    script: &'a str,
    output: &'a str,
}

// Runs so many bytes of the script, which are to print so many bytes of its output, and then what refuses the line or the
// block that the cut goes through.
fn assert_cut(
    rt: &impl Abort,
    alloc: Global,
    whole: &Whole<'_>,
    length: usize,
    front: usize,
    refused: &str,
) -> Result<(), Fail> {
    let script = whole.script.as_bytes();
    let output = whole.output.as_bytes();
    let mut wanted = output[..front.min(output.len())].to_vec(alloc)?;
    wanted.extend_from_slice(refused.as_bytes())?;
    let run = run_whole(alloc, "live run", &script[..length.min(script.len())])?;
    assert!(rt; run.status == Status::Done, "cut behind {length} bytes");
    assert_eq!(rt;
        run.held.as_slice(),
        wanted.as_slice(),
        "cut behind {length} bytes"
    );
    Ok(())
}

// Runs each cut of a script from so many bytes on. A row says below which length its cuts lie, how many bytes of the output
// they print, and what is refused.
fn assert_cuts(
    rt: &impl Abort,
    alloc: Global,
    whole: &Whole<'_>,
    from: usize,
    rows: &[(usize, usize, &str)],
) -> Result<(), Fail> {
    let mut first = from;
    for row in rows {
        for length in first..row.0 {
            assert_cut(rt, alloc, whole, length, row.1, row.2)?;
        }
        first = row.0;
    }
    Ok(())
}

// What every cut of the to-do script is judged by.
const TODO_CUTS: Whole<'static> = Whole {
    script: TODO,
    output: TODO_OUTPUT,
};

#[test]
fn cuts_among_makings(rt: HostRuntime) -> Result<(), Fail> {
    assert_cuts(
        &rt,
        rt.alloc(),
        &TODO_CUTS,
        0,
        &[
            (1, 0, ""),
            (7, 0, "error 1 1\n"),
            (12, 0, ""),
            (18, 0, "error 1 2\n"),
            (24, 0, ""),
            (47, 0, "error 1 3\n"),
            (49, 0, ""),
            (67, 0, "error 1 4\n"),
            (69, 0, ""),
            (102, 0, "error 1 5\n"),
            (104, 0, ""),
            (135, 0, "error 1 6\n"),
            (137, 0, ""),
            (171, 0, "error 1 7\n"),
            (173, 0, ""),
            (190, 0, "error 1 8\n"),
            (191, 0, "error 2 k\n"),
            (192, 0, "error 2 ke\n"),
            (193, 0, "error 2 kee\n"),
            (265, 0, "error 1 8\n"),
            (267, 0, ""),
            (283, 0, "error 1 9\n"),
            (284, 0, "error 2 c\n"),
            (285, 0, "error 2 co\n"),
            (286, 0, "error 2 cou\n"),
            (287, 0, "error 2 coun\n"),
            (313, 0, "error 1 9\n"),
            (315, 0, ""),
        ],
    )
}

// A template without its end is told by its first line, and nothing of it is printed.
#[test]
fn cuts_in_a_template(rt: HostRuntime) -> Result<(), Fail> {
    assert_cuts(
        &rt,
        rt.alloc(),
        &TODO_CUTS,
        315,
        &[(550, 0, "error 1 10\n")],
    )
}

#[test]
fn cuts_among_mounts(rt: HostRuntime) -> Result<(), Fail> {
    assert_cuts(
        &rt,
        rt.alloc(),
        &TODO_CUTS,
        550,
        &[
            (552, 0, ""),
            (563, 0, "error 1 32\n"),
            (564, 0, "error 2 t\n"),
            (565, 0, "error 2 to\n"),
            (566, 0, "error 2 tod\n"),
            (568, 311, ""),
            (571, 0, "error 1 32\n"),
            (572, 0, "error 2 l\n"),
            (573, 0, "error 2 le\n"),
            (574, 0, "error 2 lef\n"),
            (576, 311, ""),
            (587, 311, "error 1 33\n"),
            (588, 311, "error 2 t\n"),
            (589, 311, "error 2 to\n"),
            (590, 311, "error 2 tod\n"),
            (592, 622, ""),
            (595, 311, "error 1 33\n"),
            (596, 311, "error 2 r\n"),
            (597, 311, "error 2 ri\n"),
            (598, 311, "error 2 rig\n"),
            (599, 311, "error 2 righ\n"),
            (601, 622, ""),
        ],
    )
}

#[test]
fn cuts_among_flushes(rt: HostRuntime) -> Result<(), Fail> {
    assert_cuts(
        &rt,
        rt.alloc(),
        &TODO_CUTS,
        601,
        &[
            (623, 622, "error 1 34\n"),
            (625, 622, ""),
            (641, 622, "error 1 35\n"),
            (643, 622, ""),
            (647, 622, "error 1 36\n"),
            (649, 930, ""),
            (657, 930, "error 1 37\n"),
            (658, 930, "error 2 r\n"),
            (659, 930, "error 2 ri\n"),
            (660, 930, "error 2 rig\n"),
            (661, 930, "error 2 righ\n"),
            (663, 930, ""),
            (678, 930, "error 1 38\n"),
            (680, 930, ""),
            (684, 930, "error 1 39\n"),
            (686, 1107, ""),
        ],
    )
}

// Between a CR and its LF, inside a character and an escape, and in a block of which the last `end` is missing.
#[test]
fn cuts_within_characters(rt: HostRuntime) -> Result<(), Fail> {
    assert_cuts(
        &rt,
        rt.alloc(),
        &Whole {
            script: "cell a = \"\u{a0}\\n\"\r\neffect e\r\nwhen true\r\nlog a\r\nend\r\n\r\nend\r\nflush\r\nget a\r\n",
            output: "log \"\u{a0}\\n\"\na = \"\u{a0}\\n\"\n",
        },
        0,
        &[
            (1, 0, ""),
            (15, 0, "error 1 1\n"),
            (16, 0, ""),
            (17, 0, "error 1 1\n"),
            (18, 0, ""),
            (55, 0, "error 1 2\n"),
            (56, 0, ""),
            (57, 0, "error 1 7\n"),
            (58, 0, ""),
            (62, 0, "error 1 8\n"),
            (63, 11, ""),
            (64, 0, "error 1 8\n"),
            (65, 11, ""),
            (69, 11, "error 1 9\n"),
            (70, 22, ""),
            (71, 11, "error 1 9\n"),
            (72, 22, ""),
        ],
    )
}

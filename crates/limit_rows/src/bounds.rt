// Limits of bodies, of what lives and of what one line names, each reached and passed by one.

use crate::pieces::Piece::{Numbered, Often, Once};
use crate::run::{assert_long, assert_prints};
use std::test::Fail;

#[test]
fn bounds_a_body(rt: HostRuntime) -> Result<(), Fail> {
    let alloc = rt.alloc();
    assert_long(
        &rt,
        alloc,
        &[
            Once("effect e\n"),
            Often("log 1\n", 64),
            Once("end\nget e\n"),
        ],
        "error 4 e\n",
    )?;
    assert_long(
        &rt,
        alloc,
        &[
            Once("effect e\n"),
            Often("log 1\n", 65),
            Once("end\nget e\n"),
        ],
        "error 5 body\nerror 2 e\n",
    )?;
    // before names, also its own
    assert_long(
        &rt,
        alloc,
        &[
            Once("cell e = 1\neffect e\n"),
            Often("log 1\n", 65),
            Once("end\neffect f\n"),
            Often("log zz\n", 65),
            Once("end\neffect e\nlog 1\nend\n"),
        ],
        "error 5 body\nerror 5 body\nerror 3 e\n",
    )
}

// The lines of a nested effect count, those too that begin and end it.
#[test]
fn bounds_a_body_with_another(rt: HostRuntime) -> Result<(), Fail> {
    let alloc = rt.alloc();
    assert_long(
        &rt,
        alloc,
        &[
            Once("effect e\neffect\n"),
            Often("log 1\n", 31),
            Once("end\n"),
            Often("log 1\n", 31),
            Once("end\nget e\n"),
        ],
        "error 4 e\n",
    )?;
    assert_long(
        &rt,
        alloc,
        &[
            Once("effect e\neffect\n"),
            Often("log 1\n", 32),
            Once("end\n"),
            Often("log 1\n", 31),
            Once("end\nget e\n"),
        ],
        "error 5 body\nerror 2 e\n",
    )
}

#[test]
fn bounds_what_lives(rt: HostRuntime) -> Result<(), Fail> {
    let alloc = rt.alloc();
    assert_long(
        &rt,
        alloc,
        &[
            Numbered(&["effect e", "\nend\n"], 1024),
            Once(
                "effect x\nend\neffect e0\nend\neffect x\nlog zz\nend\nget e1023\ndispose e7\neffect x\nend\nget x\n",
            ),
        ],
        "error 5 effects\nerror 3 e0\nerror 2 zz\nerror 4 e1023\nerror 4 x\n",
    )?;
    assert_long(
        &rt,
        alloc,
        &[
            Numbered(&["owner o", "\n"], 1024),
            Once("owner x\nowner o0\nowner x in zz\nowner x in o7\ndispose o7\nowner x\nget x\n"),
        ],
        "error 5 owners\nerror 3 o0\nerror 2 zz\nerror 5 owners\nerror 4 x\n",
    )?;
    assert_long(
        &rt,
        alloc,
        &[
            Numbered(&["watcher w", "\n"], 256),
            Once("watcher x\nwatcher w0\ndispose w3\nwatcher x\nget x\n"),
        ],
        "error 5 watchers\nerror 3 w0\nerror 4 x\n",
    )
}

// Handlers of events are counted as they are made, and a line that makes no element is told first.
#[test]
fn bounds_handlers(rt: HostRuntime) -> Result<(), Fail> {
    let alloc = rt.alloc();
    assert_long(
        &rt,
        alloc,
        &[
            Once("template t\ntag @b\nend\nend\n"),
            Often("on t 1 @go\nend\n", 256),
            Once("on t 1 @go\nend\non t 2 @go\nend\non u 1 @go\nend\nget t\n"),
        ],
        "error 5 handlers\nerror 25 2\nerror 2 u\nerror 4 t\n",
    )?;
    assert_long(
        &rt,
        alloc,
        &[
            Once("template t\ntag @b\nend\nend\non t 1 @go\n"),
            Often("log 1\n", 65),
            Once("end\non t 1 @go\n"),
            Often("log 1\n", 64),
            Once("end\nget t\n"),
        ],
        "error 5 body\nerror 4 t\n",
    )
}

// Lists, cells and computeds count together.
#[test]
fn bounds_signals(rt: HostRuntime) -> Result<(), Fail> {
    assert_long(
        &rt,
        rt.alloc(),
        &[
            Numbered(&["list l", " (n)\n"], 5460),
            Numbered(&["cell c", " = 1\n"], 5462),
            Numbered(&["computed d", " = 1\n"], 5462),
            Once("list x (n)\ncell x = 1\ncomputed x = 1\ndispose l0\nlist x (n)\ncell y = 1\n"),
        ],
        "error 5 nodes\nerror 5 nodes\nerror 5 nodes\nerror 5 nodes\n",
    )
}

#[test]
fn bounds_a_row(rt: HostRuntime) -> Result<(), Fail> {
    let alloc = rt.alloc();
    assert_long(
        &rt,
        alloc,
        &[
            Once("list l (n)\ninsert l 0 \""),
            Often("k", 1024),
            Once("\" (1)\ninsert l 1 \""),
            Often("k", 1025),
            Once("\" (1)\nremove l \""),
            Often("k", 1025),
            Once("\"\nmove l \""),
            Often("k", 1025),
            Once("\" 0\nput l \""),
            Often("k", 1025),
            Once("\" n 1\ninsert zz 0 \""),
            Often("k", 1025),
            Once("\" (1)\nmove l \""),
            Often("k", 1024),
            Once("\" 1\nput l \""),
            Often("k", 1024),
            Once("\" n 7\ncomputed s = sum(l, it.n)\nget s\n"),
        ],
        "error 5 text\nerror 5 text\nerror 5 text\nerror 5 text\nerror 5 text\nerror 11 1\ns = 7\n",
    )?;
    // eight fields, and nine
    assert_prints(
        &rt,
        alloc,
        "list l (f0, f1, f2, f3, f4, f5, f6, f7)\ninsert l 0 \"k\" (0, 1, 2, 3, 4, 5, 6, 7)\nget l\nlist m (f0, f1, f2, f3, f4, f5, f6, f7, g)\nget m\ninsert l 1 \"m\" (0, 1, 2, 3, 4, 5, 6, 7, 8)\n",
        "l = [\"k\" (0, 1, 2, 3, 4, 5, 6, 7)]\nerror 5 fields\nerror 2 m\nerror 12 9\n",
    )
}

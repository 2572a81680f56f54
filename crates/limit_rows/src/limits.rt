// Limits of lines, texts, formulas, templates, lists and scripts, each reached and passed by one.

use crate::pieces::Piece::{Numbered, Often, Once};
use crate::pieces::{Piece, text_of};
use crate::run::{assert_both_long, assert_long, assert_prints, run_whole};
use live_run::Status;
use sig_base::MOST_SCRIPT;
use std::alloc::{AllocError, Global};
use std::process::Abort;
use std::test::Fail;

#[test]
fn bounds_a_line(rt: HostRuntime) -> Result<(), Fail> {
    let alloc = rt.alloc();
    assert_long(
        &rt,
        alloc,
        &[Once("flush"), Often(" ", 4091), Once("\n")],
        "",
    )?;
    assert_long(
        &rt,
        alloc,
        &[Once("flush"), Often(" ", 4092), Once("\n")],
        "error 5 line\n",
    )?;
    assert_long(
        &rt,
        alloc,
        &[Once("get "), Often("a", 4093), Once("\n")],
        "error 5 line\n",
    )?;
    // a passed-over line has any length
    assert_long(&rt, alloc, &[Once("#"), Often("-", 4095), Once("\n")], "")?;
    assert_long(
        &rt,
        alloc,
        &[Once("#"), Often("-", 4096), Once("\nget a")],
        "error 2 a\n",
    )
}

#[test]
fn bounds_a_line_of_a_block(rt: HostRuntime) -> Result<(), Fail> {
    let alloc = rt.alloc();
    // also of one without its end
    assert_long(
        &rt,
        alloc,
        &[
            Once("template t\ntext\nflush"),
            Often(" ", 4092),
            Once("\nend\nget t"),
        ],
        "error 5 line\nerror 2 t\n",
    )?;
    assert_long(
        &rt,
        alloc,
        &[Once("template t\nflush"), Often(" ", 4092), Once("\n")],
        "error 5 line\n",
    )?;
    // before a line of the block that says nothing
    assert_long(
        &rt,
        alloc,
        &[
            Once("template t\ntext "),
            Often("1", 4092),
            Once("\nfoo\nend\n"),
        ],
        "error 5 line\n",
    )
}

#[test]
fn bounds_a_text(rt: HostRuntime) -> Result<(), Fail> {
    let alloc = rt.alloc();
    assert_long(
        &rt,
        alloc,
        &[
            Once("cell c = \""),
            Often("z", 1024),
            Once("\"\ncomputed x = c ++ \"y\"\nget x\n"),
        ],
        "x ! long\n",
    )?;
    assert_long(
        &rt,
        alloc,
        &[Once("cell c = \""), Often("z", 1025), Once("\"\n")],
        "error 5 text\n",
    )
}

#[test]
fn counts_a_text_in_bytes(rt: HostRuntime) -> Result<(), Fail> {
    let alloc = rt.alloc();
    assert_long(
        &rt,
        alloc,
        &[
            Once("cell c = \""),
            Often("\u{a0}", 512),
            Once(
                "\"\ncomputed x = c ++ \"\"\ncomputed y = c ++ \"y\"\ncomputed z = x == c\nget z\nget y",
            ),
        ],
        "z = true\ny ! long\n",
    )?;
    assert_long(
        &rt,
        alloc,
        &[
            Once("cell c = \""),
            Often("\u{a0}", 512),
            Once("y\"\nset c \""),
            Often("\u{a0}", 512),
            Once("y\"\ncomputed x = 1 ++ \""),
            Often("\u{a0}", 512),
            Once("y\""),
        ],
        "error 5 text\nerror 5 text\nerror 5 text\n",
    )
}

#[test]
fn bounds_a_text_of_a_row_or_a_block(rt: HostRuntime) -> Result<(), Fail> {
    let alloc = rt.alloc();
    // as the value of a row
    assert_long(
        &rt,
        alloc,
        &[
            Once("list l (t)\ninsert l 0 \"k\" (\""),
            Often("z", 1025),
            Once("\")\ninsert l 0 \"k\" (\""),
            Often("z", 1024),
            Once("\")\nput l \"k\" t \""),
            Often("z", 1025),
            Once("\"\ncomputed n = count(l)\nget n\n"),
        ],
        "error 5 text\nerror 5 text\nn = 1\n",
    )?;
    // a text that is too long comes after an `untrack` on a later line
    assert_long(
        &rt,
        alloc,
        &[
            Once("template t\ntext \""),
            Often("\u{a0}", 512),
            Once("y\"\ntext untrack(1)\nend"),
        ],
        "error 15 3\n",
    )
}

// Cells c0 to c64.
const CELLS: Piece<'static> = Numbered(&["cell c", " = 1\n"], 65);

// The sum of c0 to c31, as the first of two parts, so that the whole isn't too high.
const HALF: Piece<'static> = Numbered(&["c", " + "], 32);

// Between it and the end: the sum of c32 to c63.
const OTHER_HALF: Piece<'static> = Once(
    "0) + (0 + c32 + c33 + c34 + c35 + c36 + c37 + c38 + c39 + c40 + c41 + c42 + c43 + c44 + c45 + c46 + c47 + c48 + c49 + c50 + c51 + c52 + c53 + c54 + c55 + c56 + c57 + c58 + c59 + c60 + c61 + c62 + c63",
);

#[test]
fn bounds_sources(rt: HostRuntime) -> Result<(), Fail> {
    let alloc = rt.alloc();
    assert_long(
        &rt,
        alloc,
        &[
            CELLS,
            Once("computed s = ("),
            HALF,
            OTHER_HALF,
            Once(")\nget s"),
        ],
        "s = 64\n",
    )?;
    assert_long(
        &rt,
        alloc,
        &[
            CELLS,
            Once("computed s = ("),
            HALF,
            OTHER_HALF,
            Once(" + c64)\nget s"),
        ],
        "error 5 sources\nerror 2 s\n",
    )
}

#[test]
fn bounds_a_height(rt: HostRuntime) -> Result<(), Fail> {
    let alloc = rt.alloc();
    assert_long(
        &rt,
        alloc,
        &[
            Once("computed x = "),
            Often("not ", 63),
            Once("true\nget x\n"),
        ],
        "x = false\n",
    )?;
    assert_long(
        &rt,
        alloc,
        &[
            Once("computed x = "),
            Often("not ", 64),
            Once("true\nget x\n"),
        ],
        "error 19 1\nerror 2 x\n",
    )
}

#[test]
fn bounds_a_template(rt: HostRuntime) -> Result<(), Fail> {
    let alloc = rt.alloc();
    assert_long(
        &rt,
        alloc,
        &[
            Once("template t\n"),
            Often("text 1\n# a comment\n", 128),
            Once("end\nget t"),
        ],
        "error 4 t\n",
    )?;
    assert_long(
        &rt,
        alloc,
        &[
            Once("template t\n"),
            Often("text 1\n", 129),
            Once("end\nget t"),
        ],
        "error 5 template\nerror 2 t\n",
    )?;
    // at the block's end, and before names
    assert_long(
        &rt,
        alloc,
        &[
            Once("cell t = 1\ntemplate t\n"),
            Often("text 1\n", 129),
            Once("text untrack(1)\nend\ntemplate t\n"),
            Often("text 1\n", 129),
            Once("text a\nend"),
        ],
        "error 15 132\nerror 5 template\n",
    )
}

// Nine pages that show a one, each mounted by a name of its own.
const MOUNTS: Piece<'static> = Numbered(&["mount p", " t\n"], 9);

// What is told of them: eight are mounted.
const MOUNTED: Piece<'static> = Numbered(&["op p", " insert 0 0 (1 \"1\")\npage p", " 1\n1\n"], 8);

#[test]
fn bounds_what_is_made(rt: HostRuntime) -> Result<(), Fail> {
    let alloc = rt.alloc();
    assert_long(
        &rt,
        alloc,
        &[
            Numbered(&["cell c", " = 1\n"], 16_383),
            Once(
                "computed x = c0 + c16382\nget x\ncell y = 1\ncomputed y = zz\ncomputed y = 1\ncell x = 1\nget y\ndispose c0\ncell y = 1\nget x\nget y",
            ),
        ],
        "x = 2\nerror 5 nodes\nerror 2 zz\nerror 5 nodes\nerror 3 x\nerror 2 y\nx ! gone\ny = 1\n",
    )?;
    assert_long(
        &rt,
        alloc,
        &[
            Numbered(&["template t", "\ntext 1\nend\n"], 64),
            Once("template u\nend\ntemplate t0\nend\nget t63\nget u"),
        ],
        "error 5 templates\nerror 3 t0\nerror 4 t63\nerror 2 u\n",
    )
}

#[test]
fn bounds_pages(rt: HostRuntime) -> Result<(), Fail> {
    let alloc = rt.alloc();
    assert_both_long(
        &rt,
        alloc,
        &[Once("cell a = 1\ntemplate t\ntext a\nend\n"), MOUNTS],
        &[MOUNTED, Once("error 5 pages\n")],
    )?;
    // names come before limits
    assert_both_long(
        &rt,
        alloc,
        &[
            Once("template t\ntext 1\nend\n"),
            MOUNTS,
            Once("mount p0 t\nmount q p0\nshow q"),
        ],
        &[
            MOUNTED,
            Once("error 5 pages\nerror 3 p0\nerror 4 p0\nerror 2 q\n"),
        ],
    )?;
    // a page that ends makes room for one
    assert_both_long(
        &rt,
        alloc,
        &[
            Once("template t\ntext 1\nend\n"),
            MOUNTS,
            Once("dispose p3\nmount q t\nmount r t\n"),
        ],
        &[
            MOUNTED,
            Once("error 5 pages\nop q insert 0 0 (1 \"1\")\npage q 1\n1\nerror 5 pages\n"),
        ],
    )
}

#[test]
fn bounds_lists(rt: HostRuntime) -> Result<(), Fail> {
    let alloc = rt.alloc();
    assert_long(
        &rt,
        alloc,
        &[
            Once("list l (n)\n"),
            Numbered(&["insert l 0 \"k", "\" (1)\n"], 512),
            Once(
                "computed k = count(l)\nget k\ninsert l 0 \"k0\" (1)\ninsert l 0 \"m\" (1)\nget k\nremove l \"k7\"\ninsert l 511 \"m\" (1)\ninsert l 0 \"n\" (1)\n",
            ),
        ],
        "k = 512\nerror 9 \"k0\"\nerror 5 rows\nk = 512\nerror 5 rows\n",
    )?;
    // too many fields, and before that fields that are none
    assert_long(
        &rt,
        alloc,
        &[
            Once("list l ("),
            Numbered(&["f", ", "], 8),
            Once("g)\nlist l ("),
            Numbered(&["f", ", "], 8),
            Once("f0)\nget l\n"),
        ],
        "error 5 fields\nerror 1 2\nerror 2 l\n",
    )
}

#[test]
fn bounds_elements(rt: HostRuntime) -> Result<(), Fail> {
    let alloc = rt.alloc();
    assert_long(
        &rt,
        alloc,
        &[
            Once("template t\n"),
            Often("tag @b\n", 31),
            Often("end\n", 32),
        ],
        "",
    )?;
    assert_long(
        &rt,
        alloc,
        &[
            Once("template t\n"),
            Often("tag @b\n", 32),
            Often("end\n", 33),
        ],
        "error 19 33\n",
    )
}

#[test]
fn bounds_levels(rt: HostRuntime) -> Result<(), Fail> {
    let alloc = rt.alloc();
    for line in ["when true\n", "effect\n"] {
        assert_long(
            &rt,
            alloc,
            &[
                Once("effect e\n"),
                Often(line, 31),
                Often("end\n", 32),
                Once("get e\n"),
            ],
            "error 4 e\n",
        )?;
        assert_long(
            &rt,
            alloc,
            &[
                Once("effect e\n"),
                Often(line, 32),
                Often("end\n", 33),
                Once("get e\n"),
            ],
            "error 19 33\nerror 2 e\n",
        )?;
    }
    Ok(())
}

// The longest name.
const NAME: Piece<'static> = Often("n", 32);

#[test]
fn bounds_a_name(rt: HostRuntime) -> Result<(), Fail> {
    let alloc = rt.alloc();
    assert_both_long(
        &rt,
        alloc,
        &[
            Once("cell "),
            NAME,
            Once(" = 1\nget "),
            NAME,
            Once("\nlist l ("),
            NAME,
            Once(")\ntemplate t\ntag @"),
            NAME,
            Once("\nattr @"),
            NAME,
            Once(" 1\nend\nend\nmount p t\n"),
        ],
        &[
            NAME,
            Once(" = 1\nop p insert 0 0 (1 "),
            NAME,
            Once(" "),
            NAME,
            Once("=\"1\")\npage p 106\n<"),
            NAME,
            Once(" "),
            NAME,
            Once("=\"1\"></"),
            NAME,
            Once(">\n"),
        ],
    )
}

#[test]
fn refuses_longer_names(rt: HostRuntime) -> Result<(), Fail> {
    let alloc = rt.alloc();
    assert_long(
        &rt,
        alloc,
        &[
            Once("cell "),
            NAME,
            Once("n = 1\nget "),
            NAME,
            Once("n\nlist l ("),
            NAME,
            Once("n)\ntemplate t\ntag @"),
            NAME,
            Once("n\nend\nend\ntemplate u\ntag @b\nattr @"),
            NAME,
            Once("n 1\nend\nend\nget l\n"),
        ],
        "error 1 1\nerror 1 2\nerror 1 3\nerror 1 5\nerror 1 10\nerror 2 l\n",
    )
}

// The longest script: lines of 1,024 bytes that say nothing.
fn longest(alloc: Global) -> Result<String, AllocError> {
    let line = text_of(alloc, &[Once("#"), Often("-", 1022), Once("\n")])?;
    text_of(alloc, &[Often(line.as_str(), 4096)])
}

// Runs the script of these pieces, which has too many bytes.
fn assert_too_long(rt: &impl Abort, alloc: Global, script: &[Piece<'_>]) -> Result<(), Fail> {
    let script = text_of(alloc, script)?;
    let run = run_whole(alloc, script.as_str())?;
    assert!(rt; run.status == Status::TooLong);
    assert!(rt; run.held.is_empty());
    Ok(())
}

#[test]
fn bounds_a_script(rt: HostRuntime) -> Result<(), Fail> {
    let alloc = rt.alloc();
    let script = longest(alloc)?;
    assert_eq!(rt; script.len(), MOST_SCRIPT);
    assert_prints(&rt, alloc, script.as_str(), "")?;
    assert_too_long(&rt, alloc, &[Once(script.as_str()), Once("\n")])
}

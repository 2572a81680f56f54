// Scripts and their output.

use crate::run::{FIRST_OUTPUT, FIRST_PAGE, run_whole};
use live_run::Status;
use std::alloc::Global;
use std::process::Abort;
use std::test::Fail;

/// Runs what a line of words asks for over this source, which is to be done and to print this.
pub(crate) fn assert_output(
    rt: &impl Abort,
    alloc: Global,
    line: &str,
    script: &[u8],
    output: &str,
) -> Result<(), Fail> {
    let run = run_whole(alloc, line, script)?;
    assert!(rt; run.status == Status::Done, "of {line}, for {output}");
    assert_eq!(rt; run.held.as_slice(), output.as_bytes(), "of {line}");
    Ok(())
}

/// Runs a script, which is to print this.
pub(crate) fn assert_prints(
    rt: &impl Abort,
    alloc: Global,
    script: &str,
    output: &str,
) -> Result<(), Fail> {
    assert_output(rt, alloc, "live run", script.as_bytes(), output)
}

/// Runs a script with its trace, which is to print this.
pub(crate) fn assert_traces(
    rt: &impl Abort,
    alloc: Global,
    script: &str,
    output: &str,
) -> Result<(), Fail> {
    assert_output(rt, alloc, "live run --trace", script.as_bytes(), output)
}

/// Runs scripts, each of which is to print what stands beside it.
pub(crate) fn assert_all_print(
    rt: &impl Abort,
    alloc: Global,
    rows: &[(&str, &str)],
) -> Result<(), Fail> {
    for row in rows {
        assert_prints(rt, alloc, row.0, row.1)?;
    }
    Ok(())
}

/// Runs scripts with their traces, each of which is to print what stands beside it.
pub(crate) fn assert_all_trace(
    rt: &impl Abort,
    alloc: Global,
    rows: &[(&str, &str)],
) -> Result<(), Fail> {
    for row in rows {
        assert_traces(rt, alloc, row.0, row.1)?;
    }
    Ok(())
}

// Runs a line of words that ask for nothing.
fn assert_usage(rt: &impl Abort, alloc: Global, line: &str) -> Result<(), Fail> {
    let run = run_whole(alloc, line, b"get nothing\n")?;
    assert!(rt; run.status == Status::Usage, "of {line}");
    assert!(rt; run.held.is_empty(), "of {line}");
    Ok(())
}

/// Runs lines of words, each of which asks for nothing.
pub(crate) fn assert_all_usage(rt: &impl Abort, alloc: Global, lines: &[&str]) -> Result<(), Fail> {
    for line in lines {
        assert_usage(rt, alloc, line)?;
    }
    Ok(())
}

#[test]
fn prints_pages(rt: HostRuntime) -> Result<(), Fail> {
    assert_all_print(
        &rt,
        rt.alloc(),
        &[
            ("", ""),
            (FIRST_PAGE, FIRST_OUTPUT),
            // a flush without a change, and a set of the same value, print nothing
            (
                "cell a = 1\ntemplate t\ntext a\nend\nmount p t\nflush\nset a 1\nflush",
                "op p insert 0 0 (1 \"1\")\npage p 1\n1\n",
            ),
            // an empty template shows nothing
            ("template t\nend\nmount p t\nflush", "page p 0\n\n"),
            // pages are brought up to date in order of mounting, each where it differs
            (
                "cell a = 1\ncell b = true\ntemplate s\ntext a\ntext a\nend\ntemplate t\ntext b\nend\nmount q s\nmount p t\nset a -2\nflush\nset b false\nset a 3\nflush",
                "op q insert 0 0 (1 \"1\")\nop q insert 0 1 (2 \"1\")\npage q 2\n11\nop p insert 0 0 (1 \"true\")\npage p 4\ntrue\nop q text 1 \"-2\"\nop q text 2 \"-2\"\npage q 4\n-2-2\nop q text 1 \"3\"\nop q text 2 \"3\"\npage q 2\n33\nop p text 1 \"false\"\npage p 5\nfalse\n",
            ),
            // escaping
            (
                "cell v = \"a<b>&\\\"c\u{a0}\"\ntemplate t\ntext v\nend\nmount m t",
                "op m insert 0 0 (1 \"a<b>&\\\"c\u{a0}\")\npage m 23\na&lt;b&gt;&amp;\"c&nbsp;\n",
            ),
        ],
    )
}

#[test]
fn prints_outcomes(rt: HostRuntime) -> Result<(), Fail> {
    assert_all_print(
        &rt,
        rt.alloc(),
        &[
            // the edges of whole numbers
            (
                "cell a = 9223372036854775807\ncomputed b = a + 1\ncomputed c = -9223372036854775808 / -1\ncomputed r = -9223372036854775808 % -1\nget b\nget c\nget r\nset a 1\nget b\n",
                "b ! overflow\nc ! overflow\nr = 0\nb = 2\n",
            ),
            // values as they are printed, and computeds over computeds
            (
                "cell price = 12\ncell number = 3\ncomputed total = price * number\ncomputed big = total > 30\ncomputed label = \"total \" ++ total\nget total\nget big\nget label\nset number 2\nget total\nget big\nset price \"x\"\nget total\nget label\nget price\n",
                "total = 36\nbig = true\nlabel = \"total 36\"\ntotal = 24\nbig = false\ntotal ! kind\nlabel ! kind\nprice = \"x\"\n",
            ),
            (
                "computed r = \"q\\\"\\\\\\n\\t\\r\"\nget r",
                "r = \"q\\\"\\\\\\n\\t\\r\"\n",
            ),
            // binding, and what isn't evaluated
            (
                "computed f = 1 + 2 * 3\ncomputed h = not true or false and true\ncomputed m = if 1 < 2 then \"y\" else 1 / 0\ncomputed o = true and 1\ncomputed q = false and 1\nget f\nget h\nget m\nget o\nget q",
                "f = 7\nh = false\nm = \"y\"\no ! kind\nq = false\n",
            ),
        ],
    )
}

#[test]
fn shows_pages_of_formulas(rt: HostRuntime) -> Result<(), Fail> {
    assert_all_print(
        &rt,
        rt.alloc(),
        &[
            // `show` prints a page as it was last brought up to date
            (
                "cell a = 1\ncomputed b = a + 1\ntemplate t\ntext b\ntext \"<\" ++ a ++ \">\"\ntext 1 / 0\ntext if b > 2 then \"many\" else \"few\"\nend\nmount p t\nset a 2\nshow p\nflush\nshow p\nset a true\nflush\n",
                "op p insert 0 0 (1 \"2\")\nop p insert 0 1 (2 \"<1>\")\nop p insert 0 2 (3 \"#ERR zero\")\nop p insert 0 3 (4 \"few\")\npage p 22\n2&lt;1&gt;#ERR zerofew\npage p 22\n2&lt;1&gt;#ERR zerofew\nop p text 1 \"3\"\nop p text 2 \"<2>\"\nop p text 4 \"many\"\npage p 23\n3&lt;2&gt;#ERR zeromany\npage p 23\n3&lt;2&gt;#ERR zeromany\nop p text 1 \"#ERR kind\"\nop p text 2 \"<true>\"\nop p text 4 \"#ERR kind\"\npage p 39\n#ERR kind&lt;true&gt;#ERR zero#ERR kind\n",
            ),
            // faults in place of values, and one that becomes a value
            (
                "cell a = 9223372036854775807\ncomputed b = a + 1\ncomputed c = -9223372036854775808 / -1\ntemplate t\ntext b\ntext c\nend\nmount p t\nset a 1\nflush\n",
                "op p insert 0 0 (1 \"#ERR overflow\")\nop p insert 0 1 (2 \"#ERR overflow\")\npage p 26\n#ERR overflow#ERR overflow\nop p text 1 \"2\"\npage p 14\n2#ERR overflow\n",
            ),
            // CR before LF, comments and blank lines, in a block too
            (
                "cell a = 1\r\n\r\n# a comment\r\n  \t\ntemplate t\n# text x\n\n  text a\r\n   # end\nend\nmount p t\nget b\nget\n",
                "op p insert 0 0 (1 \"1\")\npage p 1\n1\nerror 2 b\nerror 1 13\n",
            ),
        ],
    )
}

#[test]
fn prints_refusals(rt: HostRuntime) -> Result<(), Fail> {
    assert_all_print(
        &rt,
        rt.alloc(),
        &[
            (
                "cell a = 1\ncell a = 2\nset z 1\nmount a a\nmount p a\nget a\n",
                "error 3 a\nerror 2 z\nerror 3 a\nerror 4 a\na = 1\n",
            ),
            // a block that is refused is passed over whole, with one line
            (
                "cell a = 1\ntemplate t\ntext a\ntext\ntext b\nend\nmount p t\ncell a = 1",
                "error 1 4\nerror 2 t\nerror 3 a\n",
            ),
            // a template's names in their order: its own first
            (
                "cell a = 1\ntemplate a\ntext b\nend\ntemplate t\ntext a\ntext b + c\nend\ntemplate t\ntext t\nend",
                "error 3 a\nerror 2 b\nerror 2 t\n",
            ),
            // the script's end inside a block
            ("cell a = 1\ntemplate t\ntext a\n", "error 1 2\n"),
            ("template t\ntext 1\n", "error 1 1\n"),
            // an `untrack`, in a line that is whole otherwise; a faulty line of the block comes first
            (
                "computed b = untrack(a)\ncomputed b = untrack(a) )\ntemplate t\ntext untrack(a)\ntext\nend\ntemplate t\ntext a\ntext untrack(a)\nend",
                "error 15 1\nerror 1 2\nerror 1 5\nerror 15 9\n",
            ),
            // the names of a formula in their order, the new one first; a computed that names itself
            (
                "cell a = 1\ncomputed a = zz\ncomputed c = c\ncomputed d = a + zz + yy\ntemplate t\ntext a\nend\ncomputed e = t + zz\nset d 1\nget t\nshow a\nmount p a",
                "error 3 a\nerror 2 c\nerror 2 zz\nerror 4 t\nerror 2 d\nerror 4 t\nerror 4 a\nerror 4 a\n",
            ),
            // a computed isn't set
            ("computed b = 1\nset b 2\nget b", "error 4 b\nb = 1\n"),
            (
                "cell not = 1\ncell b = -0\nget b\r",
                "error 1 1\nerror 1 2\nerror 1 3\n",
            ),
        ],
    )
}

#[test]
fn tells_its_usage(rt: HostRuntime) -> Result<(), Fail> {
    assert_all_usage(
        &rt,
        rt.alloc(),
        &[
            "live run --x",
            "live run --trace --trace",
            "live run trace",
            "live runs",
            "live run run",
            "live --help",
            "live bench 12 12",
        ],
    )
}

#[test]
fn refuses_bytes_that_are_no_text(rt: HostRuntime) -> Result<(), Fail> {
    let alloc = rt.alloc();
    assert_output(&rt, alloc, "live run", b"get \xff\n", "error 1 1\n")?;
    // a sequence of two bytes that the line's end cuts off
    let cut = b"cell a = \"x\"\nget \xc2\nget a";
    assert_output(&rt, alloc, "live run", cut, "error 1 2\na = \"x\"\n")?;
    // a passed-over line has any bytes
    assert_output(&rt, alloc, "live run", b"# \xff\nget a", "error 2 a\n")
}

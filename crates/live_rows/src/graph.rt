// What runs, and when: traced scripts.

use crate::rows::{assert_all_trace, assert_prints, assert_traces};
use std::test::Fail;

#[test]
fn traces_runs(rt: HostRuntime) -> Result<(), Fail> {
    assert_all_trace(
        &rt,
        rt.alloc(),
        &[
            // sources are read in order, and run before their reader
            (
                "cell a = 1\ncomputed b = a + 1\ncomputed c = a * 2\ncomputed d = b + c\nget d\nset a 2\nstate b\nstate d\nget d\n",
                "run b (a) = 2\nrun c (a) = 2\nrun d (b c) = 4\nd = 4\nstate b dirty\nstate d checked\nrun b (a) = 3\nrun c (a) = 4\nrun d (b c) = 7\nd = 7\n",
            ),
            // a run that changes nothing runs no reader
            (
                "cell a = 5\ncomputed big = a > 10\ncomputed say = if big then 1 else 2\nget say\nset a 6\nget say\n",
                "run big (a) = false\nrun say (big) = 2\nsay = 2\nrun big (a) = false\nsay = 2\n",
            ),
            // a branch switches its source
            (
                "cell s = true\ncell p = 1\ncell q = 2\ncomputed x = if s then p else q\nget x\nset q 3\nstate x\nset s false\nstate x\nget x\nsources x\n",
                "run x (s p) = 1\nx = 1\nstate x clean\nstate x dirty\nrun x (s q) = 3\nx = 3\nsources x s q\n",
            ),
            // what is read no more stays dirty
            (
                "cell s = true\ncell b = 1\ncomputed c2 = b * 10\ncomputed x = if s then c2 else 0\nget x\nset b 2\nset s false\nget x\nstate c2\n",
                "run c2 (b) = 10\nrun x (s c2) = 10\nx = 10\nrun x (s) = 0\nx = 0\nstate c2 dirty\n",
            ),
        ],
    )
}

#[test]
fn traces_cycles(rt: HostRuntime) -> Result<(), Fail> {
    assert_all_trace(
        &rt,
        rt.alloc(),
        &[
            // a cycle comes and goes with rewirings
            (
                "computed y = 5\ncomputed x = y\nget x\nrewire y = x\nget x\nrewire y = 1\nget x\nget y\n",
                "run y () = 5\nrun x (y) = 5\nx = 5\nrun y (x) ! cycle\nrun x (y) ! cycle\nx ! cycle\nrun y () = 1\nrun x (y) = 1\nx = 1\ny = 1\n",
            ),
            // a kept cycle holds as long as nothing changes at all
            (
                "cell u = 0\ncomputed y = 5\ncomputed x = y\nrewire y = x\nget x\nget y\nset u 1\nget y\n",
                "run y (x) ! cycle\nrun x (y) ! cycle\nx ! cycle\ny ! cycle\nrun x (y) ! cycle\nrun y (x) ! cycle\ny ! cycle\n",
            ),
            // a source that is being evaluated counts as changed
            (
                "computed c = 1\ncomputed b = c\ncomputed a = b\nget a\nrewire c = a\nget b\n",
                "run c () = 1\nrun b (c) = 1\nrun a (b) = 1\na = 1\nrun a (b) ! cycle\nrun c (a) ! cycle\nrun b (c) ! cycle\nb ! cycle\n",
            ),
        ],
    )
}

#[test]
fn traces_pages(rt: HostRuntime) -> Result<(), Fail> {
    assert_all_trace(
        &rt,
        rt.alloc(),
        &[
            // what is disposed is gone, and its readers find out when they are asked
            (
                "cell a = 1\ncomputed b = a\ntemplate t\ntext b\nend\nmount p t\ndispose a\nflush\nget b\ndispose t\ndispose a\n",
                "run b (a) = 1\nop p insert 0 0 (1 \"1\")\npage p 1\n1\ngone a\nrun b (a) ! gone\nop p text 1 \"#ERR gone\"\npage p 9\n#ERR gone\nb ! gone\nerror 4 t\nerror 6 a\n",
            ),
            // what a page reads is settled at a flush, page by page, and a line that reads nothing changed stays
            (
                "cell a = 1\ncell b = 2\ncomputed c = a + 1\ntemplate s\ntext c\ntext b\nend\ntemplate t\ntext c\ntext a\ntext \"x\"\nend\nmount p s\nmount q t\nflush\nset b 3\nflush\nset a 2\nset a 1\nflush\nset a 5\nflush\nshow q\n",
                "run c (a) = 2\nop p insert 0 0 (1 \"2\")\nop p insert 0 1 (2 \"2\")\npage p 2\n22\nop q insert 0 0 (1 \"2\")\nop q insert 0 1 (2 \"1\")\nop q insert 0 2 (3 \"x\")\npage q 3\n21x\nop p text 2 \"3\"\npage p 2\n23\nrun c (a) = 2\nrun c (a) = 6\nop p text 1 \"6\"\npage p 2\n63\nop q text 1 \"6\"\nop q text 2 \"5\"\npage q 3\n65x\npage q 3\n65x\n",
            ),
            // a page whose bytes are as before is not told
            (
                "cell a = 1\ncomputed b = a > 0\ntemplate t\ntext b\nend\nmount p t\nset a 2\nflush\nset a 2\nflush\nset a -1\nflush\n",
                "run b (a) = true\nop p insert 0 0 (1 \"true\")\npage p 4\ntrue\nrun b (a) = true\nrun b (a) = false\nop p text 1 \"false\"\npage p 5\nfalse\n",
            ),
        ],
    )
}

#[test]
fn refuses_what_is_gone(rt: HostRuntime) -> Result<(), Fail> {
    let script =
        "cell a = 1\ncell b = 2\ncomputed c = a + b\ncomputed d = a\ntemplate t\ntext c\nend\nmount p t\ndispose d\nget d\nstate d\nstate a\nsources zz\nsources t\nrewire d = 1\nrewire a = 1\nrewire c = d\nrewire c = zz + d\ncomputed e = d + zz\ncomputed e = t\ndispose t\ndispose zz\ndispose a\ndispose a\nset a 2\ntext a\ntemplate u\ntext a\nend\nget c\nsources c\nstate c\nset b 3\nstate c\nflush\nrewire c = b * 2\nstate c\nflush\nshow p\ncell a = 5\n";
    let output =
        "run c (a b) = 3\nop p insert 0 0 (1 \"3\")\npage p 1\n3\ngone d\nerror 6 d\nerror 6 d\nerror 4 a\nerror 2 zz\nerror 4 t\nerror 6 d\nerror 4 a\nerror 6 d\nerror 2 zz\nerror 6 d\nerror 4 t\nerror 4 t\nerror 2 zz\ngone a\nerror 6 a\nerror 6 a\nerror 1 26\nerror 6 a\nrun c (a) ! gone\nc ! gone\nsources c a\nstate c clean\nstate c clean\nop p text 1 \"#ERR gone\"\npage p 9\n#ERR gone\nstate c dirty\nrun c (b) = 6\nop p text 1 \"6\"\npage p 1\n6\npage p 1\n6\nerror 3 a\n";
    assert_traces(&rt, rt.alloc(), script, output)?;
    let untraced =
        "op p insert 0 0 (1 \"3\")\npage p 1\n3\nerror 6 d\nerror 6 d\nerror 4 a\nerror 2 zz\nerror 4 t\nerror 6 d\nerror 4 a\nerror 6 d\nerror 2 zz\nerror 6 d\nerror 4 t\nerror 4 t\nerror 2 zz\nerror 6 a\nerror 6 a\nerror 1 26\nerror 6 a\nc ! gone\nsources c a\nstate c clean\nstate c clean\nop p text 1 \"#ERR gone\"\npage p 9\n#ERR gone\nstate c dirty\nop p text 1 \"6\"\npage p 1\n6\npage p 1\n6\nerror 3 a\n";
    assert_prints(&rt, rt.alloc(), script, untraced)
}

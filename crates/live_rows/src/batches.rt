// Batches: changes that are told together, or given back.

use crate::rows::{assert_all_print, assert_all_trace};
use std::test::Fail;

#[test]
fn tells_a_batch_together(rt: HostRuntime) -> Result<(), Fail> {
    assert_all_print(
        &rt,
        rt.alloc(),
        &[
            // one telling of two changes; what came back is told to nobody, and neither is what is given back
            (
                "cell a = 10 equals 1\ncell b = 1\ncomputed c = a + b\nwatcher w\nwatch w c\nget c\nbegin\nset a 20\nset b 2\nget c\nflush\nbegin\ncommit\ncommit\nwatch w\nbegin\nset a 30\nset a 20\ncommit\nbegin\nset b 9\nget c\nabort\nget b\nget c\n",
                "c = 11\nc = 22\nerror 22\nerror 22\nnotify w\nerror 23\nc = 29\nb = 2\nc = 22\n",
            ),
            // what a batch came to is judged by the cell's rule; its changes stand where a try is refused
            (
                "cell a = 10 equals 1\nwatcher v tries get a\nwatch v a\nbegin\nset a 20\nset a 12\ncommit\nget a\nbegin\nset a 18\ncommit\nget a\n",
                "a = 12\nnotify v\nerror 14 v\na = 18\n",
            ),
            // each watcher once, in the order of making, and those whose tries were refused behind them
            (
                "cell a = 1\ncell b = 2\ncomputed c = a * b\nget c\nwatcher u tries get a\nwatcher v\nwatcher w tries set a 1\nwatcher x\nwatch x c a b\nwatch w b\nwatch v a\nwatch u c\nbegin\nset b 5\nset a 7\ncommit\nget c\nset a 8\n",
                "c = 2\nnotify u\nnotify v\nnotify w\nnotify x\nerror 14 u w\nc = 35\n",
            ),
            // batches in which nothing is changed, and one that is open at the end
            (
                "cell a = 1\nwatcher w\nwatch w a\nbegin\ncommit\nbegin\nset a 1\nabort\nbegin\nset a 1\ncommit\nbegin\nset a 2\nget a\n",
                "a = 2\n",
            ),
            // rows that come back are told to nobody
            (
                "list l (t)\ninsert l 0 \"a\" (1)\ncomputed n = sum(l, it.t)\nget n\nwatcher w\nwatch w n\nbegin\ninsert l 1 \"b\" (2)\nget n\nremove l \"b\"\ncommit\nbegin\nput l \"a\" t 5\nput l \"a\" t 5\ncommit\nget n\n",
                "n = 1\nn = 3\nnotify w\nn = 5\n",
            ),
        ],
    )
}

#[test]
fn gives_back_what_was(rt: HostRuntime) -> Result<(), Fail> {
    assert_all_print(
        &rt,
        rt.alloc(),
        &[
            // values are compared, and not by the rule
            (
                "cell a = 10 equals 1\ncell b = 1 equals 1\nbegin\nset a 20\nset a 12\nset b 3\nset b 7\nget a\nget b\nabort\nget a\nget b\n",
                "a = 12\nb = 7\na = 10\nb = 1\n",
            ),
            // all that was done to rows, of several lists
            (
                "list l (t)\ninsert l 0 \"a\" (1)\nlist m (u)\nwatcher w\nwatch w l m\nbegin\nput l \"a\" t 9\ninsert m 0 \"k\" (0)\ninsert l 0 \"z\" (4)\nmove l \"a\" 0\nget l\nget m\nabort\nget l\nget m\nbegin\nabort\nput l \"a\" t 2\n",
                "l = [\"a\" (9), \"z\" (4)]\nm = [\"k\" (0)]\nl = [\"a\" (1)]\nm = []\nnotify w\n",
            ),
        ],
    )
}

#[test]
fn refuses_what_no_batch_does(rt: HostRuntime) -> Result<(), Fail> {
    assert_all_print(
        &rt,
        rt.alloc(),
        &[
            // what is wrong with the text comes before it, and what is wrong with names after it
            (
                "begin\nset\nlog 1\nlist l (a, b, c, d, e, f, g, h, i)\ntemplate t\ntext untrack(a)\nend\ntemplate u\ntext a\nend\nget a\ncell a = 1\nset a 1\nwatch w a\ndispose a\nrewire a = 1\nabort\ncell a = 1\nabort\n",
                "error 1 2\nerror 1 3\nerror 5 fields\nerror 15 6\nerror 22\nerror 2 a\nerror 22\nerror 2 a\nerror 22\nerror 22\nerror 22\nerror 23\n",
            ),
            // what shows something is done, and what makes something isn't
            (
                "cell a = 1\ncomputed c = a + 1\nwatcher w\nwatch w c\ntemplate t\ntext c\nend\nmount p t\nbegin\nset a 2\nstate c\nsources c\npending w\nshow p\nmount q t\nscratch p\nstate c\neffect e\nlog a\nend\nowner o\nwatch w\nunwatch w c\nwatcher v\nlist l (t)\ncomputed d = a\nflush\nabort\nstate c\nflush\nshow q\n",
                "op p insert 0 0 (1 \"2\")\npage p 1\n2\nstate c dirty\nsources c a\npending w c\npage p 1\n2\nerror 22\nscratch p 1\n3\nstate c clean\nerror 22\nerror 22\nerror 22\nerror 22\nerror 22\nerror 22\nerror 22\nerror 22\nstate c dirty\nerror 2 q\n",
            ),
            // what is done is refused as ever
            (
                "cell a = 1\nwatcher w\ndispose a\nlist l (t)\nbegin\nset a 1\nset w 1\nset z 1\nremove l \"k\"\nput l \"k\" u 1\ninsert l 1 \"k\" (1)\npending a\nshow w\ncommit\ncommit\nabort\n",
                "error 6 a\nerror 4 w\nerror 2 z\nerror 10 \"k\"\nerror 10 \"k\"\nerror 11 1\nerror 6 a\nerror 4 w\nerror 23\nerror 23\n",
            ),
        ],
    )
}

#[test]
fn traces_batches(rt: HostRuntime) -> Result<(), Fail> {
    assert_all_trace(
        &rt,
        rt.alloc(),
        &[
            // a value that was set and set back has changed twice, and once more where an abort gives it back
            (
                "cell a = 1\ncomputed b = a + 1\ncomputed c = b * 2\nget c\nbegin\nset a 2\nget c\nset a 1\nstate c\nget c\nset a 3\nabort\nstate c\nget c\nflush\n",
                "run b (a) = 2\nrun c (b) = 4\nc = 4\nrun b (a) = 3\nrun c (b) = 6\nc = 6\nstate c checked\nrun b (a) = 2\nrun c (b) = 4\nc = 4\nstate c checked\nrun b (a) = 2\nc = 4\n",
            ),
            // what holds `cycle` runs anew where anything was given back, and not where nothing was
            (
                "cell a = 1\ncomputed x = 1\ncomputed y = x\nrewire x = y\nget x\nbegin\nget x\nset a 2\nget x\nset a 1\nget x\nabort\nget x\nbegin\nset a 2\nget x\nabort\nget x\n",
                "run y (x) ! cycle\nrun x (y) ! cycle\nx ! cycle\nx ! cycle\nrun y (x) ! cycle\nrun x (y) ! cycle\nx ! cycle\nrun y (x) ! cycle\nrun x (y) ! cycle\nx ! cycle\nx ! cycle\nrun y (x) ! cycle\nrun x (y) ! cycle\nx ! cycle\nrun y (x) ! cycle\nrun x (y) ! cycle\nx ! cycle\n",
            ),
        ],
    )
}

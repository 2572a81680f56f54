// Journals: why a computed ran.

use crate::rows::assert_all_print;
use std::test::Fail;

#[test]
fn leads_back_to_what_was_done(rt: HostRuntime) -> Result<(), Fail> {
    assert_all_print(
        &rt,
        rt.alloc(),
        &[
            // a set, and a rewiring
            (
                "record\ncell a = 1\ncomputed b = a + 1\ncomputed d = b * 2\nget d\nset a 5\nget d\nwhy d\nwhy b\nrewire b = 3\nget d\nwhy d\n",
                "d = 4\nd = 12\nwhy d 5 changed b 4\nwhy b 4 changed a 3\nwhy b 4 changed a 3\nd = 6\nwhy d 8 changed b 7\nwhy b 7 rewired 6\n",
            ),
            // a cycle that is closed by a rewiring, and stays
            (
                "record\ncell a = 1\ncomputed first = 1\ncomputed second = first + 1\ncomputed third = second + 1\nget third\nrewire first = third\nget second\nwhy second\nwhy third\nwhy first\nset a 2\nget second\nwhy second\nwhy third\n",
                "third = 3\nsecond ! cycle\nwhy second 7 changed first 6\nwhy first 6 rewired 4\nwhy third 5 evaluating\nwhy first 6 rewired 4\nsecond ! cycle\nwhy second 11 cycle\nwhy third 9 cycle\n",
            ),
            // a value that is given back, and a change that is committed
            (
                "record\ncell a = 1\ncomputed b = a\nget b\nbegin\nset a 2\nabort\nget b\nwhy b\nbegin\nset a 7\nset a 7\ncommit\nget b\nwhy b\n",
                "b = 1\nb = 1\nwhy b 4 changed a 3\nb = 7\nwhy b 6 changed a 5\n",
            ),
            // an edit of rows, and a set by an effect
            (
                "record\nlist l (t)\ncomputed n = sum(l, it.t)\ncell c = 0\neffect e\nset c n\nend\ncomputed d = c + 1\nget d\ninsert l 0 \"x\" (4)\nflush\nget d\nwhy d\nwhy n\n",
                "d = 1\nd = 5\nwhy d 5 changed c 4\nwhy n 3 first\n",
            ),
        ],
    )
}

#[test]
fn notes_the_runs_of_pages(rt: HostRuntime) -> Result<(), Fail> {
    assert_all_print(
        &rt,
        rt.alloc(),
        &[
            // a mount, a flush, a page from scratch, and a disposal
            (
                "record\ncell a = 1\ncomputed b = a + 1\ntemplate t\ntext b\nend\nmount p t\nwhy b\nset a 2\nflush\nwhy b\nset a 3\nscratch p\nwhy b\ndispose a\nflush\nwhy b\n",
                "op p insert 0 0 (1 \"2\")\npage p 1\n2\nwhy b 1 first\nop p text 1 \"3\"\npage p 1\n3\nwhy b 3 changed a 2\nscratch p 1\n4\nwhy b 5 changed a 4\nop p text 1 \"#ERR gone\"\npage p 9\n#ERR gone\nwhy b 7 changed a 6\n",
            ),
        ],
    )
}

#[test]
fn refuses_journals(rt: HostRuntime) -> Result<(), Fail> {
    assert_all_print(
        &rt,
        rt.alloc(),
        &[
            // after a cell was made, and what has never run
            (
                "cell a = 1\nrecord\ncomputed b = a\nwhy b\n",
                "error 26\nerror 27 b\n",
            ),
            // only once, and what is gone
            (
                "owner o\nwatcher w\neffect e\nlog 1\nend\nrecord\nrecord\ncell a = 1 in o\ncomputed b = a in o\nget b\ndispose o\nwhy b\nrecord\n",
                "error 26\nb = 1\nerror 6 b\nerror 26\n",
            ),
            // while a batch is open, and what is no computed
            (
                "record\ncell a = 1\ncomputed b = a\nbegin\nrecord\nwhy b\nwhy z\ncommit\nwhy a\nwhy z\n",
                "error 22\nerror 22\nerror 22\nerror 4 a\nerror 2 z\n",
            ),
        ],
    )
}

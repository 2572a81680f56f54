// Events on pages: which handlers run as one is fired, and what they do.

use crate::rows::{assert_all_print, assert_all_trace};
use std::test::Fail;

#[test]
fn runs_handlers_from_the_node_outwards(rt: HostRuntime) -> Result<(), Fail> {
    assert_all_print(
        &rt,
        rt.alloc(),
        &[
            // a button in a box: the innermost first, and the page changes with the flush
            (
                "cell n = 0\ntemplate t\ntag @div\ntag @button\ntext n\nend\nend\nend\non t 1 @click\nlog \"outer\"\nend\non t 2 @click\nset n n + 1\nlog n\nend\nmount p t\nfire p 3 @click\nfire p 1 @click\nfire p 9 @click\non t 3 @click\nend\nflush\n",
                "op p insert 0 0 (1 div (2 button (3 \"0\")))\npage p 29\n<div><button>0</button></div>\nlog 0\nlog \"outer\"\nlog \"outer\"\nerror 24 9\nerror 25 3\nop p text 3 \"1\"\npage p 29\n<div><button>1</button></div>\n",
            ),
            // the elements of rows come from one line, and a handler of another template waits elsewhere; a node that is gone has none
            (
                "list l (t)\ninsert l 0 \"k\" (5)\ntemplate t\neach l\ntag @i\ntext it.t\nend\nend\nend\ntemplate u\ntag @i\nend\nend\non t 2 @x\nlog 1\nend\non u 1 @x\nlog 2\nend\nmount p t\nmount q u\nfire p 2 @x\nfire q 1 @x\ninsert l 0 \"j\" (6)\nflush\nfire p 3 @x\nfire p 1 @x\nremove l \"k\"\nflush\nfire p 1 @x\n",
                "op p insert 0 0 (1 i (2 \"5\"))\npage p 8\n<i>5</i>\nop q insert 0 0 (1 i)\npage q 7\n<i></i>\nlog 1\nlog 2\nop p insert 0 0 (3 i (4 \"6\"))\npage p 16\n<i>6</i><i>5</i>\nlog 1\nlog 1\nop p remove 1\npage p 8\n<i>6</i>\nerror 24 1\n",
            ),
        ],
    )
}

#[test]
fn refuses_what_no_handler_has(rt: HostRuntime) -> Result<(), Fail> {
    assert_all_print(
        &rt,
        rt.alloc(),
        &[
            // other statements, reads without tracking, rows, lines that make no element, names, the root, and open batches
            (
                "cell a = 1\ntemplate t\ntag @b\nend\nend\non t 1 @go\ncleanup log 1\nend\non t 1 @go\nlog untrack(a)\nend\non t 1 @go\nlog it.k\nend\non t 1 @go\ndispose a\nend\non t 0 @go\nend\non t 4 @go\nend\non u 1 @go\nend\non t 1 go\nend\nfire p 1 @go\nmount p t\nfire p 0 @go\nfire t 1 @go\nbegin\nfire p 1 @go\non t 1 @go\nend\nabort\nfire p 1 @other\nfire p 1 @go\n",
                "error 1 7\nerror 15 10\nerror 16 13\nerror 1 16\nerror 25 0\nerror 25 4\nerror 2 u\nerror 1 24\nerror 2 p\nop p insert 0 0 (1 b)\npage p 7\n<b></b>\nerror 24 0\nerror 4 t\nerror 22\nerror 22\n",
            ),
        ],
    )
}

#[test]
fn tracks_nothing_that_a_handler_reads(rt: HostRuntime) -> Result<(), Fail> {
    assert_all_trace(
        &rt,
        rt.alloc(),
        &[
            // a handler that fails does nothing, and the next one runs
            (
                "cell n = \"x\"\ntemplate t\ntag @b\nend\nend\non t 1 @go\nset n n + 1\nend\non t 1 @go\nlog n\nend\nmount p t\nfire p 1 @go\n",
                "op p insert 0 0 (1 b)\npage p 7\n<b></b>\nfired p 1\nfail p.1 kind\nfired p 1\nlog \"x\"\n",
            ),
            // what is read is settled first, sets notify, and an effect runs with the next flush alone; what is gone fails, and a page that is gone is refused
            (
                "cell a = 1\ncell b = 0\ncomputed c = a * 2\nwatcher w tries get a\nwatch w c\ntemplate t\ntag @b\nend\nend\non t 1 @go\nset a c\nset b a\nlog c\nend\nmount p t\neffect e\nlog a\nend\nflush\nfire p 1 @go\nget b\nflush\ndispose a\nfire p 1 @go\nfire p 1 @go\ndispose p\nfire p 1 @go\n",
                "op p insert 0 0 (1 b)\npage p 7\n<b></b>\neffect e (a)\nlog 1\nrun c (a) = 2\nfired p 1\nnotify w\nerror 14 w\nlog 2\nb = 1\neffect e (a)\nlog 2\ngone a\nrun c (a) ! gone\nfired p 1\nfail p.1 gone\nfired p 1\nfail p.1 gone\ngone p\nerror 6 p\n",
            ),
        ],
    )
}

// Templates with elements, the operations of their pages, and pages from scratch.

use crate::rows::{assert_all_print, assert_all_trace};
use crate::run::{TODO, TODO_OUTPUT};
use std::test::Fail;

#[test]
fn prints_operations(rt: HostRuntime) -> Result<(), Fail> {
    assert_all_print(
        &rt,
        rt.alloc(),
        &[
            // an element, its attribute and its text
            (
                "cell v = \"a<b>&\\\"c\u{a0}\"\ntemplate t\ntag @p\nattr @title v\ntext v\nend\nend\nmount m t\n",
                "op m insert 0 0 (1 p title=\"a<b>&\\\"c\u{a0}\" (2 \"a<b>&\\\"c\u{a0}\"))\npage m 67\n<p title=\"a&lt;b&gt;&amp;&quot;c&nbsp;\">a&lt;b&gt;&amp;\"c&nbsp;</p>\n",
            ),
            // rows are kept by their keys: removed, moved, inserted, given another text
            (
                "list l (t)\ninsert l 0 \"k1\" (\"A\")\ninsert l 1 \"k2\" (\"B\")\ninsert l 2 \"k3\" (\"C\")\ntemplate t\ntag @ul\neach l\ntag @li\ntext it.t\nend\nend\nend\nend\nmount p t\nmove l \"k3\" 0\nremove l \"k2\"\ninsert l 2 \"k4\" (\"D\")\nput l \"k1\" t \"Z\"\nflush\nremove l \"k1\"\ninsert l 0 \"k1\" (\"Q\")\nflush\n",
                "op p insert 0 0 (1 ul (2 li (3 \"A\")) (4 li (5 \"B\")) (6 li (7 \"C\")))\npage p 39\n<ul><li>A</li><li>B</li><li>C</li></ul>\nop p remove 4\nop p move 6 0\nop p insert 1 2 (8 li (9 \"D\"))\nop p text 3 \"Z\"\npage p 39\n<ul><li>C</li><li>Z</li><li>D</li></ul>\nop p move 2 0\nop p text 3 \"Q\"\npage p 39\n<ul><li>Q</li><li>C</li><li>D</li></ul>\n",
            ),
            // branches and an attribute that goes
            (
                "cell c = true\ncell d = true\ntemplate t\nif c\ntext \"yes\"\nelse\ntext \"no\"\nend\ntag @input\nattr @disabled d\nend\nend\nmount p t\nset c false\nset c true\nflush\nset d false\nflush\n",
                "op p insert 0 0 (1 \"yes\")\nop p insert 0 1 (2 input disabled=\"\")\npage p 22\nyes<input disabled=\"\">\nop p unattr 2 disabled\npage p 10\nyes<input>\n",
            ),
            // attributes of one element in order of the template, and texts of numbers
            (
                "cell a = true\ncell b = \"x\"\ncell n = 1\ntemplate t\ntag @p\nattr @hidden a\nattr @class b\nattr @data-n n\ntext n\ntag @br\nend\nend\nend\nmount p t\nset a false\nset b \"y&\\\"<\"\nflush\nset a \"z\"\nset n 1\nflush\nset n 2\nset b 1\nflush\n",
                "op p insert 0 0 (1 p hidden=\"\" class=\"x\" data-n=\"1\" (2 \"1\") (3 br))\npage p 43\n<p hidden=\"\" class=\"x\" data-n=\"1\">1<br></p>\nop p unattr 1 hidden\nop p attr 1 0 class \"y&\\\"<\"\npage p 48\n<p class=\"y&amp;&quot;&lt;\" data-n=\"1\">1<br></p>\nop p attr 1 0 hidden \"z\"\npage p 59\n<p hidden=\"z\" class=\"y&amp;&quot;&lt;\" data-n=\"1\">1<br></p>\nop p attr 1 1 class \"1\"\nop p attr 1 2 data-n \"2\"\nop p text 2 \"2\"\npage p 44\n<p hidden=\"z\" class=\"1\" data-n=\"2\">2<br></p>\n",
            ),
        ],
    )
}

#[test]
fn prints_pages_of_rows(rt: HostRuntime) -> Result<(), Fail> {
    assert_all_print(
        &rt,
        rt.alloc(),
        &[
            // two pages of one template, one of which ends with its owner
            (TODO, TODO_OUTPUT),
        ],
    )
}

#[test]
fn prints_rows_of_pages(rt: HostRuntime) -> Result<(), Fail> {
    assert_all_print(
        &rt,
        rt.alloc(),
        &[
            // a row of several nodes moves whole, and one of none says nothing
            (
                "list l (t, s)\ninsert l 0 \"a\" (\"A\", true)\ninsert l 1 \"b\" (\"B\", false)\ninsert l 2 \"c\" (\"C\", true)\ntemplate t\neach l\ntext it.key\nif it.s\ntag @b\ntext it.t\nend\nend\nend\nend\nmount p t\nmove l \"c\" 0\nput l \"b\" s true\nflush\nput l \"a\" s false\nremove l \"c\"\nflush\nshow p\n",
                "op p insert 0 0 (1 \"a\")\nop p insert 0 1 (2 b (3 \"A\"))\nop p insert 0 2 (4 \"b\")\nop p insert 0 3 (5 \"c\")\nop p insert 0 4 (6 b (7 \"C\"))\npage p 19\na<b>A</b>bc<b>C</b>\nop p move 5 0\nop p move 6 1\nop p insert 0 5 (8 b (9 \"B\"))\npage p 27\nc<b>C</b>a<b>A</b>b<b>B</b>\nop p remove 2\nop p remove 5\nop p remove 6\npage p 10\nab<b>B</b>\npage p 10\nab<b>B</b>\n",
            ),
            // what a row shows follows cells too; a list that is gone, and one that is no list
            (
                "cell c = \"x\"\nlist l (t)\ninsert l 0 \"a\" (1)\ntemplate t\neach l\ntext c ++ it.t\ntext it.u\nend\neach c\ntext 1\nend\nif 1\ntext 2\nend\nend\nmount p t\nset c \"y\"\nflush\ndispose l\nflush\n",
                "op p insert 0 0 (1 \"x1\")\nop p insert 0 1 (2 \"#ERR absent\")\npage p 13\nx1#ERR absent\nop p text 1 \"y1\"\npage p 13\ny1#ERR absent\nop p remove 1\nop p remove 2\npage p 0\n\n",
            ),
        ],
    )
}

#[test]
fn refuses_templates(rt: HostRuntime) -> Result<(), Fail> {
    assert_all_print(
        &rt,
        rt.alloc(),
        &[
            // children of void elements, texts that are raw
            (
                "template b\ntag @br\ntext \"x\"\nend\nend\ntemplate s\ntag @script\ntext \"if (a < b) {}\"\nend\nend\nmount q s\n",
                "error 17 3\nop q insert 0 0 (1 script (2 \"if (a < b) {}\"))\npage q 30\n<script>if (a < b) {}</script>\n",
            ),
            // a line that is none
            (
                "template t\nif 1 ==\nend\nend\nget x\n",
                "error 1 2\nerror 2 x\n",
            ),
            // what may stand nowhere: a faulty line before all, then each of them at its line
            (
                "template t\ntag @script\ntext a\nend\nend\ntemplate t\ntag @style\ntag @b\nend\nend\nend\ntemplate t\ntext it.a\nend\ntemplate t\neach a\neach b\nend\nend\nend\ntemplate t\ntag @br\nfoo\nend\nend\ntemplate t\nattr @id 1\nend\ntemplate t\nelse\nend\nend\ntemplate t\ntag @p\n",
                "error 18 3\nerror 18 8\nerror 16 13\nerror 19 17\nerror 1 23\nerror 1 27\nerror 1 30\nerror 1 32\nerror 1 33\n",
            ),
            // an element's names: what is made, in the order of the text
            (
                "cell a = 1\ntemplate t\ntag @p\nattr @id b\neach zz\ntext it.key\nend\nend\nend\ntemplate a\ntext zz\nend\ntemplate t\neach t\nend\nend\nwatcher w\ntemplate t\nif w\nend\nend\nmount p t\n",
                "error 2 b\nerror 3 a\nerror 2 t\nerror 4 w\nerror 2 t\n",
            ),
        ],
    )
}

#[test]
fn traces_scratch(rt: HostRuntime) -> Result<(), Fail> {
    assert_all_trace(
        &rt,
        rt.alloc(),
        &[
            // a page from scratch settles what it reads, and tells no change
            (
                "cell a = 5\ncomputed big = a > 10\ntemplate t\ntext big\nend\nmount p t\nset a 6\nflush\nscratch p\n",
                "run big (a) = false\nop p insert 0 0 (1 \"false\")\npage p 5\nfalse\nrun big (a) = false\nscratch p 5\nfalse\n",
            ),
            // branches that are not shown are not read, pages are not touched
            (
                "cell a = 1\ncell s = true\ncomputed b = a + 1\ncomputed c = a * 2\nlist l (n)\ninsert l 0 \"k\" (1)\ntemplate t\nif s\ntext b\nelse\ntext c\nend\neach l\ntag @li\ntext it.n + a\nend\nend\nend\nmount p t\nset a 2\nscratch p\nset s false\nscratch p\nshow p\nflush\nscratch p\nscratch t\nscratch zz\ndispose p\nscratch p\n",
                "run b (a) = 2\nop p insert 0 0 (1 \"2\")\nop p insert 0 1 (2 li (3 \"2\"))\npage p 11\n2<li>2</li>\nrun b (a) = 3\nscratch p 11\n3<li>3</li>\nrun c (a) = 4\nscratch p 11\n4<li>3</li>\npage p 11\n2<li>2</li>\nop p remove 1\nop p insert 0 0 (4 \"4\")\nop p text 3 \"3\"\npage p 11\n4<li>3</li>\nscratch p 11\n4<li>3</li>\nerror 4 t\nerror 2 zz\ngone p\nerror 6 p\n",
            ),
        ],
    )
}

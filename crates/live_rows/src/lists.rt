// Lists, the edits of their rows, and formulas over rows.

use crate::rows::{assert_all_print, assert_all_trace};
use std::test::Fail;

#[test]
fn prints_rows(rt: HostRuntime) -> Result<(), Fail> {
    assert_all_print(
        &rt,
        rt.alloc(),
        &[
            // sums, counts and a moved row
            (
                "list l (n)\ninsert l 0 \"a\" (9223372036854775807)\ninsert l 1 \"b\" (1)\ncomputed s = sum(l, it.n)\ncomputed k = count(keep(l, it.key == \"b\"))\nget s\nget k\nmove l \"b\" 1\nmove l \"b\" 2\nput l \"a\" n 4\nget s\nget l\n",
                "s ! overflow\nk = 1\nerror 11 2\ns = 5\nl = [\"a\" (4), \"b\" (1)]\n",
            ),
            // each refusal of an edit, the first cause
            (
                "cell a = 1\ncell a = 2\nget zz\nlist l (t)\nset l 1\ninsert l 1 \"k\" (\"x\")\ninsert l 0 \"k\" (\"x\", \"y\")\ninsert l 0 \"k\" (\"x\")\ninsert l 0 \"k\" (\"y\")\nremove l \"m\"\nput l \"k\" u 1\ncomputed c = it.t\ncomputed c = untrack(a)\nwatcher w\nunwatch w a\ndispose a\nget a\ncell b = 1 equals 9\ncomputed c = host 99 ()\nget l\nget\n",
                "error 3 a\nerror 2 zz\nerror 4 l\nerror 11 1\nerror 12 2\nerror 9 \"k\"\nerror 10 \"m\"\nerror 12 u\nerror 16 12\nerror 15 13\nerror 13 a\nerror 6 a\nerror 21 9\nerror 7 99\nl = [\"k\" (\"x\")]\nerror 1 21\n",
            ),
            // faults of formulas
            (
                "cell a = 0\ncell t = true\ncell lo = 9\ncell hi = 1\nlist l (x)\ninsert l 0 \"k\" (1)\ncomputed z = 1 / a\ncomputed k = a + t\ncomputed m = count(keep(l, it.y))\ncomputed s = host 0 (t)\ncomputed r = host 2 (a, lo, hi)\nget z\nget k\nget m\nget s\nget r\ndispose a\nget z\n",
                "z ! zero\nk ! kind\nm ! absent\ns ! slot\nr ! host 2\nz ! gone\n",
            ),
            // a row is moved before, behind and onto itself; a place past the end is refused, also the largest
            (
                "list l (t)\ninsert l 0 \"a\" (1)\ninsert l 1 \"b\" (2)\ninsert l 1 \"c\" (3)\nget l\nmove l \"a\" 2\nget l\nmove l \"b\" 0\nmove l \"c\" 1\nget l\nmove l \"c\" 3\ninsert l 9223372036854775807 \"d\" (4)\nmove l \"z\" 9\nremove l \"c\"\nremove l \"c\"\nget l\n",
                "l = [\"a\" (1), \"c\" (3), \"b\" (2)]\nl = [\"c\" (3), \"b\" (2), \"a\" (1)]\nl = [\"b\" (2), \"c\" (3), \"a\" (1)]\nerror 11 3\nerror 11 9223372036854775807\nerror 10 \"z\"\nerror 10 \"c\"\nl = [\"b\" (2), \"a\" (1)]\n",
            ),
        ],
    )
}

#[test]
fn refuses_edits(rt: HostRuntime) -> Result<(), Fail> {
    assert_all_print(
        &rt,
        rt.alloc(),
        &[
            // a list's fields are distinct, and none is the key; such a line comes before all else
            (
                "list l (a, a)\nlist l (key)\nlist l ()\nget l\ninsert l 0 \"k\" ()\nget l\nput l \"k\" key 1\nlist zz (a, key)\nput zz \"k\" key 1\n",
                "error 1 1\nerror 1 2\nl = []\nl = [\"k\" ()]\nerror 1 7\nerror 1 8\nerror 1 9\n",
            ),
            // names come before rows, kinds too, and what is gone
            (
                "cell c = 1\nlist c (t)\nlist l (t) in c\nlist l (t)\ninsert c 0 \"k\" (1)\ninsert zz 0 \"k\" (1)\nremove c \"k\"\nmove zz \"k\" 0\nput c \"k\" t 1\ncomputed d = l\nput d \"k\" t 1\nset l 1\nrewire l = 1\ndispose l\ninsert l 0 \"k\" (1)\nremove l \"k\"\nget l\nget d\n",
                "error 3 c\nerror 4 c\nerror 4 c\nerror 2 zz\nerror 4 c\nerror 2 zz\nerror 4 c\nerror 4 d\nerror 4 l\nerror 4 l\nerror 6 l\nerror 6 l\nerror 6 l\nd ! gone\n",
            ),
            // an insertion: a key that stands there, then the place, then the number of values
            (
                "list l (t, u)\ninsert l 1 \"k\" (1)\ninsert l 0 \"k\" (1)\ninsert l 0 \"k\" (1, 2)\ninsert l 9 \"k\" (1)\nput l \"m\" u 1\nput l \"k\" v 1\nput l \"k\" u \"x\"\nmove l \"m\" 7\nmove l \"k\" 1\nget l\n",
                "error 11 1\nerror 12 1\nerror 9 \"k\"\nerror 10 \"m\"\nerror 12 v\nerror 10 \"m\"\nerror 11 1\nl = [\"k\" (1, \"x\")]\n",
            ),
            // what the grammar of rows leaves out
            (
                "list l\nlist l (t\ninsert l 0 k (1)\ninsert l -1 \"k\" (1)\ninsert l 0 \"k\" (1,)\nremove l k\nmove l \"k\" -1\nput l \"k\" t\nput l \"k\" \"t\" 1\nlist l (t,)\nscratch\n",
                "error 1 1\nerror 1 2\nerror 1 3\nerror 1 4\nerror 1 5\nerror 1 6\nerror 1 7\nerror 1 8\nerror 1 9\nerror 1 10\nerror 1 11\n",
            ),
        ],
    )
}

#[test]
fn traces_rows(rt: HostRuntime) -> Result<(), Fail> {
    assert_all_trace(
        &rt,
        rt.alloc(),
        &[
            // an edit tells watchers and makes readers run, one that changes nothing tells nobody
            (
                "list l (n)\ninsert l 0 \"a\" (1)\ncomputed s = sum(l, it.n)\ncomputed k = count(keep(l, it.n > 1))\nwatcher w\nwatch w s\nget s\nget k\nput l \"a\" n 1\nstate s\nput l \"a\" n 2\nstate s\nget s\nget k\nmove l \"a\" 0\nstate s\ninsert l 1 \"b\" (5)\nget s\ndispose l\nget s\n",
                "run s (l) = 1\ns = 1\nrun k (l) = 0\nk = 0\nstate s clean\nnotify w\nstate s dirty\nrun s (l) = 2\ns = 2\nrun k (l) = 1\nk = 1\nstate s clean\nrun s (l) = 7\ns = 7\ngone l\nrun s (l) ! gone\ns ! gone\n",
            ),
            // an effect reads a list, and what is kept of it is a value
            (
                "list l (n)\ninsert l 0 \"a\" (1)\ninsert l 1 \"b\" (2)\ncomputed few = keep(l, it.n > 1)\neffect e\nlog count(few)\nlog few\nend\nflush\nput l \"b\" n 3\nflush\nremove l \"b\"\nflush\nget few\n",
                "run few (l) = [\"b\" (2)]\neffect e (few)\nlog 1\nlog [\"b\" (2)]\nrun few (l) = [\"b\" (3)]\neffect e (few)\nlog 1\nlog [\"b\" (3)]\nrun few (l) = []\neffect e (few)\nlog 0\nlog []\nfew = []\n",
            ),
        ],
    )
}

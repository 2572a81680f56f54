// Watchers and equality rules: who is told of a change, and what counts as one.

use crate::rows::{assert_all_print, assert_prints};
use std::test::Fail;

#[test]
fn tells_watchers(rt: HostRuntime) -> Result<(), Fail> {
    assert_all_print(
        &rt,
        rt.alloc(),
        &[
            // each once, until it is armed again; a try is refused, and what never ran is reached by nothing
            (
                "cell a = 1\ncomputed b = a + 1\ncomputed never = a * 3\nwatcher w\nwatcher v tries get a\nwatcher n\nwatch w b\nwatch v a\nwatch n never\nget b\nset a 2\nset a 3\nwatch w\nset a 4\npending w\npending n\nget a\n",
                "b = 2\nnotify w\nnotify v\nerror 14 v\nnotify w\npending w b\npending n never\na = 4\n",
            ),
            // all that were told, in the order of making, before those whose tries were refused
            (
                "cell a = 1\nwatcher u tries set zz 1\nwatcher v\nwatcher w tries unwatch u zz\nwatch w a\nwatch v a\nwatch u a\nset a 2\nget a\n",
                "notify u\nnotify v\nnotify w\nerror 14 u w\na = 2\n",
            ),
            // what is watched twice is watched once, what is disposed isn't; a rewiring tells nobody, and its sources are kept until the next run
            (
                "cell a = 1\ncomputed b = a\ncomputed c = b\nget c\nwatcher w\nwatch w c b c a\npending w\nset a 2\npending w\nunwatch w a\nunwatch w a\nrewire b = 3\ndispose c\npending w\nwatch w\nset a 3\nset a 4\n",
                "c = 1\npending w\nnotify w\npending w c b\nerror 13 a\npending w b\nnotify w\n",
            ),
            (
                "cell t = \"x\" equals 1\nset t 3\nget t\nset t 8\nget t\ncell u = 1 equals 2\nwatcher w\nwatch w t t\ndispose t\nwatch w\npending w\nunwatch w t\ndispose w\npending w\n",
                "t = 3\nt = 3\nerror 21 2\npending w\nerror 6 t\nerror 6 w\n",
            ),
        ],
    )
}

#[test]
fn judges_sets_by_rules(rt: HostRuntime) -> Result<(), Fail> {
    assert_all_print(
        &rt,
        rt.alloc(),
        &[
            (
                "cell a = 10 equals 1\nwatcher w\nwatch w a\nset a 15\nget a\nset a 16\nget a\n",
                "a = 10\nnotify w\na = 16\n",
            ),
            // rule 0 is that of a cell without a rule; a rule speaks of numbers alone
            (
                "cell a = 1 equals 0\nset a 2\nget a\ncell b = \"x\" equals 1\nset b \"y\"\nget b\nset b 7\nset b true\nget b\n",
                "a = 2\nb = \"y\"\nb = true\n",
            ),
            // names come before rules, and rules before limits
            (
                "cell a = 1\ncell a = 1 equals 9\ncell b = 1 equals 9\ncell b = 1 equals -1\ndispose a\nget a\n",
                "error 3 a\nerror 21 9\nerror 1 4\nerror 6 a\n",
            ),
        ],
    )
}

#[test]
fn refuses_what_no_watcher_is(rt: HostRuntime) -> Result<(), Fail> {
    assert_prints(
        &rt,
        rt.alloc(),
        "cell a = 1\nwatcher w\nwatcher w\nwatcher a\nwatch a a\nwatch w w\nwatch w zz\nwatch zz a\nget w\nset w 1\nstate w\npending a\nunwatch w zz\nunwatch w a\ncomputed c = w\nwatcher v tries flush\nwatcher v tries get\ndispose w\nwatch w a\n",
        "error 3 w\nerror 3 a\nerror 4 a\nerror 4 w\nerror 2 zz\nerror 2 zz\nerror 4 w\nerror 4 w\nerror 4 w\nerror 4 a\nerror 2 zz\nerror 13 a\nerror 4 w\nerror 1 16\nerror 1 17\nerror 6 w\n",
    )
}

// Owners and effects: what runs, what is taken back, and what is refused.

use crate::rows::{assert_all_print, assert_all_trace};
use std::test::Fail;

// What an effect made is taken back.
#[test]
fn traces_taking_back(rt: HostRuntime) -> Result<(), Fail> {
    assert_all_trace(
        &rt,
        rt.alloc(),
        &[
            // a run takes back what the one before noted and made, the last first
            (
                "cell a = 1\neffect e\ncleanup log \"first\"\neffect\ncleanup log a\nlog \"child\"\nend\ncleanup log \"last\"\nlog a\nend\nflush\nset a 2\nflush\ndispose e\n",
                "effect e (a)\nlog 1\neffect e.1 (a)\nlog \"child\"\ncleanup e\nlog \"last\"\ncleanup e.1\nlog 1\ngone e.1\ncleanup e\nlog \"first\"\neffect e (a)\nlog 2\neffect e.1 (a)\nlog \"child\"\ncleanup e\nlog \"last\"\ncleanup e.1\nlog 2\ngone e.1\ncleanup e\nlog \"first\"\ngone e\n",
            ),
            // what an owner owns ends with it, the last made first
            (
                "owner o\ncell a = 1 in o\ncomputed b = a in o\neffect e in o\ncleanup log 9\nend\nflush\ndispose o\n",
                "effect e ()\ncleanup e\nlog 9\ngone e\ngone b\ngone a\ngone o\n",
            ),
            // an effect inside an owner, and what it read
            (
                "owner o\ncell a = 1 in o\ncomputed b = a in o\neffect e in o\nlog b\nend\nflush\ndispose o\n",
                "run b (a) = 1\neffect e (b)\nlog 1\ngone e\ngone b\ngone a\ngone o\n",
            ),
        ],
    )
}

// Which effects run.
#[test]
fn traces_turns(rt: HostRuntime) -> Result<(), Fail> {
    assert_all_trace(
        &rt,
        rt.alloc(),
        &[
            // a value that is as before runs no effect
            (
                "cell a = 1\ncomputed b = a + 1\neffect e\nlog a + b\nend\nflush\nset a 2\nset a 1\nflush\n",
                "run b (a) = 2\neffect e (a b)\nlog 3\nrun b (a) = 2\n",
            ),
            // a child that disposes of its parent
            (
                "cell a = 1\neffect e\neffect\ndispose e\nlog 5\nend\nlog a\nend\nflush\nflush\n",
                "effect e (a)\nlog 1\neffect e.1 ()\ngone e.1\ngone e\n",
            ),
            // a child has its number among those of one run, and a nested one its parent's before
            (
                "cell a = 1\neffect e\neffect\nlog 1\neffect\nlog a\nend\nend\neffect\nlog 2\nend\nlog a\nend\nflush\nset a 2\nflush\n",
                "effect e (a)\nlog 1\neffect e.1 ()\nlog 1\neffect e.2 ()\nlog 2\neffect e.1.1 (a)\nlog 1\ngone e.2\ngone e.1.1\ngone e.1\neffect e (a)\nlog 2\neffect e.1 ()\nlog 1\neffect e.2 ()\nlog 2\neffect e.1.1 (a)\nlog 2\n",
            ),
            // what is read untracked makes no effect due, and a name that is read twice is told once
            (
                "cell a = 1\ncell b = 1\neffect e\nlog a + untrack(b)\nlog a + a\nend\nflush\nset b 2\nflush\nset a 3\nflush\n",
                "effect e (a)\nlog 2\nlog 2\neffect e (a)\nlog 5\nlog 6\n",
            ),
        ],
    )
}

// What effects print.
#[test]
fn prints_effects(rt: HostRuntime) -> Result<(), Fail> {
    assert_all_print(
        &rt,
        rt.alloc(),
        &[
            // an effect that disposes of itself ends there
            ("effect e\nlog 1\ndispose e\nlog 2\nend\nflush\n", "log 1\n"),
            // an effect that was disposed earlier in the turn doesn't run
            (
                "cell a = 0\nowner o\neffect one\nwhen a > 0\ndispose o\nend\nend\neffect two in o\nlog a\nend\nflush\nset a 1\nflush\n",
                "log 0\n",
            ),
            // an untracked read is of the value of then
            (
                "cell a = 1\ncell b = 2\neffect e\nlog untrack(a) ++ b\nend\nflush\nset a 5\nflush\nset b 3\nflush\n",
                "log \"12\"\nlog \"53\"\n",
            ),
            // an effect rewires a computed, whose host formula is dropped
            (
                "cell s = true\ncell p = 1\ncell q = 2\ncell go = false\ncomputed h = host 0 (s, p, q)\neffect e\nwhen go\nrewire h = 7\nend\nlog h\nend\nflush\nset s false\nflush\nset go true\nflush\ncomputed k = host 0 (s, p, q)\n",
                "log 1\nlog 2\ndrop 0 6\nlog 2\nlog 7\nerror 8 0\n",
            ),
            // a body that fails does none of its acts, and runs again when what it read changes
            (
                "cell a = 1\neffect e\nlog \"never\"\nwhen a\nlog 2\nend\nend\nflush\nset a true\nflush\n",
                "fail e kind\nlog \"never\"\nlog 2\n",
            ),
            // a block that isn't ended
            ("effect e\nwhen true\nlog 1\n", "error 1 1\n"),
            // an act on what is gone is refused, and the others are done
            (
                "cell a = 1\ncell b = 2\neffect e\ndispose b\nset b 3\nlog a\nend\nflush\n",
                "error 6 b\nlog 1\n",
            ),
        ],
    )
}

// How often effects run.
#[test]
fn prints_flushes(rt: HostRuntime) -> Result<(), Fail> {
    assert_all_print(
        &rt,
        rt.alloc(),
        &[
            // the hundredth turn may run an effect
            (
                "cell x = 0\neffect e\nwhen x < 99\nset x x + 1\nend\nend\nflush\nget x\n",
                "x = 99\n",
            ),
            // one that is due after it makes the flush refused
            (
                "cell x = 0\neffect e\nwhen x < 100\nset x x + 1\nend\nend\nflush\nget x\n",
                "error 20\nx = 100\n",
            ),
            // the next flush begins anew
            (
                "cell x = 0\neffect e\nset x x + 1\nend\nflush\nget x\nset x 7\nflush\nget x\n",
                "error 20\nx = 100\nerror 20\nx = 107\n",
            ),
            // a refused flush leaves the pages as they were
            (
                "cell x = 0\ntemplate t\ntext x\nend\nmount p t\neffect e\nset x x + 1\nend\nflush\nshow p\ndispose e\nflush\n",
                "op p insert 0 0 (1 \"0\")\npage p 1\n0\nerror 20\npage p 1\n0\nop p text 1 \"100\"\npage p 3\n100\n",
            ),
        ],
    )
}

// What stands in owners.
#[test]
fn prints_owners(rt: HostRuntime) -> Result<(), Fail> {
    assert_all_print(
        &rt,
        rt.alloc(),
        &[
            // owners in owners, pages too
            (
                "owner o\nowner i in o\ncell a = 1 in i\ntemplate t\ntext a\nend\nmount p t in i\nset a 2\nflush\ndispose i\nset a 3\nshow p\nflush\nowner i\ncell b = 1 in i\ndispose o\ncell c = 1 in o\n",
                "op p insert 0 0 (1 \"1\")\npage p 1\n1\nop p text 1 \"2\"\npage p 1\n2\nerror 6 a\nerror 6 p\nerror 3 i\nerror 6 i\nerror 6 o\n",
            ),
            // an owner is a name like the others
            (
                "cell a = 1\nowner a\nowner o\nset o 1\nget o\ncell b = 1 in a\ncell b = 1 in z\neffect e in a\nlog 1\nend\ndispose o\ncell b = 1 in o\n",
                "error 3 a\nerror 4 o\nerror 4 o\nerror 4 a\nerror 2 z\nerror 4 a\nerror 6 o\n",
            ),
            // a body's names are looked at in their order, its own name counts as made
            (
                "cell a = 1\neffect e\nset a z\nend\neffect e\nset z a\nlog y\nend\neffect e\nset e 1\nend\neffect e\ndispose e\nend\neffect a\nlog a\nend\neffect f\nrewire a = 1\nend\neffect f\ndispose g\nend\neffect f\nlog host\nend\nflush\n",
                "error 2 z\nerror 2 z\nerror 4 e\nerror 3 a\nerror 4 a\nerror 2 g\nerror 1 25\n",
            ),
        ],
    )
}

// A page that shows what an effect sets at each turn stays as it is where the hundredth is passed.
#[test]
fn refuses_turns_without_end(rt: HostRuntime) -> Result<(), Fail> {
    assert_all_print(
        &rt,
        rt.alloc(),
        &[(
            "cell x = 0\neffect e\nset x x + 1\nend\ntemplate t\ntext x\nend\nmount p t\nflush\nget x\nshow p\nset x 7\nflush\nget x\n",
            "op p insert 0 0 (1 \"0\")\npage p 1\n0\nerror 20\nx = 100\npage p 1\n0\nerror 20\nx = 107\n",
        )],
    )
}

// What is refused while a flush goes on.
#[test]
fn refuses_inside_a_flush(rt: HostRuntime) -> Result<(), Fail> {
    assert_all_trace(
        &rt,
        rt.alloc(),
        &[
            // a formula of the host that isn't lent is refused with the block, and one that is taken where the body does it
            (
                "cell a = 1\ncomputed h = a\neffect e\nrewire h = host 9 (a)\nend\nget h\neffect e\nrewire h = host 1 (a)\nend\nflush\nget h\ncomputed k = host 1 (a)\nset a 2\nflush\n",
                "error 7 9\nrun h (a) = 1\nh = 1\neffect e ()\nrun h (a) = 1\nh = 1\nerror 8 1\n",
            ),
            (
                "cell a = 1\ncell b = false\ncomputed h = a\ncomputed k = host 1 (b, a)\neffect e\nlog a\nrewire h = host 1 (b, a)\nlog h\nend\nflush\nget h\ndispose k\nset a 2\nflush\nget h\n",
                "run h (a) = 1\neffect e (a h)\nlog 1\nerror 8 1\nlog 1\nh = 1\ndrop 1 0\ngone k\nrun h (a) = 2\neffect e (a h)\nlog 2\nerror 8 1\nlog 2\nh = 2\n",
            ),
            // a set of a body tells watchers, whose tries are refused
            (
                "cell a = 1\ncell b = 1\nwatcher w tries set b 2\nwatch w a\nwatcher v tries get a\nwatch v a\ncell s = 1\neffect e\nset a s\nlog b\nend\nflush\nset s 2\nflush\nwatch w\nset s 3\nflush\nget a\nget b\n",
                "effect e (s b)\nlog 1\neffect e (s b)\nnotify w\nnotify v\nerror 14 w v\nlog 1\neffect e (s b)\nnotify w\nerror 14 w\nlog 1\na = 3\nb = 1\n",
            ),
        ],
    )
}

// What blocks are refused for, and at which line.

use crate::blocks::fault;
use body_text::BodyWhy;
use std::alloc::Global;

type Row = (&'static str, usize, BodyWhy);

// Whether each block is refused at the line and for the cause beside it.
fn all_refused(alloc: Global, rows: &[Row]) -> bool {
    for (block, at, why) in rows {
        if fault(alloc, block.as_bytes()) != Some((*at, *why)) {
            return false;
        }
    }
    true
}

#[test]
fn lines_outside_the_grammar(rt: HostRuntime) {
    let rows = [
        ("log 1\nlog\nlog 2\n", 1, BodyWhy::Syntax),
        ("log 1\nset 1 2\nlog 2\n", 1, BodyWhy::Syntax),
        ("log 1\neffect f\nend\n", 1, BodyWhy::Syntax),
        ("log 1\ncleanup a\nlog 2\n", 1, BodyWhy::Syntax),
        ("log 1\ndispose a b\nlog 2\n", 1, BodyWhy::Syntax),
        (
            "log 1\nrewire a = host 0 (b, b)\nlog 2\n",
            1,
            BodyWhy::Syntax,
        ),
        ("log 1\nrewire a = host -1 (b)\nlog 2\n", 1, BodyWhy::Syntax),
        ("log 1\ntext a\nlog 2\n", 1, BodyWhy::Syntax),
        ("log 1\nlog )\nlog 2\n", 1, BodyWhy::Syntax),
    ];
    assert!(rt; all_refused(rt.alloc(), &rows));
}

#[test]
fn ends_that_end_nothing_or_are_missing(rt: HostRuntime) {
    let rows = [
        ("log 1\nend\nlog 2\n", 1, BodyWhy::Syntax),
        ("effect\nend\nend\nlog 2\n", 2, BodyWhy::Syntax),
        ("log 1\nwhen true\nlog 2\n", 2, BodyWhy::Syntax),
        ("when true\neffect\nend\n", 2, BodyWhy::Syntax),
    ];
    assert!(rt; all_refused(rt.alloc(), &rows));
}

#[test]
fn formulas_that_speak_of_a_row(rt: HostRuntime) {
    let rows = [
        ("log 1\nwhen it.x\nend\n", 1, BodyWhy::ItHere),
        ("log 1\nset a it.key\nlog it.x\n", 1, BodyWhy::ItHere),
        ("log 1\ncleanup set a it.x\nlog 2\n", 1, BodyWhy::ItHere),
        ("log 1\nrewire a = it.x\nlog 2\n", 1, BodyWhy::ItHere),
        ("log count(l)\nlog it.y\n", 1, BodyWhy::ItHere),
        (
            "log sum(l, it.x)\nlog sum(l, 1) + it.x\n",
            1,
            BodyWhy::ItHere,
        ),
        (
            "log 1\nlog count(keep(l, true))\nlog it.y\n",
            2,
            BodyWhy::ItHere,
        ),
        (
            "# one\n\n log 1\r\n  # two\n log it.x\n",
            4,
            BodyWhy::ItHere,
        ),
    ];
    assert!(rt; all_refused(rt.alloc(), &rows));
}

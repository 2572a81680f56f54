// Blocks of lines as the bodies of handlers.

use crate::blocks::{fault_of, is_written_by};
use body_text::{Allowance, BodyWhy};
use std::alloc::Global;

type Row = (&'static str, usize, BodyWhy);

// Whether each block is refused at the line and for the cause beside it.
fn all_refused(alloc: Global, rows: &[Row]) -> bool {
    for (block, at, why) in rows {
        if fault_of(alloc, block.as_bytes(), Allowance::handler()) != Some((*at, *why)) {
            return false;
        }
    }
    true
}

#[test]
fn statements_of_effects_alone(rt: HostRuntime) {
    let rows = [
        ("log 1\ncleanup log 2\n", 1, BodyWhy::Syntax),
        ("log 1\ncleanup set a 2\n", 1, BodyWhy::Syntax),
        ("log untrack(a)\ndispose a\n", 1, BodyWhy::Syntax),
        ("log 1\nrewire a = b\n", 1, BodyWhy::Syntax),
        ("log 1\nrewire a = host 0 (b)\n", 1, BodyWhy::Syntax),
        ("when true\neffect\nend\nend\n", 1, BodyWhy::Syntax),
    ];
    assert!(rt; all_refused(rt.alloc(), &rows));
}

#[test]
fn formulas_that_speak_of_what_a_handler_has_not(rt: HostRuntime) {
    let rows = [
        ("log 1\nset a untrack(b)\n", 1, BodyWhy::UntrackHere),
        ("when untrack(a)\nend\n", 0, BodyWhy::UntrackHere),
        ("log it.x + untrack(a)\n", 0, BodyWhy::UntrackHere),
        ("log it.x\nlog untrack(a)\n", 0, BodyWhy::ItHere),
        ("log 1\nlog it.x\n", 1, BodyWhy::ItHere),
    ];
    assert!(rt; all_refused(rt.alloc(), &rows));
}

#[test]
fn a_handler(rt: HostRuntime) {
    let lines = b"set n n + 1\nwhen n > 3\nlog sum(l, it.x)\nend\n";
    assert!(rt; is_written_by(rt.alloc(), lines, lines, Allowance::handler()) == Ok(true));
}

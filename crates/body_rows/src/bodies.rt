// Bodies, and their lists.

use crate::blocks::read;
use effect_model::Plain;
use sig_base::Name;
use sig_formula::Formula;
use sig_untrack::{Body, Recipe2, Stmt};
use std::alloc::Global;
use std::process::Abort;

// Whether these are the names.
fn are_names(names: &[Name], others: &[&str]) -> bool {
    names.len() == others.len()
        && names
            .iter()
            .zip(others)
            .all(|(name, other)| name.as_str() == *other)
}

// The body of a block that is one.
fn body(alloc: Global, block: &str) -> Option<Body> {
    match read(alloc, block.as_bytes()) {
        Some(Ok(body)) => Some(body),
        _ => None,
    }
}

fn assert_no_lines(rt: &impl Abort, body: &Body) {
    assert!(rt; body.statements.is_empty());
    assert!(rt; body.names.is_empty() && body.targets.is_empty());
}

#[test]
fn no_lines(rt: HostRuntime) {
    let Some(body) = body(rt.alloc(), "# nothing\n\n") else {
        assert!(rt; false);
        return;
    };
    assert_no_lines(&rt, &body);
}

fn assert_read_both_ways(rt: &impl Abort, body: &Body) {
    assert!(rt; are_names(&body.names, &["a", "b", "c"]));
    assert!(rt; are_names(&body.targets, &["c"]));
    assert!(rt;
        matches!(
            body.statements.get(1),
            Some(Stmt::Plain(Plain::Set(0, Formula::Slot(0))))
        )
    );
    assert!(rt;
        matches!(
            body.statements.get(2),
            Some(Stmt::Plain(Plain::Log(Formula::Slot(2))))
        )
    );
}

#[test]
fn a_name_that_is_read_both_ways(rt: HostRuntime) {
    let Some(body) = body(rt.alloc(), "log untrack(a) ++ b\nset c a\nlog c\n") else {
        assert!(rt; false);
        return;
    };
    assert_read_both_ways(&rt, &body);
}

fn assert_nested(rt: &impl Abort, body: &Body) {
    assert!(rt; are_names(&body.names, &["a", "e", "g"]));
    assert!(rt; are_names(&body.targets, &["f"]));
    assert!(rt; body.statements.len() == 4);
    let [first, second] = body.effects.as_slice() else {
        assert!(rt; false);
        return;
    };
    assert!(rt; are_names(&first.names, &["b", "d"]));
    assert!(rt; are_names(&first.targets, &["c"]));
    assert!(rt; first.effects.len() == 1 && second.effects.is_empty());
    assert!(rt; matches!(body.statements.get(1), Some(Stmt::Effect(0))));
    assert!(rt;
        matches!(
            body.statements.get(3),
            Some(Stmt::Plain(Plain::Log(Formula::Slot(2))))
        )
    );
}

#[test]
fn what_stands_in_a_nested_effect_is_its_own(rt: HostRuntime) {
    let block =
        "log a\neffect\nlog b\nset c d\neffect\nend\nend\nwhen e\ndispose f\neffect\nend\nend\nlog g\n";
    let Some(body) = body(rt.alloc(), block) else {
        assert!(rt; false);
        return;
    };
    assert_nested(&rt, &body);
}

fn assert_rewired(rt: &impl Abort, body: &Body) {
    assert!(rt; are_names(&body.names, &["a", "b"]));
    assert!(rt; are_names(&body.targets, &["c", "d"]));
    let [first, second, third] = body.rewires.as_slice() else {
        assert!(rt; false);
        return;
    };
    assert!(rt; are_names(&first.names, &["b", "a"]));
    assert!(rt; are_names(&second.names, &["e", "f"]));
    assert!(rt; matches!(&second.recipe, Recipe2::Host(3)));
    assert!(rt; third.names.is_empty() && third.target == 0);
    assert!(rt; matches!(body.statements.get(2), Some(Stmt::Rewire(1))));
}

#[test]
fn rewirings_have_names_of_their_own(rt: HostRuntime) {
    let block = "log a\nrewire c = untrack(b) + a\nrewire d = host 3 (e, f)\nrewire c = 1\nlog b\n";
    let Some(body) = body(rt.alloc(), block) else {
        assert!(rt; false);
        return;
    };
    assert_rewired(&rt, &body);
}

// What is kept of lines, put together.

use crate::scene::is_number;
use sig_base::{NoMemory, Outcome, Value};
use std::alloc::Global;
use std::process::Abort;
use tpl_model::{Heard, PageMemo};

// What was heard of a formula that reads nothing and comes to a number.
fn constant(alloc: Global, number: i64) -> Heard {
    Heard {
        names: Vec::new(alloc),
        outcome: Outcome::Good(Value::Int(number)),
    }
}

// Whether a text of this number, which reads nothing, is all that is kept.
fn is_only(memo: &PageMemo, number: i64) -> bool {
    let PageMemo::Line(heard, rest) = memo else {
        return false;
    };
    heard.names.is_empty()
        && is_number(&heard.outcome, number)
        && matches!(&**rest, PageMemo::Blank)
}

// A text of a number that reads nothing, and nothing behind it.
fn one_text(alloc: Global, number: i64) -> Result<PageMemo, NoMemory> {
    PageMemo::text(alloc, constant(alloc, number), PageMemo::blank())
}

// A part that depends on 2, with the text 1 in it.
fn branch(alloc: Global) -> Result<PageMemo, NoMemory> {
    let text = one_text(alloc, 1)?;
    PageMemo::branch(alloc, constant(alloc, 2), text, PageMemo::blank())
}

fn assert_branch(rt: &impl Abort, memo: &PageMemo) {
    let PageMemo::Branch(test, inner, rest) = memo else {
        assert!(rt; false);
        return;
    };
    assert!(rt; is_number(&test.outcome, 2));
    assert!(rt; is_only(&**inner, 1) && matches!(&**rest, PageMemo::Blank));
}

#[test]
fn lines_are_kept_in_their_order(rt: HostRuntime) -> Result<(), NoMemory> {
    let memo = branch(rt.alloc())?;
    assert_branch(&rt, &memo);
    Ok(())
}

// What is kept of one row, with the text 1 in it.
fn one_row(alloc: Global) -> Result<Vec<PageMemo>, NoMemory> {
    let text = one_text(alloc, 1)?;
    let mut inside = Vec::new(alloc);
    inside.push(text)?;
    Ok(inside)
}

// A loop over 2, with that row in it.
fn rows(alloc: Global) -> Result<PageMemo, NoMemory> {
    let inside = one_row(alloc)?;
    PageMemo::rows(alloc, constant(alloc, 2), inside, PageMemo::blank())
}

// An empty element before that loop.
fn element(alloc: Global) -> Result<PageMemo, NoMemory> {
    let rows = rows(alloc)?;
    PageMemo::element(alloc, Vec::new(alloc), PageMemo::blank(), rows)
}

fn assert_rows(rt: &impl Abort, memo: &PageMemo) {
    let PageMemo::Loop(heard, rows, end) = memo else {
        assert!(rt; false);
        return;
    };
    assert!(rt; is_number(&heard.outcome, 2) && matches!(&**end, PageMemo::Blank));
    let [only] = rows.as_slice() else {
        assert!(rt; false);
        return;
    };
    assert!(rt; is_only(only, 1));
}

fn assert_element(rt: &impl Abort, memo: &PageMemo) {
    let PageMemo::Element(attributes, inner, rest) = memo else {
        assert!(rt; false);
        return;
    };
    assert!(rt; attributes.is_empty() && matches!(&**inner, PageMemo::Blank));
    assert_rows(rt, &**rest);
}

#[test]
fn what_stands_inside_is_kept_with_its_line(rt: HostRuntime) -> Result<(), NoMemory> {
    let memo = element(rt.alloc())?;
    assert_element(&rt, &memo);
    Ok(())
}

// Edits one after another, as a script gives them: the outcome of each, and the rows that are left.
use crate::rows::{
    no_rows, prints, put_at, put_number, put_word, put_word_in, take_out, takes_numbers,
};
use sig_base::{Rows, Scalar, Text};
use sig_rows::{RowFault, insert};
use std::alloc::Global;
use std::test::Fail;

// Puts a row of two texts in at a place; none where there is no memory for the row.
fn put_two_in(
    alloc: Global,
    rows: &mut Rows,
    place: usize,
    key: &str,
    first: &str,
    second: &str,
) -> Option<Result<(), RowFault>> {
    let key = Text::new(alloc, key).ok()?;
    let first = Text::new(alloc, first).ok()?;
    let second = Text::new(alloc, second).ok()?;
    let values = [Scalar::Text(first), Scalar::Text(second)];
    Some(insert(alloc, rows, place, &key, &values))
}

#[test]
fn insertions_are_refused(rt: HostRuntime) -> Result<(), Fail> {
    let alloc = rt.alloc();
    let mut rows = no_rows(alloc, "t")?;
    assert!(rt; put_word_in(alloc, &mut rows, 1, "k", "x") == Some(Err(RowFault::Place)));
    assert!(rt; put_two_in(alloc, &mut rows, 0, "k", "x", "y") == Some(Err(RowFault::Field)));
    assert!(rt; put_word_in(alloc, &mut rows, 0, "k", "x") == Some(Ok(())));
    assert!(rt; put_word_in(alloc, &mut rows, 0, "k", "y") == Some(Err(RowFault::KeyTaken)));
    assert!(rt; prints(alloc, &rows, "[\"k\" (\"x\")]"));
    Ok(())
}

#[test]
fn other_edits_are_refused(rt: HostRuntime) -> Result<(), Fail> {
    let alloc = rt.alloc();
    let mut rows = no_rows(alloc, "t")?;
    assert!(rt; put_word_in(alloc, &mut rows, 0, "k", "x") == Some(Ok(())));
    assert!(rt; take_out(alloc, &mut rows, "m") == Some(Err(RowFault::KeyMissing)));
    assert!(rt; put_number(alloc, &mut rows, "k", "u", 1) == Some(Err(RowFault::Field)));
    assert!(rt; prints(alloc, &rows, "[\"k\" (\"x\")]"));
    Ok(())
}

#[test]
fn edits_say_whether_they_change(rt: HostRuntime) -> Result<(), Fail> {
    let alloc = rt.alloc();
    let mut rows = no_rows(alloc, "n")?;
    assert!(rt; takes_numbers(alloc, &mut rows, &[(0, "a", i64::MAX), (1, "b", 1)]));
    assert!(rt; put_at(alloc, &mut rows, "b", 1) == Some(Ok(false)));
    assert!(rt; put_at(alloc, &mut rows, "b", 2) == Some(Err(RowFault::Place)));
    assert!(rt; prints(alloc, &rows, "[\"a\" (9223372036854775807), \"b\" (1)]"));
    assert!(rt; put_number(alloc, &mut rows, "a", "n", 4) == Some(Ok(true)));
    assert!(rt; prints(alloc, &rows, "[\"a\" (4), \"b\" (1)]"));
    Ok(())
}

// Puts the rows "k1", "k2" and "k3" in, with the texts A, B and C, and tells whether they are taken.
fn takes_letters(alloc: Global, rows: &mut Rows) -> bool {
    for (place, key, letter) in [(0, "k1", "A"), (1, "k2", "B"), (2, "k3", "C")] {
        if put_word_in(alloc, rows, place, key, letter) != Some(Ok(())) {
            return false;
        }
    }
    true
}

#[test]
fn a_key_comes_back(rt: HostRuntime) -> Result<(), Fail> {
    let alloc = rt.alloc();
    let mut rows = no_rows(alloc, "t")?;
    assert!(rt; takes_letters(alloc, &mut rows));
    assert!(rt;
        prints(
            alloc,
            &rows,
            "[\"k1\" (\"A\"), \"k2\" (\"B\"), \"k3\" (\"C\")]"
        )
    );
    assert!(rt; put_at(alloc, &mut rows, "k3", 0) == Some(Ok(true)));
    assert!(rt; take_out(alloc, &mut rows, "k2") == Some(Ok(())));
    assert!(rt; put_word_in(alloc, &mut rows, 2, "k4", "D") == Some(Ok(())));
    assert!(rt; put_word(alloc, &mut rows, "k1", "t", "Z") == Some(Ok(true)));
    assert!(rt;
        prints(
            alloc,
            &rows,
            "[\"k3\" (\"C\"), \"k1\" (\"Z\"), \"k4\" (\"D\")]"
        )
    );
    assert!(rt; take_out(alloc, &mut rows, "k1") == Some(Ok(())));
    assert!(rt; put_word_in(alloc, &mut rows, 0, "k1", "Q") == Some(Ok(())));
    assert!(rt;
        prints(
            alloc,
            &rows,
            "[\"k1\" (\"Q\"), \"k3\" (\"C\"), \"k4\" (\"D\")]"
        )
    );
    Ok(())
}

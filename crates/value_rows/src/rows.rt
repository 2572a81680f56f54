// Each call with ample memory, and what it makes of three rows.
ghost use Rattle.std.specs.Prelude.{◌≡◌, ◌∷◌, [], codes, false, IfOk};
ghost use Rattle.std.specs.Str.{bytes_eq};

use sig_base::{Name, NoMemory, Rows, Scalar, Text, Value, put_value};
use sig_rows::{RowFault, insert, move_to, new_rows, put_field, remove};
use std::alloc::Global;
use std::test::Fail;

fn one(alloc: Global, name: Name) -> Result<Vec<Name>, NoMemory>
    ensures { IfOk result (λ v. v.items ≡ name ∷ []) }
{
    let mut names = Vec::new(alloc);
    names.push(name)?;
    Ok(names)
}

/// No rows, for one field.
pub(crate) fn no_rows(alloc: Global, field: &str) -> Result<Rows, Fail>
    requires { bytes_eq (codes "key") field.now ≡ false }
{
    let fields = one(alloc, Name::new(alloc, field)?)?;
    Ok(new_rows(alloc, fields)?)
}

/// Puts a row of a text in at a place; none where there is no memory for the row.
pub(crate) fn put_word_in(
    alloc: Global,
    rows: &mut Rows,
    place: usize,
    key: &str,
    word: &str,
) -> Option<Result<(), RowFault>> {
    let key = Text::new(alloc, key).ok()?;
    let word = Text::new(alloc, word).ok()?;
    Some(insert(alloc, rows, place, &key, &[Scalar::Text(word)]))
}

/// The same of a row of a number.
pub(crate) fn put_number_in(
    alloc: Global,
    rows: &mut Rows,
    place: usize,
    key: &str,
    number: i64,
) -> Option<Result<(), RowFault>> {
    let key = Text::new(alloc, key).ok()?;
    Some(insert(alloc, rows, place, &key, &[Scalar::Int(number)]))
}

/// Whether these rows of a number are put in one after another.
pub(crate) fn takes_numbers(
    alloc: Global,
    rows: &mut Rows,
    entries: &[(usize, &str, i64)],
) -> bool {
    for (place, key, number) in entries {
        if put_number_in(alloc, rows, *place, key, *number) != Some(Ok(())) {
            return false;
        }
    }
    true
}

/// Takes a row out; none where there is no memory for its key.
pub(crate) fn take_out(alloc: Global, rows: &mut Rows, key: &str) -> Option<Result<(), RowFault>> {
    let key = Text::new(alloc, key).ok()?;
    Some(remove(alloc, rows, &key))
}

/// Moves a row to a place; none where there is no memory for its key.
pub(crate) fn put_at(
    alloc: Global,
    rows: &mut Rows,
    key: &str,
    place: usize,
) -> Option<Result<bool, RowFault>> {
    let key = Text::new(alloc, key).ok()?;
    Some(move_to(alloc, rows, &key, place))
}

/// Gives a field of a row a number; none where there is no memory for the key and the field.
pub(crate) fn put_number(
    alloc: Global,
    rows: &mut Rows,
    key: &str,
    field: &str,
    number: i64,
) -> Option<Result<bool, RowFault>> {
    let key = Text::new(alloc, key).ok()?;
    let field = Name::new(alloc, field).ok()?;
    Some(put_field(alloc, rows, &key, &field, &Scalar::Int(number)))
}

/// The same of a text.
pub(crate) fn put_word(
    alloc: Global,
    rows: &mut Rows,
    key: &str,
    field: &str,
    word: &str,
) -> Option<Result<bool, RowFault>> {
    let key = Text::new(alloc, key).ok()?;
    let field = Name::new(alloc, field).ok()?;
    let word = Text::new(alloc, word).ok()?;
    Some(put_field(alloc, rows, &key, &field, &Scalar::Text(word)))
}

fn printed(alloc: Global, rows: &Rows) -> Result<Vec<u8>, NoMemory> {
    let mut out = Vec::new(alloc);
    put_value(&mut out, &Value::Rows(rows.copy()?))?;
    Ok(out)
}

/// Whether the rows are printed so.
pub(crate) fn prints(alloc: Global, rows: &Rows, want: &str) -> bool {
    match printed(alloc, rows) {
        Ok(out) => out.as_slice() == want.as_bytes(),
        Err(_) => false,
    }
}

// Whether three rows are put in, of which the last comes before the others.
fn takes_three(alloc: Global, rows: &mut Rows) -> bool {
    takes_numbers(alloc, rows, &[(0, "a", 1), (1, "b", 2), (0, "c", 3)])
}

#[test]
fn puts_rows(rt: HostRuntime) -> Result<(), Fail> {
    let alloc = rt.alloc();
    let mut rows = no_rows(alloc, "n")?;
    assert!(rt; takes_three(alloc, &mut rows));
    assert!(rt; prints(alloc, &rows, "[\"c\" (3), \"a\" (1), \"b\" (2)]"));
    Ok(())
}

#[test]
fn moves_rows(rt: HostRuntime) -> Result<(), Fail> {
    let alloc = rt.alloc();
    let mut rows = no_rows(alloc, "n")?;
    assert!(rt; takes_three(alloc, &mut rows));
    assert!(rt; put_at(alloc, &mut rows, "c", 2) == Some(Ok(true)));
    assert!(rt; put_at(alloc, &mut rows, "c", 3) == Some(Err(RowFault::Place)));
    assert!(rt; prints(alloc, &rows, "[\"a\" (1), \"b\" (2), \"c\" (3)]"));
    Ok(())
}

#[test]
fn changes_rows(rt: HostRuntime) -> Result<(), Fail> {
    let alloc = rt.alloc();
    let mut rows = no_rows(alloc, "n")?;
    assert!(rt; takes_three(alloc, &mut rows));
    assert!(rt; put_number(alloc, &mut rows, "a", "n", 7) == Some(Ok(true)));
    assert!(rt; take_out(alloc, &mut rows, "b") == Some(Ok(())));
    assert!(rt; prints(alloc, &rows, "[\"c\" (3), \"a\" (7)]"));
    Ok(())
}

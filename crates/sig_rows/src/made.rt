// What edits make of rows that allow them.
ghost use Rattle.std.specs.Prelude.{◌≡◌, ◌<◌, ℕ, List, length, IfOk, None};
ghost use Rattle.sig_rows.specs.Edits.{changed, field_place, moved, with_row, without};
ghost use Rattle.sig_rows.specs.Faults.{insert_fault, move_fault, put_fault, remove_fault};
ghost use Rattle.sig_rows.specs.Found.{IsMade, IsRowPlace};

use crate::row::{changed, copies, field_place, others, place_of, scalars};
use sig_base::{Name, NoMemory, Row, Rows, Scalar, Scalars, Text};
use std::alloc::Global;

/// The rows with one more of these values, which stands at a place, where `insert_fault` finds nothing against it.
///
/// # Errors
///
/// `NoMemory` where the rows find no room.
pub fn inserted(
    alloc: Global,
    rows: &Rows,
    place: usize,
    key: &Text,
    values: &[Scalar],
) -> Result<Rows, NoMemory>
    requires { insert_fault rows.now place key.now (length values.now) ≡ None }
    ensures { IfOk result (λ r. r ≡ record {
      fields = rows.now.fields;
      rows = with_row place (record { key = key.now; values = values.now }) rows.now.rows;
    }) }
{
    let row = Row {
        key: key.copy()?,
        values: Scalars::of(alloc, scalars(alloc, values)?)?,
    };
    let mut list = copies(alloc, rows.rows())?;
    list.insert(place, row)?;
    let mut now = rows.with_rows(alloc, list)?;
    now.note_changed(place);
    Ok(now)
}

/// The rows without the one at a place.
pub(crate) fn without(alloc: Global, rows: &Rows, place: usize) -> Result<Rows, NoMemory>
    requires { place < length rows.now.rows }
    ensures { IfOk result (λ r. (key : List ℕ) → IsRowPlace key rows.now.rows place
        → r ≡ record { fields = rows.now.fields; rows = without key rows.now.rows }) }
{
    let list = others(alloc, rows.rows(), place)?;
    let mut now = rows.with_rows(alloc, list)?;
    now.note_changed(place);
    Ok(now)
}

/// The rows without the one with this key, where `remove_fault` finds nothing against it.
///
/// # Errors
///
/// `NoMemory` where the rows find no room.
pub fn removed(alloc: Global, rows: &Rows, key: &Text) -> Result<Rows, NoMemory>
    requires { remove_fault rows.now key.now ≡ None }
    ensures { IfOk result (λ r. r ≡ record { fields = rows.now.fields; rows = without key.now rows.now.rows }) }
{
    let place = place_of(rows.rows(), key);
    let now = without(alloc, rows, place)?;
    Ok(now)
}

/// The rows with the one at a place taken out and put so that it stands at another; none where that is the same place.
pub(crate) fn moved_from(
    alloc: Global,
    rows: &Rows,
    from: usize,
    to: usize,
) -> Result<Option<Rows>, NoMemory>
    requires from { from < length rows.now.rows }
    requires to { to < length rows.now.rows }
    ensures { IfOk result (λ made. (key : List ℕ) → IsRowPlace key rows.now.rows from
        → IsMade rows.now (moved key to rows.now.rows) made) }
{
    let standing = rows.rows();
    if from == to {
        return Ok(None);
    }
    let row = rows.row(from).copy()?;
    let mut list = others(alloc, standing, from)?;
    list.insert(to, row)?;
    let mut now = rows.with_rows(alloc, list)?;
    now.note_changed(to);
    Ok(Some(now))
}

/// The rows with the one with this key taken out and put so that it stands at a place, where `move_fault` finds nothing against it.
///
/// # Errors
///
/// `NoMemory` where the rows find no room.
pub fn moved(alloc: Global, rows: &Rows, key: &Text, place: usize) -> Result<Rows, NoMemory>
    requires { move_fault rows.now key.now place ≡ None }
    ensures { IfOk result (λ r. r ≡ record { fields = rows.now.fields; rows = moved key.now place rows.now.rows }) }
{
    let from = place_of(rows.rows(), key);
    let Some(now) = moved_from(alloc, rows, from, place)? else {
        return rows.copy();
    };
    Ok(now)
}

/// The rows with another scalar in a field of the one at a place; none where the scalar there is the same.
pub(crate) fn put_at(
    alloc: Global,
    rows: &Rows,
    place: usize,
    at: usize,
    value: &Scalar,
) -> Result<Option<Rows>, NoMemory>
    requires place { place < length rows.now.rows }
    requires at { at < length rows.now.fields }
    ensures { IfOk result (λ made. (key : List ℕ) → IsRowPlace key rows.now.rows place
        → IsMade rows.now (changed key at value.now rows.now.rows) made) }
{
    let standing = rows.rows();
    if rows.row(place).values.as_slice()[at] == *value {
        return Ok(None);
    }
    let list = changed(alloc, standing, place, at, value)?;
    let mut now = rows.with_rows(alloc, list)?;
    now.note_changed(place);
    Ok(Some(now))
}

/// The rows with another scalar in a field of the one with this key, where `put_fault` finds nothing against it.
///
/// # Errors
///
/// `NoMemory` where the rows find no room.
pub fn field_put(
    alloc: Global,
    rows: &Rows,
    key: &Text,
    field: &Name,
    value: &Scalar,
) -> Result<Rows, NoMemory>
    requires { put_fault rows.now key.now field.now ≡ None }
    ensures { IfOk result (λ r. r ≡ record {
      fields = rows.now.fields;
      rows = changed key.now (field_place field.now rows.now.fields) value.now rows.now.rows;
    }) }
{
    let place = place_of(rows.rows(), key);
    let Some(at) = field_place(rows.fields(), field) else {
        unreachable!()
    };
    let Some(now) = put_at(alloc, rows, place, at, value)? else {
        return rows.copy();
    };
    Ok(now)
}

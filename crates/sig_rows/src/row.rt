// Rows and their parts, looked up and copied.
ghost use Rattle.std.specs.Prelude.{◌≡◌, ◌<◌, ◌++◌, length, All, IfOk, OnOk, MatchOption, Some, false, true, slice_set};
ghost use Rattle.std.specs.List.{list_any, position, slice_get};
ghost use Rattle.std.specs.Str.{bytes_eq};
ghost use Rattle.sig_base.specs.declared.rows.Row.{Row as ARow};
ghost use Rattle.sig_rows.specs.Edits.{cut, has_key, with_value};
ghost use Rattle.sig_rows.specs.Found.{IsFieldPlace, IsRowPlace};

use sig_base::{Name, NoMemory, Row, Scalar, Scalars, Text};
use std::alloc::Global;

// Whether texts differ in how many bytes they have or in their last ones, as keys that aren't one mostly do.
#[inline(always)]
#[tactic(auto, using(crate::proofs::Keys::other_last, sig_base::proofs::Lengths::unlike))]
fn differ_at_end(one: &[u8], other: &[u8]) -> bool
    ensures { result ≡ true → bytes_eq one.now other.now ≡ false }
{
    if one.len() != other.len() {
        return true;
    }
    if one.is_empty() {
        return false;
    }
    let last = one.len() - 1;
    one[last] != other[last]
}

// Whether this is the row's key.
#[inline(always)]
fn is_key(row: &Row, key: &Text) -> bool
    ensures { result ≡ has_key key.now row.now }
{
    if differ_at_end(row.key.as_str().as_bytes(), key.as_str().as_bytes()) {
        return false;
    }
    row.key == *key
}

/// Whether a row has this key.
pub fn has_key(rows: &[Row], key: &Text) -> bool
    ensures { result ≡ list_any (has_key key.now) rows.now }
{
    rows.iter().any(|row| is_key(row, key))
}

/// Whether a field has this name.
pub fn has_field(fields: &[Name], name: &Name) -> bool
    ensures { result ≡ list_any (λ f. bytes_eq f name.now) fields.now }
{
    fields.iter().any(|field| field == name)
}

// The first place of a row with this key.
fn first_row(rows: &[Row], key: &Text) -> Option<usize>
    ensures { result ≡ position (has_key key.now) rows.now }
{
    rows.iter().position(|row| is_key(row, key))
}

/// The place of the row with this key.
pub fn row_place(rows: &[Row], key: &Text) -> Option<usize>
    ensures { MatchOption result (list_any (has_key key.now) rows.now ≡ false) (IsRowPlace key.now rows.now) }
{
    let found = first_row(rows, key);
    found
}

/// The place of the row with this key, where there is one.
pub fn place_of(rows: &[Row], key: &Text) -> usize
    requires { list_any (has_key key.now) rows.now ≡ true }
    ensures { IsRowPlace key.now rows.now result }
{
    let Some(place) = row_place(rows, key) else {
        unreachable!()
    };
    place
}

// The first place of this name.
fn first_place(fields: &[Name], name: &Name) -> Option<usize>
    ensures { result ≡ position (λ f. bytes_eq f name.now) fields.now }
{
    fields.iter().position(|field| field == name)
}

/// The place of the field of this name.
pub fn field_place(fields: &[Name], name: &Name) -> Option<usize>
    ensures { MatchOption result (list_any (λ f. bytes_eq f name.now) fields.now ≡ false) (IsFieldPlace name.now fields.now) }
{
    let found = first_place(fields, name);
    found
}

// Puts copies of these rows, which share their values, behind others.
fn push_copies(out: &mut Vec<Row>, rows: &[Row]) -> Result<(), NoMemory>
    ensures { OnOk result (out.new.items ≡ out.old.items ++ rows.now) }
{
    out.reserve(rows.len())?;
    for row in rows {
        out.push_reserved(row.copy()?);
    }
    Ok(())
}

/// Copies of these rows, which share their values, with room for one more.
pub fn copies(alloc: Global, rows: &[Row]) -> Result<Vec<Row>, NoMemory>
    ensures { IfOk result (λ v. v.items ≡ rows.now) }
{
    let mut out = Vec::with_capacity(alloc, rows.len().saturating_add(1))?;
    push_copies(&mut out, rows)?;
    Ok(out)
}

/// Copies of the rows but the one at a place, with room for one more.
pub fn others(alloc: Global, rows: &[Row], place: usize) -> Result<Vec<Row>, NoMemory>
    requires { place < length rows.now }
    ensures { IfOk result (λ v. v.items ≡ cut place rows.now) }
{
    let mut out = Vec::with_capacity(alloc, rows.len())?;
    push_copies(&mut out, rows.split_at(place).0)?;
    push_copies(&mut out, rows.split_at(place + 1).1)?;
    Ok(out)
}

/// Copies of these scalars.
pub fn scalars(alloc: Global, values: &[Scalar]) -> Result<Vec<Scalar>, NoMemory>
    ensures { IfOk result (λ v. v.items ≡ values.now) }
{
    let mut out = Vec::with_capacity(alloc, values.len())?;
    for value in values {
        out.push(value.copy()?)?;
    }
    Ok(out)
}

// The row with another scalar at a place.
fn with_value(alloc: Global, row: &Row, at: usize, value: &Scalar) -> Result<Row, NoMemory>
    requires { at < length row.now.values }
    ensures { IfOk result (λ r. r ≡ with_value at value.now row.now) }
{
    let mut values = scalars(alloc, row.values.as_slice())?;
    values[at] = value.copy()?;
    Ok(Row {
        key: row.key.copy()?,
        values: Scalars::of(alloc, values)?,
    })
}

/// Copies of these rows, of which the one at a place has another scalar in a field.
pub fn changed(
    alloc: Global,
    rows: &[Row],
    place: usize,
    at: usize,
    value: &Scalar,
) -> Result<Vec<Row>, NoMemory>
    requires place { place < length rows.now }
    requires at { All (λ r. at < length r.values) rows.now }
    ensures { IfOk result (λ v. (row : ARow) → slice_get rows.now place ≡ Some row → v.items ≡ slice_set rows.now place (with_value at value.now row)) }
{
    let row = with_value(alloc, &rows[place], at, value)?;
    let mut list = copies(alloc, rows)?;
    list[place] = row;
    Ok(list)
}

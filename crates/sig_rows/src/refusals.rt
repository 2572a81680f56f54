// Why an edit isn't made, asked of rows that stay as they are.
ghost use Rattle.std.specs.Prelude.{◌≡◌};
ghost use Rattle.sig_rows.specs.Faults.{insert_fault, move_fault, put_fault, remove_fault};

use crate::RowFault;
use crate::row::{has_field, has_key};
use sig_base::{MOST_ROWS, Name, Rows, Text};

/// Why a row of this key and so many values isn't put so that it stands at a place, in this order: a row has the key, the place is past the
/// end, there are more or fewer values than fields, there are `MOST_ROWS` rows already. None where it may be put.
pub fn insert_fault(rows: &Rows, place: usize, key: &Text, count: usize) -> Option<RowFault>
    ensures { result ≡ insert_fault rows.now place key.now count }
{
    if has_key(rows.rows(), key) {
        return Some(RowFault::KeyTaken);
    }
    if place > rows.len() {
        return Some(RowFault::Place);
    }
    if count != rows.fields().len() {
        return Some(RowFault::Field);
    }
    if rows.len() >= MOST_ROWS {
        return Some(RowFault::Limit);
    }
    None
}

/// Why the row of this key isn't taken out: no row has the key. None where it may be.
pub fn remove_fault(rows: &Rows, key: &Text) -> Option<RowFault>
    ensures { result ≡ remove_fault rows.now key.now }
{
    if !has_key(rows.rows(), key) {
        return Some(RowFault::KeyMissing);
    }
    None
}

/// Why the row of this key isn't moved to a place, in this order: no row has the key, no row stands at the place. None where it may be.
pub fn move_fault(rows: &Rows, key: &Text, place: usize) -> Option<RowFault>
    ensures { result ≡ move_fault rows.now key.now place }
{
    if !has_key(rows.rows(), key) {
        return Some(RowFault::KeyMissing);
    }
    if place >= rows.len() {
        return Some(RowFault::Place);
    }
    None
}

/// Why no scalar is put into a field of the row of this key, in this order: no row has the key, there is no such field. None where it may be.
pub fn put_fault(rows: &Rows, key: &Text, field: &Name) -> Option<RowFault>
    ensures { result ≡ put_fault rows.now key.now field.now }
{
    if !has_key(rows.rows(), key) {
        return Some(RowFault::KeyMissing);
    }
    if !has_field(rows.fields(), field) {
        return Some(RowFault::Field);
    }
    None
}

// The edits.
ghost use Rattle.std.specs.Prelude.{◌≡◌, ◌↔◌, [], length, IfErr, IfOk, OnErr, OnOk, None, false};
ghost use Rattle.sig_base.specs.Tables.{AreRows};
ghost use Rattle.sig_rows.specs.Edits.{changed, field_place, moved, with_row, without};
ghost use Rattle.sig_rows.specs.Faults.{insert_fault, move_fault, put_fault, remove_fault, IsCause};

use crate::RowFault;
use crate::made::{inserted, moved_from, put_at, without};
use crate::refusals::insert_fault;
use crate::row::{field_place, row_place};
use sig_base::{Name, NoMemory, Rows, Scalar, Text};
use std::alloc::Global;

/// No rows, for at most `MOST_FIELDS` distinct fields other than `key`.
pub fn new_rows(alloc: Global, fields: Vec<Name>) -> Result<Rows, NoMemory>
    requires { AreRows fields.items [] }
    ensures { IfOk result (λ r. r ≡ record { fields = fields.items; rows = [] }) }
{
    Rows::of(alloc, fields, Vec::new(alloc))
}

/// Puts a row with these values so that it stands at a place, at most the number of rows. It is refused, in this order, where
/// a row has the key, where the place is past the end, for another number of values than there are fields, and where there are
/// `MOST_ROWS` rows already.
pub fn insert(
    alloc: Global,
    rows: &mut Rows,
    place: usize,
    key: &Text,
    values: &[Scalar],
) -> Result<(), RowFault>
    ensures rows { OnOk result (rows.new ≡ record {
      fields = rows.old.fields;
      rows = with_row place (record { key = key.now; values = values.now }) rows.old.rows;
    }) }
    ensures accepted { OnOk result (insert_fault rows.old place key.now (length values.now) ≡ None) }
    ensures refused { IfErr result (λ why. IsCause (insert_fault rows.old place key.now (length values.now)) why) }
    ensures kept { OnErr result (rows.new ≡ rows.old) }
{
    if let Some(fault) = insert_fault(rows, place, key, values.len()) {
        return Err(fault);
    }
    *rows = inserted(alloc, rows, place, key, values)?;
    Ok(())
}

/// Takes the row with this key out; refused where no row has it.
pub fn remove(alloc: Global, rows: &mut Rows, key: &Text) -> Result<(), RowFault>
    ensures rows { OnOk result (rows.new ≡ record { fields = rows.old.fields; rows = without key.now rows.old.rows }) }
    ensures accepted { OnOk result (remove_fault rows.old key.now ≡ None) }
    ensures refused { IfErr result (λ why. IsCause (remove_fault rows.old key.now) why) }
    ensures kept { OnErr result (rows.new ≡ rows.old) }
{
    let Some(place) = row_place(rows.rows(), key) else {
        return Err(RowFault::KeyMissing);
    };
    *rows = without(alloc, rows, place)?;
    Ok(())
}

/// Takes the row with this key out and puts it so that it stands at a place, below the number of rows. It is refused, in this
/// order, where no row has the key, and where the place is past the end. `false` exactly where nothing changed.
pub fn move_to(alloc: Global, rows: &mut Rows, key: &Text, place: usize) -> Result<bool, RowFault>
    ensures rows { OnOk result (rows.new ≡ record { fields = rows.old.fields; rows = moved key.now place rows.old.rows }) }
    ensures same { IfOk result (λ changed. (changed ≡ false) ↔ (rows.new ≡ rows.old)) }
    ensures accepted { OnOk result (move_fault rows.old key.now place ≡ None) }
    ensures refused { IfErr result (λ why. IsCause (move_fault rows.old key.now place) why) }
    ensures kept { OnErr result (rows.new ≡ rows.old) }
{
    let Some(from) = row_place(rows.rows(), key) else {
        return Err(RowFault::KeyMissing);
    };
    if place >= rows.len() {
        return Err(RowFault::Place);
    }
    let Some(now) = moved_from(alloc, rows, from, place)? else {
        return Ok(false);
    };
    *rows = now;
    Ok(true)
}

/// Puts another scalar into a field of the row with this key. It is refused, in this order, where no row has the key, and where
/// there is no such field. `false` exactly where nothing changed, since the scalar there was the same.
pub fn put_field(
    alloc: Global,
    rows: &mut Rows,
    key: &Text,
    field: &Name,
    value: &Scalar,
) -> Result<bool, RowFault>
    ensures rows { OnOk result (rows.new ≡ record {
      fields = rows.old.fields;
      rows = changed key.now (field_place field.now rows.old.fields) value.now rows.old.rows;
    }) }
    ensures same { IfOk result (λ changed. (changed ≡ false) ↔ (rows.new ≡ rows.old)) }
    ensures accepted { OnOk result (put_fault rows.old key.now field.now ≡ None) }
    ensures refused { IfErr result (λ why. IsCause (put_fault rows.old key.now field.now) why) }
    ensures kept { OnErr result (rows.new ≡ rows.old) }
{
    let Some(place) = row_place(rows.rows(), key) else {
        return Err(RowFault::KeyMissing);
    };
    let Some(at) = field_place(rows.fields(), field) else {
        return Err(RowFault::Field);
    };
    let Some(now) = put_at(alloc, rows, place, at, value)? else {
        return Ok(false); // it is there already
    };
    *rows = now;
    Ok(true)
}

// Edits of rows, and why they are refused.
ghost use Rattle.std.specs.Prelude.{◌≡◌, IfOk, None};
ghost use Rattle.live_model.specs.Rows.{edit_fault, edit_refusal, edited};

use crate::refusals::fault_told;
use live_cmd::RowEdit;
use live_entries::Refusal;
use sig_base::{NoMemory, Rows};
use sig_rows::{
    RowFault, field_put, insert_fault, inserted, move_fault, moved, put_fault, remove_fault,
    removed,
};
use std::alloc::Global;

// Why these rows don't allow an edit, the first cause.
fn edit_fault(rows: &Rows, edit: &RowEdit) -> Option<RowFault>
    ensures { result ≡ edit_fault edit.now rows.now }
{
    match edit {
        RowEdit::Insert { place, key, values } => {
            insert_fault(rows, *place as usize, key, values.as_slice().len())
        }
        RowEdit::Remove(key) => remove_fault(rows, key),
        RowEdit::Move(key, place) => move_fault(rows, key, *place as usize),
        RowEdit::Put { key, field, .. } => put_fault(rows, key, field),
    }
}

/// The first cause for which these rows don't allow an edit, if so it is: for an insertion that a row has the key, that the place is past the
/// end, that there are more or fewer values than fields, that there are `MOST_ROWS` rows; for another edit that no row has the key, and then
/// that no row stands at the place, or that there is no such field.
///
/// # Errors
///
/// `NoMemory` where what is told finds no room.
pub fn refusal(rows: &Rows, edit: &RowEdit) -> Result<Option<Refusal>, NoMemory>
    ensures { IfOk result (λ r. r ≡ edit_refusal edit.now rows.now) }
{
    match edit_fault(rows, edit) {
        None => Ok(None),
        Some(fault) => Ok(Some(fault_told(edit, fault)?)),
    }
}

/// What an edit makes of rows that allow it.
///
/// # Errors
///
/// `NoMemory` where the rows find no room.
pub fn edited(alloc: Global, rows: &Rows, edit: &RowEdit) -> Result<Rows, NoMemory>
    requires { edit_refusal edit.now rows.now ≡ None }
    ensures { IfOk result (λ t. t ≡ edited edit.now rows.now) }
{
    match edit {
        RowEdit::Insert { place, key, values } => {
            let now = inserted(alloc, rows, *place as usize, key, values.as_slice())?;
            Ok(now)
        }
        RowEdit::Remove(key) => {
            let now = removed(alloc, rows, key)?;
            Ok(now)
        }
        RowEdit::Move(key, place) => {
            let now = moved(alloc, rows, key, *place as usize)?;
            Ok(now)
        }
        RowEdit::Put { key, field, value } => {
            let now = field_put(alloc, rows, key, field, value)?;
            Ok(now)
        }
    }
}

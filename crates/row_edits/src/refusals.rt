// Why an edit is refused.
ghost use Rattle.std.specs.Prelude.{◌≡◌, false, IfOk};
ghost use Rattle.live_model.specs.Rows.{fault_told, field_of, is_memory, key_of, place_of};

use live_cmd::RowEdit;
use live_entries::{FieldDetail, LimitWord, Refusal};
use sig_base::{NoMemory, Text};
use sig_rows::RowFault;

// The key that an edit names.
fn key_of(edit: &RowEdit) -> &Text
    ensures { result.now ≡ key_of edit.now }
{
    match edit {
        RowEdit::Insert { key, .. } | RowEdit::Put { key, .. } => key,
        RowEdit::Remove(key) | RowEdit::Move(key, _) => key,
    }
}

// The place that an edit names; 0 where it names none.
fn place_of(edit: &RowEdit) -> u64
    ensures { result ≡ place_of edit.now }
{
    match edit {
        RowEdit::Insert { place, .. } | RowEdit::Move(_, place) => *place,
        RowEdit::Remove(_) | RowEdit::Put { .. } => 0,
    }
}

// The field that an edit names, or how many values it has.
fn field_of(edit: &RowEdit) -> Result<FieldDetail, NoMemory>
    ensures { IfOk result (λ d. d ≡ field_of edit.now) }
{
    match edit {
        RowEdit::Insert { values, .. } => Ok(FieldDetail::Count(values.as_slice().len() as u64)),
        RowEdit::Put { field, .. } => Ok(FieldDetail::Field(field.copy()?)),
        RowEdit::Remove(_) | RowEdit::Move(..) => Ok(FieldDetail::Count(0)),
    }
}

/// A cause as it is told, or want of memory.
pub fn fault_told(edit: &RowEdit, fault: RowFault) -> Result<Refusal, NoMemory>
    ensures told { IfOk result (λ r. r ≡ fault_told edit.now fault) }
    ensures cause { IfOk result (λ r. is_memory fault ≡ false) }
{
    match fault {
        RowFault::KeyTaken => Ok(Refusal::KeyTaken(key_of(edit).copy()?)),
        RowFault::KeyMissing => Ok(Refusal::KeyMissing(key_of(edit).copy()?)),
        RowFault::Place => Ok(Refusal::Place(place_of(edit))),
        RowFault::Field => Ok(Refusal::Field(field_of(edit)?)),
        RowFault::Limit => Ok(Refusal::Limit(LimitWord::Rows)),
        RowFault::NoMemory(e) => Err(e),
    }
}

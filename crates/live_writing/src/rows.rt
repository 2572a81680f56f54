// Writes lists and the edits of their rows.
ghost use Rattle.std.specs.Prelude.{◌≡◌, ◌++◌, OnOk};
ghost use Rattle.live_cmd.specs.Grammar as rows;
ghost use Rattle.live_writing.specs.Printer.{edit_line, ended_line};

use crate::inside::put_inside;
use line_forms::{
    NameList, put_count, put_key, put_listed_names, put_listed_values, put_name, put_value,
};
use live_cmd::RowEdit;
use sig_base::{Name, NoMemory, Scalar, Scalars, Text};

/// Appends the line that makes a list.
pub fn put_list(
    out: &mut Vec<u8>,
    name: &Name,
    fields: &NameList,
    inside: &Option<Name>,
) -> Result<(), NoMemory>
    ensures { OnOk result (out.new.items ≡ out.old.items ++ ended_line (rows.list, (name.now, (fields.now, (inside.now, tt))))) }
{
    out.extend_from_slice(b"list")?;
    put_name(out, name)?;
    put_listed_names(out, fields.as_slice())?;
    put_inside(out, inside)?;
    out.push(b'\n')?;
    Ok(())
}

fn put_insert(
    out: &mut Vec<u8>,
    name: &Name,
    place: u64,
    key: &Text,
    values: &Scalars,
) -> Result<(), NoMemory>
    ensures { OnOk result (out.new.items ≡ out.old.items ++ ended_line (rows.insert_row, (name.now, (place, (key.now, (values.now, tt)))))) }
{
    out.extend_from_slice(b"insert")?;
    put_name(out, name)?;
    put_count(out, place)?;
    put_key(out, key)?;
    put_listed_values(out, values.as_slice())?;
    out.push(b'\n')?;
    Ok(())
}

fn put_remove(out: &mut Vec<u8>, name: &Name, key: &Text) -> Result<(), NoMemory>
    ensures { OnOk result (out.new.items ≡ out.old.items ++ ended_line (rows.remove_row, (name.now, (key.now, tt)))) }
{
    out.extend_from_slice(b"remove")?;
    put_name(out, name)?;
    put_key(out, key)?;
    out.push(b'\n')?;
    Ok(())
}

fn put_move(out: &mut Vec<u8>, name: &Name, key: &Text, place: u64) -> Result<(), NoMemory>
    ensures { OnOk result (out.new.items ≡ out.old.items ++ ended_line (rows.move_row, (name.now, (key.now, (place, tt))))) }
{
    out.extend_from_slice(b"move")?;
    put_name(out, name)?;
    put_key(out, key)?;
    put_count(out, place)?;
    out.push(b'\n')?;
    Ok(())
}

fn put_put(
    out: &mut Vec<u8>,
    name: &Name,
    key: &Text,
    field: &Name,
    value: &Scalar,
) -> Result<(), NoMemory>
    ensures { OnOk result (out.new.items ≡ out.old.items ++ ended_line (rows.put_field, (name.now, (key.now, (field.now, (value.now, tt)))))) }
{
    out.extend_from_slice(b"put")?;
    put_name(out, name)?;
    put_key(out, key)?;
    put_name(out, field)?;
    put_value(out, value)?;
    out.push(b'\n')?;
    Ok(())
}

/// Appends the line of an edit of a list's rows.
pub fn put_edit(out: &mut Vec<u8>, name: &Name, edit: &RowEdit) -> Result<(), NoMemory>
    ensures { OnOk result (out.new.items ≡ out.old.items ++ ended_line (edit_line name.now edit.now)) }
{
    match edit {
        RowEdit::Insert { place, key, values } => put_insert(out, name, *place, key, values),
        RowEdit::Remove(key) => put_remove(out, name, key),
        RowEdit::Move(key, place) => put_move(out, name, key, *place),
        RowEdit::Put { key, field, value } => put_put(out, name, key, field, value),
    }
}

// The printed forms of values and faults.
ghost use Rattle.std.specs.Prelude.{◌≡◌, ◌++◌, OnOk, codes};
ghost use Rattle.std.specs.List.{flat_map, join_by};
ghost use Rattle.sig_base.specs.Printer.{fault_name, in_quotes, printed, printed_row, printed_rows, printed_scalar, quoted};

use crate::scalar::put_shown;
use crate::{Fault, NoMemory, Row, Scalar, Value};

fn put_in_quotes(out: &mut Vec<u8>, byte: u8) -> Result<(), NoMemory>
    ensures { OnOk result (out.new.items ≡ out.old.items ++ in_quotes byte) }
{
    match byte {
        b'\\' => out.extend_from_slice(b"\\\\")?,
        b'"' => out.extend_from_slice(b"\\\"")?,
        b'\n' => out.extend_from_slice(b"\\n")?,
        b'\r' => out.extend_from_slice(b"\\r")?,
        b'\t' => out.extend_from_slice(b"\\t")?,
        _ => out.push(byte)?,
    }
    Ok(())
}

/// Appends a text in double quotes, with `\\`, `\"`, `\n`, `\r` and `\t` for the characters that they stand for.
#[tactic(auto, unfolding(crate::specs::Printer::quoted))]
pub fn put_quoted(out: &mut Vec<u8>, text: &str) -> Result<(), NoMemory>
    ensures { OnOk result (out.new.items ≡ out.old.items ++ quoted text.now) }
{
    out.push(b'"')?;
    for byte in text.as_bytes() {
        put_in_quotes(out, *byte)?;
    }
    out.push(b'"')?;
    Ok(())
}

/// Appends a scalar's printed form: a text in double quotes, every other as it is shown.
pub fn put_scalar(out: &mut Vec<u8>, scalar: &Scalar) -> Result<(), NoMemory>
    ensures { OnOk result (out.new.items ≡ out.old.items ++ printed_scalar scalar.now) }
{
    match scalar {
        Scalar::Text(text) => put_quoted(out, text.as_str()),
        _ => put_shown(out, scalar),
    }
}

fn put_scalars(out: &mut Vec<u8>, values: &[Scalar]) -> Result<(), NoMemory>
    ensures { OnOk result (out.new.items ≡ out.old.items ++ join_by printed_scalar (codes ", ") values.now) }
{
    let Some((first, others)) = values.split_first() else {
        return Ok(());
    };
    put_scalar(out, first)?;
    for scalar in others {
        out.extend_from_slice(b", ")?;
        put_scalar(out, scalar)?;
    }
    Ok(())
}

#[tactic(auto, unfolding(crate::specs::Printer::printed_row))]
fn put_row(out: &mut Vec<u8>, row: &Row) -> Result<(), NoMemory>
    ensures { OnOk result (out.new.items ≡ out.old.items ++ printed_row row.now) }
{
    put_quoted(out, row.key.as_str())?;
    out.extend_from_slice(b" (")?;
    put_scalars(out, row.values.as_slice())?;
    out.push(b')')?;
    Ok(())
}

fn put_each_row(out: &mut Vec<u8>, rows: &[Row]) -> Result<(), NoMemory>
    ensures { OnOk result (out.new.items ≡ out.old.items ++ join_by printed_row (codes ", ") rows.now) }
{
    let Some((first, others)) = rows.split_first() else {
        return Ok(());
    };
    put_row(out, first)?;
    for row in others {
        out.extend_from_slice(b", ")?;
        put_row(out, row)?;
    }
    Ok(())
}

#[tactic(auto, unfolding(crate::specs::Printer::printed_rows))]
fn put_rows(out: &mut Vec<u8>, rows: &[Row]) -> Result<(), NoMemory>
    ensures { OnOk result (out.new.items ≡ out.old.items ++ printed_rows rows.now) }
{
    out.push(b'[')?;
    put_each_row(out, rows)?;
    out.push(b']')?;
    Ok(())
}

/// Appends a value's printed form: `true` or `false`, the decimal digits, a text in double quotes, rows as
/// `["k1" (1, "x"), "k2" (2, "y")]`.
pub fn put_value(out: &mut Vec<u8>, value: &Value) -> Result<(), NoMemory>
    ensures { OnOk result (out.new.items ≡ out.old.items ++ printed value.now) }
{
    match value {
        Value::Bool(b) => put_shown(out, &Scalar::Bool(*b)),
        Value::Int(n) => put_shown(out, &Scalar::Int(*n)),
        Value::Text(text) => put_quoted(out, text.as_str()),
        Value::Rows(rows) => put_rows(out, rows.rows()),
    }
}

/// Appends a fault's name, such as `overflow` or `host 3`.
pub fn put_fault(out: &mut Vec<u8>, fault: Fault) -> Result<(), NoMemory>
    ensures { OnOk result (out.new.items ≡ out.old.items ++ fault_name fault) }
{
    let name = fault.to_string(*out.allocator())?;
    out.extend_from_slice(name.as_bytes())?;
    Ok(())
}

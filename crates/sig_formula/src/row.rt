// The parts of the row that a formula speaks of.
ghost use Rattle.std.specs.Prelude.{◌≡◌, ◌<◌, length, option_copied, IfOk, IfSome};
ghost use Rattle.std.specs.List.{position};
ghost use Rattle.std.specs.Str.{bytes_eq};
ghost use Rattle.sig_formula.specs.Evaluation.{field_outcome, key_outcome, value_under};

use crate::RowRef;
use sig_base::{Fault, Name, NoMemory, Outcome, Scalar, Value};

// The place of the field with a name.
fn field_place(name: &Name, fields: &[Name]) -> Option<usize>
    ensures { result ≡ position (λ f. bytes_eq f name.now) fields.now }
{
    fields.iter().position(|field| field == name)
}

// The value of the field with a name.
fn value_under<'a>(name: &Name, fields: &[Name], values: &'a [Scalar]) -> Option<&'a Scalar>
    ensures { option_copied result ≡ value_under name.now fields.now values.now }
{
    match field_place(name, fields) {
        Some(place) => values.get(place),
        None => None,
    }
}

/// The field of a row; it is absent where the rows have no field of this name, or where there is no row.
pub fn field_outcome(name: &Name, row: Option<&RowRef>) -> Result<Outcome, NoMemory>
    requires { IfSome row (λ r. r.now.place < length r.now.rows.rows) }
    ensures { IfOk result (λ o. o ≡ field_outcome name.now (option_copied row.entry)) }
{
    let Some(row) = row else {
        return Ok(Outcome::Bad(Fault::Absent));
    };
    let values = row.rows.row(row.place).values.as_slice();
    match value_under(name, row.rows.fields(), values) {
        Some(scalar) => Ok(Outcome::Good(Value::from(scalar.copy()?))),
        None => Ok(Outcome::Bad(Fault::Absent)),
    }
}

/// The key of a row; it is absent where there is no row.
pub fn key_outcome(row: Option<&RowRef>) -> Result<Outcome, NoMemory>
    requires { IfSome row (λ r. r.now.place < length r.now.rows.rows) }
    ensures { IfOk result (λ o. o ≡ key_outcome (option_copied row.entry)) }
{
    match row {
        Some(row) => Ok(Outcome::Good(Value::Text(row.rows.row(row.place).key.copy()?))),
        None => Ok(Outcome::Bad(Fault::Absent)),
    }
}

// What choices and loops take of an outcome.
ghost use Rattle.std.specs.Prelude.{◌≡◌, ◌<◌, length, IfOk};
ghost use Rattle.tpl_model.specs.KeptLines.Memos.{table_in, truth_in};

use sig_base::{NoMemory, Outcome, Value};
use sig_formula::RowRef;

/// The truth that an outcome is, where it is one.
pub(crate) fn truth_of(outcome: &Outcome) -> Option<bool>
    ensures { result ≡ truth_in outcome.now }
{
    match outcome {
        Outcome::Good(Value::Bool(truth)) => Some(*truth),
        _ => None,
    }
}

/// How many rows an outcome is.
pub(crate) fn row_count(outcome: &Outcome) -> usize
    ensures { result ≡ length (table_in outcome.now).rows }
{
    match outcome {
        Outcome::Good(Value::Rows(rows)) => rows.len(),
        _ => 0,
    }
}

/// The row at a place of the rows that an outcome is.
///
/// # Errors
///
/// `NoMemory` alone.
pub(crate) fn row_at(outcome: &Outcome, place: usize) -> Result<RowRef, NoMemory>
    requires { place < length (table_in outcome.now).rows }
    ensures { IfOk result (λ r. r ≡ record { rows = table_in outcome.now; place = place }) }
{
    match outcome {
        Outcome::Good(Value::Rows(rows)) => Ok(RowRef {
            rows: rows.copy()?,
            place,
        }),
        _ => unreachable!(),
    }
}

// Rows in which lines are gone over, one after the other.
ghost use Rattle.std.specs.Prelude.{◌≡◌, ◌∷◌, ◌+◌, ◌<◌, drop, length, false, IfOk};
ghost use Rattle.tpl_model.specs.KeptLines.Memos.{table_in};
ghost use Rattle.tpl_kept.specs.Heads.{behind, places_from, places_in};
ghost use Rattle.tpl_kept.specs.Listed.{listed};

use crate::listening::truth_of;
use crate::making::{Head, own_row};
use sig_base::{NoMemory, Outcome, Rows, Value};
use sig_formula::RowRef;

/// Rows in which lines are gone over, one after the other. A row of a table is made when it is gone over.
#[derive(Clone, Copy)]
pub(crate) enum Places<'a> {
    /// There is none.
    Nowhere,
    /// This one alone.
    Alone(&'a Option<RowRef>),
    /// Those of a table.
    Table(&'a Rows),
}

/// How many there are.
pub(crate) fn count_places(places: Places<'_>) -> usize
    ensures { result ≡ length (listed places.entry) }
{
    match places {
        Places::Nowhere => 0,
        Places::Alone(_) => 1,
        Places::Table(rows) => rows.len(),
    }
}

// The same row, as a row of one's own.
fn same_row(row: &Option<RowRef>) -> Result<Option<RowRef>, NoMemory>
    ensures { IfOk result (λ r. r ≡ row.now) }
{
    match row {
        None => Ok(None),
        Some(row) => {
            let own = own_row(Some(row))?;
            Ok(own)
        }
    }
}

/// The row at a place among them.
///
/// # Errors
///
/// `NoMemory` alone.
pub(crate) fn row_of(places: Places<'_>, at: usize) -> Result<Option<RowRef>, NoMemory>
    requires { at < length (listed places) }
    ensures { IfOk result (λ r. drop at (listed places.entry) ≡ r ∷ drop (at + 1) (listed places.entry)) }
{
    match places {
        Places::Nowhere => Ok(None),
        Places::Alone(row) => {
            let own = same_row(row)?;
            Ok(own)
        }
        Places::Table(rows) => {
            let rows = rows.copy()?;
            Ok(Some(RowRef { rows, place: at }))
        }
    }
}

// All rows that an outcome is.
fn table_places(outcome: &Outcome) -> Places<'_>
    ensures { listed result ≡ places_from (table_in outcome.now) 0 (length (table_in outcome.now).rows) }
{
    match outcome {
        Outcome::Good(Value::Rows(rows)) => Places::Table(rows),
        _ => Places::Nowhere,
    }
}

/// Where the lines inside the first of some are gone over, in the row where these stand.
pub(crate) fn inside_places<'a>(head: &'a Head, row: &'a Option<RowRef>) -> Places<'a>
    ensures { listed result ≡ places_in false head.now row.now }
{
    match head {
        Head::Tag(_) => Places::Alone(row),
        Head::Choice(test) => match truth_of(&test.outcome) {
            None => Places::Nowhere,
            Some(_) => Places::Alone(row),
        },
        Head::Each(rows) => table_places(&rows.outcome),
        _ => Places::Nowhere,
    }
}

/// Where the lines behind the first of some are gone over, in the row where these stand.
pub(crate) fn behind_places<'a>(head: &Head, row: &'a Option<RowRef>) -> Places<'a>
    ensures { listed result ≡ behind false head.now row.now }
{
    match head {
        Head::Nothing => Places::Nowhere,
        _ => Places::Alone(row),
    }
}

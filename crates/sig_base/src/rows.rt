// Rows under distinct keys, and the lists of scalars in them.
ghost use Rattle.std.specs.Prelude.{◌≡◌, length, ◌<◌, IfOk, Some, true};
ghost use Rattle.std.specs.List.{slice_get};
ghost use Rattle.std.specs.Cmp.{decided, partial_equiv_from_equiv};
ghost use Rattle.sig_base.specs.Tables.{AreRows, Table, marked, same_row, same_table};
ghost use Rattle.sig_base.specs.Tables.{same_row-Decides, same_table-Decides};

use crate::{Name, NoMemory, Scalar, Text};
use std::alloc::Global;
use std::marker::Model;
use std::rc::Rc;

/// A list of scalars. Its copies share it.
pub struct Scalars {
    shared: Rc<Vec<Scalar>>,
}

impl Drop for Scalars {
    fn drop(self) {
        let Scalars { shared: _ } = self;
    }
}

impl Model for Scalars {
    ghost use Rattle.std.specs.Prelude.{List};
    ghost use Rattle.std.specs.Rc.{rc_value};
    ghost use Rattle.sig_base.specs.declared.scalar.Scalar.{Scalar};

    ghost Value = { List Scalar };

    ghost view = { λ s. (rc_value s.shared).items };
}

impl Scalars {
    /// The list of these scalars.
    pub fn of(alloc: Global, values: Vec<Scalar>) -> Result<Scalars, NoMemory>
        ensures { IfOk result (λ s. s ≡ values.items) }
    {
        Ok(Scalars {
            shared: Rc::new(alloc, values)?,
        })
    }

    /// The scalars in order.
    pub fn as_slice(&self) -> &[Scalar]
        ensures { result.now ≡ self.now }
    {
        self.shared.as_slice()
    }

    /// The same list, which is shared.
    pub fn copy(&self) -> Result<Scalars, NoMemory>
        ensures { IfOk result (λ s. s ≡ self.now) }
    {
        Ok(Scalars {
            shared: self.shared.clone()?,
        })
    }
}

/// A row: its key, and one value for each field.
pub struct Row {
    pub key: Text,
    pub values: Scalars,
}

impl Drop for Row {
    #[inline(always)]
    fn drop(self) {
        let Row { key: _, values: _ } = self;
    }
}

impl Row {
    /// The same row, which shares its values, and its key where that is long.
    #[inline(always)]
    pub fn copy(&self) -> Result<Row, NoMemory>
        ensures { IfOk result (λ r. r ≡ self.now) }
    {
        Ok(Row {
            key: self.key.copy()?,
            values: self.values.copy()?,
        })
    }
}

impl PartialEq for Row {
    ghost eq = { same_row };

    ghost laws = { partial_equiv_from_equiv (decided same_row same_row-Decides) };

    fn eq(&self, other: &Row) -> bool {
        self.key == other.key && self.values.as_slice() == other.values.as_slice()
    }
}

impl Eq for Row {
    ghost laws = { decided same_row same_row-Decides };
}

/// Named fields, and rows in order under distinct keys with one value for each field. Copies share both lists.
pub struct Rows {
    fields: Rc<Vec<Name>>,
    rows: Rc<Vec<Row>>,
    // where a comparison looks first: the place of the row that was changed last, if there was one
    changed: usize,
}

impl Drop for Rows {
    fn drop(self) {
        let Rows {
            fields: _,
            rows: _,
            changed: _,
        } = self;
    }
}

impl Model for Rows {
    ghost use Rattle.std.specs.Rc.{rc_value};
    ghost use Rattle.sig_base.specs.Tables.{AreRows, Table};

    ghost Value = { Table };

    ghost view = { λ r. record { fields = (rc_value r.fields).items; rows = (rc_value r.rows).items } };

    ghost invariant = { λ r. AreRows (rc_value r.fields).items (rc_value r.rows).items };
}

impl Rows {
    /// These rows, for at most `MOST_FIELDS` distinct fields other than `key` and at most `MOST_ROWS` rows with distinct keys
    /// and one value for each field.
    pub fn of(alloc: Global, fields: Vec<Name>, rows: Vec<Row>) -> Result<Rows, NoMemory>
        requires { AreRows fields.items rows.items }
        ensures { IfOk result (λ r. r ≡ record { fields = fields.items; rows = rows.items }) }
    {
        Ok(Rows {
            fields: Rc::new(alloc, fields)?,
            rows: Rc::new(alloc, rows)?,
            changed: 0,
        })
    }

    /// The names of the fields.
    pub fn fields(&self) -> &[Name]
        ensures { result.now ≡ self.now.fields }
    {
        self.fields.as_slice()
    }

    /// The rows in order.
    pub fn rows(&self) -> &[Row]
        ensures rows { result.now ≡ self.now.rows }
        ensures sound { AreRows self.now.fields self.now.rows }
    {
        self.rows.as_slice()
    }

    /// How many rows there are.
    pub fn len(&self) -> usize
        ensures { result ≡ length self.now.rows }
    {
        self.rows.len()
    }

    /// The row at a place.
    pub fn row(&self, place: usize) -> &Row
        requires { place < length self.now.rows }
        ensures { slice_get self.now.rows place ≡ Some result.now }
    {
        &self.rows[place]
    }

    /// These rows under the same fields, which are shared, where `Rows::of` would take them.
    pub fn with_rows(&self, alloc: Global, rows: Vec<Row>) -> Result<Rows, NoMemory>
        requires { AreRows self.now.fields rows.items }
        ensures { IfOk result (λ r. r ≡ record { fields = self.now.fields; rows = rows.items }) }
    {
        Ok(Rows {
            fields: self.fields.clone()?,
            rows: Rc::new(alloc, rows)?,
            changed: self.changed,
        })
    }

    /// The rows whose mark is true, in order, for as many marks as rows.
    pub fn keep_by(&self, alloc: Global, marks: &[bool]) -> Result<Rows, NoMemory>
        requires { length marks.now ≡ length self.now.rows }
        ensures { IfOk result (λ r. r ≡ record { fields = self.now.fields; rows = marked marks.now self.now.rows }) }
    {
        let rows = marked_rows(alloc, self.rows(), marks)?;
        let kept = self.with_rows(alloc, rows)?;
        Ok(kept)
    }

    /// The same rows, which are shared.
    pub fn copy(&self) -> Result<Rows, NoMemory>
        ensures { IfOk result (λ r. r ≡ self.now) }
    {
        Ok(Rows {
            fields: self.fields.clone()?,
            rows: self.rows.clone()?,
            changed: self.changed,
        })
    }

    /// Notes the place of the row in which they differ from those of before: where they are compared with others, it is looked at first.
    pub fn note_changed(&mut self, place: usize)
        ensures { self.new ≡ self.old }
    {
        self.changed = place;
    }
}

// Whether rows are known to differ from others, by how many there are or by those at a place.
fn differ_at(rows: &Rows, others: &Rows, place: usize) -> bool
    ensures { result ≡ true → rows.now ≡ others.now → ⊥ }
{
    if rows.len() != others.len() {
        return true;
    }
    if place >= rows.len() {
        return false;
    }
    rows.row(place) != others.row(place)
}

// Whether rows are known to differ from others without a look at all of them.
fn differ(rows: &Rows, others: &Rows) -> bool
    ensures { result ≡ true → rows.now ≡ others.now → ⊥ }
{
    differ_at(rows, others, others.changed) || differ_at(rows, others, rows.changed)
}

impl PartialEq for Rows {
    ghost eq = { same_table };

    ghost laws = { partial_equiv_from_equiv (decided same_table same_table-Decides) };

    fn eq(&self, other: &Rows) -> bool {
        if differ(self, other) {
            return false;
        }
        self.fields.as_slice() == other.fields.as_slice()
            && self.rows.as_slice() == other.rows.as_slice()
    }
}

impl Eq for Rows {
    ghost laws = { decided same_table same_table-Decides };
}

// The rows whose mark is true.
fn marked_rows(alloc: Global, rows: &[Row], marks: &[bool]) -> Result<Vec<Row>, NoMemory>
    requires { length marks.now ≡ length rows.now }
    ensures { IfOk result (λ kept. kept.items ≡ marked marks.now rows.now) }
{
    let mut kept = Vec::new(alloc);
    for (at, row) in rows.iter().enumerate() {
        if marks[at] {
            kept.push(row.copy()?)?;
        }
    }
    Ok(kept)
}

// Rows that are gone over, and what is made of those that were gone over.
ghost use Rattle.std.specs.Prelude.{◌≡◌, ◌<◌, ◌≤◌, [], ◌∷◌, ◌++◌, false, length, OnOk, IfOk, IfSome};
ghost use Rattle.sig_base.specs.Tables.{marked};
ghost use Rattle.sig_base.specs.declared.value.Value.TheVariants as value;
ghost use Rattle.sig_formula.specs.Machines.{going_over, is_within, made, place_of, row_of, rows_of};

use crate::RowRef;
use crate::program::Gathering;
use sig_base::{NoMemory, Rows, Value};
use std::alloc::Global;
use std::marker::Model;

/// Where an evaluation stands in what is added up: at a row, with the sum before it.
#[derive(Drop)]
pub struct Adding {
    pub(crate) rows: Rows,
    pub(crate) place: usize,
    pub(crate) sum: Value,
}

/// Where an evaluation stands in the test of rows: at the row behind those that are marked.
pub struct Keeping {
    rows: Rows,
    marks: Vec<bool>,
}

impl Drop for Keeping {
    fn drop(self) {
        let Keeping { rows: _, marks: _ } = self;
    }
}

impl Model for Keeping {
    ghost use Rattle.std.specs.Prelude.{◌≤◌, length};
    ghost use Rattle.sig_formula.specs.Marked.{MarkedRows};

    ghost Value = { MarkedRows };

    ghost view = { λ k. record { rows = k.rows; marks = k.marks.items } };

    ghost invariant = { λ k. length k.marks.items ≤ length k.rows.rows };
}

impl Keeping {
    /// These rows, none of which is marked.
    pub(crate) fn new(alloc: Global, rows: Rows) -> Keeping
        ensures { result ≡ record { rows = rows; marks = [] } }
    {
        Keeping {
            rows,
            marks: Vec::new(alloc),
        }
    }

    /// The rows, marked or not.
    pub(crate) fn rows(&self) -> &Rows
        ensures { result.now ≡ self.now.rows }
    {
        &self.rows
    }

    /// The place of the row that is tested next.
    pub(crate) fn place(&self) -> usize
        ensures place { result ≡ length self.now.marks }
        ensures within { result ≤ length self.now.rows.rows }
    {
        self.marks.len()
    }

    /// Marks the row that is tested next.
    pub(crate) fn mark(&mut self, mark: bool) -> Result<(), NoMemory>
        requires { length self.old.marks < length self.old.rows.rows }
        ensures { OnOk result (self.new ≡ record { rows = self.old.rows; marks = self.old.marks ++ mark ∷ [] }) }
    {
        self.marks.push(mark)?;
        Ok(())
    }

    /// The rows whose mark is true, once each has one.
    pub(crate) fn kept(&self, alloc: Global) -> Result<Rows, NoMemory>
        requires { length self.now.marks ≡ length self.now.rows.rows }
        ensures { IfOk result (λ r. r ≡ record { fields = self.now.rows.fields; rows = marked self.now.marks self.now.rows.rows }) }
    {
        let kept = self.rows.keep_by(alloc, self.marks.as_slice())?;
        Ok(kept)
    }
}

/// What is made of rows, and the row at which it stands.
#[derive(Drop)]
pub enum Going {
    /// A sum over them.
    Adding(Adding),
    /// Those that are kept.
    Keeping(Keeping),
}

impl Going {
    /// At the first of these rows.
    pub(crate) fn over(alloc: Global, gathering: Gathering, rows: Rows) -> Going
        ensures { result ≡ going_over gathering rows }
    {
        match gathering {
            Gathering::Sum => Going::Adding(Adding {
                rows,
                place: 0,
                sum: Value::Int(0),
            }),
            Gathering::Keep => Going::Keeping(Keeping::new(alloc, rows)),
        }
    }

    fn rows(&self) -> &Rows
        ensures { result.now ≡ rows_of self.now }
    {
        match self {
            Going::Adding(at) => &at.rows,
            Going::Keeping(at) => at.rows(),
        }
    }

    fn place(&self) -> usize
        ensures { result ≡ place_of self.now }
    {
        match self {
            Going::Adding(at) => at.place,
            Going::Keeping(at) => at.place(),
        }
    }

    /// Whether it stands at a row, and not behind the last one.
    pub(crate) fn is_within(&self) -> bool
        ensures { result ≡ is_within self.now }
    {
        self.place() < self.rows().len()
    }

    /// The row at which it stands.
    pub(crate) fn row(&self) -> Result<Option<RowRef>, NoMemory>
        ensures row { IfOk result (λ r. r ≡ row_of self.now) }
        ensures within { IfOk result (λ o. IfSome o (λ r. r.place < length r.rows.rows)) }
    {
        if self.is_within() {
            return Ok(Some(RowRef {
                rows: self.rows().copy()?,
                place: self.place(),
            }));
        }
        Ok(None)
    }

    /// What it comes to behind the last row.
    pub(crate) fn end(self, alloc: Global) -> Result<Value, NoMemory>
        requires { is_within self ≡ false }
        ensures { IfOk result (λ v. v ≡ made self) }
    {
        match self {
            Going::Adding(at) => Ok(at.sum),
            Going::Keeping(at) => Ok(Value::Rows(at.kept(alloc)?)),
        }
    }
}

/// Rows that are gone over, and the place of the instructions for each of them.
#[derive(Drop)]
pub struct Round {
    pub(crate) going: Going,
    pub(crate) body: usize,
}

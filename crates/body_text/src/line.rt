// What a line of a body says.
ghost use Rattle.std.specs.Prelude.{◌≡◌, Ok, Err};
ghost use Rattle.body_text.specs.declared.line.Line.TheVariants as given;

use crate::{NamedFormula, StatementSet};
use effect_model::Plain;
use formula_text::FormulaFault;
use line_forms::NameList;
use sig_base::Name;

/// What a computed is computed by.
#[derive(Drop)]
pub enum Source {
    /// A formula.
    Formula(NamedFormula),
    /// The host formula at a place, with its arguments.
    Host(u64, NameList),
}

/// A statement of one line, with names and formulas as they are written.
pub type PlainLine = Plain<Name, Name, NamedFormula>;

/// A line of a body.
#[derive(Drop)]
pub enum Line {
    /// A statement of one line.
    Plain(PlainLine),
    /// `rewire N = SOURCE` gives a computed another source.
    Rewire(Name, Source),
    /// `when F` begins what is done only where F is true.
    When(NamedFormula),
    /// `effect` begins a nested effect.
    Effect,
    /// `end` ends the innermost of what is begun.
    End,
}

/// What a line is for the place where it stands.
#[derive(Clone, Copy)]
pub enum LineKind {
    /// A statement of one line, and the least set that it stands in.
    Plain(StatementSet),
    /// What an `end` ends, and the least set that it stands in.
    Opens(StatementSet),
    /// An `end`.
    End,
}

/// A line, or what is wrong with it.
pub type ToldLine = Result<Line, FormulaFault>;

/// What a line says: what it is for its place, and the line, or what is wrong with it.
#[derive(Drop)]
pub struct Found {
    pub kind: LineKind,
    pub line: ToldLine,
}

/// A line that nothing is wrong with.
pub fn sound(kind: LineKind, line: Line) -> Found
    ensures { result ≡ record { kind = kind; line = Ok line } }
{
    Found {
        kind,
        line: Ok(line),
    }
}

/// A statement of one line that nothing is wrong with, of this least set.
pub fn statement(set: StatementSet, plain: PlainLine) -> Found
    ensures { result ≡ record { kind = LineKind.Plain set; line = Ok (given.Plain plain) } }
{
    sound(LineKind::Plain(set), Line::Plain(plain))
}

/// A line that something is wrong with.
pub fn faulty(kind: LineKind, fault: FormulaFault) -> Found
    ensures { result ≡ record { kind = kind; line = Err fault } }
{
    Found {
        kind,
        line: Err(fault),
    }
}

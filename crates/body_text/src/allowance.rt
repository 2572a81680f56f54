// What may stand in a body.
ghost use Rattle.std.specs.Prelude.{◌≡◌};
ghost use Rattle.body_text.specs.Allowances.{effects, handlers, has};

use formula_text::Allow;

/// Statements that go together.
#[derive(Clone, Copy)]
pub enum StatementSet {
    /// `set`, `log` and `when`.
    Common,
    /// These, and `cleanup`, `effect`, `dispose` and `rewire`.
    All,
}

impl StatementSet {
    /// Whether the statements of another set are among those of this.
    pub fn has(self, other: StatementSet) -> bool
        ensures { result ≡ has self other }
    {
        match self {
            StatementSet::All => true,
            StatementSet::Common => match other {
                StatementSet::Common => true,
                StatementSet::All => false,
            },
        }
    }
}

/// What may stand in a body: in its formulas, and as its statements.
#[derive(Clone, Copy)]
pub struct Allowance {
    pub formulas: Allow,
    pub statements: StatementSet,
}

impl Allowance {
    /// What may stand in the body of an effect: all statements, and formulas that read without tracking. It has no row.
    pub fn effect() -> Allowance
        ensures { result ≡ effects }
    {
        Allowance {
            formulas: Allow {
                row: false,
                untrack: true,
            },
            statements: StatementSet::All,
        }
    }

    /// What may stand in the body of an event's handler: `set`, `log` and `when`. Nothing that it reads is tracked, so there is no
    /// `untrack`, and it has no row.
    pub fn handler() -> Allowance
        ensures { result ≡ handlers }
    {
        Allowance {
            formulas: Allow {
                row: false,
                untrack: false,
            },
            statements: StatementSet::Common,
        }
    }
}

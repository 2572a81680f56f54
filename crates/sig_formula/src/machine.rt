// A machine that does what formulas ask for.
ghost use Rattle.std.specs.Prelude.{◌≡◌, ◌<◌, ◌∷◌, [], length, false, true, IfOk, IfSome, OnOk};
ghost use Rattle.std.specs.Option.{option_copied};
ghost use Rattle.sig_base.specs.Values.{scalar_value};
ghost use Rattle.sig_base.specs.declared.value.Outcome.TheVariants.{Good};
ghost use Rattle.sig_formula.specs.declared.formula.BinOp.TheVariants as op;
ghost use Rattle.sig_formula.specs.Evaluation.{calculation, count_outcome, field_outcome, key_outcome, negated};
ghost use Rattle.sig_formula.specs.Machines.{added, after_left, after_part, after_right, after_rows, after_test, arrived, before, done, ended, first_of, given, is_within, kept, mapped};
ghost use Rattle.sig_formula.specs.Machines.{moved, next_of, others, out, popped, row_at_hand, used};

use crate::operate::{calculation, counted, decided, negated, operated};
use crate::program::{Act, Gathering};
use crate::rounds::{Adding, Going, Keeping, Round};
use crate::row::{field_outcome, key_outcome};
use crate::{BinOp, RowRef};
use sig_base::{Fault, Name, NoMemory, Outcome, Scalar, Value};
use std::alloc::Global;
use std::marker::Model;

/// How far an evaluation has come.
#[derive(Drop)]
pub(crate) struct Machine {
    // how many instructions are left
    left: usize,
    // the values of parts that were evaluated, the last one on top
    values: Vec<Value>,
    // the rows that are gone over, the innermost on top
    rounds: Vec<Round>,
}

impl Model for Machine {
    ghost use Rattle.std.specs.Prelude.{reverse};
    ghost use Rattle.sig_formula.specs.Machines.{Machine};

    ghost Value = { Machine };

    ghost view = { λ m. record { left = m.left; values = reverse m.values.items; rounds = reverse m.rounds.items } };
}

// Takes away what is there; mostly nothing is.
fn empty<T: Drop>(list: &mut Vec<T>)
    ensures { list.new.items ≡ [] }
{
    if list.is_empty() {
        return;
    }
    list.clear();
}

impl Machine {
    /// With so many instructions left, and nothing evaluated.
    pub(crate) fn new(alloc: Global, left: usize) -> Machine
        ensures { result ≡ record { left = left; values = []; rounds = [] } }
    {
        Machine {
            left,
            values: Vec::new(alloc),
            rounds: Vec::new(alloc),
        }
    }

    /// How many instructions are behind the next one; none where none is left.
    pub(crate) fn place(&self) -> Option<usize>
        ensures { result ≡ before self.now.left }
    {
        self.left.checked_sub(1)
    }

    /// Begins anew, with so many instructions left.
    pub(crate) fn restart(&mut self, left: usize)
        ensures { self.new ≡ record { left = left; values = []; rounds = [] } }
    {
        self.left = left;
        empty(&mut self.values);
        empty(&mut self.rounds);
    }

    // Goes on at a place.
    fn go(&mut self, left: usize)
        ensures { self.new ≡ moved left self.old }
    {
        self.left = left;
    }

    /// Puts a value on top, and goes on at a place.
    pub(crate) fn push(&mut self, left: usize, value: Value) -> Result<(), NoMemory>
        ensures { OnOk result (self.new ≡ record { left = left; values = value ∷ self.old.values; rounds = self.old.rounds }) }
    {
        self.values.push(value)?;
        self.left = left;
        Ok(())
    }

    // Takes the value on top away.
    fn pop(&mut self) -> Option<Value>
        ensures value { result ≡ first_of self.old.values }
        ensures rest { self.new ≡ popped self.old }
    {
        self.values.pop()
    }

    // Goes over rows from the one on at which the round stands.
    fn enter(&mut self, round: Round) -> Result<(), NoMemory>
        ensures { OnOk result (self.new ≡ record { left = round.body; values = self.old.values; rounds = round ∷ self.old.rounds }) }
    {
        let body = round.body;
        self.rounds.push(round)?;
        self.left = body;
        Ok(())
    }

    // Takes the innermost round away.
    fn leave(&mut self) -> Option<Round>
        ensures round { result ≡ first_of self.old.rounds }
        ensures rest { self.new ≡ out self.old }
    {
        self.rounds.pop()
    }

    // The innermost round.
    fn innermost(&self) -> Option<&Round>
        ensures { option_copied result ≡ first_of self.now.rounds }
    {
        self.rounds.last()
    }

    /// What the formula comes to, where no instruction is left.
    pub(crate) fn end(&mut self) -> Outcome
        ensures { result ≡ ended (first_of self.old.values) }
    {
        match self.pop() {
            Some(value) => Outcome::Good(value),
            None => Outcome::Bad(Fault::Kind),
        }
    }

    // Goes on at a place with what a part comes to.
    fn give(&mut self, left: usize, outcome: Outcome) -> Result<Option<Fault>, NoMemory>
        ensures { IfOk result (λ o. next_of o self.new ≡ given outcome left self.old) }
    {
        match outcome {
            Outcome::Good(value) => {
                self.push(left, value)?;
                Ok(None)
            }
            Outcome::Bad(fault) => Ok(Some(fault)),
        }
    }

    // A field of the row at hand.
    fn field(&self, field: &Name, row: Option<&RowRef>) -> Result<Outcome, NoMemory>
        requires { IfSome row (λ r. r.now.place < length r.now.rows.rows) }
        ensures { IfOk result (λ o. o ≡ field_outcome field.now (row_at_hand self.now.rounds (option_copied row.entry))) }
    {
        let Some(round) = self.innermost() else {
            return field_outcome(field, row);
        };
        match round.going.row()? {
            Some(at) => field_outcome(field, Some(&at)),
            None => field_outcome(field, None),
        }
    }

    // Its key.
    fn key(&self, row: Option<&RowRef>) -> Result<Outcome, NoMemory>
        requires { IfSome row (λ r. r.now.place < length r.now.rows.rows) }
        ensures { IfOk result (λ o. o ≡ key_outcome (row_at_hand self.now.rounds (option_copied row.entry))) }
    {
        let Some(round) = self.innermost() else {
            return key_outcome(row);
        };
        match round.going.row()? {
            Some(at) => key_outcome(Some(&at)),
            None => key_outcome(None),
        }
    }

    fn negate(&mut self, left: usize) -> Result<Option<Fault>, NoMemory>
        ensures { IfOk result (λ o. next_of o self.new ≡ mapped negated (first_of self.old.values) left (popped self.old)) }
    {
        match self.pop() {
            Some(value) => self.give(left, negated(&value)),
            None => Ok(Some(Fault::Kind)),
        }
    }

    fn count(&mut self, left: usize) -> Result<Option<Fault>, NoMemory>
        ensures { IfOk result (λ o. next_of o self.new ≡ mapped count_outcome (first_of self.old.values) left (popped self.old)) }
    {
        match self.pop() {
            Some(value) => self.give(left, counted(&value)),
            None => Ok(Some(Fault::Kind)),
        }
    }

    fn decide(&mut self, op: BinOp, end: usize, left: usize) -> Result<Option<Fault>, NoMemory>
        ensures { IfOk result (λ o. next_of o self.new ≡ after_left op (first_of self.old.values) end left (popped self.old)) }
    {
        let Some(value) = self.pop() else {
            return Ok(Some(Fault::Kind));
        };
        match decided(op, &value) {
            Some(outcome) => self.give(end, outcome),
            None => self.give(left, Outcome::Good(value)),
        }
    }

    fn operate(&mut self, alloc: Global, op: BinOp, left: usize) -> Result<Option<Fault>, NoMemory>
        ensures { IfOk result (λ o. next_of o self.new ≡
            after_right op (first_of (others self.old.values)) (first_of self.old.values) left (popped (popped self.old))) }
    {
        let second = self.pop();
        let first = self.pop();
        let (Some(first), Some(second)) = (first, second) else {
            return Ok(Some(Fault::Kind));
        };
        let outcome = operated(alloc, op, first, second)?;
        self.give(left, outcome)
    }

    fn test(&mut self, other: usize, left: usize) -> Option<Fault>
        ensures { next_of result self.new ≡ after_test (first_of self.old.values) other left (popped self.old) }
    {
        match self.pop() {
            Some(Value::Bool(true)) => {
                self.go(left);
                None
            }
            Some(Value::Bool(false)) => {
                self.go(other);
                None
            }
            _ => Some(Fault::Kind),
        }
    }

    // Goes on with the part of the row at which rows are gone over; behind the last one, with what was made of them.
    fn arrive(
        &mut self,
        alloc: Global,
        going: Going,
        body: usize,
        end: usize,
    ) -> Result<Option<Fault>, NoMemory>
        ensures { IfOk result (λ o. next_of o self.new ≡ arrived going body end self.old) }
    {
        if going.is_within() {
            self.enter(Round { going, body })?;
            return Ok(None);
        }
        let value = going.end(alloc)?;
        self.give(end, Outcome::Good(value))
    }

    fn begin(
        &mut self,
        alloc: Global,
        gathering: Gathering,
        end: usize,
        left: usize,
    ) -> Result<Option<Fault>, NoMemory>
        ensures { IfOk result (λ o. next_of o self.new ≡ after_rows gathering (first_of self.old.values) end left (popped self.old)) }
    {
        match self.pop() {
            Some(Value::Rows(rows)) => {
                self.arrive(alloc, Going::over(alloc, gathering, rows), left, end)
            }
            _ => Ok(Some(Fault::Kind)),
        }
    }

    // What follows the part of a row that is added up.
    fn add(
        &mut self,
        alloc: Global,
        at: Adding,
        part: &Value,
        body: usize,
        end: usize,
    ) -> Result<Option<Fault>, NoMemory>
        requires { at.place < length at.rows.rows }
        ensures { IfOk result (λ o. next_of o self.new ≡ added at (calculation op.Add at.sum part.now) body end self.old) }
    {
        match calculation(BinOp::Add, &at.sum, part) {
            Outcome::Good(sum) => {
                let place = at.place + 1;
                let rows = at.rows;
                self.arrive(alloc, Going::Adding(Adding { rows, place, sum }), body, end)
            }
            Outcome::Bad(fault) => Ok(Some(fault)),
        }
    }

    // What follows the test of a row.
    fn mark(
        &mut self,
        alloc: Global,
        at: Keeping,
        test: &Value,
        body: usize,
        end: usize,
    ) -> Result<Option<Fault>, NoMemory>
        requires { length at.marks < length at.rows.rows }
        ensures { IfOk result (λ o. next_of o self.new ≡ kept at test.now body end self.old) }
    {
        let Value::Bool(mark) = test else {
            return Ok(Some(Fault::Kind));
        };
        let mut at = at;
        at.mark(*mark)?;
        self.arrive(alloc, Going::Keeping(at), body, end)
    }

    // What follows the part of a row.
    fn use_part(
        &mut self,
        alloc: Global,
        going: Going,
        part: &Value,
        body: usize,
        end: usize,
    ) -> Result<Option<Fault>, NoMemory>
        requires { is_within going ≡ true }
        ensures { IfOk result (λ o. next_of o self.new ≡ used going part.now body end self.old) }
    {
        match going {
            Going::Adding(at) => self.add(alloc, at, part, body, end),
            Going::Keeping(at) => self.mark(alloc, at, part, body, end),
        }
    }

    fn next(&mut self, alloc: Global, left: usize) -> Result<Option<Fault>, NoMemory>
        ensures { IfOk result (λ o. next_of o self.new ≡ after_part (first_of self.old.values) (first_of self.old.rounds) left (out (popped self.old))) }
    {
        let part = self.pop();
        let round = self.leave();
        let (Some(part), Some(round)) = (part, round) else {
            return Ok(Some(Fault::Kind));
        };
        if round.going.is_within() {
            return self.use_part(alloc, round.going, &part, round.body, left);
        }
        Ok(Some(Fault::Kind))
    }

    /// Does what an instruction asks for, by the number of those behind it: the fault with which the evaluation is over, if it is.
    ///
    /// # Errors
    ///
    /// `NoMemory` alone.
    pub(crate) fn perform(
        &mut self,
        alloc: Global,
        act: &Act,
        left: usize,
        row: Option<&RowRef>,
    ) -> Result<Option<Fault>, NoMemory>
        requires { IfSome row (λ r. r.now.place < length r.now.rows.rows) }
        ensures { IfOk result (λ o. next_of o self.new ≡ done act.now left (option_copied row.entry) self.old) }
    {
        match act {
            Act::Lit(scalar) => {
                let value = Value::from(scalar.copy()?);
                self.give(left, Outcome::Good(value))
            }
            Act::It(field) => {
                let outcome = self.field(field, row)?;
                self.give(left, outcome)
            }
            Act::ItKey => {
                let outcome = self.key(row)?;
                self.give(left, outcome)
            }
            Act::Not => self.negate(left),
            Act::Count => self.count(left),
            Act::Decide(op, end) => self.decide(*op, *end, left),
            Act::Operate(op) => self.operate(alloc, *op, left),
            Act::Test(other) => Ok(self.test(*other, left)),
            Act::Skip(end) => {
                self.go(*end);
                Ok(None)
            }
            Act::Begin(gathering, end) => self.begin(alloc, *gathering, *end, left),
            Act::Next => self.next(alloc, left),
        }
    }
}

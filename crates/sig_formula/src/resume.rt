// An evaluation that goes on from the slot at which it stopped.
ghost use Rattle.std.specs.Prelude.{◌≡◌, ◌<◌, [], length, true, List, Option, Some, IfOk, IfSome, OnOk};
ghost use Rattle.std.specs.Option.{option_copied};
ghost use Rattle.sig_base.specs.declared.value.Known.{Known};
ghost use Rattle.sig_formula.specs.declared.formula.RowRef.{RowRef};
ghost use Rattle.sig_formula.specs.Evaluation.{answer_of, formula_step, step_by};
ghost use Rattle.sig_formula.specs.Programs.{code};
ghost use Rattle.sig_formula.specs.Machines.{IsPaused, IsReached, begun, is_asked, next_by, stepped};
ghost use Rattle.sig_formula.specs.Trees.{Tree, tree};

use crate::evaluate::served;
use crate::machine::Machine;
use crate::program::{Instruction, place, put};
use crate::{Formula, FormulaStep, RowRef};
use sig_base::{Fault, Known, NoMemory, Outcome};
use std::alloc::Global;
use std::marker::Model;

/// An evaluation of a formula: its instructions, and how far it has come with them.
#[derive(Drop)]
pub struct Paused {
    program: Vec<Instruction>,
    machine: Machine,
}

impl Model for Paused {
    ghost use Rattle.sig_formula.specs.Machines.{Evaluation};

    ghost Value = { Evaluation };

    ghost view = { λ p. record { program = p.program.items; machine = p.machine } };
}

impl Paused {
    /// An evaluation of a formula that has read nothing. Outside of `untrack` its reads are tracked as `tracking` says.
    ///
    /// # Errors
    ///
    /// `NoMemory` alone.
    pub(crate) fn begun(alloc: Global, tracking: bool, f: &Formula) -> Result<Paused, NoMemory>
        ensures { IfOk result (λ p. p ≡ begun (code tracking (tree f.now) [])) }
    {
        let mut program = Vec::new(alloc);
        put(&mut program, tracking, f)?;
        let machine = Machine::new(alloc, place(&program));
        Ok(Paused { program, machine })
    }

    /// An evaluation of a formula that has read nothing.
    ///
    /// # Errors
    ///
    /// `NoMemory` alone.
    #[tactic(auto, using(crate::proofs::Progress::begun_is_paused))]
    pub fn new(alloc: Global, f: &Formula) -> Result<Paused, NoMemory>
        ensures { IfOk result (λ p. (row : Option RowRef) → IsPaused p (tree f.now) row []) }
    {
        let paused = Paused::begun(alloc, false, f)?;
        Ok(paused)
    }

    // One step: none where the evaluation goes on.
    fn step(
        &mut self,
        alloc: Global,
        row: Option<&RowRef>,
        tracked: &[Known],
        aside: &[Known],
    ) -> Result<Option<FormulaStep>, NoMemory>
        requires { IfSome row (λ r. r.now.place < length r.now.rows.rows) }
        ensures program { OnOk result (self.new.program ≡ self.old.program) }
        ensures next { IfOk result (λ o. next_by o self.new.machine ≡ stepped self.old.program (option_copied row.entry) tracked.now aside.now self.old.machine) }
        ensures asks { IfOk result (λ o. is_asked o ≡ true → self.new ≡ self.old) }
    {
        let Some(left) = self.machine.place() else {
            let outcome = self.machine.end();
            return Ok(Some(FormulaStep::End(outcome)));
        };
        match self.program.get(left) {
            Some(Instruction::Read(slot, tracking)) => {
                let Some(value) = served(*tracking, *slot, tracked, aside) else {
                    return Ok(Some(FormulaStep::Ask(*slot, *tracking)));
                };
                self.machine.push(left, value.copy()?)?;
                Ok(None)
            }
            Some(Instruction::Do(act)) => {
                match self.machine.perform(alloc, act, left, row)? {
                    Some(fault) => Ok(Some(FormulaStep::End(Outcome::Bad(fault)))),
                    None => Ok(None),
                }
            }
            None => Ok(Some(FormulaStep::End(Outcome::Bad(Fault::Kind)))),
        }
    }

    /// Goes on with the evaluation of a formula: what it comes to, by the formula and the row of the calls before and by values that begin
    /// with those of the call before.
    ///
    /// # Errors
    ///
    /// `NoMemory` alone.
    #[tactic(auto, using(crate::proofs::Progress::reached_on, crate::proofs::Progress::reached_ends, crate::proofs::Progress::reached_falls))]
    pub(crate) fn run(
        &mut self,
        alloc: Global,
        tracking: bool,
        f: &Formula,
        row: Option<&RowRef>,
        tracked: &[Known],
        aside: &[Known],
    ) -> Result<FormulaStep, NoMemory>
        requires row { IfSome row (λ r. r.now.place < length r.now.rows.rows) }
        requires reached { IsReached tracking self.old (tree f.now) (option_copied row) tracked.now aside.now }
        ensures answer { IfOk result (λ s. s ≡ formula_step tracking (tree f.now) (option_copied row.entry) tracked.now aside.now) }
        ensures program { OnOk result (self.new.program ≡ self.old.program) }
        ensures asked { IfOk result (λ s. is_asked (Some s) ≡ true →
            IsReached tracking self.new (tree f.now) (option_copied row.entry) tracked.now aside.now) }
    {
        'steps: loop {
            if let Some(step) = self.step(alloc, row, tracked, aside)? {
                return Ok(step);
            }
        }
    }

    // Goes back to the first of the instructions.
    fn rewind(&mut self)
        ensures { self.new ≡ begun self.old.program }
    {
        self.machine.restart(place(&self.program));
    }

    /// Begins the evaluation of the same formula anew: nothing is read then. It takes no memory.
    #[tactic(auto, using(crate::proofs::Progress::anew_from))]
    pub fn restart(&mut self)
        ensures { (t : Tree) (row : Option RowRef) (known : List Known) → IsPaused self.old t row known → IsPaused self.new t row [] }
    {
        self.rewind();
    }

    /// Goes on with the evaluation of the formula and the row of the calls before, by values that begin with those of the call before: the
    /// slot that it needs and that isn't known. Where there is none, what the formula comes to stands in `outcome`.
    ///
    /// # Errors
    ///
    /// `NoMemory` alone, after which it may only be dropped.
    #[tactic(auto, using(crate::proofs::Progress::anew_is_paused, crate::proofs::Progress::end_told))]
    #[inline(never)]
    pub fn advance(
        &mut self,
        alloc: Global,
        f: &Formula,
        row: Option<&RowRef>,
        known: &[Known],
        outcome: &mut Outcome,
    ) -> Result<Option<u32>, NoMemory>
        requires row { IfSome row (λ r. r.now.place < length r.now.rows.rows) }
        requires paused { IsPaused self.old (tree f.now) (option_copied row) known.now }
        ensures answer { IfOk result (λ o. step_by o outcome.new ≡ answer_of (tree f.now) (option_copied row.entry) known.now) }
        ensures paused { OnOk result (IsPaused self.new (tree f.now) (option_copied row.entry) known.now) }
    {
        match self.run(alloc, false, f, row, known, &[])? {
            FormulaStep::Ask(slot, _) => Ok(Some(slot)),
            FormulaStep::End(end) => {
                *outcome = end;
                self.rewind();
                Ok(None)
            }
        }
    }
}

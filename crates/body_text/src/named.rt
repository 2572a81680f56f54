// Formulas with their names.
ghost use Rattle.std.specs.Prelude.{◌≡◌, ◌+◌, ◌<◌, ◌≤◌, ◌^◌, length, IfOk, OnOk};
ghost use Rattle.sig_formula.specs.Trees.{tree};
ghost use Rattle.formula_text.specs.Refusals.{slotted, with_names};
ghost use Rattle.formula_text.specs.Slots.{wired};
ghost use Rattle.body_text.specs.Formulas.{unwired, IsOwn};

use formula_text::Wired;
use line_forms::{formula_among, put_new_names};
use sig_base::{MOST_SOURCES, Name, NoMemory};
use sig_formula::Formula;
use std::alloc::Global;
use std::marker::Model;

/// A formula that nothing is wrong with, with its names.
#[derive(Drop)]
pub struct NamedFormula {
    wired: Box<Wired>,
}

impl Model for NamedFormula {
    ghost use Rattle.formula_text.specs.Grammar.{Draft};
    ghost use Rattle.body_text.specs.Formulas.{draft_code, unwired, IsOwn};

    ghost Value = { Draft };

    ghost coded = { draft_code };

    ghost view = { λ f. unwired f.wired.value };

    ghost invariant = { λ f. IsOwn f.wired.value };
}

impl NamedFormula {
    /// The formula for which a wired one stands whose slots are its own names.
    pub(crate) fn of(alloc: Global, wired: Wired) -> Result<NamedFormula, NoMemory>
        requires { IsOwn wired }
        ensures { IfOk result (λ f. f ≡ unwired wired) }
    {
        let wired = Box::new(alloc, wired)?;
        Ok(NamedFormula { wired })
    }

    /// The formula with its own names as slots.
    pub(crate) fn into_wired(self) -> Wired
        ensures { result ≡ wired self }
    {
        Box::into_inner(self.wired)
    }

    /// Appends the names that aren't there, in the order of the text.
    #[tactic(auto, using(crate::proofs::Slots::own_names, line_forms::proofs::Shared::few_each))]
    pub(crate) fn put_names(&self, names: &mut Vec<Name>) -> Result<(), NoMemory>
        ensures names { OnOk result (names.new.items ≡ with_names names.old.items self.now) }
        ensures few { OnOk result (length names.new.items ≤ length names.old.items + MOST_SOURCES) }
    {
        put_new_names(names, &self.wired.names)
    }

    /// The formula with its places among few names as slots.
    #[tactic(auto, using(crate::proofs::Slots::among_is))]
    pub(crate) fn among(&self, alloc: Global, names: &[Name]) -> Result<Box<Formula>, NoMemory>
        ensures { length names.now < 2 ^ 32 → IfOk result (λ f. tree f.value ≡ slotted names.now self.now) }
    {
        let formula = formula_among(alloc, names, &self.wired)?;
        let boxed = Box::new(alloc, formula)?;
        Ok(boxed)
    }
}

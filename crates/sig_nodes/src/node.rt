// One signal's node.
ghost use Rattle.std.specs.Prelude.{◌≡◌, ℕ, ◌+◌, ◌<◌, ◌^◌, ◌++◌, ◌∷◌, ◌↔◌, [], List, Option, length, take, true, false, None, Some, IfOk, IfSome, IfNone, IsTrue, OnErr, OnOk, is_some, slice_get, if◌then◌else◌};
ghost use Rattle.std.specs.Option.{option_copied};
ghost use Rattle.sig_base.specs.Values.{same_outcome};
ghost use Rattle.signal_model.specs.Recipes.{Hosts};
ghost use Rattle.signal_model.specs.Recipes as recipes;
ghost use Rattle.signal_model.specs.Asks.{is_host};
ghost use Rattle.signal_model.specs.Memos.{is_cycle, is_stale_by, memo_is_cycle, source_names, sources_in};
ghost use Rattle.signal_model.specs.Sound.{kept_outcome};
ghost use Rattle.signal_model.specs.Settling.{has_outcome};
ghost use Rattle.signal_model.specs.Changes.{memo_rewired};
ghost use Rattle.sig_nodes.specs.Computations.{GoesOn, at_generation, known_so_far, paired, recipe_made, renewed};
ghost use Rattle.sig_nodes.specs.Answers.{expression_of, host_place, IsAnswerOf, IsJudgedAnswer, IsStepAnswer};
ghost use Rattle.sig_nodes.specs.Pauses.{IsHeld, IsHeldOf};
ghost use Rattle.sig_nodes.specs.declared.answers.Recipe.{Recipe};
ghost use Rattle.sig_nodes.specs.Reading.{IsToldOf};
ghost use Rattle.sig_base.specs.declared.value.Outcome.TheVariants.{Good};
ghost use Rattle.sig_base.specs.declared.value.Known.{Known};
ghost use Rattle.sig_formula.specs.Evaluation.{answer_of, step_by};
ghost use Rattle.signal_model.specs.Recipes.{judged};
ghost use Rattle.sig_formula.specs.Machines.{IsPaused};
ghost use Rattle.sig_formula.specs.declared.formula.RowRef.{RowRef};
ghost use Rattle.sig_formula.specs.Trees.{tree};

use crate::answers::{Asked, Recipe};
use crate::id_lists::{IdList, Slots};
use sig_base::{Count, Fault, Known, NoMemory, NodeId, Outcome, Step, Value};
use sig_formula::{Formula, Paused, Told, told_at_once};
use signal_model::judged;
use std::alloc::Global;
use std::marker::Model;
use std::mem;

/// A source that was read, with its change number at that time, none for gone.
#[derive(Clone, Copy)]
pub struct Source {
    pub(crate) name: NodeId,
    pub(crate) number: Option<Count>,
}

impl Model for Source {
    ghost use Rattle.signal_model.specs.Memos.{Source};

    ghost Value = { Source };

    ghost view = { λ s. record { name = s.name; number = s.number } };

    ghost inverse = { λ s. record { name = s.name; number = s.number } };
}

/// What a run left: its outcome, its sources in order and the numbers that were read of them, the generation at that time, and
/// whether the computed was rewired since.
#[derive(Drop)]
pub struct Memo {
    sources: IdList,
    rewired: bool,
    outcome: Outcome,
    numbers: Vec<Option<Count>>,
    generation: Count,
}

impl Model for Memo {
    ghost use Rattle.std.specs.Prelude.{◌≡◌, length};
    ghost use Rattle.signal_model.specs.Memos.{Memo};
    ghost use Rattle.sig_nodes.specs.Computations.{paired};

    ghost Value = { Memo };

    ghost view = { λ m. record {
      outcome = m.outcome;
      sources = paired m.sources.items m.numbers.items;
      generation = m.generation;
      rewired = m.rewired;
    } };

    ghost invariant = { λ m. length m.sources.items ≡ length m.numbers.items };
}

impl Memo {
    /// What a run leaves in this generation, by its sources and their numbers.
    pub fn new(
        outcome: Outcome,
        sources: IdList,
        numbers: Vec<Option<Count>>,
        generation: u128,
    ) -> Memo
        requires { length sources.items ≡ length numbers.items }
        ensures { result ≡ record { outcome = outcome; sources = paired sources.items numbers.items; generation = generation; rewired = false } }
    {
        Memo {
            sources,
            rewired: false,
            outcome,
            numbers,
            generation: Count::of(generation),
        }
    }

    pub(crate) fn outcome(&self) -> &Outcome
        ensures { result.now ≡ self.now.outcome }
    {
        &self.outcome
    }

    fn sources(&self) -> &[NodeId]
        ensures { result.now ≡ source_names self.now.sources }
    {
        self.sources.as_slice()
    }

    // Whether it is of a run that read exactly these.
    fn has_read(&self, names: &[NodeId]) -> bool
        ensures { result ≡ true → source_names self.now.sources ≡ names.now }
    {
        are_same(self.sources(), names)
    }

    #[inline(always)]
    fn source(&self, place: usize) -> Option<Source>
        ensures { result ≡ slice_get self.now.sources place }
    {
        let sources = self.sources.as_slice();
        if place < sources.len() {
            Some(Source {
                name: sources[place],
                number: self.numbers[place],
            })
        } else {
            None
        }
    }

    #[inline(always)]
    fn is_stale(&self, generation: u128) -> bool
        ensures { result ≡ is_stale_by (at_generation generation) (Some self.now) }
    {
        if is_cycle(&self.outcome) {
            !self.generation.is(&Count::of(generation))
        } else {
            self.rewired
        }
    }

    // A run more of the same sources, of which these are the numbers now: they go where those of before stand, which are left in their place.
    // The computed's own number rises where the outcome is another. It gives the list of the sources; without memory nothing changes. The
    // sources, the memo, the number and the list are told apart, and so are the ends with memory and without.
    fn renew(
        &mut self,
        number: &mut Count,
        outcome: &Outcome,
        numbers: &mut Vec<Option<Count>>,
        generation: u128,
    ) -> Result<IdList, NoMemory>
        requires numbers { length numbers.old.items ≡ length self.old.sources }
        requires worn { number.old + 1 < 2 ^ 128 }
        ensures memo { OnOk result (self.new ≡ renewed (Some self.old) outcome.now numbers.old.items generation) }
        ensures number { OnOk result (number.new ≡ number.old + (if has_outcome (Some self.old) outcome.now then 0 else 1)) }
        ensures list { IfOk result (λ l. l.items ≡ source_names self.old.sources) }
        ensures err { OnErr result (self.new ≡ self.old) }
        ensures err_number { OnErr result (number.new ≡ number.old) }
    {
        let list = self.sources.copy()?;
        put_outcome(&mut self.outcome, number, outcome)?;
        mem::swap(&mut self.numbers, numbers);
        self.generation = Count::of(generation);
        self.rewired = false;
        Ok(list)
    }

    fn mark_rewired(&mut self)
        ensures { self.new ≡ record self.old { rewired = true } }
    {
        self.rewired = true;
    }
}

// Whether these are the same ids in one order.
fn are_same(ids: &[NodeId], others: &[NodeId]) -> bool
    ensures { result ≡ true → ids.now ≡ others.now }
{
    ids == others
}

// Whether two outcomes are the same. Most are whole numbers, which are compared at once.
#[inline(always)]
fn is_same(outcome: &Outcome, other: &Outcome) -> bool
    ensures value { result ≡ same_outcome outcome.now other.now }
    ensures exact { IsTrue result ↔ (outcome.now ≡ other.now) }
{
    match (outcome, other) {
        (Outcome::Good(Value::Int(m)), Outcome::Good(Value::Int(n))) => m == n,
        _ => outcome.same(other),
    }
}

// Puts a whole number in place of a whole number, which takes no memory. Whether both are such.
#[inline(always)]
fn put_int(held: &mut Outcome, outcome: &Outcome) -> bool
    ensures put { result ≡ true → held.new ≡ outcome.now }
    ensures left { result ≡ false → held.new ≡ held.old }
{
    let Outcome::Good(Value::Int(n)) = outcome else {
        return false;
    };
    match held {
        Outcome::Good(Value::Int(m)) => {
            *m = *n;
            true
        }
        _ => false,
    }
}

// Puts an outcome in place of another one, and raises a number by one, where the two aren't the same. Without memory nothing changes.
fn put_outcome(held: &mut Outcome, number: &mut Count, outcome: &Outcome) -> Result<(), NoMemory>
    requires { number.old + 1 < 2 ^ 128 }
    ensures held { OnOk result (held.new ≡ outcome.now) }
    ensures number { OnOk result (number.new ≡ number.old + (if same_outcome held.old outcome.now then 0 else 1)) }
    ensures err { OnErr result (held.new ≡ held.old) }
    ensures err_number { OnErr result (number.new ≡ number.old) }
{
    if is_same(held, outcome) {
        return Ok(());
    }
    if put_int(held, outcome) {
        number.raise();
        return Ok(());
    }
    *held = outcome.copy()?;
    number.raise();
    Ok(())
}

/// Whether an outcome is the fault `cycle`.
#[inline(always)]
pub fn is_cycle(outcome: &Outcome) -> bool
    ensures { result ≡ is_cycle outcome.now }
{
    match outcome {
        Outcome::Bad(Fault::Cycle) => true,
        _ => false,
    }
}

/// What is kept of a computed, and while it is computing the values that its recipe was last asked with, and where the evaluation of its
/// formula stands by them.
#[derive(Drop)]
pub struct Computation {
    // what others look at stands together in front, as nodes are many and each is looked at often
    computing: bool,
    // whether the recipe was asked since the evaluation began: until then what is known, and what is held, are of an earlier one
    asked: bool,
    memo: Option<Memo>,
    recipe: Recipe,
    slots: Slots,
    known: Vec<Known>,
    // none before the first answer by a list of instructions, and for a host formula; it is kept from one run to the next, in a box as it is
    // taken out and put back
    paused: Option<Box<Paused>>,
}

impl Model for Computation {
    ghost use Rattle.std.specs.Prelude.{Some, None, if◌then◌else◌};
    ghost use Rattle.sig_formula.specs.Codes.{tree_code};
    ghost use Rattle.std.specs.Coded.{codes};
    ghost use Rattle.sig_nodes.specs.Computations.{Computation, known_so_far, recipe_made};

    ghost Value = { Computation };

    ghost coded = { Prim.hlevel (codes, tree_code) };

    ghost use Rattle.sig_nodes.specs.Computations.{GoesOn};
    ghost use Rattle.sig_nodes.specs.Answers.{expression_of};
    ghost use Rattle.sig_nodes.specs.Pauses.{IsHeld};

    ghost view = { λ c. record {
      recipe = recipe_made (expression_of c.recipe) c.slots.items;
      memo = c.memo;
      known = (if c.computing then Some (known_so_far c.asked c.known.items) else None);
    } };

    ghost invariant = { λ c. IsHeld c.paused c.recipe c.known.items };
}

impl Computation {
    /// One that has not run.
    pub fn new(alloc: Global, recipe: Recipe, slots: Vec<NodeId>) -> Computation
        ensures { result ≡ record { recipe = recipe_made (expression_of recipe) slots.items; memo = None; known = None } }
    {
        Computation {
            computing: false,
            asked: false,
            memo: None,
            recipe,
            slots: Slots::of(slots),
            known: Vec::new(alloc),
            paused: None,
        }
    }

    /// Whether it is being evaluated.
    pub fn is_computing(&self) -> bool
        ensures { result ≡ is_some self.now.known }
    {
        self.computing
    }

    /// The signal that a slot stands for; none where there is no such slot.
    pub fn slot(&self, slot: u32) -> Option<NodeId>
        ensures { result ≡ slice_get self.now.recipe.slots slot }
    {
        self.slots.as_slice().get(slot as usize).copied()
    }

    /// The place of the host formula that the recipe asks.
    pub(crate) fn host(&self) -> Option<usize>
        ensures { result ≡ host_place self.now.recipe.expression }
    {
        host_place(&self.recipe)
    }

    pub(crate) fn kept(&self) -> Option<&Outcome>
        ensures { option_copied result ≡ kept_outcome self.now.memo }
    {
        match &self.memo {
            Some(memo) => Some(memo.outcome()),
            None => None,
        }
    }

    /// The sources of the run that it keeps, in order of first reading; none where it has never run.
    pub fn sources(&self) -> &[NodeId]
        ensures { result.now ≡ source_names (sources_in self.now.memo) }
    {
        match &self.memo {
            Some(memo) => memo.sources(),
            None => &[],
        }
    }

    /// The source at a place of the run that it keeps, with the number that was read.
    #[inline(always)]
    pub fn source(&self, place: usize) -> Option<Source>
        ensures { result ≡ slice_get (sources_in self.now.memo) place }
    {
        match &self.memo {
            Some(memo) => memo.source(place),
            None => None,
        }
    }

    /// Whether it has to run whatever its sources are, in this generation.
    #[inline(always)]
    pub fn is_stale(&self, generation: u128) -> bool
        ensures { result ≡ is_stale_by (at_generation generation) self.now.memo }
    {
        match &self.memo {
            Some(memo) => memo.is_stale(generation),
            None => true,
        }
    }

    /// Whether the memo is the fault `cycle`.
    #[inline(always)]
    pub fn holds_cycle(&self) -> bool
        ensures { result ≡ memo_is_cycle self.now.memo }
    {
        match &self.memo {
            Some(memo) => is_cycle(memo.outcome()),
            None => false,
        }
    }

    /// Whether the memo has this outcome already.
    pub(crate) fn has_outcome(&self, outcome: &Outcome) -> bool
        ensures { result ≡ has_outcome self.now.memo outcome.now }
    {
        match &self.memo {
            Some(memo) => is_same(memo.outcome(), outcome),
            None => false,
        }
    }

    /// Whether the recipe asks the host formula at a place.
    pub(crate) fn asks(&self, place: usize) -> bool
        ensures { result ≡ is_host place self.now.recipe.expression }
    {
        asks_host(&self.recipe, place)
    }

    /// The good value that it is read as, none where it shows a fault or is being evaluated.
    #[inline(always)]
    pub fn value(&self) -> Option<&Value>
        ensures calm { IfSome result (λ v. is_some self.now.known ≡ false) }
        ensures value { IfSome result (λ v. kept_outcome self.now.memo ≡ Some (Good v.now)) }
    {
        if self.computing {
            return None;
        }
        match self.kept() {
            Some(Outcome::Good(value)) => Some(value),
            _ => None,
        }
    }

    /// The formula of the recipe, none where it asks a host formula.
    #[inline(always)]
    pub fn formula(&self) -> Option<&Formula>
        ensures { IfSome result (λ f. self.now.recipe.expression ≡ recipes.formula None (tree f.now)) }
    {
        match &self.recipe {
            Recipe::Formula(formula) => Some(formula),
            Recipe::Host(_) => None,
        }
    }

    /// What is told at once of the recipe by the values known so far: nothing of a host formula.
    #[inline(always)]
    pub fn told(&self, known: &[Known], outcome: &mut Outcome) -> Result<Told, NoMemory>
        ensures { IfOk result (λ t. IsToldOf self.now.recipe known.now t outcome.new) }
    {
        match &self.recipe {
            Recipe::Formula(formula) => {
                let told = told_at_once(formula, known, outcome)?;
                Ok(told)
            }
            Recipe::Host(_) => Ok(Told::Open),
        }
    }

    /// The signals that the slots stand for.
    pub fn slots(&self) -> &[NodeId]
        ensures { result.now ≡ self.now.recipe.slots }
    {
        self.slots.as_slice()
    }

    #[inline(always)]
    pub(crate) fn begin(&mut self)
        ensures { self.new ≡ record self.old { known = Some [] } }
    {
        self.asked = false;
        self.computing = true;
    }

    pub(crate) fn end(&mut self)
        ensures { self.new ≡ record self.old { known = None } }
    {
        self.computing = false;
    }

    /// The recipe's answer to the values known so far, of which the earlier ones are noted already. It notes the others, and the evaluation
    /// of a formula goes on from where it stands.
    pub(crate) fn ask(
        &mut self,
        alloc: Global,
        known: &[Known],
        outcome: &mut Outcome,
    ) -> Result<Asked, NoMemory>
        requires { GoesOn self.old.known known.now }
        ensures kept { self.new ≡ record self.old { known = self.new.known } }
        ensures noted { OnOk result (self.new.known ≡ Some known.now) }
        ensures answer { IfOk result (λ a. IsAnswerOf self.old.recipe known.now a outcome.new) }
        ensures judged { IfOk result (λ a. IsJudgedAnswer (length self.old.recipe.slots) known.now a) }
    {
        forget_earlier(self.asked, &mut self.known, &mut self.paused);
        self.asked = true;
        let mut held = self.paused.take();
        note_rest(&mut self.known, known)?;
        match &self.recipe {
            Recipe::Formula(formula) => {
                let slot = asked(alloc, formula, &mut held, known, outcome)?;
                self.paused = held;
                Ok(judged_answer(self.slots.as_slice().len(), known, slot, outcome))
            }
            Recipe::Host(place) => Ok(Asked::Host(*place)),
        }
    }

    /// Keeps a run, which ends the evaluation.
    pub(crate) fn keep(&mut self, memo: Memo)
        ensures { self.new ≡ record self.old { memo = Some memo; known = None } }
    {
        self.computing = false;
        self.memo = Some(memo);
    }

    /// Keeps a run that read exactly what the kept one did, by the numbers now, which ends the evaluation; its own number rises where the
    /// outcome is another. It gives the list of what was read, none where something else was: then nothing changes, and so it is without
    /// memory. What is kept, the number and the list are told apart, and so is what leaves them as they are.
    pub(crate) fn keep_again(
        &mut self,
        number: &mut Count,
        outcome: &Outcome,
        reads: &[NodeId],
        numbers: &mut Vec<Option<Count>>,
        generation: u128,
    ) -> Result<Option<IdList>, NoMemory>
        requires numbers { length numbers.old.items ≡ length reads.now }
        requires worn { number.old + 1 < 2 ^ 128 }
        ensures list { IfOk result (λ o. IfSome o (λ l. l.items ≡ reads.now)) }
        ensures same { IfOk result (λ o. IfSome o (λ l. source_names (sources_in self.old.memo) ≡ reads.now)) }
        ensures kept { IfOk result (λ o. IfSome o (λ l.
            self.new ≡ record self.old { memo = Some (renewed self.old.memo outcome.now numbers.old.items generation); known = None })) }
        ensures number { IfOk result (λ o. IfSome o (λ l. number.new ≡ number.old + (if has_outcome self.old.memo outcome.now then 0 else 1))) }
        ensures other { IfOk result (λ o. IfNone o ((self.new ≡ self.old) × (number.new ≡ number.old))) }
        ensures err { OnErr result ((self.new ≡ self.old) × (number.new ≡ number.old)) }
    {
        let Some(memo) = &mut self.memo else {
            return Ok(None);
        };
        if !memo.has_read(reads) {
            return Ok(None);
        }
        let list = memo.renew(number, outcome, numbers, generation)?;
        self.computing = false;
        Ok(Some(list))
    }

    /// Gives another recipe.
    pub(crate) fn rewire(&mut self, recipe: Recipe, slots: Vec<NodeId>)
        ensures { self.new ≡ record self.old { recipe = recipe_made (expression_of recipe) slots.items; memo = memo_rewired self.old.memo } }
    {
        self.recipe = recipe;
        self.slots = Slots::of(slots);
        self.paused = None; // it stood in the former recipe
        if let Some(memo) = &mut self.memo {
            memo.mark_rewired();
        }
    }
}

/// What lives in a node.
#[derive(Drop)]
pub enum Body {
    /// Nothing. No node is kept of such a signal: clauses see this where there is none.
    Gone,
    /// A value, and the place of an equality rule.
    Cell(Value, Option<usize>),
    /// What is kept of a computed.
    Computed(Computation),
}

/// One signal's node: its change number, its seat, and what lives in it.
#[derive(Drop)]
pub struct Node {
    pub number: Count,
    pub seat: usize,
    pub body: Body,
}

impl Node {
    /// The node of a signal that is made, at a seat, with what lives in it. Nothing has changed it.
    pub fn new(seat: usize, body: Body) -> Node
        ensures { result ≡ record { number = 0; seat = seat; body = body } }
    {
        Node {
            number: Count::new(),
            seat,
            body,
        }
    }
}

// An evaluation that is held begins anew.
fn restart(held: &mut Option<Box<Paused>>)
    ensures { (r : Recipe) (known : List Known) → IsHeld held.old r known → IsHeld held.new r [] }
{
    if let Some(paused) = held {
        paused.restart();
    }
}

// Leaves what an earlier evaluation knew, and begins what is held anew, unless the recipe was asked in this one.
fn forget_earlier(asked: bool, known: &mut Vec<Known>, held: &mut Option<Box<Paused>>)
    ensures known { known.new.items ≡ known_so_far asked known.old.items }
    ensures held { (r : Recipe) → IsHeld held.old r known.old.items → IsHeld held.new r known.new.items }
{
    if asked {
        return;
    }
    known.clear();
    restart(held);
}

// Puts the values behind those that are there.
fn note_rest(held: &mut Vec<Known>, known: &[Known]) -> Result<(), NoMemory>
    requires { take (length held.old.items) known.now ≡ held.old.items }
    ensures { OnOk result (held.new.items ≡ known.now) }
{
    let rest = known.split_at(held.len()).1;
    for one in rest {
        held.push(one.copy()?)?;
    }
    Ok(())
}

// An evaluation of a formula that has read nothing, in a box.
fn unread(alloc: Global, formula: &Formula) -> Result<Box<Paused>, NoMemory>
    ensures { IfOk result (λ p. (row : Option RowRef) → IsPaused p.value (tree formula.now) row []) }
{
    let paused = Paused::new(alloc, formula)?;
    let boxed = Box::new(alloc, paused)?;
    Ok(boxed)
}

// The evaluation of a formula that is held, or else one that has read nothing.
fn begun(
    alloc: Global,
    formula: &Formula,
    held: Option<Box<Paused>>,
) -> Result<Box<Paused>, NoMemory>
    ensures { IfOk result (λ p. (known : List Known) → IsHeldOf held (tree formula.now) known → IsPaused p.value (tree formula.now) None known) }
{
    match held {
        Some(paused) => Ok(paused),
        None => unread(alloc, formula),
    }
}

// Goes on with an evaluation in a box: the slot that the formula needs, or else what it comes to stands in a place.
fn advanced(
    alloc: Global,
    formula: &Formula,
    paused: &mut Box<Paused>,
    known: &[Known],
    outcome: &mut Outcome,
) -> Result<Option<u32>, NoMemory>
    requires { IsPaused paused.old.value (tree formula.now) None known.now }
    ensures answer { IfOk result (λ slot. step_by slot outcome.new ≡ answer_of (tree formula.now) None known.now) }
    ensures paused { OnOk result (IsPaused paused.new.value (tree formula.now) None known.now) }
{
    let slot = paused.advance(alloc, formula, None, known, outcome)?;
    Ok(slot)
}

// Goes on with an evaluation by the list of the formula's instructions, which is begun where none is held: the slot that the formula needs,
// or else what it comes to stands in a place.
#[inline(never)]
fn asked_by_list(
    alloc: Global,
    formula: &Formula,
    held: &mut Option<Box<Paused>>,
    known: &[Known],
    outcome: &mut Outcome,
) -> Result<Option<u32>, NoMemory>
    requires { IsHeldOf held.old (tree formula.now) known.now }
    ensures answer { IfOk result (λ slot. step_by slot outcome.new ≡ answer_of (tree formula.now) None known.now) }
    ensures held { OnOk result (IsHeldOf held.new (tree formula.now) known.now) }
{
    let mut paused = begun(alloc, formula, held.take())?;
    let slot = advanced(alloc, formula, &mut paused, known, outcome)?;
    *held = Some(paused);
    Ok(slot)
}

// The same, where a formula of few operations needs no list.
fn asked(
    alloc: Global,
    formula: &Formula,
    held: &mut Option<Box<Paused>>,
    known: &[Known],
    outcome: &mut Outcome,
) -> Result<Option<u32>, NoMemory>
    requires { IsHeldOf held.old (tree formula.now) known.now }
    ensures answer { IfOk result (λ slot. step_by slot outcome.new ≡ answer_of (tree formula.now) None known.now) }
    ensures held { OnOk result (IsHeldOf held.new (tree formula.now) known.now) }
{
    match told_at_once(formula, known, outcome)? {
        Told::Slot(slot) => Ok(Some(slot)),
        Told::Ended => Ok(None),
        Told::Open => asked_by_list(alloc, formula, held, known, outcome),
    }
}

// A step that was judged, as an answer: an outcome goes to its place.
fn step_answer(step: Step, outcome: &mut Outcome) -> Asked
    ensures { IsStepAnswer result outcome.new step }
{
    match step {
        Step::Read(slot) => Asked::Slot(slot),
        Step::Done(value) => {
            *outcome = Outcome::Good(value);
            Asked::Ended
        }
        Step::Fail(fault) => {
            *outcome = Outcome::Bad(fault);
            Asked::Ended
        }
    }
}

// What a formula answers, judged: a slot that it may not ask for comes to a fault.
fn judged_answer(count: usize, known: &[Known], slot: Option<u32>, outcome: &mut Outcome) -> Asked
    ensures answer { IsStepAnswer result outcome.new (judged count known.now (step_by slot outcome.old)) }
    ensures judged { IsJudgedAnswer count known.now result }
{
    match slot {
        Some(slot) => step_answer(judged(count, known, Step::Read(slot)), outcome),
        None => Asked::Ended,
    }
}

fn host_place(recipe: &Recipe) -> Option<usize>
    ensures { result ≡ host_place (expression_of recipe.now) }
{
    match recipe {
        Recipe::Formula(_) => None,
        Recipe::Host(place) => Some(*place),
    }
}

fn asks_host(recipe: &Recipe, place: usize) -> bool
    ensures { result ≡ is_host place (expression_of recipe.now) }
{
    match recipe {
        Recipe::Formula(_) => false,
        Recipe::Host(asked) => *asked == place,
    }
}

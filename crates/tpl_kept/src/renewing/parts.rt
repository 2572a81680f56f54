// What was kept of lines, taken apart, and what is kept of the first of them next.
ghost use Rattle.std.specs.Prelude.{◌≡◌, ◌++◌, ◌∷◌, [], false, map, IfOk, OnOk};
ghost use Rattle.tpl_model.specs.KeptLines.Kept.{kept};
ghost use Rattle.tpl_model.specs.KeptLines.Changes.{chain, changed, over};
ghost use Rattle.tpl_model.specs.KeptLines.Memos.{truth_in};
ghost use Rattle.tpl_kept.specs.Renewals.{is_unread};
ghost use Rattle.tpl_kept.specs.Heads.{last_of};
ghost use Rattle.tpl_kept.specs.Listed.{listed};
ghost use Rattle.tpl_kept.specs.Changes.{changed_of, last_change};
ghost use Rattle.tpl_kept.specs.Rounds.{done_of, was_of};
ghost use Rattle.tpl_kept.specs.Turns.{behind_of, first_of, kept_of, later_of, outcome_of, places_of, shows_of, IsApart, IsSame, ServeInside};
ghost use Rattle.tpl_kept.specs.declared.making.head.Head.TheVariants as head;
ghost use Rattle.tpl_kept.specs.declared.renewing.parts.First.TheVariants as start;

use crate::listening::truth_of;
use crate::making::{Head, close, last, shows_first};
use crate::renewing::places::{Places, behind_places, inside_places};
use crate::renewing::round::Round;
use crate::renewing::rows::rows_were;
use sig_base::{Fault, NoMemory, Outcome};
use sig_formula::RowRef;
use std::alloc::Global;
use tpl_model::{Change, PageMemo};

/// What is kept of lines that were brought up to date, and what became of what was kept of them.
#[derive(Drop)]
pub struct Renewed {
    pub memo: PageMemo,
    pub change: Change,
}

/// What is kept of some lines next: all of them whole, or what is heard of the first of them.
#[derive(Drop)]
pub(crate) enum First {
    /// What is kept of all of them.
    Whole(Renewed),
    /// What is heard of the first.
    Line(Head),
}

/// Lines that are brought up to date: what is kept of them next, what is kept inside the first of them and behind it while it is brought up to date, and
/// what became of it; whether all names of the first have the outcomes of before, and whether it is the same.
#[derive(Drop)]
pub(crate) struct Turn {
    pub first: Box<First>,
    pub heard: bool,
    pub same: bool,
    pub inside: Round,
    pub later: Round,
    pub inside_changes: Vec<Change>,
    pub later_changes: Vec<Change>,
}

/// What was kept of some lines: what was heard of the first, and what was kept inside it and behind it.
#[derive(Drop)]
pub(crate) struct Parts {
    pub head: Box<Head>,
    pub inside: Vec<PageMemo>,
    pub later: Box<PageMemo>,
}

/// Whether nothing is kept.
#[tactic(auto, using(tpl_model::proofs::MemoEquations::kept_unread, tpl_model::proofs::MemoEquations::kept_blank, tpl_model::proofs::MemoEquations::kept_line, tpl_model::proofs::MemoEquations::kept_element, tpl_model::proofs::MemoEquations::kept_branch, tpl_model::proofs::MemoEquations::kept_loop, tpl_model::proofs::MemoEquations::kept_either))]
pub(crate) fn unread(memo: &PageMemo) -> bool
    ensures { result ≡ is_unread (kept memo.now) }
{
    match memo {
        PageMemo::Unread => true,
        PageMemo::Blank => false,
        PageMemo::Line(_, _) => false,
        PageMemo::Element(_, _, _) => false,
        PageMemo::Branch(_, _, _) => false,
        PageMemo::Loop(_, _, _) => false,
        PageMemo::Either(_, _, _) => false,
    }
}

// It alone.
fn once(alloc: Global, memo: PageMemo) -> Result<Vec<PageMemo>, NoMemory>
    ensures { IfOk result (λ ms. map kept ms.items ≡ kept memo ∷ []) }
{
    let mut memos = Vec::new(alloc);
    memos.push(memo)?;
    Ok(memos)
}

// The parts of lines.
fn parted(head: Box<Head>, inside: Vec<PageMemo>, later: Box<PageMemo>) -> Parts
    ensures { result ≡ record { head = head; inside = inside; later = later } }
{
    Parts {
        head,
        inside,
        later,
    }
}

// The parts of no lines.
fn nothing(alloc: Global) -> Result<Parts, NoMemory>
    ensures { IfOk result (λ p. p.head.value ≡ head.Nothing) }
{
    let head = Box::new(alloc, Head::Nothing)?;
    let later = Box::new(alloc, PageMemo::blank())?;
    Ok(parted(head, Vec::new(alloc), later))
}

/// Takes what was kept of lines apart.
///
/// # Errors
///
/// `NoMemory` alone.
pub(crate) fn apart(alloc: Global, memo: Box<PageMemo>) -> Result<Parts, NoMemory>
    ensures { IfOk result (λ p. IsApart (kept memo.value) p.head.value (map kept p.inside.items) (kept p.later.value)) }
{
    match Box::into_inner(memo) {
        PageMemo::Line(line, later) => {
            let head = Box::new(alloc, Head::Text(line))?;
            Ok(parted(head, Vec::new(alloc), later))
        }
        PageMemo::Element(all, inside, later) => {
            let head = Box::new(alloc, Head::Tag(all))?;
            let inside = once(alloc, Box::into_inner(inside))?;
            Ok(parted(head, inside, later))
        }
        PageMemo::Branch(test, inside, later) => {
            let head = Box::new(alloc, Head::Choice(test))?;
            let inside = once(alloc, Box::into_inner(inside))?;
            Ok(parted(head, inside, later))
        }
        PageMemo::Loop(rows, inside, later) => {
            let head = Box::new(alloc, Head::Each(rows))?;
            Ok(parted(head, inside, later))
        }
        PageMemo::Either(first, second, later) => {
            let head = Box::new(alloc, Head::Attempt(first, second))?;
            Ok(parted(head, Vec::new(alloc), later))
        }
        PageMemo::Blank => {
            let parts = nothing(alloc)?;
            Ok(parts)
        }
        PageMemo::Unread => {
            let parts = nothing(alloc)?;
            Ok(parts)
        }
    }
}

/// What the test of a choice came to, or the rows of a loop.
///
/// # Errors
///
/// `NoMemory` alone.
pub(crate) fn outcome_of(head: &Head) -> Result<Outcome, NoMemory>
    ensures { IfOk result (λ o. o ≡ outcome_of head.now) }
{
    match head {
        Head::Choice(test) => Ok(test.outcome.copy()?),
        Head::Each(rows) => Ok(rows.outcome.copy()?),
        _ => Ok(Outcome::Bad(Fault::Gone)),
    }
}

// What was kept of the branch that is shown, where it is that of before; otherwise nothing.
fn branch_was(
    alloc: Global,
    was: &Outcome,
    now: &Outcome,
    inside: Vec<PageMemo>,
) -> Result<Round, NoMemory>
    ensures serve { IfOk result (λ r. is_unread (first_of (was_of r)) ≡ false →
        (truth_in was.now ≡ truth_in now.now) × (first_of (was_of r) ≡ last_of (map kept inside.items))) }
    ensures done { IfOk result (λ r. done_of r ≡ []) }
{
    if truth_of(was) != truth_of(now) {
        return Ok(Round::nothing(alloc));
    }
    let one = Round::alone(alloc, last(inside))?;
    Ok(one)
}

/// What was kept inside a line, as far as it serves where the line is gone over again, and whether the line is the same: its names have the outcomes of
/// before, or the rows of a loop their keys. `was` is what its test or its rows came to before, and `heard` whether its names have these outcomes.
///
/// # Errors
///
/// `NoMemory` alone.
pub(crate) fn inside_was(
    alloc: Global,
    heard: bool,
    was: &Outcome,
    head: &Head,
    inside: Vec<PageMemo>,
) -> Result<(Round, bool), NoMemory>
    ensures serve { IfOk result (λ r. ServeInside was.now head.now (map kept inside.items) (was_of r.0)) }
    ensures same { IfOk result (λ r. IsSame was.now head.now heard r.1) }
    ensures done { IfOk result (λ r. done_of r.0 ≡ []) }
{
    match head {
        Head::Tag(_) => {
            let one = Round::alone(alloc, last(inside))?;
            Ok((one, heard))
        }
        Head::Choice(test) => {
            let one = branch_was(alloc, was, &test.outcome, inside)?;
            Ok((one, heard))
        }
        Head::Each(rows) => {
            let each = rows_were(alloc, was, &rows.outcome, inside)?;
            Ok((Round::of(each.0), each.1))
        }
        _ => Ok((Round::nothing(alloc), heard)),
    }
}

/// All of it is kept whole, and this became of it.
///
/// # Errors
///
/// `NoMemory` alone.
pub(crate) fn whole(alloc: Global, memo: PageMemo, change: Change) -> Result<Turn, NoMemory>
    ensures first { IfOk result (λ t. t.first.value ≡ start.Whole (record { memo = memo; change = change })) }
    ensures inside { IfOk result (λ t. done_of t.inside ≡ []) }
    ensures later { IfOk result (λ t. done_of t.later ≡ []) }
    ensures inside_changes { IfOk result (λ t. t.inside_changes.items ≡ []) }
    ensures later_changes { IfOk result (λ t. t.later_changes.items ≡ []) }
{
    let first = Box::new(alloc, First::Whole(Renewed { memo, change }))?;
    Ok(Turn {
        first,
        heard: true,
        same: true,
        inside: Round::nothing(alloc),
        later: Round::nothing(alloc),
        inside_changes: Vec::new(alloc),
        later_changes: Vec::new(alloc),
    })
}

/// The first line was heard again, and whether all its names have the outcomes of before; `was` is what its test or its rows came to before. Each
/// clause tells of one field of the turn that it gives, as nothing ties two of them.
///
/// # Errors
///
/// `NoMemory` alone.
pub(crate) fn taken_up(
    alloc: Global,
    was: &Outcome,
    head: Box<Head>,
    heard: bool,
    inside: Vec<PageMemo>,
    later: Box<PageMemo>,
) -> Result<Turn, NoMemory>
    ensures first { IfOk result (λ t. t.first.value ≡ start.Line head.value) }
    ensures same { IfOk result (λ t. IsSame was.now head.value heard t.same) }
    ensures inside_was { IfOk result (λ t. ServeInside was.now head.value (map kept inside.items) (was_of t.inside)) }
    ensures later_was { IfOk result (λ t. was_of t.later ≡ kept later.value ∷ []) }
    ensures inside { IfOk result (λ t. done_of t.inside ≡ []) }
    ensures later { IfOk result (λ t. done_of t.later ≡ []) }
    ensures inside_changes { IfOk result (λ t. t.inside_changes.items ≡ []) }
    ensures later_changes { IfOk result (λ t. t.later_changes.items ≡ []) }
{
    let inside = inside_was(alloc, heard, was, &head, inside)?;
    let inside_changes = Vec::with_capacity(alloc, inside.0.memos.len())?;
    let later = Round::alone(alloc, Box::into_inner(later))?;
    let first = Box::new(alloc, First::Line(Box::into_inner(head)))?;
    Ok(Turn {
        first,
        heard,
        same: inside.1,
        inside: inside.0,
        later,
        inside_changes,
        later_changes: Vec::new(alloc),
    })
}

/// Where the lines inside the first of some are gone over, in the row where these stand.
pub(crate) fn places_of<'a>(first: &'a First, row: &'a Option<RowRef>) -> Places<'a>
    ensures { listed result ≡ places_of first.now row.now }
{
    match first {
        First::Whole(_) => Places::Nowhere,
        First::Line(head) => inside_places(head, row),
    }
}

/// Where the lines behind the first of some are gone over, in the row where these stand.
pub(crate) fn behind_of<'a>(first: &First, row: &'a Option<RowRef>) -> Places<'a>
    ensures { listed result ≡ behind_of first.now row.now }
{
    match first {
        First::Whole(_) => Places::Nowhere,
        First::Line(head) => behind_places(head, row),
    }
}

/// Whether the first branch of a choice is shown.
pub(crate) fn shows_of(first: &First) -> bool
    ensures { result ≡ shows_of first.now }
{
    match first {
        First::Whole(_) => false,
        First::Line(head) => shows_first(head),
    }
}

/// What became of the last of some lines; where there are none, all was made anew.
pub(crate) fn last_change(changes: Vec<Change>) -> Change
    ensures { changed result ≡ last_change (map changed changes.items) }
{
    let mut changes = changes;
    match changes.pop() {
        None => Change::made(),
        Some(change) => change,
    }
}

// Puts what became of lines behind what became of others.
fn put_over(
    alloc: Global,
    same: bool,
    inside: Vec<Change>,
    later: Vec<Change>,
    changes: &mut Vec<Change>,
) -> Result<(), NoMemory>
    ensures { OnOk result (map changed changes.new.items ≡ map changed changes.old.items ++ over same (chain (map changed inside.items)) (last_change (map changed later.items)) ∷ []) }
{
    let change = Change::over(alloc, same, inside, last_change(later))?;
    changes.push(change)?;
    Ok(())
}

/// Puts what is kept of lines behind what was kept, once all of them was gone over, and what became of it behind what became of that.
///
/// # Errors
///
/// `NoMemory` alone.
pub(crate) fn put_turn(
    alloc: Global,
    turn: Turn,
    round: &mut Round,
    changes: &mut Vec<Change>,
) -> Result<(), NoMemory>
    ensures kept { OnOk result (done_of round.new ≡ done_of round.old ++ kept_of turn.first.value (done_of turn.inside) (done_of turn.later) ∷ []) }
    ensures later { OnOk result (was_of round.new ≡ later_of (was_of round.old)) }
    ensures changed { OnOk result (map changed changes.new.items ≡ map changed changes.old.items ++ changed_of turn.first.value turn.same (map changed turn.inside_changes.items) (map changed turn.later_changes.items) ∷ []) }
{
    let Turn {
        first,
        heard: _heard,
        same,
        inside,
        later,
        inside_changes,
        later_changes,
    } = turn;
    match Box::into_inner(first) {
        First::Whole(renewed) => {
            round.put(renewed.memo)?;
            changes.push(renewed.change)?;
            Ok(())
        }
        First::Line(head) => {
            let memo = close(alloc, head, inside.finish(), later.finish())?;
            round.put(memo)?;
            put_over(alloc, same, inside_changes, later_changes, changes)?;
            Ok(())
        }
    }
}

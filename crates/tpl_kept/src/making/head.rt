// What is heard of the first of some lines, where the lines inside it and behind it are made, and how these are put together.
ghost use Rattle.std.specs.Prelude.{◌≡◌, ◌<◌, [], ◌∷◌, ◌++◌, length, map, true, IfOk, IfSome, OnOk};
ghost use Rattle.std.specs.Option.{option_copied};
ghost use Rattle.sig_formula.specs.Trees.{tree};
ghost use Rattle.tpl_blocks.specs.Blocks.{block};
ghost use Rattle.tpl_model.specs.KeptLines.Kept.{kept};
ghost use Rattle.tpl_model.specs.KeptLines.Memos.{table_in};
ghost use Rattle.tpl_model.specs.KeptLines.Kept.{heard_of};
ghost use Rattle.tpl_model.specs.PageUpdates.PageMemos.{any_fault};
ghost use Rattle.tpl_kept.specs.Heads.{attributes_in, behind, closed, first_part, inner_in, is_text, last_of, last_read, places_from, places_in, places_tried, rest_in, second_part, shows_first, unless_ended, IsAttempted, IsRow, IsText};

use crate::listening::{row_at, row_count, truth_of};
use sig_base::{NoMemory, Outcome, Text};
use sig_formula::{Formula, RowRef};
use std::alloc::Global;
use std::slice;
use tpl_blocks::Block;
use tpl_model::{Heard, PageMemo, either_failed, is_fault, is_over};

/// What is heard of the first of some lines.
#[derive(Drop)]
pub enum Head {
    /// There is no line.
    Nothing,
    /// What a text is.
    Text(Heard),
    /// The attributes of an element.
    Tag(Vec<Heard>),
    /// The test of a choice.
    Choice(Heard),
    /// The rows of a loop.
    Each(Heard),
    /// What is kept of both parts of what is tried.
    Attempt(Box<PageMemo>, Box<PageMemo>),
}

/// What is kept of both parts of what is tried, before its line is put together, and whether a line of the second met a fault; nothing of any other
/// line.
pub struct Tried {
    pub first: Vec<PageMemo>,
    pub second: Vec<PageMemo>,
    pub failed: bool,
}

impl Drop for Tried {
    fn drop(self) {
        let Tried {
            first: _,
            second: _,
            failed: _,
        } = self;
    }
}

impl Tried {
    /// Nothing is kept of either part.
    pub fn new(alloc: Global) -> Tried
        ensures first { result.first.items ≡ [] }
        ensures second { result.second.items ≡ [] }
    {
        Tried {
            first: Vec::new(alloc),
            second: Vec::new(alloc),
            failed: false,
        }
    }
}

/// The first of some lines while it is made: what is heard of it, whether that met a fault, where the lines inside it are made, and what is kept
/// inside it and behind it so far.
pub struct Turn {
    pub head: Head,
    pub failed: bool,
    pub places: Vec<Option<RowRef>>,
    pub inside: Vec<PageMemo>,
    pub later: Vec<PageMemo>,
}

impl Drop for Turn {
    fn drop(self) {
        let Turn {
            head: _,
            failed: _,
            places: _,
            inside: _,
            later: _,
        } = self;
    }
}

/// Whether the first branch of a choice is shown.
pub(crate) fn shows_first(head: &Head) -> bool
    ensures { result ≡ shows_first head.now }
{
    match head {
        Head::Choice(test) => truth_of(&test.outcome).unwrap_or(false),
        _ => false,
    }
}

/// The lines inside the first of some, of a choice those of a branch.
pub(crate) fn inner_of(lines: &Block, first: bool) -> &Block
    ensures { block result.now ≡ inner_in (block lines.now) first }
{
    match lines {
        Block::Tag(_, _, _, inner, _) => inner,
        Block::Choice(_, one, other, _) => { if first { one } else { other } }
        Block::Each(_, inner, _) => inner,
        _ => lines,
    }
}

/// The formula of a text.
pub(crate) fn formula_of(lines: &Block) -> &Formula
    requires { is_text (block lines.now) ≡ true }
    ensures { IsText (block lines.now) (tree result.now) }
{
    match lines {
        Block::Text(_, formula, _) => formula,
        Block::Empty => unreachable!(),
        Block::Tag(_, _, _, _, _) => unreachable!(),
        Block::Choice(_, _, _, _) => unreachable!(),
        Block::Each(_, _, _) => unreachable!(),
        Block::Attempt(_, _, _) => unreachable!(),
    }
}

/// The attributes of an element.
pub(crate) fn attributes_of(lines: &Block) -> &[(Text, Formula)]
    ensures { map (λ a. (a.0, tree a.1)) result.now ≡ attributes_in (block lines.now) }
{
    match lines {
        Block::Tag(_, _, attributes, _, _) => attributes,
        _ => &[],
    }
}

/// The lines behind the first of some.
pub(crate) fn rest_of(lines: &Block) -> &Block
    ensures { block result.now ≡ rest_in (block lines.now) }
{
    match lines {
        Block::Empty => lines,
        Block::Text(_, _, rest) => rest,
        Block::Tag(_, _, _, _, rest) => rest,
        Block::Choice(_, _, _, rest) => rest,
        Block::Each(_, _, rest) => rest,
        Block::Attempt(_, _, rest) => rest,
    }
}

/// The lines of the first part of what is tried; any other line has itself in its place.
pub(crate) fn first_part(lines: &Block) -> &Block
    ensures { block result.now ≡ first_part (block lines.now) }
{
    match lines {
        Block::Attempt(first, _, _) => first,
        _ => lines,
    }
}

/// The lines of the second part of what is tried; any other line has itself in its place.
pub(crate) fn second_part(lines: &Block) -> &Block
    ensures { block result.now ≡ second_part (block lines.now) }
{
    match lines {
        Block::Attempt(_, second, _) => second,
        _ => lines,
    }
}

/// Where the parts of what is tried are made, in the row where it stands; nowhere for any other line.
pub(crate) fn place_tried<'a>(lines: &Block, row: &'a Option<RowRef>) -> &'a [Option<RowRef>]
    ensures { result.now ≡ places_tried (block lines.now) row.now }
{
    match lines {
        Block::Attempt(_, _, _) => slice::from_ref(row),
        _ => &[],
    }
}

/// Whether one of some attributes met a fault.
pub(crate) fn any_fault(all: &[Heard]) -> bool
    ensures { result ≡ any_fault (map heard_of all.now) }
{
    let mut failed = false;
    for heard in all {
        failed = either_failed(failed, is_fault(&heard.outcome));
    }
    failed
}

/// The row where lines stand, as a row of one's own.
///
/// # Errors
///
/// `NoMemory` alone.
pub(crate) fn own_row(row: Option<&RowRef>) -> Result<Option<RowRef>, NoMemory>
    ensures { IfOk result (λ r. r ≡ option_copied row.entry) }
{
    match row {
        None => Ok(None),
        Some(row) => {
            let rows = row.rows.copy()?;
            Ok(Some(RowRef {
                rows,
                place: row.place,
            }))
        }
    }
}

/// A row of one's own, as the row where lines stand.
pub(crate) fn lent_row(row: &Option<RowRef>) -> Option<&RowRef>
    requires { IsRow row.now }
    ensures is { option_copied result ≡ row.now }
    ensures place { IfSome result (λ r. r.now.place < length r.now.rows.rows) }
{
    match row {
        None => None,
        Some(row) => Some(row),
    }
}

// The row alone.
fn alone(alloc: Global, row: Option<&RowRef>) -> Result<Vec<Option<RowRef>>, NoMemory>
    ensures { IfOk result (λ rows. rows.items ≡ option_copied row.entry ∷ []) }
{
    let mut rows = Vec::new(alloc);
    let own = own_row(row)?;
    rows.push(own)?;
    Ok(rows)
}

// The row alone, unless all ended before it.
fn unless_over(
    alloc: Global,
    over: bool,
    row: Option<&RowRef>,
) -> Result<Vec<Option<RowRef>>, NoMemory>
    ensures { IfOk result (λ rows. rows.items ≡ unless_ended over (option_copied row.entry ∷ [])) }
{
    if over {
        return Ok(Vec::new(alloc));
    }
    let rows = alone(alloc, row)?;
    Ok(rows)
}

// Each of the rows that an outcome is.
fn places(alloc: Global, outcome: &Outcome) -> Result<Vec<Option<RowRef>>, NoMemory>
    ensures { IfOk result (λ rows. rows.items ≡ places_from (table_in outcome.now) 0 (length (table_in outcome.now).rows)) }
{
    let mut rows = Vec::with_capacity(alloc, row_count(outcome))?;
    for place in 0..row_count(outcome) {
        let here = row_at(outcome, place)?;
        rows.push(Some(here))?;
    }
    Ok(rows)
}

/// Where the lines inside the first of some are made, in the row where these stand.
///
/// # Errors
///
/// `NoMemory` alone.
pub(crate) fn places_inside(
    alloc: Global,
    head: &Head,
    ends: bool,
    row: Option<&RowRef>,
) -> Result<Vec<Option<RowRef>>, NoMemory>
    ensures { IfOk result (λ rows. rows.items ≡ places_in ends head.now (option_copied row.entry)) }
{
    match head {
        Head::Tag(all) => {
            let rows = unless_over(alloc, is_over(ends, any_fault(all)), row)?;
            Ok(rows)
        }
        Head::Choice(test) => match truth_of(&test.outcome) {
            None => Ok(Vec::new(alloc)),
            Some(_) => {
                let rows = alone(alloc, row)?;
                Ok(rows)
            }
        },
        Head::Each(rows) => {
            let rows = places(alloc, &rows.outcome)?;
            Ok(rows)
        }
        _ => Ok(Vec::new(alloc)),
    }
}

/// Rows, unless all ended before them.
pub(crate) fn unless_ended(over: bool, rows: &[Option<RowRef>]) -> &[Option<RowRef>]
    ensures { result.now ≡ unless_ended over rows.now }
{
    if over { &[] } else { rows }
}

/// Where the lines behind the first of some are made, in the row where these stand, unless all ended before them.
pub(crate) fn place_behind<'a>(
    head: &Head,
    over: bool,
    row: &'a Option<RowRef>,
) -> &'a [Option<RowRef>]
    ensures { result.now ≡ behind over head.now row.now }
{
    match head {
        Head::Nothing => &[],
        _ => unless_ended(over, slice::from_ref(row)),
    }
}

/// What is kept last, or that of no lines.
pub(crate) fn last(memos: Vec<PageMemo>) -> PageMemo
    ensures { kept result ≡ last_of (map kept memos.items) }
{
    let mut memos = memos;
    match memos.pop() {
        None => PageMemo::blank(),
        Some(memo) => memo,
    }
}

// What is kept last, or that nothing was read.
fn last_read(memos: Vec<PageMemo>) -> PageMemo
    ensures { kept result ≡ last_read (map kept memos.items) }
{
    let mut memos = memos;
    match memos.pop() {
        None => PageMemo::unread(),
        Some(memo) => memo,
    }
}

impl Tried {
    /// What is tried, by what is kept of both of its parts.
    ///
    /// # Errors
    ///
    /// `NoMemory` alone.
    pub(crate) fn head(self, alloc: Global) -> Result<Head, NoMemory>
        ensures { IfOk result (λ h. IsAttempted h (map kept self.first.items) (map kept self.second.items)) }
    {
        let Tried {
            first,
            second,
            failed: _failed,
        } = self;
        let first = Box::new(alloc, last(first))?;
        let second = Box::new(alloc, last_read(second))?;
        Ok(Head::Attempt(first, second))
    }
}

/// What is kept of lines, by what is kept inside the first of them and behind it.
///
/// # Errors
///
/// `NoMemory` alone.
pub(crate) fn close(
    alloc: Global,
    head: Head,
    inside: Vec<PageMemo>,
    later: Vec<PageMemo>,
) -> Result<PageMemo, NoMemory>
    ensures { IfOk result (λ m. kept m ≡ closed head (map kept inside.items) (map kept later.items)) }
{
    match head {
        Head::Nothing => Ok(PageMemo::blank()),
        Head::Text(line) => {
            let memo = PageMemo::text(alloc, line, last(later))?;
            Ok(memo)
        }
        Head::Tag(all) => {
            let memo = PageMemo::element(alloc, all, last(inside), last(later))?;
            Ok(memo)
        }
        Head::Choice(test) => {
            let memo = PageMemo::branch(alloc, test, last(inside), last(later))?;
            Ok(memo)
        }
        Head::Each(rows) => {
            let memo = PageMemo::rows(alloc, rows, inside, last(later))?;
            Ok(memo)
        }
        Head::Attempt(first, second) => {
            let memo = PageMemo::either(alloc, first, second, last(later))?;
            Ok(memo)
        }
    }
}

impl Turn {
    /// Puts what is kept of lines behind what was kept, once all is made of them.
    ///
    /// # Errors
    ///
    /// `NoMemory` alone.
    pub fn put(self, alloc: Global, done: &mut Vec<PageMemo>) -> Result<(), NoMemory>
        ensures { OnOk result (map kept done.new.items ≡ map kept done.old.items ++ closed self.head (map kept self.inside.items) (map kept self.later.items) ∷ []) }
    {
        let Turn {
            head,
            failed: _failed,
            places: _places,
            inside,
            later,
        } = self;
        let memo = close(alloc, head, inside, later)?;
        done.push(memo)?;
        Ok(())
    }
}

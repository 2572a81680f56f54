// What is kept of lines, brought up to date where it is kept: texts and elements aren't taken apart.
ghost use Rattle.std.specs.Prelude.{◌≡◌, ◌<◌, ◌∷◌, [], length, map, true, IfOk, IfSome, OnOk};
ghost use Rattle.std.specs.Option.{option_copied};
ghost use Rattle.sig_formula.specs.Trees.{tree};
ghost use Rattle.tpl_blocks.specs.Blocks.{block};
ghost use Rattle.tpl_hearing.specs.Heard.{scene, CanSettle, Hears};
ghost use Rattle.tpl_hearing.specs.HeardAgain.{AreCompared};
ghost use Rattle.tpl_model.specs.KeptLines.Kept.{heard_of, kept};
ghost use Rattle.tpl_model.specs.KeptLines.Memos.{lines_memo, Listens, ListensAll, Makes};
ghost use Rattle.tpl_model.specs.KeptLines.Before.{WasListened, WasListenedAll, WasMade};
ghost use Rattle.tpl_model.specs.KeptLines.Changes.{changed, Tells};
ghost use Rattle.tpl_model.specs.PageUpdates.PageMemos.{names};
ghost use Rattle.tpl_kept.specs.Heads.{attributes_in};
ghost use Rattle.tpl_kept.specs.Renewals.{AreLooked, WasMadeIfRead};
ghost use Rattle.tpl_kept.specs.SameTexts.{AreSameTexts};

use crate::listening::{listen_all_here, listen_here};
use crate::making::{attributes_of, formula_of, inner_of, rest_of};
use crate::renewing::leading::{count_same, lines_behind, same_before, swap_behind};
use crate::renewing::looking::{Look, look_behind, look_within, looks_first};
use crate::renewing::parts::{Renewed, unread};
use crate::renewing::update::{renew_on, stays};
use sig_base::{NoMemory, NodeId};
use sig_computed::RunNote;
use sig_formula::{Formula, RowRef};
use sig_graph::Graph;
use sig_host::{Lent, Shelf};
use std::alloc::Global;
use std::mem;
use tpl_blocks::Block;
use tpl_hearing::{Outcomes, Rehearing};
use tpl_model::{Change, Heard, PageMemo};

// Hears a text again, where what was heard of it is kept: where all its names were heard already and have the outcomes of before, nothing is
// heard. They are looked for from a place on. Its clauses are those of a formula that is heard again.
fn hear_text(
    alloc: Global,
    graph: &mut Graph,
    shelf: &mut Shelf,
    before: &Outcomes,
    hearing: &mut Rehearing,
    formula: &Formula,
    near: usize,
    line: &mut Heard,
    links: &[NodeId],
    row: Option<&RowRef>,
    notes: &mut Vec<RunNote>,
) -> Result<bool, NoMemory>
    requires place { IfSome row (λ r. r.now.place < length r.now.rows.rows) }
    requires can { CanSettle (scene graph.old (⟦<Shelf as Lent>⟧.asked shelf.old) notes.old.items) }
    requires counted { ⟦<Shelf as Lent>⟧.counted shelf.old }
    requires compared { AreCompared before.now hearing.old }
    requires was { WasListened (tree formula.now) links.now (option_copied row) before.now (heard_of line.old) }
    ensures heard { OnOk result (Listens (tree formula.now) links.now (option_copied row.entry) hearing.old.heard hearing.new.heard (heard_of line.new)) }
    ensures same { IfOk result (λ s. s ≡ true → WasListened (tree formula.now) links.now (option_copied row.entry) before.now (heard_of line.new)) }
    ensures after { OnOk result (Hears
        (scene graph.old (⟦<Shelf as Lent>⟧.asked shelf.old) notes.old.items) (scene graph.new (⟦<Shelf as Lent>⟧.asked shelf.new) notes.new.items)
        (λ hosts. ⟦<Shelf as Lent>⟧.answers hosts shelf.old) (λ hosts. ⟦<Shelf as Lent>⟧.answers hosts shelf.new) hearing.old.heard hearing.new.heard) }
    ensures can { OnOk result (CanSettle (scene graph.new (⟦<Shelf as Lent>⟧.asked shelf.new) notes.new.items)) }
    ensures counted { OnOk result (⟦<Shelf as Lent>⟧.counted shelf.new) }
    ensures compared { OnOk result (AreCompared before.now hearing.new) }
{
    if hearing.are_same(before, near, &line.names) {
        return Ok(true);
    }
    let same = listen_here(
        alloc, graph, shelf, before, hearing, formula, line, links, row, notes,
    )?;
    Ok(same)
}

// Hears the attributes of an element again, where what was heard of them is kept. Its clauses are those of a formula that is heard again.
#[inline(never)]
fn hear_element(
    alloc: Global,
    graph: &mut Graph,
    shelf: &mut Shelf,
    before: &Outcomes,
    hearing: &mut Rehearing,
    lines: &Block,
    all: &mut Vec<Heard>,
    links: &[NodeId],
    row: Option<&RowRef>,
    notes: &mut Vec<RunNote>,
) -> Result<bool, NoMemory>
    requires place { IfSome row (λ r. r.now.place < length r.now.rows.rows) }
    requires can { CanSettle (scene graph.old (⟦<Shelf as Lent>⟧.asked shelf.old) notes.old.items) }
    requires counted { ⟦<Shelf as Lent>⟧.counted shelf.old }
    requires compared { AreCompared before.now hearing.old }
    requires was { WasListenedAll (attributes_in (block lines.now)) links.now (option_copied row) before.now (map heard_of all.old.items) }
    ensures heard { OnOk result (ListensAll (attributes_in (block lines.now)) links.now (option_copied row.entry) hearing.old.heard hearing.new.heard
        (map heard_of all.new.items)) }
    ensures same { IfOk result (λ s. s ≡ true → WasListenedAll (attributes_in (block lines.now)) links.now (option_copied row.entry) before.now
        (map heard_of all.new.items)) }
    ensures after { OnOk result (Hears
        (scene graph.old (⟦<Shelf as Lent>⟧.asked shelf.old) notes.old.items) (scene graph.new (⟦<Shelf as Lent>⟧.asked shelf.new) notes.new.items)
        (λ hosts. ⟦<Shelf as Lent>⟧.answers hosts shelf.old) (λ hosts. ⟦<Shelf as Lent>⟧.answers hosts shelf.new) hearing.old.heard hearing.new.heard) }
    ensures can { OnOk result (CanSettle (scene graph.new (⟦<Shelf as Lent>⟧.asked shelf.new) notes.new.items)) }
    ensures counted { OnOk result (⟦<Shelf as Lent>⟧.counted shelf.new) }
    ensures compared { OnOk result (AreCompared before.now hearing.new) }
{
    let attributes = attributes_of(lines);
    let same = listen_all_here(
        alloc, graph, shelf, before, hearing, attributes, all, links, row, notes,
    )?;
    Ok(same)
}

// Whether all names of lines are as before, where what is known of them asks for a look. Its clauses are those of looking at names.
fn stays_here(
    alloc: Global,
    graph: &mut Graph,
    shelf: &mut Shelf,
    before: &Outcomes,
    hearing: &mut Rehearing,
    memo: &PageMemo,
    look: Look,
    notes: &mut Vec<RunNote>,
) -> Result<bool, NoMemory>
    requires can { CanSettle (scene graph.old (⟦<Shelf as Lent>⟧.asked shelf.old) notes.old.items) }
    requires counted { ⟦<Shelf as Lent>⟧.counted shelf.old }
    requires compared { AreCompared before.now hearing.old }
    ensures looked { IfOk result (λ same. AreLooked same before.now (names (kept memo.now)) hearing.old.heard hearing.new.heard) }
    ensures after { OnOk result (Hears
        (scene graph.old (⟦<Shelf as Lent>⟧.asked shelf.old) notes.old.items) (scene graph.new (⟦<Shelf as Lent>⟧.asked shelf.new) notes.new.items)
        (λ hosts. ⟦<Shelf as Lent>⟧.answers hosts shelf.old) (λ hosts. ⟦<Shelf as Lent>⟧.answers hosts shelf.new) hearing.old.heard hearing.new.heard) }
    ensures can { OnOk result (CanSettle (scene graph.new (⟦<Shelf as Lent>⟧.asked shelf.new) notes.new.items)) }
    ensures counted { OnOk result (⟦<Shelf as Lent>⟧.counted shelf.new) }
    ensures compared { OnOk result (AreCompared before.now hearing.new) }
{
    let first = looks_first(look, memo);
    let same = stays(alloc, graph, shelf, before, hearing, memo, first, notes)?;
    Ok(same)
}

// What became of one part.
fn part(alloc: Global, change: Change) -> Result<Vec<Change>, NoMemory>
    ensures { IfOk result (λ cs. map changed cs.items ≡ changed change ∷ []) }
{
    let mut changes = Vec::with_capacity(alloc, 1)?;
    changes.push(change)?;
    Ok(changes)
}

// Brings what is kept of lines that are no text and no element first up to date, where it is kept. Its clauses are those of renewing.
#[inline(never)]
fn renew_other(
    alloc: Global,
    graph: &mut Graph,
    shelf: &mut Shelf,
    before: &Outcomes,
    hearing: &mut Rehearing,
    lines: &Block,
    memo: &mut PageMemo,
    look: Look,
    links: &[NodeId],
    row: Option<&RowRef>,
    notes: &mut Vec<RunNote>,
) -> Result<Change, NoMemory>
    requires place { IfSome row (λ r. r.now.place < length r.now.rows.rows) }
    requires can { CanSettle (scene graph.old (⟦<Shelf as Lent>⟧.asked shelf.old) notes.old.items) }
    requires counted { ⟦<Shelf as Lent>⟧.counted shelf.old }
    requires compared { AreCompared before.now hearing.old }
    requires was { WasMadeIfRead (lines_memo (block lines.now)) links.now (option_copied row) before.now (kept memo.old) }
    ensures made { OnOk result (Makes (lines_memo (block lines.now)) links.now (option_copied row.entry) hearing.old.heard hearing.new.heard (kept memo.new)) }
    ensures told { IfOk result (λ c. Tells (block lines.now) links.now (option_copied row.entry) before.now (kept memo.new) (changed c)) }
    ensures after { OnOk result (Hears
        (scene graph.old (⟦<Shelf as Lent>⟧.asked shelf.old) notes.old.items) (scene graph.new (⟦<Shelf as Lent>⟧.asked shelf.new) notes.new.items)
        (λ hosts. ⟦<Shelf as Lent>⟧.answers hosts shelf.old) (λ hosts. ⟦<Shelf as Lent>⟧.answers hosts shelf.new) hearing.old.heard hearing.new.heard) }
    ensures can { OnOk result (CanSettle (scene graph.new (⟦<Shelf as Lent>⟧.asked shelf.new) notes.new.items)) }
    ensures counted { OnOk result (⟦<Shelf as Lent>⟧.counted shelf.new) }
    ensures compared { OnOk result (AreCompared before.now hearing.new) }
{
    let was = mem::replace(memo, PageMemo::Blank);
    let renewed = renew_on(
        alloc, graph, shelf, before, hearing, lines, was, look, links, row, notes,
    )?;
    let Renewed { memo: now, change } = renewed;
    *memo = now;
    Ok(change)
}

// Brings what is kept of lines up to date, where it is kept. Texts and elements are heard again where they stand, and what is inside them and
// behind them is renewed the same way; lines whose names are to be looked at first stay where all of these have the outcomes of before. The names
// of texts are looked for from a place on. Its clauses are those of renewing.
fn renew_here(
    alloc: Global,
    graph: &mut Graph,
    shelf: &mut Shelf,
    before: &Outcomes,
    hearing: &mut Rehearing,
    lines: &Block,
    near: usize,
    memo: &mut PageMemo,
    look: Look,
    links: &[NodeId],
    row: Option<&RowRef>,
    notes: &mut Vec<RunNote>,
) -> Result<Change, NoMemory>
    requires place { IfSome row (λ r. r.now.place < length r.now.rows.rows) }
    requires can { CanSettle (scene graph.old (⟦<Shelf as Lent>⟧.asked shelf.old) notes.old.items) }
    requires counted { ⟦<Shelf as Lent>⟧.counted shelf.old }
    requires compared { AreCompared before.now hearing.old }
    requires was { WasMade (lines_memo (block lines.now)) links.now (option_copied row) before.now (kept memo.old) }
    ensures made { OnOk result (Makes (lines_memo (block lines.now)) links.now (option_copied row.entry) hearing.old.heard hearing.new.heard (kept memo.new)) }
    ensures told { IfOk result (λ c. Tells (block lines.now) links.now (option_copied row.entry) before.now (kept memo.new) (changed c)) }
    ensures after { OnOk result (Hears
        (scene graph.old (⟦<Shelf as Lent>⟧.asked shelf.old) notes.old.items) (scene graph.new (⟦<Shelf as Lent>⟧.asked shelf.new) notes.new.items)
        (λ hosts. ⟦<Shelf as Lent>⟧.answers hosts shelf.old) (λ hosts. ⟦<Shelf as Lent>⟧.answers hosts shelf.new) hearing.old.heard hearing.new.heard) }
    ensures can { OnOk result (CanSettle (scene graph.new (⟦<Shelf as Lent>⟧.asked shelf.new) notes.new.items)) }
    ensures counted { OnOk result (⟦<Shelf as Lent>⟧.counted shelf.new) }
    ensures compared { OnOk result (AreCompared before.now hearing.new) }
{
    if stays_here(alloc, graph, shelf, before, hearing, memo, look, notes)? {
        return Ok(Change::stays());
    }
    let rest = rest_of(lines);
    match memo {
        PageMemo::Line(line, later) => {
            let formula = formula_of(lines);
            let heard = hear_text(
                alloc, graph, shelf, before, hearing, formula, near, line, links, row, notes,
            )?;
            let after = look_behind(look, heard, &[]);
            let next = near.saturating_add(line.names.len());
            let behind = renew_here(
                alloc, graph, shelf, before, hearing, rest, next, later, after, links, row, notes,
            )?;
            Ok(Change::over(alloc, heard, Vec::new(alloc), behind)?)
        }
        PageMemo::Element(all, held, later) => {
            let heard = hear_element(
                alloc, graph, shelf, before, hearing, lines, all, links, row, notes,
            )?;
            let inner = inner_of(lines, false);
            let within = look_within(look, heard, later);
            let told = renew_here(
                alloc, graph, shelf, before, hearing, inner, near, held, within, links, row, notes,
            )?;
            let told = part(alloc, told)?;
            let after = look_behind(look, heard, &told);
            let behind = renew_here(
                alloc, graph, shelf, before, hearing, rest, near, later, after, links, row, notes,
            )?;
            Ok(Change::over(alloc, heard, told, behind)?)
        }
        _ => Ok(renew_other(
            alloc, graph, shelf, before, hearing, lines, memo, look, links, row, notes,
        )?),
    }
}

// Brings what is kept of lines up to date, where it is kept: behind so many texts, of which each name was heard already and has the outcome of
// before, and which stay. Its clauses are those of renewing.
#[inline(never)]
fn renew_behind(
    alloc: Global,
    graph: &mut Graph,
    shelf: &mut Shelf,
    before: &Outcomes,
    hearing: &mut Rehearing,
    lines: &Block,
    count: usize,
    memo: &mut PageMemo,
    links: &[NodeId],
    row: Option<&RowRef>,
    notes: &mut Vec<RunNote>,
) -> Result<Change, NoMemory>
    requires same { AreSameTexts count before.now hearing.old.heard (kept memo.old) }
    requires place { IfSome row (λ r. r.now.place < length r.now.rows.rows) }
    requires can { CanSettle (scene graph.old (⟦<Shelf as Lent>⟧.asked shelf.old) notes.old.items) }
    requires counted { ⟦<Shelf as Lent>⟧.counted shelf.old }
    requires compared { AreCompared before.now hearing.old }
    requires was { WasMade (lines_memo (block lines.now)) links.now (option_copied row) before.now (kept memo.old) }
    ensures made { OnOk result (Makes (lines_memo (block lines.now)) links.now (option_copied row.entry) hearing.old.heard hearing.new.heard (kept memo.new)) }
    ensures told { IfOk result (λ c. Tells (block lines.now) links.now (option_copied row.entry) before.now (kept memo.new) (changed c)) }
    ensures after { OnOk result (Hears
        (scene graph.old (⟦<Shelf as Lent>⟧.asked shelf.old) notes.old.items) (scene graph.new (⟦<Shelf as Lent>⟧.asked shelf.new) notes.new.items)
        (λ hosts. ⟦<Shelf as Lent>⟧.answers hosts shelf.old) (λ hosts. ⟦<Shelf as Lent>⟧.answers hosts shelf.new) hearing.old.heard hearing.new.heard) }
    ensures can { OnOk result (CanSettle (scene graph.new (⟦<Shelf as Lent>⟧.asked shelf.new) notes.new.items)) }
    ensures counted { OnOk result (⟦<Shelf as Lent>⟧.counted shelf.new) }
    ensures compared { OnOk result (AreCompared before.now hearing.new) }
{
    let mut later = PageMemo::blank();
    let near = swap_behind(memo, count, 0, &mut later);
    let rest = lines_behind(lines, count);
    let look = Look::Changed;
    let behind = renew_here(
        alloc, graph, shelf, before, hearing, rest, near, &mut later, look, links, row, notes,
    )?;
    swap_behind(memo, count, near, &mut later);
    let told = same_before(alloc, count, behind)?;
    Ok(told)
}

/// Brings what a page keeps of these lines up to date, in the row where they stand, once one of its names has another outcome: it is what `make`
/// would make. `before` are the outcomes on which it was made. A line whose names are as before isn't evaluated, the branch that was shown before is
/// gone over again, a row that has its key and its values still keeps what was kept of it, and lines inside another one stay as they are where
/// each of their names has the outcome of before: these are heard again first, unless it is known already that one of them hasn't. Where nothing is
/// kept yet, all is made. Beside it comes what became of what was kept. What is kept now and what became of what was kept are told apart; the other
/// clauses are what each hearing asks for and gives back, of graph, shelf and comparisons, and that the row and what was kept belong to these
/// lines.
///
/// # Errors
///
/// `NoMemory` alone; names may then have been settled.
pub fn renew(
    alloc: Global,
    graph: &mut Graph,
    shelf: &mut Shelf,
    before: &Outcomes,
    hearing: &mut Rehearing,
    lines: &Block,
    memo: PageMemo,
    links: &[NodeId],
    row: Option<&RowRef>,
    notes: &mut Vec<RunNote>,
) -> Result<Renewed, NoMemory>
    requires place { IfSome row (λ r. r.now.place < length r.now.rows.rows) }
    requires can { CanSettle (scene graph.old (⟦<Shelf as Lent>⟧.asked shelf.old) notes.old.items) }
    requires counted { ⟦<Shelf as Lent>⟧.counted shelf.old }
    requires compared { AreCompared before.now hearing.old }
    requires was { WasMadeIfRead (lines_memo (block lines.now)) links.now (option_copied row) before.now (kept memo) }
    ensures made { IfOk result (λ r. Makes (lines_memo (block lines.now)) links.now (option_copied row.entry) hearing.old.heard hearing.new.heard (kept r.memo)) }
    ensures told { IfOk result (λ r. Tells (block lines.now) links.now (option_copied row.entry) before.now (kept r.memo) (changed r.change)) }
    ensures after { OnOk result (Hears
        (scene graph.old (⟦<Shelf as Lent>⟧.asked shelf.old) notes.old.items) (scene graph.new (⟦<Shelf as Lent>⟧.asked shelf.new) notes.new.items)
        (λ hosts. ⟦<Shelf as Lent>⟧.answers hosts shelf.old) (λ hosts. ⟦<Shelf as Lent>⟧.answers hosts shelf.new) hearing.old.heard hearing.new.heard) }
    ensures can { OnOk result (CanSettle (scene graph.new (⟦<Shelf as Lent>⟧.asked shelf.new) notes.new.items)) }
    ensures counted { OnOk result (⟦<Shelf as Lent>⟧.counted shelf.new) }
    ensures compared { OnOk result (AreCompared before.now hearing.new) }
{
    let mut all = memo;
    if unread(&all) {
        let change = renew_other(
            alloc,
            graph,
            shelf,
            before,
            hearing,
            lines,
            &mut all,
            Look::Changed,
            links,
            row,
            notes,
        )?;
        return Ok(Renewed { memo: all, change });
    }
    let count = count_same(hearing, before, &all);
    if count > 0 {
        let change = renew_behind(
            alloc, graph, shelf, before, hearing, lines, count, &mut all, links, row, notes,
        )?;
        return Ok(Renewed { memo: all, change });
    }
    let change = renew_here(
        alloc,
        graph,
        shelf,
        before,
        hearing,
        lines,
        0,
        &mut all,
        Look::Changed,
        links,
        row,
        notes,
    )?;
    Ok(Renewed { memo: all, change })
}

// What is kept of lines, brought up to date.
ghost use Rattle.std.specs.Prelude.{◌≡◌, ◌<◌, ◌^◌, [], drop, length, map, false, true, IfOk, IfSome, OnOk};
ghost use Rattle.std.specs.Option.{option_copied};
ghost use Rattle.tpl_model.specs.PageUpdates.PageMemos.{names};
ghost use Rattle.tpl_blocks.specs.Blocks.{block};
ghost use Rattle.tpl_hearing.specs.Heard.{scene, CanSettle, Hears};
ghost use Rattle.tpl_hearing.specs.HeardAgain.{AreCompared, AreHeardAgain};
ghost use Rattle.tpl_model.specs.KeptLines.Kept.{kept};
ghost use Rattle.tpl_model.specs.KeptLines.Memos.{lines_memo, Makes};
ghost use Rattle.tpl_kept.specs.Renewals.{AreLooked, WasMadeIfRead};
ghost use Rattle.tpl_kept.specs.Heads.{AreRows, IsRow, IsTried, MakesEach, Opens};
ghost use Rattle.tpl_model.specs.KeptLines.Changes.{changed, Tells};
ghost use Rattle.tpl_kept.specs.Changes.{BeginsTold, TellsEach};
ghost use Rattle.tpl_kept.specs.Listed.{listed};
ghost use Rattle.tpl_kept.specs.Rounds.{done_of, was_of};
ghost use Rattle.tpl_kept.specs.Turns.{Begins, IsWasTried, WasOpened, WasTried, WereEach};

use crate::listening::{listen_again, listen_all_again};
use crate::making::{Head, hear_attempt, inner_of, last, lent_row, make, own_row, rest_of};
use crate::renewing::looking::{Look, hears_first, look_behind, look_inside};
use crate::renewing::names::put_names;
use crate::renewing::parts::{
    Parts, Renewed, Turn, apart, behind_of, last_change, outcome_of, places_of, put_turn, shows_of,
    taken_up, unread, whole,
};
use crate::renewing::places::{Places, count_places, row_of};
use crate::renewing::round::Round;
use crate::renewing::silent::reads_nothing;
use crate::renewing::staying::keep_front;
use sig_base::{NoMemory, NodeId};
use sig_computed::RunNote;
use sig_formula::RowRef;
use sig_graph::Graph;
use sig_host::{Lent, Shelf};
use std::alloc::Global;
use tpl_blocks::Block;
use tpl_hearing::{Outcomes, Rehearing, hear_again};
use tpl_model::{Change, PageMemo};

// Hears the names of what is kept again, which are listed first. Its clauses are those of hearing them while the lines are gone over.
#[inline(never)]
fn listed_stay(
    alloc: Global,
    graph: &mut Graph,
    shelf: &mut Shelf,
    before: &Outcomes,
    hearing: &mut Rehearing,
    memo: &PageMemo,
    notes: &mut Vec<RunNote>,
) -> Result<bool, NoMemory>
    requires can { CanSettle (scene graph.old (⟦<Shelf as Lent>⟧.asked shelf.old) notes.old.items) }
    requires counted { ⟦<Shelf as Lent>⟧.counted shelf.old }
    requires compared { AreCompared before.now hearing.old }
    ensures again { IfOk result (λ same. AreHeardAgain same before.now (names (kept memo.now)) hearing.old.heard hearing.new.heard) }
    ensures after { OnOk result (Hears
        (scene graph.old (⟦<Shelf as Lent>⟧.asked shelf.old) notes.old.items) (scene graph.new (⟦<Shelf as Lent>⟧.asked shelf.new) notes.new.items)
        (λ hosts. ⟦<Shelf as Lent>⟧.answers hosts shelf.old) (λ hosts. ⟦<Shelf as Lent>⟧.answers hosts shelf.new) hearing.old.heard hearing.new.heard) }
    ensures can { OnOk result (CanSettle (scene graph.new (⟦<Shelf as Lent>⟧.asked shelf.new) notes.new.items)) }
    ensures counted { OnOk result (⟦<Shelf as Lent>⟧.counted shelf.new) }
    ensures compared { OnOk result (AreCompared before.now hearing.new) }
{
    let mut ids = Vec::new(alloc);
    put_names(&mut ids, memo)?;
    let same = hear_again(graph, shelf, before, hearing, &ids, notes)?;
    Ok(same)
}

/// Hears the names of what is kept again, in order, up to the first that hasn't the outcome of before; whether there is none. Those of texts are
/// heard line by line.
///
/// # Errors
///
/// `NoMemory` alone; names may then have been settled.
pub(crate) fn names_stay(
    alloc: Global,
    graph: &mut Graph,
    shelf: &mut Shelf,
    before: &Outcomes,
    hearing: &mut Rehearing,
    memo: &PageMemo,
    notes: &mut Vec<RunNote>,
) -> Result<bool, NoMemory>
    requires can { CanSettle (scene graph.old (⟦<Shelf as Lent>⟧.asked shelf.old) notes.old.items) }
    requires counted { ⟦<Shelf as Lent>⟧.counted shelf.old }
    requires compared { AreCompared before.now hearing.old }
    ensures again { IfOk result (λ same. AreHeardAgain same before.now (names (kept memo.now)) hearing.old.heard hearing.new.heard) }
    ensures after { OnOk result (Hears
        (scene graph.old (⟦<Shelf as Lent>⟧.asked shelf.old) notes.old.items) (scene graph.new (⟦<Shelf as Lent>⟧.asked shelf.new) notes.new.items)
        (λ hosts. ⟦<Shelf as Lent>⟧.answers hosts shelf.old) (λ hosts. ⟦<Shelf as Lent>⟧.answers hosts shelf.new) hearing.old.heard hearing.new.heard) }
    ensures can { OnOk result (CanSettle (scene graph.new (⟦<Shelf as Lent>⟧.asked shelf.new) notes.new.items)) }
    ensures counted { OnOk result (⟦<Shelf as Lent>⟧.counted shelf.new) }
    ensures compared { OnOk result (AreCompared before.now hearing.new) }
{
    match memo {
        PageMemo::Blank => Ok(true),
        PageMemo::Line(line, rest) => {
            if !hear_again(graph, shelf, before, hearing, &line.names, notes)? {
                return Ok(false);
            }
            let same = names_stay(alloc, graph, shelf, before, hearing, rest, notes)?;
            Ok(same)
        }
        _ => {
            let same = listed_stay(alloc, graph, shelf, before, hearing, memo, notes)?;
            Ok(same)
        }
    }
}

/// Whether all names of lines are as before, where they are to be looked at.
///
/// # Errors
///
/// `NoMemory` alone; names may then have been settled.
pub(crate) fn stays(
    alloc: Global,
    graph: &mut Graph,
    shelf: &mut Shelf,
    before: &Outcomes,
    hearing: &mut Rehearing,
    memo: &PageMemo,
    look: bool,
    notes: &mut Vec<RunNote>,
) -> Result<bool, NoMemory>
    requires can { CanSettle (scene graph.old (⟦<Shelf as Lent>⟧.asked shelf.old) notes.old.items) }
    requires counted { ⟦<Shelf as Lent>⟧.counted shelf.old }
    requires compared { AreCompared before.now hearing.old }
    ensures looked { IfOk result (λ same. AreLooked same before.now (names (kept memo.now)) hearing.old.heard hearing.new.heard) }
    ensures after { OnOk result (Hears
        (scene graph.old (⟦<Shelf as Lent>⟧.asked shelf.old) notes.old.items) (scene graph.new (⟦<Shelf as Lent>⟧.asked shelf.new) notes.new.items)
        (λ hosts. ⟦<Shelf as Lent>⟧.answers hosts shelf.old) (λ hosts. ⟦<Shelf as Lent>⟧.answers hosts shelf.new) hearing.old.heard hearing.new.heard) }
    ensures can { OnOk result (CanSettle (scene graph.new (⟦<Shelf as Lent>⟧.asked shelf.new) notes.new.items)) }
    ensures counted { OnOk result (⟦<Shelf as Lent>⟧.counted shelf.new) }
    ensures compared { OnOk result (AreCompared before.now hearing.new) }
{
    if !look {
        return Ok(false);
    }
    let same = names_stay(alloc, graph, shelf, before, hearing, memo, notes)?;
    Ok(same)
}

// What is kept of both parts of what is tried now, and whether all their names are as before: then it stays, and otherwise it is made anew.
// Its clauses are those of a formula that is heard again, told of both parts.
fn attempt_again(
    alloc: Global,
    graph: &mut Graph,
    shelf: &mut Shelf,
    before: &Outcomes,
    hearing: &mut Rehearing,
    first: &Block,
    second: &Block,
    one: Box<PageMemo>,
    two: Box<PageMemo>,
    links: &[NodeId],
    row: Option<&RowRef>,
    notes: &mut Vec<RunNote>,
) -> Result<(Head, bool), NoMemory>
    requires place { IfSome row (λ r. r.now.place < length r.now.rows.rows) }
    requires can { CanSettle (scene graph.old (⟦<Shelf as Lent>⟧.asked shelf.old) notes.old.items) }
    requires counted { ⟦<Shelf as Lent>⟧.counted shelf.old }
    requires compared { AreCompared before.now hearing.old }
    requires was { WasTried (block first.now) (block second.now) links.now (option_copied row) before.now (kept one.value) (kept two.value) }
    ensures opens { IfOk result (λ r. IsTried false (block first.now) (block second.now) links.now (option_copied row.entry) hearing.old.heard hearing.new.heard r.0) }
    ensures same { IfOk result (λ r. r.1 ≡ true → IsWasTried (block first.now) (block second.now) links.now (option_copied row.entry) before.now r.0) }
    ensures after { OnOk result (Hears
        (scene graph.old (⟦<Shelf as Lent>⟧.asked shelf.old) notes.old.items) (scene graph.new (⟦<Shelf as Lent>⟧.asked shelf.new) notes.new.items)
        (λ hosts. ⟦<Shelf as Lent>⟧.answers hosts shelf.old) (λ hosts. ⟦<Shelf as Lent>⟧.answers hosts shelf.new) hearing.old.heard hearing.new.heard) }
    ensures can { OnOk result (CanSettle (scene graph.new (⟦<Shelf as Lent>⟧.asked shelf.new) notes.new.items)) }
    ensures counted { OnOk result (⟦<Shelf as Lent>⟧.counted shelf.new) }
    ensures compared { OnOk result (AreCompared before.now hearing.new) }
{
    let mut ids = Vec::new(alloc);
    put_names(&mut ids, &one)?;
    put_names(&mut ids, &two)?;
    if hear_again(graph, shelf, before, hearing, &ids, notes)? {
        return Ok((Head::Attempt(one, two), true));
    }
    let next = hear_attempt(
        alloc,
        graph,
        shelf,
        &mut hearing.heard,
        first,
        second,
        links,
        row,
        notes,
    )?;
    Ok((next, false))
}

// What is heard of the first of some lines now, and whether all its names are as before: then it isn't evaluated, and this was heard of it before.
// Its clauses are those of a formula that is heard again, told of all that the first line evaluates.
fn hear_first_again(
    alloc: Global,
    graph: &mut Graph,
    shelf: &mut Shelf,
    before: &Outcomes,
    hearing: &mut Rehearing,
    lines: &Block,
    head: Box<Head>,
    links: &[NodeId],
    row: Option<&RowRef>,
    notes: &mut Vec<RunNote>,
) -> Result<(Head, bool), NoMemory>
    requires place { IfSome row (λ r. r.now.place < length r.now.rows.rows) }
    requires can { CanSettle (scene graph.old (⟦<Shelf as Lent>⟧.asked shelf.old) notes.old.items) }
    requires counted { ⟦<Shelf as Lent>⟧.counted shelf.old }
    requires compared { AreCompared before.now hearing.old }
    requires was { WasOpened (block lines.now) links.now (option_copied row) before.now head.value }
    ensures opens { IfOk result (λ r. Opens false (block lines.now) links.now (option_copied row.entry) hearing.old.heard hearing.new.heard r.0) }
    ensures same { IfOk result (λ r. r.1 ≡ true → WasOpened (block lines.now) links.now (option_copied row.entry) before.now r.0) }
    ensures after { OnOk result (Hears
        (scene graph.old (⟦<Shelf as Lent>⟧.asked shelf.old) notes.old.items) (scene graph.new (⟦<Shelf as Lent>⟧.asked shelf.new) notes.new.items)
        (λ hosts. ⟦<Shelf as Lent>⟧.answers hosts shelf.old) (λ hosts. ⟦<Shelf as Lent>⟧.answers hosts shelf.new) hearing.old.heard hearing.new.heard) }
    ensures can { OnOk result (CanSettle (scene graph.new (⟦<Shelf as Lent>⟧.asked shelf.new) notes.new.items)) }
    ensures counted { OnOk result (⟦<Shelf as Lent>⟧.counted shelf.new) }
    ensures compared { OnOk result (AreCompared before.now hearing.new) }
{
    match (lines, Box::into_inner(head)) {
        (Block::Empty, _) => Ok((Head::Nothing, true)),
        (Block::Text(_, formula, _), Head::Text(line)) => {
            let heard = listen_again(
                alloc, graph, shelf, before, hearing, formula, line, links, row, notes,
            )?;
            Ok((Head::Text(heard.0), heard.1))
        }
        (Block::Tag(_, _, attributes, _, _), Head::Tag(all)) => {
            let heard = listen_all_again(
                alloc, graph, shelf, before, hearing, attributes, all, links, row, notes,
            )?;
            Ok((Head::Tag(heard.0), heard.1))
        }
        (Block::Choice(test, _, _, _), Head::Choice(line)) => {
            let heard = listen_again(
                alloc, graph, shelf, before, hearing, test, line, links, row, notes,
            )?;
            Ok((Head::Choice(heard.0), heard.1))
        }
        (Block::Each(rows, _, _), Head::Each(line)) => {
            let heard = listen_again(
                alloc, graph, shelf, before, hearing, rows, line, links, row, notes,
            )?;
            Ok((Head::Each(heard.0), heard.1))
        }
        (Block::Attempt(first, second, _), Head::Attempt(one, two)) => {
            let both = attempt_again(
                alloc, graph, shelf, before, hearing, first, second, one, two, links, row, notes,
            )?;
            Ok(both)
        }
        _ => unreachable!(),
    }
}

// Lines of which nothing is kept are made; where all their names are as before, what is kept stays; of others the first is heard again. What it
// gives has a clause for what it begins with, one for what is told of what was kept, and one for each of its lists; the others are what each
// hearing asks for and gives back, of graph, shelf and comparisons, and that what was kept belongs to these lines.
fn begin(
    alloc: Global,
    graph: &mut Graph,
    shelf: &mut Shelf,
    before: &Outcomes,
    hearing: &mut Rehearing,
    lines: &Block,
    memo: Box<PageMemo>,
    look: Look,
    links: &[NodeId],
    row: &Option<RowRef>,
    notes: &mut Vec<RunNote>,
) -> Result<Turn, NoMemory>
    requires row { IsRow row.now }
    requires can { CanSettle (scene graph.old (⟦<Shelf as Lent>⟧.asked shelf.old) notes.old.items) }
    requires counted { ⟦<Shelf as Lent>⟧.counted shelf.old }
    requires compared { AreCompared before.now hearing.old }
    requires was { WasMadeIfRead (lines_memo (block lines.now)) links.now row.now before.now (kept memo.value) }
    ensures begins { IfOk result (λ t. Begins (block lines.now) links.now row.now before.now hearing.old.heard hearing.new.heard t.first.value (was_of t.inside) (was_of t.later)) }
    ensures inside { IfOk result (λ t. done_of t.inside ≡ []) }
    ensures later { IfOk result (λ t. done_of t.later ≡ []) }
    ensures inside_changes { IfOk result (λ t. t.inside_changes.items ≡ []) }
    ensures later_changes { IfOk result (λ t. t.later_changes.items ≡ []) }
    ensures told { IfOk result (λ t. BeginsTold (block lines.now) links.now row.now before.now (kept memo.value) t.first.value t.same (was_of t.inside)) }
    ensures after { OnOk result (Hears
        (scene graph.old (⟦<Shelf as Lent>⟧.asked shelf.old) notes.old.items) (scene graph.new (⟦<Shelf as Lent>⟧.asked shelf.new) notes.new.items)
        (λ hosts. ⟦<Shelf as Lent>⟧.answers hosts shelf.old) (λ hosts. ⟦<Shelf as Lent>⟧.answers hosts shelf.new) hearing.old.heard hearing.new.heard) }
    ensures can { OnOk result (CanSettle (scene graph.new (⟦<Shelf as Lent>⟧.asked shelf.new) notes.new.items)) }
    ensures counted { OnOk result (⟦<Shelf as Lent>⟧.counted shelf.new) }
    ensures compared { OnOk result (AreCompared before.now hearing.new) }
{
    let here = lent_row(row);
    if unread(&memo) {
        let heard = &mut hearing.heard;
        let memo = make(alloc, graph, shelf, heard, lines, links, here, notes)?;
        let all = whole(alloc, memo, Change::made())?;
        return Ok(all);
    }
    let first = hears_first(look);
    if stays(alloc, graph, shelf, before, hearing, &memo, first, notes)? {
        let all = whole(alloc, Box::into_inner(memo), Change::stays())?;
        return Ok(all);
    }
    let Parts {
        head,
        inside,
        later,
    } = apart(alloc, memo)?;
    let was = outcome_of(&head)?;
    let was = Box::new(alloc, was)?;
    let heard = hear_first_again(
        alloc, graph, shelf, before, hearing, lines, head, links, here, notes,
    )?;
    let head = Box::new(alloc, heard.0)?;
    let turn = taken_up(alloc, &was, head, heard.1, inside, later)?;
    Ok(turn)
}

// Brings what is kept of lines in each of some rows up to date, and puts what became of it behind what became of others. What is kept now and what
// became of what was kept are told apart, as only the second looks at what was; the other clauses are what each hearing asks for and gives back, and
// that the rows and what was kept in them belong together.
fn renew_each(
    alloc: Global,
    graph: &mut Graph,
    shelf: &mut Shelf,
    before: &Outcomes,
    hearing: &mut Rehearing,
    lines: &Block,
    links: &[NodeId],
    rows: Places<'_>,
    at: usize,
    round: &mut Round,
    look: Look,
    notes: &mut Vec<RunNote>,
    changes: &mut Vec<Change>,
) -> Result<(), NoMemory>
    requires few { length (drop at (listed rows)) < 2 ^ 64 }
    requires rows { AreRows (drop at (listed rows)) }
    requires can { CanSettle (scene graph.old (⟦<Shelf as Lent>⟧.asked shelf.old) notes.old.items) }
    requires counted { ⟦<Shelf as Lent>⟧.counted shelf.old }
    requires compared { AreCompared before.now hearing.old }
    requires was { WereEach (block lines.now) links.now (drop at (listed rows)) before.now (was_of round.old) }
    ensures made { OnOk result (MakesEach false (block lines.now) links.now (drop at (listed rows.entry)) hearing.old.heard hearing.new.heard (done_of round.old) (done_of round.new)) }
    ensures told { OnOk result (TellsEach (block lines.now) links.now (drop at (listed rows.entry)) before.now (was_of round.old) (done_of round.old) (done_of round.new) (map changed changes.old.items) (map changed changes.new.items)) }
    ensures after { OnOk result (Hears
        (scene graph.old (⟦<Shelf as Lent>⟧.asked shelf.old) notes.old.items) (scene graph.new (⟦<Shelf as Lent>⟧.asked shelf.new) notes.new.items)
        (λ hosts. ⟦<Shelf as Lent>⟧.answers hosts shelf.old) (λ hosts. ⟦<Shelf as Lent>⟧.answers hosts shelf.new) hearing.old.heard hearing.new.heard) }
    ensures can { OnOk result (CanSettle (scene graph.new (⟦<Shelf as Lent>⟧.asked shelf.new) notes.new.items)) }
    ensures counted { OnOk result (⟦<Shelf as Lent>⟧.counted shelf.new) }
    ensures compared { OnOk result (AreCompared before.now hearing.new) }
{
    let silent = reads_nothing(rows, at, lines);
    let at = keep_front(look, silent, rows, at, round, changes)?;
    let count = count_places(rows);
    if at >= count {
        return Ok(());
    }
    let row = row_of(rows, at)?;
    let memo = round.take();
    let memo = Box::new(alloc, memo)?;
    let mut turn = begin(
        alloc, graph, shelf, before, hearing, lines, memo, look, links, &row, notes,
    )?;
    let parts = &mut turn;
    let inner = inner_of(lines, shows_of(&parts.first));
    let places = places_of(&parts.first, &row);
    let many = count_places(places);
    let within = look_inside(look, parts.heard, many, &parts.later);
    let inside = &mut parts.inside;
    let told = &mut parts.inside_changes;
    renew_each(
        alloc, graph, shelf, before, hearing, inner, links, places, 0, inside, within, notes, told,
    )?;
    let rest = rest_of(lines);
    let behinds = behind_of(&parts.first, &row);
    let after = look_behind(look, parts.heard, &parts.inside_changes);
    let later = &mut parts.later;
    let told = &mut parts.later_changes;
    renew_each(
        alloc, graph, shelf, before, hearing, rest, links, behinds, 0, later, after, notes, told,
    )?;
    put_turn(alloc, turn, round, changes)?;
    let next = at + 1;
    renew_each(
        alloc, graph, shelf, before, hearing, lines, links, rows, next, round, look, notes, changes,
    )?;
    Ok(())
}

/// Brings what is kept of lines up to date, of which something is known. Its clauses are those of the call that brings them up to date where they are
/// kept.
///
/// # Errors
///
/// `NoMemory` alone; names may then have been settled.
pub(crate) fn renew_on(
    alloc: Global,
    graph: &mut Graph,
    shelf: &mut Shelf,
    before: &Outcomes,
    hearing: &mut Rehearing,
    lines: &Block,
    memo: PageMemo,
    look: Look,
    links: &[NodeId],
    row: Option<&RowRef>,
    notes: &mut Vec<RunNote>,
) -> Result<Renewed, NoMemory>
    requires place { IfSome row (λ r. r.now.place < length r.now.rows.rows) }
    requires can { CanSettle (scene graph.old (⟦<Shelf as Lent>⟧.asked shelf.old) notes.old.items) }
    requires counted { ⟦<Shelf as Lent>⟧.counted shelf.old }
    requires compared { AreCompared before.now hearing.old }
    requires was { WasMadeIfRead (lines_memo (block lines.now)) links.now (option_copied row) before.now (kept memo) }
    ensures made { IfOk result (λ r. Makes (lines_memo (block lines.now)) links.now (option_copied row.entry) hearing.old.heard hearing.new.heard (kept r.memo)) }
    ensures told { IfOk result (λ r. Tells (block lines.now) links.now (option_copied row.entry) before.now (kept r.memo) (changed r.change)) }
    ensures after { OnOk result (Hears
        (scene graph.old (⟦<Shelf as Lent>⟧.asked shelf.old) notes.old.items) (scene graph.new (⟦<Shelf as Lent>⟧.asked shelf.new) notes.new.items)
        (λ hosts. ⟦<Shelf as Lent>⟧.answers hosts shelf.old) (λ hosts. ⟦<Shelf as Lent>⟧.answers hosts shelf.new) hearing.old.heard hearing.new.heard) }
    ensures can { OnOk result (CanSettle (scene graph.new (⟦<Shelf as Lent>⟧.asked shelf.new) notes.new.items)) }
    ensures counted { OnOk result (⟦<Shelf as Lent>⟧.counted shelf.new) }
    ensures compared { OnOk result (AreCompared before.now hearing.new) }
{
    let mut round = Round::alone(alloc, memo)?;
    let own = own_row(row)?;
    let mut changes = Vec::new(alloc);
    renew_each(
        alloc,
        graph,
        shelf,
        before,
        hearing,
        lines,
        links,
        Places::Alone(&own),
        0,
        &mut round,
        look,
        notes,
        &mut changes,
    )?;
    Ok(Renewed {
        memo: last(round.finish()),
        change: last_change(changes),
    })
}

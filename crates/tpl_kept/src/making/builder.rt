// What is kept of lines, made from scratch.
ghost use Rattle.std.specs.Prelude.{◌≡◌, ◌<◌, ◌^◌, [], length, map, false, IfOk, IfSome, OnOk};
ghost use Rattle.std.specs.Option.{option_copied};
ghost use Rattle.tpl_blocks.specs.Blocks.{block};
ghost use Rattle.tpl_hearing.specs.Heard.{scene, CanSettle, Hears};
ghost use Rattle.tpl_model.specs.KeptLines.Kept.{kept};
ghost use Rattle.tpl_model.specs.KeptLines.Memos.{lines_memo, part_memo, Makes};
ghost use Rattle.tpl_model.specs.PageUpdates.PageMemos.{failed};
ghost use Rattle.tpl_kept.specs.Heads.{last_read, met_fault, places_in, AreRows, IsRow, IsTried, MakesEach, OpensOn, TellsFault};

use crate::listening::{listen, listen_all};
use crate::making::head::{
    Head, Tried, Turn, any_fault, first_part, inner_of, last, lent_row, own_row, place_behind,
    place_tried, places_inside, rest_of, second_part, shows_first, unless_ended,
};
use sig_base::{NoMemory, NodeId};
use sig_computed::RunNote;
use sig_formula::RowRef;
use sig_graph::Graph;
use sig_host::{Lent, Shelf};
use std::alloc::Global;
use std::slice;
use tpl_blocks::Block;
use tpl_hearing::Outcomes;
use tpl_model::{PageMemo, either_failed, is_fault, is_over};

/// What is kept of lines that were made, and whether one of them met a fault.
#[derive(Drop)]
pub struct Made {
    pub memo: PageMemo,
    pub failed: bool,
}

// What is heard of the first of some lines, in the row where they stand, and whether it met a fault; where it is tried, both of its parts were made,
// and it is told whether the second met one. What is heard and the fault have a clause each, as the first speaks of all that was made; the others are
// what each hearing asks for and gives back of graph and shelf, and what it did.
fn hear_first(
    alloc: Global,
    graph: &mut Graph,
    shelf: &mut Shelf,
    heard: &mut Outcomes,
    lines: &Block,
    links: &[NodeId],
    ends: bool,
    row: Option<&RowRef>,
    tried: Tried,
    notes: &mut Vec<RunNote>,
) -> Result<(Head, bool), NoMemory>
    requires place { IfSome row (λ r. r.now.place < length r.now.rows.rows) }
    requires can { CanSettle (scene graph.old (⟦<Shelf as Lent>⟧.asked shelf.old) notes.old.items) }
    requires counted { ⟦<Shelf as Lent>⟧.counted shelf.old }
    requires told { tried.failed ≡ failed (last_read (map kept tried.second.items)) }
    ensures opens { IfOk result (λ h. OpensOn ends (block lines.now) links.now (option_copied row.entry) heard.old heard.new (map kept tried.first.items) (map kept tried.second.items) h.0) }
    ensures failed { IfOk result (λ h. h.1 ≡ met_fault h.0) }
    ensures after { OnOk result (Hears
        (scene graph.old (⟦<Shelf as Lent>⟧.asked shelf.old) notes.old.items) (scene graph.new (⟦<Shelf as Lent>⟧.asked shelf.new) notes.new.items)
        (λ hosts. ⟦<Shelf as Lent>⟧.answers hosts shelf.old) (λ hosts. ⟦<Shelf as Lent>⟧.answers hosts shelf.new) heard.old heard.new) }
    ensures can { OnOk result (CanSettle (scene graph.new (⟦<Shelf as Lent>⟧.asked shelf.new) notes.new.items)) }
    ensures counted { OnOk result (⟦<Shelf as Lent>⟧.counted shelf.new) }
{
    match lines {
        Block::Empty => Ok((Head::Nothing, false)),
        Block::Text(_, formula, _) => {
            let line = listen(alloc, graph, shelf, heard, formula, links, row, notes)?;
            let failed = is_fault(&line.outcome);
            Ok((Head::Text(line), failed))
        }
        Block::Tag(_, _, attributes, _, _) => {
            let all = listen_all(
                alloc, graph, shelf, heard, attributes, links, ends, row, notes,
            )?;
            let failed = any_fault(&all);
            Ok((Head::Tag(all), failed))
        }
        Block::Choice(test, _, _, _) => {
            let line = listen(alloc, graph, shelf, heard, test, links, row, notes)?;
            let failed = is_fault(&line.outcome);
            Ok((Head::Choice(line), failed))
        }
        Block::Each(rows, _, _) => {
            let line = listen(alloc, graph, shelf, heard, rows, links, row, notes)?;
            let failed = is_fault(&line.outcome);
            Ok((Head::Each(line), failed))
        }
        Block::Attempt(_, _, _) => {
            let failed = tried.failed;
            let head = tried.head(alloc)?;
            Ok((head, failed))
        }
    }
}

// The first of some lines, before anything is made inside it and behind it. Each field of what it gives has a clause of its own, as they are filled
// one by one; the others are what is told of the parts of what is tried, and what each hearing asks for and gives back of graph and shelf, and what
// it did.
fn begin(
    alloc: Global,
    graph: &mut Graph,
    shelf: &mut Shelf,
    heard: &mut Outcomes,
    lines: &Block,
    links: &[NodeId],
    ends: bool,
    row: &Option<RowRef>,
    tried: Tried,
    notes: &mut Vec<RunNote>,
) -> Result<Turn, NoMemory>
    requires row { IsRow row.now }
    requires can { CanSettle (scene graph.old (⟦<Shelf as Lent>⟧.asked shelf.old) notes.old.items) }
    requires counted { ⟦<Shelf as Lent>⟧.counted shelf.old }
    requires told { tried.failed ≡ failed (last_read (map kept tried.second.items)) }
    ensures opens { IfOk result (λ t. OpensOn ends (block lines.now) links.now row.now heard.old heard.new (map kept tried.first.items) (map kept tried.second.items) t.head) }
    ensures failed { IfOk result (λ t. t.failed ≡ met_fault t.head) }
    ensures places { IfOk result (λ t. t.places.items ≡ places_in ends t.head row.now) }
    ensures inside { IfOk result (λ t. t.inside.items ≡ []) }
    ensures later { IfOk result (λ t. t.later.items ≡ []) }
    ensures after { OnOk result (Hears
        (scene graph.old (⟦<Shelf as Lent>⟧.asked shelf.old) notes.old.items) (scene graph.new (⟦<Shelf as Lent>⟧.asked shelf.new) notes.new.items)
        (λ hosts. ⟦<Shelf as Lent>⟧.answers hosts shelf.old) (λ hosts. ⟦<Shelf as Lent>⟧.answers hosts shelf.new) heard.old heard.new) }
    ensures can { OnOk result (CanSettle (scene graph.new (⟦<Shelf as Lent>⟧.asked shelf.new) notes.new.items)) }
    ensures counted { OnOk result (⟦<Shelf as Lent>⟧.counted shelf.new) }
{
    let here = lent_row(row);
    let (head, failed) = hear_first(
        alloc, graph, shelf, heard, lines, links, ends, here, tried, notes,
    )?;
    let places = places_inside(alloc, &head, ends, here)?;
    Ok(Turn {
        head,
        failed,
        places,
        inside: Vec::new(alloc),
        later: Vec::new(alloc),
    })
}

// Puts what is kept of lines in each of some rows behind what was kept, up to the first row where one of them meets a fault where they end at
// one; whether one of them met a fault. Both parts of what is tried are made before its line is put together. What is put and whether a fault was met
// have a clause each, as only the first speaks of the lines; the others are what each hearing asks for and gives back of graph and shelf, and that
// the rows are rows.
fn put_each(
    alloc: Global,
    graph: &mut Graph,
    shelf: &mut Shelf,
    heard: &mut Outcomes,
    lines: &Block,
    links: &[NodeId],
    ends: bool,
    rows: &[Option<RowRef>],
    notes: &mut Vec<RunNote>,
    done: &mut Vec<PageMemo>,
) -> Result<bool, NoMemory>
    requires few { length rows.now < 2 ^ 64 }
    requires rows { AreRows rows.now }
    requires can { CanSettle (scene graph.old (⟦<Shelf as Lent>⟧.asked shelf.old) notes.old.items) }
    requires counted { ⟦<Shelf as Lent>⟧.counted shelf.old }
    ensures made { OnOk result (MakesEach ends (block lines.now) links.now rows.now heard.old heard.new (map kept done.old.items) (map kept done.new.items)) }
    ensures told { IfOk result (λ f. TellsFault (map kept done.old.items) (map kept done.new.items) f) }
    ensures after { OnOk result (Hears
        (scene graph.old (⟦<Shelf as Lent>⟧.asked shelf.old) notes.old.items) (scene graph.new (⟦<Shelf as Lent>⟧.asked shelf.new) notes.new.items)
        (λ hosts. ⟦<Shelf as Lent>⟧.answers hosts shelf.old) (λ hosts. ⟦<Shelf as Lent>⟧.answers hosts shelf.new) heard.old heard.new) }
    ensures can { OnOk result (CanSettle (scene graph.new (⟦<Shelf as Lent>⟧.asked shelf.new) notes.new.items)) }
    ensures counted { OnOk result (⟦<Shelf as Lent>⟧.counted shelf.new) }
{
    let Some((row, others)) = rows.split_first() else {
        return Ok(false);
    };
    let at = place_tried(lines, row);
    let front = first_part(lines);
    let mut tried = Tried::new(alloc);
    let first = &mut tried.first;
    let ended = put_each(
        alloc, graph, shelf, heard, front, links, true, at, notes, first,
    )?;
    let at = unless_ended(!ended, at);
    let back = second_part(lines);
    let second = &mut tried.second;
    let failed = put_each(
        alloc, graph, shelf, heard, back, links, ends, at, notes, second,
    )?;
    tried.failed = failed;
    let mut turn = begin(
        alloc, graph, shelf, heard, lines, links, ends, row, tried, notes,
    )?;
    let inner = inner_of(lines, shows_first(&turn.head));
    let places = &turn.places;
    let within = &mut turn.inside;
    let inside = put_each(
        alloc, graph, shelf, heard, inner, links, ends, places, notes, within,
    )?;
    let met = either_failed(turn.failed, inside);
    let behind = place_behind(&turn.head, is_over(ends, met), row);
    let rest = rest_of(lines);
    let after = &mut turn.later;
    let later = put_each(
        alloc, graph, shelf, heard, rest, links, ends, behind, notes, after,
    )?;
    turn.put(alloc, done)?;
    let own = either_failed(met, later);
    let left = unless_ended(is_over(ends, own), others);
    let last = put_each(
        alloc, graph, shelf, heard, lines, links, ends, left, notes, done,
    )?;
    Ok(either_failed(own, last))
}

// What is kept of lines, in the row where they stand, up to the first that meets a fault where they end at one; and whether one met a fault.
fn make_part(
    alloc: Global,
    graph: &mut Graph,
    shelf: &mut Shelf,
    heard: &mut Outcomes,
    lines: &Block,
    links: &[NodeId],
    ends: bool,
    row: Option<&RowRef>,
    notes: &mut Vec<RunNote>,
) -> Result<Made, NoMemory>
    requires place { IfSome row (λ r. r.now.place < length r.now.rows.rows) }
    requires can { CanSettle (scene graph.old (⟦<Shelf as Lent>⟧.asked shelf.old) notes.old.items) }
    requires counted { ⟦<Shelf as Lent>⟧.counted shelf.old }
    ensures made { IfOk result (λ m. Makes (part_memo ends (block lines.now)) links.now (option_copied row.entry) heard.old heard.new (kept m.memo)) }
    ensures failed { IfOk result (λ m. m.failed ≡ failed (kept m.memo)) }
    ensures after { OnOk result (Hears
        (scene graph.old (⟦<Shelf as Lent>⟧.asked shelf.old) notes.old.items) (scene graph.new (⟦<Shelf as Lent>⟧.asked shelf.new) notes.new.items)
        (λ hosts. ⟦<Shelf as Lent>⟧.answers hosts shelf.old) (λ hosts. ⟦<Shelf as Lent>⟧.answers hosts shelf.new) heard.old heard.new) }
    ensures can { OnOk result (CanSettle (scene graph.new (⟦<Shelf as Lent>⟧.asked shelf.new) notes.new.items)) }
    ensures counted { OnOk result (⟦<Shelf as Lent>⟧.counted shelf.new) }
{
    let own = own_row(row)?;
    let mut done = Vec::new(alloc);
    let failed = put_each(
        alloc,
        graph,
        shelf,
        heard,
        lines,
        links,
        ends,
        slice::from_ref(&own),
        notes,
        &mut done,
    )?;
    Ok(Made {
        memo: last(done),
        failed,
    })
}

/// What is kept of both parts of what is tried: of the first up to the first line that meets a fault, and where there is one of the second.
///
/// # Errors
///
/// `NoMemory` alone; names may then have been settled.
pub(crate) fn hear_attempt(
    alloc: Global,
    graph: &mut Graph,
    shelf: &mut Shelf,
    heard: &mut Outcomes,
    first: &Block,
    second: &Block,
    links: &[NodeId],
    row: Option<&RowRef>,
    notes: &mut Vec<RunNote>,
) -> Result<Head, NoMemory>
    requires place { IfSome row (λ r. r.now.place < length r.now.rows.rows) }
    requires can { CanSettle (scene graph.old (⟦<Shelf as Lent>⟧.asked shelf.old) notes.old.items) }
    requires counted { ⟦<Shelf as Lent>⟧.counted shelf.old }
    ensures opens { IfOk result (λ h. IsTried false (block first.now) (block second.now) links.now (option_copied row.entry) heard.old heard.new h) }
    ensures after { OnOk result (Hears
        (scene graph.old (⟦<Shelf as Lent>⟧.asked shelf.old) notes.old.items) (scene graph.new (⟦<Shelf as Lent>⟧.asked shelf.new) notes.new.items)
        (λ hosts. ⟦<Shelf as Lent>⟧.answers hosts shelf.old) (λ hosts. ⟦<Shelf as Lent>⟧.answers hosts shelf.new) heard.old heard.new) }
    ensures can { OnOk result (CanSettle (scene graph.new (⟦<Shelf as Lent>⟧.asked shelf.new) notes.new.items)) }
    ensures counted { OnOk result (⟦<Shelf as Lent>⟧.counted shelf.new) }
{
    let tried = make_part(alloc, graph, shelf, heard, first, links, true, row, notes)?;
    let one = Box::new(alloc, tried.memo)?;
    if !tried.failed {
        let two = Box::new(alloc, PageMemo::unread())?;
        return Ok(Head::Attempt(one, two));
    }
    let other = make_part(alloc, graph, shelf, heard, second, links, false, row, notes)?;
    let two = Box::new(alloc, other.memo)?;
    Ok(Head::Attempt(one, two))
}

/// What a page keeps of these lines, in the row where they stand: each line is evaluated on the signals behind the template's names, which
/// are settled as they are first asked for. A loop is gone over once for each of its rows, and of a choice the branch that is shown; of what is
/// tried the first part up to the first line that meets a fault, and where there is one the second.
///
/// # Errors
///
/// `NoMemory` alone; names may then have been settled.
pub fn make(
    alloc: Global,
    graph: &mut Graph,
    shelf: &mut Shelf,
    heard: &mut Outcomes,
    lines: &Block,
    links: &[NodeId],
    row: Option<&RowRef>,
    notes: &mut Vec<RunNote>,
) -> Result<PageMemo, NoMemory>
    requires place { IfSome row (λ r. r.now.place < length r.now.rows.rows) }
    requires can { CanSettle (scene graph.old (⟦<Shelf as Lent>⟧.asked shelf.old) notes.old.items) }
    requires counted { ⟦<Shelf as Lent>⟧.counted shelf.old }
    ensures made { IfOk result (λ m. Makes (lines_memo (block lines.now)) links.now (option_copied row.entry) heard.old heard.new (kept m)) }
    ensures after { OnOk result (Hears
        (scene graph.old (⟦<Shelf as Lent>⟧.asked shelf.old) notes.old.items) (scene graph.new (⟦<Shelf as Lent>⟧.asked shelf.new) notes.new.items)
        (λ hosts. ⟦<Shelf as Lent>⟧.answers hosts shelf.old) (λ hosts. ⟦<Shelf as Lent>⟧.answers hosts shelf.new) heard.old heard.new) }
    ensures can { OnOk result (CanSettle (scene graph.new (⟦<Shelf as Lent>⟧.asked shelf.new) notes.new.items)) }
    ensures counted { OnOk result (⟦<Shelf as Lent>⟧.counted shelf.new) }
{
    let made = make_part(alloc, graph, shelf, heard, lines, links, false, row, notes)?;
    Ok(made.memo)
}

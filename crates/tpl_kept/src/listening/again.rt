// What is heard of lines whose formulas were heard before.
ghost use Rattle.std.specs.Prelude.{◌≡◌, ◌<◌, length, map, true, IfOk, IfSome, OnOk};
ghost use Rattle.std.specs.Option.{option_copied};
ghost use Rattle.sig_formula.specs.Trees.{tree};
ghost use Rattle.tpl_hearing.specs.Heard.{scene, CanSettle, Hears};
ghost use Rattle.tpl_hearing.specs.HeardAgain.{AreCompared};
ghost use Rattle.tpl_model.specs.KeptLines.Kept.{heard_of};
ghost use Rattle.tpl_model.specs.KeptLines.Memos.{Listens, ListensAll};
ghost use Rattle.tpl_model.specs.KeptLines.Before.{WasListened, WasListenedAll};

use crate::listening::formulas::{listen, listen_all};
use crate::listening::names::put_each;
use sig_base::{NoMemory, NodeId, Text};
use sig_computed::RunNote;
use sig_formula::{Formula, RowRef};
use sig_graph::Graph;
use sig_host::{Lent, Shelf};
use std::alloc::Global;
use tpl_hearing::{Outcomes, Rehearing, hear_again};
use tpl_model::Heard;

/// Hears the formula of a line again, where what was heard of it is kept; whether its names are as before: then it isn't evaluated, and this was
/// heard of it before. It asks for and gives back what each hearing does, of graph, shelf and comparisons, and asks that the row has its place and
/// that this was heard before; what is kept now and that it is as before are two clauses, as the second holds only sometimes.
///
/// # Errors
///
/// `NoMemory` alone; names may then have been settled.
#[inline(never)]
pub(crate) fn listen_here(
    alloc: Global,
    graph: &mut Graph,
    shelf: &mut Shelf,
    before: &Outcomes,
    hearing: &mut Rehearing,
    formula: &Formula,
    line: &mut Heard,
    links: &[NodeId],
    row: Option<&RowRef>,
    notes: &mut Vec<RunNote>,
) -> Result<bool, NoMemory>
    requires place { IfSome row (λ r. r.now.place < length r.now.rows.rows) }
    requires can { CanSettle (scene graph.old (⟦<Shelf as Lent>⟧.asked shelf.old) notes.old.items) }
    requires counted { ⟦<Shelf as Lent>⟧.counted shelf.old }
    requires compared { AreCompared before.now hearing.old }
    requires was { WasListened (tree formula.now) links.now (option_copied row) before.now (heard_of line.old) }
    ensures heard { OnOk result (Listens (tree formula.now) links.now (option_copied row.entry) hearing.old.heard hearing.new.heard (heard_of line.new)) }
    ensures same { IfOk result (λ s. s ≡ true → WasListened (tree formula.now) links.now (option_copied row.entry) before.now (heard_of line.new)) }
    ensures after { OnOk result (Hears
        (scene graph.old (⟦<Shelf as Lent>⟧.asked shelf.old) notes.old.items) (scene graph.new (⟦<Shelf as Lent>⟧.asked shelf.new) notes.new.items)
        (λ hosts. ⟦<Shelf as Lent>⟧.answers hosts shelf.old) (λ hosts. ⟦<Shelf as Lent>⟧.answers hosts shelf.new) hearing.old.heard hearing.new.heard) }
    ensures can { OnOk result (CanSettle (scene graph.new (⟦<Shelf as Lent>⟧.asked shelf.new) notes.new.items)) }
    ensures counted { OnOk result (⟦<Shelf as Lent>⟧.counted shelf.new) }
    ensures compared { OnOk result (AreCompared before.now hearing.new) }
{
    if hear_again(graph, shelf, before, hearing, &line.names, notes)? {
        return Ok(true);
    }
    let heard = &mut hearing.heard;
    let next = listen(alloc, graph, shelf, heard, formula, links, row, notes)?;
    *line = next;
    Ok(false)
}

/// What is heard of the formula of a line now, and whether its names are as before: then it isn't evaluated, and this was heard of it before. It
/// asks for and gives back what each hearing does, of graph, shelf and comparisons, and asks that the row has its place and that this was heard
/// before; what is heard now and that it is as before are two clauses, as the second holds only sometimes.
///
/// # Errors
///
/// `NoMemory` alone; names may then have been settled.
pub fn listen_again(
    alloc: Global,
    graph: &mut Graph,
    shelf: &mut Shelf,
    before: &Outcomes,
    hearing: &mut Rehearing,
    formula: &Formula,
    line: Heard,
    links: &[NodeId],
    row: Option<&RowRef>,
    notes: &mut Vec<RunNote>,
) -> Result<(Heard, bool), NoMemory>
    requires place { IfSome row (λ r. r.now.place < length r.now.rows.rows) }
    requires can { CanSettle (scene graph.old (⟦<Shelf as Lent>⟧.asked shelf.old) notes.old.items) }
    requires counted { ⟦<Shelf as Lent>⟧.counted shelf.old }
    requires compared { AreCompared before.now hearing.old }
    requires was { WasListened (tree formula.now) links.now (option_copied row) before.now (heard_of line) }
    ensures heard { IfOk result (λ r. Listens (tree formula.now) links.now (option_copied row.entry) hearing.old.heard hearing.new.heard (heard_of r.0)) }
    ensures same { IfOk result (λ r. r.1 ≡ true → WasListened (tree formula.now) links.now (option_copied row.entry) before.now (heard_of r.0)) }
    ensures after { OnOk result (Hears
        (scene graph.old (⟦<Shelf as Lent>⟧.asked shelf.old) notes.old.items) (scene graph.new (⟦<Shelf as Lent>⟧.asked shelf.new) notes.new.items)
        (λ hosts. ⟦<Shelf as Lent>⟧.answers hosts shelf.old) (λ hosts. ⟦<Shelf as Lent>⟧.answers hosts shelf.new) hearing.old.heard hearing.new.heard) }
    ensures can { OnOk result (CanSettle (scene graph.new (⟦<Shelf as Lent>⟧.asked shelf.new) notes.new.items)) }
    ensures counted { OnOk result (⟦<Shelf as Lent>⟧.counted shelf.new) }
    ensures compared { OnOk result (AreCompared before.now hearing.new) }
{
    let mut line = line;
    let same = listen_here(
        alloc, graph, shelf, before, hearing, formula, &mut line, links, row, notes,
    )?;
    Ok((line, same))
}

/// Hears the formulas of attributes again, where what was heard of them is kept; whether all their names are as before: then none is evaluated, and
/// this was heard of them before. Its clauses are those for one formula, each told of all of them.
///
/// # Errors
///
/// `NoMemory` alone; names may then have been settled.
pub(crate) fn listen_all_here(
    alloc: Global,
    graph: &mut Graph,
    shelf: &mut Shelf,
    before: &Outcomes,
    hearing: &mut Rehearing,
    attributes: &[(Text, Formula)],
    all: &mut Vec<Heard>,
    links: &[NodeId],
    row: Option<&RowRef>,
    notes: &mut Vec<RunNote>,
) -> Result<bool, NoMemory>
    requires place { IfSome row (λ r. r.now.place < length r.now.rows.rows) }
    requires can { CanSettle (scene graph.old (⟦<Shelf as Lent>⟧.asked shelf.old) notes.old.items) }
    requires counted { ⟦<Shelf as Lent>⟧.counted shelf.old }
    requires compared { AreCompared before.now hearing.old }
    requires was { WasListenedAll (map (λ a. (a.0, tree a.1)) attributes.now) links.now (option_copied row) before.now (map heard_of all.old.items) }
    ensures heard { OnOk result (ListensAll (map (λ a. (a.0, tree a.1)) attributes.now) links.now (option_copied row.entry) hearing.old.heard hearing.new.heard (map heard_of all.new.items)) }
    ensures same { IfOk result (λ s. s ≡ true → WasListenedAll (map (λ a. (a.0, tree a.1)) attributes.now) links.now (option_copied row.entry) before.now (map heard_of all.new.items)) }
    ensures after { OnOk result (Hears
        (scene graph.old (⟦<Shelf as Lent>⟧.asked shelf.old) notes.old.items) (scene graph.new (⟦<Shelf as Lent>⟧.asked shelf.new) notes.new.items)
        (λ hosts. ⟦<Shelf as Lent>⟧.answers hosts shelf.old) (λ hosts. ⟦<Shelf as Lent>⟧.answers hosts shelf.new) hearing.old.heard hearing.new.heard) }
    ensures can { OnOk result (CanSettle (scene graph.new (⟦<Shelf as Lent>⟧.asked shelf.new) notes.new.items)) }
    ensures counted { OnOk result (⟦<Shelf as Lent>⟧.counted shelf.new) }
    ensures compared { OnOk result (AreCompared before.now hearing.new) }
{
    let mut ids = Vec::new(alloc);
    put_each(&mut ids, all)?;
    if hear_again(graph, shelf, before, hearing, &ids, notes)? {
        return Ok(true);
    }
    let next = listen_all(
        alloc,
        graph,
        shelf,
        &mut hearing.heard,
        attributes,
        links,
        false,
        row,
        notes,
    )?;
    *all = next;
    Ok(false)
}

/// What is heard of the formulas of attributes now, and whether all their names are as before: then none is evaluated, and this was heard of them
/// before. Its clauses are those for one formula, each told of all of them.
///
/// # Errors
///
/// `NoMemory` alone; names may then have been settled.
pub fn listen_all_again(
    alloc: Global,
    graph: &mut Graph,
    shelf: &mut Shelf,
    before: &Outcomes,
    hearing: &mut Rehearing,
    attributes: &[(Text, Formula)],
    all: Vec<Heard>,
    links: &[NodeId],
    row: Option<&RowRef>,
    notes: &mut Vec<RunNote>,
) -> Result<(Vec<Heard>, bool), NoMemory>
    requires place { IfSome row (λ r. r.now.place < length r.now.rows.rows) }
    requires can { CanSettle (scene graph.old (⟦<Shelf as Lent>⟧.asked shelf.old) notes.old.items) }
    requires counted { ⟦<Shelf as Lent>⟧.counted shelf.old }
    requires compared { AreCompared before.now hearing.old }
    requires was { WasListenedAll (map (λ a. (a.0, tree a.1)) attributes.now) links.now (option_copied row) before.now (map heard_of all.items) }
    ensures heard { IfOk result (λ r. ListensAll (map (λ a. (a.0, tree a.1)) attributes.now) links.now (option_copied row.entry) hearing.old.heard hearing.new.heard (map heard_of r.0.items)) }
    ensures same { IfOk result (λ r. r.1 ≡ true → WasListenedAll (map (λ a. (a.0, tree a.1)) attributes.now) links.now (option_copied row.entry) before.now (map heard_of r.0.items)) }
    ensures after { OnOk result (Hears
        (scene graph.old (⟦<Shelf as Lent>⟧.asked shelf.old) notes.old.items) (scene graph.new (⟦<Shelf as Lent>⟧.asked shelf.new) notes.new.items)
        (λ hosts. ⟦<Shelf as Lent>⟧.answers hosts shelf.old) (λ hosts. ⟦<Shelf as Lent>⟧.answers hosts shelf.new) hearing.old.heard hearing.new.heard) }
    ensures can { OnOk result (CanSettle (scene graph.new (⟦<Shelf as Lent>⟧.asked shelf.new) notes.new.items)) }
    ensures counted { OnOk result (⟦<Shelf as Lent>⟧.counted shelf.new) }
    ensures compared { OnOk result (AreCompared before.now hearing.new) }
{
    let mut all = all;
    let same = listen_all_here(
        alloc, graph, shelf, before, hearing, attributes, &mut all, links, row, notes,
    )?;
    Ok((all, same))
}

// What is heard of the formulas of lines.
ghost use Rattle.std.specs.Prelude.{◌≡◌, ◌<◌, length, map, IfOk, IfSome, OnOk};
ghost use Rattle.std.specs.Option.{option_copied};
ghost use Rattle.sig_formula.specs.Trees.{tree};
ghost use Rattle.signal_model.specs.Sound.{names_of};
ghost use Rattle.tpl_hearing.specs.Heard.{scene, CanSettle, Hears};
ghost use Rattle.tpl_model.specs.KeptLines.Kept.{heard_of};
ghost use Rattle.tpl_model.specs.KeptLines.Memos.{Listens, ListensUpTo};

use sig_base::{NoMemory, NodeId, Text};
use sig_computed::RunNote;
use sig_formula::{Formula, RowRef};
use sig_graph::Graph;
use sig_host::{Lent, Shelf};
use std::alloc::Global;
use tpl_hearing::{Evaluated, Outcomes, Read, evaluate};
use tpl_model::{Heard, is_fault, is_over};

// The names that were read, in order.
fn names(alloc: Global, reads: &[Read]) -> Result<Vec<NodeId>, NoMemory>
    ensures { IfOk result (λ ids. ids.items ≡ names_of reads.now) }
{
    let mut ids = Vec::new(alloc);
    for read in reads {
        ids.push(read.id)?;
    }
    Ok(ids)
}

// What an evaluation read, by name, and what it came to.
fn heard_in(alloc: Global, evaluated: Evaluated) -> Result<Heard, NoMemory>
    ensures { IfOk result (λ h. heard_of h ≡ record { names = names_of evaluated.reads; outcome = evaluated.outcome }) }
{
    let names = names(alloc, &evaluated.reads)?;
    Ok(Heard {
        names,
        outcome: evaluated.outcome,
    })
}

/// What is heard of the formula of a line, in the row where the line stands.
///
/// # Errors
///
/// `NoMemory` alone; names may then have been settled.
pub fn listen(
    alloc: Global,
    graph: &mut Graph,
    shelf: &mut Shelf,
    heard: &mut Outcomes,
    formula: &Formula,
    links: &[NodeId],
    row: Option<&RowRef>,
    notes: &mut Vec<RunNote>,
) -> Result<Heard, NoMemory>
    requires place { IfSome row (λ r. r.now.place < length r.now.rows.rows) }
    requires can { CanSettle (scene graph.old (⟦<Shelf as Lent>⟧.asked shelf.old) notes.old.items) }
    requires counted { ⟦<Shelf as Lent>⟧.counted shelf.old }
    ensures heard { IfOk result (λ h. Listens (tree formula.now) links.now (option_copied row.entry) heard.old heard.new (heard_of h)) }
    ensures after { OnOk result (Hears
        (scene graph.old (⟦<Shelf as Lent>⟧.asked shelf.old) notes.old.items) (scene graph.new (⟦<Shelf as Lent>⟧.asked shelf.new) notes.new.items)
        (λ hosts. ⟦<Shelf as Lent>⟧.answers hosts shelf.old) (λ hosts. ⟦<Shelf as Lent>⟧.answers hosts shelf.new) heard.old heard.new) }
    ensures can { OnOk result (CanSettle (scene graph.new (⟦<Shelf as Lent>⟧.asked shelf.new) notes.new.items)) }
    ensures counted { OnOk result (⟦<Shelf as Lent>⟧.counted shelf.new) }
{
    let evaluated = evaluate(alloc, graph, shelf, heard, formula, row, links, notes)?;
    let line = heard_in(alloc, evaluated)?;
    Ok(line)
}

/// What is heard of the formulas of attributes, one after the other, up to the first that meets a fault where lines end at one.
///
/// # Errors
///
/// `NoMemory` alone; names may then have been settled.
pub fn listen_all(
    alloc: Global,
    graph: &mut Graph,
    shelf: &mut Shelf,
    heard: &mut Outcomes,
    attributes: &[(Text, Formula)],
    links: &[NodeId],
    ends: bool,
    row: Option<&RowRef>,
    notes: &mut Vec<RunNote>,
) -> Result<Vec<Heard>, NoMemory>
    requires place { IfSome row (λ r. r.now.place < length r.now.rows.rows) }
    requires can { CanSettle (scene graph.old (⟦<Shelf as Lent>⟧.asked shelf.old) notes.old.items) }
    requires counted { ⟦<Shelf as Lent>⟧.counted shelf.old }
    ensures heard { IfOk result (λ all. ListensUpTo ends (map (λ a. (a.0, tree a.1)) attributes.now) links.now (option_copied row.entry) heard.old heard.new (map heard_of all.items)) }
    ensures after { OnOk result (Hears
        (scene graph.old (⟦<Shelf as Lent>⟧.asked shelf.old) notes.old.items) (scene graph.new (⟦<Shelf as Lent>⟧.asked shelf.new) notes.new.items)
        (λ hosts. ⟦<Shelf as Lent>⟧.answers hosts shelf.old) (λ hosts. ⟦<Shelf as Lent>⟧.answers hosts shelf.new) heard.old heard.new) }
    ensures can { OnOk result (CanSettle (scene graph.new (⟦<Shelf as Lent>⟧.asked shelf.new) notes.new.items)) }
    ensures counted { OnOk result (⟦<Shelf as Lent>⟧.counted shelf.new) }
{
    let mut all = Vec::new(alloc);
    for attribute in attributes {
        let one = listen(alloc, graph, shelf, heard, &attribute.1, links, row, notes)?;
        let over = is_over(ends, is_fault(&one.outcome));
        all.push(one)?;
        if over {
            return Ok(all);
        }
    }
    Ok(all)
}

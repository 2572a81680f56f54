// What is heard of the formulas of lines, and heard again.
ghost use Rattle.tpl_hearing.specs.Heard.{scene, CanSettle};

use crate::scene::{Scene, is_number, of_names};
use sig_base::{NoMemory, Text};
use sig_formula::{BinOp, Formula};
use sig_host::{Lent, Shelf};
use std::alloc::Global;
use std::test::Fail;
use tpl_hearing::{Outcomes, Rehearing};
use tpl_kept::{listen, listen_again, listen_all, listen_all_again};
use tpl_model::Heard;

// Whether a formula is heard as this number, and as the same again.
fn stays(
    alloc: Global,
    s: &mut Scene,
    formula: &Formula,
    wanted: i64,
) -> Result<(bool, bool), NoMemory>
    requires can { CanSettle (scene s.old.graph (⟦<Shelf as Lent>⟧.asked s.old.shelf) s.old.notes.items) }
    requires counted { ⟦<Shelf as Lent>⟧.counted s.old.shelf }
{
    let links = [s.first, s.second];
    let mut before = Outcomes::new(alloc);
    let line = listen(
        alloc,
        &mut s.graph,
        &mut s.shelf,
        &mut before,
        formula,
        &links,
        None,
        &mut s.notes,
    )?;
    let found = is_number(&line.outcome, wanted);
    let mut hearing = Rehearing::new(alloc);
    let (next, same) = listen_again(
        alloc,
        &mut s.graph,
        &mut s.shelf,
        &before,
        &mut hearing,
        formula,
        line,
        &links,
        None,
        &mut s.notes,
    )?;
    Ok((found, same && is_number(&next.outcome, wanted)))
}

#[test]
fn a_line_stays_while_its_names_have_their_values(rt: HostRuntime) -> Result<(), Fail> {
    let alloc = rt.alloc();
    let mut s = Scene::of_numbers(alloc, 1, 2)?;
    let formula = of_names(alloc, BinOp::Add, 0, 1)?;
    let (found, again) = stays(alloc, &mut s, &formula, 3)?;
    assert!(rt; found && again);
    Ok(())
}

// Whether one formula was heard, as this number.
fn is_only(lines: &[Heard], wanted: i64) -> bool {
    match lines {
        [only] => is_number(&only.outcome, wanted),
        _ => false,
    }
}

// Whether the formulas of attributes that were heard are one number when they are heard again.
fn all_stay(
    alloc: Global,
    s: &mut Scene,
    attributes: &[(Text, Formula)],
    wanted: i64,
) -> Result<bool, NoMemory>
    requires can { CanSettle (scene s.old.graph (⟦<Shelf as Lent>⟧.asked s.old.shelf) s.old.notes.items) }
    requires counted { ⟦<Shelf as Lent>⟧.counted s.old.shelf }
{
    let links = [s.first, s.second];
    let mut before = Outcomes::new(alloc);
    let all = listen_all(
        alloc,
        &mut s.graph,
        &mut s.shelf,
        &mut before,
        attributes,
        &links,
        false,
        None,
        &mut s.notes,
    )?;
    let mut hearing = Rehearing::new(alloc);
    let (next, same) = listen_all_again(
        alloc,
        &mut s.graph,
        &mut s.shelf,
        &before,
        &mut hearing,
        attributes,
        all,
        &links,
        None,
        &mut s.notes,
    )?;
    Ok(same && is_only(&next, wanted))
}

// An attribute of the two names under an operator.
fn attribute(alloc: Global, name: &str, operator: BinOp) -> Result<(Text, Formula), Fail> {
    let name = Text::new(alloc, name)?;
    let formula = of_names(alloc, operator, 0, 1)?;
    Ok((name, formula))
}

// One attribute, of the sum of the two names.
fn title(alloc: Global) -> Result<Vec<(Text, Formula)>, Fail> {
    let only = attribute(alloc, "title", BinOp::Add)?;
    let mut attributes = Vec::new(alloc);
    attributes.push(only)?;
    Ok(attributes)
}

#[test]
fn attributes_stay_while_their_names_have_their_values(rt: HostRuntime) -> Result<(), Fail> {
    let alloc = rt.alloc();
    let mut s = Scene::of_numbers(alloc, 1, 2)?;
    let attributes = title(alloc)?;
    let same = all_stay(alloc, &mut s, &attributes, 3)?;
    assert!(rt; same);
    Ok(())
}

// How many attributes are heard, to their end or up to the first that meets a fault.
fn count_heard(
    alloc: Global,
    s: &mut Scene,
    attributes: &[(Text, Formula)],
    ends: bool,
) -> Result<usize, NoMemory>
    requires can { CanSettle (scene s.old.graph (⟦<Shelf as Lent>⟧.asked s.old.shelf) s.old.notes.items) }
    requires counted { ⟦<Shelf as Lent>⟧.counted s.old.shelf }
{
    let links = [s.first, s.second];
    let mut heard = Outcomes::new(alloc);
    let all = listen_all(
        alloc,
        &mut s.graph,
        &mut s.shelf,
        &mut heard,
        attributes,
        &links,
        ends,
        None,
        &mut s.notes,
    )?;
    Ok(all.len())
}

// How many of three attributes are heard, of which the second meets a fault.
fn heard_of_three(alloc: Global, ends: bool) -> Result<usize, Fail> {
    let mut s = Scene::of_numbers(alloc, 1, 0)?;
    let mut attributes = title(alloc)?;
    let share = attribute(alloc, "share", BinOp::Div)?;
    attributes.push(share)?;
    let last = attribute(alloc, "last", BinOp::Sub)?;
    attributes.push(last)?;
    let count = count_heard(alloc, &mut s, &attributes, ends)?;
    Ok(count)
}

#[test]
fn attributes_end_at_a_fault_where_lines_do(rt: HostRuntime) -> Result<(), Fail> {
    let alloc = rt.alloc();
    assert!(rt; heard_of_three(alloc, true)? == 2);
    assert!(rt; heard_of_three(alloc, false)? == 3);
    Ok(())
}

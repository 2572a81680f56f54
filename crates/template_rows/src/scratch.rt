// A page that is asked for until it comes.

use crate::blocks::read;
use page_tree::Sub;
use sig_base::{Fault, NoMemory, Outcome, Text, Value};
use std::alloc::Global;
use std::process::Abort;
use tpl_scratch::{ScratchStep, page_from_scratch};
use tpl_syntax::Template;

const BLOCK: &str = "tag @ul\nattr @title a\nif b\ntext c\nend\nend\n";

fn number(known: Option<i64>) -> Option<Outcome> {
    match known {
        Some(number) => Some(Outcome::Good(Value::Int(number))),
        None => None,
    }
}

fn truth(known: Option<bool>) -> Option<Outcome> {
    match known {
        Some(truth) => Some(Outcome::Good(Value::Bool(truth))),
        None => None,
    }
}

// Outcomes of three names, as far as they are known.
fn outcomes(
    alloc: Global,
    title: Option<i64>,
    test: Option<bool>,
    text: Option<i64>,
) -> Result<Vec<Option<Outcome>>, NoMemory> {
    let mut known = Vec::new(alloc);
    known.push(number(title))?;
    known.push(truth(test))?;
    known.push(number(text))?;
    Ok(known)
}

// What comes of a template; none where there isn't an outcome or none for each name.
fn step_of(
    alloc: Global,
    template: &Template,
    known: &[Option<Outcome>],
) -> Result<Option<ScratchStep>, NoMemory> {
    if known.len() != template.names().len() {
        return Ok(None);
    }
    let step = page_from_scratch(alloc, template, known)?;
    Ok(Some(step))
}

// What comes of a block; none where it isn't read.
fn step_in(
    alloc: Global,
    block: &str,
    known: &[Option<Outcome>],
) -> Result<Option<ScratchStep>, NoMemory> {
    match read(alloc, block.as_bytes()) {
        Some(Ok(template)) => step_of(alloc, &template, known),
        _ => Ok(None),
    }
}

// What comes of the block with three names.
fn step(
    alloc: Global,
    title: Option<i64>,
    test: Option<bool>,
    text: Option<i64>,
) -> Result<Option<ScratchStep>, NoMemory> {
    let known = outcomes(alloc, title, test, text)?;
    let step = step_in(alloc, BLOCK, &known)?;
    Ok(step)
}

// The name that is asked for where only the title and the test may be known.
fn asked(alloc: Global, title: Option<i64>, test: Option<bool>) -> Result<Option<u32>, NoMemory> {
    match step(alloc, title, test, None)? {
        Some(ScratchStep::Ask(name)) => Ok(Some(name)),
        _ => Ok(None),
    }
}

#[test]
fn names_are_asked_for_as_they_are_needed(rt: HostRuntime) -> Result<(), NoMemory> {
    let alloc = rt.alloc();
    assert!(rt; asked(alloc, None, None)? == Some(0));
    assert!(rt; asked(alloc, Some(7), Some(true))? == Some(2));
    Ok(())
}

// Whether there is one attribute, of this name and value.
fn is_attribute(attributes: &[(Text, Text)], name: &str, value: &str) -> bool {
    match attributes {
        [only] => only.0.as_str() == name && only.1.as_str() == value,
        _ => false,
    }
}

// Whether there is one node, this text with the second number.
fn is_second_text(nodes: &[Sub], characters: &str) -> bool {
    match nodes {
        [Sub::Text(2, shown)] => shown.as_str() == characters,
        _ => false,
    }
}

fn assert_list(rt: &impl Abort, nodes: &[Sub]) {
    let [Sub::Element(1, name, attributes, children)] = nodes else {
        assert!(rt; false);
        return;
    };
    assert!(rt; name.as_str() == "ul");
    assert!(rt; is_attribute(attributes, "title", "7"));
    assert!(rt; is_second_text(children, "3"));
}

#[test]
fn the_page_comes_once_its_names_are_known(rt: HostRuntime) -> Result<(), NoMemory> {
    let step = step(rt.alloc(), Some(7), Some(true), Some(3))?;
    let Some(ScratchStep::Page(nodes)) = &step else {
        assert!(rt; false);
        return Ok(());
    };
    assert_list(&rt, nodes);
    Ok(())
}

const TRIED: &str = "try\ntag @p\ntext z\nend\ntext w\nelse\ntext y\nend\n";

// A name that is known: a number, or the fault of a division by zero.
fn divided(known: Option<i64>) -> Option<Outcome> {
    match known {
        Some(0) => Some(Outcome::Bad(Fault::Zero)),
        _ => number(known),
    }
}

// What comes of what is tried, where three names may be known; the first has a fault where it is 0.
fn tried(
    alloc: Global,
    first: Option<i64>,
    behind: Option<i64>,
    other: Option<i64>,
) -> Result<Option<ScratchStep>, NoMemory> {
    let mut known = Vec::new(alloc);
    known.push(divided(first))?;
    known.push(number(behind))?;
    known.push(number(other))?;
    let step = step_in(alloc, TRIED, &known)?;
    Ok(step)
}

// The name that is asked for of what is tried.
fn tried_asks(
    alloc: Global,
    first: Option<i64>,
    behind: Option<i64>,
    other: Option<i64>,
) -> Result<Option<u32>, NoMemory> {
    match tried(alloc, first, behind, other)? {
        Some(ScratchStep::Ask(name)) => Ok(Some(name)),
        _ => Ok(None),
    }
}

#[test]
fn nothing_is_read_behind_a_fault_in_what_is_tried(rt: HostRuntime) -> Result<(), NoMemory> {
    let alloc = rt.alloc();
    assert!(rt; tried_asks(alloc, None, None, None)? == Some(0));
    assert!(rt; tried_asks(alloc, Some(0), None, None)? == Some(2));
    assert!(rt; tried_asks(alloc, Some(1), None, None)? == Some(1));
    assert!(rt; tried_asks(alloc, Some(0), None, Some(7))? == None);
    assert!(rt; tried_asks(alloc, Some(1), Some(8), None)? == None);
    Ok(())
}

// Whether there is one node, this text with the first number.
fn is_first_text(nodes: &[Sub], characters: &str) -> bool {
    match nodes {
        [Sub::Text(1, shown)] => shown.as_str() == characters,
        _ => false,
    }
}

#[test]
fn the_nodes_before_a_fault_in_what_is_tried_are_dropped(rt: HostRuntime) -> Result<(), NoMemory> {
    let step = tried(rt.alloc(), Some(0), None, Some(7))?;
    let Some(ScratchStep::Page(nodes)) = &step else {
        assert!(rt; false);
        return Ok(());
    };
    assert!(rt; is_first_text(nodes, "7"));
    Ok(())
}

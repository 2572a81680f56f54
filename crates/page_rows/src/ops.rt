// Operations on a small page, and their text.

use crate::lines::{apply_line, assert_leads, assert_pages};
use page_ops::{ApplyFault, Op, OpFault, op_line, read_op};
use page_tree::{Sub, Tree};
use sig_base::{NoMemory, Text, TextFault};
use std::alloc::Global;
use std::process::Abort;
use std::test::Fail;

fn text(alloc: Global, characters: &str) -> Result<Text, NoMemory> {
    Text::new(alloc, characters).map_err(|_: TextFault| NoMemory)
}

fn text_node(alloc: Global, number: u64, characters: &str) -> Result<Sub, NoMemory> {
    let shown = text(alloc, characters)?;
    Ok(Sub::Text(number, shown))
}

fn only(alloc: Global, child: Sub) -> Result<Vec<Sub>, NoMemory> {
    let mut children = Vec::new(alloc);
    children.push(child)?;
    Ok(children)
}

// An element without attributes around the text "D".
fn item(alloc: Global, number: u64, name: &str) -> Result<Sub, NoMemory> {
    let name = text(alloc, name)?;
    let children = only(alloc, text_node(alloc, 9, "D")?)?;
    Ok(Sub::Element(number, name, Vec::new(alloc), children))
}

// Whether an operation is written so.
fn is_written(alloc: Global, op: &Op, want: &str) -> Result<bool, NoMemory> {
    let mut line = Vec::new(alloc);
    op_line(&mut line, op)?;
    Ok(line.as_slice() == want.as_bytes())
}

#[test]
fn an_insertion_is_written(rt: HostRuntime) -> Result<(), NoMemory> {
    let alloc = rt.alloc();
    let op = Op::Insert(1, 2, item(alloc, 8, "li")?);
    let written = is_written(alloc, &op, "insert 1 2 (8 li (9 \"D\"))")?;
    assert!(rt; written);
    Ok(())
}

// Whether a line is no operation's text.
fn is_bad(alloc: Global, line: &str) -> bool {
    matches!(read_op(alloc, line.as_bytes()), Err(OpFault::Bad(_)))
}

// Each line is to be no operation's text.
fn assert_bad(rt: &impl Abort, alloc: Global, lines: &[&str]) {
    for line in lines {
        assert!(rt; is_bad(alloc, line), "at {line}");
    }
}

// Whether a line is no operation's text from this byte on.
fn is_bad_from(alloc: Global, line: &[u8], at: usize) -> bool {
    read_op(alloc, line).err() == Some(OpFault::Bad(at))
}

#[test]
fn a_list_is_edited(rt: HostRuntime) -> Result<(), Fail> {
    let steps = [
        (
            "insert 0 0 (1 ul (2 li (3 \"A\")) (4 li (5 \"B\")) (6 li (7 \"C\")))",
            "<ul><li>A</li><li>B</li><li>C</li></ul>",
        ),
        ("remove 4", "<ul><li>A</li><li>C</li></ul>"),
        ("move 6 0", "<ul><li>C</li><li>A</li></ul>"),
        (
            "insert 1 2 (8 li (9 \"D\"))",
            "<ul><li>C</li><li>A</li><li>D</li></ul>",
        ),
        ("text 3 \"Z\"", "<ul><li>C</li><li>Z</li><li>D</li></ul>"),
        ("move 2 0", "<ul><li>Z</li><li>C</li><li>D</li></ul>"),
        ("text 3 \"Q\"", "<ul><li>Q</li><li>C</li><li>D</li></ul>"),
    ];
    let alloc = rt.alloc();
    let mut tree = Tree::new(alloc)?;
    assert_leads(&rt, alloc, &mut tree, &steps)?;
    let refused = apply_line(alloc, &mut tree, "remove 99")?;
    assert!(rt; refused == Err(ApplyFault::NoSuchNode(99)));
    Ok(())
}

#[test]
fn an_attribute_goes(rt: HostRuntime) -> Result<(), Fail> {
    let steps = [
        ("insert 0 0 (1 p)", "<p></p>"),
        (
            "insert 0 1 (2 input disabled=\"\")",
            "<p></p><input disabled=\"\">",
        ),
        ("unattr 2 disabled", "<p></p><input>"),
        (
            "attr 1 0 title \"a\\\"b\\n\"",
            "<p title=\"a&quot;b\n\"></p><input>",
        ),
    ];
    assert_pages(&rt, rt.alloc(), &steps)
}

#[test]
fn other_lines_are_bad(rt: HostRuntime) {
    let alloc = rt.alloc();
    assert!(rt; is_bad_from(alloc, b"remove 04", 7));
    let lines = [
        "",
        "remove",
        "remove 4 ",
        "remove  4",
        "remove 18446744073709551616",
        "drop 4",
        "text 3 \"a",
        "text 3 \"\\a\"",
        "attr 1 0 Title \"\"",
        "insert 0 0 (1 p a=\"\" a=\"\")",
        "insert 0 0 (1 \"a\" (2 \"b\"))",
        "insert 0 0 (1 p) (2 p)",
    ];
    assert_bad(&rt, alloc, &lines);
}

// An insertion of so many nodes, each below the one before.
fn nested(alloc: Global, levels: u64) -> Result<Vec<u8>, NoMemory> {
    let mut line = Vec::new(alloc);
    line.extend_from_slice(b"insert 0 0")?;
    for number in 0..levels {
        line.extend_from_slice(b" (")?;
        line.extend_from_slice(number.to_string(alloc)?.as_bytes())?;
        line.extend_from_slice(b" p")?;
    }
    for _ in 0..levels {
        line.push(b')')?;
    }
    Ok(line)
}

// Whether so many levels are read.
fn are_read(alloc: Global, levels: u64) -> Result<bool, NoMemory> {
    let line = nested(alloc, levels)?;
    Ok(read_op(alloc, &line).is_ok())
}

#[test]
fn levels_end(rt: HostRuntime) -> Result<(), NoMemory> {
    let alloc = rt.alloc();
    assert!(rt; are_read(alloc, 32)?);
    assert!(rt; !are_read(alloc, 33)?);
    Ok(())
}

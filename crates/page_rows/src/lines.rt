// Lines of operations: what they are read as, and what they do.

use page_ops::{ApplyFault, apply, op_line, read_op};
use page_tree::Tree;
use sig_base::NoMemory;
use std::alloc::Global;
use std::process::Abort;
use std::test::Fail;

/// Reads an operation and does it.
pub(crate) fn apply_line(
    alloc: Global,
    tree: &mut Tree,
    line: &str,
) -> Result<Result<(), ApplyFault>, Fail> {
    let op = read_op(alloc, line.as_bytes())?;
    Ok(apply(alloc, tree, &op))
}

// Whether a line is read as an operation that is written so.
fn is_written_again(alloc: Global, line: &str) -> Result<bool, Fail> {
    let op = read_op(alloc, line.as_bytes())?;
    let mut again = Vec::new(alloc);
    op_line(&mut again, &op)?;
    Ok(again.as_slice() == line.as_bytes())
}

// Whether a tree is written so.
fn shows(alloc: Global, tree: &Tree, html: &str) -> Result<bool, NoMemory> {
    let mut out = Vec::new(alloc);
    tree.write_html(&mut out)?;
    Ok(out.as_slice() == html.as_bytes())
}

// Does an operation, which is to be read, written again and accepted.
fn assert_done(rt: &impl Abort, alloc: Global, tree: &mut Tree, line: &str) -> Result<(), Fail> {
    let again = is_written_again(alloc, line)?;
    assert!(rt; again, "at {line}");
    let done = apply_line(alloc, tree, line)?;
    assert!(rt; done.is_ok(), "at {line}");
    Ok(())
}

// The same of the operations of lines.
fn assert_all_done(
    rt: &impl Abort,
    alloc: Global,
    tree: &mut Tree,
    lines: &str,
) -> Result<(), Fail> {
    for line in lines.split('\n') {
        assert_done(rt, alloc, tree, line)?;
    }
    Ok(())
}

/// Does the operations, one on each line, which are to lead to the page beside them.
pub(crate) fn assert_leads(
    rt: &impl Abort,
    alloc: Global,
    tree: &mut Tree,
    steps: &[(&str, &str)],
) -> Result<(), Fail> {
    for (lines, html) in steps {
        assert_all_done(rt, alloc, tree, lines)?;
        let shown = shows(alloc, tree, html)?;
        assert!(rt; shown, "after {lines}");
    }
    Ok(())
}

/// The same from an empty page on.
pub(crate) fn assert_pages(
    rt: &impl Abort,
    alloc: Global,
    steps: &[(&str, &str)],
) -> Result<(), Fail> {
    let mut tree = Tree::new(alloc)?;
    assert_leads(rt, alloc, &mut tree, steps)
}

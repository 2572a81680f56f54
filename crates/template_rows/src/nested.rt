// How the lines of a template nest.

use crate::blocks::read;
use sig_base::NoMemory;
use sig_formula::Formula;
use std::alloc::Global;
use std::process::Abort;
use tpl_blocks::{Block, block_of};
use tpl_syntax::Template;

fn nested_in(alloc: Global, template: &Template) -> Result<Option<Block>, NoMemory> {
    let block = block_of(alloc, template)?;
    Ok(Some(block))
}

// How lines nest; none where they aren't read.
fn nested(alloc: Global, lines: &str) -> Result<Option<Block>, NoMemory> {
    match read(alloc, lines.as_bytes()) {
        Some(Ok(template)) => nested_in(alloc, &template),
        _ => Ok(None),
    }
}

fn assert_choice(rt: &impl Abort, inner: &Block) {
    let Block::Choice(Formula::Slot(0), one, other, behind) = inner else {
        assert!(rt; false);
        return;
    };
    assert!(rt; matches!(&**one, Block::Text(4, ..)));
    assert!(rt; matches!(&**other, Block::Text(6, ..)));
    assert!(rt; matches!(&**behind, Block::Empty));
}

fn assert_nested(rt: &impl Abort, block: &Block) {
    let Block::Tag(1, name, attributes, inner, after) = block else {
        assert!(rt; false);
        return;
    };
    assert!(rt; name.as_str() == "p" && attributes.len() == 1);
    assert!(rt; matches!(&**after, Block::Empty));
    assert_choice(rt, &**inner);
}

fn assert_attempt(rt: &impl Abort, block: &Block) {
    let Block::Attempt(first, second, behind) = block else {
        assert!(rt; false);
        return;
    };
    assert!(rt; matches!(&**first, Block::Attempt(..)));
    assert!(rt; matches!(&**second, Block::Text(7, ..)));
    assert!(rt; matches!(&**behind, Block::Text(9, ..)));
}

#[test]
fn what_is_tried_has_two_parts(rt: HostRuntime) -> Result<(), NoMemory> {
    let lines = "try\ntry\ntext a\nend\ntext b\nelse\ntext c\nend\ntext d\n";
    let Some(block) = nested(rt.alloc(), lines)? else {
        assert!(rt; false);
        return Ok(());
    };
    assert_attempt(&rt, &block);
    Ok(())
}

#[test]
fn lines_nest_by_their_ends(rt: HostRuntime) -> Result<(), NoMemory> {
    let lines = "tag @p\nattr @class \"x\"\nif a\ntext 1\nelse\ntext 2\nend\nend\n";
    let Some(block) = nested(rt.alloc(), lines)? else {
        assert!(rt; false);
        return Ok(());
    };
    assert_nested(&rt, &block);
    Ok(())
}

// Each limit reached, and passed by one.

use crate::blocks::{fault, read, repeated};
use std::alloc::{AllocError, Global};
use tpl_syntax::TemplateWhy;

fn is_read(alloc: Global, block: &[u8]) -> bool {
    matches!(read(alloc, block), Some(Ok(_)))
}

// So many parts that this line begins, each in the one before, and a text in the last.
fn nested(alloc: Global, line: &[u8], levels: usize) -> Result<Vec<u8>, AllocError> {
    let front = repeated(alloc, b"", line, levels, b"text a\n")?;
    repeated(alloc, &front, b"end\n", levels, b"")
}

// A text of so many names behind another, in groups of eight.
fn names(alloc: Global, count: u32) -> Result<Vec<u8>, AllocError> {
    let mut block = Vec::new(alloc);
    block.extend_from_slice(b"text a\ntext (0")?;
    for i in 0..count {
        if i % 8 == 0 {
            block.extend_from_slice(b") + (0")?;
        }
        let part = format!(in alloc; " + a{i}")?;
        block.extend_from_slice(part.as_bytes())?;
    }
    block.extend_from_slice(b")\n")?;
    Ok(block)
}

// Whether a block was made and is read.
fn reads(alloc: Global, made: Result<Vec<u8>, AllocError>) -> bool {
    match made {
        Ok(block) => is_read(alloc, &block),
        Err(_) => false,
    }
}

// Whether a block was made and is refused at that line and for that cause.
fn refuses(alloc: Global, made: Result<Vec<u8>, AllocError>, at: usize, why: TemplateWhy) -> bool {
    match made {
        Ok(block) => fault(alloc, &block) == Some((at, why)),
        Err(_) => false,
    }
}

#[test]
fn thirty_two_levels(rt: HostRuntime) {
    let alloc = rt.alloc();
    assert!(rt; reads(alloc, nested(alloc, b"tag @b\n", 31)));
    assert!(rt; refuses(alloc, nested(alloc, b"tag @b\n", 32), 31, TemplateWhy::Nest));
    assert!(rt; reads(alloc, nested(alloc, b"try\n", 31)));
    assert!(rt; refuses(alloc, nested(alloc, b"try\n", 32), 31, TemplateWhy::Nest));
}

#[test]
fn a_height_of_sixty_four(rt: HostRuntime) {
    let alloc = rt.alloc();
    let high = repeated(alloc, b"text a\ntext ", b"not ", 63, b"true\n");
    assert!(rt; reads(alloc, high));
    let higher = repeated(alloc, b"text a\ntext ", b"not ", 64, b"true\n");
    assert!(rt; refuses(alloc, higher, 1, TemplateWhy::Nest));
    let child = repeated(alloc, b"tag @br\ntext ", b"not ", 64, b"true\nend\n");
    assert!(rt; refuses(alloc, child, 1, TemplateWhy::VoidChild));
}

#[test]
fn a_text_of_1024_bytes(rt: HostRuntime) {
    let alloc = rt.alloc();
    let long = repeated(alloc, b"text a\ntext \"", b"x", 1024, b"\"\n");
    assert!(rt; reads(alloc, long));
    let longer = repeated(alloc, b"text a\ntext \"", b"x", 1025, b"\"\ntext it.x\n");
    assert!(rt; refuses(alloc, longer, 2, TemplateWhy::ItHere));
    let last = repeated(alloc, b"text a\ntext \"", b"x", 1025, b"\"\n");
    assert!(rt; refuses(alloc, last, 1, TemplateWhy::Text));
}

#[test]
fn a_long_text_that_is_not_escaped(rt: HostRuntime) {
    let alloc = rt.alloc();
    let long = repeated(alloc, b"tag @script\ntext \"", b"x", 1025, b"\"\nend\n");
    assert!(rt; refuses(alloc, long, 1, TemplateWhy::Text));
    let closing = repeated(alloc, b"tag @script\ntext \"", b"x", 1025, b"</\"\nend\n");
    assert!(rt; refuses(alloc, closing, 1, TemplateWhy::RawText));
}

#[test]
fn sixty_four_names(rt: HostRuntime) {
    let alloc = rt.alloc();
    assert!(rt; reads(alloc, names(alloc, 64)));
    assert!(rt; refuses(alloc, names(alloc, 65), 1, TemplateWhy::Sources));
}

#[test]
fn a_hundred_and_twenty_eight_lines(rt: HostRuntime) {
    let alloc = rt.alloc();
    let most = repeated(alloc, b"# one\n", b"text a\n\n", 128, b"");
    assert!(rt; reads(alloc, most));
    let more = repeated(alloc, b"# one\n", b"text a\n\n", 129, b"");
    assert!(rt; refuses(alloc, more, 129, TemplateWhy::Lines));
}

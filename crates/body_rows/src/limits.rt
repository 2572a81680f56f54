// Each limit reached, and passed by one.

use crate::blocks::{fault, read, repeated};
use body_text::BodyWhy;
use std::alloc::{AllocError, Global};

fn is_read(alloc: Global, block: &[u8]) -> bool {
    matches!(read(alloc, block), Some(Ok(_)))
}

// So many levels, each in the one before.
fn nested(alloc: Global, line: &[u8], levels: usize) -> Result<Vec<u8>, AllocError> {
    let front = repeated(alloc, b"", line, levels, b"")?;
    repeated(alloc, &front, b"end\n", levels, b"")
}

// A host formula of so many arguments.
fn arguments(alloc: Global, count: u32) -> Result<Vec<u8>, AllocError> {
    let mut block = Vec::new(alloc);
    block.extend_from_slice(b"log 1\nrewire c = host 0 (b")?;
    for i in 1..count {
        let part = format!(in alloc; ", a{i}")?;
        block.extend_from_slice(part.as_bytes())?;
    }
    block.extend_from_slice(b")\n")?;
    Ok(block)
}

// A long text, and then so many `not` before a truth.
fn long_and_high(alloc: Global, count: usize) -> Result<Vec<u8>, AllocError> {
    let longer = repeated(alloc, b"log 1\nlog \"", b"x", 1025, b"\"\nlog ")?;
    repeated(alloc, &longer, b"not ", count, b"true\n")
}

// Too many lines, of which the last has a long text.
fn many_and_long(alloc: Global) -> Result<Vec<u8>, AllocError> {
    let front = repeated(alloc, b"", b"log 1\n", 65, b"log \"")?;
    repeated(alloc, &front, b"x", 1025, b"\"\n")
}

// Whether a block was made and is read.
fn reads(alloc: Global, made: Result<Vec<u8>, AllocError>) -> bool {
    match made {
        Ok(block) => is_read(alloc, &block),
        Err(_) => false,
    }
}

// Whether a block was made and is refused at that line and for that cause.
fn refuses(alloc: Global, made: Result<Vec<u8>, AllocError>, at: usize, why: BodyWhy) -> bool {
    match made {
        Ok(block) => fault(alloc, &block) == Some((at, why)),
        Err(_) => false,
    }
}

#[test]
fn thirty_two_levels(rt: HostRuntime) {
    let alloc = rt.alloc();
    assert!(rt; reads(alloc, nested(alloc, b"when true\n", 31)));
    assert!(rt; refuses(alloc, nested(alloc, b"when true\n", 32), 31, BodyWhy::Nest));
    assert!(rt; reads(alloc, nested(alloc, b"effect\n", 31)));
    assert!(rt; refuses(alloc, nested(alloc, b"effect\n", 32), 31, BodyWhy::Nest));
}

#[test]
fn sixty_four_lines(rt: HostRuntime) {
    let alloc = rt.alloc();
    let most = repeated(alloc, b"# one\n", b"log 1\n\n", 64, b"");
    assert!(rt; reads(alloc, most));
    let more = repeated(alloc, b"# one\n", b"log 1\n\n", 65, b"");
    assert!(rt; refuses(alloc, more, 65, BodyWhy::Lines));
    let inner = repeated(alloc, b"", b"effect\nlog 1\nend\n", 21, b"log 1\n");
    assert!(rt; reads(alloc, inner));
    let deep = repeated(alloc, b"log 1\n", b"effect\nlog 1\nend\n", 21, b"log 1\n");
    assert!(rt; refuses(alloc, deep, 65, BodyWhy::Lines));
}

#[test]
fn a_height_of_sixty_four(rt: HostRuntime) {
    let alloc = rt.alloc();
    let high = repeated(alloc, b"log 1\nlog ", b"not ", 63, b"true\n");
    assert!(rt; reads(alloc, high));
    let higher = repeated(alloc, b"log 1\nlog ", b"not ", 64, b"true\nlog 2\n");
    assert!(rt; refuses(alloc, higher, 1, BodyWhy::Nest));
}

#[test]
fn a_text_of_1024_bytes(rt: HostRuntime) {
    let alloc = rt.alloc();
    let long = repeated(alloc, b"log 1\nlog \"", b"x", 1024, b"\"\n");
    assert!(rt; reads(alloc, long));
    assert!(rt; refuses(alloc, long_and_high(alloc, 63), 1, BodyWhy::Text));
    assert!(rt; refuses(alloc, long_and_high(alloc, 64), 2, BodyWhy::Nest));
    assert!(rt; refuses(alloc, many_and_long(alloc), 65, BodyWhy::Text));
}

#[test]
fn sixty_four_arguments(rt: HostRuntime) {
    let alloc = rt.alloc();
    assert!(rt; reads(alloc, arguments(alloc, 64)));
    assert!(rt; refuses(alloc, arguments(alloc, 65), 1, BodyWhy::Sources));
}

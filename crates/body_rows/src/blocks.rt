// Short blocks of lines.

use body_text::{Allowance, BodyFault, BodyWhy, put_body, read_body};
use sig_base::NoMemory;
use sig_untrack::Body;
use std::alloc::{AllocError, Global};

// What a block of at most 4,096 bytes is where this is allowed; a longer one isn't read.
fn read_by(alloc: Global, block: &[u8], allowance: Allowance) -> Option<Result<Body, BodyFault>> {
    if block.len() > 4096 {
        return None;
    }
    Some(read_body(alloc, block, allowance))
}

// What a block is as the body of an effect.
pub fn read(alloc: Global, block: &[u8]) -> Option<Result<Body, BodyFault>> {
    read_by(alloc, block, Allowance::effect())
}

// Where a block is refused where this is allowed, and why.
pub fn fault_of(alloc: Global, block: &[u8], allowance: Allowance) -> Option<(usize, BodyWhy)> {
    match read_by(alloc, block, allowance) {
        Some(Err(fault)) => Some((fault.at, fault.why)),
        _ => None,
    }
}

// Where a block is refused as the body of an effect, and why.
pub fn fault(alloc: Global, block: &[u8]) -> Option<(usize, BodyWhy)> {
    fault_of(alloc, block, Allowance::effect())
}

// Appends how the body of a block is written; nothing where it is refused.
fn put_read(
    out: &mut Vec<u8>,
    alloc: Global,
    block: &[u8],
    allowance: Allowance,
) -> Result<(), NoMemory> {
    match read_by(alloc, block, allowance) {
        Some(Ok(body)) => put_body(out, &body),
        _ => Ok(()),
    }
}

// Whether the body of a block is written so where this is allowed.
pub fn is_written_by(
    alloc: Global,
    block: &[u8],
    want: &[u8],
    allowance: Allowance,
) -> Result<bool, NoMemory> {
    let mut out = Vec::new(alloc);
    put_read(&mut out, alloc, block, allowance)?;
    Ok(out.as_slice() == want)
}

// Whether the body of an effect that is a block is written so.
pub fn is_written(alloc: Global, block: &[u8], want: &[u8]) -> Result<bool, NoMemory> {
    is_written_by(alloc, block, want, Allowance::effect())
}

// A part so many times between two others.
pub fn repeated(
    alloc: Global,
    front: &[u8],
    part: &[u8],
    times: usize,
    back: &[u8],
) -> Result<Vec<u8>, AllocError> {
    let mut block = Vec::new(alloc);
    block.extend_from_slice(front)?;
    for _ in 0..times {
        block.extend_from_slice(part)?;
    }
    block.extend_from_slice(back)?;
    Ok(block)
}

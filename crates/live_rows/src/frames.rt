// Scripts written as frames, and frames that are followed.
ghost use Rattle.std.specs.Prelude.{◌≤◌};

use crate::rows::assert_output;
use crate::run::{TODO, TODO_OUTPUT, run_over, run_whole};
use live_run::Status;
use sig_base::NoMemory;
use std::alloc::Global;
use std::test::Fail;

// A page of one text.
const SCRIPT: &[u8] = b"cell a = 1\ntemplate t\ntext a\nend\nmount p t\n";

// Its frames: a mount, an operation, and a page that is ready.
const FRAMES: &[u8] =
    b"\0\0\0\0\0\0\0\x03\x01\x01p\0\0\0\0\0\0\0\x15\x02\x01pinsert 0 0 (1 \"1\")\0\0\0\0\0\0\0\x03\x03\x01p";

#[test]
fn a_page_is_written_and_followed(rt: HostRuntime) -> Result<(), Fail> {
    let alloc = rt.alloc();
    let written = run_whole(alloc, "live wire", SCRIPT)?;
    assert!(rt; written.status == Status::Done);
    assert!(rt; written.held.as_slice() == FRAMES);
    assert_output(&rt, alloc, "live follow", FRAMES, "page p 1\n1\n")
}

#[test]
fn frames_that_are_cut_have_a_fault(rt: HostRuntime) -> Result<(), Fail> {
    let alloc = rt.alloc();
    let run = run_whole(alloc, "live follow", &FRAMES[..FRAMES.len() - 1])?;
    assert!(rt; run.status == Status::BadFrames);
    assert!(rt; run.held.is_empty());
    Ok(())
}

// A frame that would be longer than all that is followed, and zeros, so many bytes in all.
fn endless(alloc: Global, count: usize) -> Result<Vec<u8>, Fail>
    requires { 8 ≤ count }
{
    let mut bytes = vec![in alloc; 0u8; count]?;
    bytes[..8].copy_from_slice(b"\x7f\xff\xff\xff\xff\xff\xff\xff".as_slice());
    Ok(bytes)
}

#[test]
fn more_frames_than_are_followed_are_too_many(rt: HostRuntime) -> Result<(), Fail> {
    let alloc = rt.alloc();
    let many = run_whole(alloc, "live follow", &endless(alloc, 67_108_865)?)?;
    assert!(rt; many.status == Status::TooLong);
    let cut = run_whole(alloc, "live follow", &endless(alloc, 67_108_864)?)?;
    assert!(rt; cut.status == Status::BadFrames);
    assert!(rt; many.held.is_empty() && cut.held.is_empty());
    Ok(())
}

// The lines but those of operations.
fn pages_of(alloc: Global, output: &str) -> Result<Vec<u8>, NoMemory> {
    let mut pages = Vec::new(alloc);
    for line in output.split('\n') {
        if !line.is_empty() && !line.starts_with("op ") {
            pages.extend_from_slice(line.as_bytes())?;
            pages.push(b'\n')?;
        }
    }
    Ok(pages)
}

#[test]
fn frames_that_come_byte_by_byte_print_the_pages(rt: HostRuntime) -> Result<(), Fail> {
    let alloc = rt.alloc();
    let written = run_whole(alloc, "live wire", TODO.as_bytes())?;
    assert!(rt; written.status == Status::Done);
    let followed = run_over(
        alloc,
        "live follow",
        &written.held,
        1,
        Vec::new(alloc),
        Vec::new(alloc),
    )?;
    assert!(rt; followed.status == Status::Done);
    let pages = pages_of(alloc, TODO_OUTPUT)?;
    assert!(rt; followed.held.as_slice() == pages.as_slice());
    Ok(())
}

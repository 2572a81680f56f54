// What a follower makes of notes.
ghost use Rattle.std.specs.Prelude.{◌<◌};

use crate::frames::STREAM;
use page_follow::{FollowEnd, FollowFault, Follower, FrameFollower, live_follow};
use page_ops::read_op;
use page_wire::Note;
use sig_base::Name;
use sig_io::{MemSink, MemSource};
use std::alloc::Global;
use std::test::Fail;

// Takes an operation on a page.
fn take_op(
    alloc: Global,
    follower: &mut Follower,
    name: &str,
    line: &str,
) -> Result<Result<(), FollowFault>, Fail> {
    let op = read_op(alloc, line.as_bytes())?;
    let note = Note::Op(Name::new(alloc, name)?, op);
    let mut out = Vec::new(alloc);
    Ok(follower.take_note(&note, &mut out))
}

#[test]
fn a_page_is_printed_when_it_is_ready(rt: HostRuntime) -> Result<(), Fail> {
    let alloc = rt.alloc();
    let mut out = Vec::new(alloc);
    let mut follower = Follower::new(alloc)?;
    follower.take_note(&Note::Mount(Name::new(alloc, "p")?), &mut out)?;
    take_op(alloc, &mut follower, "p", "insert 0 0 (1 \"1\")")??;
    follower.take_note(&Note::Ready(Name::new(alloc, "p")?), &mut out)?;
    assert!(rt; out.as_slice() == "page p 1\n1\n".as_bytes());
    Ok(())
}

// Whether a note is refused.
fn is_refused(taken: Result<(), FollowFault>) -> bool {
    taken == Err(FollowFault::Refused)
}

#[test]
fn what_cannot_be_is_refused(rt: HostRuntime) -> Result<(), Fail> {
    let alloc = rt.alloc();
    let mut out = Vec::new(alloc);
    let mut follower = Follower::new(alloc)?;
    let mount = Note::Mount(Name::new(alloc, "p")?);
    let ready = Note::Ready(Name::new(alloc, "p")?);
    let gone = Note::Gone(Name::new(alloc, "p")?);
    assert!(rt; is_refused(follower.take_note(&ready, &mut out)));
    assert!(rt; is_refused(follower.take_note(&gone, &mut out)));
    follower.take_note(&mount, &mut out)?;
    assert!(rt; is_refused(follower.take_note(&mount, &mut out)));
    let unknown = take_op(alloc, &mut follower, "q", "insert 0 0 (1 \"1\")")?;
    assert!(rt; is_refused(unknown));
    let missing = take_op(alloc, &mut follower, "p", "remove 1")?;
    assert!(rt; is_refused(missing));
    follower.take_note(&gone, &mut out)?;
    assert!(rt; is_refused(follower.take_note(&ready, &mut out)));
    assert!(rt; out.is_empty());
    Ok(())
}

#[test]
fn notes_are_taken_up_to_the_first_that_is_refused(rt: HostRuntime) -> Result<(), Fail> {
    let alloc = rt.alloc();
    let mut out = Vec::new(alloc);
    let mut follower = Follower::new(alloc)?;
    let mut notes = Vec::new(alloc);
    notes.push(Note::Mount(Name::new(alloc, "p")?))?;
    notes.push(Note::Ready(Name::new(alloc, "p")?))?;
    follower.take_notes(&notes, &mut out)?;
    assert!(rt; out.as_slice() == "page p 0\n\n".as_bytes());
    notes.push(Note::Ready(Name::new(alloc, "p")?))?;
    assert!(rt; is_refused(follower.take_notes(&notes, &mut out)));
    assert!(rt; out.as_slice() == "page p 0\n\n".as_bytes());
    Ok(())
}

// What frames print that are cut there.
fn printed(alloc: Global, cut: usize) -> Result<Vec<u8>, Fail> {
    let mut out = Vec::new(alloc);
    let mut frames = FrameFollower::new(alloc)?;
    let (front, back) = STREAM.split_at(cut.min(STREAM.len()));
    frames.feed(front, &mut out)?;
    frames.feed(back, &mut out)?;
    Ok(out)
}

#[test]
fn frames_are_followed_wherever_they_are_cut(rt: HostRuntime) -> Result<(), Fail> {
    for cut in 0..STREAM.len() {
        let out = printed(rt.alloc(), cut)?;
        assert!(rt; out.as_slice() == "page p 1\n1\n".as_bytes(), "at {cut}");
    }
    Ok(())
}

// Follows frames of a source that gives so many bytes a call and fails at the calls of `takes`, to a sink that fails at the calls of `puts`: how that ends, and whether the
// sink has the page.
fn followed(
    alloc: Global,
    bytes: &[u8],
    most: usize,
    takes: &[u64],
    puts: &[u64],
) -> Result<(Result<(), FollowEnd>, bool), Fail>
    requires { 0 < most }
{
    let mut source = MemSource::new(bytes.to_vec(alloc)?, most, takes.to_vec(alloc)?);
    let mut sink = MemSink::new(alloc, 4_096, most, puts.to_vec(alloc)?)?;
    let end = live_follow(alloc, &mut source, &mut sink);
    Ok((end, sink.held() == "page p 1\n1\n".as_bytes()))
}

#[test]
fn frames_of_a_source_are_followed(rt: HostRuntime) -> Result<(), Fail> {
    let alloc = rt.alloc();
    for most in 1..60 {
        let run = followed(alloc, STREAM, most, &[], &[])?;
        assert!(rt; run == (Ok(()), true), "{most} bytes a call");
    }
    Ok(())
}

#[test]
fn what_ends_following_is_told(rt: HostRuntime) -> Result<(), Fail> {
    let alloc = rt.alloc();
    let cut = followed(alloc, &STREAM[..STREAM.len() - 1], 16, &[], &[])?;
    assert!(rt; cut == (Err(FollowEnd::BadFrames), false));
    let mut twice = STREAM.to_vec(alloc)?;
    twice.extend_from_slice(STREAM)?;
    let again = followed(alloc, &twice, 16, &[], &[])?;
    assert!(rt; again == (Err(FollowEnd::BadFrames), true));
    let unread = followed(alloc, STREAM, 51, &[2], &[])?;
    assert!(rt; unread == (Err(FollowEnd::Read), true));
    let unwritten = followed(alloc, STREAM, 51, &[], &[1])?;
    assert!(rt; unwritten == (Err(FollowEnd::Write), false));
    Ok(())
}

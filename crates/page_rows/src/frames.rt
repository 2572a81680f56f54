// Frames of notes: written, read in pieces, and followed.

use live_entries::{Entry, Label, PageBytes, PageOp};
use page_ops::read_op;
use page_wire::{Decoder, Note, ToldPages, WireFault, put_frame, put_op_frame};
use sig_base::{Name, NoMemory};
use std::alloc::Global;
use std::process::Abort;
use std::test::Fail;

// A page of one text is mounted, made and shown: the frames of a mount, of an operation, and of a page that is ready.
pub(crate) const STREAM: &[u8] =
    b"\0\0\0\0\0\0\0\x03\x01\x01p\0\0\0\0\0\0\0\x15\x02\x01pinsert 0 0 (1 \"1\")\0\0\0\0\0\0\0\x03\x03\x01p";

fn made(alloc: Global, name: &str, line: &str) -> Result<Note, Fail> {
    let op = read_op(alloc, line.as_bytes())?;
    Ok(Note::Op(Name::new(alloc, name)?, op))
}

#[test]
fn notes_are_written(rt: HostRuntime) -> Result<(), Fail> {
    let alloc = rt.alloc();
    let mut out = Vec::new(alloc);
    put_frame(&mut out, &Note::Mount(Name::new(alloc, "p")?))?;
    put_frame(&mut out, &made(alloc, "p", "insert 0 0 (1 \"1\")")?)?;
    put_frame(&mut out, &Note::Ready(Name::new(alloc, "p")?))?;
    assert!(rt; out.as_slice() == STREAM);
    Ok(())
}

#[test]
fn operations_are_written(rt: HostRuntime) -> Result<(), Fail> {
    let alloc = rt.alloc();
    let mut out = Vec::new(alloc);
    let op = read_op(alloc, b"insert 0 0 (1 \"1\")")?;
    put_op_frame(&mut out, &Name::new(alloc, "p")?, &op)?;
    assert!(rt; out.as_slice() == &STREAM[11..40]);
    Ok(())
}

#[test]
fn what_entries_tell_is_written(rt: HostRuntime) -> Result<(), Fail> {
    let alloc = rt.alloc();
    let name = Name::new(alloc, "p")?;
    let op = read_op(alloc, b"insert 0 0 (1 \"1\")")?;
    let html = Vec::from_slice(alloc, b"1")?;
    let mut entries = Vec::new(alloc);
    entries.push(Entry::Gone(Label::named(alloc, name.copy()?)))?;
    entries.push(Entry::Op(name.copy()?, PageOp::of(op)))?;
    entries.push(Entry::Page(name.copy()?, PageBytes::of(alloc, html)?))?;
    let mut told = ToldPages::new(alloc);
    let mut out = Vec::new(alloc);
    told.put_entries(&mut out, &entries)?;
    assert!(rt; out.as_slice() == STREAM);
    // the page is there now: its end is told, and its mount isn't told again
    told.put_entries(&mut out, &entries)?;
    let gone = b"\0\0\0\0\0\0\0\x03\x04\x01p".as_slice();
    assert!(rt; &out[STREAM.len()..STREAM.len() + 11] == gone);
    assert!(rt; &out[STREAM.len() + 11..] == &STREAM[11..]);
    Ok(())
}

// Whether the frames of notes are these bytes.
fn are_frames(alloc: Global, notes: &[Note], bytes: &[u8]) -> Result<bool, NoMemory> {
    let mut out = Vec::new(alloc);
    for note in notes {
        put_frame(&mut out, note)?;
    }
    Ok(out.as_slice() == bytes)
}

// Whether the stream is read whole where it is cut there.
fn is_read(alloc: Global, cut: usize) -> Result<bool, Fail> {
    let mut notes = Vec::new(alloc);
    let mut decoder = Decoder::new(alloc)?;
    let (front, back) = STREAM.split_at(cut.min(STREAM.len()));
    decoder.feed(front, &mut notes)?;
    decoder.feed(back, &mut notes)?;
    Ok(decoder.rest() == 0 && are_frames(alloc, &notes, STREAM)?)
}

#[test]
fn a_stream_is_read_wherever_it_is_cut(rt: HostRuntime) -> Result<(), Fail> {
    for cut in 0..STREAM.len() {
        let read = is_read(rt.alloc(), cut)?;
        assert!(rt; read, "at {cut}");
    }
    Ok(())
}

#[test]
fn a_stream_is_read_byte_by_byte(rt: HostRuntime) -> Result<(), Fail> {
    let alloc = rt.alloc();
    let mut notes = Vec::new(alloc);
    let mut decoder = Decoder::new(alloc)?;
    for byte in STREAM {
        decoder.feed(&[*byte], &mut notes)?;
    }
    let read = are_frames(alloc, &notes, STREAM)?;
    assert!(rt; read && decoder.rest() == 0);
    Ok(())
}

#[test]
fn a_frame_that_is_cut_gives_no_note(rt: HostRuntime) -> Result<(), Fail> {
    let alloc = rt.alloc();
    let mut notes = Vec::new(alloc);
    let mut decoder = Decoder::new(alloc)?;
    decoder.feed(&STREAM[..STREAM.len() - 1], &mut notes)?;
    let read = are_frames(alloc, &notes, &STREAM[..40])?;
    assert!(rt; read && decoder.rest() == 10);
    Ok(())
}

#[test]
fn the_longest_length_is_waited_for(rt: HostRuntime) -> Result<(), Fail> {
    let alloc = rt.alloc();
    let mut notes = Vec::new(alloc);
    let mut decoder = Decoder::new(alloc)?;
    decoder.feed(b"\x7f\xff\xff\xff\xff\xff\xff\xff\0\0\0\0", &mut notes)?;
    assert!(rt; notes.is_empty() && decoder.rest() == 12);
    Ok(())
}

#[test]
fn a_frame_that_is_no_notes_stops_a_decoder(rt: HostRuntime) -> Result<(), Fail> {
    let alloc = rt.alloc();
    let mut notes = Vec::new(alloc);
    let mut decoder = Decoder::new(alloc)?;
    let stream =
        b"\0\0\0\0\0\0\0\x03\x01\x01p\0\0\0\0\0\0\0\x03\x05\x01p\0\0\0\0\0\0\0\x03\x03\x01p";
    match decoder.feed(stream, &mut notes) {
        Err(WireFault::Bad(11)) => {}
        _ => panic!(rt; "the second frame spells no note"),
    }
    let again = matches!(decoder.feed(b"", &mut notes), Err(WireFault::Bad(11)));
    let read = are_frames(alloc, &notes, &stream[..11])?;
    assert!(rt; read && again);
    Ok(())
}

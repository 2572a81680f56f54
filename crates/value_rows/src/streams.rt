// Sources and sinks over readers, writers and memory.
use sig_base::Failed;
use sig_io::{MemSink, Sink, Source, StdSink, StdSource, put_all};
use std::io::Cursor;
use std::test::Fail;

#[test]
fn takes_from_a_reader(rt: HostRuntime) {
    let mut source = StdSource::new(Cursor::new(b"live".as_slice()));
    let mut buf = [0u8; 3];
    for (count, want) in [(3, *b"liv"), (1, *b"eiv"), (0, *b"eiv")] {
        assert!(rt; source.take(&mut buf) == Ok(count));
        assert!(rt; buf == want);
    }
}

#[test]
fn puts_into_a_writer(rt: HostRuntime) {
    let mut page = [0u8; 4];
    let mut sink = StdSink::new(Cursor::new(&mut page[..]));
    assert!(rt; sink.put(b"signal") == Ok(4));
    assert!(rt; sink.put(b"") == Ok(0));
    assert!(rt; sink.put(b"al") == Err(Failed));
    assert!(rt; page == *b"sign");
}

#[test]
fn holds_what_was_put(rt: HostRuntime) -> Result<(), Fail> {
    let alloc = rt.alloc();
    let mut sink = MemSink::new(alloc, 6, 4, Vec::from_array(alloc, [2])?)?;
    assert!(rt; put_all(&mut sink, b"signal") == Err(Failed));
    assert!(rt; put_all(&mut sink, b"al!") == Err(Failed));
    assert!(rt; sink.held() == b"signal".as_slice());
    Ok(())
}

// Reading all of a source.

use live_run::{ReadEnd, read_all};
use sig_base::MOST_SCRIPT;
use sig_io::MemSource;
use std::test::Fail;

#[test]
fn reads_to_the_end(rt: HostRuntime) -> Result<(), Fail> {
    let alloc = rt.alloc();
    let script = Vec::from_slice(alloc, b"cell a = 1\n")?;
    let mut source = MemSource::new(script, 4, Vec::from_array(alloc, [5])?);
    let read = read_all(alloc, &mut source)?;
    assert_eq!(rt; read.as_slice(), b"cell a = 1\n".as_slice());
    assert!(rt; matches!(read_all(alloc, &mut source), Err(ReadEnd::Fault)));
    Ok(())
}

#[test]
fn reads_no_more_than_allowed(rt: HostRuntime) -> Result<(), Fail> {
    let alloc = rt.alloc();
    for (len, allowed) in [(MOST_SCRIPT, true), (MOST_SCRIPT + 1, false)] {
        let script = vec![in alloc; b'#'; len]?;
        let mut source = MemSource::new(script, usize::MAX, Vec::new(alloc));
        match read_all(alloc, &mut source) {
            Ok(read) => assert_eq!(rt; (read.len(), allowed), (len, true)),
            Err(end) => assert!(rt; matches!(end, ReadEnd::TooLong) && !allowed),
        }
    }
    Ok(())
}

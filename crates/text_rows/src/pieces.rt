// The lines of the first command of a script, and what stands after it.
use script_lines::next_piece;
use sig_base::NoMemory;
use std::alloc::{AllocError, Global};
use std::test::Fail;

// Whether the first command has its end, how many lines it has, and what stands after it.
fn shape(alloc: Global, script: &[u8]) -> Result<Option<(bool, usize, usize, u32)>, NoMemory> {
    if script.len() > 100_000 {
        return Ok(None);
    }
    let found = next_piece(alloc, script, 0, 1)?;
    Ok(found.map(|(piece, at, line)| (piece.ended, piece.others.len() + 1, at, line)))
}

// The number and the length of the last line of the first command.
fn last_line(alloc: Global, script: &[u8]) -> Result<Option<(u32, usize)>, NoMemory> {
    if script.len() > 100_000 {
        return Ok(None);
    }
    match next_piece(alloc, script, 0, 1)? {
        Some((piece, _, _)) => match piece.others.last() {
            Some(line) => Ok(Some((line.number, line.text.len()))),
            None => Ok(Some((piece.first.number, piece.first.text.len()))),
        },
        None => Ok(None),
    }
}

// A comment of many bytes, and then a command.
fn long_comment(alloc: Global) -> Result<Vec<u8>, AllocError> {
    let mut script = Vec::new(alloc);
    for _ in 0..50_000 {
        script.push(b'#')?;
    }
    script.extend_from_slice(b"\nflush")?;
    Ok(script)
}

#[test]
fn reads_a_nested_block(rt: HostRuntime) {
    let script = b"template t\n  tag p\n    text a\n  end\n  try\n  else\n  end\nend\nflush\n";
    assert!(rt; shape(rt.alloc(), script) == Ok(Some((true, 8, 59, 9))));
}

#[test]
fn reads_an_unended_block(rt: HostRuntime) {
    assert!(rt; shape(rt.alloc(), b"effect e\nwhen a\n#\n") == Ok(Some((false, 2, 16, 3))));
}

#[test]
fn passes_lines_over(rt: HostRuntime) {
    let alloc = rt.alloc();
    let script = b"\r\n# one\n \t\ntemplate t\r\n\n  # end\r\n text a\r\r\nend\r\n# two\nflush\r";
    assert!(rt; shape(alloc, script) == Ok(Some((true, 3, 48, 9))));
    assert!(rt; last_line(alloc, script) == Ok(Some((8, 3))));
    assert!(rt; last_line(alloc, b"#\n text a#\r\r\n") == Ok(Some((2, 9))));
    assert!(rt; last_line(alloc, b"\nflush\r") == Ok(Some((2, 6))));
    assert!(rt; shape(alloc, b" \n#x\r\n\t") == Ok(None));
}

#[test]
fn passes_a_long_comment_over(rt: HostRuntime) -> Result<(), Fail> {
    let alloc = rt.alloc();
    let script = long_comment(alloc)?;
    assert!(rt; shape(alloc, &script) == Ok(Some((true, 1, 50_006, 3))));
    Ok(())
}

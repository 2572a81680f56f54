// Tables of lines with their tokens.
ghost use Rattle.std.specs.Prelude.{◌≡◌};

use sig_base::{Text, TextFault};
use sig_words::{LineFault, Token, TokenKind, literal, token_bytes, tokens};
use std::alloc::{AllocError, Global};
use std::process::Abort;

fn word(start: usize, end: usize) -> Token {
    Token {
        kind: TokenKind::Word,
        start,
        end,
    }
}

fn tag(start: usize, end: usize) -> Token {
    Token {
        kind: TokenKind::Tag,
        start,
        end,
    }
}

fn number(value: i64, start: usize, end: usize) -> Token {
    Token {
        kind: TokenKind::Number(value),
        start,
        end,
    }
}

fn text(start: usize, end: usize) -> Token {
    Token {
        kind: TokenKind::Literal,
        start,
        end,
    }
}

fn symbol(start: usize, end: usize) -> Token {
    Token {
        kind: TokenKind::Symbol,
        start,
        end,
    }
}

fn are_tokens(alloc: Global, line: &str, wanted: &[Token]) -> bool {
    let Ok(found) = tokens(alloc, line.as_bytes()) else {
        return false;
    };
    found.as_slice() == wanted
}

fn refused(alloc: Global, line: &[u8]) -> Option<LineFault> {
    tokens(alloc, line).err()
}

// Whether a line is refused at that byte.
fn is_bad(alloc: Global, line: &[u8], at: usize) -> bool {
    refused(alloc, line) == Some(LineFault::Bad(at))
}

// Each line is to be refused at the byte beside it.
fn assert_bad(rt: &impl Abort, alloc: Global, rows: &[(&str, usize)]) {
    for (line, at) in rows {
        assert!(rt; is_bad(alloc, line.as_bytes(), *at), "at {line}");
    }
}

fn blanks(alloc: Global, count: usize) -> Result<Vec<u8>, AllocError> {
    let line = vec![in alloc; b' '; count]?;
    Ok(line)
}

// Whether so many blanks are refused for that, or are a line.
fn is_blank_fault(alloc: Global, count: usize, wanted: Option<LineFault>) -> bool {
    match blanks(alloc, count) {
        Ok(line) => refused(alloc, &line) == wanted,
        Err(_) => false,
    }
}

// The value of the literal that a line begins with.
fn first_value(alloc: Global, line: &str) -> Option<Result<Text, TextFault>> {
    let Ok(found) = tokens(alloc, line.as_bytes()) else {
        return None;
    };
    if found.is_empty() {
        return None;
    }
    let first = &found[0];
    match first.kind {
        TokenKind::Literal => Some(literal(alloc, line.as_bytes(), first)),
        _ => None,
    }
}

fn has_value(alloc: Global, line: &str, wanted: &str) -> bool {
    match first_value(alloc, line) {
        Some(Ok(value)) => value.as_str() == wanted,
        _ => false,
    }
}

// The length of that value, or none where it is too long.
fn value_len(alloc: Global, line: &str) -> Option<usize> {
    match first_value(alloc, line) {
        Some(Ok(value)) => Some(value.as_str().len()),
        Some(Err(TextFault::Long)) => None,
        _ => Some(0),
    }
}

// A text between quotes of so many letters of two bytes each, and a tail.
fn long_literal(alloc: Global, letters: usize, tail: &str) -> Result<String, AllocError> {
    let mut out = String::new(alloc);
    out.push('"')?;
    for _ in 0..letters {
        out.push('é')?;
    }
    out.push_str(tail)?;
    out.push('"')?;
    Ok(out)
}

// Whether such a text has a value of so many bytes, or, with none, is too long.
fn has_value_len(alloc: Global, letters: usize, tail: &str, wanted: Option<usize>) -> bool {
    match long_literal(alloc, letters, tail) {
        Ok(line) => value_len(alloc, line.as_str()) == wanted,
        Err(_) => false,
    }
}

// Whether these are the bytes of a token of a line.
fn has_bytes(line: &[u8], token: &Token, wanted: &[u8]) -> bool {
    token_bytes(line, token) == wanted
}

#[test]
fn cuts_lines(rt: HostRuntime) {
    let alloc = rt.alloc();
    assert!(rt; are_tokens(alloc, "", &[]));
    assert!(rt; are_tokens(alloc, " \t ", &[]));
    assert!(rt;
        are_tokens(
            alloc,
            "cell _a1\t=x",
            &[word(0, 4), word(5, 8), symbol(9, 10), word(10, 11)]
        )
    );
    assert!(rt;
        are_tokens(
            alloc,
            "<==+++!=.",
            &[
                symbol(0, 2),
                symbol(2, 3),
                symbol(3, 5),
                symbol(5, 6),
                symbol(6, 8),
                symbol(8, 9)
            ]
        )
    );
    assert!(rt; are_tokens(alloc, "@li-2@b_", &[tag(0, 5), tag(5, 7), word(7, 8)]));
    assert!(rt; are_tokens(alloc, "@a2345678901234567890123456789012", &[tag(0, 33)]));
    assert!(rt;
        are_tokens(
            alloc,
            "end\"\u{e9}\u{a0}\\\"\"x",
            &[word(0, 3), text(3, 11), word(11, 12)]
        )
    );
}

#[test]
fn tells_signs(rt: HostRuntime) {
    let alloc = rt.alloc();
    assert!(rt; are_tokens(alloc, "-9223372036854775808", &[number(i64::MIN, 0, 20)]));
    assert!(rt;
        are_tokens(
            alloc,
            "9223372036854775807 0",
            &[number(i64::MAX, 0, 19), number(0, 20, 21)]
        )
    );
    assert!(rt;
        are_tokens(
            alloc,
            "(-1,-2",
            &[
                symbol(0, 1),
                number(-1, 1, 3),
                symbol(3, 4),
                number(-2, 4, 6)
            ]
        )
    );
    assert!(rt;
        are_tokens(
            alloc,
            "a -1\t-2",
            &[word(0, 1), number(-1, 2, 4), number(-2, 5, 7)]
        )
    );
    assert!(rt; are_tokens(alloc, "a-1", &[word(0, 1), symbol(1, 2), number(1, 2, 3)]));
    assert!(rt; are_tokens(alloc, "- 1", &[symbol(0, 1), number(1, 2, 3)]));
    assert!(rt;
        are_tokens(
            alloc,
            "<=-1",
            &[symbol(0, 2), symbol(2, 3), number(1, 3, 4)]
        )
    );
}

#[test]
fn refuses_lines(rt: HostRuntime) {
    let alloc = rt.alloc();
    let rows = [
        ("9223372036854775808", 0),
        ("-9223372036854775809", 0),
        ("-0", 0),
        ("a 01", 2),
        ("1a", 0),
        ("1_", 0),
        ("a\u{a0}b", 1),
        ("\"\\x\"", 0),
        ("\"a", 0),
        ("\"\\\"", 0),
        ("a !b", 2),
        ("@B", 0),
        ("@a23456789012345678901234567890123", 0),
    ];
    assert_bad(&rt, alloc, &rows);
    assert!(rt; is_bad(alloc, b"ab \xc3", 3));
    assert!(rt; is_bad(alloc, b"\"\xc3\"", 1));
    assert!(rt; is_bad(alloc, b"? \xff", 2));
    assert!(rt; is_blank_fault(alloc, 4096, None));
    assert!(rt; is_blank_fault(alloc, 4097, Some(LineFault::TooLong)));
}

#[test]
fn reads_literals(rt: HostRuntime) {
    let alloc = rt.alloc();
    assert!(rt;
        has_value(
            alloc,
            "\"\\\\\\\"\\n\\r\\t\u{e9}nrt\"",
            "\\\"\n\r\t\u{e9}nrt"
        )
    );
    assert!(rt; has_value(alloc, "\"\"", ""));
    assert!(rt; has_value_len(alloc, 512, "", Some(1024)));
    assert!(rt; has_value_len(alloc, 511, "\\n\\n", Some(1024)));
    assert!(rt; has_value_len(alloc, 512, "a", None));
    assert!(rt; has_bytes(b"a -12 b", &number(-12, 2, 5), b"-12"));
    assert!(rt; has_bytes(b"a", &word(2, 5), b""));
}

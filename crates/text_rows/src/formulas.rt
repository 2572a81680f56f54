// Texts that are read and written again.

use formula_text::{
    Allow, FormulaFault, Wired, has_row_form, put_formula, put_formula_of, read_formula, read_rough,
};
use sig_base::{Name, NoMemory};
use sig_formula::Formula;
use sig_words::tokens;
use std::alloc::Global;
use std::process::Abort;

const ANY: Allow = Allow {
    row: true,
    untrack: true,
};

const NEITHER: Allow = Allow {
    row: false,
    untrack: false,
};

// What is written of a formula, and a bar before what stands behind it.
fn written(alloc: Global, wired: &Wired, rest: &[u8]) -> Result<Vec<u8>, NoMemory> {
    let mut out = Vec::new(alloc);
    put_formula(&mut out, wired)?;
    if !rest.is_empty() {
        out.push(b'|')?;
        out.extend_from_slice(rest)?;
    }
    Ok(out)
}

// What is written of the formula that a line begins with.
fn rewritten(alloc: Global, line: &[u8], allow: Allow) -> Result<Vec<u8>, FormulaFault> {
    let Ok(found) = tokens(alloc, line) else {
        return Err(FormulaFault::Syntax);
    };
    let (wired, to) = read_formula(alloc, line, &found, 0, allow)?;
    let end = if to < found.len() {
        found[to].start.min(line.len())
    } else {
        line.len()
    };
    let (_, rest) = line.split_at(end);
    Ok(written(alloc, &wired, rest)?)
}

fn reads_as(alloc: Global, line: &str, wanted: &str) -> bool {
    match rewritten(alloc, line.as_bytes(), ANY) {
        Ok(out) => out.as_slice() == wanted.as_bytes(),
        Err(_) => false,
    }
}

fn keeps(alloc: Global, line: &str) -> bool {
    reads_as(alloc, line, line)
}

fn fault(alloc: Global, line: &[u8], allow: Allow) -> Option<FormulaFault> {
    rewritten(alloc, line, allow).err()
}

fn is_syntax(alloc: Global, line: &str) -> bool {
    fault(alloc, line.as_bytes(), ANY) == Some(FormulaFault::Syntax)
}

// Whether the formula that a line begins with has one of the forms that rows bring.
fn brings_rows(alloc: Global, line: &[u8]) -> Option<bool> {
    let found = tokens(alloc, line).ok()?;
    let (rough, _) = read_rough(alloc, line, &found, 0).ok()??;
    Some(has_row_form(&rough))
}

// The formula that a line begins with.
fn formula(alloc: Global, line: &[u8]) -> Option<Wired> {
    let found = tokens(alloc, line).ok()?;
    let (wired, _) = read_formula(alloc, line, &found, 0, ANY).ok()?;
    Some(wired)
}

// Whether a formula is written so by these names.
fn is_written_by(alloc: Global, names: &[Name], formula: &Formula, wanted: &[u8]) -> bool {
    let mut out = Vec::new(alloc);
    put_formula_of(&mut out, names, formula).is_ok() && out.as_slice() == wanted
}

// Whether the formula of a line is written so by these names.
fn line_is_written_by(alloc: Global, names: &[Name], line: &[u8], wanted: &[u8]) -> bool {
    match formula(alloc, line) {
        Some(wired) => is_written_by(alloc, names, &wired.formula, wanted),
        None => false,
    }
}

// Whether the second line is written so by the names of the first.
fn shares_names(alloc: Global, first: &[u8], second: &[u8], wanted: &[u8]) -> bool {
    match formula(alloc, first) {
        Some(wired) => line_is_written_by(alloc, &wired.names, second, wanted),
        None => false,
    }
}

// So many `not`, and a truth.
fn negations(alloc: Global, count: usize) -> Result<Vec<u8>, NoMemory> {
    let mut out = Vec::new(alloc);
    for _ in 0..count {
        out.extend_from_slice(b"not ")?;
    }
    out.extend_from_slice(b"true")?;
    Ok(out)
}

// So many distinct names: 32 of them joined in parentheses, and the others joined behind them.
fn distinct_names(alloc: Global, count: u32) -> Result<Vec<u8>, NoMemory> {
    let mut out = Vec::new(alloc);
    out.extend_from_slice(b"(n")?;
    for n in 0..count {
        let digits = n.to_string(alloc)?;
        if n == 32 {
            out.extend_from_slice(b") ++ (n")?;
        } else if n > 0 {
            out.extend_from_slice(b" ++ n")?;
        }
        out.extend_from_slice(digits.as_bytes())?;
    }
    out.push(b')')?;
    Ok(out)
}

// A name and a text of so many bytes.
fn long_text(alloc: Global, bytes: usize) -> Result<Vec<u8>, NoMemory> {
    let mut out = Vec::new(alloc);
    out.extend_from_slice(b"a ++ \"")?;
    for _ in 0..bytes {
        out.push(b'x')?;
    }
    out.push(b'"')?;
    Ok(out)
}

// Whether the text that was made is refused for that, or read to its end.
fn is_fault(alloc: Global, made: Result<Vec<u8>, NoMemory>, wanted: Option<FormulaFault>) -> bool {
    match made {
        Ok(line) => fault(alloc, &line, ANY) == wanted,
        Err(_) => false,
    }
}

// Each line is to be written again as it stands.
fn assert_keeps(rt: &impl Abort, alloc: Global, lines: &[&str]) {
    for line in lines {
        assert!(rt; keeps(alloc, line), "at {line}");
    }
}

// Each line is to be written again as the text beside it.
fn assert_reads_as(rt: &impl Abort, alloc: Global, rows: &[(&str, &str)]) {
    for (line, wanted) in rows {
        assert!(rt; reads_as(alloc, line, wanted), "at {line}");
    }
}

// No line is to begin with a formula.
fn assert_syntax(rt: &impl Abort, alloc: Global, lines: &[&str]) {
    for line in lines {
        assert!(rt; is_syntax(alloc, line), "at {line}");
    }
}

#[test]
fn keeps_canonical_texts(rt: HostRuntime) {
    let alloc = rt.alloc();
    assert_keeps(
        &rt,
        alloc,
        &[
            "a",
            "-1",
            "-9223372036854775808",
            "\"x \\\" \\n \u{e9}\"",
            "\"\\\\ \\t \\r\"",
            "\"\"",
            "true",
            "false and truth",
            "untrack(a + b) * c",
            "untrack(untrack(if a then 1 else 2))",
            "if a then b else c ++ d",
            "(if a then b else c) ++ d",
            "if if a then b else c then d else if e then f else g",
            "not (if a then b else c)",
        ],
    );
}

#[test]
fn keeps_canonical_operators(rt: HostRuntime) {
    let alloc = rt.alloc();
    assert_keeps(
        &rt,
        alloc,
        &[
            "a - -1",
            "a - b - c",
            "a - (b - c)",
            "a - b + c",
            "a + (b - c)",
            "a / (b * c)",
            "a ++ (b ++ c)",
            "a or (b or c)",
            "a and (b and c)",
            "a == (b == c)",
            "not not a",
            "not a == b",
            "(not a) == b",
            "not (a and b) or c",
            "(a < b) == c",
            "a + b * c - d % e",
            "(a + b) * (c - d) / e",
            "a ++ b + c == d ++ e",
            "a + (b ++ c)",
            "a or b and c or d",
            "(a or b) and c",
            "a != b and c <= d and e >= f and g > h",
        ],
    );
}

#[test]
fn drops_what_is_needless(rt: HostRuntime) {
    let alloc = rt.alloc();
    assert_reads_as(
        &rt,
        alloc,
        &[
            ("a--1", "a|--1"),
            ("(a)", "a"),
            ("((a))*(b+c)", "a * (b + c)"),
            ("(a-b)-(c)", "a - b - c"),
            ("(a ++ b) ++ c", "a ++ b ++ c"),
            ("(a or b) or (c and d)", "a or b or c and d"),
            ("not (not (a))", "not not a"),
            ("(a * b) + (c % d)", "a * b + c % d"),
            ("(-1)", "-1"),
            ("a-1", "a - 1"),
            ("a- 1", "a - 1"),
            ("(untrack(a))", "untrack(a)"),
            ("untrack ( (a) )", "untrack(a)"),
            ("not (a == b)", "not a == b"),
            (
                "if (a) then (b) else (if c then d else e)",
                "if a then b else if c then d else e",
            ),
        ],
    );
}

#[test]
fn ends_where_nothing_goes_on(rt: HostRuntime) {
    let alloc = rt.alloc();
    assert_reads_as(
        &rt,
        alloc,
        &[
            ("a < b == c", "a < b|== c"),
            ("a + )", "a|+ )"),
            ("a -1", "a|-1"),
            ("a+-1", "a|+-1"),
            ("not a == b == c", "not a == b|== c"),
            ("a and if b then c else d", "a|and if b then c else d"),
            ("a + b * not c", "a + b|* not c"),
            ("a b", "a|b"),
            ("a = b", "a|= b"),
        ],
    );
    assert_syntax(
        &rt,
        alloc,
        &[
            "",
            "(a",
            "if a then b",
            "untrack a",
            "a23456789012345678901234567890123",
        ],
    );
}

#[test]
fn reads_what_goes_over_rows(rt: HostRuntime) {
    let alloc = rt.alloc();
    assert_keeps(
        &rt,
        alloc,
        &[
            "it.title",
            "it.key == \"a\"",
            "key",
            "count(l) - -1",
            "sum(l, -1)",
            "sum(keep(l, not it.done), it.n * it.n) % 2",
            "count(keep(l, count(keep(m, it.key == it.of)) > 0))",
        ],
    );
    assert_reads_as(
        &rt,
        alloc,
        &[
            (
                "sum( (l) ,(if it . a then 1 else 2) )",
                "sum(l, if it.a then 1 else 2)",
            ),
            ("it.a.b", "it.a|.b"),
            ("a, b", "a|, b"),
        ],
    );
    assert_syntax(
        &rt,
        alloc,
        &[
            "it",
            "it.count",
            "it.\"a\"",
            "count l",
            "count(l, a)",
            "sum(l)",
            "keep(l, a, b)",
        ],
    );
}

#[test]
fn refuses_a_row_where_there_is_none(rt: HostRuntime) {
    let alloc = rt.alloc();
    assert!(rt; fault(alloc, b"a + it.n", NEITHER) == Some(FormulaFault::ItHere));
    assert!(rt; fault(alloc, b"sum(it.l, it.n)", NEITHER) == Some(FormulaFault::ItHere));
    assert!(rt; fault(alloc, b"sum(l, it.n + count(keep(l, it.n)))", NEITHER) == None);
    assert!(rt; fault(alloc, b"untrack(it.n)", NEITHER) == Some(FormulaFault::UntrackHere));
}

#[test]
fn tells_the_forms_that_rows_bring(rt: HostRuntime) {
    let alloc = rt.alloc();
    assert!(rt; brings_rows(alloc, b"untrack(1 + count(l))") == Some(true));
    assert!(rt; brings_rows(alloc, b"if a then b else it.key") == Some(true));
    assert!(rt; brings_rows(alloc, b"untrack(key) and not a") == Some(false));
    assert!(rt; shares_names(alloc, b"b - a", b"sum(a, it.n)", b"sum(b, it.n)"));
}

#[test]
fn refuses_past_limits(rt: HostRuntime) {
    let alloc = rt.alloc();
    assert!(rt; fault(alloc, b"a + untrack(b)", NEITHER) == Some(FormulaFault::UntrackHere));
    assert!(rt; is_fault(alloc, negations(alloc, 63), None));
    assert!(rt; is_fault(alloc, negations(alloc, 64), Some(FormulaFault::Nest)));
    assert!(rt; is_fault(alloc, distinct_names(alloc, 64), None));
    assert!(rt;
        is_fault(
            alloc,
            distinct_names(alloc, 65),
            Some(FormulaFault::Sources)
        )
    );
    assert!(rt; is_fault(alloc, long_text(alloc, 1024), None));
    assert!(rt; is_fault(alloc, long_text(alloc, 1025), Some(FormulaFault::TextLong)));
}

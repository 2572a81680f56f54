// Printed forms, sameness, and each call that can answer want of memory with ample memory.
ghost use Rattle.std.specs.Prelude.{◌≡◌, ◌∷◌, [], length, IfOk};

use sig_base::{
    Fault, Known, Name, NoMemory, Outcome, Row, Rows, Scalar, Scalars, Text, Value, alike,
    put_fault, put_value,
};
use std::alloc::Global;
use std::test::Fail;

// Whether the value is printed so.
fn prints(alloc: Global, value: &Value, want: &str) -> Result<bool, NoMemory> {
    let mut out = Vec::new(alloc);
    put_value(&mut out, value)?;
    Ok(out.as_slice() == want.as_bytes())
}

// Whether the fault has this name.
fn is_named(alloc: Global, fault: Fault, want: &str) -> Result<bool, NoMemory> {
    let mut out = Vec::new(alloc);
    put_fault(&mut out, fault)?;
    Ok(out.as_slice() == want.as_bytes())
}

fn pair<T: Drop>(alloc: Global, first: T, second: T) -> Result<Vec<T>, NoMemory>
    ensures { IfOk result (λ v. v.items ≡ first ∷ second ∷ []) }
{
    let mut both = Vec::new(alloc);
    both.push(first)?;
    both.push(second)?;
    Ok(both)
}

fn row_values(alloc: Global, number: i64, word: &str) -> Result<Vec<Scalar>, Fail>
    ensures { IfOk result (λ v. length v.items ≡ 2) }
{
    let word = Text::new(alloc, word)?;
    let mut values = Vec::new(alloc);
    values.push(Scalar::Int(number))?;
    values.push(Scalar::Text(word))?;
    Ok(values)
}

fn row(alloc: Global, key: &str, number: i64, word: &str) -> Result<Row, Fail>
    ensures { IfOk result (λ r. (r.key ≡ key.now) × (length r.values ≡ 2)) }
{
    let key = Text::new(alloc, key)?;
    let values = Scalars::of(alloc, row_values(alloc, number, word)?)?;
    Ok(Row { key, values })
}

// Two rows of two fields.
fn two_rows(alloc: Global) -> Result<Rows, Fail>
    ensures { IfOk result (λ r. length r.rows ≡ 2) }
{
    let fields = pair(alloc, Name::new(alloc, "n")?, Name::new(alloc, "t")?)?;
    let rows = pair(alloc, row(alloc, "k1", 1, "x")?, row(alloc, "k2", 2, "y")?)?;
    Ok(Rows::of(alloc, fields, rows)?)
}

// Whether a copy of the value is printed so.
fn copy_prints(alloc: Global, value: &Value, want: &str) -> Result<bool, NoMemory> {
    let copy = value.copy()?;
    prints(alloc, &copy, want)
}

// Whether the value, and then a copy of it, is printed so.
fn both_print(alloc: Global, value: Value, want: &str) -> Result<bool, NoMemory> {
    if !prints(alloc, &value, want)? {
        return Ok(false);
    }
    copy_prints(alloc, &value, want)
}

fn word(alloc: Global, characters: &str) -> Result<Value, Fail> {
    Ok(Value::Text(Text::new(alloc, characters)?))
}

#[test]
fn prints_values(rt: HostRuntime) -> Result<(), Fail> {
    let alloc = rt.alloc();
    assert!(rt; both_print(alloc, Value::Bool(true), "true")?);
    assert!(rt; both_print(alloc, Value::Bool(false), "false")?);
    assert!(rt; both_print(alloc, Value::Int(i64::MIN), "-9223372036854775808")?);
    assert!(rt; both_print(alloc, Value::Int(0), "0")?);
    let quoted = word(alloc, "a\\b\"c\nd\re\tf")?;
    assert!(rt; both_print(alloc, quoted, "\"a\\\\b\\\"c\\nd\\re\\tf\"")?);
    Ok(())
}

#[test]
fn names_faults(rt: HostRuntime) -> Result<(), Fail> {
    let alloc = rt.alloc();
    for (fault, want) in [
        (Fault::Overflow, "overflow"),
        (Fault::Zero, "zero"),
        (Fault::Kind, "kind"),
        (Fault::Long, "long"),
        (Fault::Gone, "gone"),
        (Fault::Absent, "absent"),
        (Fault::Cycle, "cycle"),
        (Fault::Host(3), "host 3"),
        (Fault::Slot, "slot"),
        (Fault::Twice, "twice"),
    ] {
        let named = is_named(alloc, fault, want)?;
        assert!(rt; named, "{want}");
    }
    Ok(())
}

// Whether two numbers are the same value.
fn are_same_numbers(first: i64, second: i64) -> bool {
    Value::Int(first).same(&Value::Int(second))
}

// Whether two numbers are alike within a slack.
fn are_alike_numbers(slack: u64, first: i64, second: i64) -> bool {
    alike(slack, &Value::Int(first), &Value::Int(second))
}

// Whether a value is the same as a text.
fn is_same_word(alloc: Global, value: &Value, characters: &str) -> Result<bool, Fail> {
    let word = word(alloc, characters)?;
    Ok(value.same(&word))
}

// Whether two texts are the same value.
fn are_same_words(alloc: Global, first: &str, second: &str) -> Result<bool, Fail> {
    let first = word(alloc, first)?;
    is_same_word(alloc, &first, second)
}

// Whether a number is the same value as a text.
fn is_number_same_word(alloc: Global, number: i64, characters: &str) -> Result<bool, Fail> {
    is_same_word(alloc, &Value::Int(number), characters)
}

// Whether a number and a text are alike within a slack.
fn is_number_alike_word(
    alloc: Global,
    slack: u64,
    number: i64,
    characters: &str,
) -> Result<bool, Fail> {
    let word = word(alloc, characters)?;
    Ok(alike(slack, &Value::Int(number), &word))
}

// Whether a fault is the same outcome as its copy.
fn is_same_as_copy(fault: Fault) -> Result<bool, NoMemory> {
    let copy = Outcome::Bad(fault).copy()?;
    Ok(Outcome::Bad(fault).same(&copy))
}

// Whether a number and a fault are the same outcome.
fn is_same_outcome(number: i64, fault: Fault) -> bool {
    Outcome::Good(Value::Int(number)).same(&Outcome::Bad(fault))
}

#[test]
fn compares_values(rt: HostRuntime) -> Result<(), Fail> {
    let alloc = rt.alloc();
    assert!(rt; are_same_numbers(7, 7));
    assert!(rt; !is_number_same_word(alloc, 7, "7")?);
    assert!(rt; are_same_words(alloc, "7", "7")?);
    assert!(rt; are_alike_numbers(2, 7, 9));
    assert!(rt; !are_alike_numbers(1, 7, 9));
    assert!(rt; are_alike_numbers(u64::MAX, i64::MIN, i64::MAX));
    assert!(rt; !is_number_alike_word(alloc, u64::MAX, 7, "7")?);
    assert!(rt; is_same_as_copy(Fault::Host(3))?);
    assert!(rt; !is_same_outcome(7, Fault::Zero));
    Ok(())
}

// The slot of a copy.
fn copied_slot(slot: u32, number: i64) -> Result<u32, NoMemory> {
    let known = Known {
        slot,
        value: Value::Int(number),
    };
    let copy = known.copy()?;
    Ok(copy.slot)
}

// Whether the copy of a name has its characters.
fn copies_name(alloc: Global, characters: &str) -> Result<bool, Fail> {
    let copy = Name::new(alloc, characters)?.copy()?;
    Ok(copy.as_str() == characters)
}

// Whether the copy of a text equals another text of the same characters.
fn copies_word(alloc: Global, characters: &str) -> Result<bool, Fail> {
    let word = Scalar::Text(Text::new(alloc, characters)?);
    let other = Scalar::Text(Text::new(alloc, characters)?);
    let copy = word.copy()?;
    Ok(copy == other)
}

// Whether a text has these characters.
fn is_text_of(text: &Text, characters: &str) -> bool {
    text.len() == characters.len() && text.as_str() == characters
}

// Whether the text of these characters has them, and so has its copy.
fn keeps_text(alloc: Global, characters: &str) -> Result<bool, Fail> {
    let text = Text::new(alloc, characters)?;
    let copy = text.copy()?;
    Ok(is_text_of(&text, characters) && is_text_of(&copy, characters))
}

// Whether a name has these characters.
fn is_name_of(name: &Name, characters: &str) -> bool {
    name.len() == characters.len() && name.as_str() == characters
}

// Whether the name of these characters has them, and so has its copy.
fn keeps_name(alloc: Global, characters: &str) -> Result<bool, Fail> {
    let name = Name::new(alloc, characters)?;
    let copy = name.copy()?;
    Ok(is_name_of(&name, characters) && is_name_of(&copy, characters))
}

// Whether two names of these characters are the same.
fn are_same_names(alloc: Global, first: &str, second: &str) -> Result<bool, Fail> {
    let first = Name::new(alloc, first)?;
    let second = Name::new(alloc, second)?;
    Ok(first == second)
}

// Texts that stand in place and texts that are shared, also with characters of several bytes at the border.
#[test]
fn keeps_texts(rt: HostRuntime) -> Result<(), Fail> {
    let alloc = rt.alloc();
    for characters in [
        "",
        "abcdef",
        "abcdefg",
        "abcdefgh",
        "abcdefghi",
        "abcde\u{e9}",
        "abcdef\u{e9}",
        "abcd\u{20ac}",
        "abcde\u{20ac}",
        "abc\u{1d11e}",
        "abcd\u{1d11e}",
        "abcdefg\u{e9}",
    ] {
        assert!(rt; keeps_text(alloc, characters)?, "{characters}");
        assert!(rt;
            are_same_words(alloc, characters, characters)?,
            "{characters}"
        );
    }
    Ok(())
}

#[test]
fn keeps_names(rt: HostRuntime) -> Result<(), Fail> {
    let alloc = rt.alloc();
    for characters in ["a", "abcdef", "abcdefg", "abcdefgh", "abcdefghi"] {
        assert!(rt; keeps_name(alloc, characters)?, "{characters}");
        assert!(rt;
            are_same_names(alloc, characters, characters)?,
            "{characters}"
        );
    }
    assert!(rt; !are_same_names(alloc, "abcdefg", "abcdefgh")?);
    assert!(rt; !are_same_names(alloc, "abcdefg", "abcdefh")?);
    assert!(rt; !are_same_names(alloc, "abcdefgh", "abcdefgi")?);
    Ok(())
}

#[test]
fn tells_texts_apart(rt: HostRuntime) -> Result<(), Fail> {
    let alloc = rt.alloc();
    for (first, second) in [
        ("", "\0"),
        ("a", "a\0"),
        ("abcdefg", "abcdefh"),
        ("abcdefg", "abcdefgh"),
        ("abcdefgh", "abcdefg"),
        ("abcdefgh", "abcdefgi"),
        ("abcdef\u{e9}", "abcdef\u{e8}"),
    ] {
        assert!(rt; !are_same_words(alloc, first, second)?, "{first} {second}");
    }
    Ok(())
}

#[test]
fn copies(rt: HostRuntime) -> Result<(), Fail> {
    let alloc = rt.alloc();
    assert!(rt; copied_slot(4, 5)? == 4);
    assert!(rt; copies_name(alloc, "cell_1")?);
    assert!(rt; copies_word(alloc, "a")?);
    Ok(())
}

// What is kept of the two rows by these marks.
fn kept(alloc: Global, first: bool, second: bool) -> Result<Value, Fail> {
    let rows = two_rows(alloc)?;
    let left = rows.keep_by(alloc, &[first, second])?;
    Ok(Value::Rows(left))
}

// Whether that is printed so.
fn kept_prints(alloc: Global, first: bool, second: bool, want: &str) -> Result<bool, Fail> {
    let value = kept(alloc, first, second)?;
    Ok(prints(alloc, &value, want)?)
}

// Whether that is the same as the two rows.
fn is_all_kept(alloc: Global, first: bool, second: bool) -> Result<bool, Fail> {
    let value = kept(alloc, first, second)?;
    let whole = two_rows(alloc)?;
    Ok(Value::Rows(whole).same(&value))
}

// How many rows the two rows are.
fn row_count(alloc: Global) -> Result<usize, Fail> {
    let rows = two_rows(alloc)?;
    Ok(rows.len())
}

// A copy of the two rows, and whether it is the same as they are.
fn copied_rows(alloc: Global) -> Result<(Value, bool), Fail> {
    let rows = two_rows(alloc)?;
    let copy = Value::Rows(rows.copy()?);
    let same = copy.same(&Value::Rows(rows));
    Ok((copy, same))
}

// Whether it is, and is printed so.
fn copied_rows_print(alloc: Global, want: &str) -> Result<bool, Fail> {
    let (copy, same) = copied_rows(alloc)?;
    let printed = prints(alloc, &copy, want)?;
    Ok(same && printed)
}

#[test]
fn keeps_rows(rt: HostRuntime) -> Result<(), Fail> {
    let alloc = rt.alloc();
    assert!(rt; row_count(alloc)? == 2);
    assert!(rt; copied_rows_print(alloc, "[\"k1\" (1, \"x\"), \"k2\" (2, \"y\")]")?);
    assert!(rt; !is_all_kept(alloc, false, true)?);
    assert!(rt; kept_prints(alloc, false, true, "[\"k2\" (2, \"y\")]")?);
    assert!(rt; kept_prints(alloc, false, false, "[]")?);
    Ok(())
}

// The small writers: each appends one piece of a line behind a blank.
ghost use Rattle.std.specs.Prelude.{◌≡◌, ◌∷◌, ◌++◌, OnOk};
ghost use Rattle.formula_text.specs.Canonical.{unslotted};
ghost use Rattle.line_forms.specs.Forms as form;
ghost use Rattle.line_forms.specs.Printed.{behind_tokens, opened_tokens, part_text, spaced};

use formula_text::{Wired, put_formula};
use sig_base::{Name, NoMemory, Scalar, Text, put_decimal, put_quoted, put_scalar};

/// Appends a name.
pub fn put_name(out: &mut Vec<u8>, name: &Name) -> Result<(), NoMemory>
    ensures { OnOk result (out.new.items ≡ out.old.items ++ part_text (form.one form.name) name.now) }
{
    put_fixed(out, name.as_str().as_bytes())
}

/// Appends a name behind `@`.
pub fn put_tag(out: &mut Vec<u8>, name: &Text) -> Result<(), NoMemory>
    ensures { OnOk result (out.new.items ≡ out.old.items ++ part_text (form.one form.tagged) name.now) }
{
    out.extend_from_slice(b" @")?;
    out.extend_from_slice(name.as_str().as_bytes())?;
    Ok(())
}

/// Appends a word or a symbol.
pub fn put_fixed(out: &mut Vec<u8>, text: &[u8]) -> Result<(), NoMemory>
    ensures { OnOk result (out.new.items ≡ out.old.items ++ (32 ∷ text.now)) }
{
    out.push(b' ')?;
    out.extend_from_slice(text)?;
    Ok(())
}

/// Appends a value.
pub fn put_value(out: &mut Vec<u8>, value: &Scalar) -> Result<(), NoMemory>
    ensures { OnOk result (out.new.items ≡ out.old.items ++ part_text (form.one form.value) value.now) }
{
    out.push(b' ')?;
    put_scalar(out, value)
}

/// Appends a text.
pub fn put_key(out: &mut Vec<u8>, key: &Text) -> Result<(), NoMemory>
    ensures { OnOk result (out.new.items ≡ out.old.items ++ part_text (form.one form.key) key.now) }
{
    out.push(b' ')?;
    put_quoted(out, key.as_str())
}

/// Appends a number.
pub fn put_count(out: &mut Vec<u8>, number: u64) -> Result<(), NoMemory>
    ensures { OnOk result (out.new.items ≡ out.old.items ++ part_text (form.one form.count) number) }
{
    out.push(b' ')?;
    put_decimal(out, number)
}

/// Appends this word and a number, if there is one.
pub fn put_count_behind(out: &mut Vec<u8>, word: &[u8], number: Option<u64>) -> Result<(), NoMemory>
    ensures { OnOk result (out.new.items ≡ out.old.items ++ part_text (form.perhaps word.now form.count) number) }
{
    match number {
        None => Ok(()),
        Some(number) => {
            put_fixed(out, word)?;
            put_count(out, number)
        }
    }
}

/// Appends names.
pub fn put_names(out: &mut Vec<u8>, names: &[Name]) -> Result<(), NoMemory>
    ensures { OnOk result (out.new.items ≡ out.old.items ++ part_text (form.many form.name) names.now) }
{
    for name in names {
        put_name(out, name)?;
    }
    Ok(())
}

// Appends the names behind the first of a list, each behind a comma, and the closing parenthesis.
fn put_behind(out: &mut Vec<u8>, names: &[Name]) -> Result<(), NoMemory>
    ensures { OnOk result (out.new.items ≡ out.old.items ++ spaced (behind_tokens form.name names.now)) }
{
    for name in names {
        put_fixed(out, b",")?;
        put_name(out, name)?;
    }
    put_fixed(out, b")")
}

// Appends a list behind its opening parenthesis.
fn put_opened(out: &mut Vec<u8>, names: &[Name]) -> Result<(), NoMemory>
    ensures { OnOk result (out.new.items ≡ out.old.items ++ spaced (opened_tokens form.name names.now)) }
{
    let Some((first, rest)) = names.split_first() else {
        return put_fixed(out, b")");
    };
    put_name(out, first)?;
    put_behind(out, rest)
}

/// Appends names between parentheses.
pub fn put_listed_names(out: &mut Vec<u8>, names: &[Name]) -> Result<(), NoMemory>
    ensures { OnOk result (out.new.items ≡ out.old.items ++ part_text (form.listed form.name) names.now) }
{
    put_fixed(out, b"(")?;
    put_opened(out, names)
}

// Appends the values behind the first of a list, each behind a comma, and the closing parenthesis.
fn put_values_behind(out: &mut Vec<u8>, values: &[Scalar]) -> Result<(), NoMemory>
    ensures { OnOk result (out.new.items ≡ out.old.items ++ spaced (behind_tokens form.value values.now)) }
{
    for value in values {
        put_fixed(out, b",")?;
        put_value(out, value)?;
    }
    put_fixed(out, b")")
}

// Appends values behind their opening parenthesis.
fn put_values_opened(out: &mut Vec<u8>, values: &[Scalar]) -> Result<(), NoMemory>
    ensures { OnOk result (out.new.items ≡ out.old.items ++ spaced (opened_tokens form.value values.now)) }
{
    let Some((first, rest)) = values.split_first() else {
        return put_fixed(out, b")");
    };
    put_value(out, first)?;
    put_values_behind(out, rest)
}

/// Appends values between parentheses.
pub fn put_listed_values(out: &mut Vec<u8>, values: &[Scalar]) -> Result<(), NoMemory>
    ensures { OnOk result (out.new.items ≡ out.old.items ++ part_text (form.listed form.value) values.now) }
{
    put_fixed(out, b"(")?;
    put_values_opened(out, values)
}

/// Appends the arguments of a host formula between parentheses.
pub fn put_arguments(out: &mut Vec<u8>, names: &[Name]) -> Result<(), NoMemory>
    ensures { OnOk result (out.new.items ≡ out.old.items ++ part_text form.arguments names.now) }
{
    put_fixed(out, b"(")?;
    put_opened(out, names)
}

/// Appends the canonical text of a formula.
pub fn put_wired(out: &mut Vec<u8>, wired: &Wired) -> Result<(), NoMemory>
    ensures { OnOk result (out.new.items ≡ out.old.items ++ part_text form.formula (unslotted wired.now.1 wired.now.0)) }
{
    out.push(b' ')?;
    put_formula(out, wired)
}

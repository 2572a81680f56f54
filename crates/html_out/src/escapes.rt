// Texts and attribute values, escaped.
ghost use Rattle.std.specs.Prelude.{◌≡◌, ◌≤◌, ◌+◌, ◌++◌, OnOk, codes, length, true, vec_capacity, vec_len};
ghost use Rattle.std.specs.List.{list_all};
ghost use Rattle.html_out.specs.Html.{attribute, escaped, escaped_value, in_text, in_value, is_plain};

use sig_base::NoMemory;

// So many bytes are put one by one, which takes less than to copy them at once.
const FEW: usize = 8;

// Appends bytes one by one, for which there is room.
fn put_few(out: &mut Vec<u8>, bytes: &[u8])
    requires { vec_len out.old + length bytes.now ≤ vec_capacity out.old }
    ensures { out.new.items ≡ out.old.items ++ bytes.now }
{
    for byte in bytes {
        out.push_reserved(*byte);
    }
}

// Appends bytes at once. It stands apart, as it makes room where there is none.
#[inline(never)]
fn put_many(out: &mut Vec<u8>, bytes: &[u8]) -> Result<(), NoMemory>
    ensures { OnOk result (out.new.items ≡ out.old.items ++ bytes.now) }
{
    out.extend_from_slice(bytes)?;
    Ok(())
}

/// Appends bytes: few one by one where there is room for them, others at once.
#[inline]
pub fn put_bytes(out: &mut Vec<u8>, bytes: &[u8]) -> Result<(), NoMemory>
    ensures { OnOk result (out.new.items ≡ out.old.items ++ bytes.now) }
{
    let room = out.capacity() - out.len();
    if FEW < bytes.len() || room < bytes.len() {
        return put_many(out, bytes);
    }
    put_few(out, bytes);
    Ok(())
}

fn put_char(out: &mut Vec<u8>, c: char) -> Result<(), NoMemory>
    ensures { OnOk result (out.new.items ≡ out.old.items ++ in_text c) }
{
    match c {
        '&' => put_bytes(out, b"&amp;"),
        '\u{a0}' => put_bytes(out, b"&nbsp;"),
        '<' => put_bytes(out, b"&lt;"),
        '>' => put_bytes(out, b"&gt;"),
        _ => {
            let mut buffer = [0; 4];
            put_bytes(out, c.encode_utf8(&mut buffer).as_bytes())
        }
    }
}

fn put_value_char(out: &mut Vec<u8>, c: char) -> Result<(), NoMemory>
    ensures { OnOk result (out.new.items ≡ out.old.items ++ in_value c) }
{
    if c == '"' {
        put_bytes(out, b"&quot;")
    } else {
        put_char(out, c)
    }
}

fn is_plain(byte: u8) -> bool
    ensures { result ≡ is_plain byte }
{
    byte.is_ascii() && byte != b'"' && byte != b'&' && byte != b'<' && byte != b'>'
}

// Whether each byte is a character that is written as it is.
fn are_plain(bytes: &[u8]) -> bool
    ensures { result ≡ list_all is_plain bytes.now }
{
    bytes.iter().all(|byte| is_plain(*byte))
}

/// Whether a text is known to be written in an element as it is.
#[tactic(auto, using(crate::proofs::Plain::plain_text))]
pub fn is_plain_text(text: &str) -> bool
    ensures { result ≡ true → escaped text.now ≡ text.now }
{
    are_plain(text.as_bytes())
}

/// Appends the text, escaped as in an element (WHATWG HTML, escaping a string).
pub fn put_text(out: &mut Vec<u8>, text: &str) -> Result<(), NoMemory>
    ensures { OnOk result (out.new.items ≡ out.old.items ++ escaped text.now) }
{
    if is_plain_text(text) {
        return put_bytes(out, text.as_bytes());
    }
    put_text_chars(out, text)
}

#[tactic(auto, using(std::proofs::lemmas::Str::chars_from_encodes), unfolding(crate::specs::Html::escaped))]
fn put_text_chars(out: &mut Vec<u8>, text: &str) -> Result<(), NoMemory>
    ensures { OnOk result (out.new.items ≡ out.old.items ++ escaped text.now) }
{
    for c in text.chars() {
        put_char(out, c)?;
    }
    Ok(())
}

#[tactic(auto, using(crate::proofs::Plain::plain_value))]
fn put_value(out: &mut Vec<u8>, value: &str) -> Result<(), NoMemory>
    ensures { OnOk result (out.new.items ≡ out.old.items ++ escaped_value value.now) }
{
    if are_plain(value.as_bytes()) {
        return put_bytes(out, value.as_bytes());
    }
    put_value_chars(out, value)
}

#[tactic(auto, using(std::proofs::lemmas::Str::chars_from_encodes), unfolding(crate::specs::Html::escaped_value))]
fn put_value_chars(out: &mut Vec<u8>, value: &str) -> Result<(), NoMemory>
    ensures { OnOk result (out.new.items ≡ out.old.items ++ escaped_value value.now) }
{
    for c in value.chars() {
        put_value_char(out, c)?;
    }
    Ok(())
}

/// Appends an attribute with the space before it, its value in double quotes and escaped (WHATWG HTML, serialising fragments).
#[tactic(auto, unfolding(crate::specs::Html::attribute))]
pub fn put_attr(out: &mut Vec<u8>, name: &str, value: &str) -> Result<(), NoMemory>
    ensures { OnOk result (out.new.items ≡ out.old.items ++ attribute name.now value.now) }
{
    put_bytes(out, b" ")?;
    put_bytes(out, name.as_bytes())?;
    put_bytes(out, b"=\"")?;
    put_value(out, value)?;
    put_bytes(out, b"\"")
}

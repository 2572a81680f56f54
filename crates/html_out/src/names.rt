// Which names there are, and which of them serialise in a way of their own.
ghost use Rattle.std.specs.Prelude.{◌≡◌, ◌<◌, length};
ghost use Rattle.html_out.specs.Html.{good_name, is_raw, is_void};

use sig_base::{MOST_TAG, is_tag};

// Whether an element of a name of more than two letters has neither children nor an end tag.
#[tactic(auto, using(sig_base::proofs::Lengths::unlike), unfolding(crate::specs::Html::is_void))]
fn is_longer_void(name: &str) -> bool
    requires { 2 < length name.now }
    ensures { result ≡ is_void name.now }
{
    match name.len() {
        3 => matches!(name, "col" | "img" | "wbr"),
        4 => matches!(name, "area" | "base" | "link" | "meta"),
        5 => matches!(name, "embed" | "input" | "track" | "frame" | "param"),
        6 => matches!(name, "source" | "keygen"),
        7 => name == "bgsound",
        8 => name == "basefont",
        _ => false,
    }
}

/// Whether an element of this name has neither children nor an end tag when it is serialised (WHATWG HTML, serialising fragments).
#[inline]
#[tactic(auto, using(sig_base::proofs::Lengths::unlike), unfolding(crate::specs::Html::is_void))]
pub fn is_void(name: &str) -> bool
    ensures { result ≡ is_void name.now }
{
    if name.len() <= 2 {
        return matches!(name.as_bytes(), b"br" | b"hr");
    }
    is_longer_void(name)
}

/// Whether the texts in an element of this name are written as they are (WHATWG HTML, serialising fragments, scripting disabled).
#[tactic(auto, using(sig_base::proofs::Lengths::unlike), unfolding(crate::specs::Html::is_raw))]
pub fn is_raw(name: &str) -> bool
    ensures { result ≡ is_raw name.now }
{
    match name.len() {
        3 => name == "xmp",
        5 => name == "style",
        6 => matches!(name, "script" | "iframe"),
        7 => name == "noembed",
        8 => name == "noframes",
        9 => name == "plaintext",
        _ => false,
    }
}

/// Whether this is a name of an element or of an attribute: a small letter, then small letters, digits and `-`, at most
/// `MOST_TAG` bytes.
#[tactic(auto, unfolding(crate::specs::Html::good_name))]
pub fn good_name(name: &str) -> bool
    ensures { result ≡ good_name name.now }
{
    is_tag(name.as_bytes()) && name.len() <= MOST_TAG
}

// What a text says.
ghost use Rattle.std.specs.Prelude.{◌≡◌, ◌++◌, OnOk};
ghost use Rattle.page_model.specs.Html.{characters};

use html_out::{is_plain_text, put_bytes, put_text};
use sig_base::{NoMemory, Text};
use std::marker::Model;

/// What a text says, and whether it is known to be written in an element as it is: this is looked at once, when it comes to say it.
pub struct TextNode {
    text: Text,
    plain: bool,
}

impl Drop for TextNode {
    fn drop(self) {
        let TextNode { text: _, plain: _ } = self;
    }
}

impl Model for TextNode {
    ghost use Rattle.std.specs.Prelude.{◌≡◌, ℕ, List, true};
    ghost use Rattle.html_out.specs.Html.{escaped};

    ghost Value = { List ℕ };

    ghost view = { λ t. t.text };

    ghost invariant = { λ t. t.plain ≡ true → escaped t.text ≡ t.text };
}

impl TextNode {
    /// One that says this.
    pub fn new(text: Text) -> TextNode
        ensures { result ≡ text }
    {
        let plain = is_plain_text(text.as_str());
        TextNode { text, plain }
    }

    /// What it says.
    pub fn text(&self) -> &Text
        ensures { result.now ≡ self.now }
    {
        &self.text
    }

    /// Appends its characters, as they are or escaped.
    pub fn write(&self, out: &mut Vec<u8>, raw: bool) -> Result<(), NoMemory>
        ensures { OnOk result (out.new.items ≡ out.old.items ++ characters raw self.now) }
    {
        let text = self.text.as_str();
        if raw || self.plain {
            return put_bytes(out, text.as_bytes());
        }
        put_text(out, text)
    }
}

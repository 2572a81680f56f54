// Names of elements.
ghost use Rattle.std.specs.Prelude.{◌≡◌};
ghost use Rattle.html_out.specs.Html.{is_raw, is_void};

use html_out::{is_raw, is_void};
use sig_base::Text;
use std::marker::Model;

/// The name of an element, and how an element of this name is written: this is looked at once, when the element comes.
pub struct ElementName {
    name: Text,
    void: bool,
    raw: bool,
}

impl Drop for ElementName {
    fn drop(self) {
        let ElementName {
            name: _,
            void: _,
            raw: _,
        } = self;
    }
}

impl Model for ElementName {
    ghost use Rattle.std.specs.Prelude.{◌≡◌, ℕ, List};
    ghost use Rattle.html_out.specs.Html.{is_raw, is_void};

    ghost Value = { List ℕ };

    ghost view = { λ n. n.name };

    ghost invariant = { λ n. (n.void ≡ is_void n.name) × (n.raw ≡ is_raw n.name) };
}

impl ElementName {
    /// The name that is this text.
    pub fn new(name: Text) -> ElementName
        ensures { result ≡ name }
    {
        let void = is_void(name.as_str());
        let raw = is_raw(name.as_str());
        ElementName { name, void, raw }
    }

    /// Its characters.
    pub fn as_str(&self) -> &str
        ensures { result.now ≡ self.now }
    {
        self.name.as_str()
    }

    /// Whether an element of this name has neither children nor an end tag.
    pub fn is_void(&self) -> bool
        ensures { result ≡ is_void self.now }
    {
        self.void
    }

    /// Whether the texts in an element of this name are written as they are.
    pub fn is_raw(&self) -> bool
        ensures { result ≡ is_raw self.now }
    {
        self.raw
    }
}
